//! Rows and features that are left out of what is read.
use csv::{ByteRecord, Reader as TableReader, ReaderBuilder};
use decimal_numbers::Decimal;
use json::{MAX_DEPTH, Reader, Scratch, Token};
use mesh_files::{ColumnNames, FileFault, FileLine, Reason, read_csv, read_geojson};
use std::alloc::{AllocError, Global};

/// What is left out: rows and features that are bad, and rows with this height.
#[derive(Clone, Copy)]
pub struct Sieve {
    pub skips_bad: bool,
    pub nodata: Option<Decimal>,
}

impl Sieve {
    /// Whether nothing is left out.
    pub fn is_open(&self) -> bool {
        !self.skips_bad && self.nodata.is_none()
    }
}

/// What was left out: why bad rows and features were, and how many rows without data.
#[derive(Drop)]
pub struct Skipped {
    pub faults: Vec<FileFault>,
    pub without_data: u64,
}

impl Skipped {
    /// Nothing.
    pub fn new(alloc: Global) -> Self {
        Skipped {
            faults: Vec::new(alloc),
            without_data: 0,
        }
    }
}

/// A text that is written anew without what is left out, of which only the line ends are kept.
#[derive(Drop)]
pub struct Sieved {
    pub text: Vec<u8>,
    pub skipped: Skipped,
}

impl Sieved {
    /// Nothing yet.
    fn new(alloc: Global) -> Self {
        Sieved {
            text: Vec::new(alloc),
            skipped: Skipped::new(alloc),
        }
    }
}

/// How many lines end in a text.
fn line_ends(text: &[u8]) -> usize {
    text.iter().filter(|byte| **byte == b'\n').count()
}

/// Puts as many line ends behind a text as another has.
fn push_line_ends(text: &mut Vec<u8>, other: &[u8]) -> Result<(), AllocError> {
    for _ in 0..line_ends(other) {
        text.push(b'\n')?;
    }
    Ok(())
}

/// Why a row is left out.
#[derive(Clone, Copy)]
enum Lack {
    Nothing,
    Data,
    Sense(Reason),
}

/// Whether two numbers are one.
fn is_equal(one: &Decimal, other: &Decimal) -> bool {
    let (one, other) = (one.shortened(), other.shortened());
    one.magnitude == other.magnitude
        && one.digits == other.digits
        && (one.negative == other.negative || one.magnitude == 0)
}

/// Whether a text could not be read for want of memory.
pub fn is_want_of_memory(fault: &FileFault) -> bool {
    matches!(fault.reason, Reason::NoMemory)
}

/// What a table of one row lacks.
fn lack_of(
    table: &[u8],
    names: ColumnNames<'_>,
    sieve: &Sieve,
    alloc: Global,
) -> Result<Lack, FileFault> {
    let drawing = match read_csv(table, names, alloc) {
        Ok(drawing) => drawing,
        Err(fault) if is_want_of_memory(&fault) => return Err(fault),
        Err(fault) if sieve.skips_bad => return Ok(Lack::Sense(fault.reason)),
        Err(_) => return Ok(Lack::Nothing),
    };
    Ok(match (&sieve.nodata, drawing.height(0)) {
        (Some(nodata), Some(height)) if is_equal(nodata, &height.decimal) => Lack::Data,
        _ => Lack::Nothing,
    })
}

/// Rows of a table that are looked at one by one, each as a table with the header of all.
#[derive(Drop)]
struct Rows<'a> {
    text: &'a [u8],
    header: &'a [u8],
    /// The header, and the row behind it.
    one: Vec<u8>,
    sieved: Sieved,
}

impl Rows<'_> {
    /// Takes the bytes of a row in, which begins in this line, or leaves it out.
    fn take(
        &mut self,
        row: &[u8],
        line: u32,
        names: ColumnNames<'_>,
        sieve: &Sieve,
        alloc: Global,
    ) -> Result<(), FileFault> {
        self.one.clear();
        self.one.extend_from_slice(self.header)?;
        self.one.extend_from_slice(row)?;
        let skipped = &mut self.sieved.skipped;
        match lack_of(self.one.as_slice(), names, sieve, alloc)? {
            Lack::Nothing => {
                self.sieved.text.extend_from_slice(row)?;
                return Ok(());
            }
            Lack::Data => skipped.without_data = skipped.without_data.saturating_add(1),
            Lack::Sense(reason) => skipped.faults.push(FileFault::at(line, reason))?,
        }
        push_line_ends(&mut self.sieved.text, row)?;
        Ok(())
    }
}

/// Where a row begins and ends in its text, and its line.
#[derive(Clone, Copy)]
struct RowSpan {
    start: usize,
    end: usize,
    line: u32,
}

/// A count as an index in memory.
fn as_index(count: u64) -> usize {
    usize::try_from(count).unwrap_or(usize::MAX)
}

/// Reads a row, if there is one.
fn next_row(
    reader: &mut TableReader<&[u8]>,
    row: &mut ByteRecord,
) -> Result<Option<RowSpan>, FileFault> {
    let start = as_index(reader.position().byte());
    match reader.read_byte_record(row) {
        Ok(true) => {}
        Ok(false) => return Ok(None),
        // a text in memory is read unless there is no more of that
        Err(_) => return Err(FileFault::at(0, Reason::NoMemory)),
    }
    let line = match row.position() {
        Some(position) => position.line(),
        None => 0,
    };
    Ok(Some(RowSpan {
        start,
        end: as_index(reader.position().byte()),
        line: u32::try_from(line).unwrap_or(u32::MAX),
    }))
}

/// Takes the next row in, or leaves it out, and tells whether there was one.
fn take_next(
    rows: &mut Rows<'_>,
    reader: &mut TableReader<&[u8]>,
    row: &mut ByteRecord,
    names: ColumnNames<'_>,
    sieve: &Sieve,
    alloc: Global,
) -> Result<bool, FileFault> {
    let Some(span) = next_row(reader, row)? else {
        return Ok(false);
    };
    let bytes = rows.text.get(span.start..span.end).unwrap_or(&[]);
    rows.take(bytes, span.line, names, sieve, alloc)?;
    Ok(true)
}

/// Takes all rows in behind the header, or leaves them out.
fn take_rows(
    rows: &mut Rows<'_>,
    reader: &mut TableReader<&[u8]>,
    names: ColumnNames<'_>,
    sieve: &Sieve,
    alloc: Global,
) -> Result<(), FileFault> {
    let mut row = ByteRecord::new(alloc);
    for _ in 0..u64::MAX {
        if !take_next(rows, reader, &mut row, names, sieve, alloc)? {
            break;
        }
    }
    Ok(())
}

/// Whether a header has the columns that are needed.
fn is_header(header: &[u8], names: ColumnNames<'_>, alloc: Global) -> Result<bool, FileFault> {
    match read_csv(header, names, alloc) {
        Ok(_) => Ok(true),
        Err(fault) if is_want_of_memory(&fault) => Err(fault),
        Err(_) => Ok(false),
    }
}

/// A table without the rows that are left out. Where its header is bad, all of it.
pub fn sieve_rows(
    text: &[u8],
    names: ColumnNames<'_>,
    sieve: &Sieve,
    alloc: Global,
) -> Result<Sieved, FileFault> {
    let mut reader = ReaderBuilder::new()
        .has_headers(false)
        .flexible(true)
        .from_reader(alloc, text);
    let mut row = ByteRecord::new(alloc);
    let end = match next_row(&mut reader, &mut row)? {
        Some(span) => span.end,
        None => text.len(),
    };
    let header = text.get(..end).unwrap_or(&[]);
    let mut rows = Rows {
        text,
        header,
        one: Vec::new(alloc),
        sieved: Sieved::new(alloc),
    };
    if !is_header(header, names, alloc)? {
        rows.sieved.text.extend_from_slice(text)?;
        return Ok(rows.sieved);
    }
    rows.sieved.text.extend_from_slice(header)?;
    take_rows(&mut rows, &mut reader, names, sieve, alloc)?;
    Ok(rows.sieved)
}

/// What stands for a feature that is left out.
const NO_FEATURE: &[u8] = b"{\"type\":\"Feature\",\"geometry\":null}";

/// A value without the comma that may follow it.
fn without_comma(raw: &[u8]) -> &[u8] {
    let value = raw.trim_ascii_end();
    match value.strip_suffix(b",") {
        Some(value) => value.trim_ascii_end(),
        None => value,
    }
}

/// Features that are looked at one by one.
#[derive(Drop)]
struct Features<'a> {
    text: &'a [u8],
    reader: Reader<'a>,
    /// How much of the text is in the new one, and how many lines end there.
    copied: usize,
    lines: usize,
    count: u32,
    sieved: Sieved,
}

impl Features<'_> {
    /// Copies the text up to an index.
    fn copy_to(&mut self, end: usize) -> Result<(), AllocError> {
        let part = self.text.get(self.copied..end).unwrap_or(&[]);
        self.sieved.text.extend_from_slice(part)?;
        self.pass_to(end);
        Ok(())
    }

    /// Passes the text up to an index.
    fn pass_to(&mut self, end: usize) {
        let part = self.text.get(self.copied..end).unwrap_or(&[]);
        self.lines = self.lines.saturating_add(line_ends(part));
        self.copied = end;
    }

    /// Leaves the feature out that ends at a place, with what is wrong with it.
    fn leave_out(&mut self, end: usize, fault: FileFault) -> Result<(), AllocError> {
        let before = u32::try_from(self.lines).unwrap_or(u32::MAX);
        let file_line = FileLine {
            line: before.saturating_add(fault.file_line.line.max(1)),
            feature: self.count,
        };
        self.sieved.skipped.faults.push(FileFault {
            file_line,
            reason: fault.reason,
        })?;
        let feature = self.text.get(self.copied..end).unwrap_or(&[]);
        self.sieved.text.extend_from_slice(NO_FEATURE)?;
        push_line_ends(&mut self.sieved.text, feature)?;
        self.pass_to(end);
        Ok(())
    }

    /// Takes the next feature of the list in, or leaves it out, and tells whether there was one.
    fn take_next(&mut self, alloc: Global) -> Result<bool, FileFault> {
        if self.reader.take_end_array() {
            return Ok(false);
        }
        let start = self.reader.offset();
        if self.reader.skip_value(MAX_DEPTH).is_err() {
            return Ok(false);
        }
        let raw = self.text.get(start..self.reader.offset());
        let feature = without_comma(raw.unwrap_or(&[]));
        self.copy_to(start)?;
        self.count = self.count.saturating_add(1);
        match read_geojson(feature, alloc) {
            Ok(_) => {}
            Err(fault) if is_want_of_memory(&fault) => return Err(fault),
            Err(fault) => self.leave_out(start.saturating_add(feature.len()), fault)?,
        }
        Ok(true)
    }

    /// Goes to the list of features, and tells whether there is one.
    fn find_list(&mut self) -> bool {
        if !matches!(self.reader.next(), Some(Token::BeginObject)) {
            return false;
        }
        for _ in 0..u64::MAX {
            match self.reader.next_key() {
                Ok(Some("features")) => {
                    return matches!(self.reader.next(), Some(Token::BeginArray));
                }
                Ok(Some(_)) if self.reader.skip_value(MAX_DEPTH).is_ok() => {}
                _ => return false,
            }
        }
        false
    }

    /// Takes all features in, or leaves them out.
    fn take_all(&mut self, alloc: Global) -> Result<(), FileFault> {
        if self.find_list() {
            for _ in 0..u64::MAX {
                if !self.take_next(alloc)? {
                    break;
                }
            }
        }
        self.copy_to(self.text.len())?;
        Ok(())
    }
}

/// GeoJSON without the features that are bad. Where it is no JSON, all of it.
pub fn sieve_features(bytes: &[u8], alloc: Global) -> Result<Sieved, FileFault> {
    let mut scratch = Scratch::new(alloc);
    let reader = Reader::new(str::from_utf8(bytes).unwrap_or(""), &mut scratch)?;
    let mut features = Features {
        text: bytes,
        reader,
        copied: 0,
        lines: 0,
        count: 0,
        sieved: Sieved::new(alloc),
    };
    features.take_all(alloc)?;
    let Features { sieved, .. } = features;
    Ok(sieved)
}
