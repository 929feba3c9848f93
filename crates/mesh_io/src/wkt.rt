//! Tables with a column of geometries as text (WKT), as GeoJSON.
use crate::sieving::{Sieved, Skipped, is_want_of_memory};
use csv::{ByteRecord, Reader as TableReader, ReaderBuilder};
use json::{Scratch, is_number, is_valid};
use mesh_files::{FileFault, Reason, push_json_text};
use std::alloc::{AllocError, Global};

/// A kind of geometry.
#[derive(Clone, Copy)]
struct Kind {
    word: &'static str,
    /// What GeoJSON calls it.
    name: &'static str,
    /// The depth of the brackets that GeoJSON has not.
    dropped: u32,
}

static KINDS: [Kind; 6] = [
    Kind {
        word: "POINT",
        name: "Point",
        dropped: 1,
    },
    Kind {
        word: "LINESTRING",
        name: "LineString",
        dropped: 0,
    },
    Kind {
        word: "POLYGON",
        name: "Polygon",
        dropped: 0,
    },
    Kind {
        word: "MULTIPOINT",
        name: "MultiPoint",
        dropped: 2,
    },
    Kind {
        word: "MULTILINESTRING",
        name: "MultiLineString",
        dropped: 0,
    },
    Kind {
        word: "MULTIPOLYGON",
        name: "MultiPolygon",
        dropped: 0,
    },
];

/// The kind of this name, which may have further letters behind it that say what numbers are.
fn kind_named(word: &str) -> Option<&'static Kind> {
    let word = word.trim_end_matches(|c: char| c == 'Z' || c == 'M' || c == 'z' || c == 'm');
    for kind in &KINDS {
        if word.eq_ignore_ascii_case(kind.word) {
            return Some(kind);
        }
    }
    None
}

/// Puts a number behind a text as JSON spells it, and tells whether it is one.
fn push_number(out: &mut String, word: &str) -> Result<bool, AllocError> {
    let (sign, digits) = match word.strip_prefix('-') {
        Some(digits) => ("-", digits),
        None => ("", word.strip_prefix('+').unwrap_or(word)),
    };
    let mut spelled = String::new(*out.allocator());
    spelled.push_str(sign)?;
    if digits.starts_with('.') {
        spelled.push('0')?;
    }
    spelled.push_str(digits)?;
    if digits.ends_with('.') {
        spelled.push('0')?;
    }
    if !is_number(spelled.as_str()) {
        return Ok(false);
    }
    out.push_str(spelled.as_str())?;
    Ok(true)
}

/// Puts a position behind a text: its numbers with commas between them, without the third where
/// that is no height.
fn push_position(out: &mut String, words: &str, has_measures: bool) -> Result<bool, AllocError> {
    let mut count = 0u32;
    for word in words.split_ascii_whitespace() {
        count = count.saturating_add(1);
        if has_measures && count > 2 {
            continue;
        }
        out.push(if count == 1 { '[' } else { ',' })?;
        if !push_number(out, word)? {
            return Ok(false);
        }
    }
    out.push(']')?;
    Ok(count > 1)
}

/// The coordinates of a geometry as far as they are written anew.
#[derive(Drop)]
struct Coordinates<'a> {
    kind: &'a Kind,
    has_measures: bool,
    depth: u32,
    words: String,
}

impl Coordinates<'_> {
    /// Puts the position behind a text that has been read, if one has.
    fn end_position(&mut self, out: &mut String) -> Result<bool, AllocError> {
        if self.words.as_str().trim().is_empty() {
            return Ok(true);
        }
        let is_right = push_position(out, self.words.as_str(), self.has_measures)?;
        self.words.clear();
        Ok(is_right)
    }

    /// Takes a character in, and tells whether it may stand there.
    fn take(&mut self, c: char, out: &mut String) -> Result<bool, AllocError> {
        if c == '(' {
            self.depth = self.depth.saturating_add(1);
            if self.depth != self.kind.dropped {
                out.push('[')?;
            }
            return Ok(true);
        }
        if c != ')' && c != ',' {
            self.words.push(c)?;
            return Ok(true);
        }
        if !self.end_position(out)? {
            return Ok(false);
        }
        if c == ',' {
            out.push(',')?;
        } else if self.depth != self.kind.dropped {
            out.push(']')?;
        }
        self.depth = self.depth.saturating_sub(u32::from(c == ')'));
        Ok(true)
    }

    /// Writes coordinates behind a text, and tells whether they are some.
    fn push(&mut self, text: &str, out: &mut String) -> Result<bool, AllocError> {
        for c in text.chars() {
            if !self.take(c, out)? {
                return Ok(false);
            }
        }
        Ok(self.depth == 0 && self.words.as_str().trim().is_empty())
    }
}

/// The text of a geometry without the number of its reference system.
fn without_system(text: &str) -> &str {
    match text.split_once(';') {
        Some((_, rest)) => rest.trim(),
        None => text,
    }
}

/// Whether the words before coordinates say that their third number is no height.
fn says_measures(words: &str) -> bool {
    let words = words.trim();
    let has_height = words.ends_with("ZM") || words.ends_with("zm");
    !has_height && (words.ends_with('M') || words.ends_with('m'))
}

/// Writes a geometry behind a text, and tells whether it is one.
fn push_geometry(out: &mut String, text: &str, alloc: Global) -> Result<bool, AllocError> {
    let text = without_system(text.trim());
    if text.is_empty() || text.ends_with("EMPTY") || text.ends_with("empty") {
        out.push_str("null")?;
        return Ok(true);
    }
    let Some(start) = text.find('(') else {
        return Ok(false);
    };
    let (words, body) = text.split_at(start);
    let first = words.split_ascii_whitespace().next().unwrap_or("");
    let Some(kind) = kind_named(first) else {
        return Ok(false);
    };
    let name = kind.name;
    write!(out, "{{\"type\":\"{name}\",\"coordinates\":")?;
    let mut coordinates = Coordinates {
        kind,
        has_measures: says_measures(words),
        depth: 0,
        words: String::new(alloc),
    };
    let is_right = coordinates.push(body, out)?;
    out.push('}')?;
    Ok(is_right)
}

/// A table that is written as GeoJSON, a feature for each row, in the row's line.
#[derive(Drop)]
struct Rewriting {
    header: ByteRecord,
    /// How many columns there are up to the last with a name.
    columns: usize,
    /// The column of geometries.
    column: usize,
    text: String,
    line: u64,
    has_feature: bool,
    skips_bad: bool,
    faults: Vec<FileFault>,
}

/// The bytes of a field.
fn field_bytes(row: &ByteRecord, column: usize) -> &[u8] {
    row.get(column).unwrap_or(&[]).trim_ascii()
}

/// The text of a field, if it is UTF-8.
fn field_text(row: &ByteRecord, column: usize) -> &str {
    str::from_utf8(field_bytes(row, column))
        .unwrap_or("")
        .trim()
}

/// Writes a field as a text of JSON, with marks for bytes that are no UTF-8.
fn push_field(text: &mut String, field: &[u8], alloc: Global) -> Result<(), AllocError> {
    if let Ok(field) = str::from_utf8(field) {
        return push_json_text(text, field.trim(), alloc);
    }
    let marked = String::from_utf8_lossy(alloc, field)?;
    push_json_text(text, marked.as_str(), alloc)
}

/// The line that a row begins in.
fn row_line(row: &ByteRecord) -> u64 {
    match row.position() {
        Some(position) => position.line(),
        None => 1,
    }
}

impl Rewriting {
    /// Ends lines up to this one.
    fn go_to(&mut self, line: u64) -> Result<(), AllocError> {
        for _ in self.line..line {
            self.text.push('\n')?;
        }
        self.line = self.line.max(line);
        Ok(())
    }

    /// Writes a field of a row as a member, behind this text.
    fn push_member(
        &mut self,
        row: &ByteRecord,
        column: usize,
        before: &str,
        alloc: Global,
    ) -> Result<(), AllocError> {
        self.text.push_str(before)?;
        push_field(&mut self.text, field_bytes(&self.header, column), alloc)?;
        self.text.push(':')?;
        let field = field_text(row, column);
        if is_number(field) {
            self.text.push_str(field)
        } else if field_bytes(row, column).is_empty() {
            self.text.push_str("null")
        } else {
            push_field(&mut self.text, field_bytes(row, column), alloc)
        }
    }

    /// Writes the other fields of a row as properties.
    fn push_properties(&mut self, row: &ByteRecord, alloc: Global) -> Result<(), AllocError> {
        let mut before = "";
        for column in 0..self.columns {
            if column != self.column {
                self.push_member(row, column, before, alloc)?;
                before = ",";
            }
        }
        Ok(())
    }

    /// Writes a row as a feature, with this geometry.
    fn push_feature(
        &mut self,
        row: &ByteRecord,
        geometry: &str,
        alloc: Global,
    ) -> Result<(), AllocError> {
        if self.has_feature {
            self.text.push(',')?;
        }
        self.has_feature = true;
        self.go_to(row_line(row))?;
        self.text
            .push_str("{\"type\":\"Feature\",\"properties\":{")?;
        self.push_properties(row, alloc)?;
        self.text.push_str("},\"geometry\":")?;
        self.text.push_str(geometry)?;
        self.text.push('}')
    }
}

/// What is expected in a column of geometries.
const GEOMETRY: &str = "a point, a line or a polygon of WKT";

/// What is wrong with a row.
fn fault_of_row(row: &ByteRecord, reason: Reason) -> FileFault {
    FileFault::at(u32::try_from(row_line(row)).unwrap_or(u32::MAX), reason)
}

/// Whether a text is JSON.
fn is_json(text: &str, alloc: Global) -> Result<bool, AllocError> {
    let mut scratch = Scratch::new(alloc);
    is_valid(text, &mut scratch)
}

/// Takes a row in.
fn take_row(rewriting: &mut Rewriting, row: &ByteRecord, alloc: Global) -> Result<(), FileFault> {
    if row.len() < rewriting.columns || row.len() > rewriting.header.len() {
        return Err(fault_of_row(row, Reason::OtherFields));
    }
    let mut geometry = String::new(alloc);
    let is_right = push_geometry(&mut geometry, field_text(row, rewriting.column), alloc)?;
    if !is_right || !is_json(geometry.as_str(), alloc)? {
        return Err(fault_of_row(row, Reason::Expected(GEOMETRY)));
    }
    rewriting.push_feature(row, geometry.as_str(), alloc)?;
    Ok(())
}

/// How many columns a header has up to the last with a name.
fn named_columns(header: &ByteRecord) -> usize {
    let mut count = 0;
    for column in 0..header.len() {
        if !field_bytes(header, column).is_empty() {
            count = column.saturating_add(1);
        }
    }
    count
}

impl Rewriting {
    /// Takes a row in; where bad ones are left out, as a feature without geometry if it is bad.
    fn take(&mut self, row: &ByteRecord, alloc: Global) -> Result<(), FileFault> {
        let Err(fault) = take_row(self, row, alloc) else {
            return Ok(());
        };
        if !self.skips_bad || is_want_of_memory(&fault) {
            return Err(fault);
        }
        self.faults.push(fault)?;
        self.push_feature(row, "null", alloc)?;
        Ok(())
    }

    /// Takes the next row in, if there is one.
    fn take_next(
        &mut self,
        reader: &mut TableReader<&[u8]>,
        row: &mut ByteRecord,
        alloc: Global,
    ) -> Result<bool, FileFault> {
        match reader.read_byte_record(row) {
            Ok(true) => {}
            Ok(false) => return Ok(false),
            // a text in memory is read unless there is no more of that
            Err(_) => return Err(FileFault::at(0, Reason::NoMemory)),
        }
        self.take(row, alloc)?;
        Ok(true)
    }

    /// Takes all rows in.
    fn take_all(
        &mut self,
        reader: &mut TableReader<&[u8]>,
        alloc: Global,
    ) -> Result<(), FileFault> {
        let mut row = ByteRecord::new(alloc);
        self.text
            .push_str("{\"type\":\"FeatureCollection\",\"features\":[")?;
        for _ in 0..u64::MAX {
            if !self.take_next(reader, &mut row, alloc)? {
                break;
            }
        }
        self.text.push_str("]}")?;
        Ok(())
    }
}

/// The reader of a table whose fields have this between them.
fn open_table(text: &[u8], separator: u8, alloc: Global) -> TableReader<&[u8]> {
    ReaderBuilder::new()
        .has_headers(false)
        .flexible(true)
        .delimiter(separator)
        .from_reader(alloc, text)
}

/// The header of a table.
fn header_of(reader: &mut TableReader<&[u8]>, alloc: Global) -> Result<ByteRecord, FileFault> {
    let mut header = ByteRecord::new(alloc);
    match reader.read_byte_record(&mut header) {
        Ok(_) => Ok(header),
        // a text in memory is read unless there is no more of that
        Err(_) => Err(FileFault::at(0, Reason::NoMemory)),
    }
}

/// The column of geometries in a header, if it has one.
fn geometry_column(header: &ByteRecord) -> Option<usize> {
    for column in 0..header.len() {
        if field_text(header, column).eq_ignore_ascii_case("wkt") {
            return Some(column);
        }
    }
    None
}

/// Whether a table that begins with this line has a column of geometries.
pub fn has_geometries(line: &[u8], separator: u8, alloc: Global) -> Result<bool, FileFault> {
    let mut reader = open_table(line, separator, alloc);
    Ok(geometry_column(&header_of(&mut reader, alloc)?).is_some())
}

/// A table with a column of geometries as GeoJSON, a feature for each row. Bad rows are left out if
/// that is asked for.
pub fn features_of(
    text: &[u8],
    separator: u8,
    skips_bad: bool,
    alloc: Global,
) -> Result<Sieved, FileFault> {
    let mut reader = open_table(text, separator, alloc);
    let header = header_of(&mut reader, alloc)?;
    let column = geometry_column(&header).unwrap_or(usize::MAX);
    let mut rewriting = Rewriting {
        columns: named_columns(&header),
        header,
        column,
        text: String::new(alloc),
        line: 1,
        has_feature: false,
        skips_bad,
        faults: Vec::new(alloc),
    };
    rewriting.take_all(&mut reader, alloc)?;
    let Rewriting { text, faults, .. } = rewriting;
    Ok(Sieved {
        text: text.into_bytes(),
        skipped: Skipped {
            faults,
            without_data: 0,
        },
    })
}
