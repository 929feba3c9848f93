//! The readers of records: of the further columns of tables, and of the properties of features.
use crate::columns::{Columns, shown_name, word_of};
use crate::csv_tables::{fault_of, header_of, open_table};
use crate::{ColumnNames, FileFault, Reason, Records, RecordsOf};
use csv::{ByteRecord, Reader as TableReader};
use json::{MAX_DEPTH, Reader, Scratch, Token, is_number};
use std::alloc::{AllocError, Global};

/// Puts the bytes of a field behind a text, with a mark for each that is not UTF-8.
fn push_marked(text: &mut String, field: &[u8]) -> Result<(), AllocError> {
    for byte in field {
        text.push(if byte.is_ascii() {
            char::from(*byte)
        } else {
            char::REPLACEMENT_CHARACTER
        })?;
    }
    Ok(())
}

/// Takes a field of a row in, if it is not empty.
fn add_field(
    records: &mut Records,
    column: u32,
    field: &[u8],
    alloc: Global,
) -> Result<(), AllocError> {
    if field.is_empty() {
        return Ok(());
    }
    if let Ok(text) = str::from_utf8(field) {
        return records.add(column, text, !is_number(text));
    }
    let mut text = String::new(alloc);
    push_marked(&mut text, field)?;
    records.add(column, text.as_str(), true)
}

/// Takes the columns of a header in that are not of coordinates, and gives where they are.
fn add_columns(
    records: &mut Records,
    header: &ByteRecord,
    columns: &Columns,
    alloc: Global,
) -> Result<Vec<usize>, AllocError> {
    let mut indexes = Vec::new(alloc);
    for index in 0..header.len() {
        if columns.is_number(index) {
            continue;
        }
        indexes.push(index)?;
        if let Some(name) = shown_name(header, index) {
            records.add_column(name)?;
            continue;
        }
        let number = index.saturating_add(1);
        let mut name = String::new(alloc);
        write!(name, "column {number}")?;
        records.add_column(name.as_str())?;
    }
    Ok(indexes)
}

/// Takes a row in.
fn add_row(
    records: &mut Records,
    row: &ByteRecord,
    indexes: &[usize],
    alloc: Global,
) -> Result<(), AllocError> {
    for (column, index) in indexes.iter().enumerate() {
        let column = u32::try_from(column).unwrap_or(u32::MAX);
        add_field(records, column, word_of(row, *index), alloc)?;
    }
    records.end_record()
}

/// Takes the rows of a table in.
fn add_rows(
    reader: &mut TableReader<&[u8]>,
    records: &mut Records,
    indexes: &[usize],
    alloc: Global,
) -> Result<(), FileFault> {
    let mut row = ByteRecord::new(alloc);
    for _ in 0..u64::MAX {
        match reader.read_byte_record(&mut row) {
            Ok(true) => add_row(records, &row, indexes, alloc)?,
            Ok(false) => break,
            Err(error) => return Err(fault_of(&error, 1)),
        }
    }
    Ok(())
}

/// The further columns of a table whose points were read, a record for each row. Values that are
/// numbers as JSON spells them are numbers.
pub fn table_records(
    text: &[u8],
    names: ColumnNames<'_>,
    alloc: Global,
) -> Result<Records, FileFault> {
    let mut records = Records::new(RecordsOf::Rows, alloc);
    let mut reader = open_table(text, alloc);
    let header = header_of(&mut reader, alloc)?;
    let columns = Columns::of(&header, names)?;
    let indexes = add_columns(&mut records, &header, &columns, alloc)?;
    add_rows(&mut reader, &mut records, indexes.as_slice(), alloc)?;
    Ok(records)
}

/// A text of GeoJSON that was read once, and is walked through for its properties.
#[derive(Drop)]
struct PropertyText<'a> {
    reader: Reader<'a>,
    text: &'a [u8],
}

/// What a member of an object is.
#[derive(Clone, Copy)]
enum Member {
    /// There is none: the object ends.
    End,
    Properties,
    Features,
    Other,
}

/// The fault of a text that is not the one that was read.
fn json_fault() -> FileFault {
    FileFault::at(0, Reason::NotJson(MAX_DEPTH))
}

/// Takes a text of JSON in that is in quotes and has escapes.
fn add_escaped(
    records: &mut Records,
    column: u32,
    raw: &str,
    alloc: Global,
) -> Result<(), AllocError> {
    let mut scratch = Scratch::new(alloc);
    let mut reader = Reader::new(raw, &mut scratch)?;
    match reader.next() {
        Some(Token::String(text)) => records.add(column, text, true),
        _ => Ok(()),
    }
}

/// Takes a value of JSON in as it is spelled; null is none.
fn add_spelled(
    records: &mut Records,
    column: u32,
    raw: &str,
    alloc: Global,
) -> Result<(), AllocError> {
    if raw == "null" {
        return Ok(());
    }
    if !raw.starts_with('"') {
        return records.add(column, raw, false);
    }
    if raw.as_bytes().contains(&b'\\') {
        return add_escaped(records, column, raw, alloc);
    }
    records.add(column, raw.trim_matches('"'), true)
}

impl PropertyText<'_> {
    /// Passes over a value.
    fn skip(&mut self) -> Result<(), FileFault> {
        match self.reader.skip_value(MAX_DEPTH) {
            Ok(()) => Ok(()),
            Err(_) => Err(json_fault()),
        }
    }

    /// The next name of a member, if there is one.
    fn next_key(&mut self) -> Result<Option<&str>, FileFault> {
        match self.reader.next_key() {
            Ok(key) => Ok(key),
            Err(_) => Err(json_fault()),
        }
    }

    /// Takes the value of a property in. The reader stands where the value begins, and then behind
    /// the comma that follows it.
    fn add_value(
        &mut self,
        records: &mut Records,
        column: u32,
        alloc: Global,
    ) -> Result<(), FileFault> {
        let start = self.reader.offset();
        self.skip()?;
        let end = self.reader.offset();
        let raw = str::from_utf8(self.text.get(start..end).unwrap_or(&[])).unwrap_or("");
        let raw = raw.trim().trim_end_matches(',').trim_end();
        add_spelled(records, column, raw, alloc)?;
        Ok(())
    }

    /// Takes the next property in, if there is one.
    fn add_property(&mut self, records: &mut Records, alloc: Global) -> Result<bool, FileFault> {
        let Some(name) = self.next_key()? else {
            return Ok(false);
        };
        let column = records.column_named(name)?;
        self.add_value(records, column, alloc)?;
        Ok(true)
    }

    /// Takes properties in.
    fn add_properties(&mut self, records: &mut Records, alloc: Global) -> Result<(), FileFault> {
        if !matches!(self.reader.next(), Some(Token::BeginObject)) {
            return Ok(());
        }
        for _ in 0..u64::MAX {
            if !self.add_property(records, alloc)? {
                break;
            }
        }
        Ok(())
    }
}

impl PropertyText<'_> {
    /// Takes the next member of a feature in, or of the object round features, if there is one, and
    /// tells what it is. Features are left to be taken in.
    fn add_member(&mut self, records: &mut Records, alloc: Global) -> Result<Member, FileFault> {
        let member = match self.next_key()? {
            None => return Ok(Member::End),
            Some("properties") => Member::Properties,
            Some("features") => Member::Features,
            Some(_) => Member::Other,
        };
        match member {
            Member::Properties => self.add_properties(records, alloc)?,
            Member::Other => self.skip()?,
            _ => {}
        }
        Ok(member)
    }

    /// Takes the feature in that has begun, as a record.
    fn add_feature(&mut self, records: &mut Records, alloc: Global) -> Result<(), FileFault> {
        for _ in 0..u64::MAX {
            match self.add_member(records, alloc)? {
                Member::End => break,
                // the values of such a member are no features
                Member::Features => self.skip()?,
                _ => {}
            }
        }
        records.end_record()?;
        Ok(())
    }

    /// Takes the next feature of a list in, if there is one.
    fn add_next(&mut self, records: &mut Records, alloc: Global) -> Result<bool, FileFault> {
        if !matches!(self.reader.next(), Some(Token::BeginObject)) {
            return Ok(false);
        }
        self.add_feature(records, alloc)?;
        Ok(true)
    }

    /// Takes a list of features in.
    fn add_features(&mut self, records: &mut Records, alloc: Global) -> Result<(), FileFault> {
        if !matches!(self.reader.next(), Some(Token::BeginArray)) {
            return Ok(());
        }
        for _ in 0..u64::MAX {
            if !self.add_next(records, alloc)? {
                break;
            }
        }
        Ok(())
    }

    /// Takes the object in that the text is: a feature, or one round features.
    fn add_whole(&mut self, records: &mut Records, alloc: Global) -> Result<(), FileFault> {
        if !matches!(self.reader.next(), Some(Token::BeginObject)) {
            return Ok(());
        }
        for _ in 0..u64::MAX {
            match self.add_member(records, alloc)? {
                Member::End => break,
                Member::Properties => records.end_record()?,
                Member::Features => {
                    // a collection's own properties are not of its features
                    records.clear();
                    self.add_features(records, alloc)?;
                }
                Member::Other => {}
            }
        }
        Ok(())
    }
}

/// The properties of the features of GeoJSON that was read, a record for each feature.
pub fn feature_records(bytes: &[u8], alloc: Global) -> Result<Records, FileFault> {
    let mut records = Records::new(RecordsOf::Features, alloc);
    let text = str::from_utf8(bytes).unwrap_or("");
    let mut scratch = Scratch::new(alloc);
    let Ok(reader) = Reader::new(text, &mut scratch) else {
        return Err(FileFault::at(0, Reason::NoMemory));
    };
    let mut text = PropertyText {
        reader,
        text: bytes,
    };
    text.add_whole(&mut records, alloc)?;
    Ok(records)
}
