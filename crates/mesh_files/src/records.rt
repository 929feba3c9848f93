//! What a file says of its points and polygons beside numbers: the further columns of a table, or
//! the properties of the features of GeoJSON.
use crate::Drawing;
use json::Writer;
use std::alloc::{AllocError, Global};

/// A value: its column, and where its text is. A text of JSON, else a value as JSON spells it.
#[derive(Clone, Copy)]
struct Value {
    column: u32,
    start: u32,
    end: u32,
    is_text: bool,
}

/// What records are of: rows of a table, which are points; features; or polygons by their numbers.
#[derive(Clone, Copy, PartialEq, Eq)]
pub enum RecordsOf {
    Rows,
    Features,
    Polygons,
}

/// Values by columns: a record for each row of a table, each feature or each polygon.
#[derive(Drop)]
pub struct Records {
    names: Vec<String>,
    texts: Vec<u8>,
    values: Vec<Value>,
    /// Of each record where its values end.
    ends: Vec<u32>,
    of: RecordsOf,
}

/// What is named in an answer: a point by its index, or polygons by their numbers.
#[derive(Clone, Copy)]
pub enum Named<'a> {
    Nothing,
    Point(u32),
    Polygons(&'a [u32]),
}

impl Named<'_> {
    /// How many there are.
    fn count(self) -> usize {
        match self {
            Named::Nothing => 0,
            Named::Point(_) => 1,
            Named::Polygons(numbers) => numbers.len(),
        }
    }
}

/// Whether a field has to stand in quotes.
fn needs_quotes(field: &str) -> bool {
    field
        .chars()
        .any(|c| c == ',' || c == '"' || c == '\n' || c == '\r')
}

/// Puts a field of a table behind a line, in quotes where it needs them.
pub fn push_field(line: &mut String, field: &str) -> Result<(), AllocError> {
    if !needs_quotes(field) {
        return line.push_str(field);
    }
    line.push('"')?;
    for c in field.chars() {
        if c == '"' {
            line.push('"')?;
        }
        line.push(c)?;
    }
    line.push('"')
}

/// Puts a text behind a line, as JSON spells it.
pub fn push_json_text(line: &mut String, text: &str, alloc: Global) -> Result<(), AllocError> {
    let mut writer = Writer::new(Vec::new(alloc));
    writer.string(text)?;
    let spelled = writer.into_inner();
    match str::from_utf8(spelled.as_slice()) {
        Ok(spelled) => line.push_str(spelled),
        Err(_) => Ok(()),
    }
}

impl Records {
    /// None yet.
    pub fn new(of: RecordsOf, alloc: Global) -> Self {
        Records {
            names: Vec::new(alloc),
            texts: Vec::new(alloc),
            values: Vec::new(alloc),
            ends: Vec::new(alloc),
            of,
        }
    }

    /// Whether there is no column.
    pub fn is_empty(&self) -> bool {
        self.names.is_empty()
    }

    /// What the records are of.
    pub fn of(&self) -> RecordsOf {
        self.of
    }

    /// Takes another column in, and gives its number.
    pub(crate) fn add_column(&mut self, name: &str) -> Result<u32, AllocError> {
        let column = u32::try_from(self.names.len()).unwrap_or(u32::MAX);
        let mut kept = String::new(*self.names.allocator());
        kept.push_str(name)?;
        self.names.push(kept)?;
        Ok(column)
    }

    /// The column of a name, which may be a new one.
    pub(crate) fn column_named(&mut self, name: &str) -> Result<u32, AllocError> {
        for (column, known) in self.names.iter().enumerate() {
            if known.as_str() == name {
                return Ok(u32::try_from(column).unwrap_or(u32::MAX));
            }
        }
        self.add_column(name)
    }

    /// Takes a value in.
    pub(crate) fn add(&mut self, column: u32, text: &str, is_text: bool) -> Result<(), AllocError> {
        let start = self.texts.len();
        self.texts.extend_from_slice(text.as_bytes())?;
        let end = self.texts.len();
        self.values.push(Value {
            column,
            start: u32::try_from(start).unwrap_or(u32::MAX),
            end: u32::try_from(end).unwrap_or(u32::MAX),
            is_text,
        })?;
        Ok(())
    }

    /// Leaves out all records, but no column.
    pub(crate) fn clear(&mut self) {
        self.values.clear();
        self.ends.clear();
    }

    /// Ends a record.
    pub(crate) fn end_record(&mut self) -> Result<(), AllocError> {
        let end = u32::try_from(self.values.len()).unwrap_or(u32::MAX);
        self.ends.push(end)?;
        Ok(())
    }

    /// The values of a record.
    fn values_of(&self, record: usize) -> &[Value] {
        let start = match record.checked_sub(1) {
            Some(before) => self.ends.get(before).copied().unwrap_or(u32::MAX),
            None => 0,
        };
        let end = self.ends.get(record).copied().unwrap_or(0);
        self.values.get(start as usize..end as usize).unwrap_or(&[])
    }

    /// The text of a value.
    fn text_of(&self, value: &Value) -> &str {
        let bytes = self.texts.get(value.start as usize..value.end as usize);
        str::from_utf8(bytes.unwrap_or(&[])).unwrap_or("")
    }

    /// The record of a point.
    fn point_record(&self, drawing: &Drawing, index: u32) -> usize {
        match (self.of, drawing.spots.get(index as usize)) {
            (RecordsOf::Rows, _) => index as usize,
            (RecordsOf::Features, Some(spot)) => (spot.feature as usize).saturating_sub(1),
            _ => usize::MAX,
        }
    }

    /// The record of a polygon: that of its feature, or of its first corner.
    fn polygon_record(&self, drawing: &Drawing, number: u32) -> usize {
        let before = (number as usize).saturating_sub(1);
        if self.of != RecordsOf::Rows {
            return before;
        }
        match drawing.rings.get(before) {
            Some(ring) => ring.start as usize,
            None => usize::MAX,
        }
    }

    /// The record of one of those that are named.
    fn record_of(&self, drawing: &Drawing, named: Named<'_>, i: usize) -> usize {
        match named {
            Named::Nothing => usize::MAX,
            Named::Point(index) => self.point_record(drawing, index),
            Named::Polygons(numbers) => match numbers.get(i) {
                Some(number) => self.polygon_record(drawing, *number),
                None => usize::MAX,
            },
        }
    }

    /// The first column of this name, in letters of either case.
    pub fn column_of(&self, name: &str) -> Option<usize> {
        self.names
            .iter()
            .position(|known| known.as_str().eq_ignore_ascii_case(name))
    }

    /// The text of the value in a column of a record; none is empty.
    pub fn field(&self, record: usize, column: usize) -> &str {
        for value in self.values_of(record) {
            if value.column as usize == column {
                return self.text_of(value);
            }
        }
        ""
    }

    /// Puts the names of the columns behind a line, each behind a comma.
    pub fn push_names(&self, line: &mut String) -> Result<(), AllocError> {
        for name in &self.names {
            line.push(',')?;
            push_field(line, name.as_str())?;
        }
        Ok(())
    }

    /// What the column with the numbers of polygons is called.
    pub fn number_name(&self) -> &'static str {
        if self.names.iter().any(|name| name.as_str() == "polygon") {
            "polygon_number"
        } else {
            "polygon"
        }
    }

    /// Puts the fields of what is named behind a line, each behind a comma: of several the values
    /// with semicolons between them.
    pub fn push_fields(
        &self,
        line: &mut String,
        drawing: &Drawing,
        named: Named<'_>,
    ) -> Result<(), AllocError> {
        let mut field = String::new(*self.texts.allocator());
        for column in 0..self.names.len() {
            field.clear();
            for i in 0..named.count() {
                if i > 0 {
                    field.push(';')?;
                }
                let record = self.record_of(drawing, named, i);
                field.push_str(self.field(record, column))?;
            }
            line.push(',')?;
            push_field(line, field.as_str())?;
        }
        Ok(())
    }

    /// Puts a value behind a line, as JSON spells it.
    fn push_value(&self, line: &mut String, value: &Value) -> Result<(), AllocError> {
        let text = self.text_of(value);
        if value.is_text {
            push_json_text(line, text, *self.texts.allocator())
        } else {
            line.push_str(text)
        }
    }

    /// Puts the values of a polygon behind a line, as members of an object of JSON, the first
    /// behind this text.
    pub(crate) fn push_members(
        &self,
        line: &mut String,
        drawing: &Drawing,
        number: u32,
        before: &str,
    ) -> Result<(), AllocError> {
        let mut separator = before;
        for value in self.values_of(self.polygon_record(drawing, number)) {
            let Some(name) = self.names.get(value.column as usize) else {
                continue;
            };
            line.push_str(separator)?;
            push_json_text(line, name.as_str(), *self.texts.allocator())?;
            line.push(':')?;
            self.push_value(line, value)?;
            separator = ",";
        }
        Ok(())
    }
}
