//! Columns of tables, by the names in their headers.
ghost use Rattle.std.specs.Prelude.{OnOk, [], slice_index_or};
ghost use Rattle.std.specs.Str.{IsTrimAscii};
ghost use Rattle.csv.specs.Records.{fields_of};
ghost use Rattle.mesh_files.specs.Drawn.{SameNumbers};

use crate::{Drawing, FileFault, Reason};
use csv::ByteRecord;

/// A field without blanks round it.
pub(crate) fn word_of(record: &ByteRecord, column: usize) -> &[u8]
    ensures { IsTrimAscii (slice_index_or (fields_of «record».now) column []) result.now }
{
    record.get(column).unwrap_or(&[]).trim_ascii()
}

/// The names of the columns of coordinates, where they are given.
#[derive(Clone, Copy)]
pub struct ColumnNames<'a> {
    pub x: Option<&'a str>,
    pub y: Option<&'a str>,
    pub z: Option<&'a str>,
}

impl ColumnNames<'_> {
    /// No names: those are taken that are known.
    pub fn new() -> Self {
        ColumnNames {
            x: None,
            y: None,
            z: None,
        }
    }
}

/// Names by which the columns of coordinates are known, after `x` and `y`.
const X_NAMES: [&str; 4] = ["lon", "long", "longitude", "easting"];

const Y_NAMES: [&str; 3] = ["lat", "latitude", "northing"];

/// Where the columns of points are.
#[derive(Drop)]
pub(crate) struct Columns {
    pub(crate) x: usize,
    pub(crate) y: usize,
    pub(crate) z: Option<usize>,
    pub(crate) ring: Option<usize>,
    pub(crate) path: Option<usize>,
}

/// The first column of this name.
fn column(header: &ByteRecord, name: &str) -> Option<usize> {
    for i in 0..header.len() {
        if let Some(field) = header.get(i) {
            if field.trim_ascii().eq_ignore_ascii_case(name.as_bytes()) {
                return Some(i);
            }
        }
    }
    None
}

/// The first column of a name that is given, or else of one that is known.
fn known_column(
    header: &ByteRecord,
    given: Option<&str>,
    name: &'static str,
    others: &[&str],
) -> Result<usize, FileFault> {
    if let Some(given) = given {
        return match column(header, given) {
            Some(column) => Ok(column),
            None => Err(FileFault::at(1, Reason::NoGivenColumn(name))),
        };
    }
    if let Some(column) = column(header, name) {
        return Ok(column);
    }
    for other in others {
        if let Some(column) = column(header, other) {
            return Ok(column);
        }
    }
    Err(FileFault::at(1, Reason::NoColumn(name)))
}

/// The column of heights: that of the name that is given, or else of `z`, if there is one.
fn height_column(header: &ByteRecord, given: Option<&str>) -> Result<Option<usize>, FileFault> {
    match given {
        Some(_) => Ok(Some(known_column(header, given, "z", &[])?)),
        None => Ok(column(header, "z")),
    }
}

pub(crate) fn needed_column(header: &ByteRecord, name: &'static str) -> Result<usize, FileFault> {
    match column(header, name) {
        Some(column) => Ok(column),
        None => Err(FileFault::at(1, Reason::NoColumn(name))),
    }
}

impl Columns {
    /// The columns of a header, of which those of coordinates have to be there.
    pub(crate) fn of(header: &ByteRecord, names: ColumnNames<'_>) -> Result<Self, FileFault> {
        Ok(Columns {
            x: known_column(header, names.x, "x", X_NAMES.as_slice())?,
            y: known_column(header, names.y, "y", Y_NAMES.as_slice())?,
            z: height_column(header, names.z)?,
            ring: column(header, "ring"),
            path: column(header, "line"),
        })
    }

    /// Whether a column has numbers of points.
    pub(crate) fn is_number(&self, column: usize) -> bool {
        column == self.x || column == self.y || self.z == Some(column)
    }

    /// Whether a column is one of these.
    pub(crate) fn has(&self, column: usize) -> bool {
        let others = [self.z, self.ring, self.path];
        column == self.x || column == self.y || others.contains(&Some(column))
    }
}

/// The name of a column, if a line of text can show it.
pub(crate) fn shown_name(header: &ByteRecord, column: usize) -> Option<&str> {
    let name = str::from_utf8(word_of(header, column)).ok()?;
    if name.is_empty() || name.chars().any(|c| c.is_control()) {
        None
    } else {
        Some(name)
    }
}

/// Notes a column that is left out, by its name or else by its number, from 1.
pub(crate) fn leave_out(
    drawing: &mut Drawing,
    header: &ByteRecord,
    column: usize,
) -> Result<(), FileFault>
    ensures { OnOk result (SameNumbers drawing.old drawing.new) }
{
    if let Some(name) = shown_name(header, column) {
        drawing.leave_out(name)?;
        return Ok(());
    }
    let number = column.saturating_add(1);
    let mut name = String::new(*drawing.spots.allocator());
    write!(name, "column {number}")?;
    drawing.leave_out(name.as_str())?;
    Ok(())
}
