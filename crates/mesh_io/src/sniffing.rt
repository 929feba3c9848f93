//! What a text is, by the bytes that it begins with.
use crate::Source;

/// The header that a table lacks: none, that of positions with or without heights, or that of
/// segments.
#[derive(Clone, Copy, PartialEq, Eq)]
pub enum LackedHeader {
    Nothing,
    Positions,
    Heights,
    Segments,
}

/// How a table is written.
#[derive(Clone, Copy, PartialEq, Eq)]
pub struct TableForm {
    /// What stands between fields: a comma, a semicolon, a tab, or blanks, by the space.
    pub separator: u8,
    /// The header that the table lacks.
    pub lacking: LackedHeader,
    /// How many separators stand at the end of the header.
    pub trailing: usize,
}

/// The first bytes of files that others make, and what such a file is.
static FOREIGN: [(&[u8], &str); 11] = [
    (&[0, 0, 0x27, 0x0A], "a Shapefile"),
    (b"SQLite format 3", "a GeoPackage or another database"),
    (b"LASF", "a LAS file"),
    (b"II*\0", "a GeoTIFF or another TIFF image"),
    (b"MM\0*", "a GeoTIFF or another TIFF image"),
    (b"II+\0", "a GeoTIFF or another TIFF image"),
    (b"PK\x03\x04", "an archive, as of KMZ or a spreadsheet"),
    (b"\x1F\x8B", "a compressed file, which gunzip opens"),
    (b"\x89HDF", "an HDF5 or NetCDF file"),
    (b"AutoCAD Binary DXF", "a DXF file"),
    (b"<?xml", "an XML file, as of KML, GPX or GML"),
];

/// What another program's file is, by its first bytes.
pub fn foreign_kind(bytes: &[u8]) -> Option<&'static str> {
    for (start, kind) in &FOREIGN {
        if bytes.starts_with(start) {
            return Some(*kind);
        }
    }
    let line = first_line(bytes).trim_ascii();
    if line == b"0".as_slice()
        && bytes.trim_ascii_start().len() > line.len()
        && has_section(bytes)
    {
        return Some("a DXF file");
    }
    None
}

/// What names of files end in that others make, and what such a file is.
static FOREIGN_ENDINGS: [(&str, &str); 16] = [
    ("shp", "a Shapefile"),
    ("gpkg", "a GeoPackage"),
    ("fgb", "a FlatGeobuf file"),
    ("dxf", "a DXF file"),
    ("dwg", "a DWG file"),
    ("las", "a LAS file"),
    ("laz", "a LAZ file"),
    ("tif", "a GeoTIFF or another TIFF image"),
    ("tiff", "a GeoTIFF or another TIFF image"),
    ("kml", "a KML file"),
    ("kmz", "a KMZ file"),
    ("gpx", "a GPX file"),
    ("gml", "a GML file"),
    ("nc", "a NetCDF file"),
    ("parquet", "a Parquet file"),
    ("gz", "a compressed file, which gunzip opens"),
];

/// What another program's file is, by what its name ends in.
pub fn foreign_ending(ending: &str) -> Option<&'static str> {
    for (known, kind) in &FOREIGN_ENDINGS {
        if ending.eq_ignore_ascii_case(known) {
            return Some(*kind);
        }
    }
    None
}

/// Whether the second line of a text is the word of DXF.
fn has_section(bytes: &[u8]) -> bool {
    let line = first_line(bytes);
    let rest = bytes.get(line.len().saturating_add(1)..).unwrap_or(&[]);
    first_line(rest).trim_ascii() == b"SECTION".as_slice()
}

/// The bytes before the first end of a line.
pub fn first_line(bytes: &[u8]) -> &[u8] {
    for (i, byte) in bytes.iter().enumerate() {
        if *byte == b'\n' {
            return bytes.get(..i).unwrap_or(bytes);
        }
    }
    bytes
}

/// A text without the mark that it may begin with.
pub fn without_mark(bytes: &[u8]) -> &[u8] {
    match bytes {
        [0xEF, 0xBB, 0xBF, rest @ ..] => rest,
        _ => bytes,
    }
}

/// What a text is of which the form is not given.
pub fn source_of(bytes: &[u8]) -> Source {
    match without_mark(bytes).trim_ascii_start().first() {
        // an object, or the separator that may stand before one
        Some(b'{' | 0x1E) => Source::GeoJson,
        _ => Source::Csv,
    }
}

/// What stands between the fields of a line.
fn separator_of(line: &[u8]) -> u8 {
    for separator in [b';', b'\t', b','] {
        if line.contains(&separator) {
            return separator;
        }
    }
    if line.contains(&b' ') { b' ' } else { b',' }
}

/// How many separators a line ends with.
fn trailing_of(line: &[u8], separator: u8) -> usize {
    let mut count = 0usize;
    for byte in line {
        if *byte == separator {
            count = count.saturating_add(1);
        } else {
            count = 0;
        }
    }
    count
}

/// Whether a text is a number by its first bytes.
fn begins_number(word: &[u8]) -> bool {
    match word {
        [b'+' | b'-' | b'.', b'0'..=b'9' | b'.', ..] => true,
        [b'0'..=b'9', ..] => true,
        _ => false,
    }
}

/// How many words there are with separators between them.
fn fields_of(line: &[u8], separator: u8) -> usize {
    let mut count = 1usize;
    let mut last = separator;
    for byte in line {
        if *byte == separator && (separator != b' ' || last != b' ') {
            count = count.saturating_add(1);
        }
        last = *byte;
    }
    count
}

/// How a table is written, by its first line.
pub fn table_form(bytes: &[u8]) -> TableForm {
    let line = first_line(without_mark(bytes)).trim_ascii_end();
    let separator = separator_of(line.trim_ascii());
    let is_blank = separator == b' ' || separator == b'\t';
    let words = if is_blank { line.trim_ascii() } else { line };
    let lacking = if !begins_number(words.trim_ascii_start()) {
        LackedHeader::Nothing
    } else if fields_of(words, separator) > 2 {
        LackedHeader::Heights
    } else {
        LackedHeader::Positions
    };
    TableForm {
        separator,
        lacking,
        trailing: if is_blank {
            0
        } else {
            trailing_of(words, separator)
        },
    }
}

impl TableForm {
    /// Whether the table is one of commas with a header, and none behind that.
    pub fn is_plain(&self) -> bool {
        self.separator == b',' && self.has_header() && self.trailing == 0
    }

    /// Whether the table has a header.
    pub fn has_header(&self) -> bool {
        matches!(self.lacking, LackedHeader::Nothing)
    }

    /// The header that the table lacks, behind which its first row comes; empty where it has one.
    pub fn header(&self) -> &[u8] {
        match self.lacking {
            LackedHeader::Nothing => &[],
            LackedHeader::Positions => b"x,y\r",
            LackedHeader::Heights => b"x,y,z\r",
            LackedHeader::Segments => b"from,to\r",
        }
    }

    /// The form of a table of segments that is written so.
    pub fn of_segments(self) -> Self {
        let lacking = if self.has_header() {
            LackedHeader::Nothing
        } else {
            LackedHeader::Segments
        };
        TableForm { lacking, ..self }
    }
}
