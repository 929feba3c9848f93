//! Tables of comma-separated values with a header. Points have the columns `x` and `y`, or others
//! that are named for these, and where there are such `z`, `ring` and `line`: rows next to one
//! another with the same word for `ring` are the corners of a polygon, and with the same word for
//! `line` the points of a path. Segments have the columns `from` and `to`: numbers of points, from
//! 1, in the order of their rows. Further columns are left out, which the drawing notes.
ghost use Rattle.std.specs.Prelude.{◌≡◌, ◌++◌, ◌∷◌, [], ℕ, List, IfOk, OnOk, IfSome};
ghost use Rattle.std.specs.Prelude.{MatchOption};
ghost use Rattle.csv.specs.Records.{fields_of};
ghost use Rattle.mesh_files.specs.Drawn.{HasNoNumbers, IsHeightAt, SameNumbers};
ghost use Rattle.mesh_files.specs.Tables.{AreAll, DrawsRow, DrawsTable, Fields, HasRead, IsTable};

use crate::columns::{Columns, leave_out, needed_column, word_of};
use crate::words::count_of;
use crate::{CheckedText, ColumnNames, Drawing, FileFault, FileLine, Number, Reason, Spot};
use csv::{ByteRecord, ErrorKind, Reader, ReaderBuilder};
use std::alloc::Global;
use std::io::Read;

fn line_of(line: u64) -> u32 {
    u32::try_from(line).unwrap_or(u32::MAX)
}

/// What is wrong where a record could not be read, the last before it being in this line.
pub(crate) fn fault_of(error: &csv::Error, line: u32) -> FileFault {
    match error.kind() {
        ErrorKind::UnequalLengths { pos, .. } => FileFault::at(
            match pos {
                Some(pos) => line_of(pos.line()),
                None => line,
            },
            Reason::OtherFields,
        ),
        ErrorKind::OutOfMemory => FileFault::at(line, Reason::NoMemory),
        _ => FileFault::at(line, Reason::Unreadable),
    }
}

/// A run of rows with the same word.
#[derive(Drop)]
struct Run {
    word: Vec<u8>,
    first: u32,
    last: u32,
    line: u32,
    closes: bool,
}

impl Run {
    fn new(alloc: Global, closes: bool) -> Self {
        Run {
            word: Vec::new(alloc),
            first: 0,
            last: 0,
            line: 0,
            closes,
        }
    }

    /// Ends the run: a polygon's last corner is joined to its first.
    fn end(&mut self, drawing: &mut Drawing) -> Result<(), FileFault>
        ensures { OnOk result (SameNumbers drawing.old drawing.new) }
    {
        if self.closes && !self.word.is_empty() && self.first != self.last {
            drawing.join(self.last, self.first, FileLine::of_line(self.line))?;
            drawing.add_ring(self.first, self.last.saturating_add(1), false)?;
        }
        self.word.clear();
        Ok(())
    }

    /// Takes a row in: it goes on with the run, or begins another.
    fn row(
        &mut self,
        word: &[u8],
        index: u32,
        line: u32,
        drawing: &mut Drawing,
    ) -> Result<(), FileFault>
        ensures { OnOk result (SameNumbers drawing.old drawing.new) }
    {
        if self.word.as_slice() != word {
            self.end(drawing)?;
            self.word.extend_from_slice(word)?;
            self.first = index;
        } else if !word.is_empty() {
            drawing.join(self.last, index, FileLine::of_line(line))?;
        }
        self.last = index;
        self.line = line;
        Ok(())
    }
}

/// The polygons and paths that rows belong to.
#[derive(Drop)]
struct Runs {
    ring: Run,
    path: Run,
}

impl Runs {
    /// Takes a row in, with its point.
    fn row(
        &mut self,
        record: &ByteRecord,
        columns: &Columns,
        index: u32,
        line: u32,
        drawing: &mut Drawing,
    ) -> Result<(), FileFault>
        ensures { OnOk result
            (DrawsRow (fields_of «record».now) columns.now drawing.old drawing.new) }
    {
        take_point_row(drawing, record, columns, line)?;
        if let Some(column) = columns.ring {
            self.ring
                .row(word_of(record, column), index, line, drawing)?;
        }
        if let Some(column) = columns.path {
            self.path
                .row(word_of(record, column), index, line, drawing)?;
        }
        Ok(())
    }
}

/// The height in a row, if there is a column of heights, and a word in it.
fn row_height(
    drawing: &mut Drawing,
    record: &ByteRecord,
    columns: &Columns,
    at: FileLine,
) -> Result<Option<Number>, FileFault>
    ensures written { IfOk result (IsHeightAt columns.now.z (fields_of «record».now)) }
    ensures same { OnOk result (SameNumbers drawing.old drawing.new) }
{
    let Some(column) = columns.z else {
        return Ok(None);
    };
    let word = word_of(record, column);
    if word.is_empty() {
        return Ok(None);
    }
    Ok(Some(drawing.number(word, "z", at)?))
}

/// Takes the numbers of a row in.
fn take_point_row(
    drawing: &mut Drawing,
    record: &ByteRecord,
    columns: &Columns,
    line: u32,
) -> Result<(), FileFault>
    ensures { OnOk result (DrawsRow (fields_of «record».now) columns.now drawing.old drawing.new) }
{
    let at = FileLine::of_line(line);
    let x = drawing.number(word_of(record, columns.x), "x", at)?;
    let y = drawing.number(word_of(record, columns.y), "y", at)?;
    let height = row_height(drawing, record, columns, at)?;
    drawing.add_spot(Spot::new(x, y, at), height)
}

/// The line of a row. The row before is in this line.
fn record_line(record: &ByteRecord, line: u32) -> u32 {
    match record.position() {
        Some(position) => line_of(position.line()),
        None => line,
    }
}

/// Reads the next row, and gives its line, if there is one. The row before is in this line.
fn next_row<R: Read>(
    reader: &mut Reader<R>,
    record: &mut ByteRecord,
    line: u32,
) -> Result<Option<u32>, FileFault>
    ensures { IfOk result (λ next. (text : List ℕ) (rows : List Fields)
        → HasRead R.remaining text rows reader.old → MatchOption next (AreAll text rows)
        (λ _. HasRead R.remaining text (rows ++ fields_of «record».new ∷ []) reader.new)) }
{
    match reader.read_byte_record(record) {
        Ok(true) => Ok(Some(record_line(record, line))),
        Ok(false) => Ok(None),
        Err(error) => Err(fault_of(&error, line)),
    }
}

/// Reads the rows of points, into a record that is used for each of them.
fn read_point_rows<R: Read>(
    reader: &mut Reader<R>,
    record: &mut ByteRecord,
    columns: &Columns,
    runs: &mut Runs,
    drawing: &mut Drawing,
) -> Result<(), FileFault>
    requires { HasNoNumbers drawing.old }
    ensures { OnOk result ((text : List ℕ) (header : Fields)
        → HasRead R.remaining text (header ∷ []) reader.old
        → DrawsTable text header columns.now drawing.new) }
{
    let mut line = 1;
    for index in 0..u32::MAX {
        let Some(next) = next_row(reader, record, line)? else {
            return runs.ring.end(drawing);
        };
        line = next;
        runs.row(record, columns, index, line, drawing)?;
    }
    Err(FileFault::at(line, Reason::TooMany))
}

fn read_points<R: Read>(
    reader: &mut Reader<R>,
    columns: &Columns,
    drawing: &mut Drawing,
    alloc: Global,
) -> Result<(), FileFault>
    requires { HasNoNumbers drawing.old }
    ensures { OnOk result ((text : List ℕ) (header : Fields)
        → HasRead R.remaining text (header ∷ []) reader.old
        → DrawsTable text header columns.now drawing.new) }
{
    let mut record = ByteRecord::new(alloc);
    let mut runs = Runs {
        ring: Run::new(alloc, true),
        path: Run::new(alloc, false),
    };
    read_point_rows(reader, &mut record, columns, &mut runs, drawing)
}

/// The header of a table.
pub(crate) fn header_of<R: Read>(
    reader: &mut Reader<R>,
    alloc: Global,
) -> Result<ByteRecord, FileFault>
    ensures { IfOk result (λ header. (text : List ℕ) → HasRead R.remaining text [] reader.old
        → HasRead R.remaining text (fields_of header ∷ []) reader.new) }
{
    let mut header = ByteRecord::new(alloc);
    match next_row(reader, &mut header, 1)? {
        Some(_) => Ok(header),
        None => Err(FileFault::at(1, Reason::Ends("a header"))),
    }
}

/// The reader of a table.
pub(crate) fn open_table<R: Read + Drop>(text: R, alloc: Global) -> Reader<R>
    ensures { IfSome (R.remaining text) (λ bytes. HasRead R.remaining bytes [] result) }
{
    ReaderBuilder::new()
        .has_headers(false)
        .from_reader(alloc, text)
}

/// Notes the columns that are left out.
fn leave_out_others(
    drawing: &mut Drawing,
    header: &ByteRecord,
    columns: &Columns,
) -> Result<(), FileFault>
    ensures { OnOk result (SameNumbers drawing.old drawing.new) }
{
    for column in 0..header.len() {
        if !columns.has(column) {
            leave_out(drawing, header, column)?;
        }
    }
    Ok(())
}

/// The columns of points, of which all others are left out.
fn point_columns(
    drawing: &mut Drawing,
    header: &ByteRecord,
    names: ColumnNames<'_>,
) -> Result<Columns, FileFault>
    ensures { OnOk result (SameNumbers drawing.old drawing.new) }
{
    let columns = Columns::of(header, names)?;
    leave_out_others(drawing, header, &columns)?;
    Ok(columns)
}

/// Reads the header and the rows of a table of points.
fn read_table<R: Read>(
    reader: &mut Reader<R>,
    names: ColumnNames<'_>,
    drawing: &mut Drawing,
    alloc: Global,
) -> Result<(), FileFault>
    requires { HasNoNumbers drawing.old }
    ensures { OnOk result ((text : List ℕ) → HasRead R.remaining text [] reader.old
        → IsTable text drawing.new) }
{
    let header = header_of(reader, alloc)?;
    let columns = point_columns(drawing, &header, names)?;
    read_points(reader, &columns, drawing, alloc)
}

fn read_drawing<R: Read + Drop>(
    text: R,
    names: ColumnNames<'_>,
    drawing: &mut Drawing,
    alloc: Global,
) -> Result<(), FileFault>
    requires { HasNoNumbers drawing.old }
    ensures { OnOk result (IfSome (R.remaining text) (λ bytes. IsTable bytes drawing.new)) }
{
    let mut reader = open_table(text, alloc);
    read_table(&mut reader, names, drawing, alloc)
}

/// Reads points from a table, whose columns of coordinates may have other names.
pub fn read_csv<R: Read + Drop>(
    reader: R,
    names: ColumnNames<'_>,
    alloc: Global,
) -> Result<Drawing, FileFault>
    ensures { IfOk result (λ d. IfSome (R.remaining reader) (λ text. IsTable text d)) }
{
    let mut text = CheckedText::of_rows(reader);
    let mut drawing = Drawing::new(alloc);
    let outcome = read_drawing(&mut text, names, &mut drawing, alloc);
    if let Some(fault) = text.fault() {
        return Err(fault);
    }
    outcome?;
    Ok(drawing)
}

/// The index of a point that is named by its number, from 1.
fn point_named(
    record: &ByteRecord,
    column: usize,
    count: usize,
    line: u32,
) -> Result<u32, FileFault> {
    match count_of(word_of(record, column)) {
        Some(number) if number > 0 && number as usize <= count => Ok(number - 1),
        Some(number) => Err(FileFault::at(line, Reason::NoPoint(u64::from(number)))),
        None => Err(FileFault::at(line, Reason::NotCount("a segment's end"))),
    }
}

/// The columns of a segment's ends.
#[derive(Clone, Copy)]
struct EndColumns {
    from: usize,
    to: usize,
}

/// The columns of a header, of which all others are left out.
fn end_columns(drawing: &mut Drawing, header: &ByteRecord) -> Result<EndColumns, FileFault>
    ensures { OnOk result (SameNumbers drawing.old drawing.new) }
{
    let ends = EndColumns {
        from: needed_column(header, "from")?,
        to: needed_column(header, "to")?,
    };
    for column in 0..header.len() {
        if column != ends.from && column != ends.to {
            leave_out(drawing, header, column)?;
        }
    }
    Ok(ends)
}

/// Takes a row with a segment in.
fn take_segment_row(
    drawing: &mut Drawing,
    record: &ByteRecord,
    ends: EndColumns,
    line: u32,
) -> Result<(), FileFault>
    ensures { OnOk result (SameNumbers drawing.old drawing.new) }
{
    let count = drawing.spots.len();
    let from = point_named(record, ends.from, count, line)?;
    let to = point_named(record, ends.to, count, line)?;
    drawing.join(from, to, FileLine::of_line(line))
}

/// Reads the next row of segments, and gives its line, if there is one.
fn read_segment_row<R: Read>(
    reader: &mut Reader<R>,
    record: &mut ByteRecord,
    ends: EndColumns,
    line: u32,
    drawing: &mut Drawing,
) -> Result<Option<u32>, FileFault>
    ensures { OnOk result (SameNumbers drawing.old drawing.new) }
{
    let Some(line) = next_row(reader, record, line)? else {
        return Ok(None);
    };
    take_segment_row(drawing, record, ends, line)?;
    Ok(Some(line))
}

/// Reads the rows of segments, into a record that is used for each of them.
fn read_segment_rows<R: Read>(
    reader: &mut Reader<R>,
    record: &mut ByteRecord,
    ends: EndColumns,
    drawing: &mut Drawing,
) -> Result<(), FileFault>
    ensures { OnOk result (SameNumbers drawing.old drawing.new) }
{
    let mut line = 1;
    for _ in 0..u64::MAX {
        match read_segment_row(reader, record, ends, line, drawing)? {
            Some(next) => line = next,
            None => break,
        }
    }
    Ok(())
}

/// Reads the header and the rows of a table of segments.
fn read_segment_table<R: Read>(
    reader: &mut Reader<R>,
    drawing: &mut Drawing,
    alloc: Global,
) -> Result<(), FileFault>
    ensures { OnOk result (SameNumbers drawing.old drawing.new) }
{
    let mut record = header_of(reader, alloc)?;
    let ends = end_columns(drawing, &record)?;
    read_segment_rows(reader, &mut record, ends, drawing)
}

fn read_ends<R: Read + Drop>(text: R, drawing: &mut Drawing, alloc: Global) -> Result<(), FileFault>
    ensures { OnOk result (SameNumbers drawing.old drawing.new) }
{
    let mut reader = open_table(text, alloc);
    read_segment_table(&mut reader, drawing, alloc)
}

/// Reads segments between the points of a drawing from a table.
pub fn read_segments<R: Read + Drop>(
    reader: R,
    drawing: &mut Drawing,
    alloc: Global,
) -> Result<(), FileFault>
    ensures { OnOk result (SameNumbers drawing.old drawing.new) }
{
    let mut text = CheckedText::of_rows(reader);
    let outcome = read_ends(&mut text, drawing, alloc);
    match text.fault() {
        Some(fault) => Err(fault),
        None => outcome,
    }
}
