//! What is read: a drawing, and points that are asked about, all on one scale.
use crate::degrees::{has_no_other_system, look_like_degrees, names_degrees};
use crate::keeping::{Recorded, Wanted, read_features, read_geometries, read_parts, read_rows};
use crate::progress::ToldReader;
use crate::returns::returned_ring;
use crate::separating::Separated;
use crate::sequences::{Collected, collection_start};
use crate::sieving::{Sieve, Skipped, is_want_of_memory};
use crate::sniffing::{
    TableForm, first_line, foreign_ending, foreign_kind, source_of, table_form, without_mark,
};
use crate::tasks::suffix;
use crate::wkt::has_geometries;
use crate::{KeepRule, Question, Source, Task, TypedEnds};
use anyhow::{Context, anyhow, bail};
use decimal_numbers::Decimal;
use mesh_files::{
    Asked, ColumnNames, Drawing, FileFault, Form, Moves, Reason, Records, RecordsOf, Rounding,
    Scaled, asked_points, most_digits, read_csv, read_node, read_segments, scale, table_records,
};
use std::alloc::{AllocError, Global};
use std::fs::File;
use std::io::{BufReader, Cursor, Read};
use std::{fs, io};

/// A drawing with whole coordinates, and points that are asked about. Segments come from the file
/// of the points up to a place in their list, and then from a table of their own.
#[derive(Drop)]
pub struct Scene {
    pub drawing: Drawing,
    /// What the file says of points and polygons beside numbers, where that is answered or written.
    pub records: Records,
    pub scaled: Scaled,
    pub own_segments: usize,
    pub asked: Drawing,
    pub asked_points: Vec<Asked>,
    pub regions: Drawing,
    pub region_points: Vec<Asked>,
}

/// The most digits behind the point that numbers are given.
const MOST_DIGITS: u32 = 30;

/// The name of what the points come from.
pub fn input_name<'a>(task: &Task<'a>) -> &'a str {
    task.file.unwrap_or("standard input")
}

/// What a text is, by its first bytes where that is not given.
#[derive(Clone, Copy)]
struct Begun {
    source: Source,
    table: TableForm,
    /// What a collection begins with that has the objects of the text, if it is a sequence of them.
    collection: Option<&'static [u8]>,
    /// Whether a table has a column of geometries.
    has_geometries: bool,
    /// Whether a file of its kind may have degrees.
    may_be_degrees: bool,
}

impl Begun {
    fn of(
        given: Option<Source>,
        name: &str,
        bytes: &[u8],
        alloc: Global,
    ) -> Result<Self, FileFault> {
        let source = given.unwrap_or(source_of(bytes));
        let table = table_form(bytes);
        let line = first_line(without_mark(bytes));
        let is_table = source == Source::Csv;
        Ok(Begun {
            source,
            table,
            collection: collection_start(without_mark(bytes), suffix(Some(name))),
            has_geometries: is_table && has_geometries(line, table.separator, alloc)?,
            may_be_degrees: (source == Source::GeoJson && has_no_other_system(bytes))
                || (is_table && names_degrees(line)),
        })
    }
}

/// The further columns of a table that begins so.
fn header_records(
    form: TableForm,
    names: ColumnNames<'_>,
    head: &[u8],
    alloc: Global,
) -> Result<Records, FileFault> {
    let mut header = Vec::new(alloc);
    let line = first_line(without_mark(head));
    if form.is_plain() {
        header.extend_from_slice(line)?;
    } else {
        let mut separated = Separated::new(line, form, alloc)?;
        if separated.read_to_end(&mut header).is_err() {
            // a text in memory is read unless there is no more of that
            return Err(FileFault::at(0, Reason::NoMemory));
        }
    }
    table_records(header.as_slice(), names, alloc)
}

/// Whether the further columns of a table that begins so are taken: where they are wanted and there
/// are some, or where they say which rows are rings.
fn takes_columns(
    wanted: Wanted<'_>,
    form: TableForm,
    head: &[u8],
    alloc: Global,
) -> Result<bool, FileFault> {
    match header_records(form, wanted.names, head, alloc) {
        Ok(records) => {
            let is_wanted = wanted.are_recorded && !records.is_empty();
            Ok(form.has_header() && (is_wanted || records.column_of("ring").is_some()))
        }
        Err(fault) if is_want_of_memory(&fault) => Err(fault),
        Err(_) => Ok(false),
    }
}

/// Reads a table.
fn read_table<R: Read + Drop>(
    begun: Begun,
    wanted: Wanted<'_>,
    mut reader: R,
    alloc: Global,
) -> Result<Recorded, FileFault> {
    if begun.has_geometries && wanted.names.x.is_none() {
        return read_geometries(wanted, begun.table.separator, &mut reader, alloc);
    }
    if begun.table.is_plain() {
        return read_rows(wanted, reader, alloc);
    }
    read_rows(wanted, Separated::new(reader, begun.table, alloc)?, alloc)
}

/// Reads GeoJSON: a sequence of objects as a collection.
fn read_objects<R: Read + Drop>(
    wanted: Wanted<'_>,
    collection: Option<&[u8]>,
    reader: R,
    alloc: Global,
) -> Result<Recorded, FileFault> {
    match collection {
        Some(start) => read_features(wanted, Collected::new(reader, start, alloc)?, alloc),
        None => read_features(wanted, reader, alloc),
    }
}

/// Reads a drawing of a form.
fn read_form<R: Read + Drop>(
    begun: Begun,
    wanted: Wanted<'_>,
    reader: R,
    alloc: Global,
) -> Result<Recorded, FileFault> {
    match begun.source {
        Source::Csv => read_table(begun, wanted, reader, alloc),
        Source::Node => Ok(Recorded::plain(read_node(reader, alloc)?, alloc)),
        Source::Poly => read_parts(wanted, reader, alloc),
        Source::GeoJson => read_objects(wanted, begun.collection, reader, alloc),
    }
}

/// The first line of a text, if it can be shown.
fn header_text(head: &[u8], alloc: Global) -> Result<String, AllocError> {
    let mut header = String::new(alloc);
    let line = first_line(without_mark(head)).trim_ascii();
    match str::from_utf8(line) {
        Ok(text) if !text.chars().any(|c| c.is_control() && c != '\t') => header.push_str(text)?,
        _ => {}
    }
    Ok(header)
}

/// What is wrong with a text, by the name of its file: where a column is missing, with its header.
fn text_fault(name: &str, fault: FileFault, header: &str) -> anyhow::Error {
    match fault.reason {
        Reason::NoColumn(_) | Reason::NoGivenColumn(_) if !header.is_empty() => {
            anyhow!("{name}: {fault}; the header is {header}")
        }
        _ => anyhow!("{name}: {fault}"),
    }
}

/// How many bytes of a text are looked at before it is read.
const HEAD: usize = 1 << 13;

/// Reads the first bytes of a text.
fn read_head<R: Read>(reader: &mut R, alloc: Global) -> io::Result<Vec<u8>> {
    let mut head = Vec::new(alloc);
    let mut chunk = Vec::new(alloc);
    chunk.resize(HEAD, 0)?;
    for _ in 0..HEAD {
        let count = reader.read(chunk.as_mut_slice())?;
        head.extend_from_slice(chunk.get(..count).unwrap_or(&[]))?;
        if count == 0 || head.len() >= HEAD {
            break;
        }
    }
    Ok(head)
}

/// Reads the first bytes of a text behind the mark that they may begin with.
fn behind_mark(head: Vec<u8>) -> Cursor<Vec<u8>> {
    let mark = head
        .len()
        .saturating_sub(without_mark(head.as_slice()).len());
    let mut begin = Cursor::new(head);
    begin.set_position(mark as u64);
    begin
}

/// What another program's file is, by its first bytes, or by what its name ends in where it is not
/// given what the file is.
fn foreign(given: Option<Source>, name: &str, head: &[u8]) -> Option<&'static str> {
    match foreign_kind(head) {
        None if given.is_none() => foreign_ending(suffix(Some(name))),
        kind => kind,
    }
}

/// Reads a text of which some was read; `name` is that of its file.
fn read_begun<R: Read + Drop>(
    mut wanted: Wanted<'_>,
    begun: Begun,
    name: &str,
    head: Vec<u8>,
    reader: R,
    alloc: Global,
) -> anyhow::Result<Recorded> {
    if begun.source == Source::Csv && !begun.has_geometries {
        wanted.are_recorded = takes_columns(wanted, begun.table, head.as_slice(), alloc).context(
            format_args!("{name}"),
        )?;
    }
    let header = header_text(head.as_slice(), alloc)?;
    let reader = BufReader::new(alloc, behind_mark(head).chain(reader))?;
    match read_form(begun, wanted, reader, alloc) {
        Ok(recorded) => Ok(Recorded {
            may_be_degrees: begun.may_be_degrees,
            ..recorded
        }),
        Err(fault) => Err(text_fault(name, fault, header.as_str())),
    }
}

/// Reads a text, which is of the form that is given; `name` is that of its file.
fn read_text<R: Read + Drop>(
    wanted: Wanted<'_>,
    given: Option<Source>,
    name: &str,
    mut reader: R,
    alloc: Global,
) -> anyhow::Result<Recorded> {
    let head = read_head(&mut reader, alloc).context(format_args!("{name}"))?;
    if let Some(kind) = foreign(given, name, head.as_slice()) {
        bail!("{name}: this is {kind}: convert it to GeoJSON by GDAL or the Python package");
    }
    let begun = Begun::of(given, name, head.as_slice(), alloc).context(format_args!("{name}"))?;
    read_begun(wanted, begun, name, head, reader, alloc)
}

/// Opens a file.
fn open(rt: &HostRuntime, file: &str) -> anyhow::Result<File> {
    fs::open(rt, file).context(format_args!("{file}"))
}

/// Whether further columns and properties are answered, or written with faces.
fn are_recorded(task: &Task<'_>) -> bool {
    match task.question {
        Some(Question::Nearest(_) | Question::Locate(_) | Question::Overlaps) => true,
        _ => task.form == Some(Form::GeoJson) || task.form == Some(Form::Csv),
    }
}

/// What of the file of a task is left out.
fn sieve_of(task: &Task<'_>) -> anyhow::Result<Sieve> {
    let nodata = match task.nodata {
        None => None,
        Some(word) => match Decimal::parse(word.as_bytes()) {
            Ok(number) => Some(number),
            Err(_) => bail!("--nodata: {word} is not a decimal number"),
        },
    };
    Ok(Sieve {
        skips_bad: task.skips_bad,
        nodata,
    })
}

/// Reads the file of a task, or standard input.
fn read_input(rt: &HostRuntime, task: &Task<'_>) -> anyhow::Result<Recorded> {
    let (source, wanted) = (
        task.source,
        Wanted {
            names: task.names,
            are_recorded: are_recorded(task),
            are_regions: are_recorded(task) || task.keep == KeepRule::Inside,
            sieve: sieve_of(task)?,
        },
    );
    match task.file {
        Some(file) => {
            let told = ToldReader::new(rt, task, open(rt, file)?);
            read_text(wanted, source, file, told, rt.alloc())
        }
        None => {
            let told = ToldReader::new(rt, task, rt.reader());
            read_text(wanted, source, "standard input", told, rt.alloc())
        }
    }
}

/// What of files is left out where records are taken: no column, and no properties.
fn left_out_beside<'a>(names: &'a str, records: &Records) -> &'a str {
    if records.is_empty() {
        return names;
    }
    let rest = match records.of() {
        RecordsOf::Rows => return "",
        RecordsOf::Features => names.strip_prefix("properties"),
        RecordsOf::Polygons => names.strip_suffix("attributes of regions"),
    };
    rest.unwrap_or(names).trim_matches([',', ' '].as_slice())
}

/// Tells what of files is left out.
fn tell_left_out(rt: &impl Eprint, task: &Task<'_>, drawing: &Drawing, records: &Records) {
    let names = left_out_beside(drawing.left_out().unwrap_or(""), records);
    if !names.is_empty() && !task.is_quiet {
        let _ = eprintln!(rt; "mesh: left out: {names}");
    }
}

/// How many bad rows or features are told of one by one.
const MOST_TOLD: usize = 20;

/// Tells which rows and features of a file were left out.
fn tell_skipped(rt: &impl Eprint, task: &Task<'_>, name: &str, skipped: &Skipped) {
    if task.is_quiet {
        return;
    }
    for fault in skipped.faults.iter().take(MOST_TOLD) {
        let _ = eprintln!(rt; "mesh: {name}: {fault}; left out");
    }
    let more = skipped.faults.len().saturating_sub(MOST_TOLD);
    if more > 0 {
        let _ = eprintln!(rt; "mesh: {name}: {more} more are left out");
    }
    let count = skipped.without_data;
    if count > 0 {
        let _ = eprintln!(rt; "mesh: {name}: {count} points without data are left out");
    }
}

/// Tells which ring comes back whose word stood before, as the first of those rows.
fn tell_returned(
    rt: &impl Eprint,
    task: &Task<'_>,
    drawing: &Drawing,
    records: &Records,
    alloc: Global,
) -> Result<(), AllocError> {
    let Some(returned) = returned_ring(drawing, records, alloc)? else {
        return Ok(());
    };
    if task.is_quiet {
        return Ok(());
    }
    let (name, count) = (input_name(task), returned.count);
    let (line, word) = (returned.line, returned.word);
    let _ = eprintln!(rt;
        "mesh: {name}: line {line}: the ring {word} ended before; this is another ({count} such)"
    );
    Ok(())
}

/// Tells that distances are in degrees, where they are told and coordinates look like degrees.
fn tell_degrees(rt: &impl Eprint, task: &Task<'_>, drawing: &Drawing) {
    let is_asked = matches!(task.question, Some(Question::Nearest(_)));
    if is_asked && !task.is_quiet && look_like_degrees(drawing) {
        let _ = eprintln!(rt; "mesh: coordinates look like degrees: distances are in degrees");
    }
}

/// Leaves out records that nothing is told of: where no polygon is, those of polygons.
fn used_records(task: &Task<'_>, drawing: &Drawing, records: Records, alloc: Global) -> Records {
    let is_asked = matches!(
        task.question,
        Some(Question::Nearest(_) | Question::Locate(_))
    );
    let has_polygons = !drawing.rings.is_empty() || records.of() == RecordsOf::Polygons;
    if is_asked || (are_recorded(task) && has_polygons) {
        records
    } else {
        Records::new(RecordsOf::Rows, alloc)
    }
}

/// Reads a table of segments of which some was read.
fn add_begun_lines<R: Read + Drop>(
    head: Vec<u8>,
    reader: R,
    drawing: &mut Drawing,
    alloc: Global,
) -> anyhow::Result<()> {
    let form = table_form(head.as_slice()).of_segments();
    let reader = BufReader::new(alloc, behind_mark(head).chain(reader))?;
    if form.is_plain() {
        read_segments(reader, drawing, alloc)?;
    } else {
        read_segments(Separated::new(reader, form, alloc)?, drawing, alloc)?;
    }
    Ok(())
}

/// Reads a table of segments.
fn add_lines(rt: &HostRuntime, lines: &str, drawing: &mut Drawing) -> anyhow::Result<()> {
    let mut opened = open(rt, lines)?;
    let head = read_head(&mut opened, rt.alloc()).context(format_args!("{lines}"))?;
    add_begun_lines(head, opened, drawing, rt.alloc()).context(format_args!("{lines}"))
}

/// Tells how many rings were closed, or that one is open where that is an error.
fn tell_open_rings(rt: &impl Eprint, task: &Task<'_>, drawing: &Drawing) -> anyhow::Result<()> {
    let name = input_name(task);
    let Some((count, fault)) = drawing.open_rings() else {
        return Ok(());
    };
    if let Rounding::Exact = task.rounding {
        bail!("{name}: {fault}: repeat its first point at the end");
    }
    if !task.is_quiet {
        let _ = eprintln!(rt; "mesh: {name}: {fault}, and is closed ({count} such)");
    }
    Ok(())
}

/// Adds the table of segments that a task names, if it names one, and tells what is left out. It
/// gives how many segments there are without that table.
fn complete(
    rt: &HostRuntime,
    task: &Task<'_>,
    drawing: &mut Drawing,
    records: &Records,
) -> anyhow::Result<usize> {
    let own_segments = drawing.segments.len();
    if let Some(lines) = task.lines {
        add_lines(rt, lines, drawing)?;
    }
    tell_left_out(rt, task, drawing, records);
    tell_open_rings(rt, task, drawing)?;
    Ok(own_segments)
}

/// Reads the points that a question is about from a table.
fn read_asked(rt: &HostRuntime, task: &Task<'_>, file: &str) -> anyhow::Result<Drawing> {
    let told = ToldReader::new(rt, task, open(rt, file)?);
    let names = ColumnNames {
        z: None,
        ..task.names
    };
    let wanted = Wanted {
        names,
        are_recorded: false,
        are_regions: false,
        sieve: sieve_of(task)?,
    };
    let asked = read_text(wanted, None, file, told, rt.alloc())?;
    tell_skipped(rt, task, file, &asked.skipped);
    let Recorded { drawing, .. } = asked;
    tell_left_out(
        rt,
        task,
        &drawing,
        &Records::new(RecordsOf::Rows, rt.alloc()),
    );
    Ok(drawing)
}

/// A fault of the ends of a way, which are words of the command line.
fn way_fault(option: &str, fault: FileFault) -> anyhow::Error {
    let FileFault {
        file_line: _,
        reason,
    } = fault;
    anyhow!("{option}: {reason}")
}

/// Reads the ends of a way.
fn read_ends(rt: &HostRuntime, option: &str, ends: TypedEnds<'_>) -> anyhow::Result<Drawing> {
    let TypedEnds { x1, y1, x2, y2 } = ends;
    let table = format!(in rt.alloc(); "x,y\n{x1},{y1}\n{x2},{y2}\n")?;
    match read_csv(table.as_bytes(), ColumnNames::new(), rt.alloc()) {
        Ok(way) => Ok(way),
        Err(fault) => Err(way_fault(option, fault)),
    }
}

/// Tells how many numbers were rounded, if some were; `name` is that of their file.
fn tell_moves(rt: &impl Eprint, task: &Task<'_>, name: &str, moves: &Moves) {
    if moves.count > 0 && !task.is_quiet {
        let _ = eprintln!(rt; "mesh: {name}: {moves}");
    }
}

/// Tells how many heights have more digits than fit, if some have.
fn tell_heights(rt: &impl Eprint, task: &Task<'_>, drawing: &Drawing) {
    let count = drawing.cut_heights();
    if count > 0 && !task.is_quiet {
        let _ = eprintln!(rt;
            "mesh: {count} heights have more than 18 digits: 17 of these are used"
        );
    }
}

/// Tells how many points have no height where others have one, if there are such.
fn tell_without_height(rt: &impl Eprint, task: &Task<'_>, drawing: &Drawing) {
    let Some((count, fault)) = drawing.without_height() else {
        return;
    };
    if !task.is_quiet {
        let name = input_name(task);
        let _ = eprintln!(rt;
            "mesh: {name}: {fault}: where the output needs one it is 0 ({count} such)"
        );
    }
}

/// Reads the points that a question is about, if it is about points: none else.
fn read_question(rt: &HostRuntime, task: &Task<'_>) -> anyhow::Result<Drawing> {
    match task.question {
        Some(Question::Nearest(file) | Question::Locate(file)) => { read_asked(rt, task, file) }
        Some(Question::Line(way)) => read_ends(rt, "--line", way),
        Some(Question::Way(way)) => read_ends(rt, "--way", way),
        Some(Question::Overlaps) | None => Ok(Drawing::new(rt.alloc())),
    }
}

/// How many digits behind the point those that are asked about have, where all may count.
fn asked_digits(task: &Task<'_>, asked: &Drawing) -> u32 {
    let digits = most_digits(asked.spots.as_slice());
    match task.rounding {
        Rounding::To(most) => digits.min(most),
        _ => digits,
    }
}

/// Scales a drawing, with room for the digits of points that are asked about.
fn scale_drawing(
    rt: &HostRuntime,
    task: &Task<'_>,
    drawing: &mut Drawing,
    asked: &Drawing,
) -> anyhow::Result<Scaled> {
    let name = input_name(task);
    let digits = asked_digits(task, asked);
    let scaled = scale(drawing, task.rounding, digits, rt.alloc()).context(format_args!("{name}"))?;
    tell_moves(rt, task, name, &scaled.moves);
    tell_heights(rt, task, drawing);
    tell_without_height(rt, task, drawing);
    Ok(scaled)
}

/// The name of what the points that are asked about come from.
fn question_name<'a>(task: &Task<'a>) -> &'a str {
    match task.question {
        Some(Question::Nearest(file) | Question::Locate(file)) => file,
        Some(Question::Way(_)) => "--way",
        _ => "--line",
    }
}

/// Gives points that are asked about coordinates on the scale of a drawing.
fn place_asked(
    rt: &HostRuntime,
    task: &Task<'_>,
    asked: &Drawing,
    scaled: &Scaled,
) -> anyhow::Result<Vec<Asked>> {
    let name = question_name(task);
    let mut moves = Moves::new(scaled.x_scale.digits);
    let points = asked_points(
        asked,
        scaled,
        matches!(task.rounding, Rounding::Exact),
        &mut moves,
        rt.alloc(),
    )
    .context(format_args!("{name}"))?;
    tell_moves(rt, task, name, &moves);
    Ok(points)
}

/// Gives the points in regions coordinates on the scale of a drawing.
fn place_regions(
    task: &Task<'_>,
    regions: &Drawing,
    scaled: &Scaled,
    alloc: Global,
) -> anyhow::Result<Vec<Asked>> {
    let name = input_name(task);
    let mut moves = Moves::new(scaled.x_scale.digits);
    let points = asked_points(regions, scaled, false, &mut moves, alloc).context(format_args!(
        "{name}"
    ))?;
    Ok(points)
}

/// Reads what a task names: points, a table of segments where it names one, and the points that its
/// question is about. They are scaled.
pub fn read_scene(rt: &HostRuntime, task: &Task<'_>) -> anyhow::Result<Scene> {
    let Recorded {
        mut drawing,
        records,
        skipped,
        regions,
        may_be_degrees,
    } = read_input(rt, task)?;
    tell_skipped(rt, task, input_name(task), &skipped);
    tell_returned(rt, task, &drawing, &records, rt.alloc())?;
    if may_be_degrees {
        tell_degrees(rt, task, &drawing);
    }
    let records = used_records(task, &drawing, records, rt.alloc());
    let own_segments = complete(rt, task, &mut drawing, &records)?;
    let asked = read_question(rt, task)?;
    let scaled = scale_drawing(rt, task, &mut drawing, &asked)?;
    let asked_points = place_asked(rt, task, &asked, &scaled)?;
    let region_points = place_regions(task, &regions, &scaled, rt.alloc())?;
    Ok(Scene {
        drawing,
        records,
        scaled,
        own_segments,
        asked,
        asked_points,
        regions,
        region_points,
    })
}

/// Gives a drawing as many digits behind the point as there is room for, unless a number of digits
/// was asked for: so that points that are made between others are near to where they should be. The
/// points that are asked about go along.
pub fn refine_scene(task: &Task<'_>, scene: &mut Scene, alloc: Global) -> anyhow::Result<()> {
    if let Rounding::To(_) = task.rounding {
        return Ok(());
    }
    let name = input_name(task);
    let scaled = scale(&mut scene.drawing, Rounding::Fit, MOST_DIGITS, alloc).context(format_args!(
        "{name}"
    ))?;
    let mut moves = Moves::new(scaled.x_scale.digits);
    scene.asked_points = asked_points(&scene.asked, &scaled, false, &mut moves, alloc)?;
    scene.region_points = place_regions(task, &scene.regions, &scaled, alloc)?;
    scene.scaled = scaled;
    Ok(())
}
