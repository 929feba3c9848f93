//! The regions of a `.poly` file: a point in each, and what the file says of it.
use crate::words::{WordLines, count_of};
use crate::{Drawing, FileFault, FileLine, Reason, Records, RecordsOf, Spot};
use json::is_number;
use std::alloc::Global;

/// The regions of a drawing: a point in each, and a record for each.
#[derive(Drop)]
pub struct Regions {
    pub points: Drawing,
    pub records: Records,
}

/// Passes as many lines as the first number of the next says, and tells whether there was one.
fn pass_part(source: &mut WordLines<'_>) -> bool {
    let Some(count) = next_count(source) else {
        return false;
    };
    for _ in 0..count {
        if !source.next_line() {
            return false;
        }
    }
    true
}

/// The first number of the next line, if there is one.
fn next_count(source: &mut WordLines<'_>) -> Option<u32> {
    if !source.next_line() {
        return None;
    }
    count_of(source.next_word()?)
}

/// The next word of a line.
fn needed_word<'a>(source: &mut WordLines<'a>, what: &'static str) -> Result<&'a [u8], FileFault> {
    match source.next_word() {
        Some(word) => Ok(word),
        None => Err(FileFault::at(source.line, Reason::Missing(what))),
    }
}

impl Regions {
    /// None.
    pub fn new(alloc: Global) -> Self {
        Regions {
            points: Drawing::new(alloc),
            records: Records::new(RecordsOf::Polygons, alloc),
        }
    }

    /// Takes a region in: its number, its point, and its attribute where it has one.
    fn take(&mut self, source: &mut WordLines<'_>) -> Result<(), FileFault> {
        let at = FileLine::of_line(source.line);
        needed_word(source, "the region's number")?;
        let x = self.points.number(needed_word(source, "x")?, "x", at)?;
        let y = self.points.number(needed_word(source, "y")?, "y", at)?;
        self.points.add_spot(Spot::new(x, y, at), None)?;
        if let Some(word) = source.next_word()
            && let Ok(text) = str::from_utf8(word)
        {
            let column = self.records.column_named("attribute")?;
            self.records.add(column, text, !is_number(text))?;
        }
        self.records.end_record()?;
        Ok(())
    }

    /// Takes so many regions in.
    fn take_all(&mut self, source: &mut WordLines<'_>, count: u32) -> Result<(), FileFault> {
        for _ in 0..count {
            if !source.next_line() {
                return Err(FileFault::at(source.line, Reason::Ends("a region")));
            }
            self.take(source)?;
        }
        Ok(())
    }
}

/// The regions of a `.poly` file that was read: they stand behind its points, segments and holes.
pub fn poly_regions(text: &[u8], alloc: Global) -> Result<Regions, FileFault> {
    let mut regions = Regions::new(alloc);
    let mut source = WordLines::new(text);
    for _ in 0..3 {
        if !pass_part(&mut source) {
            return Ok(regions);
        }
    }
    if let Some(count) = next_count(&mut source) {
        regions.take_all(&mut source, count)?;
    }
    Ok(regions)
}
