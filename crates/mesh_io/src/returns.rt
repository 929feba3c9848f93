//! Rings of a table whose word stood before.
use mesh_files::{Drawing, Records, RecordsOf};
use std::alloc::{AllocError, Global};

/// The word of a ring, and which of the drawing's rings that is.
#[derive(Clone, Copy, PartialEq, Eq, PartialOrd, Ord)]
struct RingWord<'a> {
    word: &'a str,
    ring: usize,
}

/// The first ring whose word stood before, by its line, and how many there are.
#[derive(Clone, Copy)]
pub struct Returned<'a> {
    pub word: &'a str,
    pub line: u32,
    pub count: usize,
    ring: usize,
}

/// The words of rings, in order.
fn words_of<'a>(
    drawing: &Drawing,
    records: &'a Records,
    column: usize,
    alloc: Global,
) -> Result<Vec<RingWord<'a>>, AllocError> {
    let mut words = Vec::with_capacity(alloc, drawing.rings.len())?;
    for (ring, points) in drawing.rings.iter().enumerate() {
        let word = records.field(points.start as usize, column);
        words.push(RingWord { word, ring })?;
    }
    words.sort()?;
    Ok(words)
}

/// The line that a ring begins in.
fn ring_line(drawing: &Drawing, ring: usize) -> u32 {
    let Some(points) = drawing.rings.get(ring) else {
        return 0;
    };
    match drawing.spots.get(points.start as usize) {
        Some(spot) => spot.line,
        None => 0,
    }
}

/// The first ring of a table whose word stood before, if there is one.
pub fn returned_ring<'a>(
    drawing: &Drawing,
    records: &'a Records,
    alloc: Global,
) -> Result<Option<Returned<'a>>, AllocError> {
    let column = match records.column_of("ring") {
        Some(column) if records.of() == RecordsOf::Rows => column,
        _ => return Ok(None),
    };
    let words = words_of(drawing, records, column, alloc)?;
    let mut first: Option<Returned<'a>> = None;
    let mut count = 0usize;
    for (one, next) in words.iter().zip(words.iter().skip(1)) {
        if one.word != next.word {
            continue;
        }
        count = count.saturating_add(1);
        let is_first = match &first {
            Some(first) => next.ring < first.ring,
            None => true,
        };
        if is_first {
            first = Some(Returned {
                word: next.word,
                line: ring_line(drawing, next.ring),
                count: 0,
                ring: next.ring,
            });
        }
    }
    Ok(match first {
        Some(first) => Some(Returned { count, ..first }),
        None => None,
    })
}
