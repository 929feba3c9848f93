//! Positions of GeoJSON as points, and the lines that they make as segments.
ghost use Rattle.std.specs.Prelude.{List, IfOk, IfSome, OnOk};
ghost use Rattle.json.specs.Token.{Token};
ghost use Rattle.mesh_files.specs.Drawn.{SameNumbers};
ghost use Rattle.mesh_files.specs.Runs.{AddsRun, DrawsRuns, HasPositions, IsPosition, KeepsRuns};

use crate::{Drawing, FileFault, FileLine, Number, Reason, Spot};
use std::alloc::Global;

/// What positions that stand next to one another are.
#[derive(Clone, Copy)]
pub(crate) enum LineKind {
    Points,
    Path,
    /// A polygon's corners, of which the last is the first.
    Ring,
}

/// A point that is not in the drawing yet, with its height where it has one.
#[derive(Clone, Copy)]
pub(crate) struct GeoPosition {
    pub(crate) spot: Spot,
    pub(crate) height: Option<Number>,
}

impl GeoPosition {
    /// Takes the position into a drawing.
    fn draw(&self, drawing: &mut Drawing) -> Result<(), FileFault>
        ensures { OnOk result (AddsRun self.now drawing.old drawing.new) }
    {
        drawing.add_spot(self.spot, self.height)
    }

    /// Whether two positions are one.
    fn is_equal(&self, other: &GeoPosition) -> bool {
        let same_height = match (&self.height, &other.height) {
            (Some(one), Some(two)) => one.is_equal(two),
            (None, None) => true,
            _ => false,
        };
        same_height && self.spot.x.is_equal(&other.spot.x) && self.spot.y.is_equal(&other.spot.y)
    }
}

/// Positions that are being read. The last is not in the drawing, unless it is the first.
#[derive(Clone, Copy)]
struct OpenLine {
    start: u32,
    first: GeoPosition,
    last: Option<GeoPosition>,
}

impl OpenLine {
    /// The last position, if it repeats the first. Else it is taken into the drawing.
    fn end(&self, drawing: &mut Drawing) -> Result<Option<GeoPosition>, FileFault>
        ensures { IfOk result (λ closing. (tokens : List Token)
            → IfSome self.now.last (IsPosition tokens) → DrawsRuns tokens drawing.old
            → IfSome closing (IsPosition tokens) × DrawsRuns tokens drawing.new) }
    {
        match self.last {
            None => Ok(None),
            Some(last) if last.is_equal(&self.first) => Ok(Some(last)),
            Some(last) => {
                last.draw(drawing)?;
                Ok(None)
            }
        }
    }
}

/// Positions next to one another, and where the first stands: points from `start` up to `end`, and
/// one that repeats the first of them and is no point. Whether another line comes before it in its
/// polygon.
#[derive(Clone, Copy)]
struct WholeLine {
    at: FileLine,
    start: u32,
    end: u32,
    closing: Option<GeoPosition>,
    is_inner: bool,
}

impl WholeLine {
    /// Joins each point to the next, and the last to the first where the line ends there or is to
    /// be closed.
    fn join(&self, closes: bool, drawing: &mut Drawing) -> Result<(), FileFault>
        ensures { OnOk result (SameNumbers drawing.old drawing.new) }
    {
        let mut last = self.start;
        for next in self.start.saturating_add(1)..self.end {
            let at = match drawing.spots.get(next as usize) {
                Some(spot) => spot.file_line(),
                None => self.at,
            };
            drawing.join(last, next, at)?;
            last = next;
        }
        let at = match &self.closing {
            Some(position) => position.spot.file_line(),
            None if closes => {
                drawing.note_open_ring(self.at);
                self.at
            }
            None => return Ok(()),
        };
        if last == self.start {
            return Ok(());
        }
        drawing.join(last, self.start, at)
    }

    /// Asks for a ring's three corners.
    fn check_ring(&self) -> Result<(), FileFault> {
        if self.end.saturating_sub(self.start) < 3 {
            return Err(FileFault::at_line(self.at, Reason::SmallRing));
        }
        Ok(())
    }

    fn draw(&self, kind: LineKind, drawing: &mut Drawing) -> Result<(), FileFault>
        ensures { OnOk result ((tokens : List Token) → IfSome self.now.closing (IsPosition tokens)
            → DrawsRuns tokens drawing.old → DrawsRuns tokens drawing.new) }
    {
        match kind {
            LineKind::Points => match &self.closing {
                Some(position) => position.draw(drawing),
                None => Ok(()),
            },
            LineKind::Path => self.join(false, drawing),
            LineKind::Ring => {
                self.check_ring()?;
                drawing.add_ring(self.start, self.end, self.is_inner)?;
                self.join(true, drawing)
            }
        }
    }
}

/// The lines of a geometry as far as they were read.
#[derive(Drop)]
pub(crate) struct Shape {
    lines: Vec<WholeLine>,
    open: Option<OpenLine>,
    has_outer: bool,
}

impl Shape {
    pub(crate) fn new(alloc: Global) -> Self
        ensures { (tokens : List Token) → HasPositions tokens result }
    {
        Shape {
            lines: Vec::new(alloc),
            open: None,
            has_outer: false,
        }
    }

    /// Begins another geometry.
    pub(crate) fn clear(&mut self)
        ensures { (tokens : List Token) → HasPositions tokens self.new }
    {
        self.lines.clear();
        self.open = None;
        self.has_outer = false;
    }

    /// Ends the polygon, if the lines are rings.
    pub(crate) fn end_polygon(&mut self)
        ensures { (tokens : List Token) → HasPositions tokens self.old
            → HasPositions tokens self.new }
    {
        self.has_outer = false;
    }

    /// Takes a position in, behind those of its line.
    pub(crate) fn add(
        &mut self,
        position: GeoPosition,
        drawing: &mut Drawing,
    ) -> Result<(), FileFault>
        ensures { OnOk result ((tokens : List Token) → IsPosition tokens position
            → HasPositions tokens self.old → DrawsRuns tokens drawing.old
            → HasPositions tokens self.new × DrawsRuns tokens drawing.new) }
    {
        let Some(mut line) = self.open else {
            let start = drawing.next_index(position.spot.file_line())?;
            position.draw(drawing)?;
            self.open = Some(OpenLine {
                start,
                first: position,
                last: None,
            });
            return Ok(());
        };
        if let Some(last) = line.last {
            last.draw(drawing)?;
        }
        line.last = Some(position);
        self.open = Some(line);
        Ok(())
    }

    /// Ends the line, if it has a position.
    pub(crate) fn end_line(&mut self, drawing: &mut Drawing) -> Result<(), FileFault>
        ensures { OnOk result (KeepsRuns self.old self.new drawing.old drawing.new) }
    {
        let Some(line) = self.open else {
            return Ok(());
        };
        self.open = None;
        let at = line.first.spot.file_line();
        let closing = line.end(drawing)?;
        let end = drawing.next_index(at)?;
        self.lines.push(WholeLine {
            at,
            start: line.start,
            end,
            closing,
            is_inner: self.has_outer,
        })?;
        self.has_outer = true;
        Ok(())
    }

    /// Makes of each line what its type says.
    pub(crate) fn draw(&self, kind: LineKind, drawing: &mut Drawing) -> Result<(), FileFault>
        ensures { OnOk result ((tokens : List Token) → HasPositions tokens self.now
            → DrawsRuns tokens drawing.old → DrawsRuns tokens drawing.new) }
    {
        for line in &self.lines {
            line.draw(kind, drawing)?;
        }
        Ok(())
    }
}
