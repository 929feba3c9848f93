//! The files of the program Triangle: `.node` and `.poly`.
ghost use Rattle.std.specs.Prelude.{◌≡◌, ◌++◌, ◌∷◌, [], ℕ, List, IfOk, OnOk, OnSome, IfSome};
ghost use Rattle.mesh_files.specs.Drawn.{Draws, DrawsHoles, HasNoNumbers, SameNumbers, SamePoints};
ghost use Rattle.mesh_files.specs.{Rows.rows_of, Rows.words_of, Triangle.TakesWord};
ghost use Rattle.mesh_files.specs.Triangle.{AddsHole, BeginsRow, DrawsRow, HasHoles, IsNode};
ghost use Rattle.mesh_files.specs.Triangle.{IsPoly, TakesHeight, TakesNumber, TakesPoints};
ghost use Rattle.mesh_files.specs.Triangle.{TakesRows, TakesSpot};

use crate::words::{WordLines, count_of};
use crate::{CheckedText, Drawing, FileFault, FileLine, Number, Reason, Spot};
use std::alloc::Global;
use std::io::Read;

impl WordLines<'_> {
    fn fault(&self, reason: Reason) -> FileFault {
        FileFault::at(self.line, reason)
    }

    /// Goes to the next line, where it needs one.
    fn needed_line(&mut self, what: &'static str) -> Result<(), FileFault>
        ensures { OnOk result (BeginsRow [] self.old self.new) }
    {
        if self.next_line() {
            Ok(())
        } else {
            Err(self.fault(Reason::Ends(what)))
        }
    }

    /// A count, if the line goes on.
    fn next_count(&mut self, what: &'static str) -> Result<Option<u32>, FileFault>
        ensures some { IfOk result (λ o. OnSome o (TakesWord self.old self.new)) }
        ensures rest { self.new.rest.now ≡ self.old.rest.now }
    {
        let Some(word) = self.next_word() else {
            return Ok(None);
        };
        match count_of(word) {
            Some(count) => Ok(Some(count)),
            None => Err(self.fault(Reason::NotCount(what))),
        }
    }

    fn count(&mut self, what: &'static str) -> Result<u32, FileFault>
        ensures { OnOk result (TakesWord self.old self.new) }
    {
        match self.next_count(what)? {
            Some(count) => Ok(count),
            None => Err(self.fault(Reason::Missing(what))),
        }
    }

    /// A count that may be missing, and is 0 then.
    fn last_count(&mut self, what: &'static str) -> Result<u32, FileFault>
        ensures { self.new.rest.now ≡ self.old.rest.now }
    {
        Ok(self.next_count(what)?.unwrap_or(0))
    }

    fn number(&mut self, drawing: &mut Drawing, what: &'static str) -> Result<Number, FileFault>
        ensures written { IfOk result (λ n. TakesNumber n self.old self.new) }
        ensures same { OnOk result (SameNumbers drawing.old drawing.new) }
    {
        match self.next_word() {
            Some(word) => drawing.number(word, what, FileLine::of_line(self.line)),
            None => Err(self.fault(Reason::Missing(what))),
        }
    }

    fn spot(&mut self, drawing: &mut Drawing) -> Result<Spot, FileFault>
        ensures written { IfOk result (λ spot. TakesSpot spot self.old self.new) }
        ensures same { OnOk result (SameNumbers drawing.old drawing.new) }
    {
        let x = self.number(drawing, "x")?;
        let y = self.number(drawing, "y")?;
        Ok(Spot::new(x, y, FileLine::of_line(self.line)))
    }
}

/// The head of the part with the points.
#[derive(Clone, Copy)]
struct PointHead {
    count: u32,
    attributes: u32,
    markers: u32,
}

fn read_point_head(source: &mut WordLines<'_>) -> Result<PointHead, FileFault>
    ensures { OnOk result ((head : List (List ℕ)) × TakesRows (head ∷ []) source.old source.new) }
{
    source.needed_line("the number of points")?;
    let count = source.count("the number of points")?;
    if count == 0 {
        return Err(source.fault(Reason::PointsElsewhere));
    }
    if source.count("the number of coordinates")? != 2 {
        return Err(source.fault(Reason::NotPlane));
    }
    Ok(PointHead {
        count,
        attributes: source.count("the number of attributes")?,
        markers: source.last_count("the number of markers")?,
    })
}

/// Notes what of points is left out.
fn leave_out_values(head: PointHead, drawing: &mut Drawing) -> Result<(), FileFault>
    ensures { OnOk result (SameNumbers drawing.old drawing.new) }
{
    if head.attributes > 1 {
        drawing.leave_out("attributes of points behind the first")?;
    }
    if head.markers > 0 {
        drawing.leave_out("markers of points")?;
    }
    Ok(())
}

/// Goes to the next point, and reads its number, which has to be the next. It gives the number of
/// the first.
fn point_number(
    source: &mut WordLines<'_>,
    index: u32,
    first: Option<u32>,
) -> Result<u32, FileFault>
    ensures { OnOk result ((number : List ℕ) × BeginsRow (number ∷ []) source.old source.new) }
{
    source.needed_line("a point")?;
    let number = source.count("the point's number")?;
    let first = first.unwrap_or(number);
    if first > 1 || number.wrapping_sub(first) != index {
        return Err(source.fault(Reason::NotNext));
    }
    Ok(first)
}

/// The height of a point, if points have one.
fn point_height(
    source: &mut WordLines<'_>,
    has_height: bool,
    drawing: &mut Drawing,
) -> Result<Option<Number>, FileFault>
    ensures written { IfOk result
        (λ height. TakesHeight has_height height source.old source.new) }
    ensures rest { OnOk result (source.new.rest.now ≡ source.old.rest.now) }
    ensures same { OnOk result (SameNumbers drawing.old drawing.new) }
{
    if !has_height {
        return Ok(None);
    }
    Ok(Some(source.number(drawing, "the first attribute")?))
}

/// Takes the numbers of a point in.
fn take_point(
    source: &mut WordLines<'_>,
    has_height: bool,
    drawing: &mut Drawing,
) -> Result<(), FileFault>
    ensures rest { OnOk result (source.new.rest.now ≡ source.old.rest.now) }
    ensures drawn { OnOk result (DrawsRow has_height source.old drawing.old drawing.new) }
    ensures holes { OnOk result (drawing.new.holes.items ≡ drawing.old.holes.items) }
{
    let spot = source.spot(drawing)?;
    let height = point_height(source, has_height, drawing)?;
    drawing.add_spot(spot, height)
}

/// Reads the part with the points, and gives the number of the first.
fn read_point_part(source: &mut WordLines<'_>, drawing: &mut Drawing) -> Result<u32, FileFault>
    requires { HasNoNumbers drawing.old }
    ensures drawn { OnOk result (TakesPoints source.old source.new drawing.new) }
    ensures holes { OnOk result (drawing.new.holes.items ≡ []) }
{
    let head = read_point_head(source)?;
    leave_out_values(head, drawing)?;
    let has_heights = head.attributes > 0;
    let mut first = None;
    for index in 0..head.count {
        first = Some(point_number(source, index, first)?);
        take_point(source, has_heights, drawing)?;
    }
    Ok(first.unwrap_or(0))
}

/// The index of a point that is named by its number.
fn numbered_point(source: &mut WordLines<'_>, first: u32, count: usize) -> Result<u32, FileFault>
    ensures { OnOk result (source.new.rest.now ≡ source.old.rest.now) }
{
    let number = source.count("a segment's end")?;
    let index = number.wrapping_sub(first);
    if (index as usize) < count {
        Ok(index)
    } else {
        Err(source.fault(Reason::NoPoint(u64::from(number))))
    }
}

/// Reads a segment.
fn take_segment(
    source: &mut WordLines<'_>,
    first: u32,
    drawing: &mut Drawing,
) -> Result<(), FileFault>
    ensures row { OnOk result ((row : List (List ℕ)) × TakesRows (row ∷ []) source.old source.new) }
    ensures same { OnOk result (SameNumbers drawing.old drawing.new) }
{
    source.needed_line("a segment")?;
    source.count("the segment's number")?;
    let from = numbered_point(source, first, drawing.spots.len())?;
    let to = numbered_point(source, first, drawing.spots.len())?;
    drawing.join(from, to, FileLine::of_line(source.line))
}

/// Reads how many segments there are.
fn read_segment_head(source: &mut WordLines<'_>, drawing: &mut Drawing) -> Result<u32, FileFault>
    ensures row { OnOk result ((row : List (List ℕ)) × TakesRows (row ∷ []) source.old source.new) }
    ensures same { OnOk result (SameNumbers drawing.old drawing.new) }
{
    source.needed_line("the number of segments")?;
    let count = source.count("the number of segments")?;
    if source.last_count("the number of markers")? > 0 {
        drawing.leave_out("markers of segments")?;
    }
    Ok(count)
}

fn read_segment_part(
    source: &mut WordLines<'_>,
    drawing: &mut Drawing,
    first: u32,
) -> Result<(), FileFault>
    ensures rows { OnOk result
        ((rows : List (List (List ℕ))) × TakesRows rows source.old source.new) }
    ensures same { OnOk result (SameNumbers drawing.old drawing.new) }
{
    let count = read_segment_head(source, drawing)?;
    for _ in 0..count {
        take_segment(source, first, drawing)?;
    }
    Ok(())
}

/// Reads a point in a hole.
fn take_hole(source: &mut WordLines<'_>, drawing: &mut Drawing) -> Result<(), FileFault>
    ensures { OnOk result (AddsHole source.old source.new drawing.old drawing.new) }
{
    source.needed_line("a hole")?;
    source.count("the hole's number")?;
    let spot = source.spot(drawing)?;
    drawing.holes.push(spot)?;
    Ok(())
}

fn read_holes(source: &mut WordLines<'_>, drawing: &mut Drawing) -> Result<(), FileFault>
    requires { drawing.old.holes.items ≡ [] }
    ensures drawn { OnOk result (HasHoles source.old drawing.new) }
    ensures same { OnOk result (SamePoints drawing.old drawing.new) }
{
    if !source.next_line() {
        return Ok(());
    }
    let count = source.count("the number of holes")?;
    for _ in 0..count {
        take_hole(source, drawing)?;
    }
    Ok(())
}

/// Notes regions as left out, if there are any.
fn leave_out_regions(source: &mut WordLines<'_>, drawing: &mut Drawing) -> Result<(), FileFault>
    ensures { OnOk result (SameNumbers drawing.old drawing.new) }
{
    if source.next_line() && source.count("the number of regions")? > 0 {
        drawing.leave_out("attributes of regions")?;
    }
    Ok(())
}

/// Reads the part with the points from a text.
fn read_points(text: &[u8], drawing: &mut Drawing) -> Result<(), FileFault>
    requires { HasNoNumbers drawing.old }
    ensures { OnOk result (IsNode text.now drawing.new) }
{
    let mut source = WordLines::new(text);
    read_point_part(&mut source, drawing)?;
    Ok(())
}

/// Reads all parts from a text.
fn read_parts(text: &[u8], drawing: &mut Drawing) -> Result<(), FileFault>
    requires { HasNoNumbers drawing.old }
    ensures { OnOk result (IsPoly text.now drawing.new) }
{
    let mut source = WordLines::new(text);
    let first = read_point_part(&mut source, drawing)?;
    read_segment_part(&mut source, drawing, first)?;
    read_holes(&mut source, drawing)?;
    leave_out_regions(&mut source, drawing)
}

/// Reads a `.node` file. The first attribute of its points is taken for their height.
pub fn read_node<R: Read + Drop>(reader: R, alloc: Global) -> Result<Drawing, FileFault>
    ensures { IfOk result (λ d. IfSome (R.remaining reader) (λ text. IsNode text d)) }
{
    let text = CheckedText::new(reader).read_all(alloc)?;
    let mut drawing = Drawing::new(alloc);
    read_points(text.as_slice(), &mut drawing)?;
    Ok(drawing)
}

/// Reads a `.poly` file that has its points.
pub fn read_poly<R: Read + Drop>(reader: R, alloc: Global) -> Result<Drawing, FileFault>
    ensures { IfOk result (λ d. IfSome (R.remaining reader) (λ text. IsPoly text d)) }
{
    let text = CheckedText::new(reader).read_all(alloc)?;
    let mut drawing = Drawing::new(alloc);
    read_parts(text.as_slice(), &mut drawing)?;
    Ok(drawing)
}
