//! Points that are inserted, and segments between them that become constraints.
ghost use Rattle.std.specs.Prelude.{◌≡◌, All, length, map, IfErr, IfOk, MatchOption, OnOk};
ghost use Rattle.{delaunay_edit.specs.IsDelaunay, delaunay_extensions.specs.InsertsAll};
ghost use Rattle.drawing_faces.specs.Drawing.{ends_of, is_added, IsDecided, joining_of};
ghost use Rattle.drawing_faces.specs.{Names.position, Segments.AddsSegments};
ghost use Rattle.drawing_faces.specs.Refusals.{HasEnds, MayTake, RefusesEnds, RefusesPoints};
ghost use Rattle.drawing_faces.specs.declared.error.DrawingError.TheVariants.{OutOfMemory};

use crate::DrawingError;
use delaunay_core::point::Point2;
use delaunay_extensions::InsertAll;
use delaunay_interface::Triangulation;
use delaunay_journal::{Edit, Outcome, Refusal, Replayable, replay};
use exact_predicates::ExactTests;
use half_edge_links::FixedVertexHandle;
use std::alloc::{AllocError, Global};

/// The ends of a segment, by the indexes of its points in a list.
#[derive(Clone, Copy, Debug, PartialEq, Eq)]
pub struct DrawnSegment {
    pub from: u32,
    pub to: u32,
}

/// A list of the same points.
fn copies(points: &[Point2<i32>], alloc: Global) -> Result<Vec<Point2<i32>>, AllocError>
    ensures { IfOk result (λ values. values.items ≡ points.now) }
{
    points.iter().copied().collect(alloc)
}

/// Inserts all points and gives the vertex of each, in the order of the list: points at one
/// position have one vertex. It gives `TooLarge` exactly where a coordinate passes 2^29, else
/// `TooMany` exactly where six times the number of vertices with that of the points passes
/// `MAX_ELEMENTS`; but `OutOfMemory` where memory was refused, at any step: then some points may be
/// inserted.
pub fn insert_points<T: Triangulation<Vertex = Point2<i32>>>(
    triangulation: &mut T,
    points: &[Point2<i32>],
    alloc: Global,
) -> Result<Vec<FixedVertexHandle>, DrawingError>
    ensures inserts { IfOk result (λ vertices. InsertsAll position T.Constraints.constraints
        points.now vertices.items (T.state triangulation.old) (T.state triangulation.new)) }
    ensures may_take { OnOk result (MayTake points.now
        (length (T.state triangulation.old).vertices)) }
    ensures refuses { IfErr result
        (RefusesPoints points.now (length (T.state triangulation.old).vertices)) }
    ensures headline { IsDelaunay position T.Constraints.constraints (T.state triangulation.new) }
{
    triangulation.recall_invariant();
    let values = copies(points, alloc)?;
    let vertices = triangulation.insert_all(values, &ExactTests)?;
    triangulation.recall_invariant();
    Ok(vertices)
}

/// The vertices at the ends of a segment, if it has such: among so many.
pub(crate) fn ends_among(
    segment: DrawnSegment,
    vertices: &[FixedVertexHandle],
    count: usize,
) -> Option<(FixedVertexHandle, FixedVertexHandle)>
    ensures { MatchOption result (¬ HasEnds vertices.now count segment)
        (λ ends. HasEnds vertices.now count segment × (ends ≡ ends_of vertices.now segment)) }
{
    let (from, to) = (segment.from as usize, segment.to as usize);
    if from >= vertices.len() || to >= vertices.len() {
        return None;
    }
    let (from, to) = (vertices[from], vertices[to]);
    if from.index() as usize >= count || to.index() as usize >= count {
        return None;
    }
    Some((from, to))
}

/// The edits that join the ends of segments, by the vertices of the points, of which there are so
/// many: it gives `NoPoint` where a segment has no such ends.
fn joinings(
    segments: &[DrawnSegment],
    vertices: &[FixedVertexHandle],
    count: usize,
    alloc: Global,
) -> Result<Vec<Edit<Point2<i32>>>, DrawingError>
    ensures edits { IfOk result
        (λ edits. edits.items ≡ map (joining_of vertices.now) segments.now) }
    ensures ends { OnOk result (All (HasEnds vertices.now count) segments.now) }
    ensures refuses { IfErr result (RefusesEnds vertices.now count segments.now) }
{
    let mut edits = Vec::with_capacity(alloc, segments.len())?;
    for segment in segments {
        let Some(ends) = ends_among(*segment, vertices, count) else {
            return Err(DrawingError::NoPoint);
        };
        edits.push(Edit::AddConstraint(ends.0, ends.1))?;
    }
    Ok(edits)
}

/// Which segments were added, by what their edits gave: the others are crossed by constraints. An
/// edit that was neither made nor refused for that was refused memory.
fn added_of(outcomes: Vec<Outcome<Point2<i32>>>, alloc: Global) -> Result<Vec<bool>, DrawingError>
    ensures added { IfOk result (λ added. added.items ≡ map is_added outcomes.items) }
    ensures decided { OnOk result (All IsDecided outcomes.items) }
    ensures memory { IfErr result (λ error. error ≡ OutOfMemory) }
{
    let mut added = Vec::with_capacity(alloc, outcomes.len())?;
    for outcome in outcomes {
        match outcome {
            Outcome::Added(_) => added.push(true)?,
            Outcome::Refused(Refusal::Conflict) => added.push(false)?,
            _ => return Err(DrawingError::OutOfMemory),
        }
    }
    Ok(added)
}

/// Makes constraints of segments, one after another: of the edges between neighbours among the
/// vertices on it. It tells which were added; the others are crossed by constraints. It gives
/// `NoPoint`, with nothing changed, exactly where a segment ends at no index of the list of
/// vertices or at a handle of none; but `OutOfMemory` where memory was refused, at any step: then
/// some segments may be constraints.
pub fn add_segments<T: Replayable<Vertex = Point2<i32>>>(
    triangulation: &mut T,
    segments: &[DrawnSegment],
    vertices: &[FixedVertexHandle],
    alloc: Global,
) -> Result<Vec<bool>, DrawingError>
    ensures adds { IfOk result (λ added. AddsSegments position T.Constraints.constraints
        (map (ends_of vertices.now) segments.now) added.items (T.state triangulation.old)
        (T.state triangulation.new)) }
    ensures ends { OnOk result (All
        (HasEnds vertices.now (length (T.state triangulation.old).vertices)) segments.now) }
    ensures refuses { IfErr result
        (RefusesEnds vertices.now (length (T.state triangulation.old).vertices) segments.now) }
    ensures headline { IsDelaunay position T.Constraints.constraints (T.state triangulation.new) }
{
    triangulation.recall_invariant();
    let edits = joinings(segments, vertices, triangulation.num_vertices(), alloc)?;
    let outcomes = replay(triangulation, edits, &ExactTests)?;
    added_of(outcomes, alloc)
}
