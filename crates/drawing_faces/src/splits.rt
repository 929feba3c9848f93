//! Segments that cross constraints, and are split where they do.
ghost use Rattle.std.specs.Prelude.{◌≡◌, ◌≢◌, ◌↔◌, [], length, All, IfErr, IfOk, IfSome};
ghost use Rattle.std.specs.Prelude.{IsErrOf, IsTrue, OnOk};
ghost use Rattle.delaunay_legalization.specs.{constraints_by, points_and_constraints_by};
ghost use Rattle.delaunay_edit.specs.{IsDelaunay};
ghost use Rattle.{delaunay_journal.specs.Splits.Splits, drawing_faces.specs.Names.position};
ghost use Rattle.delaunay_journal.specs.declared.error.SplitError.TheVariants.{TooManySteps};
ghost use Rattle.drawing_faces.specs.Splitting.{AreLed, EndsAtVertices, IsAnyPoint, ListsLead};
ghost use Rattle.drawing_faces.specs.Splitting.{ListsParts, RefusesSegments};

use delaunay_core::point::Point2;
use delaunay_interface::Triangulation;
use delaunay_journal::{Refusal, Replayable, SplitError, add_constraints_and_split};
use exact_predicates::ExactTests;
use half_edge_links::FixedVertexHandle;
use std::alloc::Global;
use thiserror::Error;

/// The vertices at the ends of a segment.
pub type VertexPair = (FixedVertexHandle, FixedVertexHandle);

/// A segment between two vertices that goes by a third since then, and the constraint that does,
/// if one was taken out for that.
#[derive(Clone, Copy, Debug, PartialEq, Eq)]
pub struct Lead {
    pub ends: VertexPair,
    pub by: FixedVertexHandle,
    pub crossed: Option<VertexPair>,
}

/// Why not all segments of a list became constraints.
#[derive(Clone, Copy, Debug, PartialEq, Eq, Drop, Error)]
pub enum SegmentError {
    /// A segment ends at no vertex. This is looked at first, so nothing was changed.
    #[error("a segment ends at no vertex")]
    NoVertex,
    /// Segments are left after as many joins and splits as were allowed. These stand.
    #[error("segments are left after as many steps as were allowed")]
    TooManySteps,
    /// A join or a split was refused, for want of memory or of indexes. Those before it stand.
    #[error("a step was refused")]
    Refused(Refusal),
}

// Whether all segments end at vertices, of which there are so many.
fn all_end_at_vertices(segments: &[VertexPair], count: usize) -> bool
    ensures { IsTrue result ↔ All (EndsAtVertices count) segments.now }
{
    for segment in segments {
        let (from, to) = *segment;
        if from.index() as usize >= count || to.index() as usize >= count {
            return false;
        }
    }
    true
}

// The point of the drawing at a position; out of range where that is.
fn point_at(position: Point2<i64>) -> Point2<i32> {
    let x = i32::try_from(position.x).unwrap_or(i32::MAX);
    Point2::new(x, i32::try_from(position.y).unwrap_or(i32::MAX))
}

// The ends of what two segments of a list are together, by their indexes, if the first ends at a
// vertex where the second begins.
fn ends_over(
    segments: &[VertexPair],
    first: usize,
    second: usize,
    by: FixedVertexHandle,
) -> Option<VertexPair>
    ensures { IfSome result (λ ends. ListsParts segments.now ends by) }
{
    if first >= segments.len() || second >= segments.len() {
        return None;
    }
    let (one, other) = (segments[first], segments[second]);
    if one.1 == by && other.0 == by {
        Some((one.0, other.1))
    } else {
        None
    }
}

// The ends of the constraint that was taken out, so that it goes by a vertex, if one was: its parts
// are the third and the fourth from the end of a list that had so many segments before.
fn crossed_in(segments: &[VertexPair], before: usize, by: FixedVertexHandle) -> Option<VertexPair>
    ensures { IfSome result (λ ends. ListsParts segments.now ends by) }
{
    let count = segments.len();
    if count < 4 || count - 3 < before {
        return None;
    }
    ends_over(segments, count - 4, count - 3, by)
}

// Where the last of so many segments was led, if it was: its second part and then its first are the
// last of the list.
fn lead_in(segments: &[VertexPair], before: usize) -> Option<Lead>
    ensures { IfSome result (ListsLead segments.now) }
{
    let count = segments.len();
    if count <= before || count < 2 {
        return None;
    }
    let by = segments[count - 1].1;
    let ends = ends_over(segments, count - 1, count - 2, by)?;
    Some(Lead {
        ends,
        by,
        crossed: crossed_in(segments, before, by),
    })
}

// Makes constraints of segments or splits them, step by step, and notes where each was led.
fn lead_all<T: Replayable<Vertex = Point2<i32>>>(
    triangulation: &mut T,
    segments: &mut Vec<VertexPair>,
    steps: usize,
    leads: &mut Vec<Lead>,
) -> Result<(), SplitError>
    requires { leads.old.items ≡ [] }
    ensures splits { Splits IsAnyPoint
        (points_and_constraints_by T.Constraints.constraints (T.state triangulation.old))
        (points_and_constraints_by T.Constraints.constraints (T.state triangulation.new))
        segments.old.items segments.new.items }
    ensures all { OnOk result (segments.new.items ≡ []) }
    ensures steps { IsErrOf result TooManySteps → segments.new.items ≢ [] }
    ensures leads { OnOk result (AreLed
        (constraints_by T.Constraints.constraints (T.state triangulation.new)) segments.new.items
        leads.new.items) }
    ensures headline { IsDelaunay position T.Constraints.constraints (T.state triangulation.new) }
{
    triangulation.recall_invariant();
    let make_vertex = |position: Point2<i64>| point_at(position);
    for _ in 0..steps {
        let before = segments.len();
        if before == 0 {
            return Ok(());
        }
        let step = add_constraints_and_split(triangulation, segments, 1, &ExactTests, &make_vertex);
        if let Err(SplitError::Refused(refusal)) = step {
            return Err(SplitError::Refused(refusal));
        }
        let Some(lead) = lead_in(segments.as_slice(), before) else {
            continue;
        };
        if leads.push(lead).is_err() {
            return Err(SplitError::Refused(Refusal::OutOfMemory));
        }
    }
    if segments.is_empty() {
        Ok(())
    } else {
        Err(SplitError::TooManySteps)
    }
}

/// Makes constraints of the segments between vertices of a list, as `add_constraints_and_split`
/// does, and tells where each was led that crossed a constraint: in order, and with that constraint
/// where it was taken out for this. So both are paths of constraints that go by a vertex nearest to
/// the crossing.
///
/// It gives `NoVertex`, with nothing changed, exactly where a segment of the list ends at no
/// vertex. Else it gives `TooManySteps` where segments are left in the list after so many joins and
/// splits, and `Refused` where one of these was refused. Those before it stand then, and what
/// constraints and segments connected, constraints and the segments that are left connect still.
pub fn split_segments<T: Replayable<Vertex = Point2<i32>>>(
    triangulation: &mut T,
    segments: &mut Vec<VertexPair>,
    steps: usize,
    alloc: Global,
) -> Result<Vec<Lead>, SegmentError>
    ensures splits { Splits IsAnyPoint
        (points_and_constraints_by T.Constraints.constraints (T.state triangulation.old))
        (points_and_constraints_by T.Constraints.constraints (T.state triangulation.new))
        segments.old.items segments.new.items }
    ensures all { OnOk result (segments.new.items ≡ []) }
    ensures leads { IfOk result (λ leads.
        AreLed (constraints_by T.Constraints.constraints (T.state triangulation.new)) []
        leads.items) }
    ensures ends { OnOk result (All (EndsAtVertices (length (T.state triangulation.old).vertices))
        segments.old.items) }
    ensures refuses { IfErr result (RefusesSegments (T.state triangulation.old)
        (T.state triangulation.new)
        segments.old.items segments.new.items) }
    ensures headline { IsDelaunay position T.Constraints.constraints (T.state triangulation.new) }
{
    triangulation.recall_invariant();
    if !all_end_at_vertices(segments.as_slice(), triangulation.num_vertices()) {
        return Err(SegmentError::NoVertex);
    }
    let mut leads = Vec::new(alloc);
    match lead_all(triangulation, segments, steps, &mut leads) {
        Ok(()) => Ok(leads),
        Err(SplitError::TooManySteps) => Err(SegmentError::TooManySteps),
        Err(SplitError::Refused(refusal)) => Err(SegmentError::Refused(refusal)),
    }
}
