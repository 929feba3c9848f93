//! What a segment meets.
ghost use Rattle.std.specs.Prelude.{◌≡◌, ◌↔◌, List, IsTrue};
ghost use Rattle.plane.specs.{Item};
ghost use Rattle.delaunay_legalization.specs.{constraints_by, IsTriangulated, state_of};
ghost use Rattle.delaunay_location.specs.{AreLeft, IsReady};
ghost use Rattle.c_calls.specs.Links.{IsMetEdge, IsRawMeeting};
ghost use Rattle.c_calls.specs.Queries.{MayAskLine, TellsItems};

use crate::lists::raw_edge;
use crate::queries::point_of;
use crate::raw::NumberedPoint;
use crate::statuses::TOO_LARGE;
use crate::told::{put, status_by_room};
use crate::{Query, RawMeeting, RawPoint, is_in_range};
use delaunay_core::math::PlaneTests;
use delaunay_core::point::HasPosition;
use delaunay_interface::Triangulation;
use delaunay_legalization::ConstraintMarker;
use delaunay_location::{Intersection, LineIntersectionIterator};
use exact_predicates::ExactTests;
use half_edge_dcel::DirectedEdgeHandle;
use std::alloc::Global;

pub const AT_VERTEX: u32 = 0;

pub const ACROSS_EDGE: u32 = 1;

pub const ALONG_EDGE: u32 = 2;

// An edge that a line meets, for C.
fn met_edge<M: ConstraintMarker<UE>, V, DE, UE, F>(
    edge: DirectedEdgeHandle<'_, V, DE, UE, F>,
    kind: u32,
) -> RawMeeting
    ensures { IsMetEdge M.constraints (state_of edge.entry.dcel.now) edge.entry.index kind result }
{
    let met = raw_edge::<M, _, _, _, _>(edge);
    RawMeeting {
        kind,
        from: met.from,
        to: met.to,
        constrained: met.constrained,
    }
}

/// What a line meets, for C.
pub fn raw_meeting<M: ConstraintMarker<UE>, V, DE, UE, F>(
    item: Intersection<'_, V, DE, UE, F>,
) -> RawMeeting
    ensures { IsRawMeeting M.constraints item.entry result }
{
    match item {
        Intersection::VertexIntersection(vertex) => {
            let index = vertex.fix().index();
            RawMeeting {
                kind: AT_VERTEX,
                from: index,
                to: index,
                constrained: 0,
            }
        }
        Intersection::EdgeIntersection(edge) => met_edge::<M, _, _, _, _>(edge, ACROSS_EDGE),
        Intersection::EdgeOverlap(edge) => met_edge::<M, _, _, _, _>(edge, ALONG_EDGE),
    }
}

// Writes what a line meets, as far as there is room, and how much that is.
fn write_meetings<M: ConstraintMarker<UE>, V: HasPosition, DE, UE, F, P: PlaneTests<V::Scalar>>(
    line: &mut LineIntersectionIterator<'_, V, DE, UE, F, P>,
    meetings: &mut [RawMeeting],
    length: &mut usize,
) -> u32
    requires kept { IsTriangulated V.place (state_of line.old.dcel.now) }
    requires ready { IsReady V.place V.Scalar.whole P.sites P.covered line.old }
    ensures { (items : List Item) → AreLeft V.place V.Scalar.whole line.old items
        → TellsItems (constraints_by M.constraints (state_of line.old.dcel.now)) items result
        length.new meetings.old meetings.new }
{
    // No more items come than these.
    let _most = line.left;
    let mut count = 0usize;
    while let Some(item) = line.next() {
        put(meetings, count, raw_meeting::<M, _, _, _, _>(item));
        count += 1;
    }
    *length = count;
    status_by_room(meetings.len(), count)
}

/// Whether a segment may be asked about.
pub fn may_ask_line(from: &RawPoint, to: &RawPoint) -> bool
    ensures { IsTrue result ↔ MayAskLine from.now to.now }
{
    is_in_range(from) && is_in_range(to)
}

/// What the segment between two points meets.
#[derive(Drop)]
pub struct WalkLine {
    pub from: RawPoint,
    pub to: RawPoint,
}

impl Query for WalkLine {
    ghost use Rattle.c_calls.specs.Queries.{FindsLine};

    type Item = RawMeeting;

    type Told = usize;

    ghost tells = { λ q v status was told old new. FindsLine v.drawing v.constraints q.from q.to
        status was told old new };

    fn ask<T: Triangulation<Vertex = NumberedPoint>>(
        &self,
        points: &T,
        _alloc: Global,
        meetings: &mut [RawMeeting],
        length: &mut usize,
    ) -> u32 {
        if !may_ask_line(&self.from, &self.to) {
            return TOO_LARGE;
        }
        points.recall_invariant();
        let (start, end) = (point_of(&self.from), point_of(&self.to));
        let mut line = LineIntersectionIterator::new(points, start, end, &ExactTests);
        write_meetings::<T::Constraints, _, _, _, _, _>(&mut line, meetings, length)
    }
}
