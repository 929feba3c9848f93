//! The constraints that a segment crosses.
ghost use Rattle.std.specs.Prelude.{◌≡◌, ◌<◌, List};
ghost use Rattle.plane.specs.{Item};
ghost use Rattle.delaunay_legalization.specs.{constraints_by, IsTriangulated, state_of};
ghost use Rattle.delaunay_location.specs.{AreLeft, IsReady};
ghost use Rattle.c_calls.specs.Conflicts.{IsConflictMet, PutsConflict, TellsConflicts};

use crate::lines::{ACROSS_EDGE, may_ask_line, raw_meeting};
use crate::queries::point_of;
use crate::raw::NumberedPoint;
use crate::statuses::TOO_LARGE;
use crate::told::{put, status_by_room};
use crate::{Query, RawMeeting, RawPoint, RawSegment};
use delaunay_core::math::PlaneTests;
use delaunay_core::point::HasPosition;
use delaunay_interface::Triangulation;
use delaunay_legalization::ConstraintMarker;
use delaunay_location::LineIntersectionIterator;
use exact_predicates::ExactTests;
use std::alloc::Global;

// The constraint that a line crosses where it meets this, if it does.
fn conflict_in(meeting: &RawMeeting) -> Option<RawSegment>
    ensures { IsConflictMet meeting.now result }
{
    if meeting.kind != ACROSS_EDGE || meeting.constrained == 0 {
        return None;
    }
    Some(RawSegment {
        from: meeting.from,
        to: meeting.to,
    })
}

// Writes a constraint at its place, if there is one and room for it, and counts it.
fn put_conflict(conflicts: &mut [RawSegment], count: usize, found: Option<RawSegment>) -> usize
    requires { count < usize.MAX }
    ensures { PutsConflict found count result conflicts.old conflicts.new }
{
    let Some(conflict) = found else {
        return count;
    };
    put(conflicts, count, conflict);
    count + 1
}

// Writes the constraints that a line crosses, as far as there is room, and how many they are.
fn write_crossed<M: ConstraintMarker<UE>, V: HasPosition, DE, UE, F, P: PlaneTests<V::Scalar>>(
    line: &mut LineIntersectionIterator<'_, V, DE, UE, F, P>,
    conflicts: &mut [RawSegment],
    length: &mut usize,
) -> u32
    requires kept { IsTriangulated V.place (state_of line.old.dcel.now) }
    requires ready { IsReady V.place V.Scalar.whole P.sites P.covered line.old }
    ensures { (items : List Item) → AreLeft V.place V.Scalar.whole line.old items
        → TellsConflicts (constraints_by M.constraints (state_of line.old.dcel.now)) items result
        length.new conflicts.old conflicts.new }
{
    // No more items come than these.
    let _most = line.left;
    let mut count = 0usize;
    while let Some(item) = line.next() {
        let meeting = raw_meeting::<M, _, _, _, _>(item);
        count = put_conflict(conflicts, count, conflict_in(&meeting));
    }
    *length = count;
    status_by_room(conflicts.len(), count)
}

/// The constraints that the segment between two points crosses.
#[derive(Drop)]
pub struct ListConflicts {
    pub from: RawPoint,
    pub to: RawPoint,
}

impl Query for ListConflicts {
    ghost use Rattle.c_calls.specs.Conflicts.{FindsConflicts};

    type Item = RawSegment;

    type Told = usize;

    ghost tells = { λ q v status was told old new. FindsConflicts v.drawing v.constraints q.from
        q.to status was told old new };

    fn ask<T: Triangulation<Vertex = NumberedPoint>>(
        &self,
        points: &T,
        _alloc: Global,
        conflicts: &mut [RawSegment],
        length: &mut usize,
    ) -> u32 {
        if !may_ask_line(&self.from, &self.to) {
            return TOO_LARGE;
        }
        points.recall_invariant();
        let (start, end) = (point_of(&self.from), point_of(&self.to));
        let mut line = LineIntersectionIterator::new(points, start, end, &ExactTests);
        write_crossed::<T::Constraints, _, _, _, _, _>(&mut line, conflicts, length)
    }
}
