//! A legalization where at most some edges fail: each other one has an empty circle on one of its
//! sides.
ghost use Rattle.std.specs.Prelude.{◌*◌, ◌≤◌, length, map, All, IsTrue};
ghost use Rattle.delaunay_legalization.specs.{Among.FailOnlyOf, Sides.AreLeftToTest};
ghost use Rattle.delaunay_legalization.specs.Flips.{FlipsFit};
ghost use Rattle.delaunay_legalization.specs.{Legalized.Legalizes, Shape.IsTriangulated};
ghost use Rattle.delaunay_legalization.specs.State.{state_of};

use crate::{ConstraintMarker, EdgeSet, Sides, legalize};
use delaunay_core::math::PlaneTests;
use delaunay_core::point::HasPosition;
use half_edge_dcel::Dcel;

/// Tests the edges of a work list, where each other edge passes, and flips those that fail and are
/// no constraints until none does; each flip adds 1 to `flips`. Where each other edge has an empty
/// circle on one of its sides, as `is_free` may say, it is not tested again. `work` and `among`
/// have room for three times as many edges as there are vertices.
pub fn legalize_list<M: ConstraintMarker<UE>, V: HasPosition, DE, UE, F, P: PlaneTests<V::Scalar>>(
    dcel: &mut Dcel<V, DE, UE, F>,
    is_free: bool,
    tests: &P,
    among: &mut EdgeSet,
    work: &mut EdgeSet,
    flips: &mut u64,
)
    requires sites { All (P.sites tests.now) (map V.place dcel.old.vertices) }
    requires kept { IsTriangulated V.place (state_of dcel.old) }
    requires left { AreLeftToTest V.place M.constraints dcel.old work.old.items }
    requires only { IsTrue is_free →
        FailOnlyOf (map V.place dcel.old.vertices) dcel.old.mesh work.old.items }
    requires room { 3 * length dcel.old.vertices ≤ work.old.room }
    requires room_among { 3 * length dcel.old.vertices ≤ among.old.room }
    requires fits { FlipsFit (length dcel.old.vertices) flips.old }
    ensures legalizes { Legalizes V.place M.constraints dcel.old dcel.new flips.old flips.new }
{
    if is_free {
        among.list_again(work);
        legalize::<M, _, _, _, _, _>(dcel, &Sides::Among(among), tests, work, flips);
    } else {
        legalize::<M, _, _, _, _, _>(dcel, &Sides::Round, tests, work, flips);
    }
}
