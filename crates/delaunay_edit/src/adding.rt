//! Constraints along the path between two vertices.
ghost use Rattle.std.specs.Prelude.{◌≡◌, true, length, map, All};
ghost use Rattle.delaunay_legalization.specs.{IsTriangulated, state_of};
ghost use Rattle.delaunay_edit.specs.Adding.{AddsPath, HasFreeWay};
ghost use Rattle.delaunay_edit.specs.{Leaving.IsWorkList, Leaving.LeavesToTest, Lists.HaveRoom};

use crate::CrossingLists;
use crate::flips::{next_turn, turn};
use delaunay_core::math::PlaneTests;
use delaunay_core::point::HasPosition;
use delaunay_legalization::{ConstraintMarker, EdgeSet, Embedding};
use half_edge_dcel::{Dcel, MeshViews};
use half_edge_links::FixedVertexHandle;

/// Makes constraints of the subconstraints of the path between two vertices, whose segment no
/// constraint crosses: each of its vertices is joined to the next. Edges that cross a subconstraint
/// are flipped; each edge that does not cross the segment keeps its index, and so does each face
/// with no side that crosses it. No circle test is made: where only edges in `work` may fail
/// before, only edges in it may fail afterwards. It has room for each edge, and so has each of the
/// two lists of crossing edges.
pub fn add_path<M: ConstraintMarker<UE>, V: HasPosition, DE, UE, F, P: PlaneTests<V::Scalar>>(
    dcel: &mut Dcel<V, DE, UE, F>,
    from: FixedVertexHandle,
    to: FixedVertexHandle,
    tests: &P,
    lists: &mut CrossingLists,
    work: &mut EdgeSet,
)
    requires can_mark { M.can_mark ≡ true }
    requires way { HasFreeWay V.place M.constraints dcel.old from to }
    requires kept { IsTriangulated V.place (state_of dcel.old) }
    requires sites { All (P.sites tests.now) (map V.place dcel.old.vertices) }
    requires room { IsWorkList dcel.old work.old.items work.old.room ×
        HaveRoom (length dcel.old.undirected) lists.old }

    ensures adds { AddsPath V.place M.marks M.marked M.constraints dcel.old dcel.new from to }
    ensures leaves { LeavesToTest (map V.place dcel.old.vertices) dcel.old dcel.new work.old.items
        work.new.items }
    ensures capacity { work.new.room ≡ work.old.room }
{
    let mut at = from;
    while let Some(next) = lists.list_subconstraint(&Embedding { dcel, tests }, at, to) {
        while let Some((edge, way)) = next_turn(&Embedding { dcel, tests }, at, next, lists) {
            turn(dcel, edge, way, at, next, lists, work);
        }
        let Some(edge) = dcel.get_edge_from_neighbors(at, next) else {
            unreachable!()
        };
        let edge = edge.fix().as_undirected();
        if !M::is_constraint_edge(dcel.undirected_edge_data(edge)) {
            M::make_constraint(dcel.undirected_edge_data_mut(edge));
        }
        at = next;
    }
}
