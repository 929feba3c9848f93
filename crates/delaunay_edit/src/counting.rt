//! How many constraints an edit makes or takes, by a look at what it changes.
ghost use Rattle.std.specs.Prelude.{◌<◌, length};
ghost use Rattle.delaunay_legalization.specs.{constraints_by, IsTriangulated, state_of};
ghost use Rattle.delaunay_edit.specs.Counting.{EndsAt, HasPairs};

use delaunay_core::point::HasPosition;
use delaunay_legalization::{ConstraintMarker, is_constraint_edge};
use half_edge_dcel::{Dcel, MeshViews};
use half_edge_links::FixedVertexHandle;

/// How many constraints end at a vertex.
pub fn count_constraints_at<M: ConstraintMarker<UE>, V: HasPosition, DE, UE, F>(
    dcel: &Dcel<V, DE, UE, F>,
    vertex: FixedVertexHandle,
) -> usize
    requires within { vertex < length dcel.now.vertices }
    requires kept { IsTriangulated V.place (state_of dcel.now) }
    ensures { HasPairs (EndsAt (constraints_by M.constraints (state_of dcel.now)) vertex) result }
{
    let mut count = 0;
    for edge in dcel.vertex(vertex).out_edges() {
        if is_constraint_edge::<M, _, _, _, _>(dcel, edge.fix().as_undirected()) {
            count += 1;
        }
    }
    count
}
