//! The constraint between two vertices, by a look round the first.
ghost use Rattle.std.specs.Prelude.{◌↔◌, ◌<◌, length, IsTrue};
ghost use Rattle.plane.specs.{Joins};
ghost use Rattle.delaunay_legalization.specs.{constraints_by, IsTriangulated, state_of};

use delaunay_core::point::HasPosition;
use delaunay_legalization::{ConstraintMarker, is_constraint_edge};
use half_edge_dcel::{Dcel, MeshViews};
use half_edge_links::FixedVertexHandle;

/// Whether a constraint joins two vertices, in either order.
pub fn is_constraint_between<M: ConstraintMarker<UE>, V: HasPosition, DE, UE, F>(
    dcel: &Dcel<V, DE, UE, F>,
    from: FixedVertexHandle,
    to: FixedVertexHandle,
) -> bool
    requires within { from < length dcel.now.vertices }
    requires kept { IsTriangulated V.place (state_of dcel.now) }

    ensures { IsTrue result ↔ Joins (constraints_by M.constraints (state_of dcel.now)) from to }
{
    match dcel.get_edge_from_neighbors(from, to) {
        Some(edge) => is_constraint_edge::<M, _, _, _, _>(dcel, edge.fix().as_undirected()),
        None => false,
    }
}
