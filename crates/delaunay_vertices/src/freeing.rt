//! The edges of a vertex cease to be constraints.
ghost use Rattle.std.specs.Prelude.{◌≡◌, ◌<◌, [], length, None, Some, IfNone, IfSome, IsTrue};
ghost use Rattle.half_edge_links.specs.{origin, out_edge};
ghost use Rattle.half_edge_dcel.specs.{IsMeshWithData};
ghost use Rattle.delaunay_legalization.specs.{constraints_by, state_of};
ghost use Rattle.delaunay_vertices.specs.Freeing.{FreesEdgesAt};

use crate::star::count_edges;
use delaunay_legalization::{ConstraintMarker, ccw_edge, free_edge};
use half_edge_dcel::{Dcel, MeshViews};
use half_edge_links::{FixedDirectedEdgeHandle, FixedVertexHandle};

// An edge that starts at a vertex, if there is one.
pub(crate) fn some_edge<V, DE, UE, F>(
    dcel: &Dcel<V, DE, UE, F>,
    vertex: FixedVertexHandle,
) -> Option<FixedDirectedEdgeHandle>
    requires { vertex < length dcel.now.vertices }
    ensures within { IfSome result (λ e. e < length dcel.now.directed) }
    ensures starts { IfSome result (λ e. origin dcel.now.mesh e ≡ vertex) }
    ensures some { IfSome result (λ e. out_edge dcel.now.mesh vertex ≡ Some e) }
    ensures none { IfNone result (out_edge dcel.now.mesh vertex ≡ None) }
    ensures whole { IsMeshWithData dcel.now }
{
    match dcel.vertex(vertex).out_edge() {
        Some(edge) => Some(edge.fix()),
        None => None,
    }
}

// Makes each edge of a vertex one that is no constraint. Where the mesh has no constraint, which
// `is_free` may say, it looks at none.
pub(crate) fn free_edges_at<M: ConstraintMarker<UE>, V, DE, UE, F>(
    dcel: &mut Dcel<V, DE, UE, F>,
    vertex: FixedVertexHandle,
    is_free: bool,
)
    requires whole { IsMeshWithData dcel.old }
    requires within { vertex < length dcel.old.vertices }
    requires free { IsTrue is_free → constraints_by M.constraints (state_of dcel.old) ≡ [] }
    ensures { FreesEdgesAt M.marks dcel.old dcel.new vertex }
{
    if is_free {
        return;
    }
    let Some(first) = some_edge(dcel, vertex) else {
        return;
    };
    let count = count_edges(dcel, first);
    let mut edge = first;
    for i in 0..count {
        free_edge::<M, _, _, _, _>(dcel, edge.as_undirected());
        edge = ccw_edge(dcel, edge);
    }
}
