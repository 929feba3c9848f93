//! Free faces beside edges and round vertices.
ghost use Rattle.std.specs.Prelude.{◌⊎◌, ◌↔◌, ◌<◌, length, IsTrue};
ghost use Rattle.half_edge_links.specs.{rev};
ghost use Rattle.delaunay_shapes.specs.Beside.{HasFreeRound, IsFreeBeside};

use crate::FreeFaces;
use half_edge_dcel::{Dcel, MeshViews};
use half_edge_links::{FixedDirectedEdgeHandle, FixedVertexHandle};

// Whether the face on the left of an edge is an inner one, and free.
pub(crate) fn is_free_beside<V, DE, UE, F, G: FreeFaces>(
    dcel: &Dcel<V, DE, UE, F>,
    edge: FixedDirectedEdgeHandle,
    free: &G,
) -> bool
    requires { edge < length dcel.now.directed }
    ensures { IsTrue result ↔ IsFreeBeside dcel.now.mesh (G.free free.now) edge }
{
    let face = dcel.directed_edge(edge).face().fix();
    !face.is_outer() && free.is_free(face)
}

// Whether the face on one of the two sides of an edge is so.
pub(crate) fn is_free_along<V, DE, UE, F, G: FreeFaces>(
    dcel: &Dcel<V, DE, UE, F>,
    edge: FixedDirectedEdgeHandle,
    free: &G,
) -> bool
    requires { edge < length dcel.now.directed }
    ensures { let m = dcel.now.mesh in IsTrue result ↔
        (IsFreeBeside m (G.free free.now) edge ⊎ IsFreeBeside m (G.free free.now) (rev edge)) }
{
    let twin = dcel.directed_edge(edge).rev().fix();
    is_free_beside(dcel, edge, free) || is_free_beside(dcel, twin, free)
}

// Whether the face on the left of an edge that starts at a vertex is so.
pub(crate) fn is_free_round<V, DE, UE, F, G: FreeFaces>(
    dcel: &Dcel<V, DE, UE, F>,
    vertex: FixedVertexHandle,
    free: &G,
) -> bool
    requires { vertex < length dcel.now.vertices }
    ensures { IsTrue result ↔ HasFreeRound dcel.now.mesh (G.free free.now) vertex }
{
    for edge in dcel.vertex(vertex).out_edges() {
        let edge = edge.fix();
        if is_free_beside(dcel, edge, free) {
            return true;
        }
    }
    false
}
