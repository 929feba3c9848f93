//! Whether an edge is a side of a free face.
ghost use Rattle.std.specs.Prelude.{◌⊎◌, ◌↔◌, ◌<◌, length, IsTrue};
ghost use Rattle.{delaunay_shapes.specs.IsFreeBeside, half_edge_links.specs.rev};

use delaunay_shapes::FreeFaces;
use half_edge_dcel::{DirectedEdgeHandle, FaceHandle};

// Whether a face is an inner one, and free.
fn is_free<V, DE, UE, F, G: FreeFaces>(face: FaceHandle<'_, V, DE, UE, F>, free: &G) -> bool
    ensures { IsTrue result ↔ (0 < face.entry.index) × IsTrue (G.free free.now face.entry.index) }
{
    !face.is_outer() && free.is_free(face.fix())
}

// Whether one of the two faces beside an edge is so.
pub(crate) fn is_side<V, DE, UE, F, G: FreeFaces>(
    edge: DirectedEdgeHandle<'_, V, DE, UE, F>,
    free: &G,
) -> bool
    ensures { let m = edge.entry.dcel.now.mesh in IsTrue result ↔
        (IsFreeBeside m (G.free free.now) edge.entry.index
        ⊎ IsFreeBeside m (G.free free.now) (rev edge.entry.index)) }
{
    is_free(edge.face(), free) || is_free(edge.rev().face(), free)
}
