//! Positions of vertices by their handles.
ghost use Rattle.std.specs.Prelude.{◌≡◌, map};
ghost use Rattle.{delaunay_core.specs.place_of, delaunay_shapes.specs.Known.point_at};

use delaunay_core::point::{HasPosition, Point2};
use half_edge_dcel::VertexHandle;

pub(crate) fn spot_of<V: HasPosition, DE, UE, F>(
    vertex: VertexHandle<'_, V, DE, UE, F>,
) -> Point2<V::Scalar>
    ensures { place_of V.Scalar.whole result ≡ point_at (map V.place vertex.entry.dcel.now.vertices)
        vertex.entry.index }
{
    vertex.data().position()
}
