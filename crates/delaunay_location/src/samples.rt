//! Vertices all over a mesh, of which one may be nearer to a position than where a search is.
ghost use Rattle.std.specs.Prelude.{◌≡◌, ◌⊎◌, ◌<◌, length};
ghost use Rattle.plane.specs.{IsNearer, vertex, whole as fraction};
ghost use Rattle.{delaunay_core.specs.place_of, delaunay_location.specs.Distances.CanMeasure};
ghost use Rattle.delaunay_legalization.specs.{state_of, triangulation_of};

use crate::vertex_distance::is_nearer;
use delaunay_core::point::{HasPosition, Point2};
use half_edge_dcel::Dcel;
use half_edge_links::FixedVertexHandle;

// The nearest to a position of some vertices all over the mesh, or the vertex `from`, where none of
// them is nearer. Of so many vertices about the cube root is taken.
#[inline(never)]
pub(crate) fn nearer_sample<V: HasPosition, DE, UE, F>(
    dcel: &Dcel<V, DE, UE, F>,
    from: FixedVertexHandle,
    point: Point2<V::Scalar>,
) -> FixedVertexHandle
    requires can { CanMeasure V.place dcel.now (place_of V.Scalar.whole point) }
    requires within { from < length dcel.now.vertices }
    ensures within { result < length dcel.now.vertices }
    ensures nearer { let t = triangulation_of V.place (state_of dcel.now) in (result ≡ from) ⊎
        IsNearer (fraction (place_of V.Scalar.whole point)) (vertex t result) (vertex t from) }
{
    let count = dcel.num_vertices();
    let bits = 64 - (count as u64).leading_zeros();
    let stride = (count >> (bits / 3)).max(1);
    let mut nearest = from;
    let mut index = 0;
    while index < count {
        let vertex = FixedVertexHandle::from_index(index as u32);
        if is_nearer(dcel, vertex, nearest, point) {
            nearest = vertex;
        }
        index += stride;
    }
    nearest
}
