//! Squared distances from a position to vertices.
ghost use Rattle.std.specs.Prelude.{◌≡◌, ◌↔◌, ℕ, ◌<◌, ◌<ℤ◌, length, map, IsTrue};
ghost use Rattle.plane.specs.{gap, place, whole as fraction};
ghost use Rattle.{delaunay_core.specs.place_of, delaunay_location.specs.Distances.CanMeasure};

use delaunay_core::point::{HasPosition, Point2};
use delaunay_legalization::position_of;
use half_edge_dcel::Dcel;
use half_edge_links::FixedVertexHandle;

// The squared distance from a position to a vertex.
pub(crate) fn distance_2_to<V: HasPosition, DE, UE, F>(
    dcel: &Dcel<V, DE, UE, F>,
    vertex: FixedVertexHandle,
    point: Point2<V::Scalar>,
) -> i64
    requires can { CanMeasure V.place dcel.now (place_of V.Scalar.whole point) }
    requires within { vertex < length dcel.now.vertices }
    ensures { result ≡ gap (fraction (place_of V.Scalar.whole point))
        (place (map V.place dcel.now.vertices) vertex) }
{
    point.distance_2(position_of(dcel, vertex))
}

// Whether a vertex is nearer to a position than another.
pub(crate) fn is_nearer<V: HasPosition, DE, UE, F>(
    dcel: &Dcel<V, DE, UE, F>,
    vertex: FixedVertexHandle,
    other: FixedVertexHandle,
    point: Point2<V::Scalar>,
) -> bool
    requires can { CanMeasure V.place dcel.now (place_of V.Scalar.whole point) }
    requires vertex_in { vertex < length dcel.now.vertices }
    requires other_in { other < length dcel.now.vertices }
    ensures { let at = λ (i : ℕ). gap (fraction (place_of V.Scalar.whole point))
        (place (map V.place dcel.now.vertices) i) in IsTrue result ↔ (at vertex <ℤ at other) }
{
    distance_2_to(dcel, vertex, point) < distance_2_to(dcel, other, point)
}
