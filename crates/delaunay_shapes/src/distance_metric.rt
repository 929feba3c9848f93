//! The trait of closed shapes.
ghost use Rattle.std.specs.Prelude.{◌≡◌, ◌↔◌, ◌*◌, List, Bool, ℤ, pos, ◌≤ℤ◌, map, int_le};
ghost use Rattle.std.specs.Prelude.{All, IsTrue};
ghost use Rattle.plane.specs.{Fraction, InRange, Point, whole as fraction};
ghost use Rattle.half_edge_links.specs.{origin, rev};
ghost use Rattle.{delaunay_core.specs.place_of, plane_theorems.specs.HasPointIn};
ghost use Rattle.delaunay_shapes.specs.{InShape.IsEdgeInShape, Known.point_at};

use crate::positions::spot_of;
use delaunay_core::math::PlaneTests;
use delaunay_core::point::{HasPosition, Point2, SpadeNum};
use half_edge_dcel::UndirectedEdgeHandle;

/// A closed shape. It tells how far a point is from it, as a squared length, and whether an edge
/// has a point in it.
///
/// ```
/// let circle = CircleMetric::new(Point2::new(0, 0), 25);
/// let ends = (Point2::new(-9, 3), Point2::new(9, 3));
/// let crosses = circle.is_edge_inside(ends, &ExactTests); // true
/// ```
pub trait DistanceMetric<S: SpadeNum>: Drop {
    ghost shape: { Self → Fraction → Type 0 };

    // The points of the shape that the tests are asked of.
    ghost own_points: { Self → List Point };

    // The answer to an edge with these ends.
    ghost meets: { Self → Point → Point → Bool };

    ghost distance: { Self → Point → ℤ };

    /// Whether the closed edge with these ends has a point in the shape. The tests have to cover
    /// the ends and the shape's own points: no point of a circle, the four corners of a rectangle.
    fn is_edge_inside<P: PlaneTests<S>>(&self, points: (Point2<S>, Point2<S>), tests: &P) -> bool
        requires own_covered { All (P.covered tests.now) (own_points self.now) }
        requires start_covered { P.covered tests.now (place_of S.whole points.0) }
        requires end_covered { P.covered tests.now (place_of S.whole points.1) }
        ensures answer { result ≡ meets self.now (place_of S.whole points.0)
            (place_of S.whole points.1) }
        ensures inside { IsTrue result ↔
            HasPointIn (shape self.now) (place_of S.whole points.0) (place_of S.whole points.1) };

    /// How far a point in range is from the shape: at most 0 in it, above 0 outside. It is not a
    /// length but is made of squared ones, in the squared unit of the coordinates: of a circle the
    /// squared distance from the centre less the squared radius, of a rectangle the squared
    /// distance from its nearest point.
    fn distance_to_point(&self, point: Point2<S>) -> i64
        requires { InRange (place_of S.whole point) }
        ensures value { result ≡ distance self.now (place_of S.whole point) }
        ensures inside { (result ≤ℤ pos 0) ↔ shape self.now (fraction (place_of S.whole point)) };

    /// Whether a point in range is in the shape.
    final fn is_point_inside(&self, point: Point2<S>) -> bool
        requires { InRange (place_of S.whole point) }
        ensures answer { result ≡ int_le (distance self.now (place_of S.whole point)) (pos 0) }
        ensures inside { IsTrue result ↔ shape self.now (fraction (place_of S.whole point)) }
    {
        self.distance_to_point(point) <= 0
    }

    /// Whether the closed edge of a handle has a point in the shape. The tests have to cover the
    /// shape's own points and the ends of this edge alone.
    final fn is_handle_inside<V: HasPosition<Scalar = S>, DE, UE, F, P: PlaneTests<S>>(
        &self,
        handle: UndirectedEdgeHandle<'_, V, DE, UE, F>,
        tests: &P,
    ) -> bool
        requires own_covered { All (P.covered tests.now) (own_points self.now) }
        requires start_covered { P.covered tests.now (point_at
            (map V.place handle.dcel.now.vertices)
            (origin handle.dcel.now.mesh (2 * handle.index))) }
        requires end_covered { P.covered tests.now (point_at
            (map V.place handle.dcel.now.vertices)
            (origin handle.dcel.now.mesh (rev (2 * handle.index)))) }
        ensures inside { IsTrue result ↔
            IsEdgeInShape (shape self.now) (map V.place handle.entry.dcel.now.vertices)
            handle.entry.dcel.now.mesh handle.entry.index }
    {
        let edge = handle.as_directed();
        self.is_edge_inside((spot_of(edge.from()), spot_of(edge.to())), tests)
    }
}
