//! Closed circles.
ghost use Rattle.std.specs.Prelude.{◌≡◌, ◌↔◌, [], pos, ◌-ℤ◌, ◌*ℤ◌, ◌<ℤ◌, ◌≤ℤ◌, ⊤, All, IsTrue};
ghost use Rattle.plane.specs.{gap, InClosedCircle, InRange, whole as fraction};
ghost use Rattle.{delaunay_core.specs.place_of, plane_theorems.specs.HasPointIn};
ghost use Rattle.delaunay_shapes.specs.Tests.{circle_distance, FallsOn, IsEdgeNear, meets_circle};

use crate::DistanceMetric;
use delaunay_core::math::{PlaneTests, project_point};
use delaunay_core::point::{Point2, SpadeNum};
use std::alloc::AllocError;

/// A closed circle: the points whose squared distance from the centre is at most `radius_2`.
///
/// ```
/// let circle = CircleMetric::new(Point2::new(0, 0), 25);
/// let rim = circle.is_point_inside(Point2::new(3, 4)); // true
/// let outside = circle.distance_to_point(Point2::new(0, 6)); // 36 - 25
/// ```
#[derive(Copy, Debug, PartialEq, Eq, PartialOrd, Hash)]
pub struct CircleMetric<S: SpadeNum> {
    center: Point2<S>,
    radius_2: i64,
    ghost center_in_range: { InRange (place_of S.whole center) },
    ghost not_negative: { pos 0 ≤ℤ radius_2 },
}

impl<S: SpadeNum> Clone for CircleMetric<S> {
    ghost is_clone = { λ it copy. copy ≡ it };

    ghost is_infallible = { λ _. ⊤ };

    fn clone(&self) -> Result<Self, AllocError> {
        Ok(*self)
    }
}

impl<S: SpadeNum> CircleMetric<S> {
    /// The circle round a centre in range, by its squared radius, which is not negative: a squared
    /// length in the unit of the coordinates.
    pub fn new(center: Point2<S>, radius_2: i64) -> Self
        requires in_range { InRange (place_of S.whole center) }
        requires not_negative { pos 0 ≤ℤ radius_2 }
        ensures center { result.center ≡ center }
        ensures radius_2 { result.radius_2 ≡ radius_2 }
    {
        CircleMetric { center, radius_2 }
    }

    // Whether a point is inside the circle or on its rim.
    fn is_rim_near(&self, point: Point2<S>) -> bool
        requires { InRange (place_of S.whole point) }
        ensures { IsTrue result ↔
            (circle_distance (place_of S.whole self.now.center) self.now.radius_2
            (place_of S.whole point) ≤ℤ pos 0) }
    {
        self.distance_to_point(point) <= 0
    }

    // Whether the centre falls on an edge with a length, and is near enough to its line. The three
    // numbers that are compared are in the squared unit of the coordinates.
    fn falls_on(&self, from: Point2<S>, to: Point2<S>) -> bool
        requires from_in_range { InRange (place_of S.whole from) }
        requires to_in_range { InRange (place_of S.whole to) }
        requires length { pos 0 <ℤ gap (fraction (place_of S.whole from))
            (fraction (place_of S.whole to)) }
        ensures { IsTrue result ↔
            FallsOn (place_of S.whole self.now.center) self.now.radius_2 (place_of S.whole from)
            (place_of S.whole to) }
    {
        let projection = project_point(from, to, self.center);
        let (factor, length_2) = projection.relative_position();
        let excess_2 = self.distance_to_point(from);
        projection.is_on_edge() && is_at_most(excess_2, length_2, factor)
    }

    // Whether an end is in the circle, or the centre falls near the edge.
    fn meets(&self, from: Point2<S>, to: Point2<S>) -> bool
        requires from_in_range { InRange (place_of S.whole from) }
        requires to_in_range { InRange (place_of S.whole to) }
        ensures { IsTrue result ↔
            IsEdgeNear (place_of S.whole self.now.center) self.now.radius_2 (place_of S.whole from)
            (place_of S.whole to) }
    {
        self.is_rim_near(from)
            || self.is_rim_near(to)
            || (from.distance_2(to) > 0 && self.falls_on(from, to))
    }
}

// Whether a product is at most a square.
fn is_at_most(a: i64, b: i64, root: i64) -> bool
    ensures { IsTrue result ↔ ((a *ℤ b) ≤ℤ (root *ℤ root)) }
{
    wide_product(a, b) <= wide_product(root, root)
}

fn wide_product(a: i64, b: i64) -> i128
    ensures { result ≡ a *ℤ b }
{
    i128::from(a) * i128::from(b)
}

impl<S: SpadeNum> DistanceMetric<S> for CircleMetric<S> {
    ghost shape = { λ m. InClosedCircle (place_of S.whole m.center) m.radius_2 };

    ghost own_points = { λ m. [] };

    ghost meets = { λ m. meets_circle (place_of S.whole m.center) m.radius_2 };

    ghost distance = { λ m. circle_distance (place_of S.whole m.center) m.radius_2 };

    /// Whether the closed edge with these ends, which the tests cover, has a point inside the
    /// circle or on its rim. No test is asked.
    fn is_edge_inside<P: PlaneTests<S>>(&self, points: (Point2<S>, Point2<S>), _tests: &P) -> bool
        requires own_covered { All (P.covered _tests.now) [] }
        requires start_covered { P.covered _tests.now (place_of S.whole points.0) }
        requires end_covered { P.covered _tests.now (place_of S.whole points.1) }
        ensures answer { result ≡ meets_circle (place_of S.whole self.now.center) self.now.radius_2
            (place_of S.whole points.0) (place_of S.whole points.1) }
        ensures inside { IsTrue result ↔
            HasPointIn (InClosedCircle (place_of S.whole self.now.center) self.now.radius_2)
            (place_of S.whole points.0) (place_of S.whole points.1) }
    {
        let (from, to) = points;
        self.meets(from, to)
    }

    /// The squared distance from the centre to a point in range, less the squared radius: a
    /// difference of squared lengths in the unit of the coordinates, below 0 inside the circle, 0
    /// on its rim, and above 0 outside.
    fn distance_to_point(&self, point: Point2<S>) -> i64
        requires { InRange (place_of S.whole point) }
        ensures value { result ≡ circle_distance (place_of S.whole self.now.center)
            self.now.radius_2 (place_of S.whole point) }
        ensures inside { (result ≤ℤ pos 0) ↔
            InClosedCircle (place_of S.whole self.now.center) self.now.radius_2
            (fraction (place_of S.whole point)) }
    {
        self.center.distance_2(point) - self.radius_2
    }
}
