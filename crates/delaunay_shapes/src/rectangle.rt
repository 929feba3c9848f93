//! Closed rectangles.
ghost use Rattle.std.specs.Prelude.{◌≡◌, ◌↔◌, ◌⊎◌, ◌∷◌, [], ℤ, pos, ◌<ℤ◌, ◌≤ℤ◌, ⊤, All, IsTrue};
ghost use Rattle.plane.specs.{InClosedRectangle, InRange, left, right, side, whole as fraction};
ghost use Rattle.plane_theorems.specs.{AreCornersOn, HasPointIn, MeetsRectangle};
ghost use Rattle.{delaunay_core.specs.place_of, plane_theorems.specs.Delaunay.EdgeTests.RangeMeets};
ghost use Rattle.delaunay_shapes.specs.Distance.{clamped, farthest, IsLeastDistance};
ghost use Rattle.delaunay_shapes.specs.Distance.{rectangle_distance};
ghost use Rattle.delaunay_shapes.specs.Tests.{corners, IsReversed, meets_rectangle};

use crate::DistanceMetric;
use delaunay_core::line_side_info::LineSideInfo;
use delaunay_core::math::PlaneTests;
use delaunay_core::point::{Point2, SpadeNum};
use std::alloc::AllocError;

/// A closed rectangle: the points from `lower` to `upper` in both coordinates. One whose corners
/// are reversed in an axis has no point.
///
/// ```
/// let rectangle = RectangleMetric::new(Point2::new(0, 0), Point2::new(4, 2));
/// let beside = rectangle.distance_to_point(Point2::new(7, 6)); // 9 + 16
/// ```
#[derive(Copy, Debug, PartialEq, Eq, PartialOrd, Hash)]
pub struct RectangleMetric<S: SpadeNum> {
    lower: Point2<S>,
    upper: Point2<S>,
    ghost lower_in_range: { InRange (place_of S.whole lower) },
    ghost upper_in_range: { InRange (place_of S.whole upper) },
}

impl<S: SpadeNum> Clone for RectangleMetric<S> {
    ghost is_clone = { λ it copy. copy ≡ it };

    ghost is_infallible = { λ _. ⊤ };

    fn clone(&self) -> Result<Self, AllocError> {
        Ok(*self)
    }
}

impl<S: SpadeNum> RectangleMetric<S> {
    /// The rectangle between two corners in range. One whose `upper` is less than its `lower` in an
    /// axis has no point.
    pub fn new(lower: Point2<S>, upper: Point2<S>) -> Self
        requires lower_in_range { InRange (place_of S.whole lower) }
        requires upper_in_range { InRange (place_of S.whole upper) }
        ensures lower { result.lower ≡ lower }
        ensures upper { result.upper ≡ upper }
    {
        RectangleMetric { lower, upper }
    }

    fn is_reversed(&self) -> bool
        ensures { IsTrue result ↔
            IsReversed (place_of S.whole self.now.lower) (place_of S.whole self.now.upper) }
    {
        self.upper.x.to_i64() < self.lower.x.to_i64()
            || self.upper.y.to_i64() < self.lower.y.to_i64()
    }

    // Whether the corners are not all strictly on one side of the line of an edge.
    fn touches_line<P: PlaneTests<S>>(&self, from: Point2<S>, to: Point2<S>, tests: &P) -> bool
        requires own_covered { All (P.covered tests.now)
            (corners (place_of S.whole self.now.lower) (place_of S.whole self.now.upper)) }
        requires start_covered { P.covered tests.now (place_of S.whole from) }
        requires end_covered { P.covered tests.now (place_of S.whole to) }
        ensures { let l = place_of S.whole self.now.lower in
            let u = place_of S.whole self.now.upper in let p = place_of S.whole from in
            let q = place_of S.whole to in
            IsTrue result ↔ ((¬ AreCornersOn left l u p q) × (¬ AreCornersOn right l u p q)) }
    {
        let lower_left = side_of(from, to, self.lower.x, self.lower.y, tests);
        let lower_right = side_of(from, to, self.upper.x, self.lower.y, tests);
        let upper_right = side_of(from, to, self.upper.x, self.upper.y, tests);
        let upper_left = side_of(from, to, self.lower.x, self.upper.y, tests);
        !are_left(lower_left, lower_right, upper_right, upper_left)
            && !are_right(lower_left, lower_right, upper_right, upper_left)
    }

    // Whether a point is in the rectangle.
    fn has(&self, point: Point2<S>) -> bool
        ensures { IsTrue result ↔ InClosedRectangle (place_of S.whole self.now.lower)
            (place_of S.whole self.now.upper) (fraction (place_of S.whole point)) }
    {
        lies_between(self.lower.x, self.upper.x, point.x)
            && lies_between(self.lower.y, self.upper.y, point.y)
    }

    // Whether an edge meets the rectangle: an end is in it, which is soon told, or the ranges meet
    // and the corners are not all strictly on one side.
    fn meets<P: PlaneTests<S>>(&self, from: Point2<S>, to: Point2<S>, tests: &P) -> bool
        requires own_covered { All (P.covered tests.now)
            (corners (place_of S.whole self.now.lower) (place_of S.whole self.now.upper)) }
        requires start_covered { P.covered tests.now (place_of S.whole from) }
        requires end_covered { P.covered tests.now (place_of S.whole to) }
        ensures { let l = place_of S.whole self.now.lower in
            let u = place_of S.whole self.now.upper in
            IsTrue result ↔ ((¬ IsReversed l u) × MeetsRectangle l u (place_of S.whole from)
            (place_of S.whole to)) }
    {
        self.has(from)
            || self.has(to)
            || (!self.is_reversed()
                && range_meets(self.lower.x, self.upper.x, from.x, to.x)
                && range_meets(self.lower.y, self.upper.y, from.y, to.y)
                && self.touches_line(from, to, tests))
    }
}

fn lies_between<S: SpadeNum>(low: S, high: S, a: S) -> bool
    ensures { IsTrue result ↔ ((S.whole low ≤ℤ S.whole a) × (S.whole a ≤ℤ S.whole high)) }
{
    low.to_i64() <= a.to_i64() && a.to_i64() <= high.to_i64()
}

// The side of the corner with these coordinates.
fn side_of<S: SpadeNum, P: PlaneTests<S>>(
    from: Point2<S>,
    to: Point2<S>,
    x: S,
    y: S,
    tests: &P,
) -> LineSideInfo
    requires start_covered { P.covered tests.now (place_of S.whole from) }
    requires end_covered { P.covered tests.now (place_of S.whole to) }
    requires corner_covered { P.covered tests.now (record { x = S.whole x; y = S.whole y }) }
    ensures { result ≡ side (fraction (place_of S.whole from)) (fraction (place_of S.whole to))
        (fraction (record { x = S.whole x; y = S.whole y })) }
{
    tests.side(from, to, Point2::new(x, y))
}

fn are_left(a: LineSideInfo, b: LineSideInfo, c: LineSideInfo, d: LineSideInfo) -> bool
    ensures { IsTrue result ↔ ((a ≡ left) × (b ≡ left) × (c ≡ left) × (d ≡ left)) }
{
    a.is_on_left_side() && b.is_on_left_side() && c.is_on_left_side() && d.is_on_left_side()
}

fn are_right(a: LineSideInfo, b: LineSideInfo, c: LineSideInfo, d: LineSideInfo) -> bool
    ensures { IsTrue result ↔ ((a ≡ right) × (b ≡ right) × (c ≡ right) × (d ≡ right)) }
{
    a.is_on_right_side() && b.is_on_right_side() && c.is_on_right_side() && d.is_on_right_side()
}

// Whether one of two coordinates is at least low, and one at most high.
fn range_meets<S: SpadeNum>(low: S, high: S, a: S, b: S) -> bool
    ensures { IsTrue result ↔ RangeMeets (S.whole low) (S.whole high) (S.whole a) (S.whole b) }
{
    is_one_up(low, a, b) && is_one_down(high, a, b)
}

fn is_one_up<S: SpadeNum>(low: S, a: S, b: S) -> bool
    ensures { IsTrue result ↔ ((S.whole low ≤ℤ S.whole a) ⊎ (S.whole low ≤ℤ S.whole b)) }
{
    low.to_i64() <= a.to_i64() || low.to_i64() <= b.to_i64()
}

fn is_one_down<S: SpadeNum>(high: S, a: S, b: S) -> bool
    ensures { IsTrue result ↔ ((S.whole a ≤ℤ S.whole high) ⊎ (S.whole b ≤ℤ S.whole high)) }
{
    a.to_i64() <= high.to_i64() || b.to_i64() <= high.to_i64()
}

// The coordinate from low to high that is nearest to another.
fn clamp<S: SpadeNum>(low: S, high: S, a: S) -> S
    ensures { S.whole result ≡ clamped (S.whole low) (S.whole high) (S.whole a) }
{
    if a.to_i64() < low.to_i64() {
        low
    } else if high.to_i64() < a.to_i64() {
        high
    } else {
        a
    }
}

impl<S: SpadeNum> DistanceMetric<S> for RectangleMetric<S> {
    ghost shape = { λ m. InClosedRectangle (place_of S.whole m.lower) (place_of S.whole m.upper) };

    ghost own_points = { λ m. corners (place_of S.whole m.lower) (place_of S.whole m.upper) };

    ghost meets = { λ m. meets_rectangle (place_of S.whole m.lower) (place_of S.whole m.upper) };

    ghost distance = { λ m.
        rectangle_distance (place_of S.whole m.lower) (place_of S.whole m.upper) };

    /// Whether the closed edge with these ends has a point in the rectangle. The tests have to
    /// cover the ends and the rectangle's four corners, and say on which sides of the edge these
    /// are.
    fn is_edge_inside<P: PlaneTests<S>>(&self, points: (Point2<S>, Point2<S>), tests: &P) -> bool
        requires own_covered { All (P.covered tests.now)
            (corners (place_of S.whole self.now.lower) (place_of S.whole self.now.upper)) }
        requires start_covered { P.covered tests.now (place_of S.whole points.0) }
        requires end_covered { P.covered tests.now (place_of S.whole points.1) }
        ensures answer { result ≡ meets_rectangle (place_of S.whole self.now.lower)
            (place_of S.whole self.now.upper) (place_of S.whole points.0)
            (place_of S.whole points.1) }
        ensures inside { IsTrue result ↔
            HasPointIn (InClosedRectangle (place_of S.whole self.now.lower)
            (place_of S.whole self.now.upper)) (place_of S.whole points.0)
            (place_of S.whole points.1) }
    {
        let (from, to) = points;
        self.meets(from, to, tests)
    }

    /// The squared distance from a point in range to the nearest point of the rectangle, in the
    /// squared unit of the coordinates: 0 in the rectangle, and `i64::MAX` from a reversed one.
    fn distance_to_point(&self, point: Point2<S>) -> i64
        requires { InRange (place_of S.whole point) }
        ensures value { result ≡ rectangle_distance (place_of S.whole self.now.lower)
            (place_of S.whole self.now.upper) (place_of S.whole point) }
        ensures inside { (result ≤ℤ pos 0) ↔
            InClosedRectangle (place_of S.whole self.now.lower) (place_of S.whole self.now.upper)
            (fraction (place_of S.whole point)) }
        ensures reversed { IsReversed (place_of S.whole self.now.lower)
            (place_of S.whole self.now.upper) → result ≡ farthest }
        ensures nearest { ¬ IsReversed (place_of S.whole self.now.lower)
            (place_of S.whole self.now.upper) →
            IsLeastDistance (InClosedRectangle (place_of S.whole self.now.lower)
            (place_of S.whole self.now.upper)) (place_of S.whole point) result }
    {
        if self.is_reversed() {
            return i64::MAX;
        }
        point.distance_2(Point2::new(
            clamp(self.lower.x, self.upper.x, point.x),
            clamp(self.lower.y, self.upper.y, point.y),
        ))
    }
}
