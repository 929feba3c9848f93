//! Questions about a few points.
ghost use Rattle.std.specs.Prelude.{◌≡◌, ◌≢◌, ◌↔◌, IsTrue};
ghost use Rattle.plane.specs.{InsideTriangle, TurnsLeft, whole as fraction, WithinSegment};
ghost use Rattle.{delaunay_core.specs.place_of, delaunay_legalization.specs.Between.IsFrom};

use delaunay_core::math::PlaneTests;
use delaunay_core::point::{Point2, SpadeNum};

/// Whether two points are one.
pub fn is_same_point<S: SpadeNum>(a: Point2<S>, b: Point2<S>) -> bool
    ensures { IsTrue result ↔ (place_of S.whole a ≡ place_of S.whole b) }
{
    a.x.to_i64() == b.x.to_i64() && a.y.to_i64() == b.y.to_i64()
}

// Whether a coordinate is one of `from` and `to`, or between them.
fn is_from<S: SpadeNum>(from: S, to: S, value: S) -> bool
    ensures { IsTrue result ↔ IsFrom (S.whole from) (S.whole to) (S.whole value) }
{
    let (from, to, value) = (from.to_i64(), to.to_i64(), value.to_i64());
    (from <= value && value <= to) || (to <= value && value <= from)
}

/// Whether a point is strictly within the segment of two others, which differ from it and from each
/// other.
pub fn is_strictly_within<S: SpadeNum, P: PlaneTests<S>>(
    from: Point2<S>,
    to: Point2<S>,
    point: Point2<S>,
    tests: &P,
) -> bool
    requires from_covered { P.covered tests.now (place_of S.whole from) }
    requires to_covered { P.covered tests.now (place_of S.whole to) }
    requires point_covered { P.covered tests.now (place_of S.whole point) }
    requires ends_apart { place_of S.whole from ≢ place_of S.whole to }
    requires not_from { place_of S.whole point ≢ place_of S.whole from }
    requires not_to { place_of S.whole point ≢ place_of S.whole to }
    ensures { IsTrue result ↔
        WithinSegment (fraction (place_of S.whole from)) (fraction (place_of S.whole to))
        (fraction (place_of S.whole point)) }
{
    if !tests.side(from, to, point).is_on_line() {
        return false;
    }
    is_from(from.x, to.x, point.x) && is_from(from.y, to.y, point.y)
}

/// Whether three points turn left.
pub fn turns_left<S: SpadeNum, P: PlaneTests<S>>(
    a: Point2<S>,
    b: Point2<S>,
    c: Point2<S>,
    tests: &P,
) -> bool
    requires a_covered { P.covered tests.now (place_of S.whole a) }
    requires b_covered { P.covered tests.now (place_of S.whole b) }
    requires c_covered { P.covered tests.now (place_of S.whole c) }
    ensures { IsTrue result ↔
        TurnsLeft (fraction (place_of S.whole a)) (fraction (place_of S.whole b))
        (fraction (place_of S.whole c)) }
{
    tests.side(a, b, c).is_on_left_side()
}

/// Whether a point is strictly inside the triangle of three others, which turn left.
pub fn is_strictly_inside<S: SpadeNum, P: PlaneTests<S>>(
    a: Point2<S>,
    b: Point2<S>,
    c: Point2<S>,
    point: Point2<S>,
    tests: &P,
) -> bool
    requires a_covered { P.covered tests.now (place_of S.whole a) }
    requires b_covered { P.covered tests.now (place_of S.whole b) }
    requires c_covered { P.covered tests.now (place_of S.whole c) }
    requires point_covered { P.covered tests.now (place_of S.whole point) }
    requires turns { TurnsLeft (fraction (place_of S.whole a)) (fraction (place_of S.whole b))
        (fraction (place_of S.whole c)) }
    ensures { IsTrue result ↔
        InsideTriangle (fraction (place_of S.whole a)) (fraction (place_of S.whole b))
        (fraction (place_of S.whole c)) (fraction (place_of S.whole point)) }
{
    turns_left(a, b, point, tests)
        && turns_left(b, c, point, tests)
        && turns_left(c, a, point, tests)
}
