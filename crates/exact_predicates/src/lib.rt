//! Side and circle tests by determinants, true at every point in range: what most callers hand to a
//! triangulation. And whether a circle's disk stays within some sides.
//!
//! ```
//! let mut t: DelaunayTriangulation<Point2<i64>> = DelaunayTriangulation::new(rt.alloc());
//! t.insert(Point2::new(0, 0), &ExactTests)?;
//! t.insert(Point2::new(10, 0), &ExactTests)?;
//! let nearest = t.nearest_neighbor(Point2::new(7, 3), &ExactTests);
//! ```
#![tactic(auto)]

ghost use Rattle.std.specs.Prelude.{◌≡◌, ◌↔◌, ◌≤◌, ◌-ℤ◌, ◌*ℤ◌, IsTrue, unsigned_abs};
ghost use Rattle.plane.specs.{InRange, InsideCircle, IsCoordinate, lifted_determinant, side};
ghost use Rattle.plane.specs.{turn_at, TurnsLeft, whole as fraction};
ghost use Rattle.{delaunay_core.specs.place_of, exact_predicates.specs.Angles.dot_at};

mod disks;

use delaunay_core::line_side_info::LineSideInfo;
use delaunay_core::math::PlaneTests;
use delaunay_core::point::{Point2, SpadeNum};
pub use disks::{Sides, is_disk_within};

/// Tests for every scalar of the library: each point in range is covered, and is a site. A side is
/// the sign of one determinant in 64 bits, a circle that of one in 128 bits.
#[derive(Clone, Copy, Debug, Default)]
pub struct ExactTests;

// The way from one coordinate to another.
fn difference<S: SpadeNum>(from: S, to: S) -> i64
    requires from { IsCoordinate (S.whole from) }
    requires to { IsCoordinate (S.whole to) }
    ensures value { result ≡ S.whole to -ℤ S.whole from }
    ensures bound { unsigned_abs result ≤ 1073741824 }
{
    to.to_i64() - from.to_i64()
}

// The product of two differences.
fn product(a: i64, b: i64) -> i64
    requires a { unsigned_abs a ≤ 1073741824 }
    requires b { unsigned_abs b ≤ 1073741824 }
    ensures value { result ≡ a *ℤ b }
    ensures bound { unsigned_abs result ≤ 1152921504606846976 }
{
    a * b
}

// The scalar product of the ways from a point to two others, positive where they make a sharp
// angle.
fn dot_at<S: SpadeNum>(q: Point2<S>, u: Point2<S>, v: Point2<S>) -> i64
    requires q { InRange (place_of S.whole q) }
    requires u { InRange (place_of S.whole u) }
    requires v { InRange (place_of S.whole v) }
    ensures value { result ≡ dot_at (place_of S.whole q) (place_of S.whole u)
        (place_of S.whole v) }
    ensures bound { unsigned_abs result ≤ 2305843009213693952 }
{
    product(difference(q.x, u.x), difference(q.x, v.x))
        + product(difference(q.y, u.y), difference(q.y, v.y))
}

// Twice the signed area of a triangle, positive where it turns left.
fn turn_at<S: SpadeNum>(q: Point2<S>, u: Point2<S>, v: Point2<S>) -> i64
    requires q { InRange (place_of S.whole q) }
    requires u { InRange (place_of S.whole u) }
    requires v { InRange (place_of S.whole v) }
    ensures value { result ≡ turn_at (place_of S.whole q) (place_of S.whole u)
        (place_of S.whole v) }
    ensures bound { unsigned_abs result ≤ 2305843009213693952 }
{
    product(difference(q.x, u.x), difference(q.y, v.y))
        - product(difference(q.y, u.y), difference(q.x, v.x))
}

// A scalar product times twice an area.
fn term(dot: i64, turn: i64) -> i128
    requires dot { unsigned_abs dot ≤ 2305843009213693952 }
    requires turn { unsigned_abs turn ≤ 2305843009213693952 }
    ensures value { result ≡ dot *ℤ turn }
    ensures bound { unsigned_abs result ≤ 5316911983139663491615228241121378304 }
{
    i128::from(dot) * i128::from(turn)
}

// The determinant that is positive exactly where `q` is inside the circle of a left-turning triple.
// It is found from the angles at `p` and at `q` between the ways to `u` and `v`, which takes fewer
// products than its definition does.
fn lifted_determinant<S: SpadeNum>(u: Point2<S>, v: Point2<S>, p: Point2<S>, q: Point2<S>) -> i128
    requires u { InRange (place_of S.whole u) }
    requires v { InRange (place_of S.whole v) }
    requires p { InRange (place_of S.whole p) }
    requires q { InRange (place_of S.whole q) }
    ensures { result ≡ lifted_determinant (place_of S.whole u) (place_of S.whole v)
        (place_of S.whole p) (place_of S.whole q) }
{
    term(dot_at(p, u, v), turn_at(q, u, v)) - term(dot_at(q, u, v), turn_at(p, u, v))
}

impl<S: SpadeNum> PlaneTests<S> for ExactTests {
    ghost covered = { λ _ p. InRange p };

    ghost sites = { λ _ p. InRange p };

    ghost sites_are_covered = { λ t p h. h };

    ghost covered_are_in_range = { λ t p h. h };

    fn side(&self, from: Point2<S>, to: Point2<S>, point: Point2<S>) -> LineSideInfo
        requires from_covered { InRange (place_of S.whole from) }
        requires to_covered { InRange (place_of S.whole to) }
        requires point_covered { InRange (place_of S.whole point) }
        ensures { result ≡ side (fraction (place_of S.whole from)) (fraction (place_of S.whole to))
            (fraction (place_of S.whole point)) }
    {
        let turn = turn_at(from, to, point);
        if turn > 0 {
            LineSideInfo::left()
        } else if turn < 0 {
            LineSideInfo::right()
        } else {
            LineSideInfo::on_line()
        }
    }

    fn is_in_circle(&self, v1: Point2<S>, v2: Point2<S>, v3: Point2<S>, point: Point2<S>) -> bool
        requires v1_site { InRange (place_of S.whole v1) }
        requires v2_site { InRange (place_of S.whole v2) }
        requires v3_site { InRange (place_of S.whole v3) }
        requires point_site { InRange (place_of S.whole point) }
        requires left_turn { TurnsLeft (fraction (place_of S.whole v1))
            (fraction (place_of S.whole v2)) (fraction (place_of S.whole v3)) }
        ensures { IsTrue result ↔
            InsideCircle (fraction (place_of S.whole v1)) (fraction (place_of S.whole v2))
            (fraction (place_of S.whole v3)) (fraction (place_of S.whole point)) }
    {
        lifted_determinant(v1, v2, v3, point) > 0
    }
}
