//! Where a point falls on the line of an edge.
ghost use Rattle.std.specs.Prelude.{◌≡◌, ◌≢◌, ◌↔◌, ◌≤◌, ◌-ℤ◌, ◌*ℤ◌, ◌<ℤ◌, ◌≤ℤ◌, ⊤};
ghost use Rattle.std.specs.Prelude.{pos, IsTrue, unsigned_abs};
ghost use Rattle.plane.specs.{gap, InRange, whole as fraction};
ghost use Rattle.{delaunay_core.specs.Place.place_of, delaunay_core.specs.Projection.along};

use crate::point::{Point2, SpadeNum, difference};
use std::alloc::AllocError;
use std::fmt;
use std::marker::PhantomData;

/// Where a point falls on the line of an edge. `S` names the scalar of the points; both numbers are
/// whole.
///
/// ```
/// let falls = project_point(Point2::new(1, 1), Point2::new(4, 5), Point2::new(0, 0));
/// let before = falls.is_before_edge(); // true
/// let (factor, length_2) = falls.relative_position(); // -7 and 25
/// ```
#[derive_where(Copy, PartialEq, Eq, PartialOrd, Ord, Hash)]
pub struct PointProjection<S> {
    factor: i64,
    length_2: i64,
    scalar: PhantomData<S>,
    ghost factor_fits: { unsigned_abs factor ≤ 2305843009213693952 },
    ghost rest_fits: { unsigned_abs (length_2 -ℤ factor) ≤ 2305843009213693952 },
}

impl<S> Clone for PointProjection<S> {
    ghost is_clone = { λ it copy. copy ≡ it };

    ghost is_infallible = { λ _. ⊤ };

    fn clone(&self) -> Result<Self, AllocError> {
        Ok(*self)
    }
}

impl<S> fmt::Debug for PointProjection<S> {
    fn fmt<W: fmt::Write>(&self, f: &mut fmt::Formatter<W>) -> fmt::Result {
        f.debug_struct("PointProjection")
            .field("factor", &self.factor)
            .field("length_2", &self.length_2)
            .finish()
    }
}

/// Where `query_point` falls on the line of the edge from `p1` to `p2`, all three in range. The
/// factor is the dot product of the ways from `p1` to the two others, and `length_2` is the squared
/// length of the edge. Where `p1` and `p2` are equal, both are 0.
pub fn project_point<S: SpadeNum>(
    p1: Point2<S>,
    p2: Point2<S>,
    query_point: Point2<S>,
) -> PointProjection<S>
    requires p1_in_range { InRange (place_of S.whole p1) }
    requires p2_in_range { InRange (place_of S.whole p2) }
    requires query_in_range { InRange (place_of S.whole query_point) }
    ensures factor { result.factor ≡ along (place_of S.whole p1) (place_of S.whole p2)
        (place_of S.whole query_point) }
    ensures length_2 { result.length_2 ≡ gap (fraction (place_of S.whole p1))
        (fraction (place_of S.whole p2)) }
{
    let factor = product(difference(p1.x, p2.x), difference(p1.x, query_point.x))
        + product(difference(p1.y, p2.y), difference(p1.y, query_point.y));
    PointProjection {
        factor,
        length_2: p1.distance_2(p2),
        scalar: PhantomData,
    }
}

fn product(a: i64, b: i64) -> i64
    requires a_bound { unsigned_abs a ≤ 1073741824 }
    requires b_bound { unsigned_abs b ≤ 1073741824 }
    ensures value { result ≡ a *ℤ b }
    ensures bound { unsigned_abs result ≤ 1152921504606846976 }
{
    a * b
}

impl<S> PointProjection<S> {
    /// The dot product of the ways from the start of the edge to its end and to the point.
    pub fn factor(&self) -> i64
        ensures { result ≡ self.now.factor }
    {
        self.factor
    }

    /// The squared length of the edge.
    pub fn length_2(&self) -> i64
        ensures { result ≡ self.now.length_2 }
    {
        self.length_2
    }

    /// Whether the point falls before the start of the edge.
    pub fn is_before_edge(&self) -> bool
        ensures { IsTrue result ↔ (self.now.factor <ℤ pos 0) }
    {
        self.factor < 0
    }

    /// Whether the point falls behind the end of the edge.
    pub fn is_behind_edge(&self) -> bool
        ensures { IsTrue result ↔ (self.now.length_2 <ℤ self.now.factor) }
    {
        self.factor > self.length_2
    }

    /// Whether the point falls on the edge, its ends among it.
    pub fn is_on_edge(&self) -> bool
        ensures { IsTrue result ↔
            ((pos 0 ≤ℤ self.now.factor) × (self.now.factor ≤ℤ self.now.length_2)) }
    {
        !self.is_before_edge() && !self.is_behind_edge()
    }

    /// Where the point falls on the line of the same edge in the other direction.
    pub fn reversed(&self) -> Self
        ensures factor { result.factor ≡ self.now.length_2 -ℤ self.now.factor }
        ensures length_2 { result.length_2 ≡ self.now.length_2 }
    {
        PointProjection {
            factor: self.length_2 - self.factor,
            length_2: self.length_2,
            scalar: PhantomData,
        }
    }

    /// The part of the edge that lies before the point, as a fraction: the factor over the squared
    /// length, which is not 0.
    pub fn relative_position(&self) -> (i64, i64)
        requires { self.now.length_2 ≢ pos 0 }
        ensures factor { result.0 ≡ self.now.factor }
        ensures length_2 { result.1 ≡ self.now.length_2 }
    {
        (self.factor, self.length_2)
    }
}
