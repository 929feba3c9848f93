//! Coordinates and their range, the errors of an insertion, and the tests that callers hand in.
ghost use Rattle.std.specs.Prelude.{◌≡◌, ◌≢◌, ◌↔◌, IsTrue, IsOk, OnErr, IsErrOf};
ghost use Rattle.plane.specs.{InRange, InsideCircle, IsCoordinate, Point, right, side, TurnsLeft};
ghost use Rattle.{delaunay_core.specs.Place.place_of, plane.specs.whole as fraction};
ghost use Rattle.delaunay_core.specs.declared.math.InsertionError.TheVariants.{TooLarge};

use crate::line_side_info::LineSideInfo;
use crate::point::{HasPosition, Point2, SpadeNum};
pub use crate::projection::{PointProjection, project_point};
use thiserror::Error;

/// The greatest absolute value of a coordinate, 2 to the 29th.
pub const MAX_ALLOWED_VALUE: i64 = 536870912;

/// Why a vertex was not inserted. Each prints its own name.
///
/// ```
/// match points.insert(Point2::new(x, y), &ExactTests) {
///     Ok(vertex) => println!(rt; "vertex {}", vertex.index())?,
///     Err(error) => println!(rt; "refused: {error}")?, // as in "refused: TooLarge"
/// }
/// ```
#[derive(Clone, Copy, Debug, PartialEq, Eq, PartialOrd, Ord, Hash, Error)]
pub enum InsertionError {
    /// A coordinate is out of range.
    #[error("TooLarge")]
    TooLarge,
    /// Memory was refused.
    #[error("OutOfMemory")]
    OutOfMemory,
    /// The mesh might have too few indexes: six times the new number of vertices, or a total that
    /// was asked for, with edges counted twice, passes the largest number of elements.
    #[error("OutOfIndexes")]
    OutOfIndexes,
}

/// `TooLarge` exactly where the absolute value is more than `MAX_ALLOWED_VALUE`.
pub fn validate_coordinate<S: SpadeNum>(value: S) -> Result<(), InsertionError>
    ensures only { OnErr result (IsErrOf result TooLarge) }
    ensures exactly { IsOk result ↔ IsCoordinate (S.whole value) }
{
    let whole = value.to_i64();
    if whole < -MAX_ALLOWED_VALUE || whole > MAX_ALLOWED_VALUE {
        Err(InsertionError::TooLarge)
    } else {
        Ok(())
    }
}

/// `TooLarge` exactly where a coordinate of the position is out of range.
///
/// ```
/// let inside = validate_vertex(&Point2::new(536870912i64, 0)).is_ok(); // true
/// let outside = validate_vertex(&Point2::new(536870913i64, 0)).is_ok(); // false
/// ```
pub fn validate_vertex<V: HasPosition>(vertex: &V) -> Result<(), InsertionError>
    ensures only { OnErr result (IsErrOf result TooLarge) }
    ensures exactly { IsOk result ↔ InRange (V.place vertex.now) }
{
    let position = vertex.position();
    validate_coordinate(position.x)?;
    validate_coordinate(position.y)
}

/// True answers to side and circle tests, which the caller hands in: of sides at its covered
/// points, of circles at its sites. Each site is covered, and each covered point is in range. The
/// crate has no implementation of its own.
///
/// ```
/// let (from, to) = (Point2::new(0, 0), Point2::new(1, 0));
/// let side = tests.side(from, to, Point2::new(0, 1)); // left
/// let square = tests.is_in_circle(from, to, Point2::new(0, 1), Point2::new(1, 1)); // false
/// ```
pub trait PlaneTests<S: SpadeNum> {
    ghost covered: { Self → Point → Type 0 };

    ghost sites: { Self → Point → Type 0 };

    /// The side of `point`, as seen along the line from `from` to `to`. With two equal points among
    /// the three it is on.
    fn side(&self, from: Point2<S>, to: Point2<S>, point: Point2<S>) -> LineSideInfo
        requires from_covered { covered self.now (place_of S.whole from) }
        requires to_covered { covered self.now (place_of S.whole to) }
        requires point_covered { covered self.now (place_of S.whole point) }
        ensures { result ≡ side (fraction (place_of S.whole from)) (fraction (place_of S.whole to))
            (fraction (place_of S.whole point)) };

    /// Whether `point` is strictly inside the circle of the left-turning triple `v1`, `v2`, `v3`.
    fn is_in_circle(&self, v1: Point2<S>, v2: Point2<S>, v3: Point2<S>, point: Point2<S>) -> bool
        requires v1_site { sites self.now (place_of S.whole v1) }
        requires v2_site { sites self.now (place_of S.whole v2) }
        requires v3_site { sites self.now (place_of S.whole v3) }
        requires point_site { sites self.now (place_of S.whole point) }
        requires left_turn { TurnsLeft (fraction (place_of S.whole v1))
            (fraction (place_of S.whole v2)) (fraction (place_of S.whole v3)) }
        ensures { IsTrue result ↔
            InsideCircle (fraction (place_of S.whole v1)) (fraction (place_of S.whole v2))
            (fraction (place_of S.whole v3)) (fraction (place_of S.whole point)) };

    ghost sites_are_covered: { (t : Self) (p : Point) → sites t p → covered t p };

    ghost covered_are_in_range: { (t : Self) (p : Point) → covered t p → InRange p };
}

/// Whether `query_point` lies on the left of the line from `p1` to `p2` or on it. All three are
/// covered.
pub fn is_ordered_ccw<S: SpadeNum, P: PlaneTests<S>>(
    p1: Point2<S>,
    p2: Point2<S>,
    query_point: Point2<S>,
    tests: &P,
) -> bool
    requires p1_covered { P.covered tests.now (place_of S.whole p1) }
    requires p2_covered { P.covered tests.now (place_of S.whole p2) }
    requires query_covered { P.covered tests.now (place_of S.whole query_point) }
    ensures { IsTrue result ↔
        (side (fraction (place_of S.whole p1)) (fraction (place_of S.whole p2))
        (fraction (place_of S.whole query_point)) ≢ right) }
{
    tests.side(p1, p2, query_point).is_on_left_side_or_on_line()
}
