//! Points in range: distances, conversions and projections on edges.
ghost use Rattle.std.specs.Prelude.{IfSome};
ghost use Rattle.{delaunay_core.specs.place_of, plane.specs.InRange};

use delaunay_core::math::{PointProjection, project_point, validate_vertex};
use delaunay_core::point::{HasPosition, Point2, SpadeNum};

/// Both coordinates of a point.
pub type Coordinates = (i64, i64);

/// A point, if it is in range.
pub fn in_range<S: SpadeNum>(point: Point2<S>) -> Option<Point2<S>>
    ensures { IfSome result (λ p. InRange (place_of S.whole p)) }
{
    if validate_vertex(&point).is_err() {
        return None;
    }
    Some(point)
}

/// A point in range.
pub fn point(coordinates: Coordinates) -> Option<Point2<i64>>
    ensures { IfSome result (λ p. InRange (place_of (λ z. z) p)) }
{
    let (x, y) = coordinates;
    in_range(Point2::new(x, y))
}

pub fn distance_2(from: Coordinates, to: Coordinates) -> Option<i64> {
    Some(point(from)?.distance_2(point(to)?))
}

/// Squared distances of points of bytes, of 16 bits and of 32 bits, and the least numbers of each
/// as 64 bits.
pub fn small_scalars() -> ([i64; 3], [i64; 3]) {
    let (least, most) = (
        Point2::new(-536870912i32, -536870912),
        Point2::new(536870912, 536870912),
    );
    let distances = [
        Point2::new(1i8, 1).distance_2(Point2::new(4, 5)),
        Point2::new(-3i16, 2).distance_2(Point2::new(-3, 2)),
        least.distance_2(most),
    ];
    (
        distances,
        [i8::MIN.to_i64(), i16::MIN.to_i64(), i32::MIN.to_i64()],
    )
}

/// A point's coordinates as an array and as a pair, and the points that these become, with the
/// position of the first.
pub fn convert(coordinates: Coordinates) -> ([i64; 2], Coordinates, [Point2<i64>; 4]) {
    let point: Point2<i64> = coordinates.into();
    let array: [i64; 2] = point.into();
    let pair: Coordinates = point.into();
    let again: Point2<i64> = array.into();
    (
        array,
        pair,
        [point, again, point.position(), Point2::default()],
    )
}

/// A projection and its two numbers, whether it is before its edge, on it and behind it, and where
/// it falls, for an edge with a length.
type Projected = (
    PointProjection<i64>,
    [i64; 2],
    [bool; 3],
    Option<(i64, i64)>,
);

fn projected(projection: PointProjection<i64>, position: Option<(i64, i64)>) -> Projected {
    let places = [
        projection.is_before_edge(),
        projection.is_on_edge(),
        projection.is_behind_edge(),
    ];
    (
        projection,
        [projection.factor(), projection.length_2()],
        places,
        position,
    )
}

fn relative_positions(
    from: Point2<i64>,
    to: Point2<i64>,
    query: Point2<i64>,
) -> [Option<(i64, i64)>; 2]
    requires from { InRange (place_of (λ z. z) from) }
    requires to { InRange (place_of (λ z. z) to) }
    requires query { InRange (place_of (λ z. z) query) }
{
    if from.distance_2(to) == 0 {
        return [None, None];
    }
    let projection = project_point(from, to, query);
    [
        Some(projection.relative_position()),
        Some(projection.reversed().relative_position()),
    ]
}

/// Of a projection on an edge, and on the edge in the other direction.
pub fn project(from: Coordinates, to: Coordinates, query: Coordinates) -> Option<[Projected; 2]> {
    let (from, to, query) = (point(from)?, point(to)?, point(query)?);
    let [there, back] = relative_positions(from, to, query);
    let projection = project_point(from, to, query);
    Some([
        projected(projection, there),
        projected(projection.reversed(), back),
    ])
}
