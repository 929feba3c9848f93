//! What points, projections, errors and shapes derive: equality, order, hashes and printed forms.

use crate::points::{Coordinates, point};
use delaunay_core::math::{InsertionError, PointProjection, project_point, validate_vertex};
use delaunay_core::point::Point2;
use delaunay_shapes::{CircleMetric, RectangleMetric};
use std::cmp::Ordering;
use std::hash::Hash;
use std::io;
use test_reader::hash_of;

/// The order of two points, and whether they are equal and hash alike.
pub fn compare_points((a, b): Coordinates, (c, d): Coordinates) -> (Ordering, [bool; 2]) {
    let (first, second) = (Point2::new(a, b), Point2::new(c, d));
    (
        first.cmp(&second),
        [first == second, hash_of(&first) == hash_of(&second)],
    )
}

/// The order of two values, and whether they are equal and hash alike.
pub type Compared = (Option<Ordering>, [bool; 2]);

fn compared<T: PartialOrd + Hash>(first: &T, second: &T) -> Compared {
    let alike = [*first == *second, hash_of(first) == hash_of(second)];
    (first.partial_cmp(second), alike)
}

// Where a point of the line y = 0 falls on the edge from 0 to another of its points.
fn projection((end, query): Coordinates) -> Option<PointProjection<i64>> {
    let (from, to, query) = (point((0, 0))?, point((end, 0))?, point((query, 0))?);
    Some(project_point(from, to, query))
}

/// Of two projections, each by the end of its edge and by its point.
pub fn compare_projections(
    first: Coordinates,
    second: Coordinates,
) -> Option<(Ordering, Compared)> {
    let (first, second) = (projection(first)?, projection(second)?);
    Some((first.cmp(&second), compared(&first, &second)))
}

fn error(number: i64) -> InsertionError {
    match number {
        0 => InsertionError::TooLarge,
        1 => InsertionError::OutOfMemory,
        _ => InsertionError::OutOfIndexes,
    }
}

/// Of two refusals by their numbers.
pub fn compare_errors(first: i64, second: i64) -> (Ordering, Compared) {
    let (first, second) = (error(first), error(second));
    (first.cmp(&second), compared(&first, &second))
}

fn circle(center: Coordinates, radius_2: i64) -> Option<CircleMetric<i64>> {
    let center = point(center)?;
    if radius_2 < 0 {
        return None;
    }
    Some(CircleMetric::new(center, radius_2))
}

/// Of two circles, each by its centre and its squared radius.
pub fn compare_circles(
    (first, first_radius_2): (Coordinates, i64),
    (second, second_radius_2): (Coordinates, i64),
) -> Option<Compared> {
    let first = circle(first, first_radius_2)?;
    let second = circle(second, second_radius_2)?;
    Some(compared(&first, &second))
}

fn rectangle([lower, upper]: [Coordinates; 2]) -> Option<RectangleMetric<i64>> {
    let (lower, upper) = (point(lower)?, point(upper)?);
    Some(RectangleMetric::new(lower, upper))
}

/// Of two rectangles by their corners.
pub fn compare_rectangles(first: [Coordinates; 2], second: [Coordinates; 2]) -> Option<Compared> {
    let (first, second) = (rectangle(first)?, rectangle(second)?);
    Some(compared(&first, &second))
}

/// Prints each refusal as it is shown and as it is debugged, their order, and that a point of bytes
/// is in range.
pub fn errors(rt: &impl Print) -> io::Result<()> {
    let (first, second, third) = (
        InsertionError::TooLarge,
        InsertionError::OutOfMemory,
        InsertionError::OutOfIndexes,
    );
    println!(rt; "{first} {second} {third} {first:?} {second:?} {third:?}")?;
    let in_order = [first < second, second < third];
    println!(rt;
        "{in_order:?} {:?}",
        validate_vertex(&Point2::new(127i8, -128))
    )
}

/// A circle and a rectangle, and whether each equals another and comes before it.
pub fn metrics() -> (CircleMetric<i64>, RectangleMetric<i64>, [bool; 4]) {
    let origin = Point2::new(0i64, 0);
    let (circle, wider) = (CircleMetric::new(origin, 2), CircleMetric::new(origin, 3));
    let rectangle = RectangleMetric::new(origin, Point2::new(1, 2));
    let higher = RectangleMetric::new(origin, Point2::new(1, 3));
    let compared = [
        circle == wider,
        circle < wider,
        rectangle == higher,
        rectangle < higher,
    ];
    (circle, rectangle, compared)
}
