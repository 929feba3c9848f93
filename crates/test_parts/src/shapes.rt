//! Closed circles and rectangles: how far a point is, and whether an edge has a point in them.

use crate::points::{Coordinates, point};
use delaunay_shapes::{CircleMetric, DistanceMetric, RectangleMetric};
use exact_predicates::ExactTests;

/// How far a point is from a circle, and whether it is inside.
pub fn circle(center: Coordinates, radius_2: i64, query: Coordinates) -> Option<(i64, bool)> {
    let (center, query) = (point(center)?, point(query)?);
    if radius_2 < 0 {
        return None;
    }
    let circle = CircleMetric::new(center, radius_2);
    Some((
        circle.distance_to_point(query),
        circle.is_point_inside(query),
    ))
}

/// Whether an edge has a point in a circle, and the same with its ends in the other order.
pub fn circle_edge(
    center: Coordinates,
    radius_2: i64,
    [from, to]: [Coordinates; 2],
) -> Option<[bool; 2]> {
    let (center, from, to) = (point(center)?, point(from)?, point(to)?);
    if radius_2 < 0 {
        return None;
    }
    let circle = CircleMetric::new(center, radius_2);
    Some([
        circle.is_edge_inside((from, to), &ExactTests),
        circle.is_edge_inside((to, from), &ExactTests),
    ])
}

/// How far a point is from a rectangle, and whether it is inside.
pub fn rectangle([lower, upper]: [Coordinates; 2], query: Coordinates) -> Option<(i64, bool)> {
    let (lower, upper, query) = (point(lower)?, point(upper)?, point(query)?);
    let rectangle = RectangleMetric::new(lower, upper);
    Some((
        rectangle.distance_to_point(query),
        rectangle.is_point_inside(query),
    ))
}

/// Whether an edge has a point in a rectangle, and the same with its ends in the other order.
pub fn rectangle_edge(
    [lower, upper]: [Coordinates; 2],
    [from, to]: [Coordinates; 2],
) -> Option<[bool; 2]> {
    let (lower, upper) = (point(lower)?, point(upper)?);
    let (from, to) = (point(from)?, point(to)?);
    let rectangle = RectangleMetric::new(lower, upper);
    Some([
        rectangle.is_edge_inside((from, to), &ExactTests),
        rectangle.is_edge_inside((to, from), &ExactTests),
    ])
}
