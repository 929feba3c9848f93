//! Sides of lines and circles.

use crate::points::{Coordinates, in_range, point};
use delaunay_core::line_side_info::LineSideInfo;
use delaunay_core::math;
use delaunay_core::math::PlaneTests;
use delaunay_core::point::{Point2, SpadeNum};
use exact_predicates::ExactTests;

/// What a side says of left, right, left or on, right or on, and on; and the side of the other
/// direction.
fn answers(side: LineSideInfo) -> ([bool; 5], LineSideInfo) {
    let answers = [
        side.is_on_left_side(),
        side.is_on_right_side(),
        side.is_on_left_side_or_on_line(),
        side.is_on_right_side_or_on_line(),
        side.is_on_line(),
    ];
    (answers, side.reversed())
}

/// All of that of left, right and on, and whether left is left, and on is left.
pub fn side_infos() -> ([([bool; 5], LineSideInfo); 3], [bool; 2]) {
    let (left, right, on) = (
        LineSideInfo::left(),
        LineSideInfo::right(),
        LineSideInfo::on_line(),
    );
    let equal = [left == right.reversed(), on == left];
    ([answers(left), answers(right), answers(on)], equal)
}

pub fn is_ordered_ccw(a: Coordinates, b: Coordinates, c: Coordinates) -> Option<bool> {
    Some(math::is_ordered_ccw(point(a)?, point(b)?, point(c)?, &ExactTests))
}

/// The side of a line on which a point is.
pub fn side<S: SpadeNum>(from: Point2<S>, to: Point2<S>, query: Point2<S>) -> Option<LineSideInfo> {
    Some(ExactTests.side(in_range(from)?, in_range(to)?, in_range(query)?))
}

/// Whether a point is in the circle through the corners of a triangle that turns left.
pub fn is_in_circle<S: SpadeNum>([a, b, c]: [Point2<S>; 3], query: Point2<S>) -> Option<bool> {
    let (a, b, c, query) = (in_range(a)?, in_range(b)?, in_range(c)?, in_range(query)?);
    if !ExactTests.side(a, b, c).is_on_left_side() {
        return None;
    }
    Some(ExactTests.is_in_circle(a, b, c, query))
}

/// The sides of a line of bytes on which three points are.
pub fn sides_of_bytes() -> [Option<LineSideInfo>; 3] {
    let (from, to) = (Point2::new(0i8, 0), Point2::new(4, 2));
    [
        side(from, to, Point2::new(1, 1)),
        side(from, to, Point2::new(3, 1)),
        side(from, to, Point2::new(2, 1)),
    ]
}

/// Whether three points of 32 bits are in a circle.
pub fn circles_of_32_bits() -> [Option<bool>; 3] {
    let corners = [Point2::new(0i32, 0), Point2::new(4, 0), Point2::new(0, 4)];
    [
        is_in_circle(corners, Point2::new(3, 3)),
        is_in_circle(corners, Point2::new(4, 4)),
        is_in_circle(corners, Point2::new(5, 4)),
    ]
}
