//! A line of the script: the name of a call and up to eight numbers, and what the call gives.

use crate::comparisons::{
    compare_circles, compare_errors, compare_points, compare_projections, compare_rectangles,
    errors, metrics,
};
use crate::points::{convert, distance_2, project, small_scalars};
use crate::shapes::{circle, circle_edge, rectangle, rectangle_edge};
use crate::sides::{
    circles_of_32_bits, is_in_circle, is_ordered_ccw, side, side_infos, sides_of_bytes,
};
use delaunay_core::math::{validate_coordinate, validate_vertex};
use delaunay_core::point::Point2;
use std::io;
use test_reader::Call;

/// Makes the call that a line asks for, and prints what it gives.
pub fn answer(rt: &impl Print, call: &Call<'_>) -> io::Result<()> {
    let [a, b, c, d, ..] = call.numbers;
    match call.name {
        "validate_coordinate" => call.tell(rt, &validate_coordinate(a)),
        "validate_vertex" => call.tell(rt, &validate_vertex(&Point2::new(a, b))),
        "distance_2" => call.tell(rt, &distance_2((a, b), (c, d))),
        "small_scalars" => call.tell(rt, &small_scalars()),
        "compare_points" => call.tell(rt, &compare_points((a, b), (c, d))),
        "compare_projections" => call.tell(rt, &compare_projections((a, b), (c, d))),
        "compare_errors" => call.tell(rt, &compare_errors(a, b)),
        "convert" => call.tell(rt, &convert((a, b))),
        "side_infos" => call.tell(rt, &side_infos()),
        "sides_of_bytes" => call.tell(rt, &sides_of_bytes()),
        "circles_of_32_bits" => call.tell(rt, &circles_of_32_bits()),
        "errors" => errors(rt),
        "metrics" => call.tell(rt, &metrics()),
        _ => answer_in_plane(rt, call, call.numbers),
    }
}

// The calls with three points and more.
fn answer_in_plane(
    rt: &impl Print,
    call: &Call<'_>,
    [a, b, c, d, e, f, g, h]: [i64; 8],
) -> io::Result<()> {
    let (first, second) = call.ends();
    let (third, fourth) = (Point2::new(e, f), Point2::new(g, h));
    match call.name {
        "side" => call.tell(rt, &side(first, second, third)),
        "is_in_circle" => call.tell(rt, &is_in_circle([first, second, third], fourth)),
        "is_ordered_ccw" => call.tell(rt, &is_ordered_ccw((a, b), (c, d), (e, f))),
        "project_point" => call.tell(rt, &project((a, b), (c, d), (e, f))),
        "circle" => call.tell(rt, &circle((a, b), c, (d, e))),
        "circle_edge" => call.tell(rt, &circle_edge((a, b), c, [(d, e), (f, g)])),
        "rectangle" => call.tell(rt, &rectangle([(a, b), (c, d)], (e, f))),
        "rectangle_edge" => { call.tell(rt, &rectangle_edge([(a, b), (c, d)], [(e, f), (g, h)])) }
        "compare_circles" => call.tell(rt, &compare_circles(((a, b), c), ((d, e), f))),
        "compare_rectangles" => {
            call.tell(rt, &compare_rectangles([(a, b), (c, d)], [(e, f), (g, h)]))
        }
        _ => call.tell(rt, &"no such call"),
    }
}
