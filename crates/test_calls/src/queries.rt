//! Lines that ask where points are: nothing where a call is not made.

use crate::points::Plain;
use crate::vertices::{TaggedVertex, in_range, vertex_of};
use delaunay_core::HintGenerator;
use delaunay_core::point::Point2;
use delaunay_interface::Triangulation;
use delaunay_location::PositionInTriangulation;
use exact_predicates::ExactTests;
use half_edge_links::FixedVertexHandle;
use std::io;
use test_reader::{Call, index};

// Where a point is, by a search from a vertex, which need not be there.
fn locate_with_hint<T: Triangulation<Vertex = TaggedVertex>>(
    points: &T,
    point: Point2<i64>,
    hint: u32,
) -> Option<PositionInTriangulation> {
    let point = in_range(point)?;
    Some(points.locate_with_hint(point, FixedVertexHandle::from_index(hint), &ExactTests))
}

fn locate<T: Triangulation<Vertex = TaggedVertex>>(
    points: &T,
    point: Point2<i64>,
) -> Option<PositionInTriangulation> {
    let point = in_range(point)?;
    Some(points.locate(point, &ExactTests))
}

/// A vertex that none is nearer than to a point.
pub fn nearest<L: HintGenerator<i64>>(points: &Plain<L>, point: Point2<i64>) -> Option<u32> {
    let point = in_range(point)?;
    let Some(vertex) = points.nearest_neighbor(point, &ExactTests) else {
        return None;
    };
    Some(vertex.index())
}

// The vertex at a point.
fn locate_vertex<T: Triangulation<Vertex = TaggedVertex>>(
    points: &T,
    point: Point2<i64>,
) -> Option<Option<u32>> {
    let point = in_range(point)?;
    match points.locate_vertex(point, &ExactTests) {
        Some(vertex) => Some(Some(vertex.index())),
        None => Some(None),
    }
}

// The vertex that a search for a point would begin at.
fn hint<T: Triangulation<Vertex = TaggedVertex>>(points: &T, point: Point2<i64>) -> Option<u32> {
    let point = in_range(point)?;
    points.recall_invariant();
    Some(points.hint_generator().get_hint(point, &ExactTests).index())
}

/// Makes the call of a line that asks for a point, and tells whether it is one.
pub fn query<T: Triangulation<Vertex = TaggedVertex>>(
    rt: &impl Print,
    points: &T,
    call: &Call<'_>,
) -> io::Result<bool> {
    let (point, from) = (vertex_of(call).position, index(call.numbers[2]));
    let printed = match call.name {
        "locate_with_hint" => call.tell(rt, &locate_with_hint(points, point, from)),
        "locate" => call.tell(rt, &locate(points, point)),
        "locate_vertex" => call.tell(rt, &locate_vertex(points, point)),
        "hint" => call.tell(rt, &hint(points, point)),
        _ => return Ok(false),
    };
    printed?;
    Ok(true)
}
