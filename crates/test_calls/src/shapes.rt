//! Lines that ask for what is in a rectangle or a circle: nothing where a call is not made.

use crate::asks::asks_fewer;
use crate::vertices::{TaggedVertex, both_in_range, circle_in_range};
use delaunay_core::point::Point2;
use delaunay_extensions::FloatTriangulation;
use delaunay_shapes::{EdgesInShapeIterator, VerticesInShapeIterator};
use exact_predicates::ExactTests;
use std::alloc::{AllocError, Global};
use std::io;
use test_reader::Call;

/// The edges or the vertices that are found, by their indexes.
type Found = Option<Result<Vec<u32>, AllocError>>;

/// The indexes of edges that are found.
pub fn edge_indexes<V, DE, UE, F>(
    edges: EdgesInShapeIterator<'_, V, DE, UE, F>,
    alloc: Global,
) -> Result<Vec<u32>, AllocError> {
    let mut indexes = Vec::new(alloc);
    for edge in edges {
        indexes.push(edge.fix().index())?;
    }
    Ok(indexes)
}

fn vertex_indexes<V, DE, UE, F>(
    vertices: VerticesInShapeIterator<'_, V, DE, UE, F>,
    alloc: Global,
) -> Result<Vec<u32>, AllocError> {
    let mut indexes = Vec::new(alloc);
    for vertex in vertices {
        indexes.push(vertex.fix().index())?;
    }
    Ok(indexes)
}

fn edges_in_rectangle<T: FloatTriangulation<Vertex = TaggedVertex>>(
    points: &T,
    corners: (Point2<i64>, Point2<i64>),
    alloc: Global,
) -> Found {
    let (lower, upper) = both_in_range(corners)?;
    match points.get_edges_in_rectangle(lower, upper, &ExactTests, alloc) {
        Ok(edges) => Some(edge_indexes(edges, alloc)),
        Err(error) => Some(Err(error)),
    }
}

fn vertices_in_rectangle<T: FloatTriangulation<Vertex = TaggedVertex>>(
    points: &T,
    corners: (Point2<i64>, Point2<i64>),
    alloc: Global,
) -> Found {
    let (lower, upper) = both_in_range(corners)?;
    match points.get_vertices_in_rectangle(lower, upper, &ExactTests, alloc) {
        Ok(vertices) => Some(vertex_indexes(vertices, alloc)),
        Err(error) => Some(Err(error)),
    }
}

fn edges_in_circle<T: FloatTriangulation<Vertex = TaggedVertex>>(
    points: &T,
    circle: (Point2<i64>, i64),
    alloc: Global,
) -> Found {
    let (center, radius_2) = circle_in_range(circle)?;
    match points.get_edges_in_circle(center, radius_2, &ExactTests, alloc) {
        Ok(edges) => Some(edge_indexes(edges, alloc)),
        Err(error) => Some(Err(error)),
    }
}

fn vertices_in_circle<T: FloatTriangulation<Vertex = TaggedVertex>>(
    points: &T,
    circle: (Point2<i64>, i64),
    alloc: Global,
) -> Found {
    let (center, radius_2) = circle_in_range(circle)?;
    match points.get_vertices_in_circle(center, radius_2, &ExactTests, alloc) {
        Ok(vertices) => Some(vertex_indexes(vertices, alloc)),
        Err(error) => Some(Err(error)),
    }
}

/// Makes the call of a line that asks for a shape, and tells whether it is one.
pub fn ask_shape<T: FloatTriangulation<Vertex = TaggedVertex>>(
    rt: &(impl Print + AllocGlobal),
    points: &T,
    call: &Call<'_>,
) -> io::Result<bool> {
    let ([x, y, radius_2, ..], alloc) = (call.numbers, rt.alloc());
    let (circle, corners) = ((Point2::new(x, y), radius_2), call.ends());
    let printed = match call.name {
        "edges_in_rectangle" => call.tell(rt, &edges_in_rectangle(points, corners, alloc)),
        "vertices_in_rectangle" => call.tell(rt, &vertices_in_rectangle(points, corners, alloc)),
        "edges_in_circle" => call.tell(rt, &edges_in_circle(points, circle, alloc)),
        "vertices_in_circle" => call.tell(rt, &vertices_in_circle(points, circle, alloc)),
        "asks_fewer" => call.tell(rt, &asks_fewer(points, corners, alloc)),
        _ => return Ok(false),
    };
    printed?;
    Ok(true)
}
