//! Lines that edit vertices: nothing where a call is not made.

use crate::vertices::{TaggedVertex, in_range, vertex_at, vertex_of};
use delaunay_core::math::InsertionError;
use delaunay_core::point::Point2;
use delaunay_interface::Triangulation;
use exact_predicates::ExactTests;
use half_edge_links::FixedVertexHandle;
use std::alloc::{AllocError, Global};
use std::io;
use test_reader::{Call, index};

// By a search from a vertex, which need not be there.
fn insert_with_hint<T: Triangulation<Vertex = TaggedVertex>>(
    points: &mut T,
    vertex: TaggedVertex,
    hint: u32,
) -> Result<FixedVertexHandle, InsertionError> {
    points.insert_with_hint(vertex, FixedVertexHandle::from_index(hint), &ExactTests)
}

// The vertex that was there, which gets another number.
fn replace<T: Triangulation<Vertex = TaggedVertex>>(
    points: &mut T,
    index: u32,
    tag: i64,
) -> Option<TaggedVertex> {
    let vertex = vertex_at(points, index)?;
    let position = points.vertex(vertex).data().position;
    Some(points.replace_vertex(vertex, TaggedVertex { position, tag }))
}

fn remove<T: Triangulation<Vertex = TaggedVertex>>(
    points: &mut T,
    index: u32,
) -> Option<Result<TaggedVertex, AllocError>> {
    let vertex = vertex_at(points, index)?;
    Some(points.remove(vertex, &ExactTests))
}

fn locate_and_remove<T: Triangulation<Vertex = TaggedVertex>>(
    points: &mut T,
    position: Point2<i64>,
) -> Option<Result<Option<TaggedVertex>, AllocError>> {
    let position = in_range(position)?;
    Some(points.locate_and_remove(position, &ExactTests))
}

// Room for so many vertices, edges and faces, in place of what was there.
fn with_capacity<T: Triangulation>(
    points: &mut T,
    room: [i64; 8],
    alloc: Global,
) -> Result<(), InsertionError> {
    let [vertices, edges, faces, ..] = room;
    let vertices = usize::try_from(vertices).unwrap_or(0);
    let edges = usize::try_from(edges).unwrap_or(0);
    *points = T::with_capacity(alloc, vertices, edges, usize::try_from(faces).unwrap_or(0))?;
    Ok(())
}

fn clear<T: Triangulation>(points: &mut T) -> usize {
    points.clear();
    points.num_vertices()
}

/// Makes the call of a line that edits a vertex, and tells whether it is one.
pub fn edit<T: Triangulation<Vertex = TaggedVertex>>(
    rt: &(impl Print + AllocGlobal),
    points: &mut T,
    call: &Call<'_>,
) -> io::Result<bool> {
    let ([first, second, _, hint, ..], vertex) = (call.numbers, vertex_of(call));
    let printed = match call.name {
        "insert" => call.tell(rt, &points.insert(vertex, &ExactTests)),
        "insert_with_hint" => call.tell(rt, &insert_with_hint(points, vertex, index(hint))),
        "replace_vertex" => call.tell(rt, &replace(points, index(first), second)),
        "remove" => call.tell(rt, &remove(points, index(first))),
        _ => return edit_all(rt, points, call),
    };
    printed?;
    Ok(true)
}

// Removes by position, or edits all.
fn edit_all<T: Triangulation<Vertex = TaggedVertex>>(
    rt: &(impl Print + AllocGlobal),
    points: &mut T,
    call: &Call<'_>,
) -> io::Result<bool> {
    let position = vertex_of(call).position;
    let printed = match call.name {
        "locate_and_remove" => call.tell(rt, &locate_and_remove(points, position)),
        "with_capacity" => call.tell(rt, &with_capacity(points, call.numbers, rt.alloc())),
        "clear" => call.tell(rt, &clear(points)),
        _ => return Ok(false),
    };
    printed?;
    Ok(true)
}
