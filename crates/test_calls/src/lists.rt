//! Lines that count and list elements.

use crate::elements::{Shown, print_state};
use crate::vertices::TaggedVertex;
use crate::walks::{walk, walk_between};
use delaunay_core::point::{Point2, SpadeNum};
use delaunay_interface::Triangulation;
use half_edge_links::{FixedDirectedEdgeHandle, FixedFaceHandle, FixedVertexHandle};
use std::io;
use test_reader::Call;

// How many vertices, undirected edges, directed edges, inner faces and faces there are, and how
// many directed edges have the outer face on their left.
fn counts<T: Triangulation>(points: &T) -> ([usize; 6], bool) {
    let counts = [
        points.num_vertices(),
        points.num_undirected_edges(),
        points.num_directed_edges(),
        points.num_inner_faces(),
        points.num_all_faces(),
        points.convex_hull_size(),
    ];
    (counts, points.all_vertices_on_line())
}

fn count_elements<T: Triangulation>(points: &T) -> [usize; 5] {
    [
        points.vertices().len(),
        points.directed_edges().len(),
        points.undirected_edges().len(),
        points.all_faces().len(),
        points.inner_faces().len(),
    ]
}

fn count_names<T: Triangulation>(points: &T) -> [usize; 5] {
    [
        points.fixed_vertices().len(),
        points.fixed_directed_edges().len(),
        points.fixed_undirected_edges().len(),
        points.fixed_all_faces().len(),
        points.fixed_inner_faces().len(),
    ]
}

fn count_voronoi<T: Triangulation>(points: &T) -> [usize; 3] {
    [
        points.voronoi_faces().len(),
        points.directed_voronoi_edges().len(),
        points.undirected_voronoi_edges().len(),
    ]
}

// The edges of the hull in their order.
fn print_hull<T: Triangulation>(rt: &impl Print, points: &T) -> io::Result<()> {
    for edge in points.convex_hull() {
        println!(rt; "hull {:?}", (edge.from().index(), edge.to().index()))?;
    }
    Ok(())
}

fn coordinates<S: SpadeNum>(point: Point2<S>) -> (i64, i64) {
    (point.x.to_i64(), point.y.to_i64())
}

// The position of a vertex, if it is there.
fn position_of<T: Triangulation>(points: &T, vertex: FixedVertexHandle) -> Option<(i64, i64)> {
    match points.get_vertex(vertex) {
        Some(vertex) => Some(coordinates(points.vertex_position(vertex))),
        None => None,
    }
}

// The positions of the ends of an edge, if it is there.
fn ends_of<T: Triangulation<Vertex = TaggedVertex>>(
    points: &T,
    edge: FixedDirectedEdgeHandle,
) -> Option<[Point2<i64>; 2]> {
    if edge.index() as usize >= points.num_directed_edges() {
        return None;
    }
    Some(points.edge_positions(points.directed_edge(edge)))
}

// The positions of the corners of an inner face, if it is there.
fn corners_of<T: Triangulation<Vertex = TaggedVertex>>(
    points: &T,
    face: FixedFaceHandle,
) -> Option<[Point2<i64>; 3]> {
    if face.index() == 0 || face.index() as usize > points.num_inner_faces() {
        return None;
    }
    Some(points.face_positions(points.face(face)))
}

/// Makes the call of a line that lists all elements, or that counts them.
pub fn list<
    UE: Shown,
    T: Triangulation<Vertex = TaggedVertex, DirectedEdge = u32, UndirectedEdge = UE, Face = u32>,
>(rt: &impl Print, points: &T, call: &Call<'_>) -> io::Result<bool> {
    let printed = match call.name {
        "state" => print_state(rt, points),
        "hull" => print_hull(rt, points),
        "line" => walk(rt, points, call),
        "line_of_handles" => walk_between(rt, points, call),
        _ => return count(rt, points, call),
    };
    printed?;
    Ok(true)
}

// Counts what lists give, or reads one element.
fn count<T: Triangulation<Vertex = TaggedVertex>>(
    rt: &impl Print,
    points: &T,
    call: &Call<'_>,
) -> io::Result<bool> {
    let printed = match call.name {
        "counts" => call.tell(rt, &counts(points)),
        "elements" => call.tell(rt, &(count_elements(points), count_voronoi(points))),
        "names" => call.tell(rt, &count_names(points)),
        _ => return read(rt, points, call),
    };
    printed?;
    Ok(true)
}

// Reads the positions of one element.
fn read<T: Triangulation<Vertex = TaggedVertex>>(
    rt: &impl Print,
    points: &T,
    call: &Call<'_>,
) -> io::Result<bool> {
    let [index, _, _] = call.indexes();
    let printed = match call.name {
        "position" => call.tell(
            rt,
            &position_of(points, FixedVertexHandle::from_index(index)),
        ),
        "ends" => call.tell(
            rt,
            &ends_of(points, FixedDirectedEdgeHandle::from_index(index)),
        ),
        "corners" => call.tell(rt, &corners_of(points, FixedFaceHandle::from_index(index))),
        _ => return Ok(false),
    };
    printed?;
    Ok(true)
}
