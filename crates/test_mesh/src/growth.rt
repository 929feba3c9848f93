//! Calls that let a mesh grow, and the flip. Each looks first whether it may be made, makes just
//! the room that it takes, and gives indexes, or nothing where it was not made.
ghost use Rattle.std.specs.Prelude.{◌≡◌, ◌≢◌, ◌<◌, length, IsTrue};
ghost use Rattle.half_edge_links.specs.{face, IsBetweenFaces, IsHalfSplittable, next, origin, rev};
ghost use Rattle.half_edge_dcel.specs.{HasRoom};

use crate::lookups::{
    Mesh, directed, has_edge, has_face, has_vertex, is_inner, is_outer, undirected_at, vertex,
};
use half_edge_dcel::MeshViews;
use half_edge_links::{FixedDirectedEdgeHandle, FixedFaceHandle, FixedVertexHandle};

/// A vertex and the two parts of the edge that it split.
pub type Split = (u32, [u32; 2]);

fn split_indexes(
    vertex: FixedVertexHandle,
    [first, second]: [FixedDirectedEdgeHandle; 2],
) -> Split {
    (vertex.index(), [first.index(), second.index()])
}

// Makes room for so much more, and tells whether it is there.
fn make_room(mesh: &mut Mesh, vertices: usize, edges: usize, faces: usize) -> bool
    requires few_vertices { vertices < 8 }
    requires few_edges { edges < 8 }
    requires few_faces { faces < 8 }
    ensures { IsTrue result → HasRoom mesh.new vertices edges faces }
{
    let vertices = mesh.num_vertices() + vertices;
    let edges = mesh.num_undirected_edges() + edges;
    let faces = mesh.num_faces() + faces;
    match mesh.reserve_capacity(vertices, edges, faces) {
        Ok(()) => true,
        Err(_) => false,
    }
}

pub fn append_unconnected_vertex(mesh: &mut Mesh, value: u8) -> Option<u32> {
    if !make_room(mesh, 1, 0, 0) {
        return None;
    }
    Some(mesh.append_unconnected_vertex(value).index())
}

pub fn setup_initial_two_vertices(mesh: &mut Mesh, a: u32, b: u32) -> bool {
    let (a, b) = (vertex(a), vertex(b));
    if !make_room(mesh, 0, 1, 0)
        || mesh.num_undirected_edges() > 0
        || !has_vertex(mesh, a)
        || !has_vertex(mesh, b)
        || a == b
    {
        return false;
    }
    mesh.setup_initial_two_vertices(a, b);
    true
}

pub fn extend_line(mesh: &mut Mesh, end: u32, value: u8) -> Option<u32> {
    let end = vertex(end);
    if !make_room(mesh, 1, 1, 0)
        || mesh.num_inner_faces() > 0
        || !has_vertex(mesh, end)
        || mesh.vertex(end).out_edge().is_none()
    {
        return None;
    }
    Some(mesh.extend_line(end, value).index())
}

pub fn split_edge_when_all_vertices_on_line(
    mesh: &mut Mesh,
    edge: u32,
    value: u8,
) -> Option<Split> {
    let edge = directed(edge);
    if !make_room(mesh, 1, 1, 0) || mesh.num_inner_faces() > 0 || !has_edge(mesh, edge) {
        return None;
    }
    let (vertex, parts) = mesh.split_edge_when_all_vertices_on_line(edge, value);
    Some(split_indexes(vertex, parts))
}

pub fn create_new_face_adjacent_to_edge(mesh: &mut Mesh, edge: u32, value: u8) -> Option<u32> {
    let edge = directed(edge);
    if !make_room(mesh, 1, 2, 1) || !is_outer(mesh, edge) {
        return None;
    }
    Some(mesh.create_new_face_adjacent_to_edge(edge, value).index())
}

// Whether an edge is outer, and the next one does not end where it starts.
fn leaves_corner(mesh: &Mesh, edge: FixedDirectedEdgeHandle) -> bool
    ensures within { IsTrue result → edge < length mesh.now.directed }
    ensures outer { IsTrue result → face mesh.now.mesh edge ≡ 0 }
    ensures apart { let m = mesh.now.mesh in
        IsTrue result → origin m (rev (next m edge)) ≢ origin m edge }
{
    if !is_outer(mesh, edge) {
        return false;
    }
    let side = mesh.directed_edge(edge);
    side.next().to().index() != side.from().index()
}

pub fn create_single_face_between_edge_and_next(mesh: &mut Mesh, edge: u32) -> Option<u32> {
    let edge = directed(edge);
    if !make_room(mesh, 0, 1, 1) || !leaves_corner(mesh, edge) {
        return None;
    }
    Some(mesh.create_single_face_between_edge_and_next(edge).index())
}

pub fn insert_into_triangle(mesh: &mut Mesh, value: u8, face: u32) -> Option<u32> {
    let face = FixedFaceHandle::from_index(face);
    if !make_room(mesh, 1, 3, 2) || face.is_outer() || !has_face(mesh, face) {
        return None;
    }
    Some(mesh.insert_into_triangle(value, face).index())
}

// Whether an edge has an inner face on its left and the outer one on its right.
fn is_of_hull(mesh: &Mesh, edge: FixedDirectedEdgeHandle) -> bool
    ensures within { IsTrue result → edge < length mesh.now.directed }
    ensures half { IsTrue result → IsHalfSplittable mesh.now.mesh edge }
{
    is_inner(mesh, edge) && is_outer(mesh, edge.rev())
}

pub fn split_half_edge(mesh: &mut Mesh, edge: u32, value: u8) -> Option<Split> {
    let edge = directed(edge);
    if !make_room(mesh, 1, 2, 1) || !is_of_hull(mesh, edge) {
        return None;
    }
    let (vertex, parts) = mesh.split_half_edge(edge, value);
    Some(split_indexes(vertex, parts))
}

// Whether an edge has inner faces on both sides.
fn is_between_faces(mesh: &Mesh, edge: FixedDirectedEdgeHandle) -> bool
    ensures within { IsTrue result → edge < length mesh.now.directed }
    ensures between { IsTrue result → IsBetweenFaces mesh.now.mesh edge }
{
    is_inner(mesh, edge) && is_inner(mesh, edge.rev())
}

pub fn split_edge(mesh: &mut Mesh, edge: u32, value: u8) -> Option<Split> {
    let edge = directed(edge);
    if !make_room(mesh, 1, 3, 2) || !is_between_faces(mesh, edge) {
        return None;
    }
    let (vertex, parts) = mesh.split_edge(edge, value);
    Some(split_indexes(vertex, parts))
}

pub fn flip_cw(mesh: &mut Mesh, edge: u32) -> bool {
    let Some(edge) = undirected_at(mesh, edge) else {
        return false;
    };
    let there = edge.as_directed();
    if !is_between_faces(mesh, there) {
        return false;
    }
    let side = mesh.directed_edge(there);
    if side.prev().from().index() == side.rev().prev().from().index() {
        return false;
    }
    mesh.flip_cw(edge);
    true
}

/// The data that a vertex had, which has new ones now.
pub fn update_vertex(mesh: &mut Mesh, index: u32, value: u8) -> Option<u8> {
    let vertex = vertex(index);
    if !has_vertex(mesh, vertex) {
        return None;
    }
    Some(mesh.update_vertex(vertex, value))
}
