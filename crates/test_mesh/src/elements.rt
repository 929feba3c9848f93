//! What the elements of a mesh are, read through handles and by indexes.

use crate::lookups::{
    directed, edge_at, has_edge, has_face, has_vertex, undirected_at, vertex as name,
};
use half_edge_dcel::{Dcel, DirectedEdgeHandle, FaceHandle, MeshViews};
use half_edge_links::{FixedFaceHandle, HalfEdge};

/// How many vertices, directed edges, undirected edges, inner faces and faces there are.
pub fn counts<V, DE, UE, F>(mesh: &Dcel<V, DE, UE, F>) -> [usize; 5] {
    [
        mesh.num_vertices(),
        mesh.num_directed_edges(),
        mesh.num_undirected_edges(),
        mesh.num_inner_faces(),
        mesh.num_faces(),
    ]
}

/// The data of a vertex by its handle and by its name, and the start of the edge that it names.
pub fn vertex<DE, UE, F>(mesh: &Dcel<u8, DE, UE, F>, index: u32) -> Option<([u8; 2], Option<u32>)> {
    let vertex = name(index);
    let Some(handle) = mesh.get_vertex(vertex) else {
        return None;
    };
    let start = handle.out_edge().map(|edge| edge.from().index());
    if !has_vertex(mesh, vertex) {
        return None;
    }
    Some(([*handle.data(), *mesh.vertex_data(vertex)], start))
}

/// The start and the end of an edge, the start of the previous one, the next and the previous one,
/// the other direction, the next ones round its start counterclockwise and clockwise, and the face
/// on its left.
pub fn directed_edge<V, DE, UE, F>(mesh: &Dcel<V, DE, UE, F>, index: u32) -> Option<[u32; 9]> {
    let Some(edge) = edge_at(mesh, index) else {
        return None;
    };
    Some([
        edge.from().index(),
        edge.to().index(),
        edge.prev_from().index(),
        edge.next().index(),
        edge.prev().index(),
        edge.rev().index(),
        edge.ccw().index(),
        edge.cw().index(),
        edge.face().index(),
    ])
}

fn opposite<V, DE, UE, F>(edge: &DirectedEdgeHandle<'_, V, DE, UE, F>) -> Option<u32> {
    let Some(vertex) = edge.opposite_vertex() else {
        return None;
    };
    Some(vertex.index())
}

/// Whether an edge is outer, the vertex opposite it, and both data of its ends.
pub fn edge_kind<DE, UE, F>(
    mesh: &Dcel<u8, DE, UE, F>,
    index: u32,
) -> Option<(bool, Option<u32>, [u8; 2])> {
    let Some(edge) = edge_at(mesh, index) else {
        return None;
    };
    let [from, to] = edge.vertices();
    Some((
        edge.is_outer_edge(),
        opposite(&edge),
        [*from.data(), *to.data()],
    ))
}

/// An undirected edge's directed edge, ends and data.
pub fn undirected_edge<V, DE, F>(
    mesh: &Dcel<V, DE, u32, F>,
    index: u32,
) -> Option<(u32, [u32; 2], u32)> {
    let Some(name) = undirected_at(mesh, index) else {
        return None;
    };
    let edge = mesh.undirected_edge(name);
    let [from, to] = edge.vertices();
    let ends = [from.index(), to.index()];
    Some((
        edge.as_directed().index(),
        ends,
        *mesh.undirected_edge_data(name),
    ))
}

/// The data of an undirected edge and of both its directions, first the asked one.
pub fn edge_data<V, F>(mesh: &Dcel<V, u16, u32, F>, index: u32) -> Option<(u32, [u16; 2])> {
    let Some(edge) = edge_at(mesh, index) else {
        return None;
    };
    let other = directed(index);
    if !has_edge(mesh, other) {
        return None;
    }
    let reverse = *edge.rev().data();
    Some((
        *edge.as_undirected().data(),
        [*mesh.directed_edge_data(other), reverse],
    ))
}

/// The edges of an inner face by their indexes, and the data of its corners.
fn corners<DE, UE, F>(face: &FaceHandle<'_, u8, DE, UE, F>) -> Option<([u32; 3], [u8; 3])> {
    if face.is_outer() {
        return None;
    }
    let [ab, bc, ca] = face.adjacent_edges();
    if face.adjacent_edge().index() != ab.index() {
        return None;
    }
    let [a, b, c] = face.vertices();
    Some((
        [ab.index(), bc.index(), ca.index()],
        [*a.data(), *b.data(), *c.data()],
    ))
}

/// A face's data, by its handle and by its name, and for an inner one its edges and the data of its
/// corners.
pub fn face<DE, UE>(
    mesh: &Dcel<u8, DE, UE, u64>,
    index: u32,
) -> Option<(u64, u64, Option<([u32; 3], [u8; 3])>)> {
    let name = FixedFaceHandle::from_index(index);
    if !has_face(mesh, name) {
        return None;
    }
    let face = mesh.face(name);
    Some((*face.data(), *mesh.face_data(name), corners(&face)))
}

/// The edge from one vertex to another, and the one back.
pub fn edges_between<V, DE, UE, F>(
    mesh: &Dcel<V, DE, UE, F>,
    from: u32,
    to: u32,
) -> Option<[u32; 2]> {
    let (from, to) = (name(from), name(to));
    if !has_vertex(mesh, from) || !has_vertex(mesh, to) {
        return None;
    }
    let Some(there) = mesh.get_edge_from_neighbors(from, to) else {
        return None;
    };
    let Some(back) = mesh.get_edge_from_neighbors(to, from) else {
        return None;
    };
    Some([there.index(), back.index()])
}

/// By indexes alone: start, next, previous and face of an edge, the start of the edge that its
/// start names, and the face of the edge that its face names.
pub fn links<V, DE, UE, F>(
    mesh: &Dcel<V, DE, UE, F>,
    index: u32,
) -> Option<([u32; 4], [Option<u32>; 2])> {
    let edge = links_of(mesh, index)?;
    let parts = [
        origin_of(mesh, out_edge(mesh, edge.origin)),
        face_of(mesh, edge_of_face(mesh, edge.face)),
    ];
    Some(([edge.origin, edge.next, edge.prev, edge.face], parts))
}

fn links_of<V, DE, UE, F>(mesh: &Dcel<V, DE, UE, F>, index: u32) -> Option<HalfEdge> {
    let edge = directed(index);
    if !has_edge(mesh, edge) {
        return None;
    }
    Some(mesh.links().half_edge(edge.index()))
}

fn origin_of<V, DE, UE, F>(mesh: &Dcel<V, DE, UE, F>, edge: Option<u32>) -> Option<u32> {
    Some(links_of(mesh, edge?)?.origin)
}

fn face_of<V, DE, UE, F>(mesh: &Dcel<V, DE, UE, F>, edge: Option<u32>) -> Option<u32> {
    Some(links_of(mesh, edge?)?.face)
}

fn out_edge<V, DE, UE, F>(mesh: &Dcel<V, DE, UE, F>, index: u32) -> Option<u32> {
    let vertex = name(index);
    if !has_vertex(mesh, vertex) {
        return None;
    }
    mesh.links().out_edge(vertex.index())
}

fn edge_of_face<V, DE, UE, F>(mesh: &Dcel<V, DE, UE, F>, face: u32) -> Option<u32> {
    if face == 0 {
        return mesh.links().outer_edge();
    }
    if !has_face(mesh, FixedFaceHandle::from_index(face)) {
        return None;
    }
    Some(mesh.links().face_edge(face))
}
