//! Numbers that are written to edges and faces.

use delaunay_interface::Triangulation;
use half_edge_links::{FixedDirectedEdgeHandle, FixedFaceHandle, FixedUndirectedEdgeHandle};

fn write_directed<T: Triangulation<DirectedEdge = u32>>(points: &mut T, index: u32, number: u32) {
    if (index as usize) < points.num_directed_edges() {
        *points.directed_edge_data_mut(FixedDirectedEdgeHandle::from_index(index)) = number;
    }
}

fn write_undirected<T: Triangulation<UndirectedUserData = u32>>(
    points: &mut T,
    index: u32,
    number: u32,
) {
    if (index as usize) < points.num_undirected_edges() {
        *points.undirected_edge_data_mut(FixedUndirectedEdgeHandle::from_index(index)) = number;
    }
}

fn write_face<T: Triangulation<Face = u32>>(points: &mut T, index: u32, number: u32) {
    if (index as usize) < points.num_all_faces() {
        *points.face_data_mut(FixedFaceHandle::from_index(index)) = number;
    }
}

/// Writes a number to each edge, to each of its directions and to each face, by the first.
pub fn write_all<T: Triangulation<DirectedEdge = u32, UndirectedUserData = u32, Face = u32>>(
    points: &mut T,
    first: u32,
) {
    for index in 0..1000u32 {
        let number = first.wrapping_add(index);
        write_directed(points, index, number.wrapping_add(1000));
        write_undirected(points, index, number.wrapping_add(2000));
        write_face(points, index, number.wrapping_add(3000));
    }
}
