//! What the iterators of a mesh give from their far end, and how many items they have.

use crate::iterators::count_of;
use half_edge_dcel::{Dcel, MeshViews};
use half_edge_mesh::VoronoiViews;
use std::alloc::AllocError;

/// How many vertices, directed edges, undirected edges, faces, inner faces, Voronoi faces, directed
/// and undirected Voronoi edges are left.
pub fn lengths<V, DE, UE, F>(mesh: &Dcel<V, DE, UE, F>) -> [usize; 8] {
    [
        mesh.vertices().len(),
        mesh.directed_edges().len(),
        mesh.undirected_edges().len(),
        mesh.faces().len(),
        mesh.inner_faces().len(),
        mesh.voronoi_faces().len(),
        mesh.directed_voronoi_edges().len(),
        mesh.undirected_voronoi_edges().len(),
    ]
}

/// The index of the last vertex, directed edge, undirected edge, face and inner face, and of what
/// the last Voronoi face, directed and undirected Voronoi edge belong to.
pub fn lasts<V, DE, UE, F>(mesh: &Dcel<V, DE, UE, F>) -> [Option<u32>; 8] {
    [
        mesh.vertices().next_back().map(|vertex| vertex.index()),
        mesh.directed_edges().next_back().map(|edge| edge.index()),
        mesh.undirected_edges().next_back().map(|edge| edge.index()),
        mesh.faces().next_back().map(|face| face.index()),
        mesh.inner_faces().next_back().map(|face| face.index()),
        mesh.voronoi_faces()
            .next_back()
            .map(|face| face.as_delaunay_vertex().index()),
        mesh.directed_voronoi_edges()
            .next_back()
            .map(|edge| edge.as_delaunay_edge().index()),
        mesh.undirected_voronoi_edges()
            .next_back()
            .map(|edge| edge.as_delaunay_edge().index()),
    ]
}

/// The last name of a vertex, a directed edge, an undirected edge, a face and an inner face.
pub fn last_names<V, DE, UE, F>(mesh: &Dcel<V, DE, UE, F>) -> [Option<u32>; 5] {
    [
        mesh.fixed_vertices()
            .next_back()
            .map(|vertex| vertex.index()),
        mesh.fixed_directed_edges()
            .next_back()
            .map(|edge| edge.index()),
        mesh.fixed_undirected_edges()
            .next_back()
            .map(|edge| edge.index()),
        mesh.fixed_faces().next_back().map(|face| face.index()),
        mesh.fixed_inner_faces()
            .next_back()
            .map(|face| face.index()),
    ]
}

/// How many directed edges are left after the first and the last, how many a copy made after the
/// first has, and how many it gives; and how many a copy of the hull gives.
pub fn copies<V, DE, UE, F>(mesh: &Dcel<V, DE, UE, F>) -> Result<[usize; 4], AllocError> {
    let mut edges = mesh.directed_edges();
    let _first = edges.next();
    let copy = edges.clone()?;
    let _last = edges.next_back();
    let hull = mesh.convex_hull().clone()?;
    Ok([edges.len(), copy.len(), count_of(copy), count_of(hull)])
}
