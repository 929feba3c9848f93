//! The Voronoi forms of a mesh, by the indexes of what they are forms of.

use crate::lookups::{edge_at, has_face, undirected_at, vertex};
use half_edge_dcel::{Dcel, MeshViews};
use half_edge_links::FixedFaceHandle;
use half_edge_mesh::{
    AsVoronoiEdge, AsVoronoiFace, AsVoronoiVertex, DirectedVoronoiEdge, VoronoiVertex, VoronoiViews,
};

fn index_of<V, DE, UE, F>(edge: &DirectedVoronoiEdge<'_, V, DE, UE, F>) -> u32 {
    edge.as_delaunay_edge().index()
}

/// The face that a vertex is the centre of, if it is of one, and an edge out of it.
fn centre<V, DE, UE, F>(vertex: &VoronoiVertex<'_, V, DE, UE, F>) -> (Option<u32>, Option<u32>) {
    (
        vertex.as_delaunay_face().map(|face| face.index()),
        vertex.out_edge().map(|edge| index_of(&edge)),
    )
}

/// The other direction, the next and the previous edge, the undirected one and the face of an
/// edge's Voronoi form.
fn beside<V, DE, UE, F>(edge: &DirectedVoronoiEdge<'_, V, DE, UE, F>) -> [u32; 5] {
    [
        index_of(&edge.rev()),
        index_of(&edge.next()),
        index_of(&edge.prev()),
        edge.as_undirected().as_delaunay_edge().index(),
        edge.face().as_delaunay_vertex().index(),
    ]
}

/// The same, and where it starts and ends.
pub fn voronoi_edge<V, DE, UE, F>(
    mesh: &Dcel<V, DE, UE, F>,
    index: u32,
) -> Option<([u32; 5], [(Option<u32>, Option<u32>); 2])> {
    let Some(edge) = edge_at(mesh, index) else {
        return None;
    };
    let across = edge.as_voronoi_edge();
    Some((
        beside(&across),
        [centre(&across.from()), centre(&across.to())],
    ))
}

/// The first direction of the Voronoi form of an undirected edge, and its ends.
pub fn undirected_voronoi_edge<V, DE, UE, F>(
    mesh: &Dcel<V, DE, UE, F>,
    index: u32,
) -> Option<(u32, [(Option<u32>, Option<u32>); 2])> {
    let Some(name) = undirected_at(mesh, index) else {
        return None;
    };
    let across = mesh.undirected_edge(name).as_voronoi_edge();
    let [from, to] = across.vertices();
    Some((
        index_of(&across.as_directed()),
        [centre(&from), centre(&to)],
    ))
}

/// The edges out of the Voronoi vertex of an inner face.
pub fn voronoi_vertex<V, DE, UE, F>(mesh: &Dcel<V, DE, UE, F>, index: u32) -> Option<[u32; 3]> {
    let name = FixedFaceHandle::from_index(index);
    if name.is_outer() || !has_face(mesh, name) {
        return None;
    }
    let [first, second, third] = mesh.face(name).as_voronoi_vertex().out_edges();
    Some([index_of(&first), index_of(&second), index_of(&third)])
}

/// The vertex of a Voronoi face and the first edge round it; then the first of all faces and of all
/// edges.
pub fn voronoi_face<V, DE, UE, F>(
    mesh: &Dcel<V, DE, UE, F>,
    index: u32,
) -> Option<[Option<u32>; 4]> {
    let Some(vertex) = mesh.get_vertex(vertex(index)) else {
        return None;
    };
    let face = vertex.as_voronoi_face();
    Some([
        Some(face.as_delaunay_vertex().index()),
        face.adjacent_edges().next().map(|edge| index_of(&edge)),
        mesh.voronoi_faces()
            .next()
            .map(|face| face.as_delaunay_vertex().index()),
        mesh.directed_voronoi_edges()
            .next()
            .map(|edge| index_of(&edge)),
    ])
}
