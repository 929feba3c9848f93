//! Whether a part of a mesh is there.
ghost use Rattle.std.specs.Prelude.{◌≡◌, ◌<◌, ◌≤◌, ◌↔◌, length, IsTrue, IfSome};
ghost use Rattle.half_edge_links.specs.{face};

use half_edge_dcel::{Dcel, DirectedEdgeHandle, MeshViews};
use half_edge_links::{
    FixedDirectedEdgeHandle, FixedFaceHandle, FixedUndirectedEdgeHandle, FixedVertexHandle,
};
use half_edge_mesh::DirectedVoronoiEdge;

pub type Mesh = Dcel<u8, u16, u32, u64>;

pub type Edge<'a> = DirectedEdgeHandle<'a, u8, u16, u32, u64>;

pub type VoronoiEdge<'a> = DirectedVoronoiEdge<'a, u8, u16, u32, u64>;

pub fn vertex(index: u32) -> FixedVertexHandle {
    FixedVertexHandle::from_index(index)
}

pub fn directed(index: u32) -> FixedDirectedEdgeHandle {
    FixedDirectedEdgeHandle::from_index(index)
}

pub fn has_vertex<V, DE, UE, F>(mesh: &Dcel<V, DE, UE, F>, vertex: FixedVertexHandle) -> bool
    ensures { IsTrue result ↔ (vertex < length mesh.now.vertices) }
{
    (vertex.index() as usize) < mesh.num_vertices()
}

pub fn has_edge<V, DE, UE, F>(mesh: &Dcel<V, DE, UE, F>, edge: FixedDirectedEdgeHandle) -> bool
    ensures { IsTrue result ↔ (edge < length mesh.now.directed) }
{
    (edge.index() as usize) < mesh.num_directed_edges()
}

pub fn has_face<V, DE, UE, F>(mesh: &Dcel<V, DE, UE, F>, face: FixedFaceHandle) -> bool
    ensures { IsTrue result ↔ (face ≤ length mesh.now.faces) }
{
    face.index() as usize <= mesh.num_inner_faces()
}

pub fn edge_at<V, DE, UE, F>(
    mesh: &Dcel<V, DE, UE, F>,
    index: u32,
) -> Option<DirectedEdgeHandle<'_, V, DE, UE, F>> {
    let edge = directed(index);
    if !has_edge(mesh, edge) {
        return None;
    }
    Some(mesh.directed_edge(edge))
}

/// Whether an edge is there and has an inner face.
pub fn is_inner<V, DE, UE, F>(mesh: &Dcel<V, DE, UE, F>, edge: FixedDirectedEdgeHandle) -> bool
    ensures within { IsTrue result → edge < length mesh.now.directed }
    ensures inner { IsTrue result → 0 < face mesh.now.mesh edge }
{
    has_edge(mesh, edge) && !mesh.directed_edge(edge).is_outer_edge()
}

/// Whether an edge is there and has the outer face.
pub fn is_outer<V, DE, UE, F>(mesh: &Dcel<V, DE, UE, F>, edge: FixedDirectedEdgeHandle) -> bool
    ensures within { IsTrue result → edge < length mesh.now.directed }
    ensures outer { IsTrue result → face mesh.now.mesh edge ≡ 0 }
{
    has_edge(mesh, edge) && mesh.directed_edge(edge).is_outer_edge()
}

pub fn undirected_at<V, DE, UE, F>(
    mesh: &Dcel<V, DE, UE, F>,
    index: u32,
) -> Option<FixedUndirectedEdgeHandle>
    ensures { IfSome result (λ edge. edge < length mesh.now.undirected) }
{
    if index as usize >= mesh.num_undirected_edges() {
        return None;
    }
    Some(FixedUndirectedEdgeHandle::from_index(index))
}
