//! Handles of vertices, edges and faces: fixed ones, which are indexes, and those that borrow the
//! triangulation and go from element to element.
//!
//! An insertion keeps the fixed handles of vertices, and a removal gives that of the vertex that
//! goes to the last one. Those of edges and faces may be others after an edit:
//!
//! ```
//! let third = FixedVertexHandle::from_index(2);
//! if let Some(vertex) = points.get_vertex(third) {
//!     println!(rt; "{} {}", vertex.data().x, vertex.data().y)?;
//!     for edge in vertex.out_edges() {
//!         println!(rt; "joined to {}", edge.to().fix().index())?;
//!     }
//! }
//! ```
pub use hint_hierarchy::half_edge_mesh::{
    AsVoronoiEdge, AsVoronoiFace, AsVoronoiVertex, DirectedEdgeHandle, DirectedVoronoiEdge,
    FaceHandle, FixedDirectedEdgeHandle, FixedFaceHandle, FixedUndirectedEdgeHandle,
    FixedVertexHandle, UndirectedEdgeHandle, UndirectedVoronoiEdge, VertexHandle, VoronoiFace,
    VoronoiVertex,
};
