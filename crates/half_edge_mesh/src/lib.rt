//! A mesh of half edges with data, and its Voronoi diagram, by the vertices, edges and faces that
//! its parts belong to: all that a user of the mesh names is here.
#![tactic(auto)]

mod voronoi;
mod voronoi_iterators;

pub use half_edge_dcel;
pub use half_edge_dcel::{
    CircularIterator, Dcel, DirectedEdgeHandle, DirectedEdgeIterator, FaceHandle, FaceIterator,
    FixedDirectedEdgeHandle, FixedDirectedEdgeIterator, FixedFaceHandle, FixedFaceIterator,
    FixedUndirectedEdgeHandle, FixedUndirectedEdgeIterator, FixedVertexHandle, FixedVertexIterator,
    HalfEdge, HullIterator, IsolateVertexResult, Links, MAX_ELEMENTS, MeshViews, ReserveError,
    UndirectedEdgeHandle, UndirectedEdgeIterator, VertexHandle, VertexIterator, are_few_enough,
    edges_go_round, is_full, outline_goes_round, reversed, sides_add_up, sides_cancel,
};
pub use voronoi::{
    AsVoronoiEdge, AsVoronoiFace, AsVoronoiVertex, DirectedVoronoiEdge, UndirectedVoronoiEdge,
    VoronoiFace, VoronoiVertex,
};
pub use voronoi_iterators::{
    DirectedVoronoiEdgeIterator, UndirectedVoronoiEdgeIterator, VoronoiCircularIterator,
    VoronoiFaceIterator, VoronoiViews,
};
