//! Iterators over the elements of a triangulation. Those that go by rising index give their items
//! from both ends and tell how many are left; all can be copied and printed:
//!
//! ```
//! let mut edges = points.undirected_edges();
//! println!(rt; "{} edges", edges.len())?;
//! let copy = edges.clone()?;
//! let last = edges.next_back(); // the copy still gives it
//! ```
pub use hint_hierarchy::delaunay_interface::InnerFaceIterator;
pub use hint_hierarchy::half_edge_mesh::{
    CircularIterator, DirectedEdgeIterator, DirectedVoronoiEdgeIterator, FaceIterator,
    FixedDirectedEdgeIterator, FixedFaceIterator, FixedUndirectedEdgeIterator, FixedVertexIterator,
    HullIterator, UndirectedEdgeIterator, UndirectedVoronoiEdgeIterator, VertexIterator,
    VoronoiCircularIterator, VoronoiFaceIterator,
};
