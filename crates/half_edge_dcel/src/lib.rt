//! A mesh of vertices, edges and faces with data on them, held by its directed edges; handles that
//! borrow it, and iterators over its parts.
#![tactic(auto)]

pub use half_edge_links;
pub use half_edge_links::{
    FixedDirectedEdgeHandle, FixedDirectedEdgeIterator, FixedFaceHandle, FixedFaceIterator,
    FixedUndirectedEdgeHandle, FixedUndirectedEdgeIterator, FixedVertexHandle, FixedVertexIterator,
    HalfEdge, Links, MAX_ELEMENTS, ReserveError, are_few_enough, edges_go_round, is_full,
    outline_goes_round, reversed, sides_add_up, sides_cancel,
};

mod copies;
mod dcel;
mod degenerate;
mod edge;
mod edge_walk;
mod face;
mod fixed_iterators;
mod growth;
mod inside;
mod isolation;
mod iterators;
mod line;
mod mapped;
mod outside;
mod room;
mod rounds;
mod taking;
mod vertex;
mod views;
mod writing;

pub use dcel::Dcel;
pub use edge::{DirectedEdgeHandle, UndirectedEdgeHandle};
pub use face::FaceHandle;
pub use isolation::IsolateVertexResult;
pub use iterators::{DirectedEdgeIterator, FaceIterator, UndirectedEdgeIterator, VertexIterator};
pub use rounds::{CircularIterator, HullIterator};
pub use vertex::VertexHandle;
pub use views::MeshViews;
