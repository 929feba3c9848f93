//! How the vertices, edges and faces of a mesh lie to each other, with data on the vertices alone;
//! fixed handles of these parts, and iterators over the handles.
#![tactic(auto)]

mod copies;
mod edge_list;
mod fixed_iterators;
mod handles;
mod inside;
mod laws;
mod line;
mod links;
mod outside;
mod pass;
mod records;
mod removal;
mod room;
mod shrink;
mod vertex_list;
mod vertices;

pub use fixed_iterators::{
    FixedDirectedEdgeIterator, FixedFaceIterator, FixedUndirectedEdgeIterator, FixedVertexIterator,
};
pub use handles::{
    FixedDirectedEdgeHandle, FixedFaceHandle, FixedUndirectedEdgeHandle, FixedVertexHandle,
};
pub use laws::{edges_go_round, outline_goes_round, sides_add_up, sides_cancel};
pub use links::Links;
pub use records::{HalfEdge, reversed};
pub use room::{MAX_ELEMENTS, ReserveError, are_few_enough, is_full};
