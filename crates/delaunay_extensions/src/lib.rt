//! Calls of both triangulations beyond those of `Triangulation`: the insertion of many vertices at
//! once, the edges and vertices in a rectangle or a circle, and how many constraints lie at least
//! between a face and the outside. Many vertices are inserted along a curve through the plane, so
//! that each is near the one before it and its search is short.
#![tactic(auto)]

mod bulk_insertion;
mod by_place;
mod curve;
mod error;
mod float_triangulation;
mod insert_all;
mod layers;
mod order;
mod search;

pub use bulk_insertion::BulkInsertion;
pub use delaunay_shapes::{
    CircleMetric, DistanceMetric, EdgesInShapeIterator, RectangleMetric, VerticesInShapeIterator,
};
pub use error::BulkInsertionError;
pub use float_triangulation::FloatTriangulation;
pub use insert_all::InsertAll;
pub use layers::face_layers;
