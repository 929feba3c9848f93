//! What of a triangulation has a point in a circle or a rectangle, and whether a segment is a line
//! of sight over the faces that a caller holds to be free.
#![tactic(auto)]

mod circle;
mod distance_metric;
mod edges;
mod filter;
mod flood;
mod flood_start;
mod flood_vertices;
mod free_faces;
mod in_shape;
mod items;
mod marks;
mod places;
mod positions;
mod rectangle;
mod shape_queries;
mod shape_search;
mod sight;

pub use circle::CircleMetric;
pub use distance_metric::DistanceMetric;
pub use filter::{edges_by_filter, vertices_by_filter};
pub use free_faces::FreeFaces;
pub use in_shape::{EdgesInShapeIterator, VerticesInShapeIterator};
pub use marks::Marks;
pub use rectangle::RectangleMetric;
pub use shape_queries::{edges_in_shape, vertices_in_shape};
pub use sight::is_in_sight;
