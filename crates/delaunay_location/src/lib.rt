//! Where a position is among the vertices, edges and faces of a triangulation, which vertex is
//! nearest to it, and what a segment meets, item by item: the walk along a line over the mesh.
#![tactic(auto)]

pub use delaunay_legalization;
pub use delaunay_legalization::{delaunay_core, half_edge_dcel};

mod between;
mod conflicts;
mod crossing;
mod intersection;
mod iterator;
mod line;
mod lines;
mod location;
mod nearest_walk;
mod outside;
mod position_in_triangulation;
mod samples;
mod starts;
mod steps;
mod vertex;
mod vertex_distance;
mod walk;

pub use conflicts::ConflictingEdgesIterator;
pub use intersection::{FixedIntersection, Intersection};
pub use iterator::LineIntersectionIterator;
pub use lines::HasMesh;
pub use position_in_triangulation::PositionInTriangulation;

// For the crates of edits, of sight and of the struct, and not for users.
pub use between::LineViews;
pub use nearest_walk::nearest_by_neighbors;
pub use walk::LocationViews;
