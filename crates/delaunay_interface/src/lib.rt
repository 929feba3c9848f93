//! Plain and constrained triangulations, as users name them: one struct with two names, and the
//! trait of their calls.
#![tactic(auto)]

pub use delaunay_edit;
pub use delaunay_edit::{delaunay_core, delaunay_legalization};
pub use half_edge_mesh;

mod constraint_edges;
mod constraint_edits;
mod constraint_error;
mod constraints;
mod edits;
mod inner_faces;
mod lookups;
mod nearest_vertex;
mod parts;
mod removal;
mod shared_calls;
mod triangulation;
mod triangulation_core;

pub use constraint_error::ConstraintError;
pub use delaunay_edit::EdgeData;
pub use delaunay_edit::delaunay_location::{
    ConflictingEdgesIterator, HasMesh, Intersection, LineIntersectionIterator,
    PositionInTriangulation,
};
pub use inner_faces::InnerFaceIterator;
pub use parts::{
    DirectedEdgesOf, DirectedOf, DirectedVoronoiEdgesOf, FaceOf, FacesOf, HullOf, InnerFacesOf,
    UndirectedEdgesOf, UndirectedOf, UndirectedVoronoiEdgesOf, VertexOf, VerticesOf,
    VoronoiFacesOf,
};
pub use triangulation::Triangulation;
pub use triangulation_core::{
    ConstrainedDelaunayTriangulation, DelaunayTriangulation, TriangulationCore,
};
