//! What the links of a mesh draw in the plane, by the vertices of its faces and edges (proofs/),
//! and what the edits of a triangulation share: questions about a few of its points, which of its
//! edges are constraints, and flips until each other edge passes the circle test.
#![tactic(auto)]

pub use delaunay_core;
pub use half_edge_dcel;

mod among;
mod around;
mod cdt_edge;
mod constraint_marker;
mod edge_set;
mod embedding;
mod legalization;
mod marking;
mod predicates;
mod sides;
mod star;

pub use cdt_edge::{CdtEdge, EdgeConstraints, free_edge_data};
pub use constraint_marker::{ConstraintMarker, NoConstraints};

// For the crates of edits, and not for users.
pub use among::legalize_list;
pub use edge_set::EdgeSet;
pub use embedding::Embedding;
pub use legalization::{ccw_edge, is_constraint_edge, is_outer, legalize, position_of, push_side};
pub use marking::{free_edge, make_constraint};
pub use predicates::{is_same_point, is_strictly_inside, is_strictly_within, turns_left};
pub use sides::{Sides, push_sides};
pub use star::legalize_vertex;
