//! The edits of a triangulation: a new vertex wherever it is, what is left to do where one went,
//! and the path of subconstraints between two vertices, whose subconstraints become edges by flips
//! of what crosses them.
#![tactic(auto)]

pub use delaunay_location;
pub use delaunay_location::{delaunay_core, delaunay_legalization, half_edge_dcel};
pub use delaunay_vertices;

mod adding;
mod constraint_views;
mod constraints;
mod counting;
mod crossing;
mod edge_data;
mod flips;
mod halves;
mod insertion_cases;
mod joined;
mod joining;
mod nearer;
mod path_views;

pub use constraint_views::ConstraintViews;
pub use edge_data::EdgeData;

// For the struct and for tests, and not for users.
pub use adding::add_path;
pub use constraints::{constrain_edge, release_constraint};
pub use counting::count_constraints_at;
pub use crossing::CrossingLists;
pub use insertion_cases::insert_at;
pub use joined::is_constraint_between;
pub use joining::{reserve_to_join, settle};
pub use path_views::PathViews;
