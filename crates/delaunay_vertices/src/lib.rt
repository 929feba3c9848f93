//! A vertex that comes into the mesh of a triangulation, within an edge or outside the hull, and
//! one that goes from it. Inside a face `insert_into_triangle` of the mesh does it.
#![tactic(auto)]

mod border;
mod choice;
mod free_by_default;
mod freeing;
mod joining_edge;
mod lists;
mod outside;
mod pairs;
mod removal;
mod removal_hull;
mod removal_inner;
mod room;
mod star;
mod within_edge;

pub use free_by_default::FreeByDefault;

// For the crates of edits, and not for users.
pub use border::sides_of_hole;
pub use lists::RemovalLists;
pub use outside::insert_outside;
pub use pairs::{VertexPair, index_left, legalize_pairs, list_pairs};
pub use removal::remove_vertex;
pub use room::reserve_for_vertices;
pub use within_edge::insert_within_edge;
