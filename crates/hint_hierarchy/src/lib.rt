//! Hints by a hierarchy of triangulations: each layer has every so-many-th vertex of the one below
//! it, and a search goes down from the nearest vertex of one layer to the next.
#![tactic(auto)]

pub use delaunay_interface;
pub use delaunay_interface::{delaunay_core, delaunay_legalization, half_edge_mesh};

mod bloom;
mod hierarchy;
mod layer;
mod positions;
mod removal;
mod star;
mod stars;

pub use hierarchy::{HierarchyHintGenerator, HierarchyHintGeneratorWithBranchFactor};
