//! Lists of edits, which are made on a triangulation of either type one after another; and
//! constraints that may cross others: where two cross, both go by the whole-number point nearest to
//! the crossing (snap rounding).
#![tactic(auto)]

mod crossing;
mod edit;
mod error;
pub mod law;
mod replayable;
mod replaying;
mod splitting;
mod steps;

pub use edit::{Edit, Outcome, PairEdit, Refusal};
pub use error::SplitError;
pub use replayable::Replayable;
pub use replaying::replay;
pub use splitting::add_constraints_and_split;
pub use steps::make_edit;
