//! Why segments are still to be joined.

use crate::Refusal;
use thiserror::Error;

/// Why not all segments of a list became constraints.
#[derive(Clone, Copy, Debug, PartialEq, Eq, Drop, Error)]
pub enum SplitError {
    /// An edit was refused: a vertex at a crossing, for want of memory or indexes; a segment, for
    /// want of memory or since it ends at no vertex; or each segment, by a triangulation of the
    /// type without constraints.
    #[error("an edit was refused")]
    Refused(Refusal),
    /// The steps that were allowed are made, and segments are left.
    #[error("segments are left after as many steps as were allowed")]
    TooManySteps,
}
