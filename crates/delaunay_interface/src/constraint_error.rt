//! Why constraint edges were not added.

use delaunay_core::math::InsertionError;
use thiserror::Error;

/// Why an edge between two new vertices did not become a constraint.
///
/// ```
/// match site.add_constraint_edge(from, to, &ExactTests) {
///     Ok(_) => println!(rt; "a constraint")?,
///     Err(ConstraintError::Conflict) => println!(rt; "another constraint is in the way")?,
///     Err(ConstraintError::Insertion(error)) => println!(rt; "refused: {error}")?,
/// }
/// ```
#[derive(Clone, Copy, Debug, PartialEq, Eq, Drop, Error)]
pub enum ConstraintError {
    /// A vertex was not inserted, or memory was refused where two vertices were to be joined. It
    /// prints what `InsertionError` prints.
    #[error("{0}")]
    Insertion(InsertionError),
    /// A constraint crosses the segment.
    #[error("Conflict")]
    Conflict,
}
