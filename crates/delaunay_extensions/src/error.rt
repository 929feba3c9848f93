//! Why a list of vertices was not inserted.

use delaunay_core::math::InsertionError;
use thiserror::Error;

/// Why a list of vertices was not inserted, or not to its end.
///
/// ```
/// match hill.insert_all(points, &ExactTests) {
///     Ok(vertices) => println!(rt; "{} points", vertices.len())?,
///     Err(BulkInsertionError::Vertex { place, error }) => println!(rt; "line {place}: {error}")?,
///     Err(BulkInsertionError::NoRoom(error)) => println!(rt; "{error}")?,
/// }
/// ```
#[derive(Clone, Copy, Debug, PartialEq, Eq, Drop, Error)]
pub enum BulkInsertionError {
    /// The vertex at this place of the list was refused, the first place being 0. Where it is
    /// `TooLarge`, nothing was inserted, and the vertices at lower places are in range. Where it is
    /// `OutOfMemory`, the insertions before it stay.
    #[error("vertex {place}: {error}")]
    Vertex { place: usize, error: InsertionError },
    /// There is no room for so many vertices, or no memory for their order and handles. Nothing was
    /// inserted. It prints what `InsertionError` prints.
    #[error("{0}")]
    NoRoom(InsertionError),
}
