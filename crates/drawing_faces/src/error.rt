//! Why a drawing was not triangulated.
ghost use Rattle.std.specs.Prelude.{◌≡◌};
ghost use Rattle.drawing_faces.specs.Refusals.{bulk_fault, insertion_fault};
ghost use Rattle.drawing_faces.specs.declared.error.DrawingError.TheVariants.{OutOfMemory};

use delaunay_core::math::InsertionError;
use delaunay_extensions::BulkInsertionError;
use std::alloc::{AllocError, AllocFailed};
use thiserror::Error;

/// Why a drawing was not triangulated. Points are looked at first, then segments, then points in
/// holes and then holes' sides, and the first reason that is found is given.
#[derive(Clone, Copy, Debug, PartialEq, Eq, Drop, Error)]
pub enum DrawingError {
    /// A coordinate of a point passes 2^29.
    #[error("a point is out of range: a coordinate is more than 2^29 or less than -2^29")]
    TooLarge,
    /// Six times the number of points passes `MAX_ELEMENTS`.
    #[error("there are too many points: 715827882 are the most")]
    TooMany,
    /// A segment or a hole's side ends at no index of the list of points.
    #[error("a segment ends at a point that is not in the list")]
    NoPoint,
    /// A coordinate of the point in a hole at this index of their list passes 2^29. The points
    /// before it are taken; so it is of the next two.
    #[error("the hole's point is out of range")]
    HoleTooLarge(usize),
    /// The point in a hole at this index is within an edge that is a constraint.
    #[error("the hole's point is on a segment: move it into the hole")]
    HoleOnSegment(usize),
    /// The point in a hole at this index is on a vertex, or there are fewer than two vertices.
    #[error("the hole's point is in no face: move it into the hole")]
    HoleInNoFace(usize),
    /// Memory was refused, at any step.
    #[error("there is not enough memory")]
    OutOfMemory,
}

impl From<AllocError> for DrawingError {
    ghost from_gives = { λ _ e. e ≡ OutOfMemory };

    fn from(_error: AllocError) -> Self {
        DrawingError::OutOfMemory
    }
}

impl<T: Drop> From<AllocFailed<T>> for DrawingError {
    ghost from_gives = { λ _ e. e ≡ OutOfMemory };

    fn from(_error: AllocFailed<T>) -> Self {
        DrawingError::OutOfMemory
    }
}

impl From<InsertionError> for DrawingError {
    ghost from_gives = { λ error e. e ≡ insertion_fault error };

    fn from(error: InsertionError) -> Self {
        match error {
            InsertionError::TooLarge => DrawingError::TooLarge,
            InsertionError::OutOfIndexes => DrawingError::TooMany,
            InsertionError::OutOfMemory => DrawingError::OutOfMemory,
        }
    }
}

impl From<BulkInsertionError> for DrawingError {
    ghost from_gives = { λ error e. e ≡ bulk_fault error };

    fn from(error: BulkInsertionError) -> Self {
        match error {
            BulkInsertionError::Vertex { place: _, error } => DrawingError::from(error),
            BulkInsertionError::NoRoom(error) => DrawingError::from(error),
        }
    }
}
