//! How a call ended, by a number.
ghost use Rattle.std.specs.Prelude.{◌≡◌};
ghost use Rattle.c_calls.specs.Answers.{status_of_error, status_of_outcome, status_of_reason};

use delaunay_core::math::InsertionError;
use delaunay_journal::{Outcome, Refusal};

/// All went well.
pub const WELL: u32 = 0;

/// The triangulation is not open.
pub const CLOSED: u32 = 1;

/// It is open, and was to be opened.
pub const ALREADY_OPEN: u32 = 2;

/// No triangulation or no shape is of this kind.
pub const NO_SUCH_KIND: u32 = 3;

/// A call for constrained ones alone.
pub const IS_PLAIN: u32 = 4;

/// A call for plain ones alone.
pub const IS_CONSTRAINED: u32 = 5;

/// Two lists that go together have not one length.
pub const UNEQUAL_LENGTHS: u32 = 6;

/// A coordinate is out of range.
pub const TOO_LARGE: u32 = 7;

/// A squared radius or width is negative.
pub const NEGATIVE: u32 = 8;

/// An index of a vertex is out of range.
pub const NO_SUCH_VERTEX: u32 = 9;

/// A segment names no point of the list.
pub const NO_SUCH_POINT: u32 = 10;

/// A constraint crosses the segment.
pub const CROSSING: u32 = 11;

/// No constraint joins the two vertices.
pub const NO_CONSTRAINT: u32 = 12;

/// A list has too little room.
pub const TOO_SHORT: u32 = 13;

/// The mesh might have too few indexes.
pub const OUT_OF_INDEXES: u32 = 14;

/// Memory was refused.
pub const OUT_OF_MEMORY: u32 = 15;

/// A number that is no status.
pub const NO_SUCH_STATUS: u32 = 16;

/// In place of an index, where there is none.
pub const NONE: u32 = 0xffff_ffff;

/// The status of a refused insertion.
pub fn status_of(error: InsertionError) -> u32
    ensures { result ≡ status_of_error error }
{
    match error {
        InsertionError::TooLarge => TOO_LARGE,
        InsertionError::OutOfIndexes => OUT_OF_INDEXES,
        InsertionError::OutOfMemory => OUT_OF_MEMORY,
    }
}

/// The status of a refused edit.
pub fn status_of_refusal(refusal: Refusal) -> u32
    ensures { result ≡ status_of_reason refusal }
{
    match refusal {
        Refusal::Insertion(error) => status_of(error),
        Refusal::NoVertex => NO_SUCH_VERTEX,
        // No call for C moves a vertex, so that none is refused for this.
        Refusal::OtherPosition => NO_SUCH_VERTEX,
        Refusal::NoConstraints => IS_PLAIN,
        Refusal::Conflict => CROSSING,
        Refusal::NotConstrained => NO_CONSTRAINT,
        Refusal::OutOfMemory => OUT_OF_MEMORY,
    }
}

/// The status of an edit.
pub fn status_of_edit<V: Drop>(outcome: Outcome<V>) -> u32
    ensures { result ≡ status_of_outcome outcome }
{
    match outcome {
        Outcome::Refused(refusal) => status_of_refusal(refusal),
        _ => WELL,
    }
}
