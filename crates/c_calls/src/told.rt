//! Answers that are written as far as there is room.
ghost use Rattle.std.specs.Prelude.{◌≡◌, if◌then◌else◌, nat_lt, slice_set};

use crate::statuses::{TOO_SHORT, WELL};

/// Writes an answer at its place, if there is room.
pub fn put<A: Copy>(places: &mut [A], index: usize, answer: A)
    ensures { places.new ≡ slice_set places.old index answer }
{
    if index < places.len() {
        places[index] = answer;
    }
}

/// The status of a call that had room for some answers, and had so many.
pub fn status_by_room(room: usize, count: usize) -> u32
    ensures { result ≡ (if nat_lt room count then TOO_SHORT else WELL) }
{
    if room < count { TOO_SHORT } else { WELL }
}
