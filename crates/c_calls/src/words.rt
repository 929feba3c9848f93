//! The statuses in words.
ghost use Rattle.std.specs.Prelude.{◌≡◌, ◌≤◌, ◌++◌, ◌∷◌, [], drop, length};
ghost use Rattle.c_calls.specs.Words.{status_words, TellsWords};

use crate::statuses::{NO_SUCH_STATUS, TOO_SHORT, WELL};

/// A status in words and a final 0 byte, of a number that is none those of `NO_SUCH_STATUS`.
pub fn ended_words_of(status: u32) -> &'static str
    ensures { result.now ≡ status_words status ++ 0 ∷ [] }
{
    match status {
        0 => "all went well\0",
        1 => "the triangulation is closed: open it first\0",
        2 => "the triangulation is already open: close it first\0",
        3 => "there is no such kind: 0 is plain or a circle, 1 is constrained or a rectangle\0",
        4 => "the triangulation is plain: this call is for constrained ones\0",
        5 => "the triangulation is constrained: this call is for plain ones\0",
        6 => "two lists that go together have different lengths\0",
        7 => "a coordinate is out of range: it is more than 2^29 or less than -2^29\0",
        8 => "a squared radius or width is negative: it has to be 0 or more\0",
        9 => "there is no vertex with this index: the last is the number of vertices less 1\0",
        10 => "a segment names a point that is not in the list: indexes of points start at 0\0",
        11 => "a constraint crosses the segment: leave one out, or cut both where they meet\0",
        12 =>
            "no constraint joins the two vertices: vertices between them may part it in several\0",
        13 => "a list is too short: call again with a longer one\0",
        14 => "there are too many vertices for 32-bit indexes: 715827882 are the most\0",
        15 => "there is not enough memory\0",
        _ => "there is no such status\0",
    }
}

// Writes bytes to the front of a list with room for them.
fn write_bytes(bytes: &[u8], text: &mut [u8])
    requires { length bytes.now ≤ length text.old }
    ensures { text.new ≡ bytes.now ++ drop (length bytes.now) text.old }
{
    for index in 0..bytes.len() {
        text[index] = bytes[index];
    }
}

/// Writes a status in words and a final 0 byte, if there is room, and tells how long the words are.
pub fn write_words(status: u32, text: &mut [u8], length: &mut usize) -> u32
    ensures { TellsWords status result length.new text.old text.new }
{
    let words = ended_words_of(status).as_bytes();
    *length = words.len() - 1;
    if text.len() < words.len() {
        return TOO_SHORT;
    }
    write_bytes(words, text);
    if status < NO_SUCH_STATUS {
        WELL
    } else {
        NO_SUCH_STATUS
    }
}
