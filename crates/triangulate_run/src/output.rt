//! Writing text to a watched writer.
ghost use Rattle.std.specs.Prelude.{◌≡◌, false};
ghost use Rattle.std.specs.List.{flat_map};
ghost use Rattle.triangulate_run.specs.Fragment.{text_of};
ghost use Rattle.triangulate_run.specs.{Output.Puts, Output.Writes, Watched.has_failed};

use crate::watched::{Failed, Watched};
use arrayvec::ArrayVec;
use itoa::Buffer;
use std::io::Write;

/// A fragment of a reply.
#[derive(Clone, Copy)]
pub(crate) enum Fragment<'a> {
    Text(&'a str),
    Index(u64),
    Signed(i64),
}

/// Text that waits to be written, so that a reply takes one call of the writer. It is written
/// earlier where its room is used up.
pub(crate) type Held = ArrayVec<u8, 2048>;

/// [`Failed`] where the writer has failed.
pub(crate) type Written = Result<(), Failed>;

/// Writes the bytes in as many calls as it takes.
pub(crate) fn write_all<W: Write>(writer: &mut Watched<W>, bytes: &[u8]) -> Written
    requires works { has_failed writer.old ≡ false }
    ensures { Writes W.contents writer.old writer.new result bytes.now }
{
    let mut written = 0;
    while written < bytes.len() {
        written += writer.write(&bytes[written..])?;
    }
    Ok(())
}

/// Puts the fragments in a row behind what is held.
pub(crate) fn put_fragments<W: Write>(
    writer: &mut Watched<W>,
    held: &mut Held,
    fragments: &[Fragment<'_>],
) -> Written
    requires works { has_failed writer.old ≡ false }
    ensures { Puts W.contents writer.old writer.new held.old.items held.new.items
        result (flat_map text_of fragments.now) }
{
    for fragment in fragments {
        let mut buffer = Buffer::new();
        let text = match *fragment {
            Fragment::Text(text) => text,
            Fragment::Index(index) => buffer.format(index),
            Fragment::Signed(number) => buffer.format(number),
        };
        if held.try_extend_from_slice(text.as_bytes()).is_err() {
            write_all(writer, held.as_slice())?;
            held.clear();
            write_all(writer, text.as_bytes())?;
        }
    }
    Ok(())
}
