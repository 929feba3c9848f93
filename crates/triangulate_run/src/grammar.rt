//! The commands of the program, and how a line spells them.
//!
//! Words are parted by one space. A number is an optional `-` and 1 to 18 digits, an index is 1 to
//! 18 digits, and a line has at most [`MAX_LINE`] bytes.

ghost use Rattle.std.specs.Prelude.{IfSome, IfNone};
ghost use Rattle.triangulate_run.specs.Grammar.{Spells, SpellsNone};

use crate::command::Command;
use crate::words::Words;

/// The most bytes that a line has, the newline that ends it left out.
pub const MAX_LINE: usize = 120;

/// The command that a line spells, the newline that ends it left out. `None` if it spells none.
#[tactic(auto, using(crate::proofs::Exact::unspelled), unfolding(crate::specs::Reading::command_of, crate::specs::Reading::command_named))]
pub fn parse(line: &[u8]) -> Option<Command>
    ensures sound { IfSome result (Spells line.now) }
    ensures complete { IfNone result (SpellsNone line.now) }
{
    if line.len() > MAX_LINE {
        return None;
    }
    let mut words = Words { rest: Some(line) };
    let command = match words.next_word()? {
        b"insert" => Command::Insert(words.coordinates()?),
        b"remove" => Command::Remove(words.index()?),
        b"constrain" => {
            let (i, j) = words.pair()?;
            Command::Constrain(i, j)
        }
        b"release" => {
            let (i, j) = words.pair()?;
            Command::Release(i, j)
        }
        b"locate" => Command::Locate(words.coordinates()?),
        b"nearest" => Command::Nearest(words.coordinates()?),
        b"line" => Command::Line(words.coordinates()?, words.coordinates()?),
        b"counts" => Command::Counts,
        b"faces" => Command::Faces,
        _ => return None,
    };
    words.next_word().is_none().then_some(command)
}
