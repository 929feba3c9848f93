//! The words of a line, and what they stand for.
ghost use Rattle.std.specs.Prelude.{◌≡◌, ◌<◌, ◌^◌, [], ◌∷◌};
ghost use Rattle.std.specs.Prelude.{MatchOption, IfSome, OnSome, drop};
ghost use Rattle.triangulate_run.specs.Reading.{coordinates_of, first_index, first_number};
ghost use Rattle.triangulate_run.specs.Reading.{index_value, pair_of};

use crate::command::Coordinates;
use std::marker::Model;

/// The most digits of a number.
const MAX_DIGITS: usize = 18;

/// The words of a line that are still to be read.
#[derive(Drop)]
pub struct Words<'a> {
    pub(crate) rest: Option<&'a [u8]>,
}

impl<'a> Model for Words<'a> {
    ghost use Rattle.std.specs.Prelude.{ℕ, List, []};
    ghost use Rattle.std.specs.Option.{option_map_or};
    ghost use Rattle.triangulate_run.specs.Grammar.{words_of};

    ghost Value = { List (List ℕ) };

    ghost view = { λ w. option_map_or (λ text. words_of text.now) w.rest [] };
}

impl<'a> Words<'a> {
    /// The next word, up to a space or the end.
    pub fn next_word(&mut self) -> Option<&'a [u8]>
        ensures { MatchOption result ((self.old ≡ []) × (self.new ≡ []))
            (λ word. self.old ≡ word.now ∷ self.new) }
    {
        let text = self.rest?;
        for (i, byte) in text.iter().enumerate() {
            if *byte == b' ' {
                self.rest = Some(&text[i + 1..]);
                return Some(&text[..i]);
            }
        }
        self.rest = None;
        Some(text)
    }

    /// The next word, as an index.
    pub fn index(&mut self) -> Option<u64>
        ensures value { result ≡ first_index self.old }
        ensures rest { self.new ≡ drop 1 self.old }
    {
        index_written(self.next_word()?)
    }

    /// The next word, as a number.
    #[tactic(auto, unfolding(crate::specs::Reading::number_value, crate::specs::Reading::index_value))]
    pub fn number(&mut self) -> Option<i64>
        ensures value { result ≡ first_number self.old }
        ensures rest { self.new ≡ drop 1 self.old }
    {
        match self.next_word()? {
            [b'-', digits @ ..] => Some(-(index_written(digits)? as i64)),
            word => Some(index_written(word)? as i64),
        }
    }

    /// The next two words, as indexes.
    #[tactic(auto, unfolding(crate::specs::Reading::pair_of))]
    pub fn pair(&mut self) -> Option<(u64, u64)>
        ensures value { result ≡ pair_of self.old }
        ensures rest { OnSome result (self.new ≡ drop 2 self.old) }
    {
        Some((self.index()?, self.index()?))
    }

    /// The next two words, as coordinates.
    #[tactic(auto, unfolding(crate::specs::Reading::coordinates_of))]
    pub fn coordinates(&mut self) -> Option<Coordinates>
        ensures value { result ≡ coordinates_of self.old }
        ensures rest { OnSome result (self.new ≡ drop 2 self.old) }
    {
        Some(Coordinates {
            x: self.number()?,
            y: self.number()?,
        })
    }
}

/// The number of an index, if the word is 1 to 18 digits.
fn index_written(word: &[u8]) -> Option<u64>
    ensures value { result ≡ index_value word.now }
    ensures small { IfSome result (λ n. n < 10 ^ 18) }
{
    if word.is_empty() || word.len() > MAX_DIGITS {
        return None;
    }
    let mut number = 0u64;
    for digit in word {
        if !digit.is_ascii_digit() {
            return None;
        }
        number = number * 10 + u64::from(*digit - b'0');
    }
    Some(number)
}
