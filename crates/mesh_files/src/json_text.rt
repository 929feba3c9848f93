//! The tokens of a JSON text, and where they stand.
ghost use Rattle.std.specs.Prelude.{◌≡◌, ◌++◌, ◌∷◌, List, IfOk, OnOk};
ghost use Rattle.json.specs.Reads.{token_of};
ghost use Rattle.json.specs.Token.{Token as SpecToken};

use crate::{FileFault, FileLine, Reason};
use json::{MAX_DEPTH, Reader, Token};

/// A JSON text as far as it was read.
#[derive(Drop)]
pub(crate) struct JsonText<'a> {
    pub(crate) reader: Reader<'a>,
    text: &'a [u8],
    /// How many bytes have their line ends counted.
    counted: usize,
    /// Where the last token stands.
    pub(crate) at: FileLine,
}

/// How many lines end in a text.
fn line_ends(text: &[u8]) -> u32 {
    let mut count = 0u32;
    for byte in text {
        if *byte == b'\n' {
            count = count.saturating_add(1);
        }
    }
    count
}

impl<'a> JsonText<'a> {
    pub(crate) fn new(reader: Reader<'a>, text: &'a [u8]) -> Self
        ensures { result.reader ≡ reader.entry }
    {
        JsonText {
            reader,
            text,
            counted: 0,
            at: FileLine::of_line(1),
        }
    }

    /// A fault of the last token.
    pub(crate) fn fault(&self, reason: Reason) -> FileFault {
        FileFault::at_line(self.at, reason)
    }

    /// Counts lines up to where the reader stands.
    fn count_lines(&mut self)
        ensures { self.new.reader ≡ self.old.reader }
    {
        let end = self.reader.offset();
        if let Some(passed) = self.text.get(self.counted..end) {
            self.at.line = self.at.line.saturating_add(line_ends(passed));
            self.counted = end;
        }
    }

    /// The next token.
    pub(crate) fn next(&mut self) -> Result<Token<'a>, FileFault>
        ensures { IfOk result (λ token. self.old.reader ≡ token_of token ∷ self.new.reader) }
    {
        self.count_lines();
        match self.reader.next() {
            Some(Token::Bad) => Err(self.fault(Reason::NotJson(MAX_DEPTH))),
            Some(token) => Ok(token),
            None => Err(self.fault(Reason::Ends("more of it"))),
        }
    }

    /// Passes over a value, whatever it is.
    pub(crate) fn skip_value(&mut self) -> Result<(), FileFault>
        ensures { OnOk result ((passed : List SpecToken)
            × (self.old.reader ≡ passed ++ self.new.reader)) }
    {
        match self.reader.skip_value(MAX_DEPTH) {
            Ok(()) => Ok(()),
            Err(_) => {
                self.count_lines();
                Err(self.fault(Reason::NotJson(MAX_DEPTH)))
            }
        }
    }

    /// Asks that no token be left.
    pub(crate) fn end(&mut self) -> Result<(), FileFault> {
        self.count_lines();
        match self.reader.next() {
            None => Ok(()),
            Some(_) => Err(self.fault(Reason::Expected("the end of the file"))),
        }
    }
}
