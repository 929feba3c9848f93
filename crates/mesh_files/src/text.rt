//! A reader of text that stops at what no file has.
ghost use Rattle.std.specs.Prelude.{◌≡◌, IfOk, IfSome};

use crate::fields::Field;
use crate::{FileFault, Reason};
use memchr::{memchr, memchr_iter};
use std::alloc::Global;
use std::io;
use std::io::{ErrorKind, Read};

/// The longest line, and the longest row of a table, without its end.
const MAX_LINE: u32 = 1 << 16;

/// The longest text whose lines may be of any length.
const MAX_TEXT: u32 = 1 << 29;

/// What of a text has a greatest length.
#[derive(Clone, Copy)]
enum Bound {
    Line,
    /// A row of a table, with the line ends that stand in its quoted fields.
    Row,
    Text,
}

/// Why a text is read no further.
#[derive(Clone, Copy)]
enum Stop {
    LongLine,
    LongText,
    OpenQuote,
    NulByte,
    Failure,
}

/// How far a text has been looked at, and what stops its reading, if something does.
#[derive(Drop)]
struct Check {
    bound: Bound,
    line: u32,
    size: u32,
    field: Field,
    quote_line: u32,
    stop: Option<Stop>,
}

impl Check {
    fn new(bound: Bound) -> Self {
        Check {
            bound,
            line: 1,
            size: 0,
            field: Field::First,
            quote_line: 0,
            stop: None,
        }
    }

    /// Counts bytes to the line, the row or the text, and stops where that is too long.
    fn count(&mut self, bytes: usize) {
        let bytes = u32::try_from(bytes).unwrap_or(u32::MAX);
        self.size = self.size.saturating_add(bytes);
        let limit = match self.bound {
            Bound::Text => MAX_TEXT,
            Bound::Line | Bound::Row => MAX_LINE,
        };
        if self.size > limit {
            self.stop = Some(match self.bound {
                Bound::Text => Stop::LongText,
                Bound::Row if self.field.is_quoted() => Stop::OpenQuote,
                Bound::Line | Bound::Row => Stop::LongLine,
            });
        }
    }

    /// Passes the end of a line, which ends a row too where it stands in no quoted field.
    fn end_line(&mut self) {
        self.line = self.line.saturating_add(1);
        if matches!(self.bound, Bound::Text) || self.field.is_quoted() {
            self.count(1);
        } else {
            self.size = 0;
        }
    }

    /// Looks at bytes that have no quote, and stand in no quoted field.
    fn check_lines(&mut self, bytes: &[u8]) {
        let mut start = 0usize;
        for end in memchr_iter(b'\n', bytes) {
            self.count(end.saturating_sub(start));
            if self.stop.is_some() {
                return;
            }
            self.end_line();
            start = end.saturating_add(1);
        }
        self.count(bytes.len().saturating_sub(start));
        if let Some(last) = bytes.last() {
            self.field = Field::Bare.after(*last);
        }
    }

    /// Looks at bytes of rows, one by one.
    fn check_fields(&mut self, bytes: &[u8]) {
        for byte in bytes {
            if *byte == b'"' && self.field.may_open() {
                self.quote_line = self.line;
            }
            self.field = self.field.after(*byte);
            if *byte == b'\n' {
                self.end_line();
            } else {
                self.count(1);
            }
            if self.stop.is_some() {
                return;
            }
        }
    }

    /// Looks at bytes that were read.
    fn pass(&mut self, bytes: &[u8]) {
        let nul = memchr(0, bytes);
        let text = match nul {
            Some(end) => bytes.get(0..end).unwrap_or(bytes),
            None => bytes,
        };
        let is_bare = self.field.is_bare_without_quotes() && memchr(b'"', text).is_none();
        if is_bare || !matches!(self.bound, Bound::Row) {
            self.check_lines(text);
        } else {
            self.check_fields(text);
        }
        if nul.is_some() && self.stop.is_none() {
            self.stop = Some(Stop::NulByte);
        }
    }

    /// Looks at the end of the text.
    fn end(&mut self) {
        if self.field.is_quoted() {
            self.stop = Some(Stop::OpenQuote);
        }
    }

    /// What stopped the reading, if something did.
    fn fault(&self) -> Option<FileFault> {
        Some(match self.stop? {
            Stop::LongLine => FileFault::at(self.line, Reason::LongLine(MAX_LINE)),
            Stop::LongText => FileFault::at(self.line, Reason::LongText(MAX_TEXT)),
            Stop::OpenQuote => FileFault::at(self.quote_line, Reason::OpenQuote),
            Stop::NulByte => FileFault::at(self.line, Reason::NulByte),
            Stop::Failure => FileFault::at(self.line, Reason::Unreadable),
        })
    }
}

/// A text that is read up to a line or a row that is too long, a quoted field that does not end, a
/// NUL byte or a failure, so that no line fills the memory: nothing is read behind the bytes that
/// have it. What stopped it is kept, since a reader of tables tells less.
#[derive(Drop)]
pub struct CheckedText<R> {
    pub(crate) reader: R,
    check: Check,
}

impl<R: Read> CheckedText<R> {
    /// A text of lines.
    pub fn new(reader: R) -> Self
        ensures { result.reader ≡ reader }
    {
        CheckedText {
            reader,
            check: Check::new(Bound::Line),
        }
    }

    /// A text of rows, whose quoted fields may have line ends in them.
    pub fn of_rows(reader: R) -> Self
        ensures { result.reader ≡ reader }
    {
        CheckedText {
            reader,
            check: Check::new(Bound::Row),
        }
    }

    /// A text that is read as a whole.
    pub fn whole(reader: R) -> Self
        ensures { result.reader ≡ reader }
    {
        CheckedText {
            reader,
            check: Check::new(Bound::Text),
        }
    }

    /// What stopped the reading, if something did.
    pub fn fault(&self) -> Option<FileFault> {
        self.check.fault()
    }
}

impl<R: Read + Drop> CheckedText<R> {
    /// The whole text, if nothing stops the reading.
    pub(crate) fn read_all(mut self, alloc: Global) -> Result<Vec<u8>, FileFault>
        ensures { IfOk result (λ whole. IfSome (R.remaining self.reader)
            (λ text. whole.items ≡ text)) }
    {
        let mut whole = Vec::new(alloc);
        let outcome = self.read_to_end(&mut whole);
        if let Some(fault) = self.fault() {
            return Err(fault);
        }
        match outcome {
            Ok(_) => Ok(whole),
            Err(_) => Err(FileFault::at(0, Reason::NoMemory)),
        }
    }
}

impl<R: Read> Read for CheckedText<R> {
    ghost remaining = { λ t. R.remaining t.reader };

    fn read(&mut self, buf: &mut [u8]) -> io::Result<usize> {
        if self.check.stop.is_some() {
            return Err(io::Error::from(ErrorKind::InvalidData));
        }
        match self.reader.read(buf) {
            Ok(0) if !buf.is_empty() => {
                self.check.end();
                Ok(0)
            }
            Ok(count) => {
                self.check.pass(&buf[..count]);
                Ok(count)
            }
            Err(error) => {
                self.check.stop = Some(Stop::Failure);
                Err(error)
            }
        }
    }
}
