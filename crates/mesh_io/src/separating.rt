//! Tables of other separators, as tables of commas.
use crate::sniffing::TableForm;
use std::alloc::{AllocError, Global};
use std::io;
use std::io::Read;

/// How many bytes are read at a time.
const CHUNK: usize = 1 << 13;

/// How far a table is written anew: the separators of a line that are held back until a field comes
/// behind them, as those at its end are left out that the header has at its own.
#[derive(Drop)]
struct Rewriting {
    form: TableForm,
    held: usize,
    is_quoted: bool,
    /// Whether a quote that comes next opens a field, or goes on with one.
    may_open: bool,
    has_field: bool,
}

impl Rewriting {
    /// Puts separators behind a text that were held back, but so many.
    fn put_held(&mut self, but: usize, text: &mut Vec<u8>) -> Result<(), AllocError> {
        for _ in but..self.held {
            text.push(b',')?;
        }
        self.held = 0;
        Ok(())
    }

    /// Holds a separator back: of blanks one between fields.
    fn hold(&mut self) {
        self.may_open = true;
        if self.form.separator == b' ' {
            self.held = usize::from(self.has_field);
        } else {
            self.held = self.held.saturating_add(1);
        }
    }

    /// Whether a byte is between fields.
    fn separates(&self, byte: u8) -> bool {
        let is_blank = self.form.separator == b' ' && byte == b'\t';
        !self.is_quoted && (byte == self.form.separator || is_blank)
    }

    /// Puts the byte of a field behind a text. Where commas separate no fields they are points.
    fn put_byte(&mut self, byte: u8, text: &mut Vec<u8>) -> Result<(), AllocError> {
        if self.held > 0 {
            self.put_held(0, text)?;
        }
        self.has_field = true;
        let turns = byte == b'"' && (self.is_quoted || self.may_open);
        self.may_open = turns && self.is_quoted;
        if turns {
            self.is_quoted = !self.is_quoted;
        }
        let is_point = byte == b',' && self.form.separator != b',';
        text.push(if is_point { b'.' } else { byte })?;
        Ok(())
    }

    /// Ends a line.
    fn end_line(&mut self, text: &mut Vec<u8>) -> Result<(), AllocError> {
        let is_blank = self.form.separator == b' ';
        let but = if is_blank {
            self.held
        } else {
            self.form.trailing
        };
        self.has_field = false;
        self.may_open = true;
        self.put_held(but, text)
    }

    /// Takes a byte in.
    fn take(&mut self, byte: u8, text: &mut Vec<u8>) -> Result<(), AllocError> {
        if self.separates(byte) {
            self.hold();
            return Ok(());
        }
        if self.is_quoted || (byte != b'\n' && byte != b'\r') {
            return self.put_byte(byte, text);
        }
        self.end_line(text)?;
        text.push(byte)?;
        Ok(())
    }
}

/// A table of other separators, read as one of commas, with the header that it lacks.
#[derive(Drop)]
pub struct Separated<R> {
    reader: R,
    rewriting: Rewriting,
    chunk: Vec<u8>,
    text: Vec<u8>,
    passed: usize,
}

impl<R: Read + Drop> Separated<R> {
    pub fn new(reader: R, form: TableForm, alloc: Global) -> Result<Self, AllocError> {
        let mut text = Vec::new(alloc);
        text.extend_from_slice(form.header())?;
        let mut chunk = Vec::new(alloc);
        chunk.resize(CHUNK, 0)?;
        Ok(Separated {
            reader,
            rewriting: Rewriting {
                form,
                held: 0,
                is_quoted: false,
                may_open: true,
                has_field: false,
            },
            chunk,
            text,
            passed: 0,
        })
    }

    /// Reads on until there is more of the text, and tells whether there is.
    fn fill(&mut self) -> io::Result<bool> {
        for _ in 0..u64::MAX {
            if self.passed < self.text.len() {
                return Ok(true);
            }
            self.text.clear();
            self.passed = 0;
            let count = self.reader.read(self.chunk.as_mut_slice())?;
            if count == 0 {
                self.rewriting.end_line(&mut self.text)?;
                return Ok(!self.text.is_empty());
            }
            for byte in self.chunk.get(..count).unwrap_or(&[]) {
                self.rewriting.take(*byte, &mut self.text)?;
            }
        }
        Ok(false)
    }
}

impl<R: Read + Drop> Read for Separated<R> {
    fn read(&mut self, buf: &mut [u8]) -> io::Result<usize> {
        if buf.is_empty() || !self.fill()? {
            return Ok(0);
        }
        let mut rest = self.text.get(self.passed..).unwrap_or(&[]);
        let count = rest.read(buf)?;
        self.passed = self.passed.saturating_add(count);
        Ok(count)
    }
}
