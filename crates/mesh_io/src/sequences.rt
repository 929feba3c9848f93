//! Sequences of GeoJSON objects, one behind the other, as one collection.
use std::alloc::{AllocError, Global};
use std::io;
use std::io::Read;

/// How many bytes are read at a time.
const CHUNK: usize = 1 << 13;

/// What stands before an object of a sequence (byte 30, the record separator).
const SEPARATOR: u8 = 0x1E;

/// What names of sequences end in.
static ENDINGS: [&str; 6] = [
    "geojsonl",
    "geojsons",
    "geojsonseq",
    "ndgeojson",
    "ndjson",
    "jsonl",
];

/// The bytes, but blanks, that a feature begins with as most programs write it.
const FEATURE: &[u8] = b"{\"type\":\"Feature\"";

/// How far a text of objects was read: how many began, and how deep it is in one.
#[derive(Clone, Copy)]
struct Nesting {
    begun: u64,
    depth: u64,
    is_in_string: bool,
    is_escaped: bool,
}

impl Nesting {
    fn new() -> Self {
        Nesting {
            begun: 0,
            depth: 0,
            is_in_string: false,
            is_escaped: false,
        }
    }

    /// Passes a byte of a string.
    fn pass_in_string(&mut self, byte: u8) {
        if self.is_escaped {
            self.is_escaped = false;
        } else if byte == b'\\' {
            self.is_escaped = true;
        } else if byte == b'"' {
            self.is_in_string = false;
        }
    }

    /// Passes a byte, and tells whether another object begins with it.
    fn pass(&mut self, byte: u8) -> bool {
        if self.is_in_string {
            self.pass_in_string(byte);
            return false;
        }
        let begins = byte == b'{' && self.depth == 0;
        self.begun = self.begun.saturating_add(u64::from(begins));
        match byte {
            b'"' => self.is_in_string = true,
            b'{' | b'[' => self.depth = self.depth.saturating_add(1),
            b'}' | b']' => self.depth = self.depth.saturating_sub(1),
            _ => {}
        }
        begins
    }
}

impl Nesting {
    /// Takes a byte into a text, with a comma before each object but the first.
    fn take(&mut self, byte: u8, text: &mut Vec<u8>) -> Result<(), AllocError> {
        if byte == SEPARATOR && self.depth == 0 {
            return Ok(());
        }
        if self.pass(byte) && self.begun > 1 {
            text.push(b',')?;
        }
        text.push(byte)?;
        Ok(())
    }
}

/// Whether a text begins with these bytes, its blanks left out.
fn begins_with(text: &[u8], start: &[u8]) -> bool {
    let mut wanted = start;
    for byte in text {
        if byte.is_ascii_whitespace() || *byte == SEPARATOR {
            continue;
        }
        match wanted {
            [] => return true,
            [first, rest @ ..] if first == byte => wanted = rest,
            _ => return false,
        }
    }
    wanted.is_empty()
}

/// Whether a text of GeoJSON is a sequence, by its first bytes and what its name ends in: a
/// separator comes first, another object comes behind the first, or the first is a long feature.
fn is_sequence(head: &[u8], ending: &str) -> bool {
    if head.first() == Some(&SEPARATOR) {
        return true;
    }
    for known in &ENDINGS {
        if ending.eq_ignore_ascii_case(known) {
            return true;
        }
    }
    let mut nesting = Nesting::new();
    for byte in head {
        nesting.pass(*byte);
    }
    nesting.begun > 1 || (nesting.depth > 0 && begins_with(head, FEATURE))
}

/// Whether the word for a feature stands in a text.
fn has_feature(text: &[u8]) -> bool {
    let word: &[u8] = b"\"Feature\"";
    text.windows(word.len()).any(|bytes| bytes == word)
}

/// What a collection begins with that has the objects of a text, if the text is a sequence: one of
/// geometries where the first begins with its type and no feature is seen, or else of features.
pub fn collection_start(head: &[u8], ending: &str) -> Option<&'static [u8]> {
    if !is_sequence(head, ending) {
        return None;
    }
    if begins_with(head, b"{\"type\":\"") && !has_feature(head) {
        Some(b"{\"type\":\"GeometryCollection\",\"geometries\":[")
    } else {
        Some(b"{\"type\":\"FeatureCollection\",\"features\":[")
    }
}

/// A sequence of objects that is read as a collection of them.
#[derive(Drop)]
pub struct Collected<R> {
    reader: R,
    nesting: Nesting,
    chunk: Vec<u8>,
    text: Vec<u8>,
    passed: usize,
    has_ended: bool,
}

impl<R: Read + Drop> Collected<R> {
    pub fn new(reader: R, start: &[u8], alloc: Global) -> Result<Self, AllocError> {
        // a comma may come before each byte, so the text takes no more room while it is read
        let room = CHUNK.saturating_mul(2).saturating_add(start.len());
        let mut text = Vec::with_capacity(alloc, room)?;
        text.extend_from_slice(start)?;
        let mut chunk = Vec::new(alloc);
        chunk.resize(CHUNK, 0)?;
        Ok(Collected {
            reader,
            nesting: Nesting::new(),
            chunk,
            text,
            passed: 0,
            has_ended: false,
        })
    }

    /// Reads on until there is more of the text, and tells whether there is.
    fn fill(&mut self) -> io::Result<bool> {
        for _ in 0..u64::MAX {
            if self.passed < self.text.len() {
                return Ok(true);
            }
            if self.has_ended {
                return Ok(false);
            }
            self.text.clear();
            self.passed = 0;
            let count = self.reader.read(self.chunk.as_mut_slice())?;
            if count == 0 {
                self.has_ended = true;
                self.text.extend_from_slice(b"]}")?;
            }
            for byte in self.chunk.get(..count).unwrap_or(&[]) {
                self.nesting.take(*byte, &mut self.text)?;
            }
        }
        Ok(false)
    }
}

impl<R: Read + Drop> Read for Collected<R> {
    fn read(&mut self, buf: &mut [u8]) -> io::Result<usize> {
        if buf.is_empty() || !self.fill()? {
            return Ok(0);
        }
        let mut rest = self.text.get(self.passed..).unwrap_or(&[]);
        let count = rest.read(buf)?;
        self.passed = self.passed.saturating_add(count);
        Ok(count)
    }
}
