//! Readers and writers fail at their own faults alone.
ghost use Rattle.std.specs.Prelude.{IfOk, ◌≤◌};

use std::io;
use std::io::{ErrorKind, Read, Write};
use triangulate_run::watched::{Failed, Watched};

/// What a fake answers to a call.
#[derive(Clone, Copy, Drop)]
enum Answer {
    Error,
    Count(usize),
}

/// Answers its calls by this, moves no bytes, and counts its calls.
#[derive(Drop)]
struct Fake {
    answer: Answer,
    calls: u64,
}

impl Fake {
    /// The answer to a call that may move at most `most` bytes.
    fn call(&mut self, most: usize) -> io::Result<usize>
        ensures { IfOk result (λ n. n ≤ most) }
    {
        self.calls = self.calls.saturating_add(1);
        match self.answer {
            Answer::Error => Err(io::Error::from(ErrorKind::Other)),
            Answer::Count(count) => Ok(count.min(most)),
        }
    }
}

impl Read for Fake {
    fn read(&mut self, buf: &mut [u8]) -> io::Result<usize> {
        self.call(buf.len())
    }
}

impl Write for Fake {
    fn write(&mut self, buf: &[u8]) -> io::Result<usize> {
        self.call(buf.len())
    }

    fn flush(&mut self) -> io::Result<()> {
        self.call(0)?;
        Ok(())
    }
}

/// What a first read of four bytes tells, and how often the reader was called.
fn first_read(answer: Answer) -> (Result<usize, Failed>, u64) {
    let mut reader = Watched::new(Fake { answer, calls: 0 });
    let told = reader.read(&mut [0u8; 4]);
    (told, reader.into_inner().calls)
}

/// What a first write of these bytes tells, and how often the writer was called.
fn first_write(answer: Answer, bytes: &[u8]) -> (Result<usize, Failed>, u64) {
    let mut writer = Watched::new(Fake { answer, calls: 0 });
    let told = writer.write(bytes);
    (told, writer.into_inner().calls)
}

/// The same of a flush.
fn first_flush(answer: Answer) -> (Result<(), Failed>, u64) {
    let mut writer = Watched::new(Fake { answer, calls: 0 });
    let told = writer.flush();
    (told, writer.into_inner().calls)
}

fn a_reader_fails_at_an_error_alone() -> bool {
    let found = (
        first_read(Answer::Error),
        first_read(Answer::Count(0)),
        first_read(Answer::Count(3)),
    );
    found == ((Err(Failed), 1), (Ok(0), 1), (Ok(3), 1))
}

fn a_writer_fails_at_an_error_and_where_it_takes_none() -> bool {
    let found = (
        first_write(Answer::Error, b"ab"),
        first_write(Answer::Count(0), b"ab"),
        first_write(Answer::Count(0), b""),
        first_write(Answer::Count(1), b"ab"),
        first_flush(Answer::Error),
        first_flush(Answer::Count(0)),
    );
    found
        == (
            (Err(Failed), 1),
            (Err(Failed), 1),
            (Ok(0), 1),
            (Ok(1), 1),
            (Err(Failed), 1),
            (Ok(()), 1),
        )
}

/// What is to hold of them, and whether it does.
pub(crate) fn checks() -> [(&'static str, bool); 2] {
    [
        (
            "a reader fails at an error alone",
            a_reader_fails_at_an_error_alone(),
        ),
        (
            "a writer fails at an error and where it takes none",
            a_writer_fails_at_an_error_and_where_it_takes_none(),
        ),
    ]
}
