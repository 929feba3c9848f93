//! A reader or a writer that remembers whether it has failed.

ghost use Rattle.std.specs.Prelude.{◌≡◌, ◌<◌, ◌+◌, ◌-◌, ◌^◌};
ghost use Rattle.std.specs.Prelude.{true, false, OnOk, OnErr, IfOk, length};
ghost use Rattle.std.specs.Io.{ReadsAtMost, WritesAtMost};
ghost use Rattle.std.specs.Io.KnownBytes.{ReadConsumes, WriteAppends, Keeps};
ghost use Rattle.triangulate_run.specs.Watched.{has_failed, inner_of, reads_left_of};

use std::io::{Read, Write};

/// A call of a reader or a writer has failed. What the reader or writer said of it is dropped.
#[derive(Clone, Copy, Debug, PartialEq, Eq)]
pub struct Failed;

/// A reader or a writer, and whether a call of it has failed. One that has failed isn't called
/// again.
#[derive(Drop)]
pub struct Watched<T> {
    inner: T,
    failed: bool,
    reads_left: u64,
}

impl<T> Watched<T> {
    /// Watches `inner`, which counts as one that hasn't failed.
    pub fn new(inner: T) -> Self
        ensures inner { inner_of result ≡ inner }
        ensures failed { has_failed result ≡ false }
        ensures reads { reads_left_of result ≡ 2 ^ 64 - 1 }
    {
        Watched {
            inner,
            failed: false,
            reads_left: u64::MAX,
        }
    }

    /// Whether a call has answered [`Failed`].
    pub fn failed(&self) -> bool
        ensures { result ≡ has_failed self.now }
    {
        self.failed
    }

    /// The reader or writer itself.
    pub fn into_inner(self) -> T
        ensures { result ≡ inner_of self }
    {
        self.inner
    }
}

impl<T: Read> Watched<T> {
    /// Calls the reader once, and gives the number of bytes that it put at the front of `buf`: 0 at
    /// its end, or where `buf` is empty.
    ///
    /// # Errors
    ///
    /// [`Failed`] where the reader answers an error. So that whoever reads to the end is sure to
    /// come to an end, it is also the answer to each call after 2^64 - 1 others, without a call of
    /// the reader.
    pub fn read(&mut self, buf: &mut [u8]) -> Result<usize, Failed>
        requires { has_failed self.old ≡ false }
        ensures bound { ReadsAtMost result buf.new }
        ensures bytes { ReadConsumes (T.remaining (inner_of self.old))
            (T.remaining (inner_of self.new))
            result buf.new }
        ensures ok { OnOk result (has_failed self.new ≡ false) }
        ensures err { OnErr result (has_failed self.new ≡ true) }
        ensures turn { OnOk result (reads_left_of self.old ≡ reads_left_of self.new + 1) }
    {
        if self.reads_left == 0 {
            self.failed = true;
            return Err(Failed);
        }
        self.reads_left -= 1;
        match self.inner.read(buf) {
            Ok(n) => Ok(n),
            Err(_) => {
                self.failed = true;
                Err(Failed)
            }
        }
    }
}

impl<T: Write> Watched<T> {
    /// Calls the writer once, and gives the number of bytes that it took from the front of `bytes`.
    ///
    /// # Errors
    ///
    /// [`Failed`] where the writer answers an error, or takes none of some bytes.
    pub fn write(&mut self, bytes: &[u8]) -> Result<usize, Failed>
        requires { has_failed self.old ≡ false }
        ensures bound { WritesAtMost result bytes.now }
        ensures progress { IfOk result (λ n. 0 < length bytes.now → 0 < n) }
        ensures bytes { WriteAppends (T.contents (inner_of self.old))
            (T.contents (inner_of self.new))
            result bytes.now }
        ensures ok { OnOk result (has_failed self.new ≡ false) }
        ensures err { OnErr result (has_failed self.new ≡ true) }
        ensures turns { reads_left_of self.new ≡ reads_left_of self.old }
    {
        match self.inner.write(bytes) {
            Ok(n) if n > 0 || bytes.is_empty() => Ok(n),
            _ => {
                self.failed = true;
                Err(Failed)
            }
        }
    }

    /// Has the writer pass on what it holds back, by one call.
    ///
    /// # Errors
    ///
    /// [`Failed`] where the writer answers an error.
    pub fn flush(&mut self) -> Result<(), Failed>
        requires { has_failed self.old ≡ false }
        ensures bytes { Keeps (T.contents (inner_of self.old)) (T.contents (inner_of self.new)) }
        ensures ok { OnOk result (has_failed self.new ≡ false) }
        ensures err { OnErr result (has_failed self.new ≡ true) }
        ensures turns { reads_left_of self.new ≡ reads_left_of self.old }
    {
        match self.inner.flush() {
            Ok(()) => Ok(()),
            Err(_) => {
                self.failed = true;
                Err(Failed)
            }
        }
    }
}
