//! What is told of long work while it goes on, on a terminal alone.
use crate::Task;
use std::io;
use std::io::{IsTerminal, Read};

/// After how many bytes it is told how many were read.
const READ_STEP: u64 = 1 << 24;

/// How many points make long work.
const MANY_POINTS: usize = 100_000;

/// Whether progress is told.
pub fn tells_progress(rt: &HostRuntime, task: &Task<'_>) -> bool {
    !task.is_quiet && rt.stderr().is_terminal()
}

/// Tells what comes next, if there are many points.
pub fn tell_step(rt: &HostRuntime, task: &Task<'_>, points: usize, step: &str) {
    if points >= MANY_POINTS && tells_progress(rt, task) {
        let _ = eprintln!(rt; "mesh: {points} points: {step}");
    }
}

/// A reader that tells how much was read of a long text.
#[derive(Drop)]
pub struct ToldReader<'a, R> {
    reader: R,
    rt: &'a HostRuntime,
    is_told: bool,
    step: u64,
    read: u64,
}

impl<'a, R: Read> ToldReader<'a, R> {
    pub fn new(rt: &'a HostRuntime, task: &Task<'_>, reader: R) -> Self {
        ToldReader {
            reader,
            rt,
            is_told: tells_progress(rt, task),
            step: 0,
            read: 0,
        }
    }
}

impl<R: Read> Read for ToldReader<'_, R> {
    fn read(&mut self, buf: &mut [u8]) -> io::Result<usize> {
        let count = self.reader.read(buf)?;
        self.step = self.step.saturating_add(count as u64);
        if self.is_told && self.step >= READ_STEP {
            self.read = self.read.saturating_add(self.step);
            self.step = 0;
            let megabytes = self.read / 1_000_000;
            let _ = eprintln!(self.rt; "mesh: {megabytes} MB are read");
        }
        Ok(count)
    }
}
