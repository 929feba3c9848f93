//! What test programs share. A test's script: each line has the name of a call and some numbers, and
//! is printed with what the call gives. Lines that start with `#` are printed as they are. Generators
//! of hints are in `hints`.
#![tactic(auto)]

mod hashes;
pub mod hints;

use delaunay_core::point::Point2;
pub use hashes::hash_of;
use std::alloc::{AllocError, Global};
use std::fmt::Debug;
use std::io;

/// A call by its name, with the line that asks for it.
#[derive(Drop)]
pub struct Call<'a> {
    pub line: &'a str,
    pub name: &'a str,
    /// What is not given is 0.
    pub numbers: [i64; 8],
}

fn number(word: Option<&str>) -> i64 {
    match word {
        Some(word) => word.parse().unwrap_or(0),
        None => 0,
    }
}

/// An index that is given, or one that no element has.
pub fn index(number: i64) -> u32 {
    u32::try_from(number).unwrap_or(u32::MAX)
}

impl<'a> Call<'a> {
    /// Nothing where the line is empty or a remark.
    pub fn parse(line: &'a str) -> Option<Self> {
        let mut words = line.split_whitespace();
        let name = words.next()?;
        if name == "#" {
            return None;
        }
        let mut numbers = [0; 8];
        for place in &mut numbers {
            *place = number(words.next());
        }
        Some(Call {
            line,
            name,
            numbers,
        })
    }

    /// The first three numbers as indexes.
    pub fn indexes(&self) -> [u32; 3] {
        let [first, second, third, ..] = self.numbers;
        [index(first), index(second), index(third)]
    }

    /// The first four numbers as two points.
    pub fn ends(&self) -> (Point2<i64>, Point2<i64>) {
        let [x, y, u, v, ..] = self.numbers;
        (Point2::new(x, y), Point2::new(u, v))
    }

    /// All numbers of the line, two by two.
    pub fn positions(&self, alloc: Global) -> Result<Vec<Point2<i64>>, AllocError> {
        let mut positions = Vec::new(alloc);
        let mut x = None;
        for word in self.line.split_whitespace().skip(1) {
            let next = number(Some(word));
            match x.take() {
                Some(x) => positions.push(Point2::new(x, next))?,
                None => x = Some(next),
            }
        }
        Ok(positions)
    }

    /// Prints the line and what its call gave.
    pub fn tell<T: Debug>(&self, rt: &impl Print, answer: &T) -> io::Result<()> {
        let line = self.line;
        println!(rt; "{line} > {answer:?}")
    }
}

/// What answers the calls of a script.
pub trait Answers {
    /// Makes the call that a line asks for, and prints what it gives.
    fn answer(&mut self, rt: &(impl Print + AllocGlobal), call: &Call<'_>) -> io::Result<()>;
}

/// Runs the script that standard input has.
pub fn run<S: Answers>(rt: &(impl Input + Print + AllocGlobal), session: &mut S) -> io::Result<()> {
    for line in rt.lines(rt.alloc()) {
        let line = line?;
        match Call::parse(line.as_str()) {
            Some(call) => session.answer(rt, &call)?,
            None => println!(rt; "{line}")?,
        }
    }
    Ok(())
}
