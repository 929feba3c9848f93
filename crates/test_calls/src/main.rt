//! Runs a script of calls that C does not reach: each line has the name of a call and some numbers,
//! and is printed with what the call gives. Lines that start with `#` are printed as they are.
//!
//! With an argument, the number of a kind of hints, a session begins with these, and each call is
//! printed between lines `begin` and `end`.
#![tactic(auto)]

mod asks;
mod beside;
mod bulk;
mod constraints;
mod counting;
mod derived;
mod edits;
mod elements;
mod flips;
mod hints;
mod journal;
mod lists;
mod markers;
mod named;
mod points;
mod queries;
mod session;
mod shapes;
mod vertices;
mod walks;
mod writes;

use crate::hints::{Choosing, Hints};
use crate::session::Session;
use std::io;
use std::rt::Env;
use test_reader::run;

// The number of the hints that an argument names.
fn hints_named(rt: &impl Env) -> Option<usize> {
    let mut word = [0u8; 1];
    match rt.arg(1, &mut word) {
        Ok(_) => Some(usize::from(word[0].wrapping_sub(b'0'))),
        Err(_) => None,
    }
}

fn run_with<L: Choosing>(
    rt: &(impl Input + Print + AllocGlobal),
    named: Option<usize>,
) -> io::Result<()> {
    let mut session: Session<L> = Session::new(rt.alloc(), named);
    run(rt, &mut session)
}

fn main(rt: HostRuntime) -> io::Result<()> {
    run_with::<Hints>(&rt, hints_named(&rt))
}
