//! What is to hold of the parts of the program by themselves, each with whether it does. Whole runs
//! of the program are made by `checks/dialogues.py`.

use crate::{failures, grammar, sheets};
use std::io;

// Prints what is to hold, and whether it does.
fn print_checks(rt: &impl Print, checks: &[(&'static str, bool)]) -> io::Result<()> {
    for (name, holds) in checks {
        println!(rt; "{name}: {holds}")?;
    }
    Ok(())
}

/// Prints what is to hold of the readers and writers, the commands and the sheets.
pub fn tell_program(rt: &(impl Print + AllocGlobal)) -> io::Result<()> {
    print_checks(rt, &failures::checks())?;
    print_checks(rt, &grammar::checks())?;
    print_checks(rt, &sheets::checks(rt.alloc()))
}
