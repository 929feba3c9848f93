//! Runs a script of calls of the half-edge mesh, and prints each line with what its call gives. A
//! call that may not be made, or is refused, gives `None` or an error. Lines that start with `#`
//! are printed as they are.
#![tactic(auto)]

mod comparisons;
mod data;
mod elements;
mod ends;
mod growth;
mod indexes;
mod iterators;
mod lookups;
mod removal;
mod room;
mod rounds;
mod script;
mod voronoi;

use crate::lookups::Mesh;
use crate::script::answer;
use std::io;
use test_reader::Call;

fn run_line(rt: &HostRuntime, mesh: &mut Mesh, line: &str) -> io::Result<()> {
    match Call::parse(line) {
        Some(call) => answer(rt, mesh, &call),
        None => println!(rt; "{line}"),
    }
}

fn main(rt: HostRuntime) -> io::Result<()> {
    let mut mesh = Mesh::new(rt.alloc());
    for line in rt.lines(rt.alloc()) {
        run_line(&rt, &mut mesh, line?.as_str())?;
    }
    Ok(())
}
