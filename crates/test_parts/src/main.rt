//! Runs a script, and prints what each line gives. A line with the name of a call about points,
//! sides, projections and shapes is printed with what the call gives: `None` where a point is out of
//! range. A line that starts with a number splits segments that cross, `way` finds a way, and `reach`
//! tells which faces ways join.
//! `program` tells what is to hold of the parts of the program `triangulate` by themselves. Lines
//! that start with `#` are printed as they are.
#![tactic(auto)]

mod comparisons;
mod failures;
mod grammar;
mod points;
mod program;
mod script;
mod shapes;
mod sheets;
mod sides;
mod splitting;
mod ways;

use crate::program::tell_program;
use crate::script::answer;
use crate::splitting::split;
use crate::ways::{tell_parts, tell_way};
use test_reader::Call;

fn main(rt: HostRuntime) -> anyhow::Result<()> {
    for line in rt.lines(rt.alloc()) {
        let line = line?;
        match Call::parse(line.as_str()) {
            Some(call) if call.name == "program" => tell_program(&rt)?,
            Some(call) if call.name == "way" => tell_way(&rt, &call)?,
            Some(call) if call.name == "reach" => tell_parts(&rt, &call)?,
            Some(call) => match call.name.parse() {
                Ok(steps) => split(&rt, &call, steps)?,
                Err(_) => answer(&rt, &call)?,
            },
            None => println!(rt; "{line}")?,
        }
    }
    Ok(())
}
