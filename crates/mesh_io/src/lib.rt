//! What the program `mesh` is asked for, what it reads, and where it writes.
#![tactic(auto)]

mod degrees;
mod keeping;
mod output;
mod progress;
mod reading;
mod returns;
mod separating;
mod sequences;
mod sieving;
mod sniffing;
mod tasks;
mod wkt;

pub use output::write_mesh;
pub use progress::tell_step;
pub use reading::{Scene, input_name, read_scene, refine_scene};
pub use tasks::{CrossingRule, KeepRule, Question, Source, Task, TypedEnds, command, task_of};
