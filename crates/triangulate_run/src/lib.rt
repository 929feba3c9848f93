//! The program, over any reader and writer: how a line spells a command, the answer to each, and a
//! reader or writer that is not called again after a fault.
#![tactic(auto)]

mod circles;
pub mod command;
mod constraints;
pub mod corners;
mod engine;
pub mod fault;
pub mod grammar;
pub mod law;
mod line;
mod nearest;
mod output;
pub mod points;
pub mod reply;
pub mod session;
mod shared;
pub mod sheet;
mod table;
pub mod watched;
mod words;
