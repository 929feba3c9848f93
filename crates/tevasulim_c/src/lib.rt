//! The library for C: the calls of `c_calls` by the names of include/tevasulim.h, which says what
//! each does, and the one that takes points and segments and gives faces.
#![tactic(auto)]

mod edits;
mod reads;
mod whole;
