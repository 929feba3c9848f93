//! A way through free faces: a chain of positions, each in sight of the next. Which free faces such
//! chains join, and which are wide enough.
#![tactic(auto)]

mod corners;
mod distances;
mod labels;
mod leads;
mod near;
mod parts;
mod reading;
mod search;
mod short;
mod sides;
mod spokes;
mod taut;
mod turns;
mod way;
mod wide;

pub use parts::reachable;
pub use way::find_way;
pub use wide::WideFaces;
