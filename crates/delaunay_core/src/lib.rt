//! Points and their projection onto a line, the side's answer, the range of coordinates, the trait
//! of the tests that a caller hands in, and that of the generators of hints.
#![tactic(auto)]

mod hint_generator;
mod last_used;
pub mod law;
pub mod line_side_info;
pub mod math;
pub mod point;
mod projection;

pub use hint_generator::HintGenerator;
pub use last_used::LastUsedVertexHintGenerator;
