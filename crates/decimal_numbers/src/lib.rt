//! Decimal numbers as people write them, read exactly, and as whole numbers of one power of ten.
#![tactic(auto)]

mod decimal;
mod long;
mod parts;
mod scale;

pub use decimal::{Decimal, DecimalError};
pub use long::LongDecimal;
pub use scale::{Scale, ScaleError};
