//! How far numbers are moved where they are rounded.
use decimal_numbers::Decimal;
use std::fmt;

/// How many numbers were rounded to so many digits behind the point, and how far the one went that
/// was moved most: at most so many thousandths of a unit of the last digit.
#[derive(Clone, Copy, Debug, PartialEq, Eq)]
pub struct Moves {
    pub count: u64,
    pub digits: u32,
    thousandths: u64,
}

/// How far a number is at most from its nearest multiple of a power of ten, in thousandths of that,
/// rounded up. The number may be off by so much.
fn thousandths_off(number: u64, power: u32, by: u128) -> u64 {
    let number = u128::from(number);
    let Some(unit) = 10u128.checked_pow(power) else {
        return 1;
    };
    let rest = number.checked_rem(unit).unwrap_or(0);
    let off = rest
        .min(unit.wrapping_sub(rest))
        .wrapping_add(by)
        .min(unit / 2);
    let off = off.wrapping_mul(1000);
    let Some(thousandths) = off.wrapping_add(unit).wrapping_sub(1).checked_div(unit) else {
        return 1;
    };
    u64::try_from(thousandths).unwrap_or(1000)
}

impl Moves {
    /// None, yet.
    pub fn new(digits: u32) -> Self {
        Moves {
            count: 0,
            digits,
            thousandths: 0,
        }
    }

    /// Notes a number that is rounded, if it has more digits. Where it has more than the finest to
    /// which numbers can be rounded, it may be off by one unit itself.
    pub(crate) fn note(&mut self, number: &Decimal, digits: u32, finest: u32) {
        if number.digits <= digits {
            return;
        }
        let power = number.digits.saturating_sub(digits);
        let by = u128::from(number.digits > finest);
        let off = thousandths_off(number.magnitude, power, by);
        self.count = self.count.saturating_add(1);
        self.thousandths = self.thousandths.max(off);
    }

    /// How far a number was moved at most.
    pub fn largest(&self) -> Decimal {
        let largest = Decimal {
            negative: false,
            magnitude: self.thousandths,
            digits: self.digits.saturating_add(3),
        };
        largest.shortened()
    }
}

impl fmt::Display for Moves {
    fn fmt<W: fmt::Write>(&self, f: &mut fmt::Formatter<W>) -> fmt::Result {
        let (count, digits, largest) = (self.count, self.digits, self.largest());
        let numbers = if count == 1 { "number" } else { "numbers" };
        write!(
            f,
            "rounded {count} {numbers} to {digits} digits behind the point, "
        )?;
        write!(f, "by at most {largest}")
    }
}
