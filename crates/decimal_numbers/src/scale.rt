//! Decimal numbers as whole numbers of one power of ten, in the range of coordinates.
ghost use Rattle.std.specs.Prelude.{◌≡◌, ◌+◌, ◌*◌, ◌<◌, ◌≤◌, ◌^◌, ◌↔◌};
ghost use Rattle.std.specs.Prelude.{◌+ℤ◌, ◌-ℤ◌, ◌≤ℤ◌, ℤ, pos, neg_ℤ};
ghost use Rattle.std.specs.Prelude.{IfOk, IsErrOf};
ghost use Rattle.decimal_numbers.specs.Value.{IsOutOfReach, IsRounded, IsTimesPower, IsWithin};
ghost use Rattle.decimal_numbers.specs.Value.{units_at};
ghost use Rattle.decimal_numbers.specs.declared.scale.ScaleError.TheVariants.{TooFar, TooFine};

use crate::Decimal;
use crate::decimal::raise;
use thiserror::Error;

/// The largest coordinate, and how far the least is below 0.
const REACH: i64 = 1 << 29;

/// How far from 0 the numbers of a scale may be that has its origin there: half of the range.
const ROOM: i64 = 1 << 28;

/// The largest number in units of a scale.
const MAX_UNITS: u64 = 1 << 62;

/// A coordinate `c` stands for the number (`c` + `origin`) / 10^`digits`.
#[derive(Clone, Copy, Debug, PartialEq, Eq)]
pub struct Scale {
    pub origin: i64,
    pub digits: u32,
}

/// Why a number has no coordinate.
#[derive(Clone, Copy, Debug, PartialEq, Eq, Drop, Error)]
pub enum ScaleError {
    #[error("it has more digits behind the point than the scale")]
    TooFine,
    #[error("it is too far away")]
    TooFar,
}

impl Decimal {
    /// This number times 10^`digits`. It gives `TooFine` exactly where the number has more digits
    /// behind the point, and else `TooFar` exactly where the product is further than 2^62 from 0.
    pub fn times_power(&self, digits: u32) -> Result<i64, ScaleError>
        ensures ok { IfOk result (λ z. IsTimesPower self.now.negative self.now.magnitude
            self.now.digits digits z) }
        ensures within { IfOk result (IsWithin (2 ^ 62)) }
        ensures too_fine { IsErrOf result TooFine ↔ (digits < self.now.digits) }
        ensures too_far { IsErrOf result TooFar ↔ ((self.now.digits ≤ digits)
            × (2 ^ 62 < units_at digits self.now.magnitude self.now.digits)) }
    {
        if digits < self.digits {
            return Err(ScaleError::TooFine);
        }
        match raise(self.magnitude, digits - self.digits) {
            Some(units) if units <= MAX_UNITS => {
                if self.negative {
                    Ok(-(units as i64))
                } else {
                    Ok(units as i64)
                }
            }
            _ => Err(ScaleError::TooFar),
        }
    }

    /// The number with at most so many digits behind the point that is nearest to this one, and
    /// further from 0 where two are.
    pub fn rounded_to(&self, digits: u32) -> Decimal
        ensures sign { result.negative ≡ self.now.negative }
        ensures value { IsRounded self.now.magnitude self.now.digits digits result.magnitude
            result.digits }
    {
        if self.digits <= digits {
            return *self;
        }
        let magnitude = self.magnitude;
        let magnitude = match raise(1, self.digits - digits) {
            Some(unit) => nearest_quotient(magnitude, unit),
            None => 0,
        };
        Decimal {
            negative: self.negative,
            magnitude,
            digits,
        }
    }
}

/// How many units a number is, rounded, and up where it is in the middle.
fn nearest_quotient(number: u64, unit: u64) -> u64
    requires { 10 ≤ unit }
    ensures above { 2 * number ≤ (2 * result + 1) * unit }
    ensures below { 2 * result * unit ≤ 2 * number + unit }
{
    let rest = number % unit;
    if unit - rest <= rest {
        number / unit + 1
    } else {
        number / unit
    }
}

/// What is in the middle between two numbers that are at most 2^30 apart.
fn middle(least: i64, most: i64) -> i64
    ensures { IsWithin (2 ^ 62) least → (most -ℤ least) ≤ℤ pos (2 ^ 30) → (z : ℤ)
        → least ≤ℤ z → z ≤ℤ most → IsWithin (2 ^ 29) (z -ℤ result) }
{
    let half = (most.abs_diff(least) / 2).min(REACH as u64);
    if least > MAX_UNITS as i64 {
        return least;
    }
    least + half as i64
}

impl Scale {
    /// The scale of numbers from `least` to `most`, in units of 10^-`digits`: at 0 where they take no
    /// more than the middle half of the range then, else with them in the middle of it.
    pub fn between(digits: u32, least: i64, most: i64) -> Scale
        ensures digits { result.digits ≡ digits }
        ensures fits { IsWithin (2 ^ 62) least → (most -ℤ least) ≤ℤ pos (2 ^ 30) →
            (z : ℤ) → least ≤ℤ z → z ≤ℤ most → IsWithin (2 ^ 29) (z -ℤ result.origin) }
    {
        let at_0 = -ROOM <= least && most <= ROOM;
        Scale {
            origin: if at_0 { 0 } else { middle(least, most) },
            digits,
        }
    }

    /// The coordinate of a number. It gives `TooFine` exactly where the number has more digits
    /// behind the point than the scale, and else `TooFar` exactly where the coordinate would be out
    /// of range, or where the number is further from 0 than 2^62 units of the scale.
    pub fn coordinate(&self, number: &Decimal) -> Result<i32, ScaleError>
        ensures ok { IfOk result (λ c. IsTimesPower number.now.negative number.now.magnitude
            number.now.digits self.now.digits (c +ℤ self.now.origin)) }
        ensures within { IfOk result (IsWithin (2 ^ 29)) }
        ensures too_fine { IsErrOf result TooFine ↔ (self.now.digits < number.now.digits) }
        ensures too_far { IsErrOf result TooFar ↔ ((number.now.digits ≤ self.now.digits)
            × IsOutOfReach number.now.negative
            (units_at self.now.digits number.now.magnitude number.now.digits) self.now.origin) }
    {
        let units = number.times_power(self.digits)?;
        match units.checked_sub(self.origin) {
            Some(moved) if -REACH <= moved && moved <= REACH => Ok(moved as i32),
            _ => Err(ScaleError::TooFar),
        }
    }
}
