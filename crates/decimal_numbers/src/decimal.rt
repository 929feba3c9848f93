//! Decimal numbers: a sign, a whole number, and how many of its digits are behind the point.
ghost use Rattle.std.specs.Prelude.{◌≡◌, ◌+◌, ◌*◌, ◌^◌, ◌<◌, ◌≤◌, ◌++◌, ◌↔◌, length};
ghost use Rattle.std.specs.Prelude.{IfOk, IfSome, IfNone, IsNone, IsErrOf, ◌%◌};
ghost use Rattle.std.specs.Str.Parse.{AllDigits, digits_value, digits_value_after};
ghost use Rattle.decimal_numbers.specs.{Grammar.SpellsNoNumber, Value.SpellsValue};
ghost use Rattle.decimal_numbers.specs.Reading.{parts_of};
ghost use Rattle.decimal_numbers.specs.Value.{IsMagnitude, IsShortest, IsTooLong, SpellsTooLong};
ghost use Rattle.decimal_numbers.specs.declared.decimal.DecimalError.TheVariants.{Malformed};
ghost use Rattle.decimal_numbers.specs.declared.decimal.DecimalError.TheVariants.{TooLong};

use crate::parts::{Written, written_of};
use itoa::Buffer;
use std::fmt;
use thiserror::Error;

/// The number `magnitude` / 10^`digits`, or what is as far below 0 as that is above.
#[derive(Clone, Copy, Debug, PartialEq, Eq)]
pub struct Decimal {
    pub negative: bool,
    pub magnitude: u64,
    pub digits: u32,
}

/// Why a text is no decimal number that can be read.
#[derive(Clone, Copy, Debug, PartialEq, Eq, Drop, Error)]
pub enum DecimalError {
    #[error("it is not a decimal number")]
    Malformed,
    #[error("it has too many digits")]
    TooLong,
}

/// The most digits behind the point, and the largest power of ten.
pub(crate) const MAX_DIGITS: u64 = 400;

/// The number that digits write behind those of another number, if it fits.
pub(crate) fn append_digits(number: u64, digits: &[u8]) -> Option<u64>
    requires { AllDigits 10 digits.now }
    ensures some { IfSome result (λ n. n ≡ digits_value_after 10 number digits.now) }
    ensures none { IfNone result (2 ^ 64 ≤ digits_value_after 10 number digits.now) }
{
    let mut value = number;
    for digit in digits {
        value = value
            .checked_mul(10)?
            .checked_add(u64::from(*digit - b'0'))?;
    }
    Some(value)
}

/// A number times a power of ten, if it fits.
pub(crate) fn raise(number: u64, power: u32) -> Option<u64>
    ensures some { IfSome result (λ n. n ≡ number * 10 ^ power) }
    ensures none { IfNone result (2 ^ 64 ≤ number * 10 ^ power) }
{
    let mut value = number;
    for _ in 0..power {
        value = value.checked_mul(10)?;
    }
    Some(value)
}

/// The number with these parts, if it fits.
fn value_of(written: &Written<'_>) -> Option<Decimal>
    requires whole { AllDigits 10 written.now.whole.now }
    requires fraction { AllDigits 10 written.now.fraction.now }
    requires power { AllDigits 10 written.now.power.now }
    ensures sign { IfSome result (λ d. d.negative ≡ written.now.negative) }
    ensures value { IfSome result
        (λ d. IsMagnitude (parts_of written.now) d.magnitude d.digits) }
    ensures none { IsNone result ↔ IsTooLong (parts_of written.now) }
{
    let whole = append_digits(0, written.whole)?;
    let number = append_digits(whole, written.fraction)?;
    let power = append_digits(0, written.power)?;
    let behind = written.fraction.len();
    if power > MAX_DIGITS || behind > MAX_DIGITS as usize {
        return None;
    }
    if written.lowers {
        return Some(Decimal {
            negative: written.negative,
            magnitude: number,
            digits: behind as u32 + power as u32,
        });
    }
    let magnitude = raise(number, power as u32)?;
    Some(Decimal {
        negative: written.negative,
        magnitude,
        digits: behind as u32,
    })
}

impl Decimal {
    /// Reads a number: a sign, digits with a point among them, and a power of ten behind an `e`,
    /// of which only a digit has to be there. It gives `Malformed` exactly where the text is no such
    /// number. It gives `TooLong` exactly where all digits as one whole number, times the power of
    /// ten if that raises it, are 2^64 or more, where more than 400 digits are behind the point, or
    /// where the power of ten is above 400 or below -400.
    pub fn parse(text: &[u8]) -> Result<Decimal, DecimalError>
        ensures ok { IfOk result (λ d. SpellsValue text.now d.negative d.magnitude d.digits) }
        ensures malformed { IsErrOf result Malformed ↔ SpellsNoNumber text.now }
        ensures too_long { IsErrOf result TooLong ↔ SpellsTooLong text.now }
    {
        let Some(written) = written_of(text) else {
            return Err(DecimalError::Malformed);
        };
        match value_of(&written) {
            Some(decimal) => Ok(decimal),
            None => Err(DecimalError::TooLong),
        }
    }

    /// The same number with the least digits behind the point.
    pub fn shortened(&self) -> Decimal
        ensures sign { result.negative ≡ self.now.negative }
        ensures value { IsShortest self.now.magnitude self.now.digits result.magnitude
            result.digits }
    {
        let mut magnitude = self.magnitude;
        let mut digits = self.digits;
        while digits > 0 && magnitude % 10 == 0 {
            magnitude /= 10;
            digits -= 1;
        }
        Decimal {
            negative: self.negative,
            magnitude,
            digits,
        }
    }
}

impl fmt::Display for Decimal {
    fn fmt<W: fmt::Write>(&self, f: &mut fmt::Formatter<W>) -> fmt::Result {
        if self.negative {
            f.write_str("-")?;
        }
        let mut buffer = Buffer::new();
        let all = buffer.format(self.magnitude);
        let digits = self.digits as usize;
        if digits == 0 {
            return f.write_str(all);
        }
        if all.len() <= digits {
            f.write_str("0.")?;
            for _ in all.len()..digits {
                f.write_str("0")?;
            }
            return f.write_str(all);
        }
        let (whole, fraction) = all.split_at(all.len() - digits);
        f.write_str(whole)?;
        f.write_str(".")?;
        f.write_str(fraction)
    }
}
