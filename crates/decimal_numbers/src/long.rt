//! Numbers of any length, of which as many digits are kept as fit.
ghost use Rattle.std.specs.Prelude.{◌≡◌, ◌+◌, ◌*◌, ◌^◌, ◌<◌, ◌≤◌, ◌↔◌, length, ℕ, true, false};
ghost use Rattle.std.specs.Prelude.{IfOk, IfSome, IfNone, IsErrOf};
ghost use Rattle.std.specs.Str.Parse.{AllDigits, digits_value_after};
ghost use Rattle.decimal_numbers.specs.{Grammar.SpellsNoNumber, Long.SpellsLarge, Long.SpellsLong};
ghost use Rattle.decimal_numbers.specs.Long.{IsKept, IsLarge, IsLongValue, IsWide, off_fives};
ghost use Rattle.decimal_numbers.specs.Reading.{parts_of};
ghost use Rattle.decimal_numbers.specs.declared.decimal.DecimalError.TheVariants.{Malformed};
ghost use Rattle.decimal_numbers.specs.declared.decimal.DecimalError.TheVariants.{TooLong};

use crate::decimal::{MAX_DIGITS, append_digits, raise};
use crate::parts::{Written, written_of};
use crate::{Decimal, DecimalError};

/// A number that may have more digits than fit. Where it is not exact, it has 18 digits, and the
/// number that is written lies between the same multiples of five units of the last of them: so
/// both are rounded to the same number of fewer digits.
#[derive(Clone, Copy, Debug, PartialEq, Eq)]
pub struct LongDecimal {
    pub decimal: Decimal,
    pub is_exact: bool,
}

/// A number to which no digit is added: it has 18 digits.
const FULL: u64 = 100_000_000_000_000_000;

/// The most digits behind the point of which any are kept.
const MAX_BEHIND: usize = 1 << 30;

/// Digits put behind those of a number until that is full, and the digits that are left.
fn append_some(number: u64, digits: &[u8]) -> (u64, &[u8])
    requires { AllDigits 10 digits.now }
    ensures value { digits_value_after 10 result.0 result.1.now
        ≡ digits_value_after 10 number digits.now }
    ensures digits { AllDigits 10 result.1.now }
    ensures fewer { length result.1.now ≤ length digits.now }
    ensures fits { number < 10 ^ 18 → result.0 < 10 ^ 18 }
    ensures full { 0 < length result.1.now → 10 ^ 17 ≤ result.0 }
{
    let mut value = number;
    for (i, digit) in digits.iter().enumerate() {
        if value >= FULL {
            return (value, &digits[i..]);
        }
        value = value * 10 + u64::from(*digit - b'0');
    }
    (value, &[])
}

/// Whether all digits are zeros.
fn are_zeros(digits: &[u8]) -> bool
    requires { AllDigits 10 digits.now }
    ensures zeros { result ≡ true → (n : ℕ)
        → digits_value_after 10 n digits.now ≡ n * 10 ^ length digits.now }
    ensures others { result ≡ false → (n : ℕ)
        → n * 10 ^ length digits.now < digits_value_after 10 n digits.now }
{
    for digit in digits {
        if *digit != b'0' {
            return false;
        }
    }
    true
}

/// The next number, where this one is a multiple of five.
fn beside_fives(number: u64) -> u64
    requires { number < 10 ^ 18 }
    ensures { result ≡ off_fives number }
{
    if number % 5 == 0 { number + 1 } else { number }
}

/// The digits of a number that are kept: so many behind the point, and how many are cut behind them.
#[derive(Clone, Copy)]
struct Kept {
    number: u64,
    behind: u32,
    cut: u32,
    is_exact: bool,
}

/// The digits before the point and behind it that are kept.
fn kept_of(whole: &[u8], fraction: &[u8]) -> Option<Kept>
    requires whole { AllDigits 10 whole.now }
    requires fraction { AllDigits 10 fraction.now }
    ensures some { IfSome result (IsKept whole.now fraction.now) }
    ensures none { IfNone result (IsWide whole.now fraction.now) }
{
    let (number, rest) = append_some(0, whole);
    if !rest.is_empty() || fraction.len() > MAX_BEHIND {
        return None;
    }
    let (number, cut) = append_some(number, fraction);
    Some(Kept {
        number,
        behind: (fraction.len() - cut.len()) as u32,
        cut: cut.len() as u32,
        is_exact: are_zeros(cut),
    })
}

impl Kept {
    /// The number with so many digits behind the point.
    fn decimal(&self, negative: bool, digits: u32) -> LongDecimal
        requires { self.now.number < 10 ^ 18 }
        ensures sign { result.decimal.negative ≡ negative }
        ensures digits { result.decimal.digits ≡ digits }
        ensures exact { result.is_exact ≡ self.now.is_exact }
        ensures whole { self.now.is_exact ≡ true → result.decimal.magnitude ≡ self.now.number }
        ensures cut { self.now.is_exact ≡ false
            → result.decimal.magnitude ≡ off_fives self.now.number }
    {
        let magnitude = if self.is_exact {
            self.number
        } else {
            beside_fives(self.number)
        };
        LongDecimal {
            decimal: Decimal {
                negative,
                magnitude,
                digits,
            },
            is_exact: self.is_exact,
        }
    }
}

/// The number with these parts, if it is not too large.
fn long_value_of(written: &Written<'_>) -> Option<LongDecimal>
    requires whole { AllDigits 10 written.now.whole.now }
    requires fraction { AllDigits 10 written.now.fraction.now }
    requires power { AllDigits 10 written.now.power.now }
    ensures sign { IfSome result (λ d. d.decimal.negative ≡ written.now.negative) }
    ensures value { IfSome result (IsLongValue (parts_of written.now)) }
    ensures none { IfNone result (IsLarge (parts_of written.now)) }
{
    let power = append_digits(0, written.power)?;
    let kept = kept_of(written.whole, written.fraction)?;
    if power > MAX_DIGITS {
        return None;
    }
    let (negative, power) = (written.negative, power as u32);
    if written.lowers {
        return Some(kept.decimal(negative, kept.behind + power));
    }
    if power <= kept.behind {
        return Some(kept.decimal(negative, kept.behind - power));
    }
    if kept.cut > 0 {
        return None;
    }
    let magnitude = raise(kept.number, power - kept.behind)?;
    Some(LongDecimal {
        decimal: Decimal {
            negative,
            magnitude,
            digits: 0,
        },
        is_exact: true,
    })
}

impl Decimal {
    /// Reads a number as `parse` does, of any length. Where not all digits fit, it gives 18 of them,
    /// and not the number itself. It gives `Malformed` exactly where the text is no such number, and
    /// `TooLong` only where 18 digits or more are before the point, where the number is 10^17 or
    /// more, where more than 2^30 digits are behind the point, or where the power of ten is above
    /// 400 or below -400.
    pub fn parse_long(text: &[u8]) -> Result<LongDecimal, DecimalError>
        ensures ok { IfOk result (SpellsLong text.now) }
        ensures malformed { IsErrOf result Malformed ↔ SpellsNoNumber text.now }
        ensures too_long { IsErrOf result TooLong → SpellsLarge text.now }
    {
        let Some(written) = written_of(text) else {
            return Err(DecimalError::Malformed);
        };
        match long_value_of(&written) {
            Some(decimal) => Ok(decimal),
            None => Err(DecimalError::TooLong),
        }
    }
}
