//! The parts of a number as it is written.
ghost use Rattle.std.specs.Prelude.{◌≡◌, ◌++◌, IfSome, IfNone};
ghost use Rattle.std.specs.Str.Parse.{AllDigits};
ghost use Rattle.decimal_numbers.specs.Grammar.{IsPower, SpellsInteger, SpellsNoNumber};
ghost use Rattle.decimal_numbers.specs.Grammar.{SpellsNumber};
ghost use Rattle.decimal_numbers.specs.Reading.{IsNoInteger, IsNoPower, NoDigitFirst, parts_of};
ghost use Rattle.decimal_numbers.specs.Reading.{TakenSign, TakesPoint};

/// A number as it is written: digits before and behind the point, and those of the power of ten.
#[derive(Clone, Copy)]
pub(crate) struct Written<'a> {
    pub(crate) negative: bool,
    pub(crate) whole: &'a [u8],
    pub(crate) fraction: &'a [u8],
    pub(crate) lowers: bool,
    pub(crate) power: &'a [u8],
}

/// The digits that a text begins with, and what stands behind them.
fn split_digits(text: &[u8]) -> (&[u8], &[u8])
    ensures split { text.now ≡ result.0.now ++ result.1.now }
    ensures digits { AllDigits 10 result.0.now }
    ensures ended { NoDigitFirst result.1.now }
{
    for (i, byte) in text.iter().enumerate() {
        if !byte.is_ascii_digit() {
            return (&text[..i], &text[i..]);
        }
    }
    (text, &[])
}

/// Whether a text begins with a minus, and what stands behind its sign.
fn split_sign(text: &[u8]) -> (bool, &[u8])
    ensures { TakenSign text.now result.0 result.1.now }
{
    match text {
        [b'-', rest @ ..] => (true, rest),
        [b'+', rest @ ..] => (false, rest),
        _ => (false, text),
    }
}

/// The digits behind a point, if a text begins with one, and what stands behind them.
fn split_point(text: &[u8]) -> (&[u8], &[u8])
    ensures { TakesPoint text.now result.0.now result.1.now }
{
    match text {
        [b'.', rest @ ..] => split_digits(rest),
        _ => (&[], text),
    }
}

/// Whether a whole number has a minus, and its digits, if the text is one.
fn integer_of(text: &[u8]) -> Option<(bool, &[u8])>
    ensures found { IfSome result (λ r. SpellsInteger text.now r.0 r.1.now) }
    ensures none { IfNone result (IsNoInteger text.now) }
{
    let (negative, unsigned) = split_sign(text);
    let (digits, behind) = split_digits(unsigned);
    if digits.is_empty() {
        return None;
    }
    if !behind.is_empty() {
        return None;
    }
    Some((negative, digits))
}

/// Whether a power of ten has a minus, and its digits, if the text is empty or one.
fn power_of(text: &[u8]) -> Option<(bool, &[u8])>
    ensures found { IfSome result (λ r. IsPower text.now r.0 r.1.now) }
    ensures none { IfNone result (IsNoPower text.now) }
{
    match text {
        [] => Some((false, &[])),
        [b'e' | b'E', rest @ ..] => integer_of(rest),
        _ => None,
    }
}

/// The parts of a number, if the text is one.
pub(crate) fn written_of(text: &[u8]) -> Option<Written<'_>>
    ensures found { IfSome result (λ w. SpellsNumber text.now (parts_of w)) }
    ensures none { IfNone result (SpellsNoNumber text.now) }
{
    let (negative, unsigned) = split_sign(text);
    let (whole, behind) = split_digits(unsigned);
    let (fraction, behind) = split_point(behind);
    if whole.is_empty() && fraction.is_empty() {
        return None;
    }
    let (lowers, power) = power_of(behind)?;
    Some(Written {
        negative,
        whole,
        fraction,
        lowers,
        power,
    })
}
