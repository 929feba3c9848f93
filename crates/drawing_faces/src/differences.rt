//! Lists of numbers, and which of two has a number.
ghost use Rattle.std.specs.Prelude.{◌≡◌, ◌≢◌, ℕ, true, IfOk, OnOk, IfNone, IfSome};
ghost use Rattle.drawing_faces.specs.Parity.{either, has, IsDifference, or_only_first};

use std::alloc::{AllocError, Global};

// Adds those of some numbers that are not among others.
fn push_missing(these: &[u32], those: &[u32], list: &mut Vec<u32>) -> Result<(), AllocError>
    ensures { OnOk result ((k : ℕ) → has list.new.items k ≡
        or_only_first (has list.old.items k) (has these.now k) (has those.now k)) }
{
    for number in these {
        if !those.contains(number) {
            list.push(*number)?;
        }
    }
    Ok(())
}

/// The numbers that are in one of two lists, and not in both.
pub(crate) fn difference(one: &[u32], other: &[u32], alloc: Global) -> Result<Vec<u32>, AllocError>
    ensures { IfOk result (λ list. IsDifference one.now other.now list.items) }
{
    let mut list = Vec::new(alloc);
    push_missing(one, other, &mut list)?;
    push_missing(other, one, &mut list)?;
    Ok(list)
}

// Whether just one of two lists has a number, or both or none have.
fn is_among_one(number: u32, one: &[u32], other: &[u32]) -> bool
    ensures { result ≡ either (has one.now number) (has other.now number) }
{
    one.contains(&number) != other.contains(&number)
}

// The first of some numbers by which a list is not what is in one of two others.
fn first_fault(numbers: &[u32], one: &[u32], other: &[u32], list: &[u32]) -> Option<u32>
    ensures fault { IfSome result (λ k. has list.now k ≢ either (has one.now k) (has other.now k)) }
    ensures none { IfNone result ((k : ℕ) → has numbers.now k ≡ true
        → has list.now k ≡ either (has one.now k) (has other.now k)) }
{
    for number in numbers {
        if list.contains(number) != is_among_one(*number, one, other) {
            return Some(*number);
        }
    }
    None
}

/// A number by which a list has not the numbers that are in one of two others and not in both.
pub(crate) fn fault_of(one: &[u32], other: &[u32], list: &[u32]) -> Option<u32>
    ensures fault { IfSome result (λ k. has list.now k ≢ either (has one.now k) (has other.now k)) }
    ensures none { IfNone result (IsDifference one.now other.now list.now) }
{
    if let Some(number) = first_fault(one, one, other, list) {
        return Some(number);
    }
    if let Some(number) = first_fault(other, one, other, list) {
        return Some(number);
    }
    first_fault(list, one, other, list)
}
