//! Decimals of more digits than fit 64 bits: squares, and roots of squares.
use std::alloc::AllocError;

/// The root of a square, in thousandths, to the nearest.
pub fn thousandths_of_root(square: u128) -> u128 {
    let root = square.isqrt();
    let rest = square.wrapping_sub(root.wrapping_mul(root));
    if root < 1 << 40 {
        return nearest_root(square.wrapping_mul(1_000_000));
    }
    // ((1000 root + more)^2 is to be at most 1000^2 square
    let wanted = rest.wrapping_mul(1_000_000);
    let mut more = rest.wrapping_mul(500) / root;
    if passed_by(root, more) > wanted {
        more = more.wrapping_sub(1);
    }
    let thousandths = root.wrapping_mul(1000).wrapping_add(more);
    let rounds_up = passed_by(root, more).wrapping_add(thousandths) < wanted;
    thousandths.wrapping_add(u128::from(rounds_up))
}

/// By how much (1000 `root` + `more`)^2 is more than (1000 `root`)^2.
fn passed_by(root: u128, more: u128) -> u128 {
    root.wrapping_mul(2000)
        .wrapping_add(more)
        .wrapping_mul(more)
}

/// The root of a number, to the nearest.
fn nearest_root(number: u128) -> u128 {
    let root = number.isqrt();
    let rounds_up = root.wrapping_mul(root).wrapping_add(root) < number;
    root.wrapping_add(u128::from(rounds_up))
}

/// Puts the number `magnitude` / 10^`digits` behind a line, with no zeros at its end.
pub fn push_wide(line: &mut String, magnitude: u128, digits: u32) -> Result<(), AllocError> {
    let (mut magnitude, mut digits) = (magnitude, digits as usize);
    for _ in 0..digits {
        if magnitude % 10 != 0 {
            break;
        }
        magnitude /= 10;
        digits = digits.saturating_sub(1);
    }
    let mut all = String::new(*line.allocator());
    write!(all, "{magnitude}")?;
    if digits == 0 {
        return line.push_str(all.as_str());
    }
    if all.len() <= digits {
        line.push_str("0.")?;
        for _ in all.len()..digits {
            line.push('0')?;
        }
        return line.push_str(all.as_str());
    }
    let Some((whole, fraction)) = all.split_at_checked(all.len().saturating_sub(digits)) else {
        return Ok(());
    };
    line.push_str(whole)?;
    line.push('.')?;
    line.push_str(fraction)
}
