//! Heights between those of points.
use decimal_numbers::Decimal;
use mesh_files::Drawing;

/// A point with its weight among others.
#[derive(Clone, Copy)]
pub struct Weighed {
    pub index: u32,
    pub weight: i64,
}

/// A quotient in thousandths, to the nearest.
fn thousandths(number: u128, by: u128) -> Option<u64> {
    if by == 0 {
        return None;
    }
    let rest = (number % by).wrapping_mul(1000).wrapping_add(by / 2) / by;
    u64::try_from((number / by).checked_mul(1000)?.checked_add(rest)?).ok()
}

/// The height of the point at an index, if it has one.
pub fn height_at(drawing: &Drawing, index: u32) -> Option<Decimal> {
    Some(drawing.height(index as usize)?.decimal)
}

/// The most digits behind the point of the heights of points.
fn height_digits(drawing: &Drawing, points: &[Weighed]) -> Option<u32> {
    let mut digits = 0;
    for point in points {
        digits = digits.max(height_at(drawing, point.index)?.digits);
    }
    Some(digits)
}

/// The mean height of points by their weights, rounded to three digits more than the heights have,
/// if there are heights and the mean fits.
pub fn height_of(drawing: &Drawing, points: &[Weighed]) -> Option<Decimal> {
    let digits = height_digits(drawing, points)?;
    let (mut sum, mut weights) = (0i128, 0i128);
    for point in points {
        let units = height_at(drawing, point.index)?.times_power(digits).ok()?;
        let weight = i128::from(point.weight);
        sum = sum.wrapping_add(i128::from(units).wrapping_mul(weight));
        weights = weights.wrapping_add(weight);
    }
    let magnitude = thousandths(sum.unsigned_abs(), weights.unsigned_abs())?;
    let height = Decimal {
        negative: sum < 0 && magnitude > 0,
        magnitude,
        digits: digits.checked_add(3)?,
    };
    Some(height.shortened())
}
