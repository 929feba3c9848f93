//! Points that are asked about, on the scale of a drawing.
use crate::{Drawing, FileFault, Moves, Reason, Scaled, Spot};
use decimal_numbers::{Decimal, Scale};
use delaunay_core::point::Point2;
use std::alloc::Global;

/// Where a point that is asked about is.
#[derive(Clone, Copy)]
pub enum Asked {
    /// In the range of coordinates.
    Near(Point2<i32>),
    /// Outside it, so far from where coordinates have their 0.
    Far { x: i64, y: i64 },
    /// Further than is compared: 2^62 units of the last digit from 0.
    Beyond,
}

/// How far a number is from where coordinates have their 0, rounded to units of the scale.
fn moved(number: &Decimal, scale: &Scale) -> Option<i64> {
    match number.rounded_to(scale.digits).times_power(scale.digits) {
        Ok(units) => units.checked_sub(scale.origin),
        Err(_) => None,
    }
}

/// The coordinate that is so far from 0, if it is in range.
fn in_range(moved: i64) -> Option<i32> {
    let reach = 1i64 << 29;
    if -reach <= moved && moved <= reach {
        i32::try_from(moved).ok()
    } else {
        None
    }
}

/// Where a point is on the scale of a drawing.
fn asked_point(spot: &Spot, scaled: &Scaled) -> Asked {
    let x = moved(&spot.x.decimal, &scaled.x_scale);
    let y = moved(&spot.y.decimal, &scaled.y_scale);
    let (Some(x), Some(y)) = (x, y) else {
        return Asked::Beyond;
    };
    match (in_range(x), in_range(y)) {
        (Some(x), Some(y)) => Asked::Near(Point2::new(x, y)),
        _ => Asked::Far { x, y },
    }
}

/// What is wrong with a point that has more digits behind the point than the scale, if it has.
fn fine_fault(spot: &Spot, digits: u32) -> Option<FileFault> {
    let name = if spot.x.decimal.digits > digits {
        "x"
    } else if spot.y.decimal.digits > digits {
        "y"
    } else {
        return None;
    };
    Some(FileFault::at_line(spot.file_line(), Reason::TooFine(name, digits)))
}

/// Where points that are asked about are on the scale of a drawing. Numbers with more digits behind
/// the point are rounded, which is noted, or refused where they have to be exact.
pub fn asked_points(
    asked: &Drawing,
    scaled: &Scaled,
    is_exact: bool,
    moves: &mut Moves,
    alloc: Global,
) -> Result<Vec<Asked>, FileFault> {
    let digits = scaled.x_scale.digits;
    let finest = asked.texts.finest;
    let mut points = Vec::with_capacity(alloc, asked.spots.len())?;
    for spot in &asked.spots {
        if is_exact && let Some(fault) = fine_fault(spot, digits) {
            return Err(fault);
        }
        moves.note(&spot.x.decimal, digits, finest);
        moves.note(&spot.y.decimal, digits, finest);
        points.push(asked_point(spot, scaled))?;
    }
    Ok(points)
}
