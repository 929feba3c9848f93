//! The whole-number point nearest to where two segments cross.

use delaunay_core::point::Point2;

// The way from one coordinate to another.
fn way(from: i64, to: i64) -> Option<i128> {
    i128::from(to).checked_sub(i128::from(from))
}

// Twice the signed area of a triangle, positive where it turns left; none past 128 bits.
fn turn(a: Point2<i64>, b: Point2<i64>, c: Point2<i64>) -> Option<i128> {
    let (x, y) = (way(a.x, b.x)?, way(a.y, b.y)?);
    let (u, v) = (way(a.x, c.x)?, way(a.y, c.y)?);
    x.checked_mul(v)?.checked_sub(y.checked_mul(u)?)
}

// The whole number nearest to what divides the way between two coordinates as a part does a whole.
fn divided(from: i64, to: i64, part: i128, whole: i128) -> Option<i64> {
    let twice = way(from, to)?.checked_mul(part)?.checked_mul(2)?;
    let step = twice
        .checked_add(whole)?
        .checked_div_euclid(whole.checked_mul(2)?)?;
    i64::try_from(i128::from(from).checked_add(step)?).ok()
}

/// The whole-number point nearest to where a segment crosses another, that from `start` to `end`.
/// There is one wherever the segments cross and their points are in range.
pub(crate) fn crossing(
    from: Point2<i64>,
    to: Point2<i64>,
    start: Point2<i64>,
    end: Point2<i64>,
) -> Option<Point2<i64>> {
    let part = turn(start, end, from)?;
    let whole = part.checked_sub(turn(start, end, to)?)?;
    let (part, whole) = if whole < 0 {
        (part.checked_neg()?, whole.checked_neg()?)
    } else {
        (part, whole)
    };
    let x = divided(from.x, to.x, part, whole)?;
    Some(Point2::new(x, divided(from.y, to.y, part, whole)?))
}
