//! Lengths, by which a search chooses where it goes on. No answer rests on them.
use delaunay_core::point::{Point2, SpadeNum};

// About the root of a number, by three steps of Newton's method from a power of two: at most three
// parts in ten thousand more.
fn root(number: u64) -> u64 {
    let bits = 64 - number.leading_zeros();
    let mut root: u64 = 1 << (bits + 1) / 2;
    for _ in 0..3 {
        root = root.saturating_add(number / root.max(1)) / 2;
    }
    root
}

/// About 256 times the distance of two points.
pub(crate) fn distance<S: SpadeNum>(from: Point2<S>, to: Point2<S>) -> u64 {
    let x = to.x.to_i64().saturating_sub(from.x.to_i64()).unsigned_abs();
    let y = to.y.to_i64().saturating_sub(from.y.to_i64()).unsigned_abs();
    let square = x.saturating_mul(x).saturating_add(y.saturating_mul(y));
    if square < 1 << 48 {
        root(square << 16)
    } else {
        root(square).saturating_mul(256)
    }
}
