//! Areas and scalar products of points, in whole numbers.
use delaunay_core::point::Point2;

/// How far it is from one coordinate to another.
fn difference(from: i32, to: i32) -> i64 {
    i64::from(to).wrapping_sub(i64::from(from))
}

/// Twice the area of a triangle, below 0 where it turns right. Coordinates are in range.
pub fn turned_area(a: Point2<i32>, b: Point2<i32>, c: Point2<i32>) -> i64 {
    let (bx, by) = (difference(a.x, b.x), difference(a.y, b.y));
    let (cx, cy) = (difference(a.x, c.x), difference(a.y, c.y));
    bx.wrapping_mul(cy).wrapping_sub(by.wrapping_mul(cx))
}

/// The scalar product of the vectors from a point to two others. Coordinates are in range.
pub fn scalar_product(a: Point2<i32>, b: Point2<i32>, c: Point2<i32>) -> i64 {
    let (bx, by) = (difference(a.x, b.x), difference(a.y, b.y));
    let (cx, cy) = (difference(a.x, c.x), difference(a.y, c.y));
    bx.wrapping_mul(cx).wrapping_add(by.wrapping_mul(cy))
}
