//! The sides of the rings round holes.
use crate::{Drawing, Ring};
use delaunay_core::point::Point2;
use std::alloc::{AllocError, Global};

/// A side of a ring, or a part of one: the direction of its line in least numbers, how far the line
/// is from 0, and of both ends how far on the line they are, and the indexes of their points.
#[derive(Clone, Copy, PartialEq, Eq, PartialOrd, Ord)]
struct RingSide {
    dx: i64,
    dy: i64,
    offset: i64,
    from: i64,
    from_index: u32,
    to: i64,
    to_index: u32,
}

impl RingSide {
    /// Whether two sides are on one line, and go the same way.
    fn is_along(&self, other: &RingSide) -> bool {
        self.dx == other.dx && self.dy == other.dy && self.offset == other.offset
    }
}

/// The greatest common divisor of two numbers.
fn common_divisor(first: u64, second: u64) -> u64 {
    if second == 0 {
        return first;
    }
    common_divisor(second, first % second)
}

/// The side between two points; none where they are at one position.
fn side_between(points: &[Point2<i32>], from_index: u32, to_index: u32) -> Option<RingSide> {
    let start = points.get(from_index as usize)?;
    let end = points.get(to_index as usize)?;
    let (x, y) = (i64::from(start.x), i64::from(start.y));
    let (end_x, end_y) = (i64::from(end.x), i64::from(end.y));
    let (dx, dy) = (end_x.wrapping_sub(x), end_y.wrapping_sub(y));
    let divisor = common_divisor(dx.unsigned_abs(), dy.unsigned_abs());
    let divisor = i64::try_from(divisor).ok()?;
    let (dx, dy) = (dx.checked_div(divisor)?, dy.checked_div(divisor)?);
    Some(RingSide {
        dx,
        dy,
        offset: dx.wrapping_mul(y).wrapping_sub(dy.wrapping_mul(x)),
        from: dx.wrapping_mul(x).wrapping_add(dy.wrapping_mul(y)),
        from_index,
        to: dx.wrapping_mul(end_x).wrapping_add(dy.wrapping_mul(end_y)),
        to_index,
    })
}

/// Twice the area within points that go round against the clock; with it, below 0.
fn area_within(points: &[Point2<i32>]) -> i128 {
    let mut area = 0i128;
    let Some(last) = points.last() else {
        return area;
    };
    let (mut x, mut y) = (i128::from(last.x), i128::from(last.y));
    for point in points {
        let (next_x, next_y) = (i128::from(point.x), i128::from(point.y));
        area = area
            .wrapping_add(x.wrapping_mul(next_y))
            .wrapping_sub(next_x.wrapping_mul(y));
        x = next_x;
        y = next_y;
    }
    area
}

/// Adds the sides of a ring, each with what is within on its left, or what is not; none of a ring
/// without an area.
fn add_sides(
    ring: &Ring,
    is_within: bool,
    points: &[Point2<i32>],
    sides: &mut Vec<RingSide>,
) -> Result<(), AllocError> {
    let corners = points
        .get(ring.start as usize..ring.end as usize)
        .unwrap_or(&[]);
    let area = area_within(corners);
    if area == 0 {
        return Ok(());
    }
    let goes_on = (area > 0) == is_within;
    let mut last = ring.end.saturating_sub(1);
    for next in ring.start..ring.end {
        let (from, to) = if goes_on { (last, next) } else { (next, last) };
        if let Some(side) = side_between(points, from, to) {
            sides.push(side)?;
        }
        last = next;
    }
    Ok(())
}

/// The sides of all rings, each with its polygon on the left, in order.
fn polygon_sides(
    rings: &[Ring],
    points: &[Point2<i32>],
    alloc: Global,
) -> Result<Vec<RingSide>, AllocError> {
    let mut sides = Vec::new(alloc);
    for ring in rings {
        add_sides(ring, !ring.is_hole, points, &mut sides)?;
    }
    sides.sort()?;
    Ok(sides)
}

/// The first index in a list in order at which a side on this one's line may stand.
fn first_on(side: &RingSide, sides: &[RingSide]) -> usize {
    let mut least = *side;
    least.from = i64::MIN;
    least.from_index = 0;
    least.to = i64::MIN;
    least.to_index = 0;
    match sides.binary_search(&least) {
        Ok(first) | Err(first) => first,
    }
}

/// Adds the parts of a side along which no side of a list in order goes, by the indexes of their
/// ends.
fn add_open(
    side: &RingSide,
    sides: &[RingSide],
    open: &mut Vec<[u32; 2]>,
) -> Result<(), AllocError> {
    let (mut from, mut index) = (side.from, side.from_index);
    let others = sides.get(first_on(side, sides)..).unwrap_or(&[]);
    for other in others {
        if !other.is_along(side) || other.from >= side.to {
            break;
        }
        if from < other.from {
            open.push([index, other.from_index])?;
        }
        if from < other.to {
            from = other.to;
            index = other.to_index;
        }
    }
    if from < side.to {
        open.push([index, side.to_index])?;
    }
    Ok(())
}

/// The sides of rings round holes, by the indexes of their ends, with the hole on the left. Parts
/// are left out that have another polygon there: it fills the hole.
pub fn hole_sides(
    drawing: &Drawing,
    points: &[Point2<i32>],
    alloc: Global,
) -> Result<Vec<[u32; 2]>, AllocError> {
    let mut open = Vec::new(alloc);
    let rings = drawing.rings.as_slice();
    if !rings.iter().any(|ring| ring.is_hole) {
        return Ok(open);
    }
    let polygons = polygon_sides(rings, points, alloc)?;
    let mut sides = Vec::new(alloc);
    for ring in rings {
        if ring.is_hole {
            add_sides(ring, true, points, &mut sides)?;
        }
    }
    for side in &sides {
        add_open(side, polygons.as_slice(), &mut open)?;
    }
    Ok(open)
}
