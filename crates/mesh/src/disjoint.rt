//! Segments of one line that overlap, as segments that do not.
use delaunay_core::point::Point2;
use drawing_faces::DrawnSegment;
use std::alloc::{AllocError, Global};

/// A segment on its line: the direction of the line in least numbers, how far the line is from 0,
/// and how far on the line both ends are. The one that goes further comes first of those that begin
/// together, and then the one that comes first in its list.
#[derive(Clone, Copy, PartialEq, Eq, PartialOrd, Ord)]
struct OnLine {
    dx: i64,
    dy: i64,
    offset: i64,
    from: i64,
    /// How far the end is, below 0 where it is far.
    back: i64,
    segment: usize,
    from_index: u32,
    to_index: u32,
}

impl OnLine {
    /// Whether two segments are on one line.
    fn is_along(&self, other: &OnLine) -> bool {
        self.dx == other.dx && self.dy == other.dy && self.offset == other.offset
    }
}

/// The greatest common divisor of two numbers.
fn common_divisor(first: u64, second: u64) -> u64 {
    let (mut first, mut second) = (first, second);
    // each two steps at least halve the numbers
    for _ in 0..130 {
        let Some(rest) = first.checked_rem(second) else {
            break;
        };
        first = second;
        second = rest;
    }
    first
}

/// A segment on its line; none where its ends are at one position.
fn on_line(points: &[Point2<i32>], segment: usize, ends: DrawnSegment) -> Option<OnLine> {
    let start = points.get(ends.from as usize)?;
    let end = points.get(ends.to as usize)?;
    let is_turned = (end.x, end.y) < (start.x, start.y);
    let (low, high) = if is_turned {
        (end, start)
    } else {
        (start, end)
    };
    let (x, y) = (i64::from(low.x), i64::from(low.y));
    let (far_x, far_y) = (i64::from(high.x), i64::from(high.y));
    let (dx, dy) = (far_x.wrapping_sub(x), far_y.wrapping_sub(y));
    let divisor = common_divisor(dx.unsigned_abs(), dy.unsigned_abs());
    let divisor = i64::try_from(divisor).ok()?;
    let (dx, dy) = (dx.checked_div(divisor)?, dy.checked_div(divisor)?);
    let far = dx.wrapping_mul(far_x).wrapping_add(dy.wrapping_mul(far_y));
    Some(OnLine {
        dx,
        dy,
        offset: dx.wrapping_mul(y).wrapping_sub(dy.wrapping_mul(x)),
        from: dx.wrapping_mul(x).wrapping_add(dy.wrapping_mul(y)),
        back: far.wrapping_neg(),
        segment,
        from_index: if is_turned { ends.to } else { ends.from },
        to_index: if is_turned { ends.from } else { ends.to },
    })
}

/// The segments on their lines, in order.
fn in_order(
    points: &[Point2<i32>],
    segments: &[DrawnSegment],
    alloc: Global,
) -> Result<Vec<OnLine>, AllocError> {
    let mut ordered = Vec::with_capacity(alloc, segments.len())?;
    for (index, segment) in segments.iter().enumerate() {
        if let Some(segment) = on_line(points, index, *segment) {
            ordered.push(segment)?;
        }
    }
    ordered.sort()?;
    Ok(ordered)
}

/// What of a segment is left: all, nothing, or the part behind a point.
#[derive(Clone, Copy)]
enum Left {
    All,
    Nothing,
    Behind(DrawnSegment),
}

/// What of a segment is left without the last that was left before it on its line: all where that
/// is the same segment, which costs no more than it does.
fn part_of(segment: &OnLine, last: &OnLine) -> Left {
    let is_same = last.from == segment.from && last.back == segment.back;
    if !last.is_along(segment) || is_same || last.back.wrapping_neg() <= segment.from {
        Left::All
    } else if last.back <= segment.back {
        Left::Nothing
    } else {
        Left::Behind(DrawnSegment {
            from: last.to_index,
            to: segment.to_index,
        })
    }
}

/// What of each segment is left without those before it in order.
fn left_of(segments: usize, ordered: &[OnLine], alloc: Global) -> Result<Vec<Left>, AllocError> {
    let mut left = Vec::from_elem(alloc, Left::All, segments)?;
    let mut last: Option<OnLine> = None;
    for segment in ordered {
        let part = match &last {
            Some(last) => part_of(segment, last),
            None => Left::All,
        };
        if !matches!(part, Left::Nothing) {
            last = Some(*segment);
        }
        if let Some(entry) = left.get_mut(segment.segment) {
            *entry = part;
        }
    }
    Ok(left)
}

/// Segments that cover what others cover, in the order of these, of which no two overlap but
/// equal ones. It gives none where the segments are such already.
pub fn disjoint_segments(
    points: &[Point2<i32>],
    segments: &[DrawnSegment],
    alloc: Global,
) -> Result<Option<Vec<DrawnSegment>>, AllocError> {
    let ordered = in_order(points, segments, alloc)?;
    let left = left_of(segments.len(), ordered.as_slice(), alloc)?;
    if left.iter().all(|part| matches!(part, Left::All)) {
        return Ok(None);
    }
    let mut disjoint = Vec::new(alloc);
    for (segment, part) in segments.iter().zip(&left) {
        match part {
            Left::All => disjoint.push(*segment)?,
            Left::Behind(behind) => disjoint.push(*behind)?,
            Left::Nothing => {}
        }
    }
    Ok(Some(disjoint))
}
