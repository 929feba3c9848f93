//! Which segment of a drawing is in the way of another.
use crate::areas::turned_area;
use delaunay_core::math::validate_vertex;
use delaunay_core::point::Point2;
use delaunay_interface::Triangulation;
use delaunay_location::PositionInTriangulation;
use exact_predicates::ExactTests;
use mesh_io::Scene;

/// The ends of a segment.
#[derive(Clone, Copy)]
struct SegmentEnds {
    from: Point2<i32>,
    to: Point2<i32>,
}

/// The ends of a drawing's segment, by its index in the list.
fn segment_ends(scene: &Scene, index: usize) -> Option<SegmentEnds> {
    let segment = scene.drawing.segments.get(index)?;
    Some(SegmentEnds {
        from: *scene.scaled.points.get(segment.from as usize)?,
        to: *scene.scaled.points.get(segment.to as usize)?,
    })
}

/// Whether the ends of one segment are on two sides of the other's line.
fn are_parted(ends: SegmentEnds, by: SegmentEnds) -> bool {
    let from = turned_area(by.from, by.to, ends.from);
    let to = turned_area(by.from, by.to, ends.to);
    (from < 0 && 0 < to) || (to < 0 && 0 < from)
}

/// The coordinate at a part of the way from one to another, if it is whole.
fn exact_part(from: i32, to: i32, part: i64, whole: i64) -> Option<i32> {
    let way = i128::from(to).wrapping_sub(i128::from(from));
    let product = way.wrapping_mul(i128::from(part));
    if product.checked_rem(i128::from(whole))? != 0 {
        return None;
    }
    let moved = product.checked_div(i128::from(whole))?;
    i32::try_from(moved.wrapping_add(i128::from(from))).ok()
}

/// Where two segments meet that cross, if the coordinates are whole.
fn meeting_point(one: SegmentEnds, two: SegmentEnds) -> Option<Point2<i32>> {
    let before = turned_area(two.from, two.to, one.from);
    let behind = turned_area(two.from, two.to, one.to);
    let whole = before.wrapping_sub(behind);
    let x = exact_part(one.from.x, one.to.x, before, whole)?;
    let y = exact_part(one.from.y, one.to.y, before, whole)?;
    Some(Point2::new(x, y))
}

/// The coordinate nearest to that at a part of the way from one to another.
fn nearest_part(from: i32, to: i32, part: i64, whole: i64) -> Option<i32> {
    let way = i128::from(to).wrapping_sub(i128::from(from));
    let whole = i128::from(whole);
    let twice = way.wrapping_mul(i128::from(part)).wrapping_mul(2);
    let moved = twice
        .wrapping_add(whole)
        .checked_div_euclid(whole.wrapping_mul(2))?;
    i32::try_from(moved.wrapping_add(i128::from(from))).ok()
}

/// The whole coordinates nearest to where two segments of a drawing cross, by their indexes.
pub fn crossing_point(scene: &Scene, index: usize, other: usize) -> Option<Point2<i32>> {
    let (one, two) = (segment_ends(scene, index)?, segment_ends(scene, other)?);
    let before = turned_area(two.from, two.to, one.from);
    let behind = turned_area(two.from, two.to, one.to);
    let (part, whole) = if before < behind {
        (before.wrapping_neg(), behind.wrapping_sub(before))
    } else {
        (before, before.wrapping_sub(behind))
    };
    let x = nearest_part(one.from.x, one.to.x, part, whole)?;
    Some(Point2::new(x, nearest_part(one.from.y, one.to.y, part, whole)?))
}

/// Whether two segments that cross meet in a point of the drawing, where both are cut.
fn meet_in_vertex<T: Triangulation<Vertex = Point2<i32>>>(
    triangulation: &T,
    one: SegmentEnds,
    two: SegmentEnds,
) -> bool {
    triangulation.recall_invariant();
    let Some(point) = meeting_point(one, two) else {
        return false;
    };
    if validate_vertex(&point).is_err() {
        return false;
    }
    matches!(
        triangulation.locate(point, &ExactTests),
        PositionInTriangulation::OnVertex(_)
    )
}

/// Whether one segment is in the way of another: they cross where no point of the drawing is.
fn is_in_way<T: Triangulation<Vertex = Point2<i32>>>(
    triangulation: &T,
    one: SegmentEnds,
    two: SegmentEnds,
) -> bool {
    are_parted(one, two) && are_parted(two, one) && !meet_in_vertex(triangulation, one, two)
}

/// The index of the first segment that was added and is in the way of a later one.
pub fn first_crossed<T: Triangulation<Vertex = Point2<i32>>>(
    scene: &Scene,
    triangulation: &T,
    added: &[bool],
    index: usize,
) -> Option<usize> {
    let ends = segment_ends(scene, index)?;
    for i in 0..index {
        if !added.get(i).copied().unwrap_or(false) {
            continue;
        }
        if is_in_way(triangulation, ends, segment_ends(scene, i)?) {
            return Some(i);
        }
    }
    None
}
