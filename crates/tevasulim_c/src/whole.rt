//! Points and segments in, faces out.
ghost use Rattle.std.specs.Prelude.{◌≡◌, ◌↔◌, ◌*◌, ◌<◌, ◌≤◌, length, map, slice_index};
ghost use Rattle.std.specs.Prelude.{IfErr, IfOk, IsTrue, MatchOption};
ghost use Rattle.drawing_faces.specs.{OutOfMemory};
ghost use Rattle.c_calls.specs.{Answered, IsRawInRange};
ghost use Rattle.tevasulim_c.specs.Whole.{AreDrawn, drawn_point, drawn_segment, DrawsFaces};
ghost use Rattle.tevasulim_c.specs.Whole.{EndsAtPoints, FirstAre, IsFirstNot, IsNamedOf};
ghost use Rattle.tevasulim_c.specs.Whole.{ListsNamedFaces, MayDraw, named_face, Triangulates};

use c_calls::statuses::{CROSSING, NO_SUCH_POINT, OUT_OF_INDEXES, OUT_OF_MEMORY, TOO_LARGE, WELL};
use c_calls::{RawFace, RawPoint, RawSegment, is_in_range, write_faces};
use delaunay_core::point::Point2;
use drawing_faces::{DrawingError, DrawnMesh, DrawnSegment, Kept, triangulate_drawing};
use half_edge_links::MAX_ELEMENTS;
use std::alloc::{AllocError, Global};

// The index of the first point that is out of range, if there is one.
fn first_outside(points: &[RawPoint]) -> Option<usize>
    ensures { MatchOption result (FirstAre IsRawInRange points.now (length points.now))
        (IsFirstNot IsRawInRange points.now) }
{
    for index in 0..points.len() {
        if !is_in_range(&points[index]) {
            return Some(index);
        }
    }
    None
}

// Whether a segment ends at points of a list of so many.
fn ends_at_points(segment: &RawSegment, count: usize) -> bool
    ensures { IsTrue result ↔ EndsAtPoints count segment.now }
{
    (segment.from as usize) < count && (segment.to as usize) < count
}

// How many segments there are before the first that names no point, if there is one, and else in
// all.
fn known_segments(segments: &[RawSegment], count: usize) -> usize
    ensures within { result ≤ length segments.now }
    ensures known { FirstAre (EndsAtPoints count) segments.now result }
    ensures next { result < length segments.now
        → IsFirstNot (EndsAtPoints count) segments.now result }
{
    for index in 0..segments.len() {
        if !ends_at_points(&segments[index], count) {
            return index;
        }
    }
    segments.len()
}

// The index of the first segment that was not added, if there is one.
fn first_left_out(added: &[bool]) -> Option<usize>
    ensures { MatchOption result (FirstAre IsTrue added.now (length added.now))
        (IsFirstNot IsTrue added.now) }
{
    for index in 0..added.len() {
        if !added[index] {
            return Some(index);
        }
    }
    None
}

// The points of a drawing.
fn drawn_points(points: &[RawPoint], alloc: Global) -> Result<Vec<Point2<i32>>, AllocError>
    ensures { IfOk result (λ drawn. drawn.items ≡ map drawn_point points.now) }
{
    points
        .iter()
        .map(|point| Point2 {
            x: point.x,
            y: point.y,
        })
        .collect(alloc)
}

// The segments of a drawing.
fn drawn_segments(segments: &[RawSegment], alloc: Global) -> Result<Vec<DrawnSegment>, AllocError>
    ensures { IfOk result (λ drawn. drawn.items ≡ map drawn_segment segments.now) }
{
    segments
        .iter()
        .map(|segment| DrawnSegment {
            from: segment.from,
            to: segment.to,
        })
        .collect(alloc)
}

// The drawing of points and segments between them, where nothing is refused but memory.
fn drawn_mesh(
    points: &[RawPoint],
    segments: &[RawSegment],
    alloc: Global,
) -> Result<DrawnMesh, DrawingError>
    requires may { MayDraw points.now }
    requires ends { FirstAre (EndsAtPoints (length points.now)) segments.now
        (length segments.now) }
    ensures draws { IfOk result (AreDrawn points.now segments.now) }
    ensures memory { IfErr result (λ error. error ≡ OutOfMemory) }
{
    let points = drawn_points(points, alloc)?;
    let segments = drawn_segments(segments, alloc)?;
    triangulate_drawing(
        points.as_slice(),
        segments.as_slice(),
        &[],
        &[],
        Kept::All,
        alloc,
    )
}

// The name of a vertex.
fn vertex_name(names: &[u32], vertex: u32) -> u32
    ensures { result ≡ slice_index names.now vertex }
{
    names.get(vertex as usize).copied().unwrap_or(0)
}

// A face with the names of its corners in place of these.
fn named_face(names: &[u32], face: RawFace) -> RawFace
    ensures { result ≡ named_face names.now face }
{
    RawFace {
        corner_0: vertex_name(names, face.corner_0),
        corner_1: vertex_name(names, face.corner_1),
        corner_2: vertex_name(names, face.corner_2),
        ..face
    }
}

// Puts names in place of the corners of the first faces of a list.
fn name_corners_of(faces: &mut [RawFace], count: usize, names: &[u32])
    requires { count ≤ length faces.old }
    ensures { Answered (IsNamedOf names.now faces.old) count faces.old faces.new }
{
    for index in 0..count {
        faces[index] = named_face(names, faces[index]);
    }
}

// Writes the faces of a drawing, if there is room, with their corners by the first points there.
fn write_drawn(drawn: &DrawnMesh, faces: &mut [RawFace], length: &mut usize) -> u32
    ensures { ListsNamedFaces drawn.now result length.new faces.old faces.new }
{
    let status = write_faces(&drawn.triangulation, faces, length);
    if status != WELL {
        return status;
    }
    name_corners_of(faces, *length, drawn.vertices.as_slice());
    WELL
}

// Whether so many points are too many for indexes.
fn are_too_many(count: usize) -> bool
    ensures { IsTrue result ↔ (MAX_ELEMENTS < 6 * count) }
{
    count > MAX_ELEMENTS / 6
}

// Writes the faces of the constrained triangulation of points and segments, if there is room.
fn draw(
    points: &[RawPoint],
    segments: &[RawSegment],
    faces: &mut [RawFace],
    length: &mut usize,
    at: &mut usize,
    alloc: Global,
) -> u32
    requires { MayDraw points.now }
    ensures { DrawsFaces points.now segments.now result at.new length.old length.new faces.old
        faces.new }
{
    let known = known_segments(segments, points.len());
    let Ok(drawn) = drawn_mesh(points, &segments[..known], alloc) else {
        return OUT_OF_MEMORY;
    };
    if let Some(index) = first_left_out(drawn.added.as_slice()) {
        *at = index;
        return CROSSING;
    }
    if known < segments.len() {
        *at = known;
        return NO_SUCH_POINT;
    }
    write_drawn(&drawn, faces, length)
}

/// Writes the faces of the constrained triangulation of points and segments, if there is room.
pub fn triangulate(
    points: &[RawPoint],
    segments: &[RawSegment],
    faces: &mut [RawFace],
    length: &mut usize,
    at: &mut usize,
    alloc: Global,
) -> u32
    ensures { Triangulates points.now segments.now result at.new length.old length.new faces.old
        faces.new }
{
    if let Some(index) = first_outside(points) {
        *at = index;
        return TOO_LARGE;
    }
    if are_too_many(points.len()) {
        return OUT_OF_INDEXES;
    }
    draw(points, segments, faces, length, at, alloc)
}
