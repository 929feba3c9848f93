//! The faces of a triangulation that are kept, by the names of their corners.
ghost use Rattle.std.specs.Prelude.{IfErr, IfOk};
ghost use Rattle.drawing_faces.specs.Within.{AreKeptRows, RefusesRows};

use crate::holes::hole_faces;
use crate::names::name_corners;
use crate::sides::add_side_faces;
use crate::{DrawingError, DrawnSegment, Kept, kept_faces};
use delaunay_core::point::Point2;
use delaunay_interface::Triangulation;
use half_edge_links::FixedVertexHandle;
use std::alloc::Global;

/// The faces that are kept, each once, by the names of their corners, against the clock. Where only
/// the inside is kept, faces are left out that a way from outside reaches, from a point in a hole,
/// or from the left of a hole's side. Sides have their ends by indexes in a list of vertices.
///
/// The first of these that applies decides, and gives its error. A point in a hole, the first such
/// in their list, is out of range, within a constraint, or on a vertex or in no triangulation:
/// `HoleTooLarge`, `HoleOnSegment` or `HoleInNoFace`, with its index. A side ends at no vertex:
/// `NoPoint`. Where memory was refused, at any step, it gives `OutOfMemory`.
pub fn named_faces<T: Triangulation<Vertex = Point2<i32>>>(
    triangulation: &T,
    names: &[u32],
    holes: &[Point2<i32>],
    sides: &[DrawnSegment],
    handles: &[FixedVertexHandle],
    kept: Kept,
    alloc: Global,
) -> Result<Vec<[u32; 3]>, DrawingError>
    ensures kept { IfOk result (λ rows. AreKeptRows (T.state triangulation.now)
        (T.Constraints.constraints (T.state triangulation.now).undirected) handles.now holes.now
        sides.now
        kept names.now rows.items) }
    ensures refuses { IfErr result (RefusesRows (T.state triangulation.now)
        (T.Constraints.constraints (T.state triangulation.now).undirected) handles.now holes.now
        sides.now) }
{
    let mut starts = hole_faces(triangulation, holes, alloc)?;
    add_side_faces(triangulation, sides, handles, &mut starts)?;
    let corners = kept_faces(triangulation, kept, starts.as_slice(), alloc)?;
    let faces = name_corners(corners.as_slice(), names, alloc)?;
    Ok(faces)
}
