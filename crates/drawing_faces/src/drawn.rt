//! The triangulation of a drawing, from its points and segments to the faces that are kept.
ghost use Rattle.std.specs.Prelude.{◌≡◌, [], map, IfErr, IfOk, OnOk};
ghost use Rattle.{delaunay_edit.specs.constraints_of, delaunay_extensions.specs.HaveHandles};
ghost use Rattle.drawing_faces.specs.Drawing.{IsDrawn, RefusesDrawing};
ghost use Rattle.drawing_faces.specs.Names.{NamesVertices, position};
ghost use Rattle.drawing_faces.specs.Refusals.{MayTake, RefusesPoints};
ghost use Rattle.drawing_faces.specs.declared.error.DrawingError.TheVariants.{OutOfMemory};

use crate::holes::hole_faces;
use crate::names::{first_indexes, name_corners};
use crate::sides::add_side_faces;
use crate::{DrawingError, DrawnSegment, Kept, add_segments, insert_points, kept_faces};
use delaunay_core::point::Point2;
use delaunay_interface::{ConstrainedDelaunayTriangulation, DelaunayTriangulation, Triangulation};
use half_edge_links::FixedVertexHandle;
use std::alloc::Global;

/// The triangulation of points.
pub type Plain = DelaunayTriangulation<Point2<i32>>;

/// The triangulation of a drawing.
pub type Constrained = ConstrainedDelaunayTriangulation<Point2<i32>>;

/// Points that were triangulated.
#[derive(Drop)]
pub struct TriangulatedPoints {
    pub plain: Plain,
    /// The vertex of each point.
    pub handles: Vec<FixedVertexHandle>,
    /// Of each vertex the index of its point in the list: of several there, of the first.
    pub vertices: Vec<u32>,
}

/// A drawing that was triangulated.
#[derive(Drop)]
pub struct DrawnMesh {
    pub triangulation: Constrained,
    /// Of each vertex the index of its point in the list: of several there, of the first.
    pub vertices: Vec<u32>,
    /// Of each segment whether it was added: it was not where one that was added before crosses it.
    pub added: Vec<bool>,
    /// The faces that are kept, by the indexes of their corners, against the clock.
    pub faces: Vec<[u32; 3]>,
}

/// Triangulates points. It gives `TooLarge` exactly where a coordinate passes 2^29, else `TooMany`
/// exactly where six times their number passes `MAX_ELEMENTS`; but `OutOfMemory` where memory was
/// refused, at any step.
pub fn triangulate_points(
    points: &[Point2<i32>],
    alloc: Global,
) -> Result<TriangulatedPoints, DrawingError>
    ensures handles { IfOk result
        (λ p. HaveHandles position points.now p.handles.items p.plain.vertices) }
    ensures vertices { IfOk result
        (λ p. NamesVertices points.now (map position p.plain.vertices) p.vertices.items) }
    ensures may_take { OnOk result (MayTake points.now 0) }
    ensures refuses { IfErr result (RefusesPoints points.now 0) }
{
    let mut plain = Plain::new(alloc);
    let handles = insert_points(&mut plain, points, alloc)?;
    plain.recall_invariant();
    let vertices = first_indexes(handles.as_slice(), plain.num_vertices(), alloc)?;
    Ok(TriangulatedPoints {
        plain,
        handles,
        vertices,
    })
}

/// The same triangulation, to take constraints.
fn constrained(plain: Plain) -> Result<Constrained, DrawingError>
    ensures vertices { IfOk result (λ s. s.vertices ≡ plain.vertices) }
    ensures none { IfOk result (λ s. constraints_of s ≡ []) }
    ensures memory { IfErr result (λ error. error ≡ OutOfMemory) }
{
    match Constrained::from_delaunay(plain) {
        Ok(triangulation) => Ok(triangulation),
        Err(_) => Err(DrawingError::OutOfMemory),
    }
}

/// Triangulates a drawing: the constrained Delaunay triangulation of its points, with a path of
/// constraints along each segment that no constraint before it crosses. Segments have their ends
/// by the indexes of points in the list. Where only the inside is kept, faces that a way from a
/// point in a hole reaches are left out, too, and those that a way from the left of a hole's side
/// reaches.
///
/// The first of these that applies decides, and gives its error. A coordinate of a point passes
/// 2^29: `TooLarge`. Six times the number of points passes `MAX_ELEMENTS`: `TooMany`. A segment
/// ends at no point: `NoPoint`. A point in a hole, the first such in their list, is out of range,
/// within a constraint, or on a vertex or in no triangulation: `HoleTooLarge`, `HoleOnSegment` or
/// `HoleInNoFace`, with its index. A side ends at no point: `NoPoint`. None of them comes
/// otherwise. Where memory was refused, at any step, it gives `OutOfMemory`.
pub fn triangulate_drawing(
    points: &[Point2<i32>],
    segments: &[DrawnSegment],
    holes: &[Point2<i32>],
    sides: &[DrawnSegment],
    kept: Kept,
    alloc: Global,
) -> Result<DrawnMesh, DrawingError>
    ensures draws { IfOk result (IsDrawn points.now segments.now holes.now sides.now kept) }
    ensures refuses { IfErr result (RefusesDrawing points.now segments.now holes.now sides.now) }
{
    let triangulated = triangulate_points(points, alloc)?;
    let TriangulatedPoints {
        plain,
        handles,
        vertices,
    } = triangulated;
    let mut triangulation = constrained(plain)?;
    let added = add_segments(&mut triangulation, segments, handles.as_slice(), alloc)?;
    let mut in_holes = hole_faces(&triangulation, holes, alloc)?;
    add_side_faces(&triangulation, sides, handles.as_slice(), &mut in_holes)?;
    let corners = kept_faces(&triangulation, kept, in_holes.as_slice(), alloc)?;
    let faces = name_corners(corners.as_slice(), vertices.as_slice(), alloc)?;
    Ok(DrawnMesh {
        triangulation,
        vertices,
        added,
        faces,
    })
}
