//! The faces beside the sides of holes.
ghost use Rattle.std.specs.Prelude.{◌≡◌, ◌∷◌, ◌<◌, [], All, List, map, length, IfErr, OnOk};
ghost use Rattle.{delaunay_legalization.specs.state_of, plane.specs.Item};
ghost use Rattle.delaunay_location.specs.{AreLeft, IsReady, item_in, mesh_of};
ghost use Rattle.drawing_faces.specs.{Drawing.ends_of, Refusals.HasEnds, Refusals.RefusesEnds};
ghost use Rattle.drawing_faces.specs.{Names.position, Sides.AddsBeside, Sides.AddsOnLeft};

use crate::edits::ends_among;
use crate::{DrawingError, DrawnSegment};
use delaunay_core::math::PlaneTests;
use delaunay_core::point::Point2;
use delaunay_location::{HasMesh, Intersection, LineIntersectionIterator};
use exact_predicates::ExactTests;
use half_edge_links::{FixedFaceHandle, FixedVertexHandle};
use std::alloc::AllocError;

// Adds the face on the left of what a way meets, if that is an edge along which it goes.
fn add_left_of<DE, UE, F>(
    item: &Intersection<'_, Point2<i32>, DE, UE, F>,
    faces: &mut Vec<FixedFaceHandle>,
) -> Result<(), AllocError>
    ensures { OnOk result (AddsOnLeft (state_of (mesh_of item.now).now) (item_in item.now ∷ [])
        faces.old.items faces.new.items) }
{
    match item {
        Intersection::EdgeOverlap(edge) => {
            faces.push(edge.face().fix())?;
            Ok(())
        }
        Intersection::EdgeIntersection(_) | Intersection::VertexIntersection(_) => Ok(()),
    }
}

// Adds the faces on the left of the edges along which a way goes.
fn add_left<DE, UE, F, P: PlaneTests<i32>>(
    way: &mut LineIntersectionIterator<'_, Point2<i32>, DE, UE, F, P>,
    faces: &mut Vec<FixedFaceHandle>,
) -> Result<(), AllocError>
    requires { IsReady position (λ z. z) P.sites P.covered way.old }
    ensures { OnOk result ((items : List Item) → AreLeft position (λ z. z) way.old items
        → AddsOnLeft (state_of way.old.dcel.now) items faces.old.items faces.new.items) }
{
    while let Some(item) = way.next() {
        add_left_of(&item, faces)?;
    }
    Ok(())
}

// Adds the faces on the left of the way from one vertex to another.
fn add_beside<DE, UE, F, T: HasMesh<Point2<i32>, DE, UE, F>>(
    triangulation: &T,
    from: FixedVertexHandle,
    to: FixedVertexHandle,
    faces: &mut Vec<FixedFaceHandle>,
) -> Result<(), AllocError>
    requires from_in { from < length (T.mesh_state triangulation.now).vertices }
    requires to_in { to < length (T.mesh_state triangulation.now).vertices }
    ensures { OnOk result (AddsBeside (T.mesh_state triangulation.now) ((from, to) ∷ [])
        faces.old.items
        faces.new.items) }
{
    let mut way = LineIntersectionIterator::new_from_handles(triangulation, from, to, &ExactTests);
    add_left(&mut way, faces)
}

/// Adds the faces on the left of the edges that lie on the sides of holes, in the direction of
/// these. It gives `NoPoint` exactly where a side ends at no index of the list of vertices or at a
/// handle of none, and `OutOfMemory` where memory was refused.
pub(crate) fn add_side_faces<DE, UE, F, T: HasMesh<Point2<i32>, DE, UE, F>>(
    triangulation: &T,
    sides: &[DrawnSegment],
    vertices: &[FixedVertexHandle],
    faces: &mut Vec<FixedFaceHandle>,
) -> Result<(), DrawingError>
    ensures adds { OnOk result (AddsBeside (T.mesh_state triangulation.now)
        (map (ends_of vertices.now) sides.now) faces.old.items faces.new.items) }
    ensures ends { OnOk result (All
        (HasEnds vertices.now (length (T.mesh_state triangulation.now).vertices)) sides.now) }
    ensures refuses { IfErr result
        (RefusesEnds vertices.now (length (T.mesh_state triangulation.now).vertices) sides.now) }
{
    let count = triangulation.mesh().num_vertices();
    for side in sides {
        let Some(ends) = ends_among(*side, vertices, count) else {
            return Err(DrawingError::NoPoint);
        };
        add_beside(triangulation, ends.0, ends.1, faces)?;
    }
    Ok(())
}
