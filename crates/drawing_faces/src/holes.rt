//! The faces that points in holes are in.
ghost use Rattle.std.specs.Prelude.{◌≡◌, ◌≤◌, ◌++◌, All, length, IfErr, IfOk, OnOk};
ghost use Rattle.drawing_faces.specs.Holes.{AddsFacesAt, AreIn, RefusesHole, RefusesHoles};

use crate::DrawingError;
use delaunay_core::math::validate_vertex;
use delaunay_core::point::Point2;
use delaunay_interface::Triangulation;
use delaunay_legalization::is_constraint_edge;
use delaunay_location::PositionInTriangulation;
use exact_predicates::ExactTests;
use half_edge_links::FixedFaceHandle;
use std::alloc::Global;

// Adds the faces that a point is in: behind an edge those on both sides, unless it is a constraint.
// Errors have the point's index in its list.
fn add_faces<T: Triangulation<Vertex = Point2<i32>>>(
    triangulation: &T,
    hole: Point2<i32>,
    index: usize,
    faces: &mut Vec<FixedFaceHandle>,
) -> Result<(), DrawingError>
    ensures adds { OnOk result (AddsFacesAt (T.state triangulation.now)
        (T.Constraints.constraints (T.state triangulation.now).undirected) hole faces.old.items
        faces.new.items) }
    ensures refuses { IfErr result (RefusesHole (T.state triangulation.now)
        (T.Constraints.constraints (T.state triangulation.now).undirected) index hole) }
{
    triangulation.recall_invariant();
    if validate_vertex(&hole).is_err() {
        return Err(DrawingError::HoleTooLarge(index));
    }
    match triangulation.locate(hole, &ExactTests) {
        PositionInTriangulation::OnFace(face) => {
            faces.push(face)?;
            Ok(())
        }
        PositionInTriangulation::OnEdge(edge) => {
            let edge = triangulation.directed_edge(edge);
            let whole = edge.as_undirected().fix();
            if is_constraint_edge::<T::Constraints, _, _, _, _>(triangulation.s(), whole) {
                return Err(DrawingError::HoleOnSegment(index));
            }
            faces.push(edge.face().fix())?;
            faces.push(edge.rev().face().fix())?;
            Ok(())
        }
        PositionInTriangulation::OutsideOfConvexHull(_) => Ok(()),
        _ => Err(DrawingError::HoleInNoFace(index)),
    }
}

/// The faces that points in holes are in. It gives `HoleTooLarge`, `HoleOnSegment` or
/// `HoleInNoFace` exactly where a point is out of range, within a constraint, or on a vertex or in
/// no triangulation: for the first such point. It gives `OutOfMemory` where memory was refused.
pub(crate) fn hole_faces<T: Triangulation<Vertex = Point2<i32>>>(
    triangulation: &T,
    holes: &[Point2<i32>],
    alloc: Global,
) -> Result<Vec<FixedFaceHandle>, DrawingError>
    ensures faces { IfOk result (λ faces. AreIn (T.state triangulation.now)
        (T.Constraints.constraints (T.state triangulation.now).undirected) holes.now faces.items) }
    ensures within { IfOk result
        (λ faces. All (λ f. f ≤ length (T.state triangulation.now).faces) faces.items) }
    ensures refuses { IfErr result (RefusesHoles (T.state triangulation.now)
        (T.Constraints.constraints (T.state triangulation.now).undirected) holes.now) }
{
    let mut faces = Vec::new(alloc);
    for (index, hole) in holes.iter().enumerate() {
        add_faces(triangulation, *hole, index, &mut faces)?;
    }
    Ok(faces)
}
