//! A list of edits.
ghost use Rattle.std.specs.Prelude.{◌≡◌, Contains, IfOk, OnErr};
ghost use Rattle.plane.specs.{InRange, Run};
ghost use Rattle.delaunay_legalization.specs.{points_and_constraints_by};
ghost use Rattle.delaunay_edit.specs.{AreSites, IsDelaunay};
ghost use Rattle.delaunay_journal.specs.Journal.{edits_made, Replays};
ghost use Rattle.delaunay_journal.specs.declared.edit.Edit.TheVariants.{Insert};

use crate::{Edit, Outcome, Replayable, make_edit};
use delaunay_core::math::PlaneTests;
use delaunay_core::point::HasPosition;
use delaunay_interface::Triangulation;
use std::alloc::AllocError;

/// Makes the edits of a list, one after another, and gives what each gave. An edit that is refused
/// changes nothing, and the next is made. At the end the triangulation is the constrained Delaunay
/// triangulation of the points and constraints that the edits left which were made; without
/// constraints it is the Delaunay triangulation of the points, and each strictly empty triple is a
/// face. It gives `AllocError` where there is no memory for the list of answers, and then nothing
/// changes.
///
/// Three vertices, the second of which goes again, in a triangulation of either type:
///
/// ```
/// let mut edits = Vec::new(rt.alloc());
/// for (x, y) in [(0, 0), (4, 0), (0, 4)] {
///     edits.push(Edit::Insert(Point2::new(x, y)))?;
/// }
/// edits.push(Edit::Remove(FixedVertexHandle::from_index(1)))?;
/// let outcomes = replay(&mut points, edits, &ExactTests)?; // the last is `Removed`
/// ```
pub fn replay<T: Replayable, P: PlaneTests<<T::Vertex as HasPosition>::Scalar>>(
    points: &mut T,
    edits: Vec<Edit<T::Vertex>>,
    tests: &P,
) -> Result<Vec<Outcome<T::Vertex>>, AllocError>
    requires sites { AreSites T.Vertex.place (P.sites tests.now) (T.state points.old).vertices }
    requires new_sites { (v : T.Vertex) → Contains edits.items (Insert v) →
        InRange (T.Vertex.place v) → P.sites tests.now (T.Vertex.place v) }
    ensures answers { IfOk result
        (λ outcomes. Replays T.Vertex.place T.Constraints.constraints T.marking edits.items
        outcomes.items (T.state points.old) (T.state points.new)) }
    ensures runs { IfOk result (λ outcomes. Run T.Vertex.place
        (edits_made edits.items outcomes.items)
        (points_and_constraints_by T.Constraints.constraints (T.state points.old))
        (points_and_constraints_by T.Constraints.constraints (T.state points.new))) }
    ensures headline { IsDelaunay T.Vertex.place T.Constraints.constraints (T.state points.new) }
    ensures err { OnErr result (points.new ≡ points.old) }
{
    points.recall_invariant();
    let mut outcomes = Vec::with_capacity(*edits.allocator(), edits.len())?;
    for edit in edits {
        outcomes.push_reserved(make_edit(points, edit, tests));
    }
    Ok(outcomes)
}
