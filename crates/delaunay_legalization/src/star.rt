//! A legalization that begins at one vertex, where only edges of the faces there may fail.
ghost use Rattle.std.specs.Prelude.{◌≡◌, ◌*◌, ◌<◌, ◌≤◌};
ghost use Rattle.std.specs.Prelude.{length, map, All, IsFalse, IsTrue};
ghost use Rattle.delaunay_legalization.specs.{Constraints.constraints_by, Shape.IsTriangulated};
ghost use Rattle.delaunay_legalization.specs.{Drawn.faces_of, Star.AllPassBeside, Star.HasStar};
ghost use Rattle.delaunay_legalization.specs.{Flips.FlipsFit, Legal.AreEdges, Legalized.Legalizes};
ghost use Rattle.{delaunay_legalization.specs.State.state_of, plane_theorems.specs.IsEmptyRound};

use crate::around::legalize_round;
use crate::{ConstraintMarker, EdgeSet, Sides, legalize, push_side};
use delaunay_core::math::PlaneTests;
use delaunay_core::point::HasPosition;
use half_edge_dcel::{Dcel, MeshViews};
use half_edge_links::FixedVertexHandle;

// Puts the edges of a vertex into a work list, and those of the faces there that lie opposite it,
// in place of what was in the list.
fn push_star<V, DE, UE, F>(dcel: &Dcel<V, DE, UE, F>, vertex: FixedVertexHandle, work: &mut EdgeSet)
    requires within { vertex < length dcel.now.vertices }
    requires room { length dcel.now.undirected ≤ work.old.room }
    ensures star { HasStar dcel.now.mesh vertex work.new.items }
    ensures edges { AreEdges dcel.now.mesh work.new.items }
    ensures capacity { work.new.room ≡ work.old.room }
{
    work.clear();
    for edge in dcel.vertex(vertex).out_edges() {
        let edge = edge.fix();
        push_side(dcel, edge, work);
        push_side(dcel, dcel.directed_edge(edge).next().fix(), work);
    }
}

/// Tests the edges of the faces at a new vertex and flips those that fail and are no constraints
/// until none does; each flip adds 1 to `flips`. `is_free` may say that no other vertex is inside
/// the circle of a face without this vertex, nor inside that of a face at it beyond the side
/// opposite it: then those sides alone are tested. Else `work` has room for three times as many
/// edges as there are vertices, and what was in it goes.
pub fn legalize_vertex<
    M: ConstraintMarker<UE>,
    V: HasPosition,
    DE,
    UE,
    F,
    P: PlaneTests<V::Scalar>,
>(
    dcel: &mut Dcel<V, DE, UE, F>,
    vertex: FixedVertexHandle,
    is_free: bool,
    tests: &P,
    work: &mut EdgeSet,
    flips: &mut u64,
)
    requires within { vertex < length dcel.old.vertices }
    requires sites { All (P.sites tests.now) (map V.place dcel.old.vertices) }
    requires kept { IsTriangulated V.place (state_of dcel.old) }
    requires passing { AllPassBeside (map V.place dcel.old.vertices) (faces_of dcel.old.mesh)
        (constraints_by M.constraints (state_of dcel.old)) vertex }
    requires empty { IsTrue is_free →
        IsEmptyRound (map V.place dcel.old.vertices) (faces_of dcel.old.mesh) vertex }
    requires room { IsFalse is_free → 3 * length dcel.old.vertices ≤ work.old.room }
    requires fits { FlipsFit (length dcel.old.vertices) flips.old }
    ensures legalizes { Legalizes V.place M.constraints dcel.old dcel.new flips.old flips.new }
{
    if !is_free {
        push_star(dcel, vertex, work);
        legalize::<M, _, _, _, _, _>(dcel, &Sides::Round, tests, work, flips);
        return;
    }
    let Some(first) = dcel.vertex(vertex).out_edge() else {
        return;
    };
    let first = first.fix();
    legalize_round::<M, _, _, _, _, _>(dcel, first, tests, flips);
}
