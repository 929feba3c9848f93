//! The types on which lists of edits are replayed, and the edits of their constraints.
ghost use Rattle.std.specs.Prelude.{◌≡◌};
ghost use Rattle.delaunay_edit.specs.{AreSites, IsDelaunay};
ghost use Rattle.delaunay_journal.specs.Journal.{edit_of, Gives};
ghost use Rattle.delaunay_journal.specs.Marking.{flag_marking, Marking, no_marking};

use crate::{Outcome, PairEdit, Refusal};
use delaunay_core::HintGenerator;
use delaunay_core::math::PlaneTests;
use delaunay_core::point::HasPosition;
use delaunay_interface::{ConstrainedDelaunayTriangulation, DelaunayTriangulation, Triangulation};

/// A triangulation on which lists of edits are replayed: a `DelaunayTriangulation`, which refuses
/// the edits of constraints, or a `ConstrainedDelaunayTriangulation`.
pub trait Replayable: Triangulation {
    // How edges become constraints, where they can.
    ghost marking: { Marking Self.UndirectedEdge };

    /// The edit `AddConstraint` or `ReleaseConstraint`: joins two vertices by constraints, or takes
    /// from the edge between them that it is a constraint, or changes nothing.
    fn change_pair<P: PlaneTests<<Self::Vertex as HasPosition>::Scalar>>(
        &mut self,
        edit: PairEdit,
        tests: &P,
    ) -> Outcome<Self::Vertex>
        requires sites { AreSites Self.Vertex.place (P.sites tests.now)
            (Self.state self.old).vertices }
        ensures gives { Gives Self.Vertex.place Self.Constraints.constraints marking
            (edit_of edit) result (Self.state self.old) (Self.state self.new) }
        ensures vertices { (Self.state self.new).vertices ≡ (Self.state self.old).vertices }
        ensures headline { IsDelaunay Self.Vertex.place Self.Constraints.constraints
            (Self.state self.new) };
}

impl<
    V: HasPosition + Drop,
    DE: Default + Drop,
    UE: Default + Drop,
    F: Default + Drop,
    L: HintGenerator<V::Scalar>,
> Replayable for DelaunayTriangulation<V, DE, UE, F, L> {
    ghost marking = { no_marking };

    fn change_pair<P: PlaneTests<V::Scalar>>(&mut self, _edit: PairEdit, _tests: &P) -> Outcome<V> {
        self.recall_invariant();
        Outcome::Refused(Refusal::NoConstraints)
    }
}

impl<
    V: HasPosition + Drop,
    DE: Default + Drop,
    UE: Default + Drop,
    F: Default + Drop,
    L: HintGenerator<V::Scalar>,
> Replayable for ConstrainedDelaunayTriangulation<V, DE, UE, F, L> {
    ghost marking = { flag_marking };

    fn change_pair<P: PlaneTests<V::Scalar>>(&mut self, edit: PairEdit, tests: &P) -> Outcome<V> {
        self.recall_invariant();
        let count = self.num_vertices();
        match edit {
            PairEdit::Join(from, to) => {
                if from.index() as usize >= count || to.index() as usize >= count {
                    return Outcome::Refused(Refusal::NoVertex);
                }
                match self.add_constraint_unless_crossed(from, to, tests) {
                    Ok(Some(made)) => Outcome::Added(made),
                    Ok(None) => Outcome::Refused(Refusal::Conflict),
                    Err(_) => Outcome::Refused(Refusal::OutOfMemory),
                }
            }
            PairEdit::Release(from, to) => {
                if from.index() as usize >= count {
                    return Outcome::Refused(Refusal::NotConstrained);
                }
                let Some(edge) = self.get_edge_from_neighbors(from, to) else {
                    return Outcome::Refused(Refusal::NotConstrained);
                };
                let edge = edge.as_undirected().fix();
                if !self.is_constraint_edge(edge) {
                    return Outcome::Refused(Refusal::NotConstrained);
                }
                match self.remove_constraint_edge(edge, tests) {
                    Ok(_) => Outcome::Released,
                    Err(_) => Outcome::Refused(Refusal::OutOfMemory),
                }
            }
        }
    }
}
