//! A legalization round a vertex, where only edges opposite it may fail.
ghost use Rattle.std.specs.Prelude.{◌≡◌, ◌<◌, length, map, IsTrue, IsFalse};
ghost use Rattle.half_edge_links.specs.{origin};
ghost use Rattle.{delaunay_core.specs.place_of, delaunay_legalization.specs.Known.IsVertexSite};
ghost use Rattle.delaunay_legalization.specs.Around.{CanGoRound, CanTurn, IsOpposite, Stays, Turns};
ghost use Rattle.delaunay_legalization.specs.Constraints.{constraint_pairs, KeepsConstraints};
ghost use Rattle.delaunay_legalization.specs.{Embedding.IsEmbedding, Legalized.Legalizes};

use crate::legalization::flip;
use crate::{ConstraintMarker, Embedding, is_constraint_edge, position_of};
use delaunay_core::math::PlaneTests;
use delaunay_core::point::{HasPosition, Point2};
use half_edge_dcel::{Dcel, MeshViews};
use half_edge_links::FixedDirectedEdgeHandle;

// What a test of the edge opposite a vertex reads, in the face on the left of one of the vertex's
// edges: whether a face beside the edge is the outer one, the positions of the edge's ends, and
// that of the corner beyond it.
#[derive(Clone, Copy)]
pub(crate) struct Opposite<S> {
    is_outer: bool,
    from: Point2<S>,
    to: Point2<S>,
    beyond: Point2<S>,
}

impl<'a, V: HasPosition, DE, UE, F, P: PlaneTests<V::Scalar>> Embedding<'a, V, DE, UE, F, P> {
    // What the test of the edge opposite the start of `spoke` reads, in the face on its left.
    #[inline(always)]
    pub(crate) fn opposite_of(&self, spoke: FixedDirectedEdgeHandle) -> Opposite<V::Scalar>
        requires { spoke < length self.now.dcel.directed }
        ensures { IsOpposite V.Scalar.whole (P.sites self.now.tests)
            (map V.place self.now.dcel.vertices) self.now.dcel.mesh spoke result }
    {
        let spoke = self.dcel.directed_edge(spoke);
        let edge = spoke.next();
        let twin = edge.rev();
        Opposite {
            is_outer: spoke.is_outer_edge() || twin.is_outer_edge(),
            from: position_of(self.dcel, edge.from().fix()),
            to: position_of(self.dcel, edge.next().from().fix()),
            beyond: position_of(self.dcel, twin.prev_from().fix()),
        }
    }
}

// Turns the edge opposite a vertex, in the face on the left of one of the vertex's edges, if it
// lies between two inner faces, of which one has its third corner inside the circle of the other,
// and is no constraint; tells whether it did.
fn turn_opposite<M: ConstraintMarker<UE>, V: HasPosition, DE, UE, F, P: PlaneTests<V::Scalar>>(
    dcel: &mut Dcel<V, DE, UE, F>,
    spoke: FixedDirectedEdgeHandle,
    opposite: Opposite<V::Scalar>,
    centre: Point2<V::Scalar>,
    tests: &P,
    flips: &mut u64,
) -> bool
    requires turn { CanTurn V.place P.sites dcel.old tests.now spoke flips.old }
    requires opposite { IsOpposite V.Scalar.whole (P.sites tests.now)
        (map V.place dcel.old.vertices) dcel.old.mesh spoke opposite }
    requires centre { IsVertexSite (P.sites tests.now) (map V.place dcel.old.vertices)
        (origin dcel.old.mesh spoke) (place_of V.Scalar.whole centre) }
    ensures embedding { IsEmbedding V.place P.sites dcel.new tests.now }
    ensures contents { dcel.new ≡ record dcel.old { mesh = dcel.new.mesh } }
    ensures constraints { KeepsConstraints M.constraints dcel.old dcel.new }
    ensures turned { IsTrue result → Turns (map V.place dcel.old.vertices) dcel.old.mesh
        dcel.new.mesh spoke flips.old flips.new }
    ensures stays { IsFalse result → Stays (map V.place dcel.old.vertices)
        (constraint_pairs M.constraints dcel.old.mesh dcel.old.undirected) dcel.old.mesh
        dcel.new.mesh spoke flips.old flips.new }
{
    if opposite.is_outer {
        return false;
    }
    if !tests.is_in_circle(opposite.from, opposite.to, centre, opposite.beyond) {
        return false;
    }
    let edge = dcel.directed_edge(spoke).next().fix().as_undirected();
    if is_constraint_edge::<M, _, _, _, _>(dcel, edge) {
        return false;
    }
    flip(dcel, edge, flips);
    true
}

// Goes round a vertex from one of its edges on, and turns each edge opposite it that fails and is
// no constraint. A turned edge is one of the vertex, and comes next; the edges beyond it are
// opposite then. What the next test will read is read before each test, so that a processor does
// not wait for the one and then for the other.
pub(crate) fn legalize_round<
    M: ConstraintMarker<UE>,
    V: HasPosition,
    DE,
    UE,
    F,
    P: PlaneTests<V::Scalar>,
>(dcel: &mut Dcel<V, DE, UE, F>, first: FixedDirectedEdgeHandle, tests: &P, flips: &mut u64)
    requires embedding { IsEmbedding V.place P.sites dcel.old tests.now }
    requires within { first < length dcel.old.directed }
    requires can { CanGoRound V.place dcel.old (origin dcel.old.mesh first) first flips.old }
    ensures legalizes { Legalizes V.place M.constraints dcel.old dcel.new flips.old flips.new }
{
    let embedding = Embedding { dcel, tests };
    let centre = embedding.start_of(first);
    let mut spoke = first;
    let mut opposite = embedding.opposite_of(spoke);
    loop {
        let next = dcel.directed_edge(spoke).ccw().fix();
        let embedding = Embedding { dcel, tests };
        let ahead = embedding.opposite_of(next);
        if turn_opposite::<M, _, _, _, _, _>(dcel, spoke, opposite, centre, tests, flips) {
            let embedding = Embedding { dcel, tests };
            opposite = embedding.opposite_of(spoke);
            continue;
        }
        spoke = next;
        opposite = ahead;
        if spoke.index() == first.index() {
            break;
        }
    }
}
