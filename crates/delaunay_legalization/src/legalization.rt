//! Flips of edges that fail the circle test, until each edge passes but the constraints.
ghost use Rattle.std.specs.Prelude.{◌≡◌, ◌↔◌, ◌+◌, ◌*◌, ◌/◌, ◌<◌, ◌≤◌, ◌^◌, []};
ghost use Rattle.std.specs.Prelude.{length, map, All, Contains, IsTrue};
ghost use Rattle.half_edge_links.specs.{face, flipped, turn};
ghost use Rattle.{delaunay_core.specs.place_of, delaunay_legalization.specs.Known.point_at};
ghost use Rattle.delaunay_legalization.specs.{Flips.FlipsFit, Sides.AreLeftToTest, Sides.Suffice};
ghost use Rattle.delaunay_legalization.specs.Legal.{AreEdges, Gains, IsFailing};
ghost use Rattle.delaunay_legalization.specs.{Legalized.Legalizes, Shape.IsTriangulated};
ghost use Rattle.delaunay_legalization.specs.State.{state_of};

use crate::{ConstraintMarker, EdgeSet, Embedding, Sides, push_sides};
use delaunay_core::math::PlaneTests;
use delaunay_core::point::{HasPosition, Point2};
use half_edge_dcel::{Dcel, MeshViews};
use half_edge_links::{FixedDirectedEdgeHandle, FixedUndirectedEdgeHandle, FixedVertexHandle};

/// The position of a vertex.
pub fn position_of<V: HasPosition, DE, UE, F>(
    dcel: &Dcel<V, DE, UE, F>,
    vertex: FixedVertexHandle,
) -> Point2<V::Scalar>
    requires { vertex < length dcel.now.vertices }
    ensures place { place_of V.Scalar.whole result ≡
        point_at (map V.place dcel.now.vertices) vertex }
    ensures listed { Contains (map V.place dcel.now.vertices) (place_of V.Scalar.whole result) }
{
    dcel.vertex_data(vertex).position()
}

/// The edge after an edge, against the clock round the vertex where it starts.
#[inline(always)]
pub fn ccw_edge<V, DE, UE, F>(
    dcel: &Dcel<V, DE, UE, F>,
    edge: FixedDirectedEdgeHandle,
) -> FixedDirectedEdgeHandle
    requires { edge < length dcel.now.directed }
    ensures value { result ≡ turn dcel.now.mesh edge }
    ensures within { result < length dcel.now.directed }
{
    dcel.directed_edge(edge).ccw().fix()
}

/// Whether an edge has the outer face on its left.
pub fn is_outer<V, DE, UE, F>(dcel: &Dcel<V, DE, UE, F>, edge: FixedDirectedEdgeHandle) -> bool
    requires { edge < length dcel.now.directed }
    ensures { IsTrue result ↔ (face dcel.now.mesh edge ≡ 0) }
{
    dcel.directed_edge(edge).is_outer_edge()
}

/// Whether an edge is a constraint, by its data.
pub fn is_constraint_edge<M: ConstraintMarker<UE>, V, DE, UE, F>(
    dcel: &Dcel<V, DE, UE, F>,
    edge: FixedUndirectedEdgeHandle,
) -> bool
    requires { edge < length dcel.now.undirected }
    ensures { IsTrue result ↔ Contains (M.constraints dcel.now.undirected) edge }
{
    M::is_constraint_edge(dcel.undirected_edge_data(edge))
}

// Turns a failing edge and counts the flip. No other function of a legalization flips.
pub(crate) fn flip<V: HasPosition, DE, UE, F>(
    dcel: &mut Dcel<V, DE, UE, F>,
    edge: FixedUndirectedEdgeHandle,
    flips: &mut u64,
)
    requires kept { IsTriangulated V.place (state_of dcel.old) }
    requires within { 2 * edge < length dcel.old.directed }
    requires failing { IsFailing (map V.place dcel.old.vertices) dcel.old.mesh (2 * edge) }
    requires fits { flips.old + 1 < 2 ^ 64 }
    ensures contents { dcel.new ≡ record dcel.old { mesh = flipped dcel.old.mesh (2 * edge) } }
    ensures flips { flips.new ≡ flips.old + 1 }
    ensures kept { IsTriangulated V.place (state_of dcel.new) }
{
    dcel.flip_cw(edge);
    *flips += 1;
}

/// Puts the undirected edge of an edge into a work list, unless it is there. The list has room for
/// each edge of the mesh.
pub fn push_side<V, DE, UE, F>(
    dcel: &Dcel<V, DE, UE, F>,
    edge: FixedDirectedEdgeHandle,
    work: &mut EdgeSet,
)
    requires within { edge < length dcel.now.directed }
    requires edges { AreEdges dcel.now.mesh work.old.items }
    requires room { length dcel.now.undirected ≤ work.old.room }
    ensures gains { Gains work.old.items work.new.items (edge / 2) }
    ensures edges { AreEdges dcel.now.mesh work.new.items }
    ensures capacity { work.new.room ≡ work.old.room }
{
    dcel.recall_invariant();
    work.put(edge.as_undirected());
}

/// Flips edges until each passes the circle test, but for the outer ones and the constraints, where
/// before perhaps only those of the work list fail; each flip adds 1 to `flips`. Each turned edge
/// leaves these of the edges round it to test. The work list has room for each edge of the mesh. A
/// constraint keeps its ends and its index.
pub fn legalize<M: ConstraintMarker<UE>, V: HasPosition, DE, UE, F, P: PlaneTests<V::Scalar>>(
    dcel: &mut Dcel<V, DE, UE, F>,
    sides: &Sides,
    tests: &P,
    work: &mut EdgeSet,
    flips: &mut u64,
)
    requires sites { All (P.sites tests.now) (map V.place dcel.old.vertices) }
    requires kept { IsTriangulated V.place (state_of dcel.old) }
    requires left { AreLeftToTest V.place M.constraints dcel.old work.old.items }
    requires suffice { Suffice sides.now (map V.place dcel.old.vertices) dcel.old.mesh }
    requires room { length dcel.old.undirected ≤ work.old.room }
    requires fits { FlipsFit (length dcel.old.vertices) flips.old }
    ensures legalizes { Legalizes V.place M.constraints dcel.old dcel.new flips.old flips.new }
    ensures work { work.new ≡ record work.old { items = [] } }
{
    while let Some(edge) = work.pop() {
        if is_constraint_edge::<M, _, _, _, _>(dcel, edge) {
            continue;
        }
        let embedding = Embedding { dcel, tests };
        let directed = edge.as_directed();
        if embedding.is_failing(directed) {
            push_sides(dcel, directed, sides, work);
            flip(dcel, edge, flips);
        }
    }
}
