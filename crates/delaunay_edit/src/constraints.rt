//! Edges that become constraints and are released, with each other edge legal afterwards.
ghost use Rattle.std.specs.Prelude.{◌≡◌, ◌*◌, ◌<◌, ◌≤◌, true, length, map, All, Contains};
ghost use Rattle.half_edge_links.specs.{origin, rev};
ghost use Rattle.delaunay_legalization.specs.{CountsFlips, FlipsFit, IsDelaunayTriangulation};
ghost use Rattle.delaunay_legalization.specs.{state_of};
ghost use Rattle.delaunay_edit.specs.Releasing.{AddsConstraints, ReleasesEdge};

use delaunay_core::math::PlaneTests;
use delaunay_core::point::HasPosition;
use delaunay_legalization::{ConstraintMarker, EdgeSet, Sides, free_edge, legalize};
use half_edge_dcel::Dcel;
use half_edge_links::{FixedDirectedEdgeHandle, FixedUndirectedEdgeHandle};

/// Makes an edge a constraint, unless it is one. No edge is turned for it.
pub fn constrain_edge<M: ConstraintMarker<UE>, V: HasPosition, DE, UE, F>(
    dcel: &mut Dcel<V, DE, UE, F>,
    edge: FixedDirectedEdgeHandle,
)
    requires can_mark { M.can_mark ≡ true }
    requires within { edge < length dcel.old.directed }
    requires legal { IsDelaunayTriangulation V.place M.constraints (state_of dcel.old) }

    ensures adds { let m = dcel.old.mesh in
        AddsConstraints V.place M.marks M.marked M.constraints dcel.old dcel.new (origin m edge)
        (origin m (rev edge)) }
    ensures mesh { dcel.new.mesh ≡ dcel.old.mesh }
{
    let edge = edge.as_undirected();
    if M::is_constraint_edge(dcel.undirected_edge_data(edge)) {
        return;
    }
    M::make_constraint(dcel.undirected_edge_data_mut(edge));
}

/// Makes a constraint an edge that is none, and flips edges from there on until each that is no
/// constraint passes the circle test. `work` has room for each edge, and `flips` counts on.
pub fn release_constraint<
    M: ConstraintMarker<UE>,
    V: HasPosition,
    DE,
    UE,
    F,
    P: PlaneTests<V::Scalar>,
>(
    dcel: &mut Dcel<V, DE, UE, F>,
    edge: FixedUndirectedEdgeHandle,
    tests: &P,
    work: &mut EdgeSet,
    flips: &mut u64,
)
    requires constraint { Contains (M.constraints dcel.old.undirected) edge }
    requires legal { IsDelaunayTriangulation V.place M.constraints (state_of dcel.old) }
    requires sites { All (P.sites tests.now) (map V.place dcel.old.vertices) }
    requires room { 3 * length dcel.old.vertices ≤ work.old.room }
    requires fits { FlipsFit (length dcel.old.vertices) flips.old }

    ensures releases { ReleasesEdge V.place M.unmarked M.constraints dcel.old dcel.new edge }
    ensures counted { CountsFlips (length dcel.old.vertices) flips.old flips.new }
{
    free_edge::<M, _, _, _, _>(dcel, edge);
    work.clear();
    work.put(edge);
    legalize::<M, _, _, _, _, _>(dcel, &Sides::Round, tests, work, flips);
}
