//! Pairs of vertices that bound new faces where a vertex went, and a legalization from them on.
ghost use Rattle.std.specs.Prelude.{◌≡◌, ℕ, ◌*◌, ◌<◌, ◌≤◌, ◌++◌};
ghost use Rattle.std.specs.Prelude.{length, map, All, Contains, IsTrue};
ghost use Rattle.half_edge_links.specs.{moved, neighbour, origin, rev};
ghost use Rattle.delaunay_legalization.specs.{AreEdges, AreLeftToTest, constraints_by, faces_of};
ghost use Rattle.delaunay_legalization.specs.{FailOnlyOf, FlipsFit, IsTriangulated, Legalizes};
ghost use Rattle.{delaunay_legalization.specs.state_of, plane_theorems.specs.AllPassBut};
ghost use Rattle.delaunay_vertices.specs.Pairs.{FailOnlyAt, HasEdgeOf, HasEdgesOf, pairs_left};

use crate::RemovalLists;
use crate::joining_edge::find_edge_between;
use delaunay_core::math::PlaneTests;
use delaunay_core::point::HasPosition;
use delaunay_legalization::{ConstraintMarker, EdgeSet, ccw_edge, legalize_list, push_side};
use half_edge_dcel::{Dcel, MeshViews};
use half_edge_links::{FixedDirectedEdgeHandle, FixedVertexHandle};

/// Two vertices.
pub type VertexPair = (FixedVertexHandle, FixedVertexHandle);

// The vertex where an edge ends.
pub(crate) fn vertex_at_end<V, DE, UE, F>(
    dcel: &Dcel<V, DE, UE, F>,
    edge: FixedDirectedEdgeHandle,
) -> FixedVertexHandle
    requires { edge < length dcel.now.directed }
    ensures { result ≡ origin dcel.now.mesh (rev edge) }
{
    dcel.directed_edge(edge).to().fix()
}

// What the edge after an edge, round the vertex where they start, joins once it is turned: the ends
// of the edges beside it.
pub(crate) fn ends_beside<V, DE, UE, F>(
    dcel: &Dcel<V, DE, UE, F>,
    edge: FixedDirectedEdgeHandle,
) -> VertexPair
    requires { edge < length dcel.now.directed }
    ensures { result ≡ (neighbour dcel.now.mesh edge 0, neighbour dcel.now.mesh edge 2) }
{
    let turned = ccw_edge(dcel, edge);
    let after = ccw_edge(dcel, turned);
    (vertex_at_end(dcel, edge), vertex_at_end(dcel, after))
}

/// The index that a vertex has once `vertex` has gone and the last vertex has taken its index:
/// `former` is the one that it had before, and `dcel` is the mesh as it is since.
pub fn index_left<V, DE, UE, F>(
    dcel: &Dcel<V, DE, UE, F>,
    former: FixedVertexHandle,
    vertex: FixedVertexHandle,
) -> FixedVertexHandle
    ensures { result ≡ moved (length dcel.now.vertices) vertex former }
{
    if former.index() as usize == dcel.num_vertices() {
        vertex
    } else {
        former
    }
}

// Puts the edge between two vertices into a work list, unless it is there or there is none.
fn push_between<V, DE, UE, F>(
    dcel: &Dcel<V, DE, UE, F>,
    from: FixedVertexHandle,
    to: FixedVertexHandle,
    work: &mut EdgeSet,
)
    requires edges { AreEdges dcel.now.mesh work.old.items }
    requires room { length dcel.now.undirected ≤ work.old.room }
    ensures kept { (j : ℕ) → Contains work.old.items j → Contains work.new.items j }
    ensures there { HasEdgeOf dcel.now.mesh from to work.new.items }
    ensures edges { AreEdges dcel.now.mesh work.new.items }
    ensures capacity { work.new.room ≡ work.old.room }
{
    match find_edge_between(dcel, from, to) {
        Some(edge) => push_side(dcel, edge, work),
        None => {}
    }
}

// Puts the edges of some pairs into a work list, unless they are there. The pairs go by the indexes
// that the vertices had before `vertex` went.
fn push_pairs<V, DE, UE, F>(
    dcel: &Dcel<V, DE, UE, F>,
    vertex: FixedVertexHandle,
    pairs: &[VertexPair],
    work: &mut EdgeSet,
)
    requires edges { AreEdges dcel.now.mesh work.old.items }
    requires room { length dcel.now.undirected ≤ work.old.room }
    ensures kept { (j : ℕ) → Contains work.old.items j → Contains work.new.items j }
    ensures there { HasEdgesOf dcel.now.mesh
        (pairs_left (length dcel.now.vertices) vertex pairs.now) work.new.items }
    ensures edges { AreEdges dcel.now.mesh work.new.items }
    ensures capacity { work.new.room ≡ work.old.room }
{
    for i in 0..pairs.len() {
        let pair = pairs[i];
        let from = index_left(dcel, pair.0, vertex);
        let to = index_left(dcel, pair.1, vertex);
        push_between(dcel, from, to, work);
    }
    dcel.recall_invariant();
}

/// Puts the edges that may fail where a vertex went into a work list, in place of what was there:
/// those of some pairs, where each other edge passes. The pairs go by the indexes that the vertices
/// had before `vertex` went: the sides of its hole, and what `lists` has of its edges that were
/// turned.
pub fn list_pairs<M: ConstraintMarker<UE>, V: HasPosition, DE, UE, F>(
    dcel: &Dcel<V, DE, UE, F>,
    vertex: FixedVertexHandle,
    border: &[VertexPair],
    lists: &RemovalLists,
    work: &mut EdgeSet,
)
    requires kept { IsTriangulated V.place (state_of dcel.now) }
    requires passing { AllPassBut (map V.place dcel.now.vertices) (faces_of dcel.now.mesh)
        (constraints_by M.constraints (state_of dcel.now))
        (pairs_left (length dcel.now.vertices) vertex (border.now ++ lists.now.turned.items)) }
    requires room { 3 * length dcel.now.vertices ≤ work.old.room }

    ensures left { AreLeftToTest V.place M.constraints dcel.now work.new.items }
    ensures only { FailOnlyAt (map V.place dcel.now.vertices) dcel.now.mesh
        (pairs_left (length dcel.now.vertices) vertex (border.now ++ lists.now.turned.items)) →
        FailOnlyOf (map V.place dcel.now.vertices) dcel.now.mesh work.new.items }
    ensures capacity { work.new.room ≡ work.old.room }
{
    work.clear();
    push_pairs(dcel, vertex, border, work);
    push_pairs(dcel, vertex, lists.turned.as_slice(), work);
}

/// Tests the edges that `list_pairs` lists, and flips those that fail and are no constraints until
/// none does. Where each other edge has an empty circle on one of its sides, as `is_free` may say,
/// it is not tested again. `work` and `lists` have room for three times as many edges as there are
/// vertices.
pub fn legalize_pairs<M: ConstraintMarker<UE>, V: HasPosition, DE, UE, F, P: PlaneTests<V::Scalar>>(
    dcel: &mut Dcel<V, DE, UE, F>,
    vertex: FixedVertexHandle,
    is_free: bool,
    border: &[VertexPair],
    tests: &P,
    lists: &mut RemovalLists,
    work: &mut EdgeSet,
    flips: &mut u64,
)
    requires sites { All (P.sites tests.now) (map V.place dcel.old.vertices) }
    requires kept { IsTriangulated V.place (state_of dcel.old) }
    requires passing { AllPassBut (map V.place dcel.old.vertices) (faces_of dcel.old.mesh)
        (constraints_by M.constraints (state_of dcel.old))
        (pairs_left (length dcel.old.vertices) vertex (border.now ++ lists.old.turned.items)) }
    requires only { IsTrue is_free → FailOnlyAt (map V.place dcel.old.vertices) dcel.old.mesh
        (pairs_left (length dcel.old.vertices) vertex (border.now ++ lists.old.turned.items)) }
    requires room { 3 * length dcel.old.vertices ≤ work.old.room }
    requires room_among { 3 * length dcel.old.vertices ≤ lists.old.tested.room }
    requires fits { FlipsFit (length dcel.old.vertices) flips.old }

    ensures legalizes { Legalizes V.place M.constraints dcel.old dcel.new flips.old flips.new }
{
    list_pairs::<M, _, _, _, _>(dcel, vertex, border, lists, work);
    legalize_list::<M, _, _, _, _, _>(dcel, is_free, tests, &mut lists.tested, work, flips);
}
