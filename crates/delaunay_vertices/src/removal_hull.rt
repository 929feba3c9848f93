//! A vertex on the hull loses its edges.
ghost use Rattle.std.specs.Prelude.{◌≡◌, ℕ, ◌+◌, ◌<◌, ◌≤◌};
ghost use Rattle.std.specs.Prelude.{length, IfSome, IfNone};
ghost use Rattle.std.specs.Prelude.{vec_capacity, vec_len};
ghost use Rattle.half_edge_links.specs.{face, IsRound, next, origin, rev};
ghost use Rattle.delaunay_legalization.specs.{IsEmbedding};
ghost use Rattle.delaunay_vertices.specs.Hull.{AreSides, HasHullEdge, ShrinksFan};
ghost use Rattle.delaunay_vertices.specs.{Pairs.HasRoomAt, Star.HasInnerFaces, Star.LosesStar};

use crate::choice::{Spokes, edge_to_go_on};
use crate::star::{count_edges, opposite_side, turn_away};
use crate::{RemovalLists, VertexPair};
use delaunay_core::math::PlaneTests;
use delaunay_core::point::HasPosition;
use delaunay_legalization::{ccw_edge, is_outer};
use half_edge_dcel::{Dcel, MeshViews};
use half_edge_links::{FixedDirectedEdgeHandle, FixedVertexHandle};

// Turns edges of a vertex on the hull away while one of them lies across a strictly convex
// quadrilateral. `first` is the one with the outer face on its right. Gives how many are left.
// `turned` has room for a pair at each edge, and gets what each turned one joins.
fn shrink_hull_star<V: HasPosition, DE, UE, F, P: PlaneTests<V::Scalar>>(
    dcel: &mut Dcel<V, DE, UE, F>,
    first: FixedDirectedEdgeHandle,
    tests: &P,
    turned: &mut Vec<VertexPair>,
) -> usize
    requires embedding { IsEmbedding V.place P.sites dcel.old tests.now }
    requires hull { HasHullEdge V.place dcel.old first }
    requires room { HasRoomAt dcel.old.mesh (origin dcel.old.mesh first) (vec_len turned.old)
        (vec_capacity turned.old) }
    ensures shrinks { ShrinksFan V.place dcel.old dcel.new (origin dcel.old.mesh first) first result
        turned.new.items }
    ensures few { (n : ℕ) → HasRoomAt dcel.old.mesh (origin dcel.old.mesh first) 0 n → result ≤ n }
    ensures room { vec_len turned.new + result ≤ vec_capacity turned.new }
{
    let mut count = count_edges(dcel, first);
    let mut from = first;
    loop {
        let spokes = Spokes {
            dcel,
            first: from,
            tests,
        };
        match spokes.choose_hull_edge(count) {
            Some(edge) => {
                turn_away(dcel, edge, turned);
                from = edge_to_go_on(dcel, edge, count, first);
                count -= 1;
            }
            None => return count,
        }
    }
}

// Lists the sides opposite a vertex in its first `count` faces, from `first` on.
fn collect_sides<V, DE, UE, F>(
    dcel: &Dcel<V, DE, UE, F>,
    first: FixedDirectedEdgeHandle,
    count: usize,
    sides: &mut Vec<FixedDirectedEdgeHandle>,
)
    requires within { first < length dcel.now.directed }
    requires room { count ≤ vec_capacity sides.old }
    ensures sides { AreSides dcel.now.mesh first count sides.new.items }
    ensures capacity { vec_capacity sides.new ≡ vec_capacity sides.old }
{
    sides.clear();
    let mut edge = first;
    for i in 0..count {
        sides.push_reserved(opposite_side(dcel, edge));
        edge = ccw_edge(dcel, edge);
    }
}

// Removes the edges of a vertex on the hull, from which `first` starts, with the outer face on its
// right. `lists` has room for a side and for a pair at each edge, and gets what each turned one
// joins.
pub(crate) fn isolate_on_hull<
    V: HasPosition,
    DE: Drop,
    UE: Drop,
    F: Drop,
    P: PlaneTests<V::Scalar>,
>(
    dcel: &mut Dcel<V, DE, UE, F>,
    first: FixedDirectedEdgeHandle,
    vertex: FixedVertexHandle,
    tests: &P,
    lists: &mut RemovalLists,
)
    requires embedding { IsEmbedding V.place P.sites dcel.old tests.now }
    requires hull { HasHullEdge V.place dcel.old first }
    requires starts { origin dcel.old.mesh first ≡ vertex }
    requires room { HasRoomAt dcel.old.mesh vertex 0 (vec_capacity lists.old.sides) }
    requires pairs { HasRoomAt dcel.old.mesh vertex (vec_len lists.old.turned)
        (vec_capacity lists.old.turned) }
    ensures isolates { LosesStar V.place dcel.old dcel.new vertex lists.new.turned.items }
    ensures capacity { lists.new.tested.room ≡ lists.old.tested.room }
{
    let count = shrink_hull_star(dcel, first, tests, &mut lists.turned);
    let spokes = Spokes { dcel, first, tests };
    if spokes.is_corner() {
        collect_sides(dcel, first, count - 1, &mut lists.sides);
        let _ = dcel.disconnect_edge_strip(lists.sides.as_slice());
    } else {
        // On a flat side three edges are left, and the two faces become one.
        turn_away(dcel, first, &mut lists.turned);
        let sides = [opposite_side(dcel, first)];
        let _ = dcel.disconnect_edge_strip(&sides);
    }
}

// Of the edges that start where `first` starts, which are so many, one with the outer face on its
// right, if there is one.
pub(crate) fn outer_edge_beside<V, DE, UE, F>(
    dcel: &Dcel<V, DE, UE, F>,
    first: FixedDirectedEdgeHandle,
    count: usize,
) -> Option<FixedDirectedEdgeHandle>
    requires within { first < length dcel.now.directed }
    requires round { IsRound dcel.now.mesh (origin dcel.now.mesh first) first count }
    ensures within { IfSome result (λ e. e < length dcel.now.directed) }
    ensures starts { IfSome result (λ e. origin dcel.now.mesh e ≡ origin dcel.now.mesh first) }
    ensures outer { IfSome result (λ e. face dcel.now.mesh (rev e) ≡ 0) }
    ensures none { IfNone result (HasInnerFaces dcel.now.mesh (origin dcel.now.mesh first)) }
{
    dcel.recall_invariant();
    let mut edge = first;
    for i in 0..count {
        if is_outer(dcel, dcel.directed_edge(edge).rev().fix()) {
            return Some(edge);
        }
        edge = ccw_edge(dcel, edge);
    }
    None
}
