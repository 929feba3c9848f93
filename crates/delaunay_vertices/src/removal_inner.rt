//! A vertex inside the hull loses its edges.
ghost use Rattle.std.specs.Prelude.{◌≡◌, ◌+◌, ◌<◌, ◌≤◌, map, vec_capacity, vec_len};
ghost use Rattle.half_edge_links.specs.{IsWheel, neighbour, origin};
ghost use Rattle.half_edge_dcel.specs.{FillsHole, IsMeshWithData};
ghost use Rattle.{delaunay_legalization.specs.IsEmbedding, delaunay_vertices.specs.Pairs.HasRoomAt};
ghost use Rattle.delaunay_vertices.specs.Star.{IsInnerStar, LosesStar, ShrinksStar};

use crate::VertexPair;
use crate::choice::{Spokes, edge_to_go_on};
use crate::star::{opposite_side, turn_away};
use delaunay_core::math::PlaneTests;
use delaunay_core::point::HasPosition;
use delaunay_legalization::ccw_edge;
use half_edge_dcel::Dcel;
use half_edge_links::{FixedDirectedEdgeHandle, FixedVertexHandle};

// Turns edges of an inner vertex away, from which `first` and so many in all start, until three are
// left, or four with the vertex strictly between two ends. Gives one of those that are left, and
// how many they are. `turned` has room for a pair at each edge, and gets what each turned one
// joins.
fn shrink_star<V: HasPosition, DE, UE, F, P: PlaneTests<V::Scalar>>(
    dcel: &mut Dcel<V, DE, UE, F>,
    first: FixedDirectedEdgeHandle,
    count: usize,
    tests: &P,
    turned: &mut Vec<VertexPair>,
) -> (FixedDirectedEdgeHandle, usize)
    requires embedding { IsEmbedding V.place P.sites dcel.old tests.now }
    requires star { IsInnerStar (map V.place dcel.old.vertices) dcel.old.mesh
        (origin dcel.old.mesh first) first count }
    requires room { HasRoomAt dcel.old.mesh (origin dcel.old.mesh first) (vec_len turned.old)
        (vec_capacity turned.old) }
    ensures shrinks { ShrinksStar V.place dcel.old dcel.new (origin dcel.old.mesh first) result.0
        result.1 turned.new.items }
    ensures room { vec_len turned.new + result.1 ≤ vec_capacity turned.new }
{
    let mut first = first;
    let mut count = count;
    while count > 3 {
        let spokes = Spokes { dcel, first, tests };
        match spokes.choose_edge(count) {
            Some(edge) => {
                turn_away(dcel, edge, turned);
                first = edge_to_go_on(dcel, edge, count, edge);
                count -= 1;
            }
            None => return (first, count),
        }
    }
    (first, count)
}

// Puts one face in the place of the three faces round a vertex, the first of them on the left of
// `first`.
fn fill_three<V, DE: Drop, UE: Drop, F: Drop>(
    dcel: &mut Dcel<V, DE, UE, F>,
    first: FixedDirectedEdgeHandle,
    vertex: FixedVertexHandle,
)
    requires whole { IsMeshWithData dcel.old }
    requires wheel { IsWheel dcel.old.mesh first }
    requires starts { origin dcel.old.mesh first ≡ vertex }
    ensures hole { FillsHole dcel.old dcel.new vertex (neighbour dcel.old.mesh first) }
    ensures whole { IsMeshWithData dcel.new }
{
    let second = ccw_edge(dcel, first);
    let third = ccw_edge(dcel, second);
    let border = [
        opposite_side(dcel, first),
        opposite_side(dcel, second),
        opposite_side(dcel, third),
    ];
    let _ = dcel.isolate_vertex_and_fill_hole(&border, vertex);
}

// Removes the edges of a vertex inside the hull, from which `first` and so many in all start, and
// fills the hole that it leaves. `turned` has room for a pair at each edge, and gets what each
// turned one joins.
pub(crate) fn isolate_inner<V: HasPosition, DE: Drop, UE: Drop, F: Drop, P: PlaneTests<V::Scalar>>(
    dcel: &mut Dcel<V, DE, UE, F>,
    first: FixedDirectedEdgeHandle,
    count: usize,
    vertex: FixedVertexHandle,
    tests: &P,
    turned: &mut Vec<VertexPair>,
)
    requires embedding { IsEmbedding V.place P.sites dcel.old tests.now }
    requires star { IsInnerStar (map V.place dcel.old.vertices) dcel.old.mesh
        (origin dcel.old.mesh first) first count }
    requires starts { origin dcel.old.mesh first ≡ vertex }
    requires room { HasRoomAt dcel.old.mesh (origin dcel.old.mesh first) (vec_len turned.old)
        (vec_capacity turned.old) }
    ensures { LosesStar V.place dcel.old dcel.new vertex turned.new.items }
{
    let (first, count) = shrink_star(dcel, first, count, tests, turned);
    if count == 3 {
        fill_three(dcel, first, vertex);
    } else {
        let spokes = Spokes { dcel, first, tests };
        let beside = spokes.edge_beside_line();
        turn_away(dcel, beside, turned);
        fill_three(dcel, beside, vertex);
    }
}
