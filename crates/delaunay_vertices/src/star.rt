//! The edges round a vertex, and turns of them.
ghost use Rattle.std.specs.Prelude.{◌≡◌, ◌↔◌, ◌<◌, length, IsTrue, vec_capacity, vec_len};
ghost use Rattle.half_edge_links.specs.{face, IsRound, next, origin, rev, turn};
ghost use Rattle.delaunay_vertices.specs.Star.{MayTurnAway, TurnsAway};

use crate::VertexPair;
use crate::pairs::ends_beside;
use delaunay_core::point::HasPosition;
pub(crate) use delaunay_legalization::ccw_edge;
use delaunay_legalization::is_outer;
use half_edge_dcel::{Dcel, MeshViews};
use half_edge_links::FixedDirectedEdgeHandle;

// The edge before an edge round the vertex where it starts: before the one with the outer face on
// its right, the last one.
pub(crate) fn cw_edge<V, DE, UE, F>(
    dcel: &Dcel<V, DE, UE, F>,
    edge: FixedDirectedEdgeHandle,
) -> FixedDirectedEdgeHandle
    requires { edge < length dcel.now.directed }
    ensures value { result ≡ next dcel.now.mesh (rev edge) }
    ensures within { result < length dcel.now.directed }
    ensures starts { origin dcel.now.mesh result ≡ origin dcel.now.mesh edge }
{
    dcel.directed_edge(edge).cw().fix()
}

// The edge after an edge in its loop. In a face of the vertex where the edge starts it is opposite
// this vertex.
pub(crate) fn opposite_side<V, DE, UE, F>(
    dcel: &Dcel<V, DE, UE, F>,
    edge: FixedDirectedEdgeHandle,
) -> FixedDirectedEdgeHandle
    requires { edge < length dcel.now.directed }
    ensures { result ≡ next dcel.now.mesh edge }
{
    dcel.directed_edge(edge).next().fix()
}

// How many edges start where an edge starts.
pub(crate) fn count_edges<V, DE, UE, F>(
    dcel: &Dcel<V, DE, UE, F>,
    first: FixedDirectedEdgeHandle,
) -> usize
    requires { first < length dcel.now.directed }
    ensures { IsRound dcel.now.mesh (origin dcel.now.mesh first) first result }
{
    dcel.recall_invariant();
    let mut edge = ccw_edge(dcel, first);
    let mut count: usize = 1;
    while edge.index() != first.index() {
        edge = ccw_edge(dcel, edge);
        count += 1;
    }
    count
}

// Whether the edge after an edge, round the vertex where they start, lies between two faces.
pub(crate) fn is_between_faces<V, DE, UE, F>(
    dcel: &Dcel<V, DE, UE, F>,
    edge: FixedDirectedEdgeHandle,
) -> bool
    requires { edge < length dcel.now.directed }
    ensures { let m = dcel.now.mesh in
        IsTrue result ↔ ((0 < face m edge) × (0 < face m (turn m edge))) }
{
    !is_outer(dcel, edge) && !is_outer(dcel, ccw_edge(dcel, edge))
}

// Turns the edge after an edge, round the vertex where they start, so that it leaves this vertex,
// and puts what it joins then into a list.
pub(crate) fn turn_away<V: HasPosition, DE, UE, F>(
    dcel: &mut Dcel<V, DE, UE, F>,
    edge: FixedDirectedEdgeHandle,
    turned: &mut Vec<VertexPair>,
)
    requires turns { MayTurnAway V.place dcel.old edge }
    requires room { vec_len turned.old < vec_capacity turned.old }
    ensures { TurnsAway dcel.old dcel.new edge turned.old turned.new }
{
    let after = ccw_edge(dcel, edge);
    turned.push_reserved(ends_beside(dcel, edge));
    dcel.flip_cw(after.as_undirected());
}
