//! Flips towards a segment between two vertices.
ghost use Rattle.std.specs.Prelude.{◌≡◌, map, MatchOption};
ghost use Rattle.delaunay_edit.specs.{Crossing.IsWayMade, Leaving.IsWorkList};
ghost use Rattle.delaunay_edit.specs.Lists.{AreToTurn, HasAsEdge, IsToTurn, KeepRoom, TurnsOne};

use crate::CrossingLists;
use crate::nearer::Turning;
use delaunay_core::math::PlaneTests;
use delaunay_core::point::HasPosition;
use delaunay_legalization::{EdgeSet, Embedding, Sides, position_of, push_side, push_sides};
use half_edge_dcel::{Dcel, MeshViews};
use half_edge_links::{FixedDirectedEdgeHandle, FixedVertexHandle};

// Takes out an edge that crosses the segment between two vertices with none strictly between, and
// can be turned towards it, and tells in which direction the edge that is made crosses from the
// right, if it does. If there is none, no edge crosses, and the segment is one.
pub(crate) fn next_turn<V: HasPosition, DE, UE, F, P: PlaneTests<V::Scalar>>(
    embedding: &Embedding<'_, V, DE, UE, F, P>,
    from: FixedVertexHandle,
    to: FixedVertexHandle,
    lists: &mut CrossingLists,
) -> Option<(FixedDirectedEdgeHandle, Option<FixedDirectedEdgeHandle>)>
    requires turn { let d = embedding.now.dcel in
        AreToTurn (map V.place d.vertices) d from to lists.old }
    ensures found { let d = embedding.now.dcel in let points = map V.place d.vertices in
        MatchOption result (HasAsEdge points d from to)
        (λ t. IsToTurn points d from to t.0 lists.new × IsWayMade points d.mesh from to t.0 t.1) }
    ensures room { KeepRoom lists.old lists.new }
{
    // Where none of those still to be seen can be turned, all that wait are seen again.
    for _ in 0..2u32 {
        while let Some(edge) = lists.unseen.pop() {
            let here = embedding.dcel.directed_edge(edge);
            let turning = Turning {
                from: position_of(embedding.dcel, from),
                to: position_of(embedding.dcel, to),
                start: position_of(embedding.dcel, here.from().fix()),
                behind: position_of(embedding.dcel, here.rev().prev_from().fix()),
                end: position_of(embedding.dcel, here.next().from().fix()),
                ahead: position_of(embedding.dcel, here.prev_from().fix()),
                tests: embedding.tests,
            };
            if let Some(way) = turning.way_made(edge) {
                return Some((edge, way));
            }
            lists.waiting.push_reserved(edge);
        }
        // The first that waits is the next.
        while let Some(edge) = lists.waiting.pop() {
            lists.unseen.push_reserved(edge);
        }
    }
    None
}

// Turns an edge towards the segment. The edge that is made waits if it crosses. If not, the edges
// round it are left to test, and the one that waits last may be turned now.
pub(crate) fn turn<V: HasPosition, DE, UE, F>(
    dcel: &mut Dcel<V, DE, UE, F>,
    edge: FixedDirectedEdgeHandle,
    way: Option<FixedDirectedEdgeHandle>,
    from: FixedVertexHandle,
    to: FixedVertexHandle,
    lists: &mut CrossingLists,
    work: &mut EdgeSet,
)
    requires turning { IsToTurn (map V.place dcel.old.vertices) dcel.old from to edge lists.old }
    requires way { IsWayMade (map V.place dcel.old.vertices) dcel.old.mesh from to edge way }
    requires work { IsWorkList dcel.old work.old.items work.old.room }
    ensures turns { TurnsOne (map V.place dcel.old.vertices) dcel.old dcel.new from to
        work.old.items work.new.items lists.old lists.new }
    ensures capacity { work.new.room ≡ work.old.room }
{
    let whole = edge.as_undirected();
    match way {
        Some(way) => {
            dcel.flip_cw(whole);
            lists.waiting.push_reserved(way);
        }
        None => {
            let round = whole.as_directed();
            push_side(dcel, round, work);
            push_sides(dcel, round, &Sides::Round, work);
            dcel.flip_cw(whole);
            if let Some(last) = lists.waiting.pop() {
                lists.unseen.push_reserved(last);
            }
        }
    }
}
