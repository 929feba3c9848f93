//! The steps of a walk from face to face towards a position.
ghost use Rattle.std.specs.Prelude.{◌<◌, length, map};
ghost use Rattle.half_edge_links.specs.{face};
ghost use Rattle.{delaunay_core.specs.place_of, delaunay_legalization.specs.IsMeshEdge};
ghost use Rattle.delaunay_location.specs.Stop.{IsStepOf, IsStopOf};

use crate::PositionInTriangulation;
use delaunay_core::math::PlaneTests;
use delaunay_core::point::{HasPosition, Point2};
use delaunay_legalization::{Embedding, is_outer, turns_left};
use half_edge_dcel::MeshViews;
use half_edge_links::FixedDirectedEdgeHandle;

// Where a walk is: in the face on the left of an edge. The positions of its ends are kept, so that
// a step reads that of one vertex.
#[derive(Clone, Copy)]
pub(crate) struct Stop<S> {
    pub(crate) edge: FixedDirectedEdgeHandle,
    pub(crate) from: Point2<S>,
    pub(crate) to: Point2<S>,
}

// What a step of a walk leads to.
pub(crate) enum Step<S> {
    // The face beyond this side.
    Beyond(Stop<S>),
    // The end of the walk: the position is here.
    Found(PositionInTriangulation),
    // The end of the walk: the position is on this side of the face.
    OnSide(FixedDirectedEdgeHandle),
}

// The positions of the ends of an edge.
#[inline(always)]
pub(crate) fn ends_of<V: HasPosition, DE, UE, F, P: PlaneTests<V::Scalar>>(
    embedding: &Embedding<'_, V, DE, UE, F, P>,
    edge: FixedDirectedEdgeHandle,
) -> (Point2<V::Scalar>, Point2<V::Scalar>)
    requires { edge < length embedding.now.dcel.directed }
    ensures stop { IsStopOf V.place V.Scalar.whole P.covered embedding.now
        (record { edge = edge; from = result.0; to = result.1 }) }
    ensures edge { IsMeshEdge (map V.place embedding.now.dcel.vertices) embedding.now.dcel.mesh edge }
{
    let to = embedding.dcel.directed_edge(edge).rev().fix();
    (embedding.start_of(edge), embedding.start_of(to))
}

// The step from the inner face on the left of an edge: across a side that has the position strictly
// on its right, of which the edge itself is looked at last; else the face, where the position is
// strictly inside, or the side that it is on.
#[inline(always)]
pub(crate) fn way_through<V: HasPosition, DE, UE, F, P: PlaneTests<V::Scalar>>(
    embedding: &Embedding<'_, V, DE, UE, F, P>,
    point: Point2<V::Scalar>,
    stop: Stop<V::Scalar>,
) -> Step<V::Scalar>
    requires stop { IsStopOf V.place V.Scalar.whole P.covered embedding.now stop }
    requires inner { 0 < face embedding.now.dcel.mesh stop.edge }
    requires covered { P.covered embedding.now.tests (place_of V.Scalar.whole point) }
    ensures { IsStepOf V.place V.Scalar.whole P.covered embedding.now point result }
{
    let here = embedding.dcel.directed_edge(stop.edge);
    let Stop { from, to, .. } = stop;
    let across = embedding.start_before(stop.edge);
    let behind = Stop {
        edge: here.prev().fix(),
        from: across,
        to: from,
    };
    let ahead = Stop {
        edge: here.next().fix(),
        from: to,
        to: across,
    };
    let at_behind = embedding.tests.side(across, from, point);
    if at_behind.is_on_right_side() {
        return Step::Beyond(behind);
    }
    let at_ahead = embedding.tests.side(to, across, point);
    if at_ahead.is_on_right_side() {
        return Step::Beyond(ahead);
    }
    let at_stop = embedding.tests.side(from, to, point);
    if at_stop.is_on_right_side() {
        return Step::Beyond(stop);
    }
    if at_behind.is_on_left_side() && at_ahead.is_on_left_side() && at_stop.is_on_left_side() {
        return Step::Found(PositionInTriangulation::OnFace(here.face().fix()));
    }
    if at_behind.is_on_line() {
        return Step::OnSide(behind.edge);
    }
    if at_ahead.is_on_line() {
        return Step::OnSide(ahead.edge);
    }
    Step::OnSide(stop.edge)
}

// The same of a face near the hull. From the outer face it leads across the edge, unless the
// position is strictly on the left of that.
#[inline(never)]
pub(crate) fn way_near_hull<V: HasPosition, DE, UE, F, P: PlaneTests<V::Scalar>>(
    embedding: &Embedding<'_, V, DE, UE, F, P>,
    point: Point2<V::Scalar>,
    stop: Stop<V::Scalar>,
) -> Step<V::Scalar>
    requires stop { IsStopOf V.place V.Scalar.whole P.covered embedding.now stop }
    requires covered { P.covered embedding.now.tests (place_of V.Scalar.whole point) }
    ensures { IsStepOf V.place V.Scalar.whole P.covered embedding.now point result }
{
    if is_outer(embedding.dcel, stop.edge) {
        if turns_left(stop.from, stop.to, point, embedding.tests) {
            return Step::Found(PositionInTriangulation::OutsideOfConvexHull(stop.edge));
        }
        return Step::Beyond(stop);
    }
    way_through(embedding, point, stop)
}
