//! What a segment meets first, from strictly within an edge, or strictly inside a face.
ghost use Rattle.std.specs.Prelude.{◌≡◌, ◌↔◌, ◌<◌, length, map, IsTrue};
ghost use Rattle.delaunay_core.specs.{place_of};
ghost use Rattle.delaunay_location.specs.Over.{AreEnds, BeginsWith, IsFromInside};
ghost use Rattle.delaunay_location.specs.Starts.{GoesOver, StartsWithin};

use crate::FixedIntersection;
use crate::vertex::is_ahead;
use delaunay_core::math::PlaneTests;
use delaunay_core::point::{HasPosition, Point2};
use delaunay_legalization::Embedding;
use half_edge_dcel::MeshViews;
use half_edge_links::FixedDirectedEdgeHandle;

// From strictly within an edge: the edge, crossed or gone along.
pub(crate) fn first_on_edge<V: HasPosition, DE, UE, F, P: PlaneTests<V::Scalar>>(
    embedding: &Embedding<'_, V, DE, UE, F, P>,
    from: Point2<V::Scalar>,
    to: Point2<V::Scalar>,
    edge: FixedDirectedEdgeHandle,
) -> FixedIntersection
    requires within { edge < length embedding.now.dcel.directed }
    requires ends { AreEnds V.Scalar.whole P.covered embedding.now.tests from to }
    requires start { StartsWithin (map V.place embedding.now.dcel.vertices) embedding.now.dcel.mesh
        (place_of V.Scalar.whole from) edge }
    ensures { BeginsWith V.place V.Scalar.whole embedding.now from to (Some result) }
{
    let twin = embedding.dcel.directed_edge(edge).rev().fix();
    let side = embedding.side_along(edge, to);
    if side.is_on_left_side() {
        return FixedIntersection::Edge(edge);
    }
    if side.is_on_right_side() {
        return FixedIntersection::Edge(twin);
    }
    if is_ahead(from, embedding.end_of(edge), to, embedding.tests) {
        FixedIntersection::Overlap(edge)
    } else {
        FixedIntersection::Overlap(twin)
    }
}

// Whether an edge starts on the right of a segment, or on its line, and ends on its left.
fn goes_over<V: HasPosition, DE, UE, F, P: PlaneTests<V::Scalar>>(
    embedding: &Embedding<'_, V, DE, UE, F, P>,
    from: Point2<V::Scalar>,
    to: Point2<V::Scalar>,
    edge: FixedDirectedEdgeHandle,
) -> bool
    requires within { edge < length embedding.now.dcel.directed }
    requires ends { AreEnds V.Scalar.whole P.covered embedding.now.tests from to }
    ensures { IsTrue result ↔
        GoesOver (map V.place embedding.now.dcel.vertices) embedding.now.dcel.mesh
        (place_of V.Scalar.whole from) (place_of V.Scalar.whole to) edge }
{
    let start = embedding.tests.side(from, to, embedding.start_of(edge));
    let end = embedding.tests.side(from, to, embedding.end_of(edge));
    start.is_on_right_side_or_on_line() && end.is_on_left_side()
}

// Of the edges of the face that a segment starts in, the one that goes over the segment from its
// right.
fn edge_over<V: HasPosition, DE, UE, F, P: PlaneTests<V::Scalar>>(
    embedding: &Embedding<'_, V, DE, UE, F, P>,
    from: Point2<V::Scalar>,
    to: Point2<V::Scalar>,
    edge: FixedDirectedEdgeHandle,
) -> FixedDirectedEdgeHandle
    requires within { edge < length embedding.now.dcel.directed }
    requires ends { AreEnds V.Scalar.whole P.covered embedding.now.tests from to }
    requires start { IsFromInside V.place V.Scalar.whole embedding.now from edge }
    ensures within { result < length embedding.now.dcel.directed }
    ensures start { IsFromInside V.place V.Scalar.whole embedding.now from result }
    ensures over { GoesOver (map V.place embedding.now.dcel.vertices) embedding.now.dcel.mesh
        (place_of V.Scalar.whole from) (place_of V.Scalar.whole to) result }
{
    let here = embedding.dcel.directed_edge(edge);
    if goes_over(embedding, from, to, edge) {
        return edge;
    }
    let next = here.next().fix();
    if goes_over(embedding, from, to, next) {
        return next;
    }
    here.prev().fix()
}

// From strictly inside a face: nothing where the segment ends there, else a corner or a side.
pub(crate) fn first_in_face<V: HasPosition, DE, UE, F, P: PlaneTests<V::Scalar>>(
    embedding: &Embedding<'_, V, DE, UE, F, P>,
    from: Point2<V::Scalar>,
    to: Point2<V::Scalar>,
    edge: FixedDirectedEdgeHandle,
) -> Option<FixedIntersection>
    requires within { edge < length embedding.now.dcel.directed }
    requires ends { AreEnds V.Scalar.whole P.covered embedding.now.tests from to }
    requires start { IsFromInside V.place V.Scalar.whole embedding.now from edge }
    ensures { BeginsWith V.place V.Scalar.whole embedding.now from to result }
{
    let exit = edge_over(embedding, from, to, edge);
    let here = embedding.dcel.directed_edge(exit);
    if embedding.side_along(exit, to).is_on_left_side() {
        return None;
    }
    if embedding
        .tests
        .side(from, to, embedding.start_of(exit))
        .is_on_line()
    {
        return Some(FixedIntersection::Vertex(here.from().fix()));
    }
    Some(FixedIntersection::Edge(exit.rev()))
}
