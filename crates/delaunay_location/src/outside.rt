//! What a segment meets first, from outside the triangulation.
ghost use Rattle.std.specs.Prelude.{◌↔◌, ◌<◌, ◌<ℤ◌, length, map, IsTrue, IfSome, IfNone};
ghost use Rattle.plane.specs.{gap, IsPast, OnSegment, whole as fraction};
ghost use Rattle.half_edge_links.specs.{origin};
ghost use Rattle.{delaunay_core.specs.place_of, delaunay_legalization.specs.drawn};
ghost use Rattle.delaunay_location.specs.Outline.{IsIfSeen, IsSeenOuter, IsTurningPoint};
ghost use Rattle.delaunay_location.specs.Over.{AreEnds, BeginsWith, IsFromOutside};
ghost use Rattle.delaunay_location.specs.Starts.{IsBetter, IsBetterOf, IsCrossed, IsFirstFound};
ghost use Rattle.delaunay_location.specs.Starts.{IsNearestOf, IsOnSegment};

use crate::FixedIntersection;
use delaunay_core::math::PlaneTests;
use delaunay_core::point::{HasPosition, Point2, SpadeNum};
use delaunay_legalization::{Embedding, is_same_point, is_strictly_within, position_of};
use half_edge_dcel::MeshViews;
use half_edge_links::{FixedDirectedEdgeHandle, FixedVertexHandle};

// Whether a point is nearer to a position than another.
fn is_point_nearer<S: SpadeNum, P: PlaneTests<S>>(
    from: Point2<S>,
    point: Point2<S>,
    other: Point2<S>,
    tests: &P,
) -> bool
    requires from_covered { P.covered tests.now (place_of S.whole from) }
    requires point_covered { P.covered tests.now (place_of S.whole point) }
    requires other_covered { P.covered tests.now (place_of S.whole other) }
    ensures { IsTrue result ↔
        (gap (fraction (place_of S.whole from)) (fraction (place_of S.whole point)) <ℤ
        gap (fraction (place_of S.whole from)) (fraction (place_of S.whole other))) }
{
    from.distance_2(point) < from.distance_2(other)
}

// Whether a segment crosses an edge, with its end on the edge's left.
fn is_crossed<V: HasPosition, DE, UE, F, P: PlaneTests<V::Scalar>>(
    embedding: &Embedding<'_, V, DE, UE, F, P>,
    from: Point2<V::Scalar>,
    to: Point2<V::Scalar>,
    edge: FixedDirectedEdgeHandle,
) -> bool
    requires within { edge < length embedding.now.dcel.directed }
    requires ends { AreEnds V.Scalar.whole P.covered embedding.now.tests from to }
    ensures { IsTrue result ↔
        IsCrossed (map V.place embedding.now.dcel.vertices) embedding.now.dcel.mesh
        (place_of V.Scalar.whole from) (place_of V.Scalar.whole to) edge }
{
    if !embedding
        .tests
        .side(from, to, embedding.start_of(edge))
        .is_on_left_side()
    {
        return false;
    }
    if !embedding
        .tests
        .side(from, to, embedding.end_of(edge))
        .is_on_right_side()
    {
        return false;
    }
    embedding
        .side_along(edge, from)
        .is_on_right_side_or_on_line()
        && embedding.side_along(edge, to).is_on_left_side_or_on_line()
}

// Whether a point is on a segment.
fn carries<S: SpadeNum, P: PlaneTests<S>>(
    from: Point2<S>,
    to: Point2<S>,
    point: Point2<S>,
    tests: &P,
) -> bool
    requires ends { AreEnds S.whole P.covered tests.now from to }
    requires covered { P.covered tests.now (place_of S.whole point) }
    ensures { IsTrue result ↔
        OnSegment (fraction (place_of S.whole from)) (fraction (place_of S.whole to))
        (fraction (place_of S.whole point)) }
{
    if is_same_point(point, from) {
        return true;
    }
    if is_same_point(point, to) {
        return true;
    }
    is_strictly_within(from, to, point, tests)
}

// Whether a vertex is on a segment, and nearer to its start than another vertex, if there is one.
fn is_better<V: HasPosition, DE, UE, F, P: PlaneTests<V::Scalar>>(
    embedding: &Embedding<'_, V, DE, UE, F, P>,
    from: Point2<V::Scalar>,
    to: Point2<V::Scalar>,
    vertex: FixedVertexHandle,
    than: &Option<FixedVertexHandle>,
) -> bool
    requires within { vertex < length embedding.now.dcel.vertices }
    requires other_within { IfSome than.now (λ o. o < length embedding.now.dcel.vertices) }
    requires ends { AreEnds V.Scalar.whole P.covered embedding.now.tests from to }
    ensures { IsTrue result ↔
        IsBetter (map V.place embedding.now.dcel.vertices) (place_of V.Scalar.whole from)
        (place_of V.Scalar.whole to) vertex than.now }
{
    let position = position_of(embedding.dcel, vertex);
    if !carries(from, to, position, embedding.tests) {
        return false;
    }
    match than {
        Some(other) => {
            let reached = position_of(embedding.dcel, *other);
            is_point_nearer(from, position, reached, embedding.tests)
        }
        None => true,
    }
}

// The better one of a vertex and one on a segment that was found before, if there is one.
fn better_of<V: HasPosition, DE, UE, F, P: PlaneTests<V::Scalar>>(
    embedding: &Embedding<'_, V, DE, UE, F, P>,
    from: Point2<V::Scalar>,
    to: Point2<V::Scalar>,
    vertex: FixedVertexHandle,
    found: Option<FixedVertexHandle>,
) -> Option<FixedVertexHandle>
    requires within { vertex < length embedding.now.dcel.vertices }
    requires found { IsOnSegment (map V.place embedding.now.dcel.vertices)
        (place_of V.Scalar.whole from) (place_of V.Scalar.whole to) found }
    requires ends { AreEnds V.Scalar.whole P.covered embedding.now.tests from to }
    ensures { IsBetterOf (map V.place embedding.now.dcel.vertices)
        (place_of V.Scalar.whole from) (place_of V.Scalar.whole to) vertex found result }
{
    if is_better(embedding, from, to, vertex, &found) {
        return Some(vertex);
    }
    found
}

// Vertex 0, if it is on a segment. It may be the only one, without an edge.
fn first_found<V: HasPosition, DE, UE, F, P: PlaneTests<V::Scalar>>(
    embedding: &Embedding<'_, V, DE, UE, F, P>,
    from: Point2<V::Scalar>,
    to: Point2<V::Scalar>,
) -> Option<FixedVertexHandle>
    requires ends { AreEnds V.Scalar.whole P.covered embedding.now.tests from to }
    ensures { IsFirstFound (map V.place embedding.now.dcel.vertices)
        (place_of V.Scalar.whole from) (place_of V.Scalar.whole to) result }
{
    if embedding.dcel.num_vertices() == 0 {
        return None;
    }
    better_of(embedding, from, to, FixedVertexHandle::from_index(0), None)
}

// Of the vertices on a segment that are on the outline, one that is nearest to its start.
fn nearest_vertex<V: HasPosition, DE, UE, F, P: PlaneTests<V::Scalar>>(
    embedding: &Embedding<'_, V, DE, UE, F, P>,
    from: Point2<V::Scalar>,
    to: Point2<V::Scalar>,
) -> Option<FixedVertexHandle>
    requires ends { AreEnds V.Scalar.whole P.covered embedding.now.tests from to }
    ensures { IsNearestOf (map V.place embedding.now.dcel.vertices) embedding.now.dcel.mesh
        (place_of V.Scalar.whole from) (place_of V.Scalar.whole to) result }
{
    let mut nearest = first_found(embedding, from, to);
    for outer in embedding.dcel.convex_hull() {
        let edge = embedding.dcel.directed_edge(outer.fix());
        nearest = better_of(embedding, from, to, edge.from().fix(), nearest);
    }
    nearest
}

// From outside: the edge by which the segment enters, else the nearest vertex on it. It goes along
// the outline up to such an edge, and, where there is none, once more.
pub(crate) fn first_on_outline<V: HasPosition, DE, UE, F, P: PlaneTests<V::Scalar>>(
    embedding: &Embedding<'_, V, DE, UE, F, P>,
    from: Point2<V::Scalar>,
    to: Point2<V::Scalar>,
) -> Option<FixedIntersection>
    requires ends { AreEnds V.Scalar.whole P.covered embedding.now.tests from to }
    requires start { IsFromOutside V.place V.Scalar.whole embedding.now from }
    ensures { BeginsWith V.place V.Scalar.whole embedding.now from to result }
{
    for outer in embedding.dcel.convex_hull() {
        let edge = outer.rev().fix();
        if is_crossed(embedding, from, to, edge) {
            return Some(FixedIntersection::Edge(edge));
        }
    }
    match nearest_vertex(embedding, from, to) {
        Some(vertex) => Some(FixedIntersection::Vertex(vertex)),
        None => None,
    }
}

// An edge, where a point is strictly on its left.
pub(crate) fn if_seen<V: HasPosition, DE, UE, F, P: PlaneTests<V::Scalar>>(
    embedding: &Embedding<'_, V, DE, UE, F, P>,
    from: Point2<V::Scalar>,
    edge: FixedDirectedEdgeHandle,
) -> Option<FixedDirectedEdgeHandle>
    requires within { edge < length embedding.now.dcel.directed }
    requires covered { P.covered embedding.now.tests (place_of V.Scalar.whole from) }
    ensures { IsIfSeen (map V.place embedding.now.dcel.vertices) embedding.now.dcel.mesh
        (place_of V.Scalar.whole from) edge result }
{
    if embedding.side_along(edge, from).is_on_left_side() {
        return Some(edge);
    }
    None
}

// The neighbour of a seen outer edge along the outline, on the side where the segment's line passes
// the edge, if there is such a side and the start sees the neighbour.
fn seen_neighbour<V: HasPosition, DE, UE, F, P: PlaneTests<V::Scalar>>(
    embedding: &Embedding<'_, V, DE, UE, F, P>,
    from: Point2<V::Scalar>,
    to: Point2<V::Scalar>,
    edge: FixedDirectedEdgeHandle,
) -> Option<FixedDirectedEdgeHandle>
    requires ends { AreEnds V.Scalar.whole P.covered embedding.now.tests from to }
    requires seen { IsSeenOuter V.place embedding.now.dcel (place_of V.Scalar.whole from) edge }
    ensures some { IfSome result
        (IsSeenOuter V.place embedding.now.dcel (place_of V.Scalar.whole from)) }
    ensures none { IfNone result (IsTurningPoint V.place embedding.now.dcel
        (place_of V.Scalar.whole from) (place_of V.Scalar.whole to) edge) }
{
    let here = embedding.dcel.directed_edge(edge);
    let end = embedding.tests.side(from, to, embedding.end_of(edge));
    if end.is_on_right_side() {
        return if_seen(embedding, from, here.next().fix());
    }
    let start = embedding.tests.side(from, to, embedding.start_of(edge));
    if start.is_on_left_side() {
        return if_seen(embedding, from, here.prev().fix());
    }
    None
}

// What it meets first, where the outline comes no nearer to its line beyond a seen outer edge.
fn first_at<V: HasPosition, DE, UE, F, P: PlaneTests<V::Scalar>>(
    embedding: &Embedding<'_, V, DE, UE, F, P>,
    from: Point2<V::Scalar>,
    to: Point2<V::Scalar>,
    edge: FixedDirectedEdgeHandle,
) -> Option<FixedIntersection>
    requires ends { AreEnds V.Scalar.whole P.covered embedding.now.tests from to }
    requires start { IsFromOutside V.place V.Scalar.whole embedding.now from }
    requires seen { IsSeenOuter V.place embedding.now.dcel (place_of V.Scalar.whole from) edge }
    requires stop { IsTurningPoint V.place embedding.now.dcel (place_of V.Scalar.whole from)
        (place_of V.Scalar.whole to) edge }
    ensures { BeginsWith V.place V.Scalar.whole embedding.now from to result }
{
    let here = embedding.dcel.directed_edge(edge);
    let start = embedding.tests.side(from, to, embedding.start_of(edge));
    let end = embedding.tests.side(from, to, embedding.end_of(edge));
    if embedding.side_along(edge, to).is_on_left_side() {
        return None;
    }
    if end.is_on_right_side() {
        return None;
    }
    if start.is_on_left_side() {
        return None;
    }
    if end.is_on_line() {
        return Some(FixedIntersection::Vertex(here.to().fix()));
    }
    if start.is_on_line() {
        return Some(FixedIntersection::Vertex(here.from().fix()));
    }
    Some(FixedIntersection::Edge(edge.rev()))
}

// From a seen outer edge along the outline to what it meets first: nothing, where it ends on the
// left of this edge too. Each step leads nearer to its line, but nothing here rests on that: behind
// the last step is the look along the whole outline.
pub(crate) fn first_along<V: HasPosition, DE, UE, F, P: PlaneTests<V::Scalar>>(
    embedding: &Embedding<'_, V, DE, UE, F, P>,
    from: Point2<V::Scalar>,
    to: Point2<V::Scalar>,
    edge: FixedDirectedEdgeHandle,
) -> Option<FixedIntersection>
    requires ends { AreEnds V.Scalar.whole P.covered embedding.now.tests from to }
    requires start { IsFromOutside V.place V.Scalar.whole embedding.now from }
    requires seen { IsSeenOuter V.place embedding.now.dcel (place_of V.Scalar.whole from) edge }
    ensures { BeginsWith V.place V.Scalar.whole embedding.now from to result }
{
    let steps = embedding.dcel.num_directed_edges();
    if embedding.side_along(edge, to).is_on_left_side() {
        return None;
    }
    let mut here = edge;
    for _ in 0..steps {
        match seen_neighbour(embedding, from, to, here) {
            Some(neighbour) => here = neighbour,
            None => return first_at(embedding, from, to, here),
        }
    }
    first_on_outline(embedding, from, to)
}

// From past the vertex at the end of a line of vertices, where an edge starts: this vertex, if it
// is on the segment.
pub(crate) fn first_past<V: HasPosition, DE, UE, F, P: PlaneTests<V::Scalar>>(
    embedding: &Embedding<'_, V, DE, UE, F, P>,
    from: Point2<V::Scalar>,
    to: Point2<V::Scalar>,
    edge: FixedDirectedEdgeHandle,
) -> Option<FixedIntersection>
    requires within { edge < length embedding.now.dcel.directed }
    requires ends { AreEnds V.Scalar.whole P.covered embedding.now.tests from to }
    requires start { IsFromOutside V.place V.Scalar.whole embedding.now from }
    requires past { IsPast (drawn (map V.place embedding.now.dcel.vertices) embedding.now.dcel.mesh)
        (origin embedding.now.dcel.mesh edge) (fraction (place_of V.Scalar.whole from)) }
    ensures { BeginsWith V.place V.Scalar.whole embedding.now from to result }
{
    let vertex = embedding.dcel.directed_edge(edge).from().fix();
    if carries(
        from,
        to,
        position_of(embedding.dcel, vertex),
        embedding.tests,
    ) {
        return Some(FixedIntersection::Vertex(vertex));
    }
    None
}
