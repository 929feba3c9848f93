//! Where a position is among vertices of one line, by a walk along it.
ghost use Rattle.std.specs.Prelude.{◌≡◌, ◌<◌, length, IfSome};
ghost use Rattle.delaunay_core.specs.{place_of};
ghost use Rattle.delaunay_location.specs.{Location.IsPlaceOf, Stop.IsWalkOf};

use crate::PositionInTriangulation;
use crate::steps::ends_of;
use crate::vertex_distance::is_nearer;
use crate::walk::{FEW_STEPS, Walked, nearer_edge, place_on_edge};
use delaunay_core::math::PlaneTests;
use delaunay_core::point::{HasPosition, Point2};
use delaunay_legalization::{Embedding, is_same_point, is_strictly_within};
use half_edge_dcel::MeshViews;
use half_edge_links::FixedDirectedEdgeHandle;

// The location of a position near the start of an edge of the line: on one of its edges, or past
// this vertex, where it has no other. An edge is told by the first of its directions.
fn place_near<V: HasPosition, DE, UE, F, P: PlaneTests<V::Scalar>>(
    embedding: &Embedding<'_, V, DE, UE, F, P>,
    point: Point2<V::Scalar>,
    edge: FixedDirectedEdgeHandle,
) -> Option<PositionInTriangulation>
    requires within { edge < length embedding.now.dcel.directed }
    requires line { length embedding.now.dcel.faces ≡ 0 }
    requires covered { P.covered embedding.now.tests (place_of V.Scalar.whole point) }
    ensures { IfSome result (IsPlaceOf V.place V.Scalar.whole embedding.now point) }
{
    if let Some(place) = place_on_edge(embedding, point, edge.as_undirected().as_directed()) {
        return Some(place);
    }
    let other = embedding.dcel.directed_edge(edge).cw().fix();
    if other.index() != edge.index() {
        return place_on_edge(embedding, point, other.as_undirected().as_directed());
    }
    let (from, to) = ends_of(embedding, edge);
    if is_same_point(from, point) || is_same_point(to, point) {
        return None;
    }
    if is_strictly_within(point, to, from, embedding.tests) {
        return Some(PositionInTriangulation::OutsideOfConvexHull(edge));
    }
    None
}

// Whether an edge ends nearer to the position than it starts.
fn ends_nearer<V: HasPosition, DE, UE, F, P: PlaneTests<V::Scalar>>(
    embedding: &Embedding<'_, V, DE, UE, F, P>,
    point: Point2<V::Scalar>,
    edge: FixedDirectedEdgeHandle,
) -> bool
    requires within { edge < length embedding.now.dcel.directed }
    requires covered { P.covered embedding.now.tests (place_of V.Scalar.whole point) }
{
    let edge = embedding.dcel.directed_edge(edge);
    is_nearer(embedding.dcel, edge.to().fix(), edge.from().fix(), point)
}

// Where a walk along the line from the start of an edge ends, or is after a number of steps. It
// begins by this edge, or by the other one there, where this one leads away from the position. Past
// the end of the line it turns round, and ends there.
fn walk_along<V: HasPosition, DE, UE, F, P: PlaneTests<V::Scalar>>(
    embedding: &Embedding<'_, V, DE, UE, F, P>,
    point: Point2<V::Scalar>,
    start: FixedDirectedEdgeHandle,
    steps: usize,
) -> Walked
    requires within { start < length embedding.now.dcel.directed }
    requires line { length embedding.now.dcel.faces ≡ 0 }
    requires covered { P.covered embedding.now.tests (place_of V.Scalar.whole point) }
    ensures { IsWalkOf V.place V.Scalar.whole embedding.now point result }
{
    let mut edge = start;
    if !ends_nearer(embedding, point, start) {
        edge = embedding.dcel.directed_edge(start).cw().fix();
    }
    for _ in 0..steps {
        if !ends_nearer(embedding, point, edge) {
            return Walked::Ended(place_near(embedding, point, edge));
        }
        edge = embedding.dcel.directed_edge(edge).next().fix();
    }
    Walked::Reached(edge)
}

// Where a position is among vertices of one line: beside the line, and so beyond one of the
// directions of each edge, or else where a walk along it from the start of an edge ends. A long
// walk goes on at a vertex all over the mesh, if one of those looked at is nearer.
#[inline(never)]
pub(crate) fn place_on_line<V: HasPosition, DE, UE, F, P: PlaneTests<V::Scalar>>(
    embedding: &Embedding<'_, V, DE, UE, F, P>,
    point: Point2<V::Scalar>,
    start: FixedDirectedEdgeHandle,
) -> Option<PositionInTriangulation>
    requires within { start < length embedding.now.dcel.directed }
    requires line { length embedding.now.dcel.faces ≡ 0 }
    requires covered { P.covered embedding.now.tests (place_of V.Scalar.whole point) }
    ensures { IfSome result (IsPlaceOf V.place V.Scalar.whole embedding.now point) }
{
    let first = FixedDirectedEdgeHandle::from_index(0);
    let (from, to) = ends_of(embedding, first);
    let side = embedding.tests.side(from, to, point);
    if side.is_on_left_side() {
        return Some(PositionInTriangulation::OutsideOfConvexHull(first));
    }
    if side.is_on_right_side() {
        return Some(PositionInTriangulation::OutsideOfConvexHull(first.rev()));
    }
    let edge = match walk_along(embedding, point, start, FEW_STEPS) {
        Walked::Ended(place) => return place,
        Walked::Reached(edge) => nearer_edge(embedding.dcel, edge, point),
    };
    match walk_along(embedding, point, edge, embedding.dcel.num_directed_edges()) {
        Walked::Ended(place) => place,
        Walked::Reached(_) => None,
    }
}
