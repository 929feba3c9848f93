//! What a segment meets after an edge that it crosses or goes along.
ghost use Rattle.delaunay_location.specs.Over.{GoesOnTo, IsAtItem};
ghost use Rattle.delaunay_location.specs.declared.intersection.FixedIntersection.TheVariants.{Edge};
ghost use Rattle.delaunay_location.specs.declared.intersection.FixedIntersection.TheVariants.{Overlap};

use crate::FixedIntersection;
use delaunay_core::math::PlaneTests;
use delaunay_core::point::{HasPosition, Point2};
use delaunay_legalization::{Embedding, is_same_point, is_strictly_within, position_of};
use half_edge_dcel::MeshViews;
use half_edge_links::FixedDirectedEdgeHandle;

// What a segment meets after an edge that it crosses: nothing where the other side is outside, or
// it ends on the edge or inside the next face; else another side of this face, or the corner
// between the two.
pub(crate) fn after_crossing<V: HasPosition, DE, UE, F, P: PlaneTests<V::Scalar>>(
    embedding: &Embedding<'_, V, DE, UE, F, P>,
    from: Point2<V::Scalar>,
    to: Point2<V::Scalar>,
    edge: FixedDirectedEdgeHandle,
) -> Option<FixedIntersection>
    requires { IsAtItem V.place V.Scalar.whole embedding.now from to P.covered (Edge edge) }
    ensures { GoesOnTo V.place V.Scalar.whole embedding.now from to (Edge edge) result }
{
    let here = embedding.dcel.directed_edge(edge);
    if here.is_outer_edge() {
        return None;
    }
    let end = embedding.side_along(edge, to);
    if end.is_on_line() {
        return None;
    }
    let corner = here.prev_from().fix();
    let opposite = position_of(embedding.dcel, corner);
    let side = embedding.tests.side(from, to, opposite);
    let exit = if side.is_on_right_side() {
        here.prev().fix()
    } else {
        here.next().fix()
    };
    if embedding.side_along(exit, to).is_on_left_side() {
        return None;
    }
    if side.is_on_line() {
        return Some(FixedIntersection::Vertex(corner));
    }
    Some(FixedIntersection::Edge(exit.rev()))
}

// What a segment meets after an edge that it overlaps: nothing where it ends strictly within the
// edge, else the vertex at the edge's end.
pub(crate) fn after_overlap<V: HasPosition, DE, UE, F, P: PlaneTests<V::Scalar>>(
    embedding: &Embedding<'_, V, DE, UE, F, P>,
    from: Point2<V::Scalar>,
    to: Point2<V::Scalar>,
    edge: FixedDirectedEdgeHandle,
) -> Option<FixedIntersection>
    requires { IsAtItem V.place V.Scalar.whole embedding.now from to P.covered (Overlap edge) }
    ensures { GoesOnTo V.place V.Scalar.whole embedding.now from to (Overlap edge) result }
{
    let here = embedding.dcel.directed_edge(edge);
    let vertex = here.to().fix();
    let start = position_of(embedding.dcel, here.from().fix());
    let end = position_of(embedding.dcel, vertex);
    let next = Some(FixedIntersection::Vertex(vertex));
    if is_same_point(to, start) {
        return next;
    }
    if is_same_point(to, end) {
        return next;
    }
    if is_strictly_within(start, end, to, embedding.tests) {
        return None;
    }
    next
}
