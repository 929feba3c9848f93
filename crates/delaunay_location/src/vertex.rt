//! What a segment meets after a vertex.
ghost use Rattle.std.specs.Prelude.{◌≢◌, ◌↔◌, ◌<◌, length, map, IsTrue};
ghost use Rattle.plane_theorems.specs.{IsAhead};
ghost use Rattle.{delaunay_core.specs.place_of, plane.specs.whole as fraction};
ghost use Rattle.delaunay_location.specs.{Over.GoesOnTo, Over.IsAtItem, Steps.IsInCone};
ghost use Rattle.delaunay_location.specs.declared.intersection.FixedIntersection.TheVariants.{Vertex};

use crate::FixedIntersection;
use delaunay_core::math::PlaneTests;
use delaunay_core::point::{HasPosition, Point2, SpadeNum};
use delaunay_legalization::{Embedding, is_same_point, is_strictly_within, position_of};
use half_edge_dcel::MeshViews;
use half_edge_links::{FixedDirectedEdgeHandle, FixedVertexHandle};

// Whether a point lies in the direction from one position to another. Both differ from the first.
pub(crate) fn is_ahead<S: SpadeNum, P: PlaneTests<S>>(
    from: Point2<S>,
    towards: Point2<S>,
    point: Point2<S>,
    tests: &P,
) -> bool
    requires from_covered { P.covered tests.now (place_of S.whole from) }
    requires towards_covered { P.covered tests.now (place_of S.whole towards) }
    requires point_covered { P.covered tests.now (place_of S.whole point) }
    requires way_apart { place_of S.whole from ≢ place_of S.whole towards }
    requires point_apart { place_of S.whole from ≢ place_of S.whole point }
    ensures { IsTrue result ↔
        IsAhead (fraction (place_of S.whole from)) (fraction (place_of S.whole towards))
        (fraction (place_of S.whole point)) }
{
    if is_same_point(towards, point) {
        return true;
    }
    if is_strictly_within(from, towards, point, tests) {
        return true;
    }
    is_strictly_within(from, point, towards, tests)
}

// Whether a position is strictly between the two sides, from the start of an edge on, of the inner
// face on its left.
fn is_in_cone<V: HasPosition, DE, UE, F, P: PlaneTests<V::Scalar>>(
    embedding: &Embedding<'_, V, DE, UE, F, P>,
    position: Point2<V::Scalar>,
    edge: FixedDirectedEdgeHandle,
) -> bool
    requires within { edge < length embedding.now.dcel.directed }
    requires covered { P.covered embedding.now.tests (place_of V.Scalar.whole position) }
    ensures { IsTrue result ↔ IsInCone (map V.place embedding.now.dcel.vertices)
        embedding.now.dcel.mesh
        (place_of V.Scalar.whole position) edge }
{
    let here = embedding.dcel.directed_edge(edge);
    if here.is_outer_edge() {
        return false;
    }
    embedding.side_along(edge, position).is_on_left_side()
        && embedding
            .side_along(here.prev().fix(), position)
            .is_on_left_side()
}

// What a segment meets after a vertex: an edge along it, nothing where it ends at the vertex or
// inside the next face, or else the far side of this face.
pub(crate) fn after_vertex<V: HasPosition, DE, UE, F, P: PlaneTests<V::Scalar>>(
    embedding: &Embedding<'_, V, DE, UE, F, P>,
    from: Point2<V::Scalar>,
    to: Point2<V::Scalar>,
    vertex: FixedVertexHandle,
) -> Option<FixedIntersection>
    requires { IsAtItem V.place V.Scalar.whole embedding.now from to P.covered (Vertex vertex) }
    ensures { GoesOnTo V.place V.Scalar.whole embedding.now from to (Vertex vertex) result }
{
    let start = position_of(embedding.dcel, vertex);
    if is_same_point(start, to) {
        return None;
    }
    for edge in embedding.dcel.vertex(vertex).out_edges() {
        let edge = edge.fix();
        let here = embedding.dcel.directed_edge(edge);
        let end = position_of(embedding.dcel, here.to().fix());
        if is_ahead(start, end, to, embedding.tests) {
            return Some(FixedIntersection::Overlap(edge));
        }
        if is_in_cone(embedding, to, edge) {
            let far = here.next().fix();
            if embedding.side_along(far, to).is_on_left_side() {
                return None;
            }
            return Some(FixedIntersection::Edge(far.rev()));
        }
    }
    None
}
