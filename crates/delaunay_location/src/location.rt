//! Where a position is, by a look at all vertices, edges and faces.
ghost use Rattle.std.specs.Prelude.{◌<◌, length, map};
ghost use Rattle.{delaunay_core.specs.place_of, delaunay_location.specs.Distances.CanMeasure};
ghost use Rattle.delaunay_location.specs.Location.{IsAtNoVertex, IsFaceAround, IsPlaceAtEdge};
ghost use Rattle.delaunay_location.specs.Location.{IsPlaceOf, StartsNearest};

use crate::PositionInTriangulation;
use crate::steps::ends_of;
use crate::vertex_distance::is_nearer;
use delaunay_core::math::PlaneTests;
use delaunay_core::point::{HasPosition, Point2};
use delaunay_legalization::{
    Embedding, is_outer, is_same_point, is_strictly_inside, is_strictly_within, position_of,
    turns_left,
};
use half_edge_dcel::{Dcel, MeshViews};
use half_edge_links::{FixedDirectedEdgeHandle, FixedFaceHandle, FixedVertexHandle};

// The directed edge that starts nearest to a position.
fn edge_from_nearest<V: HasPosition, DE, UE, F>(
    dcel: &Dcel<V, DE, UE, F>,
    point: Point2<V::Scalar>,
) -> FixedDirectedEdgeHandle
    requires can { CanMeasure V.place dcel.now (place_of V.Scalar.whole point) }
    requires some { 0 < length dcel.now.directed }
    ensures { StartsNearest (map V.place dcel.now.vertices) dcel.now.mesh
        (place_of V.Scalar.whole point) (length dcel.now.directed) result }
{
    let mut nearest = FixedDirectedEdgeHandle::from_index(0);
    for index in 1..dcel.num_directed_edges() {
        let edge = FixedDirectedEdgeHandle::from_index(index as u32);
        let start = dcel.directed_edge(edge).from().fix();
        let other = dcel.directed_edge(nearest).from().fix();
        if is_nearer(dcel, start, other, point) {
            nearest = edge;
        }
    }
    nearest
}

// The location of a position at one of the edges: within it, or outside and on its left.
fn place_at_edges<V: HasPosition, DE, UE, F, P: PlaneTests<V::Scalar>>(
    embedding: &Embedding<'_, V, DE, UE, F, P>,
    point: Point2<V::Scalar>,
) -> Option<PositionInTriangulation>
    requires covered { P.covered embedding.now.tests (place_of V.Scalar.whole point) }
    requires apart { IsAtNoVertex V.place V.Scalar.whole embedding.now point }
    ensures { IsPlaceAtEdge V.place V.Scalar.whole embedding.now point result }
{
    for index in 0..embedding.dcel.num_directed_edges() {
        let edge = FixedDirectedEdgeHandle::from_index(index as u32);
        let (from, to) = ends_of(embedding, edge);
        if is_strictly_within(from, to, point, embedding.tests) {
            return Some(PositionInTriangulation::OnEdge(edge));
        }
        if is_outer(embedding.dcel, edge) && turns_left(from, to, point, embedding.tests) {
            return Some(PositionInTriangulation::OutsideOfConvexHull(edge));
        }
    }
    None
}

// The inner face that has the position strictly inside.
fn face_around<V: HasPosition, DE, UE, F, P: PlaneTests<V::Scalar>>(
    embedding: &Embedding<'_, V, DE, UE, F, P>,
    point: Point2<V::Scalar>,
) -> Option<FixedFaceHandle>
    requires covered { P.covered embedding.now.tests (place_of V.Scalar.whole point) }
    ensures { IsFaceAround V.place V.Scalar.whole embedding.now point result }
{
    for index in 0..embedding.dcel.num_inner_faces() {
        let face = FixedFaceHandle::from_index(index as u32 + 1);
        let (a, b, c) = embedding.corners_of(face);
        if is_strictly_inside(a, b, c, point, embedding.tests) {
            return Some(face);
        }
    }
    None
}

// Where the position is, by a look at all vertices, edges and faces.
pub(crate) fn place_by_scan<V: HasPosition, DE, UE, F, P: PlaneTests<V::Scalar>>(
    embedding: &Embedding<'_, V, DE, UE, F, P>,
    point: Point2<V::Scalar>,
) -> PositionInTriangulation
    requires covered { P.covered embedding.now.tests (place_of V.Scalar.whole point) }
    ensures { IsPlaceOf V.place V.Scalar.whole embedding.now point result }
{
    for index in 0..embedding.dcel.num_vertices() {
        let vertex = FixedVertexHandle::from_index(index as u32);
        if is_same_point(position_of(embedding.dcel, vertex), point) {
            return PositionInTriangulation::OnVertex(vertex);
        }
    }
    if embedding.dcel.num_vertices() < 2 {
        return PositionInTriangulation::NoTriangulation;
    }
    if let Some(place) = place_at_edges(embedding, point) {
        return place;
    }
    if let Some(face) = face_around(embedding, point) {
        return PositionInTriangulation::OnFace(face);
    }
    PositionInTriangulation::OutsideOfConvexHull(edge_from_nearest(embedding.dcel, point))
}
