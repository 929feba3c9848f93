//! A search for what has a point in a shape.
ghost use Rattle.std.specs.Prelude.{◌↔◌, ◌<◌, length, IsTrue};
ghost use Rattle.delaunay_shapes.specs.ShapeSearch.{EnclosesEdge};

use crate::DistanceMetric;
use delaunay_core::math::PlaneTests;
use delaunay_core::point::{HasPosition, Point2};
use delaunay_legalization::Embedding;
use half_edge_dcel::MeshViews;
use half_edge_links::FixedUndirectedEdgeHandle;
use std::marker::Model;

/// A search for the edges and vertices of a triangulation that have a point in a closed shape. It
/// begins at a point of the shape, if that has any. The tests cover the shape's own points and this
/// start.
#[derive(Drop)]
pub(crate) struct ShapeSearch<
    'a,
    V: HasPosition,
    DE,
    UE,
    F,
    M: DistanceMetric<V::Scalar>,
    P: PlaneTests<V::Scalar>,
> {
    pub(crate) embedding: Embedding<'a, V, DE, UE, F, P>,
    pub(crate) metric: &'a M,
    pub(crate) start: Point2<V::Scalar>,
}

impl<'a, V: HasPosition, DE, UE, F, M: DistanceMetric<V::Scalar>, P: PlaneTests<V::Scalar>> Model
    for ShapeSearch<'a, V, DE, UE, F, M, P> {
    ghost use Rattle.delaunay_core.specs.{place_of};
    ghost use Rattle.delaunay_shapes.specs.Enclosing.{Enclosing, IsShapeSearch};

    ghost Value = { Enclosing V DE UE F M P };

    ghost view = { λ s. record {
      dcel = s.embedding.dcel;
      metric = s.metric.now;
      tests = s.embedding.tests;
      start = place_of V.Scalar.whole s.start;
    } };

    ghost invariant = { λ s. IsShapeSearch V.place M.own_points M.shape P.covered s.embedding.dcel
        s.metric.now s.embedding.tests (place_of V.Scalar.whole s.start) };
}

impl<
    'a,
    V: HasPosition,
    DE,
    UE,
    F,
    M: DistanceMetric<V::Scalar>,
    P: PlaneTests<V::Scalar>,
> ShapeSearch<'a, V, DE, UE, F, M, P> {
    // Whether an edge has a point in the shape.
    #[inline(always)]
    pub(crate) fn has_edge(&self, edge: FixedUndirectedEdgeHandle) -> bool
        requires { edge < length self.now.dcel.undirected }
        ensures { IsTrue result ↔ EnclosesEdge V.place M.shape self.now edge }
    {
        let embedding = &self.embedding;
        self.metric
            .is_handle_inside(embedding.dcel.undirected_edge(edge), embedding.tests)
    }
}
