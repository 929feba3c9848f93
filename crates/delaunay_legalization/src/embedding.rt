//! A mesh with its points, for reads.
ghost use Rattle.std.specs.Prelude.{◌≡◌, ◌↔◌, ◌<◌, ◌≤◌, length, map, IsTrue};
ghost use Rattle.plane.specs.{place, side, whole as fraction};
ghost use Rattle.half_edge_links.specs.{face_edge, origin, prev, rev, triangle_at};
ghost use Rattle.delaunay_core.specs.{place_of};
ghost use Rattle.delaunay_legalization.specs.{Known.point_at, Legal.IsFailing, Parts.IsMeshFace};

use crate::position_of;
use delaunay_core::line_side_info::LineSideInfo;
use delaunay_core::math::PlaneTests;
use delaunay_core::point::{HasPosition, Point2};
use half_edge_dcel::{Dcel, MeshViews};
use half_edge_links::{FixedDirectedEdgeHandle, FixedFaceHandle};
use std::marker::Model;

/// The mesh of a triangulation whose vertices are sites of tests.
#[derive(Drop)]
pub struct Embedding<'a, V: HasPosition, DE, UE, F, P: PlaneTests<V::Scalar>> {
    pub dcel: &'a Dcel<V, DE, UE, F>,
    pub tests: &'a P,
}

impl<'a, V: HasPosition, DE, UE, F, P: PlaneTests<V::Scalar>> Model
    for Embedding<'a, V, DE, UE, F, P> {
    ghost use Rattle.delaunay_legalization.specs.Embedding.{IsEmbedding, Reading};

    ghost Value = { Reading V DE UE F P };

    ghost view = { λ s. record { dcel = s.dcel.now; tests = s.tests.now } };

    ghost invariant = { λ s. IsEmbedding V.place P.sites s.dcel.now s.tests.now };
}

impl<'a, V: HasPosition, DE, UE, F, P: PlaneTests<V::Scalar>> Embedding<'a, V, DE, UE, F, P> {
    /// The position where an edge starts.
    #[inline(always)]
    pub fn start_of(&self, edge: FixedDirectedEdgeHandle) -> Point2<V::Scalar>
        requires { edge < length self.now.dcel.directed }
        ensures place { place_of V.Scalar.whole result ≡
            point_at (map V.place self.now.dcel.vertices) (origin self.now.dcel.mesh edge) }
        ensures site { P.sites self.now.tests (place_of V.Scalar.whole result) }
    {
        position_of(self.dcel, self.dcel.directed_edge(edge).from().fix())
    }

    /// The position where an edge ends, which is where the edge after it starts.
    #[inline(always)]
    pub fn end_of(&self, edge: FixedDirectedEdgeHandle) -> Point2<V::Scalar>
        requires { edge < length self.now.dcel.directed }
        ensures place { place_of V.Scalar.whole result ≡
            point_at (map V.place self.now.dcel.vertices) (origin self.now.dcel.mesh (rev edge)) }
        ensures site { P.sites self.now.tests (place_of V.Scalar.whole result) }
    {
        self.start_of(self.dcel.directed_edge(edge).next().fix())
    }

    /// The position where the edge before an edge starts: in an inner face the corner opposite the
    /// edge.
    #[inline(always)]
    pub fn start_before(&self, edge: FixedDirectedEdgeHandle) -> Point2<V::Scalar>
        requires { edge < length self.now.dcel.directed }
        ensures place { place_of V.Scalar.whole result ≡
            point_at (map V.place self.now.dcel.vertices)
            (origin self.now.dcel.mesh (prev self.now.dcel.mesh edge)) }
        ensures site { P.sites self.now.tests (place_of V.Scalar.whole result) }
    {
        position_of(self.dcel, self.dcel.directed_edge(edge).prev_from().fix())
    }

    /// The positions of the corners of an inner face, in their order round it.
    pub fn corners_of(
        &self,
        face: FixedFaceHandle,
    ) -> (Point2<V::Scalar>, Point2<V::Scalar>, Point2<V::Scalar>)
        requires { (0 < face) × (face ≤ length self.now.dcel.faces) }
        ensures first { place_of V.Scalar.whole result.0 ≡
            point_at (map V.place self.now.dcel.vertices)
            (triangle_at self.now.dcel.mesh (face_edge self.now.dcel.mesh face)).first }
        ensures second { place_of V.Scalar.whole result.1 ≡
            point_at (map V.place self.now.dcel.vertices)
            (triangle_at self.now.dcel.mesh (face_edge self.now.dcel.mesh face)).second }
        ensures third { place_of V.Scalar.whole result.2 ≡
            point_at (map V.place self.now.dcel.vertices)
            (triangle_at self.now.dcel.mesh (face_edge self.now.dcel.mesh face)).third }
        ensures face { IsMeshFace (map V.place self.now.dcel.vertices) self.now.dcel.mesh face }
        ensures first_site { P.sites self.now.tests (place_of V.Scalar.whole result.0) }
        ensures second_site { P.sites self.now.tests (place_of V.Scalar.whole result.1) }
        ensures third_site { P.sites self.now.tests (place_of V.Scalar.whole result.2) }
    {
        let edge = self.dcel.face(face).adjacent_edge();
        let first = edge.from().fix();
        let second = edge.next().from().fix();
        let third = edge.prev().from().fix();
        (
            position_of(self.dcel, first),
            position_of(self.dcel, second),
            position_of(self.dcel, third),
        )
    }

    /// The side of a point that the tests cover, as seen along an edge.
    pub fn side_along(
        &self,
        edge: FixedDirectedEdgeHandle,
        point: Point2<V::Scalar>,
    ) -> LineSideInfo
        requires within { edge < length self.now.dcel.directed }
        requires covered { P.covered self.now.tests (place_of V.Scalar.whole point) }
        ensures { let points = map V.place self.now.dcel.vertices in let m = self.now.dcel.mesh in
            result ≡ side (place points (origin m edge)) (place points (origin m (rev edge)))
            (fraction (place_of V.Scalar.whole point)) }
    {
        let here = self.dcel.directed_edge(edge);
        let start = position_of(self.dcel, here.from().fix());
        let end = position_of(self.dcel, here.to().fix());
        self.tests.side(start, end, point)
    }

    // Whether an edge lies between two inner faces, of which one has its third corner inside the
    // circle of the other.
    #[inline(always)]
    pub(crate) fn is_failing(&self, edge: FixedDirectedEdgeHandle) -> bool
        requires { edge < length self.now.dcel.directed }
        ensures { IsTrue result ↔
            IsFailing (map V.place self.now.dcel.vertices) self.now.dcel.mesh edge }
    {
        let edge = self.dcel.directed_edge(edge);
        let twin = edge.rev();
        if edge.is_outer_edge() {
            return false;
        }
        if twin.is_outer_edge() {
            return false;
        }
        let from = position_of(self.dcel, edge.from().fix());
        let to = position_of(self.dcel, twin.from().fix());
        let left = position_of(self.dcel, edge.prev_from().fix());
        let right = position_of(self.dcel, twin.prev_from().fix());
        self.tests.is_in_circle(from, to, left, right)
    }
}
