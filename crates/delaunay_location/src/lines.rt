//! The walk along a segment over whatever has the mesh of a triangulation.
ghost use Rattle.std.specs.Prelude.{◌≡◌, ◌<◌, length, map, All};
ghost use Rattle.{delaunay_core.specs.place_of, plane.specs.InRange};
ghost use Rattle.delaunay_legalization.specs.{IsTriangulated, point_at, State.State, state_of};
ghost use Rattle.delaunay_location.specs.Walk.{IsReady, WalksLine};

use crate::{LineIntersectionIterator, LineViews};
use delaunay_core::math::PlaneTests;
use delaunay_core::point::{HasPosition, Point2};
use delaunay_legalization::Embedding;
use half_edge_dcel::Dcel;
use half_edge_links::FixedVertexHandle;

/// What has the mesh of a triangulation, and says where searches in it begin: each of the two types
/// of triangulations.
pub trait HasMesh<V: HasPosition, DE, UE, F> {
    // What a contract sees of it.
    ghost mesh_state: { Self → State V DE UE F };

    /// The vertex at which a search for a position that the tests cover begins. It need not be one
    /// of the mesh.
    fn search_start<P: PlaneTests<V::Scalar>>(
        &self,
        position: Point2<V::Scalar>,
        tests: &P,
    ) -> FixedVertexHandle
        requires sites { let points = map V.place (mesh_state self.now).vertices in
            All InRange points → All (P.sites tests.now) points }
        requires covered { P.covered tests.now (place_of V.Scalar.whole position) };

    /// The mesh.
    fn mesh(&self) -> &Dcel<V, DE, UE, F>
        ensures state { state_of result.now ≡ mesh_state self.now }
        ensures in_range { All InRange (map V.place result.now.vertices) }
        ensures kept { IsTriangulated V.place (state_of result.now) };
}

impl<'a, V: HasPosition, DE, UE, F, P: PlaneTests<V::Scalar>> LineIntersectionIterator<
    'a,
    V,
    DE,
    UE,
    F,
    P,
> {
    /// What the segment from one position to another meets. The tests cover both positions and have
    /// the vertices as sites. From a position to itself it meets the vertex there, or else the edge
    /// that carries it, or else nothing. Where the segment starts is looked for by a walk from
    /// where the hint generator says. From outside, where it enters is looked for along the
    /// outline.
    pub fn new<T: HasMesh<V, DE, UE, F>>(
        triangulation: &'a T,
        from: Point2<V::Scalar>,
        to: Point2<V::Scalar>,
        tests: &'a P,
    ) -> Self
        requires sites { let points = map V.place (T.mesh_state triangulation.now).vertices in
            All InRange points → All (P.sites tests.now) points }
        requires from_covered { P.covered tests.now (place_of V.Scalar.whole from) }
        requires to_covered { P.covered tests.now (place_of V.Scalar.whole to) }
        ensures line { WalksLine V.place V.Scalar.whole (T.mesh_state triangulation.now)
            (place_of V.Scalar.whole from) (place_of V.Scalar.whole to) result }
        ensures ready { IsReady V.place V.Scalar.whole P.sites P.covered result }
    {
        let start = triangulation.search_start(from, tests);
        let embedding = Embedding {
            dcel: triangulation.mesh(),
            tests,
        };
        embedding.line_between(from, to, start)
    }

    /// What the segment from one vertex to another meets, from the first vertex on: of a vertex to
    /// itself, that vertex alone. Both handles are in range, and the tests have the vertices as
    /// sites.
    pub fn new_from_handles<T: HasMesh<V, DE, UE, F>>(
        triangulation: &'a T,
        from: FixedVertexHandle,
        to: FixedVertexHandle,
        tests: &'a P,
    ) -> Self
        requires from_in { from < length (T.mesh_state triangulation.now).vertices }
        requires to_in { to < length (T.mesh_state triangulation.now).vertices }
        requires sites { let points = map V.place (T.mesh_state triangulation.now).vertices in
            All InRange points → All (P.sites tests.now) points }
        ensures line { let s = T.mesh_state triangulation.now in
            let points = map V.place s.vertices in
            WalksLine V.place V.Scalar.whole s (point_at points from) (point_at points to) result }
        ensures ready { IsReady V.place V.Scalar.whole P.sites P.covered result }
    {
        let embedding = Embedding {
            dcel: triangulation.mesh(),
            tests,
        };
        embedding.line_between_vertices(from, to)
    }
}
