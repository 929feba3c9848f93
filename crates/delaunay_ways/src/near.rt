//! Sight where it is known which vertex is near.
ghost use Rattle.std.specs.Prelude.{◌↔◌, map, All, IsTrue};
ghost use Rattle.plane.specs.{InRange, whole as fraction};
ghost use Rattle.{delaunay_core.specs.place_of, plane_theorems.specs.IsInSight};
ghost use Rattle.{delaunay_legalization.specs.triangulation_of, delaunay_shapes.specs.by_place};

use delaunay_core::math::PlaneTests;
use delaunay_core::point::{HasPosition, Point2};
use delaunay_location::HasMesh;
use delaunay_shapes::{FreeFaces, is_in_sight};
use half_edge_dcel::Dcel;
use half_edge_links::FixedVertexHandle;

// A triangulation in which searches begin at a vertex.
#[derive(Drop)]
struct Near<'a, T> {
    triangulation: &'a T,
    vertex: FixedVertexHandle,
}

impl<'a, T: HasMesh<V, DE, UE, F>, V: HasPosition, DE, UE, F> HasMesh<V, DE, UE, F>
    for Near<'a, T> {
    ghost mesh_state = { λ near. T.mesh_state near.triangulation.now };

    fn search_start<P: PlaneTests<V::Scalar>>(
        &self,
        _position: Point2<V::Scalar>,
        _tests: &P,
    ) -> FixedVertexHandle
        requires sites { let points = map V.place (T.mesh_state self.now.triangulation.now).vertices
            in All InRange points → All (P.sites _tests.now) points }
        requires covered { P.covered _tests.now (place_of V.Scalar.whole _position) }
    {
        self.vertex
    }

    fn mesh(&self) -> &Dcel<V, DE, UE, F> {
        self.triangulation.mesh()
    }
}

/// The same as `is_in_sight`, where the searches for both positions begin at a vertex.
pub(crate) fn is_seen<
    T: HasMesh<V, DE, UE, F>,
    V: HasPosition,
    DE,
    UE,
    F,
    G: FreeFaces,
    P: PlaneTests<V::Scalar>,
>(
    triangulation: &T,
    from: Point2<V::Scalar>,
    to: Point2<V::Scalar>,
    vertex: FixedVertexHandle,
    free: &G,
    tests: &P,
) -> bool
    requires sites { let points = map V.place (T.mesh_state triangulation.now).vertices in
        All InRange points → All (P.sites tests.now) points }
    requires from_covered { P.covered tests.now (place_of V.Scalar.whole from) }
    requires to_covered { P.covered tests.now (place_of V.Scalar.whole to) }
    ensures { IsTrue result ↔
        IsInSight (triangulation_of V.place (T.mesh_state triangulation.now))
        (by_place (G.free free.now)) (fraction (place_of V.Scalar.whole from))
        (fraction (place_of V.Scalar.whole to)) }
{
    let near = Near {
        triangulation,
        vertex,
    };
    is_in_sight(&near, from, to, free, tests)
}
