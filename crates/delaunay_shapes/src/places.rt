//! Whether a position is in a closed free face.
ghost use Rattle.std.specs.Prelude.{◌↔◌, IsTrue};
ghost use Rattle.{delaunay_core.specs.place_of, plane_theorems.specs.IsInFree};
ghost use Rattle.delaunay_legalization.specs.{state_of, triangulation_of};
ghost use Rattle.{delaunay_shapes.specs.Beside.by_place, plane.specs.whole as fraction};

use crate::FreeFaces;
use crate::edges::{is_free_along, is_free_round};
use delaunay_core::math::PlaneTests;
use delaunay_core::point::{HasPosition, Point2};
use delaunay_legalization::Embedding;
use delaunay_location::{LocationViews, PositionInTriangulation};
use half_edge_links::FixedVertexHandle;

// Whether a position is in a closed free face. The search for it begins at the vertex `hint`, or at
// vertex 0 where there is no such vertex.
pub(crate) fn is_in_free<V: HasPosition, DE, UE, F, G: FreeFaces, P: PlaneTests<V::Scalar>>(
    embedding: &Embedding<'_, V, DE, UE, F, P>,
    point: Point2<V::Scalar>,
    hint: FixedVertexHandle,
    free: &G,
) -> bool
    requires { P.covered embedding.now.tests (place_of V.Scalar.whole point) }
    ensures { IsTrue result ↔ IsInFree (triangulation_of V.place (state_of embedding.now.dcel))
        (by_place (G.free free.now)) (fraction (place_of V.Scalar.whole point)) }
{
    match embedding.locate_with_hint(point, hint) {
        PositionInTriangulation::OnVertex(vertex) => is_free_round(embedding.dcel, vertex, free),
        PositionInTriangulation::OnEdge(edge) => is_free_along(embedding.dcel, edge, free),
        PositionInTriangulation::OnFace(face) => free.is_free(face),
        PositionInTriangulation::OutsideOfConvexHull(_)
        | PositionInTriangulation::NoTriangulation => false,
    }
}
