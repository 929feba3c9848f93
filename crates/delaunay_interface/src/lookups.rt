//! The vertex that a search ended at, and the position of a vertex.
ghost use Rattle.std.specs.Prelude.{◌≡◌, map, Contains, Some};
ghost use Rattle.{delaunay_core.specs.place_if, plane.specs.Point};
ghost use Rattle.{delaunay_edit.specs.HasElement, delaunay_legalization.specs.state_of};

use delaunay_core::point::{HasPosition, Point2};
use delaunay_location::PositionInTriangulation;
use half_edge_dcel::{Dcel, MeshViews};
use half_edge_links::FixedVertexHandle;

// A vertex of what an answer names, or the first.
pub(crate) fn vertex_near<V, DE, UE, F>(
    mesh: &Dcel<V, DE, UE, F>,
    answer: &PositionInTriangulation,
) -> FixedVertexHandle
    requires { HasElement (state_of mesh.now) answer.now }
{
    match *answer {
        PositionInTriangulation::OnVertex(vertex) => vertex,
        PositionInTriangulation::OnEdge(edge)
        | PositionInTriangulation::OutsideOfConvexHull(edge) => {
            mesh.directed_edge(edge).from().fix()
        }
        PositionInTriangulation::OnFace(face) => mesh.face(face).adjacent_edge().from().fix(),
        PositionInTriangulation::NoTriangulation => FixedVertexHandle::from_index(0),
    }
}

// The position of a vertex, if there is one with this handle.
pub(crate) fn position_if<V: HasPosition, DE, UE, F>(
    mesh: &Dcel<V, DE, UE, F>,
    vertex: FixedVertexHandle,
) -> Option<Point2<V::Scalar>>
    ensures { (p : Point) → place_if V.Scalar.whole result ≡ Some p → Contains
        (map V.place mesh.now.vertices) p }
{
    let vertex = mesh.get_vertex(vertex)?;
    Some(vertex.data().position())
}
