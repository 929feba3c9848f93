//! The vertices round a position.
ghost use Rattle.std.specs.Prelude.{◌≡◌, ◌<◌, ◌≤◌, [], ◌∷◌, length, MatchOption};
ghost use Rattle.half_edge_links.specs.{face_edge, next, origin, prev, rev};
ghost use Rattle.{delaunay_core.specs.place_of, plane.specs.whole as fraction};
ghost use Rattle.delaunay_legalization.specs.{state_of, triangulation_of};
ghost use Rattle.delaunay_ways.specs.Ways.{IsInNone, IsSurrounded};

use delaunay_core::math::PlaneTests;
use delaunay_core::point::{HasPosition, Point2};
use delaunay_legalization::Embedding;
use delaunay_location::{LocationViews, PositionInTriangulation};
use half_edge_dcel::{Dcel, MeshViews};
use half_edge_links::{FixedDirectedEdgeHandle, FixedFaceHandle, FixedVertexHandle};

// The ends of an edge, the second one twice.
fn ends_of<V, DE, UE, F>(
    dcel: &Dcel<V, DE, UE, F>,
    edge: FixedDirectedEdgeHandle,
) -> [FixedVertexHandle; 3]
    requires { edge < length dcel.now.directed }
    ensures { let m = dcel.now.mesh in
        result ≡ origin m edge ∷ origin m (rev edge) ∷ origin m (rev edge) ∷ [] }
{
    let edge = dcel.directed_edge(edge);
    let from = edge.from().fix();
    let to = edge.to().fix();
    [from, to, to]
}

// The corners of an inner face.
fn corners_of<V, DE, UE, F>(
    dcel: &Dcel<V, DE, UE, F>,
    face: FixedFaceHandle,
) -> [FixedVertexHandle; 3]
    requires { (0 < face) × (face ≤ length dcel.now.faces) }
    ensures { let m = dcel.now.mesh in let e = face_edge m face in
        result ≡ origin m e ∷ origin m (next m e) ∷ origin m (prev m e) ∷ [] }
{
    let edge = dcel.face(face).adjacent_edge();
    let first = edge.from().fix();
    let second = edge.next().from().fix();
    let third = edge.prev_from().fix();
    [first, second, third]
}

/// The vertex where the edge that an inner face names starts.
pub(crate) fn first_corner<V, DE, UE, F>(
    dcel: &Dcel<V, DE, UE, F>,
    face: FixedFaceHandle,
) -> FixedVertexHandle
    requires { (0 < face) × (face ≤ length dcel.now.faces) }
    ensures value { result ≡ origin dcel.now.mesh (face_edge dcel.now.mesh face) }
    ensures in_range { result < length dcel.now.vertices }
{
    dcel.face(face).adjacent_edge().from().fix()
}

/// The corner after it.
pub(crate) fn second_corner<V, DE, UE, F>(
    dcel: &Dcel<V, DE, UE, F>,
    face: FixedFaceHandle,
) -> FixedVertexHandle
    requires { (0 < face) × (face ≤ length dcel.now.faces) }
    ensures value { let m = dcel.now.mesh in result ≡ origin m (next m (face_edge m face)) }
    ensures in_range { result < length dcel.now.vertices }
{
    dcel.face(face).adjacent_edge().next().from().fix()
}

/// The corner before it.
pub(crate) fn third_corner<V, DE, UE, F>(
    dcel: &Dcel<V, DE, UE, F>,
    face: FixedFaceHandle,
) -> FixedVertexHandle
    requires { (0 < face) × (face ≤ length dcel.now.faces) }
    ensures value { let m = dcel.now.mesh in result ≡ origin m (prev m (face_edge m face)) }
    ensures in_range { result < length dcel.now.vertices }
{
    dcel.face(face).adjacent_edge().prev_from().fix()
}

/// Vertices that each closed face with a position has as corners: the vertex there, the ends of
/// the edge that it is on, or the corners of its face. None where no closed face has it.
pub(crate) fn corners_at<V: HasPosition, DE, UE, F, P: PlaneTests<V::Scalar>>(
    embedding: &Embedding<'_, V, DE, UE, F, P>,
    point: Point2<V::Scalar>,
    hint: FixedVertexHandle,
) -> Option<[FixedVertexHandle; 3]>
    requires { P.covered embedding.now.tests (place_of V.Scalar.whole point) }
    ensures { let t = triangulation_of V.place (state_of embedding.now.dcel) in
        let p = fraction (place_of V.Scalar.whole point) in
        MatchOption result (IsInNone t p) (IsSurrounded t p) }
{
    match embedding.locate_with_hint(point, hint) {
        PositionInTriangulation::OnVertex(vertex) => Some([vertex, vertex, vertex]),
        PositionInTriangulation::OnEdge(edge) => Some(ends_of(embedding.dcel, edge)),
        PositionInTriangulation::OnFace(face) => Some(corners_of(embedding.dcel, face)),
        PositionInTriangulation::OutsideOfConvexHull(_)
        | PositionInTriangulation::NoTriangulation => None,
    }
}
