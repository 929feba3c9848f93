//! The answer to a location.
use half_edge_links::{FixedDirectedEdgeHandle, FixedFaceHandle, FixedVertexHandle};

/// Where a position is in a triangulation.
///
/// ```
/// if let PositionInTriangulation::OnFace(face) = points.locate(Point2::new(1, 1), &ExactTests) {
///     println!(rt; "in face {}", face.index())?;
/// }
/// ```
#[derive(Clone, Copy, Debug, PartialEq, Eq, PartialOrd, Ord, Hash)]
pub enum PositionInTriangulation {
    /// It is the position of this vertex.
    OnVertex(FixedVertexHandle),
    /// It is strictly within this edge, which may have either direction.
    OnEdge(FixedDirectedEdgeHandle),
    /// It is strictly inside this face.
    OnFace(FixedFaceHandle),
    /// It is strictly on the left of this edge, which has the outer face on its left. Where it is
    /// on one line with all vertices, the edge goes out of the end vertex on its side.
    OutsideOfConvexHull(FixedDirectedEdgeHandle),
    /// There is no vertex, or one elsewhere.
    NoTriangulation,
}
