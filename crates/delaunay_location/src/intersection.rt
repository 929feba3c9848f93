//! What a segment meets in a mesh.
ghost use Rattle.std.specs.Prelude.{◌≡◌};
ghost use Rattle.delaunay_location.specs.Items.{crossed_edge};

use half_edge_dcel::{DirectedEdgeHandle, VertexHandle};
use half_edge_links::{FixedDirectedEdgeHandle, FixedVertexHandle};

/// A vertex or an edge that a segment meets.
///
/// ```
/// match item {
///     Intersection::EdgeIntersection(edge) => println!(rt; "across {}", edge.fix().index())?,
///     Intersection::VertexIntersection(vertex) => println!(rt; "at {}", vertex.fix().index())?,
///     Intersection::EdgeOverlap(edge) => println!(rt; "along {}", edge.fix().index())?,
/// }
/// ```
#[derive_where(Clone, Copy, PartialEq, Debug)]
pub enum Intersection<'a, V, DE, UE, F> {
    /// An edge that the segment meets in one point strictly within the edge. The segment's end is
    /// on its left, or, where it lies on the edge, the segment's start is on its right.
    EdgeIntersection(DirectedEdgeHandle<'a, V, DE, UE, F>),
    /// A vertex on the segment.
    VertexIntersection(VertexHandle<'a, V, DE, UE, F>),
    /// An edge that has more than one point of the segment, directed along the segment.
    EdgeOverlap(DirectedEdgeHandle<'a, V, DE, UE, F>),
}

impl<'a, V, DE, UE, F> Intersection<'a, V, DE, UE, F> {
    /// The edge of an `EdgeIntersection`.
    pub fn as_edge_intersection(&self) -> Option<DirectedEdgeHandle<'a, V, DE, UE, F>>
        ensures { result ≡ crossed_edge self.now }
    {
        match self {
            Intersection::EdgeIntersection(edge) => Some(*edge),
            _ => None,
        }
    }
}

/// The same by fixed handles alone, without the mesh.
#[derive(Clone, Copy)]
pub enum FixedIntersection {
    Edge(FixedDirectedEdgeHandle),
    Vertex(FixedVertexHandle),
    Overlap(FixedDirectedEdgeHandle),
}
