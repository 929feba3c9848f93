//! The Voronoi forms of vertices, edges and faces: a face for each vertex, an edge across each
//! edge, a vertex for each inner face.
ghost use Rattle.std.specs.Prelude.{◌≡◌, ◌*◌, ◌/◌, ◌<◌, ◌∷◌, [], ◌↔◌};
ghost use Rattle.std.specs.Prelude.{All, map, IsNone, IsSome, IfSome};
ghost use Rattle.half_edge_links.specs.{face_edge, next, origin, prev, rev};

use crate::VoronoiCircularIterator;
use half_edge_dcel::{DirectedEdgeHandle, FaceHandle, UndirectedEdgeHandle, VertexHandle};

/// The face of the Voronoi diagram that belongs to a vertex. Two of them are equal where their
/// vertices are.
///
/// ```
/// for face in points.voronoi_faces() {
///     println!(rt; "{} sides", face.adjacent_edges().count())?;
/// }
/// ```
#[derive_where(Clone, Copy, PartialEq, Eq, PartialOrd, Ord, Hash, Debug)]
pub struct VoronoiFace<'a, V, DE, UE, F> {
    pub(crate) vertex: VertexHandle<'a, V, DE, UE, F>,
}

/// The edge of the Voronoi diagram across a directed edge, from the face on its left to the one on
/// its right. Two of them are equal where their edges are.
#[derive_where(Clone, Copy, PartialEq, Eq, PartialOrd, Ord, Hash, Debug)]
pub struct DirectedVoronoiEdge<'a, V, DE, UE, F> {
    pub(crate) edge: DirectedEdgeHandle<'a, V, DE, UE, F>,
}

/// The edge of the Voronoi diagram across an undirected edge. Two of them are equal where their
/// edges are.
#[derive_where(Clone, Copy, PartialEq, Eq, PartialOrd, Ord, Hash, Debug)]
pub struct UndirectedVoronoiEdge<'a, V, DE, UE, F> {
    pub(crate) edge: UndirectedEdgeHandle<'a, V, DE, UE, F>,
}

/// A vertex of the Voronoi diagram: that of an inner face, or the far end of an edge that has no
/// other end.
#[derive_where(Clone, Copy, PartialEq, Eq, PartialOrd, Ord, Hash, Debug)]
pub enum VoronoiVertex<'a, V, DE, UE, F> {
    Inner(FaceHandle<'a, V, DE, UE, F>),
    /// The edge starts here.
    Outer(DirectedVoronoiEdge<'a, V, DE, UE, F>),
}

/// What a face of the Voronoi diagram belongs to.
pub trait AsVoronoiFace {
    /// The type of the face of the Voronoi diagram.
    type Face;

    /// The face of the Voronoi diagram that belongs to the vertex.
    fn as_voronoi_face(&self) -> Self::Face;
}

/// What an edge of the Voronoi diagram lies across.
pub trait AsVoronoiEdge {
    /// The type of the edge of the Voronoi diagram.
    type Edge;

    /// The edge of the Voronoi diagram between the two faces beside this edge, of a directed one
    /// from the face on its left to the one on its right.
    fn as_voronoi_edge(&self) -> Self::Edge;
}

/// What a vertex of the Voronoi diagram belongs to.
pub trait AsVoronoiVertex {
    /// The type of the vertex of the Voronoi diagram.
    type Vertex;

    ghost has_vertex: { Self → Type 0 };

    /// The vertex of the Voronoi diagram that belongs to this inner face.
    fn as_voronoi_vertex(&self) -> Self::Vertex
        requires { has_vertex self.now };
}

impl<'a, V, DE, UE, F> AsVoronoiFace for VertexHandle<'a, V, DE, UE, F> {
    type Face = VoronoiFace<'a, V, DE, UE, F>;

    fn as_voronoi_face(&self) -> VoronoiFace<'a, V, DE, UE, F>
        ensures { result.vertex ≡ self.now }
    {
        VoronoiFace { vertex: *self }
    }
}

impl<'a, V, DE, UE, F> VoronoiFace<'a, V, DE, UE, F> {
    ghost use Rattle.half_edge_dcel.specs.{GivesRound, out_edges_left};

    /// The vertex that the face belongs to.
    pub fn as_delaunay_vertex(&self) -> VertexHandle<'a, V, DE, UE, F>
        ensures { result ≡ self.now.vertex }
    {
        self.vertex
    }

    /// The edges with this face on their left, counterclockwise.
    pub fn adjacent_edges(&self) -> VoronoiCircularIterator<'a, V, DE, UE, F>
        ensures { GivesRound self.now.vertex.dcel self.now.vertex.index
            (out_edges_left result.edges) }
    {
        VoronoiCircularIterator {
            edges: self.vertex.out_edges(),
        }
    }
}

impl<'a, V, DE, UE, F> AsVoronoiEdge for DirectedEdgeHandle<'a, V, DE, UE, F> {
    type Edge = DirectedVoronoiEdge<'a, V, DE, UE, F>;

    fn as_voronoi_edge(&self) -> DirectedVoronoiEdge<'a, V, DE, UE, F>
        ensures { result.edge ≡ self.now }
    {
        DirectedVoronoiEdge { edge: *self }
    }
}

impl<'a, V, DE, UE, F> AsVoronoiEdge for UndirectedEdgeHandle<'a, V, DE, UE, F> {
    type Edge = UndirectedVoronoiEdge<'a, V, DE, UE, F>;

    fn as_voronoi_edge(&self) -> UndirectedVoronoiEdge<'a, V, DE, UE, F>
        ensures { result.edge ≡ self.now }
    {
        UndirectedVoronoiEdge { edge: *self }
    }
}

impl<'a, V, DE, UE, F> AsVoronoiVertex for FaceHandle<'a, V, DE, UE, F> {
    type Vertex = VoronoiVertex<'a, V, DE, UE, F>;

    ghost has_vertex = { λ f. 0 < f.index };

    fn as_voronoi_vertex(&self) -> VoronoiVertex<'a, V, DE, UE, F>
        requires { 0 < self.now.index }
        ensures { result ≡ VoronoiVertex.Inner self.now }
    {
        VoronoiVertex::Inner(*self)
    }
}

// The edges of the Voronoi diagram that start at the vertex of an inner face.
fn edges_out_of<'a, V, DE, UE, F>(
    face: &FaceHandle<'a, V, DE, UE, F>,
) -> [DirectedVoronoiEdge<'a, V, DE, UE, F>; 3]
    requires { 0 < face.now.index }
    ensures dcel { All (λ e. e.edge.dcel ≡ face.now.dcel) result }
    ensures indexes { let m = face.now.dcel.now.mesh in let e = face_edge m face.now.index in
        map (λ e. e.edge.index) result ≡ e ∷ next m e ∷ prev m e ∷ [] }
{
    let edge = face.adjacent_edge();
    [
        edge.as_voronoi_edge(),
        edge.next().as_voronoi_edge(),
        edge.prev().as_voronoi_edge(),
    ]
}

impl<'a, V, DE, UE, F> DirectedVoronoiEdge<'a, V, DE, UE, F> {
    ghost use Rattle.half_edge_mesh.specs.Voronoi.{IsVoronoiStart};

    /// The edge that this one lies across.
    pub fn as_delaunay_edge(&self) -> DirectedEdgeHandle<'a, V, DE, UE, F>
        ensures { result ≡ self.now.edge }
    {
        self.edge
    }

    /// The edge without its direction.
    pub fn as_undirected(&self) -> UndirectedVoronoiEdge<'a, V, DE, UE, F>
        ensures dcel { result.edge.dcel ≡ self.now.edge.dcel }
        ensures index { result.edge.index ≡ self.now.edge.index / 2 }
    {
        self.edge.as_undirected().as_voronoi_edge()
    }

    /// The same edge in the other direction.
    pub fn rev(&self) -> Self
        ensures dcel { result.edge.dcel ≡ self.now.edge.dcel }
        ensures index { result.edge.index ≡ rev self.now.edge.index }
    {
        self.edge.rev().as_voronoi_edge()
    }

    /// The next edge counterclockwise round the face on the left.
    pub fn next(&self) -> Self
        ensures dcel { result.edge.dcel ≡ self.now.edge.dcel }
        ensures index { result.edge.index ≡
            rev (prev self.now.edge.dcel.now.mesh self.now.edge.index) }
    {
        self.edge.ccw().as_voronoi_edge()
    }

    /// The edge before this one round the face on the left.
    pub fn prev(&self) -> Self
        ensures dcel { result.edge.dcel ≡ self.now.edge.dcel }
        ensures index { result.edge.index ≡ next self.now.edge.dcel.now.mesh
            (rev self.now.edge.index) }
    {
        self.edge.cw().as_voronoi_edge()
    }

    /// The face on the left.
    pub fn face(&self) -> VoronoiFace<'a, V, DE, UE, F>
        ensures dcel { result.vertex.dcel ≡ self.now.edge.dcel }
        ensures index { result.vertex.index ≡ origin self.now.edge.dcel.now.mesh
            self.now.edge.index }
    {
        self.edge.from().as_voronoi_face()
    }

    /// The vertex where the edge starts.
    pub fn from(&self) -> VoronoiVertex<'a, V, DE, UE, F>
        ensures { IsVoronoiStart self.now.edge.dcel self.now.edge.index result }
    {
        if self.edge.is_outer_edge() {
            VoronoiVertex::Outer(*self)
        } else {
            VoronoiVertex::Inner(self.edge.face())
        }
    }

    /// The vertex where the edge ends.
    pub fn to(&self) -> VoronoiVertex<'a, V, DE, UE, F>
        ensures { IsVoronoiStart self.now.edge.dcel (rev self.now.edge.index) result }
    {
        self.rev().from()
    }
}

impl<'a, V, DE, UE, F> UndirectedVoronoiEdge<'a, V, DE, UE, F> {
    ghost use Rattle.half_edge_mesh.specs.Voronoi.{AreVoronoiEnds};

    /// The edge that this one lies across.
    pub fn as_delaunay_edge(&self) -> UndirectedEdgeHandle<'a, V, DE, UE, F>
        ensures { result ≡ self.now.edge }
    {
        self.edge
    }

    /// The first of the two directions.
    pub fn as_directed(&self) -> DirectedVoronoiEdge<'a, V, DE, UE, F>
        ensures dcel { result.edge.dcel ≡ self.now.edge.dcel }
        ensures index { result.edge.index ≡ 2 * self.now.edge.index }
    {
        self.edge.as_directed().as_voronoi_edge()
    }

    /// The vertices where the edge starts and ends.
    pub fn vertices(&self) -> [VoronoiVertex<'a, V, DE, UE, F>; 2]
        ensures { AreVoronoiEnds self.now.edge.dcel (2 * self.now.edge.index) result }
    {
        let edge = self.as_directed();
        [edge.from(), edge.to()]
    }
}

impl<'a, V, DE, UE, F> VoronoiVertex<'a, V, DE, UE, F> {
    ghost use Rattle.half_edge_mesh.specs.Voronoi.{GoesOut, GoOut, inner_face};

    /// The inner face that the vertex belongs to, if it is no far end.
    pub fn as_delaunay_face(&self) -> Option<FaceHandle<'a, V, DE, UE, F>>
        ensures { result ≡ inner_face self.now }
    {
        match self {
            VoronoiVertex::Inner(face) if !face.is_outer() => Some(*face),
            _ => None,
        }
    }

    /// An edge that starts at this vertex, if it is that of an inner face. Of a far end it gives
    /// none, though one starts there.
    pub fn out_edge(&self) -> Option<DirectedVoronoiEdge<'a, V, DE, UE, F>>
        ensures none { IsNone result ↔ IsNone (inner_face self.now) }
        ensures edge { IfSome result (GoesOut (inner_face self.now)) }
    {
        let face = self.as_delaunay_face()?;
        Some(face.adjacent_edge().as_voronoi_edge())
    }

    /// The three edges that start at the vertex of an inner face.
    pub fn out_edges(&self) -> [DirectedVoronoiEdge<'a, V, DE, UE, F>; 3]
        requires { IsSome (inner_face self.now) }
        ensures { GoOut (inner_face self.now) result }
    {
        edges_out_of(&self.as_delaunay_face().unwrap())
    }
}
