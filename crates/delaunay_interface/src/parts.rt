//! Names for what the calls of a triangulation give, by the triangulation.

use crate::{InnerFaceIterator, Triangulation};
use half_edge_dcel::{
    DirectedEdgeIterator, FaceIterator, HullIterator, UndirectedEdgeIterator, VertexIterator,
};
use half_edge_mesh::{
    DirectedVoronoiEdgeIterator, UndirectedVoronoiEdgeIterator, VoronoiFaceIterator,
};

/// Its vertices, as they are inserted.
pub type VertexOf<T> = <T as Triangulation>::Vertex;

/// The data of its directed edges.
pub type DirectedOf<T> = <T as Triangulation>::DirectedEdge;

/// The data of its undirected edges.
pub type UndirectedOf<T> = <T as Triangulation>::UndirectedEdge;

/// The data of its faces.
pub type FaceOf<T> = <T as Triangulation>::Face;

/// An iterator over its vertices.
pub type VerticesOf<'a, T> = VertexIterator<
    'a,
    VertexOf<T>,
    DirectedOf<T>,
    UndirectedOf<T>,
    FaceOf<T>,
>;

/// An iterator over its directed edges.
pub type DirectedEdgesOf<'a, T> = DirectedEdgeIterator<
    'a,
    VertexOf<T>,
    DirectedOf<T>,
    UndirectedOf<T>,
    FaceOf<T>,
>;

/// An iterator over its undirected edges.
pub type UndirectedEdgesOf<'a, T> = UndirectedEdgeIterator<
    'a,
    VertexOf<T>,
    DirectedOf<T>,
    UndirectedOf<T>,
    FaceOf<T>,
>;

/// An iterator over its faces.
pub type FacesOf<'a, T> = FaceIterator<'a, VertexOf<T>, DirectedOf<T>, UndirectedOf<T>, FaceOf<T>>;

/// An iterator over its faces but the outer one.
pub type InnerFacesOf<'a, T> = InnerFaceIterator<
    'a,
    VertexOf<T>,
    DirectedOf<T>,
    UndirectedOf<T>,
    FaceOf<T>,
>;

/// An iterator round its hull.
pub type HullOf<'a, T> = HullIterator<'a, VertexOf<T>, DirectedOf<T>, UndirectedOf<T>, FaceOf<T>>;

/// An iterator over the faces of its Voronoi diagram.
pub type VoronoiFacesOf<'a, T> = VoronoiFaceIterator<
    'a,
    VertexOf<T>,
    DirectedOf<T>,
    UndirectedOf<T>,
    FaceOf<T>,
>;

/// An iterator over the directed edges of its Voronoi diagram.
pub type DirectedVoronoiEdgesOf<'a, T> = DirectedVoronoiEdgeIterator<
    'a,
    VertexOf<T>,
    DirectedOf<T>,
    UndirectedOf<T>,
    FaceOf<T>,
>;

/// An iterator over the undirected edges of its Voronoi diagram.
pub type UndirectedVoronoiEdgesOf<'a, T> = UndirectedVoronoiEdgeIterator<
    'a,
    VertexOf<T>,
    DirectedOf<T>,
    UndirectedOf<T>,
    FaceOf<T>,
>;
