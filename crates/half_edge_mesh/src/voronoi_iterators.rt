//! Iterators over the faces and edges of the Voronoi diagram.
ghost use Rattle.std.specs.Prelude.{◌≡◌, length};
ghost use Rattle.std.specs.List.{range_with_len};
ghost use Rattle.std.specs.Iterator.{YieldsFirstBy, YieldsLastBy, item_count};
ghost use Rattle.{half_edge_dcel.specs.each_in, half_edge_dcel.specs.Left.vertices_left};
ghost use Rattle.half_edge_dcel.specs.Left.{directed_edges_left, undirected_edges_left};

use crate::{
    AsVoronoiEdge, AsVoronoiFace, DirectedVoronoiEdge, UndirectedVoronoiEdge, VoronoiFace,
};
use half_edge_dcel::{
    CircularIterator, Dcel, DirectedEdgeIterator, MeshViews, UndirectedEdgeIterator, VertexIterator,
};
use std::iter::FusedIterator;

/// The faces of the Voronoi diagram that are left, by rising index of their vertices.
#[derive(Drop)]
#[derive_where(Clone, Debug)]
pub struct VoronoiFaceIterator<'a, V, DE, UE, F> {
    pub vertices: VertexIterator<'a, V, DE, UE, F>,
}

impl<'a, V, DE, UE, F> Iterator for VoronoiFaceIterator<'a, V, DE, UE, F> {
    type Item = VoronoiFace<'a, V, DE, UE, F>;

    ghost next_gives = { YieldsFirstBy (λ x. (x.vertex.dcel, x.vertex.index))
        (λ it. vertices_left it.vertices) };

    ghost remaining = { item_count (λ it. vertices_left it.vertices) };

    fn next(&mut self) -> Option<VoronoiFace<'a, V, DE, UE, F>> {
        let vertex = self.vertices.next()?;
        Some(vertex.as_voronoi_face())
    }

    fn size_hint(&self) -> (usize, Option<usize>) {
        self.vertices.size_hint()
    }
}

impl<'a, V, DE, UE, F> DoubleEndedIterator for VoronoiFaceIterator<'a, V, DE, UE, F> {
    ghost next_back_gives = { YieldsLastBy (λ x. (x.vertex.dcel, x.vertex.index))
        (λ it. vertices_left it.vertices) };

    fn next_back(&mut self) -> Option<VoronoiFace<'a, V, DE, UE, F>> {
        let vertex = self.vertices.next_back()?;
        Some(vertex.as_voronoi_face())
    }
}

impl<'a, V, DE, UE, F> ExactSizeIterator for VoronoiFaceIterator<'a, V, DE, UE, F> {
    fn len(&self) -> usize {
        self.vertices.len()
    }
}

impl<'a, V, DE, UE, F> FusedIterator for VoronoiFaceIterator<'a, V, DE, UE, F> {}

/// The directed edges of the Voronoi diagram that are left, by rising index of the edges that they
/// lie across.
#[derive(Drop)]
#[derive_where(Clone, Debug)]
pub struct DirectedVoronoiEdgeIterator<'a, V, DE, UE, F> {
    pub edges: DirectedEdgeIterator<'a, V, DE, UE, F>,
}

impl<'a, V, DE, UE, F> Iterator for DirectedVoronoiEdgeIterator<'a, V, DE, UE, F> {
    type Item = DirectedVoronoiEdge<'a, V, DE, UE, F>;

    ghost next_gives = { YieldsFirstBy (λ x. (x.edge.dcel, x.edge.index))
        (λ it. directed_edges_left it.edges) };

    ghost remaining = { item_count (λ it. directed_edges_left it.edges) };

    fn next(&mut self) -> Option<DirectedVoronoiEdge<'a, V, DE, UE, F>> {
        let edge = self.edges.next()?;
        Some(edge.as_voronoi_edge())
    }

    fn size_hint(&self) -> (usize, Option<usize>) {
        self.edges.size_hint()
    }
}

impl<'a, V, DE, UE, F> DoubleEndedIterator for DirectedVoronoiEdgeIterator<'a, V, DE, UE, F> {
    ghost next_back_gives = { YieldsLastBy (λ x. (x.edge.dcel, x.edge.index))
        (λ it. directed_edges_left it.edges) };

    fn next_back(&mut self) -> Option<DirectedVoronoiEdge<'a, V, DE, UE, F>> {
        let edge = self.edges.next_back()?;
        Some(edge.as_voronoi_edge())
    }
}

impl<'a, V, DE, UE, F> ExactSizeIterator for DirectedVoronoiEdgeIterator<'a, V, DE, UE, F> {
    fn len(&self) -> usize {
        self.edges.len()
    }
}

impl<'a, V, DE, UE, F> FusedIterator for DirectedVoronoiEdgeIterator<'a, V, DE, UE, F> {}

/// The undirected edges of the Voronoi diagram that are left, by rising index of the edges that
/// they lie across.
#[derive(Drop)]
#[derive_where(Clone, Debug)]
pub struct UndirectedVoronoiEdgeIterator<'a, V, DE, UE, F> {
    pub edges: UndirectedEdgeIterator<'a, V, DE, UE, F>,
}

impl<'a, V, DE, UE, F> Iterator for UndirectedVoronoiEdgeIterator<'a, V, DE, UE, F> {
    type Item = UndirectedVoronoiEdge<'a, V, DE, UE, F>;

    ghost next_gives = { YieldsFirstBy (λ x. (x.edge.dcel, x.edge.index))
        (λ it. undirected_edges_left it.edges) };

    ghost remaining = { item_count (λ it. undirected_edges_left it.edges) };

    fn next(&mut self) -> Option<UndirectedVoronoiEdge<'a, V, DE, UE, F>> {
        let edge = self.edges.next()?;
        Some(edge.as_voronoi_edge())
    }

    fn size_hint(&self) -> (usize, Option<usize>) {
        self.edges.size_hint()
    }
}

impl<'a, V, DE, UE, F> DoubleEndedIterator for UndirectedVoronoiEdgeIterator<'a, V, DE, UE, F> {
    ghost next_back_gives = { YieldsLastBy (λ x. (x.edge.dcel, x.edge.index))
        (λ it. undirected_edges_left it.edges) };

    fn next_back(&mut self) -> Option<UndirectedVoronoiEdge<'a, V, DE, UE, F>> {
        let edge = self.edges.next_back()?;
        Some(edge.as_voronoi_edge())
    }
}

impl<'a, V, DE, UE, F> ExactSizeIterator for UndirectedVoronoiEdgeIterator<'a, V, DE, UE, F> {
    fn len(&self) -> usize {
        self.edges.len()
    }
}

impl<'a, V, DE, UE, F> FusedIterator for UndirectedVoronoiEdgeIterator<'a, V, DE, UE, F> {}

/// The edges of the Voronoi diagram with one face on their left that are left, counterclockwise,
/// and from behind clockwise.
#[derive(Drop)]
#[derive_where(Clone, Debug)]
pub struct VoronoiCircularIterator<'a, V, DE, UE, F> {
    pub edges: CircularIterator<'a, V, DE, UE, F>,
}

impl<'a, V, DE, UE, F> Iterator for VoronoiCircularIterator<'a, V, DE, UE, F> {
    ghost use Rattle.half_edge_dcel.specs.{out_edges_left};

    type Item = DirectedVoronoiEdge<'a, V, DE, UE, F>;

    ghost next_gives = { YieldsFirstBy (λ x. (x.edge.dcel, x.edge.index))
        (λ it. out_edges_left it.edges) };

    ghost remaining = { item_count (λ it. out_edges_left it.edges) };

    fn next(&mut self) -> Option<DirectedVoronoiEdge<'a, V, DE, UE, F>> {
        let edge = self.edges.next()?;
        Some(edge.as_voronoi_edge())
    }
}

impl<'a, V, DE, UE, F> DoubleEndedIterator for VoronoiCircularIterator<'a, V, DE, UE, F> {
    ghost use Rattle.half_edge_dcel.specs.{out_edges_left};

    ghost next_back_gives = { YieldsLastBy (λ x. (x.edge.dcel, x.edge.index))
        (λ it. out_edges_left it.edges) };

    fn next_back(&mut self) -> Option<DirectedVoronoiEdge<'a, V, DE, UE, F>> {
        let edge = self.edges.next_back()?;
        Some(edge.as_voronoi_edge())
    }
}

impl<'a, V, DE, UE, F> FusedIterator for VoronoiCircularIterator<'a, V, DE, UE, F> {}

/// Iterators over the faces and edges of the Voronoi diagram of a mesh. What each call gives is
/// said at `Dcel`.
pub trait VoronoiViews<V, DE, UE, F> {
    /// The faces of the Voronoi diagram, by rising index of their vertices.
    fn voronoi_faces(&self) -> VoronoiFaceIterator<'_, V, DE, UE, F>;

    /// The directed edges of the Voronoi diagram, by rising index of the edges that they lie
    /// across.
    fn directed_voronoi_edges(&self) -> DirectedVoronoiEdgeIterator<'_, V, DE, UE, F>;

    /// The undirected edges of the Voronoi diagram, by rising index of the edges that they lie
    /// across.
    fn undirected_voronoi_edges(&self) -> UndirectedVoronoiEdgeIterator<'_, V, DE, UE, F>;
}

impl<V, DE, UE, F> VoronoiViews<V, DE, UE, F> for Dcel<V, DE, UE, F> {
    fn voronoi_faces(&self) -> VoronoiFaceIterator<'_, V, DE, UE, F>
        ensures { vertices_left result.vertices ≡ each_in self.entry
            (range_with_len 0 (length self.now.vertices)) }
    {
        VoronoiFaceIterator {
            vertices: self.vertices(),
        }
    }

    fn directed_voronoi_edges(&self) -> DirectedVoronoiEdgeIterator<'_, V, DE, UE, F>
        ensures { directed_edges_left result.edges ≡ each_in self.entry
            (range_with_len 0 (length self.now.directed)) }
    {
        DirectedVoronoiEdgeIterator {
            edges: self.directed_edges(),
        }
    }

    fn undirected_voronoi_edges(&self) -> UndirectedVoronoiEdgeIterator<'_, V, DE, UE, F>
        ensures { undirected_edges_left result.edges ≡
            each_in self.entry (range_with_len 0 (length self.now.undirected)) }
    {
        UndirectedVoronoiEdgeIterator {
            edges: self.undirected_edges(),
        }
    }
}
