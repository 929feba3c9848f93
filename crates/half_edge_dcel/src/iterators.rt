//! Iterators over the parts of a mesh together with the mesh.
#![tactic(auto, using(crate::proofs::Taken::length_each))]

ghost use Rattle.std.specs.Prelude.{◌≡◌, ◌<◌, ◌≤◌, ⊤, All, length};
ghost use Rattle.std.specs.Iterator.{YieldsFirstBy, YieldsLastBy, item_count};

use crate::{Dcel, DirectedEdgeHandle, FaceHandle, UndirectedEdgeHandle, VertexHandle};
use half_edge_links::{
    FixedDirectedEdgeIterator, FixedFaceIterator, FixedUndirectedEdgeIterator, FixedVertexIterator,
};
use std::alloc::AllocError;
use std::iter::FusedIterator;

/// The vertices that are left, by rising index.
#[derive(Drop)]
#[derive_where(Debug)]
pub struct VertexIterator<'a, V, DE, UE, F> {
    #[derive_where(skip)]
    pub dcel: &'a Dcel<V, DE, UE, F>,
    pub rest: FixedVertexIterator,
    ghost in_range: { All (λ i. i < length dcel.now.vertices) rest },
}

impl<'a, V, DE, UE, F> Clone for VertexIterator<'a, V, DE, UE, F> {
    ghost is_clone = { λ it copy. (copy.dcel ≡ it.dcel) × (copy.rest ≡ it.rest) };

    ghost is_infallible = { λ _. ⊤ };

    fn clone(&self) -> Result<Self, AllocError> {
        Ok(VertexIterator {
            dcel: self.dcel,
            rest: self.rest.clone()?,
        })
    }
}

impl<'a, V, DE, UE, F> Iterator for VertexIterator<'a, V, DE, UE, F> {
    ghost use Rattle.half_edge_dcel.specs.Left.{vertices_left};

    type Item = VertexHandle<'a, V, DE, UE, F>;

    ghost next_gives = { YieldsFirstBy (λ x. (x.dcel, x.index)) vertices_left };

    ghost remaining = { item_count vertices_left };

    fn next(&mut self) -> Option<VertexHandle<'a, V, DE, UE, F>> {
        let vertex = self.rest.next()?;
        Some(VertexHandle {
            dcel: self.dcel,
            index: vertex.index(),
        })
    }

    fn size_hint(&self) -> (usize, Option<usize>) {
        (self.len(), Some(self.len()))
    }
}

impl<'a, V, DE, UE, F> DoubleEndedIterator for VertexIterator<'a, V, DE, UE, F> {
    ghost use Rattle.half_edge_dcel.specs.Left.{vertices_left};

    ghost next_back_gives = { YieldsLastBy (λ x. (x.dcel, x.index)) vertices_left };

    fn next_back(&mut self) -> Option<VertexHandle<'a, V, DE, UE, F>> {
        let vertex = self.rest.next_back()?;
        Some(VertexHandle {
            dcel: self.dcel,
            index: vertex.index(),
        })
    }
}

impl<'a, V, DE, UE, F> ExactSizeIterator for VertexIterator<'a, V, DE, UE, F> {
    fn len(&self) -> usize {
        self.rest.len()
    }
}

impl<'a, V, DE, UE, F> FusedIterator for VertexIterator<'a, V, DE, UE, F> {}

/// The directed edges that are left, by rising index.
#[derive(Drop)]
#[derive_where(Debug)]
pub struct DirectedEdgeIterator<'a, V, DE, UE, F> {
    #[derive_where(skip)]
    pub dcel: &'a Dcel<V, DE, UE, F>,
    pub rest: FixedDirectedEdgeIterator,
    ghost in_range: { All (λ i. i < length dcel.now.directed) rest },
}

impl<'a, V, DE, UE, F> Clone for DirectedEdgeIterator<'a, V, DE, UE, F> {
    ghost is_clone = { λ it copy. (copy.dcel ≡ it.dcel) × (copy.rest ≡ it.rest) };

    ghost is_infallible = { λ _. ⊤ };

    fn clone(&self) -> Result<Self, AllocError> {
        Ok(DirectedEdgeIterator {
            dcel: self.dcel,
            rest: self.rest.clone()?,
        })
    }
}

impl<'a, V, DE, UE, F> Iterator for DirectedEdgeIterator<'a, V, DE, UE, F> {
    ghost use Rattle.half_edge_dcel.specs.Left.{directed_edges_left};

    type Item = DirectedEdgeHandle<'a, V, DE, UE, F>;

    ghost next_gives = { YieldsFirstBy (λ x. (x.dcel, x.index)) directed_edges_left };

    ghost remaining = { item_count directed_edges_left };

    fn next(&mut self) -> Option<DirectedEdgeHandle<'a, V, DE, UE, F>> {
        let edge = self.rest.next()?;
        Some(DirectedEdgeHandle {
            dcel: self.dcel,
            index: edge.index(),
        })
    }

    fn size_hint(&self) -> (usize, Option<usize>) {
        (self.len(), Some(self.len()))
    }
}

impl<'a, V, DE, UE, F> DoubleEndedIterator for DirectedEdgeIterator<'a, V, DE, UE, F> {
    ghost use Rattle.half_edge_dcel.specs.Left.{directed_edges_left};

    ghost next_back_gives = { YieldsLastBy (λ x. (x.dcel, x.index)) directed_edges_left };

    fn next_back(&mut self) -> Option<DirectedEdgeHandle<'a, V, DE, UE, F>> {
        let edge = self.rest.next_back()?;
        Some(DirectedEdgeHandle {
            dcel: self.dcel,
            index: edge.index(),
        })
    }
}

impl<'a, V, DE, UE, F> ExactSizeIterator for DirectedEdgeIterator<'a, V, DE, UE, F> {
    fn len(&self) -> usize {
        self.rest.len()
    }
}

impl<'a, V, DE, UE, F> FusedIterator for DirectedEdgeIterator<'a, V, DE, UE, F> {}

/// The undirected edges that are left, by rising index.
#[derive(Drop)]
#[derive_where(Debug)]
pub struct UndirectedEdgeIterator<'a, V, DE, UE, F> {
    #[derive_where(skip)]
    pub dcel: &'a Dcel<V, DE, UE, F>,
    pub rest: FixedUndirectedEdgeIterator,
    ghost in_range: { All (λ i. i < length dcel.now.undirected) rest },
}

impl<'a, V, DE, UE, F> Clone for UndirectedEdgeIterator<'a, V, DE, UE, F> {
    ghost is_clone = { λ it copy. (copy.dcel ≡ it.dcel) × (copy.rest ≡ it.rest) };

    ghost is_infallible = { λ _. ⊤ };

    fn clone(&self) -> Result<Self, AllocError> {
        Ok(UndirectedEdgeIterator {
            dcel: self.dcel,
            rest: self.rest.clone()?,
        })
    }
}

impl<'a, V, DE, UE, F> Iterator for UndirectedEdgeIterator<'a, V, DE, UE, F> {
    ghost use Rattle.half_edge_dcel.specs.Left.{undirected_edges_left};

    type Item = UndirectedEdgeHandle<'a, V, DE, UE, F>;

    ghost next_gives = { YieldsFirstBy (λ x. (x.dcel, x.index)) undirected_edges_left };

    ghost remaining = { item_count undirected_edges_left };

    fn next(&mut self) -> Option<UndirectedEdgeHandle<'a, V, DE, UE, F>> {
        let edge = self.rest.next()?;
        Some(UndirectedEdgeHandle {
            dcel: self.dcel,
            index: edge.index(),
        })
    }

    fn size_hint(&self) -> (usize, Option<usize>) {
        (self.len(), Some(self.len()))
    }
}

impl<'a, V, DE, UE, F> DoubleEndedIterator for UndirectedEdgeIterator<'a, V, DE, UE, F> {
    ghost use Rattle.half_edge_dcel.specs.Left.{undirected_edges_left};

    ghost next_back_gives = { YieldsLastBy (λ x. (x.dcel, x.index)) undirected_edges_left };

    fn next_back(&mut self) -> Option<UndirectedEdgeHandle<'a, V, DE, UE, F>> {
        let edge = self.rest.next_back()?;
        Some(UndirectedEdgeHandle {
            dcel: self.dcel,
            index: edge.index(),
        })
    }
}

impl<'a, V, DE, UE, F> ExactSizeIterator for UndirectedEdgeIterator<'a, V, DE, UE, F> {
    fn len(&self) -> usize {
        self.rest.len()
    }
}

impl<'a, V, DE, UE, F> FusedIterator for UndirectedEdgeIterator<'a, V, DE, UE, F> {}

/// The faces that are left, by rising index.
#[derive(Drop)]
#[derive_where(Debug)]
pub struct FaceIterator<'a, V, DE, UE, F> {
    #[derive_where(skip)]
    pub dcel: &'a Dcel<V, DE, UE, F>,
    pub rest: FixedFaceIterator,
    ghost in_range: { All (λ i. i ≤ length dcel.now.faces) rest },
}

impl<'a, V, DE, UE, F> Clone for FaceIterator<'a, V, DE, UE, F> {
    ghost is_clone = { λ it copy. (copy.dcel ≡ it.dcel) × (copy.rest ≡ it.rest) };

    ghost is_infallible = { λ _. ⊤ };

    fn clone(&self) -> Result<Self, AllocError> {
        Ok(FaceIterator {
            dcel: self.dcel,
            rest: self.rest.clone()?,
        })
    }
}

impl<'a, V, DE, UE, F> Iterator for FaceIterator<'a, V, DE, UE, F> {
    ghost use Rattle.half_edge_dcel.specs.Left.{faces_left};

    type Item = FaceHandle<'a, V, DE, UE, F>;

    ghost next_gives = { YieldsFirstBy (λ x. (x.dcel, x.index)) faces_left };

    ghost remaining = { item_count faces_left };

    fn next(&mut self) -> Option<FaceHandle<'a, V, DE, UE, F>> {
        let face = self.rest.next()?;
        Some(FaceHandle {
            dcel: self.dcel,
            index: face.index(),
        })
    }

    fn size_hint(&self) -> (usize, Option<usize>) {
        (self.len(), Some(self.len()))
    }
}

impl<'a, V, DE, UE, F> DoubleEndedIterator for FaceIterator<'a, V, DE, UE, F> {
    ghost use Rattle.half_edge_dcel.specs.Left.{faces_left};

    ghost next_back_gives = { YieldsLastBy (λ x. (x.dcel, x.index)) faces_left };

    fn next_back(&mut self) -> Option<FaceHandle<'a, V, DE, UE, F>> {
        let face = self.rest.next_back()?;
        Some(FaceHandle {
            dcel: self.dcel,
            index: face.index(),
        })
    }
}

impl<'a, V, DE, UE, F> ExactSizeIterator for FaceIterator<'a, V, DE, UE, F> {
    fn len(&self) -> usize {
        self.rest.len()
    }
}

impl<'a, V, DE, UE, F> FusedIterator for FaceIterator<'a, V, DE, UE, F> {}
