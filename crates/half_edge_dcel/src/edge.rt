//! Edges together with the mesh that they lie in.
ghost use Rattle.std.specs.Prelude.{◌≡◌, ◌*◌, ◌/◌, ◌<◌, ◌∷◌, [], length};
ghost use Rattle.std.specs.Prelude.{slice_get, Some, ⊤, All, map, IsNone, IfSome, IsTrue};
ghost use Rattle.std.specs.Prelude.{◌↔◌};
ghost use Rattle.half_edge_links.specs.{face, next, origin, prev, rev};
ghost use Rattle.half_edge_dcel.specs.MeshContents.{IsMeshWithData};

use crate::{Dcel, FaceHandle, VertexHandle};
use half_edge_links::{FixedDirectedEdgeHandle, FixedUndirectedEdgeHandle, reversed};
use std::alloc::AllocError;

/// A directed edge of a mesh. Two of them are equal where their indexes are.
#[derive_where(Copy, PartialEq, Eq, PartialOrd, Ord, Hash, Debug)]
pub struct DirectedEdgeHandle<'a, V, DE, UE, F> {
    #[derive_where(skip)]
    pub(crate) dcel: &'a Dcel<V, DE, UE, F>,
    pub(crate) index: u32,
    ghost in_range: { index < length dcel.now.directed },
}

impl<'a, V, DE, UE, F> Clone for DirectedEdgeHandle<'a, V, DE, UE, F> {
    ghost is_clone = { λ it copy. (copy.dcel ≡ it.dcel) × (copy.index ≡ it.index) };

    ghost is_infallible = { λ _. ⊤ };

    fn clone(&self) -> Result<Self, AllocError> {
        Ok(*self)
    }
}

impl<'a, V, DE, UE, F> DirectedEdgeHandle<'a, V, DE, UE, F> {
    /// The index of it.
    pub fn index(&self) -> u32
        ensures { result ≡ self.now.index }
    {
        self.index
    }

    /// The name of it alone.
    pub fn fix(&self) -> FixedDirectedEdgeHandle
        ensures value { result ≡ self.now.index }
        ensures in_range { result < length self.now.dcel.now.directed }
    {
        FixedDirectedEdgeHandle::from_index(self.index)
    }

    /// The data of the directed edge.
    pub fn data(&self) -> &'a DE
        ensures { slice_get self.now.dcel.now.directed self.now.index ≡ Some result.now }
    {
        self.dcel.directed_edge_data(self.fix())
    }

    /// The vertex where the edge starts.
    pub fn from(&self) -> VertexHandle<'a, V, DE, UE, F>
        ensures dcel { result.dcel ≡ self.now.dcel }
        ensures index { result.index ≡ origin self.now.dcel.now.mesh self.now.index }
        ensures whole { IsMeshWithData self.now.dcel.now }
    {
        VertexHandle {
            dcel: self.dcel,
            index: self.dcel.links().half_edge(self.index).origin,
        }
    }

    /// The vertex where the edge before this one starts: where an inner face lies on the left, its
    /// third vertex. This is the cheapest read of a vertex.
    pub fn prev_from(&self) -> VertexHandle<'a, V, DE, UE, F>
        ensures dcel { result.dcel ≡ self.now.dcel }
        ensures index { let m = self.now.dcel.now.mesh in
            result.index ≡ origin m (prev m self.now.index) }
        ensures whole { IsMeshWithData self.now.dcel.now }
    {
        VertexHandle {
            dcel: self.dcel,
            index: self.dcel.links().prev_origin(self.index),
        }
    }

    /// The vertex where the edge ends.
    pub fn to(&self) -> VertexHandle<'a, V, DE, UE, F>
        ensures dcel { result.dcel ≡ self.now.dcel }
        ensures index { result.index ≡ origin self.now.dcel.now.mesh (rev self.now.index) }
        ensures whole { IsMeshWithData self.now.dcel.now }
    {
        self.rev().from()
    }

    /// The vertices where the edge starts and ends.
    pub fn vertices(&self) -> [VertexHandle<'a, V, DE, UE, F>; 2]
        ensures dcel { All (λ v. v.dcel ≡ self.now.dcel) result }
        ensures indexes { let m = self.now.dcel.now.mesh in
            map (λ v. v.index) result ≡ origin m self.now.index ∷ origin m (rev self.now.index) ∷
            [] }
    {
        [self.from(), self.to()]
    }

    /// The edge after this one in its loop.
    pub fn next(&self) -> DirectedEdgeHandle<'a, V, DE, UE, F>
        ensures dcel { result.dcel ≡ self.now.dcel }
        ensures index { result.index ≡ next self.now.dcel.now.mesh self.now.index }
        ensures whole { IsMeshWithData self.now.dcel.now }
    {
        DirectedEdgeHandle {
            dcel: self.dcel,
            index: self.dcel.links().half_edge(self.index).next,
        }
    }

    /// The edge before this one in its loop.
    pub fn prev(&self) -> DirectedEdgeHandle<'a, V, DE, UE, F>
        ensures dcel { result.dcel ≡ self.now.dcel }
        ensures index { result.index ≡ prev self.now.dcel.now.mesh self.now.index }
        ensures whole { IsMeshWithData self.now.dcel.now }
    {
        DirectedEdgeHandle {
            dcel: self.dcel,
            index: self.dcel.links().half_edge(self.index).prev,
        }
    }

    /// The same edge in the other direction.
    pub fn rev(&self) -> DirectedEdgeHandle<'a, V, DE, UE, F>
        ensures dcel { result.dcel ≡ self.now.dcel }
        ensures index { result.index ≡ rev self.now.index }
        ensures whole { IsMeshWithData self.now.dcel.now }
    {
        self.dcel.recall_invariant();
        DirectedEdgeHandle {
            dcel: self.dcel,
            index: reversed(self.index),
        }
    }

    /// The next edge counterclockwise round the vertex where this one starts.
    pub fn ccw(&self) -> DirectedEdgeHandle<'a, V, DE, UE, F>
        ensures dcel { result.dcel ≡ self.now.dcel }
        ensures index { result.index ≡ rev (prev self.now.dcel.now.mesh self.now.index) }
        ensures whole { IsMeshWithData self.now.dcel.now }
    {
        self.prev().rev()
    }

    /// The next edge clockwise round the vertex where this one starts.
    pub fn cw(&self) -> DirectedEdgeHandle<'a, V, DE, UE, F>
        ensures dcel { result.dcel ≡ self.now.dcel }
        ensures index { result.index ≡ next self.now.dcel.now.mesh (rev self.now.index) }
        ensures whole { IsMeshWithData self.now.dcel.now }
    {
        self.rev().next()
    }

    /// The face on the left of the edge.
    pub fn face(&self) -> FaceHandle<'a, V, DE, UE, F>
        ensures dcel { result.dcel ≡ self.now.dcel }
        ensures index { result.index ≡ face self.now.dcel.now.mesh self.now.index }
        ensures whole { IsMeshWithData self.now.dcel.now }
    {
        FaceHandle {
            dcel: self.dcel,
            index: self.dcel.links().half_edge(self.index).face,
        }
    }

    /// Whether the outer face lies on the left of the edge.
    pub fn is_outer_edge(&self) -> bool
        ensures { IsTrue result ↔ (face self.now.dcel.now.mesh self.now.index ≡ 0) }
    {
        self.dcel.links().half_edge(self.index).face == 0
    }

    /// The third vertex of the face on the left of the edge, if that face is an inner one.
    pub fn opposite_vertex(&self) -> Option<VertexHandle<'a, V, DE, UE, F>>
        ensures none { IsNone result ↔ (face self.now.dcel.now.mesh self.now.index ≡ 0) }
        ensures vertex { let m = self.now.dcel.now.mesh in
            IfSome result (λ v. (v.dcel ≡ self.now.dcel) ×
            (v.index ≡ origin m (prev m self.now.index))) }
    {
        if self.is_outer_edge() {
            None
        } else {
            Some(self.prev_from())
        }
    }

    /// The edge without its direction.
    pub fn as_undirected(&self) -> UndirectedEdgeHandle<'a, V, DE, UE, F>
        ensures dcel { result.dcel ≡ self.now.dcel }
        ensures index { result.index ≡ self.now.index / 2 }
    {
        self.dcel.recall_invariant();
        UndirectedEdgeHandle {
            dcel: self.dcel,
            index: self.index / 2,
        }
    }
}

/// An undirected edge of a mesh. Two of them are equal where their indexes are.
#[derive_where(Copy, PartialEq, Eq, PartialOrd, Ord, Hash, Debug)]
pub struct UndirectedEdgeHandle<'a, V, DE, UE, F> {
    #[derive_where(skip)]
    pub(crate) dcel: &'a Dcel<V, DE, UE, F>,
    pub(crate) index: u32,
    ghost in_range: { index < length dcel.now.undirected },
}

impl<'a, V, DE, UE, F> Clone for UndirectedEdgeHandle<'a, V, DE, UE, F> {
    ghost is_clone = { λ it copy. (copy.dcel ≡ it.dcel) × (copy.index ≡ it.index) };

    ghost is_infallible = { λ _. ⊤ };

    fn clone(&self) -> Result<Self, AllocError> {
        Ok(*self)
    }
}

impl<'a, V, DE, UE, F> UndirectedEdgeHandle<'a, V, DE, UE, F> {
    /// The index of it.
    pub fn index(&self) -> u32
        ensures { result ≡ self.now.index }
    {
        self.index
    }

    /// The name of it alone.
    pub fn fix(&self) -> FixedUndirectedEdgeHandle
        ensures value { result ≡ self.now.index }
        ensures in_range { result < length self.now.dcel.now.undirected }
    {
        self.dcel.recall_invariant();
        FixedUndirectedEdgeHandle::from_index(self.index)
    }

    /// The data of the undirected edge.
    pub fn data(&self) -> &'a UE
        ensures { slice_get self.now.dcel.now.undirected self.now.index ≡ Some result.now }
    {
        self.dcel.undirected_edge_data(self.fix())
    }

    /// The first of the two directions.
    pub fn as_directed(&self) -> DirectedEdgeHandle<'a, V, DE, UE, F>
        ensures dcel { result.dcel ≡ self.now.dcel }
        ensures index { result.index ≡ 2 * self.now.index }
    {
        self.dcel.recall_invariant();
        DirectedEdgeHandle {
            dcel: self.dcel,
            index: 2 * self.index,
        }
    }

    /// The vertices that the edge joins.
    pub fn vertices(&self) -> [VertexHandle<'a, V, DE, UE, F>; 2]
        ensures dcel { All (λ v. v.dcel ≡ self.now.dcel) result }
        ensures indexes { let m = self.now.dcel.now.mesh in
            map (λ v. v.index) result ≡ origin m (2 * self.now.index) ∷ origin m
            (rev (2 * self.now.index)) ∷ [] }
    {
        self.as_directed().vertices()
    }
}
