//! Names of the vertices, edges and faces of a mesh: indexes, each kind with a type of its own.
ghost use Rattle.std.specs.Prelude.{◌≡◌, ℕ, ◌*◌, ◌/◌, ◌<◌, ◌^◌, IsTrue, ◌↔◌};
ghost use Rattle.half_edge_links.specs.Meshes.{rev};

use crate::reversed;
use std::marker::Model;

/// A kind of names, which are indexes below a limit.
pub trait FixedHandle: Drop {
    /// What an iterator over such names is called where it is written out.
    const ITERATOR: &'static str;

    ghost index_of: { Self → ℕ };

    ghost limit: { ℕ };

    /// The name with this index.
    fn with_index(index: u32) -> Self
        requires { index < limit }
        ensures { index_of result ≡ index };
}

/// A vertex of a mesh, by its index.
#[derive(Clone, Copy, PartialEq, Eq, PartialOrd, Ord, Hash, Debug)]
pub struct FixedVertexHandle {
    index: u32,
}

impl Model for FixedVertexHandle {
    ghost Value = { ℕ };

    ghost view = { λ h. h.index };

    ghost inverse = { λ n. record { index = n } };
}

impl FixedHandle for FixedVertexHandle {
    const ITERATOR: &'static str = "FixedVertexIterator";

    ghost index_of = { λ h. h };

    ghost limit = { 2 ^ 32 };

    fn with_index(index: u32) -> Self {
        FixedVertexHandle { index }
    }
}

impl FixedVertexHandle {
    /// The vertex with this index.
    pub fn from_index(index: u32) -> Self
        ensures { result ≡ index }
    {
        FixedVertexHandle { index }
    }

    /// The index of the vertex.
    pub fn index(self) -> u32
        ensures { result ≡ self }
    {
        self.index
    }
}

/// A directed edge of a mesh, by its index. Edges `2 k` and `2 k + 1` are the two directions of
/// undirected edge `k`.
#[derive(Clone, Copy, PartialEq, Eq, PartialOrd, Ord, Hash, Debug)]
pub struct FixedDirectedEdgeHandle {
    index: u32,
}

impl Model for FixedDirectedEdgeHandle {
    ghost Value = { ℕ };

    ghost view = { λ h. h.index };

    ghost inverse = { λ n. record { index = n } };
}

impl FixedHandle for FixedDirectedEdgeHandle {
    const ITERATOR: &'static str = "FixedDirectedEdgeIterator";

    ghost index_of = { λ h. h };

    ghost limit = { 2 ^ 32 };

    fn with_index(index: u32) -> Self {
        FixedDirectedEdgeHandle { index }
    }
}

impl FixedDirectedEdgeHandle {
    /// The directed edge with this index.
    pub fn from_index(index: u32) -> Self
        ensures { result ≡ index }
    {
        FixedDirectedEdgeHandle { index }
    }

    /// The index of the directed edge.
    pub fn index(self) -> u32
        ensures { result ≡ self }
    {
        self.index
    }

    /// The same edge in the other direction.
    pub fn rev(self) -> Self
        ensures { result ≡ rev self }
    {
        FixedDirectedEdgeHandle {
            index: reversed(self.index),
        }
    }

    /// The edge without its direction.
    pub fn as_undirected(self) -> FixedUndirectedEdgeHandle
        ensures { result ≡ self / 2 }
    {
        FixedUndirectedEdgeHandle {
            index: self.index / 2,
        }
    }
}

/// An undirected edge of a mesh, by its index, which is below 2 to the 31st.
#[derive(Clone, Copy, PartialEq, Eq, PartialOrd, Ord, Hash, Debug)]
pub struct FixedUndirectedEdgeHandle {
    index: u32,
}

impl Model for FixedUndirectedEdgeHandle {
    ghost Value = { ℕ };

    ghost view = { λ h. h.index };

    ghost invariant = { λ h. h.index < 2 ^ 31 };

    ghost inverse = { λ n. record { index = n } };
}

impl FixedHandle for FixedUndirectedEdgeHandle {
    const ITERATOR: &'static str = "FixedUndirectedEdgeIterator";

    ghost index_of = { λ h. h };

    ghost limit = { 2 ^ 31 };

    fn with_index(index: u32) -> Self {
        FixedUndirectedEdgeHandle { index }
    }
}

impl FixedUndirectedEdgeHandle {
    /// The undirected edge with this index. The index has to be below 2 to the 31st.
    pub fn from_index(index: u32) -> Self
        requires { index < 2 ^ 31 }
        ensures { result ≡ index }
    {
        FixedUndirectedEdgeHandle { index }
    }

    /// The index of the undirected edge, which is below 2 to the 31st.
    pub fn index(self) -> u32
        ensures value { result ≡ self }
        ensures small { result < 2 ^ 31 }
    {
        self.index
    }

    /// The first of the two directions.
    pub fn as_directed(self) -> FixedDirectedEdgeHandle
        ensures { result ≡ 2 * self }
    {
        FixedDirectedEdgeHandle {
            index: 2 * self.index,
        }
    }
}

/// A face of a mesh, by its index. Face 0 is the outer face.
#[derive(Clone, Copy, PartialEq, Eq, PartialOrd, Ord, Hash, Debug)]
pub struct FixedFaceHandle {
    index: u32,
}

impl Model for FixedFaceHandle {
    ghost Value = { ℕ };

    ghost view = { λ h. h.index };

    ghost inverse = { λ n. record { index = n } };
}

impl FixedHandle for FixedFaceHandle {
    const ITERATOR: &'static str = "FixedFaceIterator";

    ghost index_of = { λ h. h };

    ghost limit = { 2 ^ 32 };

    fn with_index(index: u32) -> Self {
        FixedFaceHandle { index }
    }
}

impl FixedFaceHandle {
    /// The face with this index, which is 0 for the outer face.
    pub fn from_index(index: u32) -> Self
        ensures { result ≡ index }
    {
        FixedFaceHandle { index }
    }

    /// The index of the face, which is 0 for the outer face.
    pub fn index(self) -> u32
        ensures { result ≡ self }
    {
        self.index
    }

    /// Whether this is the outer face.
    pub fn is_outer(self) -> bool
        ensures { IsTrue result ↔ (self ≡ 0) }
    {
        self.index == 0
    }
}
