//! Iterators over the fixed handles of the parts of a mesh.
#![tactic(auto, using(crate::proofs::Steps::range_step, crate::proofs::Steps::fewer_after))]

ghost use Rattle.std.specs.Prelude.{◌≡◌, ◌-◌, ◌^◌, ◌≤◌, ⊤};
ghost use Rattle.std.specs.List.{range_with_len};
ghost use Rattle.std.specs.Iterator.{YieldsFirstBy, YieldsLastBy, item_count};

use crate::handles::FixedHandle;
use crate::{
    FixedDirectedEdgeHandle, FixedFaceHandle, FixedUndirectedEdgeHandle, FixedVertexHandle,
};
use std::alloc::AllocError;
use std::fmt;
use std::iter::FusedIterator;
use std::marker::{Model, PhantomData};

/// Names of vertices that are left, by rising index.
pub type FixedVertexIterator = FixedIterator<FixedVertexHandle>;

/// Names of directed edges that are left, by rising index.
pub type FixedDirectedEdgeIterator = FixedIterator<FixedDirectedEdgeHandle>;

/// Names of undirected edges that are left, by rising index.
pub type FixedUndirectedEdgeIterator = FixedIterator<FixedUndirectedEdgeHandle>;

/// Names of faces that are left, by rising index.
pub type FixedFaceIterator = FixedIterator<FixedFaceHandle>;

// Indexes in a row, from `next` up to the one before `end`.
#[derive(Clone, Copy, Debug)]
struct IndexRange {
    next: u32,
    end: u32,
}

/// Names of one kind that are left, by rising index.
#[derive(Drop)]
pub struct FixedIterator<H: FixedHandle> {
    indexes: IndexRange,
    kind: PhantomData<H>,
}

impl<H: FixedHandle> Model for FixedIterator<H> {
    ghost use Rattle.std.specs.Prelude.{ℕ, List, ◌-◌, ◌≤◌};
    ghost use Rattle.std.specs.List.{range_with_len};

    ghost Value = { List ℕ };

    ghost view = { λ s. range_with_len s.indexes.next (s.indexes.end - s.indexes.next) };

    ghost invariant = { λ s. s.indexes.end ≤ H.limit };
}

impl FixedIterator<FixedVertexHandle> {
    /// The vertices from index `next` on, up to the one before `end`.
    pub fn new(next: u32, end: u32) -> Self
        ensures { result ≡ range_with_len next (end - next) }
    {
        FixedIterator {
            indexes: IndexRange { next, end },
            kind: PhantomData,
        }
    }
}

impl FixedIterator<FixedDirectedEdgeHandle> {
    /// The directed edges from index `next` on, up to the one before `end`.
    pub fn new(next: u32, end: u32) -> Self
        ensures { result ≡ range_with_len next (end - next) }
    {
        FixedIterator {
            indexes: IndexRange { next, end },
            kind: PhantomData,
        }
    }
}

impl FixedIterator<FixedUndirectedEdgeHandle> {
    /// The undirected edges from index `next` on, up to the one before `end`, which is at most 2 to
    /// the 31st.
    pub fn new(next: u32, end: u32) -> Self
        requires { end ≤ 2 ^ 31 }
        ensures { result ≡ range_with_len next (end - next) }
    {
        FixedIterator {
            indexes: IndexRange { next, end },
            kind: PhantomData,
        }
    }
}

impl FixedIterator<FixedFaceHandle> {
    /// The faces from index `next` on, up to the one before `end`.
    pub fn new(next: u32, end: u32) -> Self
        ensures { result ≡ range_with_len next (end - next) }
    {
        FixedIterator {
            indexes: IndexRange { next, end },
            kind: PhantomData,
        }
    }
}

impl<H: FixedHandle> fmt::Debug for FixedIterator<H> {
    fn fmt<W: fmt::Write>(&self, f: &mut fmt::Formatter<W>) -> fmt::Result {
        f.debug_struct(H::ITERATOR)
            .field("indexes", &self.indexes)
            .finish()
    }
}

impl<H: FixedHandle> Clone for FixedIterator<H> {
    ghost is_clone = { λ it copy. copy ≡ it };

    ghost is_infallible = { λ _. ⊤ };

    fn clone(&self) -> Result<Self, AllocError> {
        Ok(FixedIterator {
            indexes: self.indexes,
            kind: PhantomData,
        })
    }
}

impl<H: FixedHandle> Iterator for FixedIterator<H> {
    type Item = H;

    ghost next_gives = { YieldsFirstBy H.index_of (λ s. s) };

    ghost remaining = { item_count (λ s. s) };

    fn next(&mut self) -> Option<H> {
        let index = self.indexes.next;
        if index >= self.indexes.end {
            return None;
        }
        self.indexes.next += 1;
        Some(H::with_index(index))
    }

    fn size_hint(&self) -> (usize, Option<usize>) {
        (self.len(), Some(self.len()))
    }
}

#[tactic(auto, using(crate::proofs::Steps::range_last, crate::proofs::Steps::fewer_before))]
impl<H: FixedHandle> DoubleEndedIterator for FixedIterator<H> {
    ghost next_back_gives = { YieldsLastBy H.index_of (λ s. s) };

    fn next_back(&mut self) -> Option<H> {
        if self.indexes.next >= self.indexes.end {
            return None;
        }
        self.indexes.end -= 1;
        Some(H::with_index(self.indexes.end))
    }
}

#[tactic(auto, using(crate::proofs::Steps::range_len))]
impl<H: FixedHandle> ExactSizeIterator for FixedIterator<H> {
    fn len(&self) -> usize {
        if self.indexes.next >= self.indexes.end {
            return 0;
        }
        (self.indexes.end - self.indexes.next) as usize
    }
}

impl<H: FixedHandle> FusedIterator for FixedIterator<H> {}
