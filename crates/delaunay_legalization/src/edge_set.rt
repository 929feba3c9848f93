//! Lists of edges that are marked while they are listed, so that none is searched for.
ghost use Rattle.std.specs.Prelude.{◌≡◌, ℕ, ◌<◌, ◌≤◌, ◌++◌, ◌∷◌, []};
ghost use Rattle.std.specs.Prelude.{◌↔◌, Contains, IfNone, IfSome, IsTrue, OnOk};
ghost use Rattle.delaunay_legalization.specs.Legal.{Gains};

use half_edge_links::FixedUndirectedEdgeHandle;
use std::alloc::{AllocError, Global};
use std::marker::Model;

// How many bits a word has.
const BITS: usize = 64;

/// Undirected edges, each once, in the order in which they were put there, and how many indexes of
/// edges there is room for.
#[derive(Drop)]
pub struct EdgeSet {
    edges: Vec<FixedUndirectedEdgeHandle>,
    // Whether the edge of an index is listed, a bit each.
    flags: Vec<u64>,
}

impl Model for EdgeSet {
    ghost use Rattle.std.specs.Prelude.{◌*◌, length, vec_capacity};
    ghost use Rattle.delaunay_legalization.specs.EdgeSet.{AreFlagged, EdgesInSet};

    ghost Value = { EdgesInSet };

    ghost view = { λ l. record { items = l.edges.items; room = 64 * length l.flags.items } };

    ghost invariant = { λ l. AreFlagged l.edges.items l.flags.items (vec_capacity l.edges) };
}

impl EdgeSet {
    /// No edge, and no room.
    pub fn new(alloc: Global) -> Self
        ensures { result.items ≡ [] }
    {
        EdgeSet {
            edges: Vec::new(alloc),
            flags: Vec::new(alloc),
        }
    }

    /// Makes room for the edges of so many indexes. It gives `AllocError` where memory was refused.
    pub fn reserve(&mut self, edges: usize) -> Result<(), AllocError>
        ensures room { OnOk result (edges ≤ self.new.room) }
        ensures items { self.new.items ≡ self.old.items }
    {
        if edges <= self.flags.len() * BITS {
            return Ok(());
        }
        // By so many more that enough are left as they are rounded down to whole words.
        self.edges.reserve(edges.saturating_add(BITS - 1))?;
        self.flags.resize(self.edges.capacity() / BITS, 0)
    }

    /// What allocates for the list.
    pub fn allocator(&self) -> &Global {
        self.edges.allocator()
    }

    /// Whether an edge is listed.
    pub fn contains(&self, edge: FixedUndirectedEdgeHandle) -> bool
        ensures { IsTrue result ↔ Contains self.now.items edge }
    {
        let index = edge.index() as usize;
        index / BITS < self.flags.len() && (self.flags[index / BITS] >> (index % BITS)) & 1 == 1
    }

    /// Lists an edge as the last one, unless it is listed.
    pub fn put(&mut self, edge: FixedUndirectedEdgeHandle)
        requires { edge < self.old.room }
        ensures gains { Gains self.old.items self.new.items edge }
        ensures last { (¬ Contains self.old.items edge) →
            self.new.items ≡ self.old.items ++ edge ∷ [] }
        ensures room { self.new.room ≡ self.old.room }
    {
        let index = edge.index() as usize;
        let word = self.flags[index / BITS];
        if (word >> (index % BITS)) & 1 == 1 {
            return;
        }
        self.flags[index / BITS] = word | 1 << (index % BITS);
        self.edges.push_reserved(edge);
    }

    /// Takes the last edge out, if there is one.
    pub fn pop(&mut self) -> Option<FixedUndirectedEdgeHandle>
        ensures last { IfSome result (λ k. self.old.items ≡ self.new.items ++ k ∷ []) }
        ensures none { IfNone result ((self.old.items ≡ []) × (self.new.items ≡ [])) }
        ensures room { self.new.room ≡ self.old.room }
    {
        let edge = self.edges.pop()?;
        let index = edge.index() as usize;
        let word = self.flags[index / BITS];
        self.flags[index / BITS] = word & !(1 << (index % BITS));
        Some(edge)
    }

    /// Takes each edge out.
    pub fn clear(&mut self)
        ensures items { self.new.items ≡ [] }
        ensures room { self.new.room ≡ self.old.room }
    {
        'edges: while let Some(_) = self.pop() {}
    }

    // Lists the edges of another list, in place of what was in this one.
    pub(crate) fn list_again(&mut self, other: &EdgeSet)
        requires { (k : ℕ) → Contains other.now.items k → k < self.old.room }
        ensures { (k : ℕ) → Contains other.now.items k → Contains self.new.items k }
    {
        let edges = other.edges.as_slice();
        self.clear();
        for i in 0..edges.len() {
            self.put(edges[i]);
        }
    }
}
