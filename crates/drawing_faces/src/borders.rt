//! Which polygons each edge is a side of.
ghost use Rattle.std.specs.Prelude.{◌≡◌, ◌<◌, ◌≤◌, [], ℕ, length, replicate, IfOk, OnOk};
ghost use Rattle.drawing_faces.specs.Parity.{either, has};
ghost use Rattle.drawing_faces.specs.Polygons.{is_pair, sides_in};

use crate::differences::difference;
use half_edge_links::FixedUndirectedEdgeHandle;
use std::alloc::{AllocError, Global};

/// The sides of polygons: for each undirected edge the polygons of which it is a side an odd number
/// of times.
#[derive(Drop)]
pub struct Borders {
    lists: Vec<Vec<u32>>,
}

impl Borders {
    /// No edge of so many is a side. It gives `AllocError` where memory was refused.
    pub fn new(edges: usize, alloc: Global) -> Result<Borders, AllocError>
        ensures count { IfOk result (λ b. length b.lists.items ≡ edges) }
        ensures none { IfOk result (λ b. (e : ℕ) → sides_in b e ≡ []) }
    {
        let mut lists = Vec::with_capacity(alloc, edges)?;
        for _ in 0..edges {
            lists.push(Vec::new(alloc))?;
        }
        Ok(Borders { lists })
    }

    /// The polygons of which an edge is a side an odd number of times; none where the edge is not
    /// one of them.
    pub fn at(&self, edge: FixedUndirectedEdgeHandle) -> &[u32]
        ensures { result.now ≡ sides_in self.now edge }
    {
        match self.lists.get(edge.index() as usize) {
            Some(list) => list.as_slice(),
            None => &[],
        }
    }

    /// Makes an edge a side of a polygon once more. An edge that is not one of them stays none. It
    /// gives `AllocError` where memory was refused, and changes nothing then.
    pub fn add(
        &mut self,
        edge: FixedUndirectedEdgeHandle,
        polygon: u32,
        alloc: Global,
    ) -> Result<(), AllocError>
        ensures count { length self.new.lists.items ≡ length self.old.lists.items }
        ensures adds { OnOk result (edge < length self.old.lists.items → (e k : ℕ) →
            has (sides_in self.new e) k ≡
            either (is_pair edge polygon e k) (has (sides_in self.old e) k)) }
        ensures past { length self.old.lists.items ≤ edge → self.new ≡ self.old }
    {
        let index = edge.index() as usize;
        if index < self.lists.len() {
            let list = difference(&[polygon], self.at(edge), alloc)?;
            self.lists[index] = list;
        }
        Ok(())
    }
}
