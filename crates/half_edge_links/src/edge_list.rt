//! The list of directed edges. A record takes 16 bytes, and a large block of memory begins 16 bytes
//! past a multiple of 64: so the first place is left free, and the two sides of an edge, which most
//! steps read together, lie in one line of the processor's cache. A record says where the edge
//! before its own starts: in a triangle that is the corner opposite to the edge, for which most
//! steps ask, and the edge after it says where the edge itself starts.
ghost use Rattle.std.specs.Prelude.{◌≡◌, ◌+◌, ◌-◌, ◌<◌, ◌≤◌, [], ◌∷◌, ◌++◌, length, slice_set};
ghost use Rattle.std.specs.Prelude.{OnOk, IsOk};
ghost use Rattle.std.specs.List.{swap_remove};
ghost use Rattle.half_edge_links.specs.EdgeList.{HoldsSameEdges, no_stored, shown, stored_at};

use crate::MAX_ELEMENTS;
use crate::records::StoredEdge;
use std::alloc::AllocError;
use std::marker::Model;

// What stands in the free place.
const NO_EDGE: StoredEdge = StoredEdge {
    prev_origin: 0,
    next: 0,
    prev: 0,
    face: 0,
};

/// Directed edges by their indexes. Without any it takes no memory.
#[derive(Drop)]
pub(crate) struct EdgeList {
    // Nothing, or the free place and then the edges.
    pub(crate) records: Vec<StoredEdge>,
}

impl Model for EdgeList {
    ghost use Rattle.std.specs.Prelude.{vec_capacity};
    ghost use Rattle.half_edge_links.specs.EdgeList.{after_free, capacity_after_free, Listed};

    ghost Value = { Listed };

    ghost view = { λ l. record {
      items = after_free l.records.items;
      capacity = capacity_after_free l.records.items (vec_capacity l.records);
    } };
}

impl EdgeList {
    #[tactic(auto, using(crate::proofs::Stored::Shown::length_shown))]
    pub(crate) fn len(&self) -> usize
        ensures kept { result ≡ length self.now.items }
        ensures shown { result ≡ length (shown self.now.items) }
    {
        self.records.len().saturating_sub(1)
    }

    // How the directed edge `h` is kept.
    pub(crate) fn stored(&self, h: u32) -> StoredEdge
        requires { h < length self.now.items }
        ensures { result ≡ stored_at self.now.items h }
    {
        self.records[h as usize + 1]
    }

    // Keeps these as the links of directed edge `h`.
    pub(crate) fn set(&mut self, h: u32, prev_origin: u32, next: u32, prev: u32, face: u32)
        requires { h < length self.old.items }
        ensures items { self.new.items ≡ slice_set self.old.items h (record {
          prev_origin = prev_origin;
          next = next;
          prev = prev;
          face = face;
        }) }
        ensures len { length self.new.items ≡ length self.old.items }
        ensures capacity { self.new.capacity ≡ self.old.capacity }
    {
        self.records[h as usize + 1] = StoredEdge {
            prev_origin,
            next,
            prev,
            face,
        };
    }

    // A new last directed edge with these links, which there is room for.
    pub(crate) fn push(&mut self, prev_origin: u32, next: u32, prev: u32, face: u32)
        requires { length self.old.items + 1 ≤ self.old.capacity }
        ensures items { self.new.items ≡ self.old.items ++ (record {
          prev_origin = prev_origin;
          next = next;
          prev = prev;
          face = face;
        }) ∷ [] }
        ensures len { length self.new.items ≡ length self.old.items + 1 }
        ensures capacity { self.new.capacity ≡ self.old.capacity }
    {
        self.records.push_reserved(StoredEdge {
            prev_origin,
            next,
            prev,
            face,
        });
    }

    // Takes the directed edge `h` out. The last one takes its place.
    pub(crate) fn swap_remove(&mut self, h: u32)
        requires { h < length self.old.items }
        ensures items { self.new.items ≡ swap_remove self.old.items h no_stored }
        ensures len { length self.new.items + 1 ≡ length self.old.items }
        ensures capacity { self.new.capacity ≡ self.old.capacity }
    {
        self.records.swap_remove(h as usize + 1);
    }

    // Takes all edges out, and keeps the room.
    pub(crate) fn clear(&mut self)
        ensures items { self.new.items ≡ [] }
        ensures capacity { self.new.capacity ≡ self.old.capacity }
    {
        self.records.truncate(1);
    }

    // Makes room for so many edges in all.
    pub(crate) fn reserve(&mut self, total: usize) -> Result<(), AllocError>
        requires { total ≤ MAX_ELEMENTS }
        ensures items { self.new.items ≡ self.old.items }
        ensures ok { OnOk result (total ≤ self.new.capacity) }
        ensures kept { self.old.capacity ≤ self.new.capacity }
        ensures had_room { total ≤ self.old.capacity → IsOk result }
    {
        if total == 0 {
            return Ok(());
        }
        let more = (total + 1).saturating_sub(self.records.len());
        self.records.reserve(more)?;
        if self.records.is_empty() {
            self.records.push_reserved(NO_EDGE);
        }
        Ok(())
    }
}

impl Clone for EdgeList {
    ghost is_clone = { HoldsSameEdges };

    // The same edges, with room for as many as it has at least.
    fn clone(&self) -> Result<Self, AllocError> {
        Ok(EdgeList {
            records: self.records.clone()?,
        })
    }
}
