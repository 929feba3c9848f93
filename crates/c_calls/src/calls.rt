//! The calls that open, close and read what a handle has.
ghost use Rattle.std.specs.Prelude.{◌≡◌, None};
ghost use Rattle.c_calls.specs.Answers.{OpensCopy};
ghost use Rattle.c_calls.specs.Calls.{CopiesOpen, OpensClosed, TellsCounts, TellsNearest};

use crate::handle::with_kept;
use crate::kept::AnyTriangulation;
use crate::statuses::{ALREADY_OPEN, CLOSED, NO_SUCH_KIND, OUT_OF_MEMORY, WELL};
use crate::{Handle, RawCounts, RawPoint};
use std::alloc::Global;

impl Handle {
    /// Opens a closed handle, with a triangulation of this kind that has no vertex.
    pub fn open(&mut self, alloc: Global, kind: u32) -> u32
        ensures { OpensClosed kind result self.old.kept self.new.kept }
    {
        if let Some(kept) = self.take(alloc) {
            self.put(kept, alloc);
            return ALREADY_OPEN;
        }
        if kind > 1 {
            return NO_SUCH_KIND;
        }
        match Box::new(alloc, AnyTriangulation::new(alloc, kind == 1)) {
            Ok(kept) => {
                self.put(kept, alloc);
                WELL
            }
            Err(_) => OUT_OF_MEMORY,
        }
    }

    /// Closes a handle, and gives back the memory of what it had.
    pub fn close(&mut self, alloc: Global)
        ensures { self.new.kept ≡ None }
    {
        drop(self.take(alloc));
    }

    /// Opens another, closed handle with a copy of what this one has.
    pub fn copy(&mut self, alloc: Global, other: &mut Handle) -> u32
        ensures kept { self.new.kept ≡ self.old.kept }
        ensures copy { CopiesOpen self.old.kept result other.old.kept other.new.kept }
    {
        with_kept!(self, alloc, kept => other.open_copy(alloc, &*kept))
    }

    // Opens a closed handle with a copy of a triangulation.
    fn open_copy(&mut self, alloc: Global, kept: &AnyTriangulation) -> u32
        ensures { OpensCopy kept.now result self.old.kept self.new.kept }
    {
        if let Some(there) = self.take(alloc) {
            self.put(there, alloc);
            return ALREADY_OPEN;
        }
        let Some(copy) = kept.boxed_clone(alloc) else {
            return OUT_OF_MEMORY;
        };
        self.put(copy, alloc);
        WELL
    }

    /// Tells how many parts there are.
    pub fn count(&mut self, alloc: Global, counts: &mut RawCounts) -> u32
        ensures kept { self.new.kept ≡ self.old.kept }
        ensures counts { TellsCounts self.old.kept result counts.new }
    {
        *counts = with_kept!(self, alloc, kept => kept.counts());
        WELL
    }

    /// Writes a vertex nearest to each point.
    pub fn nearest(&mut self, alloc: Global, queries: &[RawPoint], vertices: &mut [u32]) -> u32
        ensures kept { self.new.kept ≡ self.old.kept }
        ensures vertices { TellsNearest self.old.kept queries.now result vertices.old vertices.new }
    {
        with_kept!(self, alloc, kept => kept.find_nearest(queries, vertices))
    }
}
