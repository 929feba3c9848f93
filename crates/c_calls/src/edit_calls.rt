//! The calls that edit what a handle has.
ghost use Rattle.std.specs.Prelude.{◌≡◌};
ghost use Rattle.c_calls.specs.{Answers.InsertsAt, Calls.EditsOpen, Kept.unnumbered_at};
ghost use Rattle.c_calls.specs.Edits.{AddsKept, AllowsConstraints, ClearsKept, EditsAt};
ghost use Rattle.c_calls.specs.{Edits.ReleasesKept, Edits.RemovesKept, Lists.unnumbered_points};
ghost use Rattle.c_calls.specs.Lists.{AddsChainKept, InsertsListKept, NumbersKept};

use crate::handle::with_kept;
use crate::kept::AnyTriangulation;
use crate::statuses::{CLOSED, WELL, status_of};
use crate::{Handle, RawPoint};
use delaunay_core::point::Point2;
use std::alloc::Global;
use std::mem::replace;

impl Handle {
    /// Makes a constrained triangulation of a plain one.
    #[tactic(auto, using(crate::proofs::Edited::edited_at))]
    pub fn allow_constraints(&mut self, alloc: Global) -> u32
        ensures { EditsOpen (EditsAt (AllowsConstraints result)) result self.old.kept
            self.new.kept }
    {
        with_kept!(self, alloc, mut kept => {
            let old = replace(&mut *kept, AnyTriangulation::new(alloc, false));
            let (changed, status) = old.allow_constraints();
            *kept = changed;
            status
        })
    }

    /// Forgets all.
    #[tactic(auto, using(crate::proofs::Edited::edited_at))]
    pub fn clear(&mut self, alloc: Global) -> u32
        ensures { EditsOpen (EditsAt (ClearsKept result)) result self.old.kept self.new.kept }
    {
        with_kept!(self, alloc, mut kept => kept.clear());
        WELL
    }

    /// Inserts a vertex with the number 0, and tells its index.
    #[tactic(auto, using(crate::proofs::Inserted::insertions_at))]
    pub fn insert(&mut self, alloc: Global, x: i32, y: i32, vertex: &mut u32) -> u32
        ensures { EditsOpen (InsertsAt (unnumbered_at x y) result vertex.new) result self.old.kept
            self.new.kept }
    {
        match with_kept!(self, alloc, mut kept => kept.insert(Point2 { x, y })) {
            Ok(inserted) => {
                *vertex = inserted.index();
                WELL
            }
            Err(error) => status_of(error),
        }
    }

    /// Inserts vertices with the number 0, along a curve, and writes the index of each.
    #[tactic(auto, using(crate::proofs::Edited::edited_at))]
    pub fn insert_all(&mut self, alloc: Global, positions: &[RawPoint], vertices: &mut [u32]) -> u32
        ensures { EditsOpen (EditsAt (InsertsListKept (unnumbered_points positions.now) result
            vertices.old vertices.new)) result self.old.kept self.new.kept }
    {
        with_kept!(self, alloc, mut kept => kept.insert_all(alloc, positions, vertices))
    }

    /// Removes a vertex.
    #[tactic(auto, using(crate::proofs::Edited::edited_at))]
    pub fn remove(&mut self, alloc: Global, vertex: u32) -> u32
        ensures { EditsOpen (EditsAt (RemovesKept vertex result)) result self.old.kept
            self.new.kept }
    {
        with_kept!(self, alloc, mut kept => kept.remove(vertex))
    }

    /// Joins two vertices by constraints.
    #[tactic(auto, using(crate::proofs::Edited::edited_at))]
    pub fn constrain(&mut self, alloc: Global, from: u32, to: u32) -> u32
        ensures { EditsOpen (EditsAt (AddsKept from to result)) result self.old.kept
            self.new.kept }
    {
        with_kept!(self, alloc, mut kept => kept.constrain(from, to))
    }

    /// Joins each vertex of a list to the next, and the last to the first where it is closed, and
    /// counts the segments that are joined.
    #[tactic(auto, using(crate::proofs::Edited::edited_at))]
    pub fn constrain_chain(
        &mut self,
        alloc: Global,
        vertices: &[u32],
        closed: bool,
        made: &mut usize,
    ) -> u32
        ensures { EditsOpen (EditsAt (AddsChainKept vertices.now closed result made.new)) result
            self.old.kept self.new.kept }
    {
        with_kept!(self, alloc, mut kept => kept.constrain_chain(vertices, closed, made))
    }

    /// Takes from the edge between two vertices that it is a constraint.
    #[tactic(auto, using(crate::proofs::Edited::edited_at))]
    pub fn release(&mut self, alloc: Global, from: u32, to: u32) -> u32
        ensures { EditsOpen (EditsAt (ReleasesKept from to result)) result self.old.kept
            self.new.kept }
    {
        with_kept!(self, alloc, mut kept => kept.release(from, to))
    }

    /// Gives numbers to vertices.
    #[tactic(auto, using(crate::proofs::Edited::edited_at))]
    pub fn set_numbers(&mut self, alloc: Global, vertices: &[u32], numbers: &[u64]) -> u32
        ensures { EditsOpen (EditsAt (NumbersKept vertices.now numbers.now result)) result
            self.old.kept self.new.kept }
    {
        with_kept!(self, alloc, mut kept => kept.set_numbers(vertices, numbers))
    }
}
