//! What calls ask of a triangulation of either type.
ghost use Rattle.std.specs.Prelude.{◌≡◌, List, ℕ};
ghost use Rattle.c_calls.specs.{Calls.AsksOpen, View.kept_view, View.View, View.view_of};

use crate::Handle;
use crate::handle::with_kept;
use crate::kept::AnyTriangulation;
use crate::raw::NumberedPoint;
use crate::statuses::CLOSED;
use delaunay_interface::Triangulation;
use std::alloc::Global;

/// A query that writes a list, and tells one thing more.
pub trait Query {
    /// What is written at a place of the list.
    type Item;

    /// What is told beside: of most how long the list is.
    type Told;

    // The status, what is told before and after, and the list before and after.
    ghost tells: { Self → View → ℕ → Self.Told → Self.Told → List Self.Item → List Self.Item
        → Type 0 };

    /// Asks it of a triangulation, and gives the status.
    fn ask<T: Triangulation<Vertex = NumberedPoint>>(
        &self,
        points: &T,
        alloc: Global,
        list: &mut [Self::Item],
        told: &mut Self::Told,
    ) -> u32
        ensures { tells self.now (view_of T.Constraints.constraints (T.state points.now)) result
            told.old told.new list.old list.new };
}

impl AnyTriangulation {
    /// Answers a query.
    pub fn ask<Q: Query>(
        &self,
        query: &Q,
        alloc: Global,
        list: &mut [Q::Item],
        told: &mut Q::Told,
    ) -> u32
        ensures { Q.tells query.now (kept_view self.now) result told.old told.new list.old
            list.new }
    {
        match self {
            AnyTriangulation::Plain(points) => query.ask(points, alloc, list, told),
            AnyTriangulation::Constrained(points) => query.ask(points, alloc, list, told),
        }
    }
}

impl Handle {
    /// Asks a query of what the handle has.
    pub fn ask<Q: Query>(
        &mut self,
        alloc: Global,
        query: &Q,
        list: &mut [Q::Item],
        told: &mut Q::Told,
    ) -> u32
        ensures kept { self.new.kept ≡ self.old.kept }
        ensures told { AsksOpen ((list.new ≡ list.old) × (told.new ≡ told.old)) (λ k. Q.tells
            query.now (kept_view k) result told.old told.new list.old list.new) result
            self.old.kept }
    {
        with_kept!(self, alloc, kept => kept.ask(query, alloc, list, told))
    }
}
