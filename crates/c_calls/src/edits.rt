//! Edits of a triangulation that C keeps.
ghost use Rattle.std.specs.Prelude.{◌≡◌, ◌↔◌, ◌<◌, [], length, IsTrue};
ghost use Rattle.c_calls.specs.Edits.{Addition, AddsKept, AllowsConstraints, IsSameKind, Release};
ghost use Rattle.c_calls.specs.Edits.{ReleasesKept, Removal, RemovesKept};
ghost use Rattle.c_calls.specs.Kept.{CountsKept, InsertsKept, IsKeptDelaunay, IsOfKind, kept_place};
ghost use Rattle.c_calls.specs.Kept.{kept_vertices};

use crate::RawCounts;
use crate::kept::{AnyTriangulation, ConstrainedPoints, PlainPoints};
use crate::lists::counts_of;
use crate::raw::NumberedPoint;
use crate::statuses::{
    IS_CONSTRAINED, IS_PLAIN, NO_SUCH_VERTEX, OUT_OF_MEMORY, WELL, status_of_edit,
};
use delaunay_core::math::InsertionError;
use delaunay_core::point::Point2;
use delaunay_interface::Triangulation;
use delaunay_journal::{Edit, Replayable, make_edit};
use exact_predicates::ExactTests;
use half_edge_links::FixedVertexHandle;
use std::alloc::Global;

/// A vertex as it is inserted, with the number 0.
pub fn unnumbered(position: Point2<i32>) -> NumberedPoint
    ensures { result ≡ record { position = position; number = 0 } }
{
    NumberedPoint {
        position,
        number: 0,
    }
}

/// Whether a vertex has an index.
pub fn is_vertex<T: Triangulation>(points: &T, index: u32) -> bool
    ensures { IsTrue result ↔ (index < length (T.state points.now).vertices) }
{
    (index as usize) < points.num_vertices()
}

// Removes a vertex.
fn remove<T: Replayable<Vertex = NumberedPoint>>(points: &mut T, vertex: u32) -> u32
    ensures { Removal kept_place T.Constraints.constraints vertex result
        (T.state points.old) (T.state points.new) }
{
    let vertex = FixedVertexHandle::from_index(vertex);
    status_of_edit(make_edit(points, Edit::Remove(vertex), &ExactTests))
}

/// Joins two vertices by constraints.
pub fn constrain(points: &mut ConstrainedPoints, from: u32, to: u32) -> u32
    ensures { Addition kept_place from to result points.old points.new }
{
    let from = FixedVertexHandle::from_index(from);
    let to = FixedVertexHandle::from_index(to);
    status_of_edit(make_edit(points, Edit::AddConstraint(from, to), &ExactTests))
}

// Takes from the edge between two vertices that it is a constraint.
fn release(points: &mut ConstrainedPoints, from: u32, to: u32) -> u32
    ensures { Release kept_place from to result points.old points.new }
{
    if !is_vertex(points, from) || !is_vertex(points, to) {
        return NO_SUCH_VERTEX;
    }
    let from = FixedVertexHandle::from_index(from);
    let to = FixedVertexHandle::from_index(to);
    status_of_edit(make_edit(points, Edit::ReleaseConstraint(from, to), &ExactTests))
}

impl AnyTriangulation {
    /// No vertex.
    pub fn new(alloc: Global, constrained: bool) -> Self
        ensures kind { IsOfKind constrained result }
        ensures empty { kept_vertices result ≡ [] }
        ensures headline { IsKeptDelaunay result }
    {
        if constrained {
            AnyTriangulation::Constrained(ConstrainedPoints::new(alloc))
        } else {
            AnyTriangulation::Plain(PlainPoints::new(alloc))
        }
    }

    /// Inserts a vertex with the number 0.
    #[tactic(auto, using(crate::proofs::Inserted::insertions))]
    pub fn insert(&mut self, position: Point2<i32>) -> Result<FixedVertexHandle, InsertionError>
        ensures inserts { InsertsKept (record { position = position; number = 0 }) result self.old
            self.new }
        ensures headline { IsKeptDelaunay self.new }
    {
        let value = NumberedPoint {
            position,
            number: 0,
        };
        match self {
            AnyTriangulation::Plain(points) => points.insert(value, &ExactTests),
            AnyTriangulation::Constrained(points) => points.insert(value, &ExactTests),
        }
    }

    /// Removes a vertex.
    #[tactic(auto, using(crate::proofs::Edited::removals_kept))]
    pub fn remove(&mut self, vertex: u32) -> u32
        ensures { RemovesKept vertex result self.old self.new }
    {
        match self {
            AnyTriangulation::Plain(points) => remove(points, vertex),
            AnyTriangulation::Constrained(points) => remove(points, vertex),
        }
    }

    /// Joins two vertices by constraints.
    #[tactic(auto, using(crate::proofs::Edited::additions_kept))]
    pub fn constrain(&mut self, from: u32, to: u32) -> u32
        ensures { AddsKept from to result self.old self.new }
    {
        match self {
            AnyTriangulation::Plain(_) => IS_PLAIN,
            AnyTriangulation::Constrained(points) => constrain(points, from, to),
        }
    }

    /// Takes from the edge between two vertices that it is a constraint.
    #[tactic(auto, using(crate::proofs::Edited::releases_kept))]
    pub fn release(&mut self, from: u32, to: u32) -> u32
        ensures { ReleasesKept from to result self.old self.new }
    {
        match self {
            AnyTriangulation::Plain(_) => IS_PLAIN,
            AnyTriangulation::Constrained(points) => release(points, from, to),
        }
    }

    /// A constrained triangulation of a plain one; else, or where memory is refused, the same.
    #[tactic(auto, using(crate::proofs::Edited::allowances))]
    pub fn allow_constraints(self) -> (Self, u32)
        ensures { AllowsConstraints result.1 self result.0 }
    {
        match self {
            AnyTriangulation::Plain(points) => match ConstrainedPoints::from_delaunay(points) {
                Ok(points) => (AnyTriangulation::Constrained(points), WELL),
                Err(points) => (AnyTriangulation::Plain(points), OUT_OF_MEMORY),
            },
            AnyTriangulation::Constrained(points) => (
                AnyTriangulation::Constrained(points),
                IS_CONSTRAINED,
            ),
        }
    }

    /// Gives a proof what holds of each triangulation between edits. It does nothing when it runs.
    pub fn recall_headline(&self)
        ensures { IsKeptDelaunay self.now }
    {
        match self {
            AnyTriangulation::Plain(points) => points.recall_invariant(),
            AnyTriangulation::Constrained(points) => points.recall_invariant(),
        }
    }

    /// How many elements there are.
    pub fn counts(&self) -> RawCounts
        ensures { CountsKept self.now result }
    {
        match self {
            AnyTriangulation::Plain(points) => counts_of(points, 0),
            AnyTriangulation::Constrained(points) => counts_of(points, points.num_constraints()),
        }
    }

    /// Forgets all.
    #[tactic(auto, using(crate::proofs::Edited::clearances))]
    pub fn clear(&mut self)
        ensures empty { kept_vertices self.new ≡ [] }
        ensures kind { IsSameKind self.old self.new }
        ensures headline { IsKeptDelaunay self.new }
    {
        match self {
            AnyTriangulation::Plain(points) => points.clear(),
            AnyTriangulation::Constrained(points) => points.clear(),
        }
    }
}
