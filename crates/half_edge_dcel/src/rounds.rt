//! Iterators round a vertex and along the hull.
#![tactic(auto)]

ghost use Rattle.std.specs.Prelude.{⊤};
ghost use Rattle.std.specs.Iterator.{YieldsFirstBy, YieldsLastBy, item_count};
ghost use Rattle.half_edge_links.specs.{next, turn};
ghost use Rattle.half_edge_dcel.specs.Walks.{IsEnding, IsSameWalk};

use crate::edge_walk::EdgeWalk;
use crate::{DirectedEdgeHandle, MeshViews};
use half_edge_links::FixedDirectedEdgeHandle;
use std::alloc::AllocError;
use std::iter::FusedIterator;

/// The edges that start at a vertex, counterclockwise, and from behind clockwise.
#[derive(Drop)]
#[derive_where(Debug)]
pub struct CircularIterator<'a, V, DE, UE, F> {
    pub(crate) walk: EdgeWalk<'a, V, DE, UE, F>,
    ghost ending: { IsEnding turn walk },
}

impl<'a, V, DE, UE, F> Clone for CircularIterator<'a, V, DE, UE, F> {
    ghost is_clone = { λ it copy. IsSameWalk it.walk copy.walk };

    ghost is_infallible = { λ _. ⊤ };

    fn clone(&self) -> Result<Self, AllocError> {
        Ok(CircularIterator {
            walk: self.walk.clone()?,
        })
    }
}

impl<'a, V, DE, UE, F> Iterator for CircularIterator<'a, V, DE, UE, F> {
    ghost use Rattle.half_edge_dcel.specs.Rounds.{out_edges_left};

    type Item = DirectedEdgeHandle<'a, V, DE, UE, F>;

    ghost next_gives = { YieldsFirstBy (λ e. (e.dcel, e.index)) out_edges_left };

    ghost remaining = { item_count out_edges_left };

    fn next(&mut self) -> Option<DirectedEdgeHandle<'a, V, DE, UE, F>> {
        let walk = &mut self.walk;
        let left = walk.left.checked_sub(1)?;
        let next = FixedDirectedEdgeHandle::from_index(walk.next);
        let edge = walk.dcel.directed_edge(next);
        walk.next = edge.prev().rev().index;
        walk.left = if walk.next == walk.end { 0 } else { left };
        Some(edge)
    }
}

impl<'a, V, DE, UE, F> DoubleEndedIterator for CircularIterator<'a, V, DE, UE, F> {
    ghost use Rattle.half_edge_dcel.specs.Rounds.{out_edges_left};

    ghost next_back_gives = { YieldsLastBy (λ e. (e.dcel, e.index)) out_edges_left };

    fn next_back(&mut self) -> Option<DirectedEdgeHandle<'a, V, DE, UE, F>> {
        let walk = &mut self.walk;
        let left = walk.left.checked_sub(1)?;
        let end = FixedDirectedEdgeHandle::from_index(walk.end);
        let edge = walk.dcel.directed_edge(end).cw();
        walk.end = edge.index;
        walk.left = if walk.next == walk.end { 0 } else { left };
        Some(edge)
    }
}

impl<'a, V, DE, UE, F> FusedIterator for CircularIterator<'a, V, DE, UE, F> {}

/// The edges with the outer face on their left, clockwise round the hull, and from behind
/// counterclockwise.
#[derive(Drop)]
#[derive_where(Debug)]
pub struct HullIterator<'a, V, DE, UE, F> {
    pub(crate) walk: EdgeWalk<'a, V, DE, UE, F>,
    ghost ending: { IsEnding next walk },
}

impl<'a, V, DE, UE, F> Clone for HullIterator<'a, V, DE, UE, F> {
    ghost is_clone = { λ it copy. IsSameWalk it.walk copy.walk };

    ghost is_infallible = { λ _. ⊤ };

    fn clone(&self) -> Result<Self, AllocError> {
        Ok(HullIterator {
            walk: self.walk.clone()?,
        })
    }
}

impl<'a, V, DE, UE, F> Iterator for HullIterator<'a, V, DE, UE, F> {
    ghost use Rattle.half_edge_dcel.specs.Rounds.{hull_left};

    type Item = DirectedEdgeHandle<'a, V, DE, UE, F>;

    ghost next_gives = { YieldsFirstBy (λ e. (e.dcel, e.index)) hull_left };

    ghost remaining = { item_count hull_left };

    fn next(&mut self) -> Option<DirectedEdgeHandle<'a, V, DE, UE, F>> {
        let walk = &mut self.walk;
        let left = walk.left.checked_sub(1)?;
        let next = FixedDirectedEdgeHandle::from_index(walk.next);
        let edge = walk.dcel.directed_edge(next);
        walk.next = edge.next().index;
        walk.left = if walk.next == walk.end { 0 } else { left };
        Some(edge)
    }
}

impl<'a, V, DE, UE, F> DoubleEndedIterator for HullIterator<'a, V, DE, UE, F> {
    ghost use Rattle.half_edge_dcel.specs.Rounds.{hull_left};

    ghost next_back_gives = { YieldsLastBy (λ e. (e.dcel, e.index)) hull_left };

    fn next_back(&mut self) -> Option<DirectedEdgeHandle<'a, V, DE, UE, F>> {
        let walk = &mut self.walk;
        let left = walk.left.checked_sub(1)?;
        let end = FixedDirectedEdgeHandle::from_index(walk.end);
        let edge = walk.dcel.directed_edge(end).prev();
        walk.end = edge.index;
        walk.left = if walk.next == walk.end { 0 } else { left };
        Some(edge)
    }
}

impl<'a, V, DE, UE, F> FusedIterator for HullIterator<'a, V, DE, UE, F> {}
