//! Walks from edge to edge, taken from both ends.
#![tactic(auto)]

ghost use Rattle.std.specs.Prelude.{◌≡◌, ◌<◌, ⊤, length, IfNone, IfSome};

use crate::Dcel;
use std::alloc::AllocError;

// A walk from edge to edge that ends before it is at the edge `end`, which falls back where edges
// are taken from behind.
#[derive(Drop)]
#[derive_where(Debug)]
pub(crate) struct EdgeWalk<'a, V, DE, UE, F> {
    #[derive_where(skip)]
    pub(crate) dcel: &'a Dcel<V, DE, UE, F>,
    pub(crate) next: u32,
    pub(crate) end: u32,
    // No more edges come than these.
    pub(crate) left: u32,
    ghost next_in_range: { 0 < left → next < length dcel.now.directed },
    ghost end_in_range: { 0 < left → end < length dcel.now.directed },
}

impl<'a, V, DE, UE, F> Clone for EdgeWalk<'a, V, DE, UE, F> {
    ghost use Rattle.half_edge_dcel.specs.Walks.{IsSameWalk};

    ghost is_clone = { IsSameWalk };

    ghost is_infallible = { λ _. ⊤ };

    fn clone(&self) -> Result<Self, AllocError> {
        Ok(EdgeWalk {
            dcel: self.dcel,
            next: self.next,
            end: self.end,
            left: self.left,
        })
    }
}

impl<'a, V, DE, UE, F> EdgeWalk<'a, V, DE, UE, F> {
    // A walk that begins at an edge, and ends before it is there again; over no edge where there is
    // none.
    pub(crate) fn from(dcel: &'a Dcel<V, DE, UE, F>, first: Option<u32>) -> Self
        requires { IfSome first (λ h. h < length dcel.now.directed) }
        ensures dcel { result.dcel ≡ dcel.entry }
        ensures none { IfNone first (result.left ≡ 0) }
        ensures some { IfSome first (λ h. (result.next ≡ h) × (result.end ≡ h) ×
            (result.left ≡ length dcel.now.directed)) }
    {
        match first {
            Some(edge) => EdgeWalk {
                dcel,
                next: edge,
                end: edge,
                left: dcel.num_directed_edges() as u32,
            },
            None => EdgeWalk {
                dcel,
                next: 0,
                end: 0,
                left: 0,
            },
        }
    }
}
