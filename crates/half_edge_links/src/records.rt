//! One directed edge, how it is kept, and writes to single links of a list of them.
ghost use Rattle.std.specs.Prelude.{◌≡◌, ◌<◌, length};
ghost use Rattle.half_edge_links.specs.EdgeList.{shown, stored_corner, stored_face, stored_joined};
ghost use Rattle.half_edge_links.specs.{EdgeList.stored_next, EdgeList.stored_prev, Meshes.rev};
ghost use Rattle.half_edge_links.specs.{Grow.slid_edges, Places.AreJoined, Places.AreSlidPlaces};

use crate::edge_list::EdgeList;

/// A directed edge: where it starts, the edges after and before it in its loop, and the face on its
/// left.
#[derive(Clone, Copy, PartialEq, Eq, Debug)]
pub struct HalfEdge {
    pub origin: u32,
    pub next: u32,
    pub prev: u32,
    pub face: u32,
}

// A directed edge as its list keeps it: where the edge before it starts, the edges after and before
// it in its loop, and the face on its left.
#[derive(Clone, Copy)]
pub(crate) struct StoredEdge {
    pub(crate) prev_origin: u32,
    pub(crate) next: u32,
    pub(crate) prev: u32,
    pub(crate) face: u32,
}

/// The other direction of directed edge `h`.
pub fn reversed(h: u32) -> u32
    ensures { result ≡ rev h }
{
    h ^ 1
}

// Lets the edge after `h` be `next`.
#[tactic(auto, unfolding(crate::specs::EdgeList::stored_next))]
pub(crate) fn set_next(half_edges: &mut EdgeList, h: u32, next: u32)
    requires { h < length half_edges.old.items }
    ensures items { half_edges.new.items ≡ stored_next half_edges.old.items h next }
    ensures len { length half_edges.new.items ≡ length half_edges.old.items }
    ensures capacity { half_edges.new.capacity ≡ half_edges.old.capacity }
{
    let edge = half_edges.stored(h);
    half_edges.set(h, edge.prev_origin, next, edge.prev, edge.face);
}

// Lets the edge before `h` be `prev`.
#[tactic(auto, unfolding(crate::specs::EdgeList::stored_prev))]
pub(crate) fn set_prev(half_edges: &mut EdgeList, h: u32, prev: u32)
    requires { h < length half_edges.old.items }
    ensures items { half_edges.new.items ≡ stored_prev half_edges.old.items h prev }
    ensures len { length half_edges.new.items ≡ length half_edges.old.items }
    ensures capacity { half_edges.new.capacity ≡ half_edges.old.capacity }
{
    let edge = half_edges.stored(h);
    half_edges.set(h, edge.prev_origin, edge.next, prev, edge.face);
}

// Lets face `face` lie on the left of `h`.
#[tactic(auto, unfolding(crate::specs::EdgeList::stored_face))]
pub(crate) fn set_face(half_edges: &mut EdgeList, h: u32, face: u32)
    requires { h < length half_edges.old.items }
    ensures items { half_edges.new.items ≡ stored_face half_edges.old.items h face }
    ensures len { length half_edges.new.items ≡ length half_edges.old.items }
    ensures capacity { half_edges.new.capacity ≡ half_edges.old.capacity }
{
    let edge = half_edges.stored(h);
    half_edges.set(h, edge.prev_origin, edge.next, edge.prev, face);
}

// Lets the edge before `h` start at vertex `prev_origin`.
#[tactic(auto, unfolding(crate::specs::EdgeList::stored_corner))]
pub(crate) fn set_corner(half_edges: &mut EdgeList, h: u32, prev_origin: u32)
    requires { h < length half_edges.old.items }
    ensures items { half_edges.new.items ≡ stored_corner half_edges.old.items h prev_origin }
    ensures len { length half_edges.new.items ≡ length half_edges.old.items }
    ensures capacity { half_edges.new.capacity ≡ half_edges.old.capacity }
{
    let edge = half_edges.stored(h);
    half_edges.set(h, prev_origin, edge.next, edge.prev, edge.face);
}

// Puts the edge `after` after `h`, which starts at vertex `start`.
pub(crate) fn join(half_edges: &mut EdgeList, h: u32, after: u32, start: u32)
    requires edge { h < length half_edges.old.items }
    requires after { after < length half_edges.old.items }
    ensures items { half_edges.new.items ≡ stored_joined half_edges.old.items h after start }
    ensures len { length half_edges.new.items ≡ length half_edges.old.items }
    ensures capacity { half_edges.new.capacity ≡ half_edges.old.capacity }
{
    set_next(half_edges, h, after);
    set_prev(half_edges, after, h);
    set_corner(half_edges, after, start);
}

// Lets edge `e`, with other side `t`, end at the far end of the edge `k` after it, whose other side
// is `l`; `z` is the edge before `t`.
#[tactic(auto, using(crate::proofs::Stored::Shown::joined_reads))]
pub(crate) fn slide_edges(half_edges: &mut EdgeList, e: u32, t: u32, k: u32, l: u32, z: u32)
    requires joined { AreJoined (shown half_edges.old.items) }
    requires places { AreSlidPlaces (shown half_edges.old.items) e t k l z }
    ensures items { shown half_edges.new.items ≡ slid_edges (shown half_edges.old.items) e t k l z }
    ensures capacity { half_edges.new.capacity ≡ half_edges.old.capacity }
{
    let twin = half_edges.stored(t);
    let back = half_edges.stored(l);
    let start = half_edges.stored(k).prev_origin;
    let far = half_edges.stored(back.next).prev_origin;
    join(half_edges, e, l, start);
    join(half_edges, z, k, twin.prev_origin);
    join(half_edges, k, t, back.prev_origin);
    set_corner(half_edges, twin.next, far);
}
