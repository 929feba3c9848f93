//! Writes to the lists of a mesh that take an edge, a face or a vertex out of it.
ghost use Rattle.std.specs.Prelude.{◌≡◌, ℕ, ◌+◌, ◌-◌, ◌<◌, ◌≤◌};
ghost use Rattle.std.specs.Prelude.{length, Option, Some, None, vec_capacity};
ghost use Rattle.half_edge_links.specs.{EdgeList.shown, Renames.pair_moved, Renames.renamed};
ghost use Rattle.half_edge_links.specs.{declared.room.TheConstants.MAX_ELEMENTS, Grow.with_origin};
ghost use Rattle.half_edge_links.specs.Move.{CanWalk, MovesNamed, MovesOrigins};
ghost use Rattle.half_edge_links.specs.Places.{AreJoined, AreUnlinkedPlaces, IsHole};
ghost use Rattle.half_edge_links.specs.Remove.{IsLinkedWithin, out_after, outer_after};
ghost use Rattle.half_edge_links.specs.Remove.{outer_beside, with_face_renamed, with_filled};
ghost use Rattle.half_edge_links.specs.Remove.{with_loop_face, with_out_renamed, with_unlinked};
ghost use Rattle.half_edge_links.specs.VertexList.{out_edges_of, values_of};

use crate::edge_list::EdgeList;
use crate::records::{join, set_corner, set_face, set_next, set_prev};
use crate::reversed;
use crate::vertex_list::Vertex;

// The three directed edges round the triangle of `h` get this face.
#[tactic(auto, using(crate::proofs::Stored::Shown::joined_reads))]
pub(crate) fn set_loop_face(half_edges: &mut EdgeList, h: u32, face: u32)
    requires { IsLinkedWithin (shown half_edges.old.items) h }
    ensures items { shown half_edges.new.items ≡
        with_loop_face (shown half_edges.old.items) h face }
    ensures len { length half_edges.new.items ≡ length half_edges.old.items }
    ensures capacity { half_edges.new.capacity ≡ half_edges.old.capacity }
{
    let edge = half_edges.stored(h);
    set_face(half_edges, h, face);
    set_face(half_edges, edge.next, face);
    set_face(half_edges, edge.prev, face);
}

// Takes edge `e`, with other side `t`, out of its loops. Each side is left as a loop of its own.
#[tactic(auto, using(crate::proofs::Stored::Shown::joined_reads))]
pub(crate) fn unlink(half_edges: &mut EdgeList, e: u32, t: u32)
    requires joined { AreJoined (shown half_edges.old.items) }
    requires places { AreUnlinkedPlaces (shown half_edges.old.items) e t }
    ensures items { shown half_edges.new.items ≡ with_unlinked (shown half_edges.old.items) e t }
    ensures len { length half_edges.new.items ≡ length half_edges.old.items }
    ensures capacity { half_edges.new.capacity ≡ half_edges.old.capacity }
{
    let edge = half_edges.stored(e);
    let twin = half_edges.stored(t);
    let start = half_edges.stored(edge.next).prev_origin;
    let end = half_edges.stored(twin.next).prev_origin;
    join(half_edges, edge.prev, twin.next, edge.prev_origin);
    join(half_edges, twin.prev, edge.next, twin.prev_origin);
    join(half_edges, e, e, start);
    join(half_edges, t, t, end);
}

// The last two directed edges, from `last` on, take the place of `hole` and the one after it.
#[tactic(auto, using(crate::proofs::Stored::Shown::joined_reads))]
pub(crate) fn fill(half_edges: &mut EdgeList, last: u32, hole: u32)
    requires joined { AreJoined (shown half_edges.old.items) }
    requires last { length half_edges.old.items ≡ last + 2 }
    requires small { length half_edges.old.items ≤ MAX_ELEMENTS }
    requires hole { IsHole (shown half_edges.old.items) hole }
    ensures items { shown half_edges.new.items ≡
        with_filled (shown half_edges.old.items) last hole }
    ensures capacity { half_edges.new.capacity ≡ half_edges.old.capacity }
{
    let even = half_edges.stored(last);
    let odd = half_edges.stored(last + 1);
    set_next(half_edges, even.prev, hole);
    set_prev(half_edges, even.next, hole);
    set_next(half_edges, odd.prev, hole + 1);
    set_prev(half_edges, odd.next, hole + 1);
    half_edges.swap_remove(hole + 1);
    half_edges.swap_remove(hole);
}

// The index of directed edge `h` once `from` and `from + 1` have moved to `to` and `to + 1`.
pub(crate) fn pair_moved(from: u32, to: u32, h: u32) -> u32
    requires from_in { from + 1 < 4294967296 }
    requires to_in { to + 1 < 4294967296 }
    ensures { result ≡ pair_moved from to h }
{
    if h == from {
        to
    } else if h == from + 1 {
        to + 1
    } else {
        h
    }
}

pub(crate) fn renamed(from: u32, to: u32, edge: Option<u32>) -> Option<u32>
    requires from_in { from + 1 < 4294967296 }
    requires to_in { to + 1 < 4294967296 }
    ensures { result ≡ renamed (pair_moved from to) edge }
{
    match edge {
        Some(h) => Some(pair_moved(from, to, h)),
        None => None,
    }
}

// Renames the edge that vertex `v` names.
#[tactic(auto, using(crate::proofs::Lists::VertexLists::vertex_counts))]
pub(crate) fn rename_out<V>(vertices: &mut Vec<Vertex<V>>, v: u32, from: u32, to: u32)
    requires vertex { v < length (out_edges_of vertices.old.items) }
    requires from_in { from + 1 < MAX_ELEMENTS }
    requires to_in { to + 1 < MAX_ELEMENTS }
    ensures out_edges { out_edges_of vertices.new.items ≡
        with_out_renamed (out_edges_of vertices.old.items) v from to }
    ensures values { values_of vertices.new.items ≡ values_of vertices.old.items }
    ensures len { length (out_edges_of vertices.new.items) ≡
        length (out_edges_of vertices.old.items) }
    ensures capacity { vec_capacity vertices.new ≡ vec_capacity vertices.old }
{
    let vertex = &mut vertices[v as usize];
    vertex.out_edge = pair_moved(from, to, vertex.out_edge);
}

// Renames the edge that face `f` names, where it is not the outer face.
#[tactic(auto, unfolding(crate::specs::Remove::with_face_renamed))]
pub(crate) fn rename_face(face_edges: &mut Vec<u32>, f: u32, from: u32, to: u32)
    requires face { f ≤ length face_edges.old.items }
    requires from_in { from + 1 < 4294967296 }
    requires to_in { to + 1 < 4294967296 }
    ensures items { face_edges.new.items ≡ with_face_renamed face_edges.old.items f from to }
    ensures len { length face_edges.new.items ≡ length face_edges.old.items }
    ensures capacity { vec_capacity face_edges.new ≡ vec_capacity face_edges.old }
{
    if f != 0 {
        let named = face_edges[f as usize - 1];
        face_edges[f as usize - 1] = pair_moved(from, to, named);
    }
}

// The edge that a vertex names once its edge `gone` was taken out, which `other` follows.
pub(crate) fn out_after(gone: u32, other: u32) -> Option<u32>
    ensures { result ≡ out_after gone other }
{
    if other == gone { None } else { Some(other) }
}

// An edge of the outer face beside one that was taken out, if there is one.
pub(crate) fn outer_beside(t: u32, next: u32, prev: u32) -> Option<u32>
    ensures { result ≡ outer_beside t next prev }
{
    if next != t {
        Some(next)
    } else if prev != t {
        Some(prev)
    } else {
        None
    }
}

// The outer edge once edge `e`, with other side `t`, was taken out.
pub(crate) fn outer_after(outer: Option<u32>, e: u32, t: u32, next: u32, prev: u32) -> Option<u32>
    ensures { result ≡ outer_after outer e t next prev }
{
    match outer {
        Some(h) => {
            if h == e || h == t {
                outer_beside(t, next, prev)
            } else {
                Some(h)
            }
        }
        None => None,
    }
}

// Lets directed edge `h` start at vertex `v`.
#[tactic(auto, using(crate::proofs::Stored::Shown::joined_reads))]
fn set_origin(half_edges: &mut EdgeList, h: u32, v: u32)
    requires joined { AreJoined (shown half_edges.old.items) }
    requires within { h < length half_edges.old.items }
    ensures items { shown half_edges.new.items ≡ with_origin (shown half_edges.old.items) h v }
    ensures len { length half_edges.new.items ≡ length half_edges.old.items }
    ensures capacity { half_edges.new.capacity ≡ half_edges.old.capacity }
{
    let next = half_edges.stored(h).next;
    set_corner(half_edges, next, v);
}

// The edges round the origin of `first` start at vertex `v` from now on.
#[tactic(auto, using(crate::proofs::Stored::Shown::joined_reads))]
pub(crate) fn move_origins(half_edges: &mut EdgeList, first: u32, v: u32)
    requires joined { AreJoined (shown half_edges.old.items) }
    requires walk { CanWalk (shown half_edges.old.items) }
    requires first { first < length half_edges.old.items }
    ensures moves { MovesOrigins (shown half_edges.old.items) (shown half_edges.new.items) first v }
    ensures capacity { half_edges.new.capacity ≡ half_edges.old.capacity }
{
    let mut h = first;
    for _i in 0..half_edges.len() {
        set_origin(half_edges, h, v);
        h = reversed(half_edges.stored(h).prev);
        if h == first {
            return;
        }
    }
}

// The same, where there is a first edge.
#[tactic(auto, using(crate::proofs::Stored::Shown::joined_reads))]
pub(crate) fn move_named(half_edges: &mut EdgeList, named: Option<u32>, v: u32)
    requires joined { AreJoined (shown half_edges.old.items) }
    requires walk { CanWalk (shown half_edges.old.items) }
    requires first { (first : ℕ) → named ≡ Some first → first < length half_edges.old.items }
    ensures moves { MovesNamed (shown half_edges.old.items) (shown half_edges.new.items) named v }
    ensures capacity { half_edges.new.capacity ≡ half_edges.old.capacity }
{
    if let Some(first) = named {
        move_origins(half_edges, first, v);
    }
}
