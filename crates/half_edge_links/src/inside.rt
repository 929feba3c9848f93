//! Changes inside the outer loop: an edge is turned, a vertex is put into a face or on an edge.
ghost use Rattle.std.specs.Prelude.{◌≡◌, ◌≢◌, ◌+◌, ◌-◌, ◌<◌, ◌≤◌, length, Some};
ghost use Rattle.half_edge_links.specs.{EdgeList.shown, Places.AreJoined, Places.IsLoopOfThree};
ghost use Rattle.half_edge_links.specs.Flip.{flipped, IsBetweenFaces};
ghost use Rattle.half_edge_links.specs.Insert.{fan_by, inserted};
ghost use Rattle.half_edge_links.specs.Inside.{FlipsEdge, InsertsBeside, SplitsInnerEdge};
ghost use Rattle.half_edge_links.specs.Meshes.{AreSoundLinks, edge_at, IsAlone, IsInnerEdge};
ghost use Rattle.half_edge_links.specs.Meshes.{IsValidMesh, origin, prev, rev};
ghost use Rattle.half_edge_links.specs.{Rest.KeepsRest, Room.HasEdgeRoom, Room.HasFaceRoom};

use crate::edge_list::EdgeList;
use crate::vertex_list::set_out_edge;
use crate::{Links, MAX_ELEMENTS, reversed};

// Puts vertex `v` into the loop of `edge`, with three edges to it and back. The part of `edge`
// keeps its face, and the two others become faces `g + 1` and `g + 2`.
#[tactic(auto, using(crate::proofs::Stored::Shown::shown_reads))]
fn fan_edges(half_edges: &mut EdgeList, v: u32, edge: u32, g: u32)
    requires joined { AreJoined (shown half_edges.old.items) }
    requires triangle { IsLoopOfThree (shown half_edges.old.items) edge }
    requires room { length half_edges.old.items + 6 ≤ half_edges.old.capacity }
    requires small { length half_edges.old.items + 6 ≤ MAX_ELEMENTS }
    requires few { g + 2 ≤ MAX_ELEMENTS }
    ensures items { let hs = shown half_edges.old.items in let first = edge_at hs edge in
        shown half_edges.new.items ≡ fan_by hs v first.face (length hs) g edge first
        (edge_at hs first.next) (edge_at hs first.prev) }
    ensures capacity { half_edges.new.capacity ≡ half_edges.old.capacity }
{
    let n = half_edges.len() as u32;
    let first = half_edges.stored(edge);
    let start = half_edges.stored(first.next).prev_origin;
    let end = half_edges.stored(first.prev).prev_origin;
    let corner = first.prev_origin;
    half_edges.set(edge, v, n + 2, n + 1, first.face);
    half_edges.set(first.next, v, n + 4, n + 3, g + 1);
    half_edges.set(first.prev, v, n, n + 5, g + 2);
    half_edges.push(corner, n + 5, first.prev, g + 2);
    half_edges.push(end, edge, n + 2, first.face);
    half_edges.push(start, n + 1, edge, first.face);
    half_edges.push(corner, first.next, n + 4, g + 1);
    half_edges.push(end, n + 3, first.next, g + 1);
    half_edges.push(start, first.prev, n, g + 2);
}

impl<V> Links<V> {
    /// Turns edge `e` between two inner faces so that it joins the two opposite corners.
    #[tactic(auto, using(crate::proofs::Views::inside_reads))]
    pub fn flip(&mut self, e: u32)
        requires between { IsBetweenFaces self.old.mesh e }
        requires corners { origin self.old.mesh (prev self.old.mesh e) ≢
            origin self.old.mesh (prev self.old.mesh (rev e)) }
        ensures mesh { self.new.mesh ≡ flipped self.old.mesh e }
        ensures rest { KeepsRest self.old self.new }
        ensures sound { AreSoundLinks self.old.mesh }
        ensures flips { FlipsEdge self.old.mesh self.new.mesh e }
        ensures valid { IsValidMesh self.new.mesh }
    {
        let t = reversed(e);
        let edge = self.half_edge(e);
        let twin = self.half_edge(t);
        let left = self.prev_origin(e);
        let right = self.prev_origin(t);
        self.half_edges
            .set(e, twin.origin, twin.prev, edge.next, edge.face);
        self.half_edges
            .set(t, edge.origin, edge.prev, twin.next, twin.face);
        self.half_edges
            .set(edge.next, right, e, twin.prev, edge.face);
        self.half_edges
            .set(twin.next, left, t, edge.prev, twin.face);
        self.half_edges
            .set(edge.prev, right, twin.next, t, twin.face);
        self.half_edges
            .set(twin.prev, left, edge.next, e, edge.face);
        set_out_edge(&mut self.vertices, edge.origin, Some(twin.next));
        set_out_edge(&mut self.vertices, twin.origin, Some(edge.next));
        self.face_edges[edge.face as usize - 1] = e;
        self.face_edges[twin.face as usize - 1] = t;
    }

    /// Makes three faces of the one on the left of `edge`, each of one of its edges and vertex `v`.
    #[tactic(auto, using(crate::proofs::Views::inside_reads))]
    pub fn insert_beside(&mut self, v: u32, edge: u32)
        requires inner { IsInnerEdge self.old.mesh edge }
        requires alone { IsAlone self.old.mesh v }
        requires edge_room { HasEdgeRoom self.old.mesh self.old.room 6 }
        requires face_room { HasFaceRoom self.old.mesh self.old.room 2 }
        ensures mesh { self.new.mesh ≡ inserted self.old.mesh v edge }
        ensures rest { KeepsRest self.old self.new }
        ensures valid { IsValidMesh self.old.mesh }
        ensures inserts { InsertsBeside self.old.mesh self.new.mesh v edge }
    {
        let n = self.half_edge_count() as u32;
        let g = self.inner_face_count() as u32;
        let first = self.half_edge(edge);
        fan_edges(&mut self.half_edges, v, edge, g);
        self.face_edges[first.face as usize - 1] = edge;
        self.face_edges.push_reserved(first.next);
        self.face_edges.push_reserved(first.prev);
        set_out_edge(&mut self.vertices, v, Some(n + 1));
    }

    /// Splits `edge`, between two inner faces, at vertex `v`: the first half of it is the next new
    /// edge, and `edge` itself becomes the one from `v` to the corner on its right.
    pub fn split_edge(&mut self, v: u32, edge: u32)
        requires between { IsBetweenFaces self.old.mesh edge }
        requires alone { IsAlone self.old.mesh v }
        requires edge_room { HasEdgeRoom self.old.mesh self.old.room 6 }
        requires face_room { HasFaceRoom self.old.mesh self.old.room 2 }
        ensures mesh { self.new.mesh ≡ flipped (inserted self.old.mesh v edge) edge }
        ensures rest { KeepsRest self.old self.new }
        ensures sound { AreSoundLinks self.old.mesh }
        ensures splits { SplitsInnerEdge self.old.mesh self.new.mesh v edge }
    {
        self.insert_beside(v, edge);
        self.flip(edge);
    }
}
