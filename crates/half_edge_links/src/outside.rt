//! Changes of the outer loop.
ghost use Rattle.std.specs.Prelude.{◌≡◌, ◌+◌, ◌-◌, length, Some, [], ◌∷◌};
ghost use Rattle.half_edge_links.specs.Grow.{closed, half_split, hung, IsClosable};
ghost use Rattle.half_edge_links.specs.Grow.{IsHalfSplittable, OnOuter, with_face_beside};
ghost use Rattle.half_edge_links.specs.Grown.{AddsFaceBeside, ClosesCorner, HangsEdge};
ghost use Rattle.half_edge_links.specs.Grown.{HasEdgeAndFaceRoom, SplitsHalfEdge};
ghost use Rattle.half_edge_links.specs.Meshes.{AreSoundLinks, IsAlone, IsValidMesh};
ghost use Rattle.{half_edge_links.specs.Rest.KeepsRest, half_edge_links.specs.Room.HasEdgeRoom};

use crate::records::{set_corner, set_face, set_next, set_prev};
use crate::vertex_list::set_out_edge;
use crate::{Links, reversed};

impl<V> Links<V> {
    /// Puts an edge from the end of outer edge `x` to vertex `v` into the outer loop, after `x`.
    #[tactic(auto, using(crate::proofs::Views::inside_reads))]
    pub fn hang(&mut self, x: u32, v: u32)
        requires outer { OnOuter self.old.mesh x }
        requires alone { IsAlone self.old.mesh v }
        requires edge_room { HasEdgeRoom self.old.mesh self.old.room 2 }
        ensures mesh { self.new.mesh ≡ hung self.old.mesh x v }
        ensures rest { KeepsRest self.old self.new }
        ensures sound { AreSoundLinks self.old.mesh }
        ensures hangs { HangsEdge self.old.mesh self.new.mesh x v }
        ensures valid { IsValidMesh self.new.mesh }
    {
        let n = self.half_edge_count() as u32;
        let edge = self.half_edge(x);
        let end = self.half_edge(edge.next).origin;
        set_next(&mut self.half_edges, x, n);
        set_prev(&mut self.half_edges, edge.next, n + 1);
        set_corner(&mut self.half_edges, edge.next, v);
        self.half_edges.push(edge.origin, n + 1, x, edge.face);
        self.half_edges.push(end, edge.next, n, edge.face);
        set_out_edge(&mut self.vertices, v, Some(n + 1));
    }

    /// Makes a face of outer edge `e`, the next one and a new edge.
    #[tactic(auto, using(crate::proofs::Views::inside_reads))]
    pub fn close(&mut self, e: u32)
        requires closable { IsClosable self.old.mesh e }
        requires room { HasEdgeAndFaceRoom self.old.mesh self.old.room 2 1 }
        ensures mesh { self.new.mesh ≡ closed self.old.mesh e }
        ensures rest { KeepsRest self.old self.new }
        ensures sound { AreSoundLinks self.old.mesh }
        ensures closes { ClosesCorner self.old.mesh self.new.mesh e }
        ensures valid { IsValidMesh self.new.mesh }
    {
        let n = self.half_edge_count() as u32;
        let g = self.inner_face_count() as u32 + 1;
        let edge = self.half_edge(e);
        let second = self.half_edge(edge.next);
        let end = self.half_edge(second.next).origin;
        let before = self.prev_origin(e);
        set_next(&mut self.half_edges, edge.prev, n + 1);
        set_next(&mut self.half_edges, edge.next, n);
        set_prev(&mut self.half_edges, second.next, n + 1);
        set_prev(&mut self.half_edges, e, n);
        set_face(&mut self.half_edges, e, g);
        set_face(&mut self.half_edges, edge.next, g);
        set_corner(&mut self.half_edges, second.next, edge.origin);
        set_corner(&mut self.half_edges, e, end);
        self.half_edges.push(second.origin, e, edge.next, g);
        self.half_edges.push(before, second.next, edge.prev, 0);
        self.outer_edge = Some(n + 1);
        self.face_edges.push_reserved(e);
    }

    /// Makes a face of outer edge `e` and vertex `v`, with two new outer edges.
    pub fn add_face_beside(&mut self, e: u32, v: u32)
        requires outer { OnOuter self.old.mesh e }
        requires alone { IsAlone self.old.mesh v }
        requires room { HasEdgeAndFaceRoom self.old.mesh self.old.room 4 1 }
        ensures mesh { self.new.mesh ≡ with_face_beside self.old.mesh e v }
        ensures rest { KeepsRest self.old self.new }
        ensures sound { AreSoundLinks self.old.mesh }
        ensures adds { AddsFaceBeside self.old.mesh self.new.mesh e v }
        ensures valid { IsValidMesh self.new.mesh }
    {
        self.hang(e, v);
        self.close(e);
    }

    /// Splits edge `e`, with an inner face on its left and the outer one on its right, at vertex
    /// `v`. Gives both parts, directed as `e`.
    pub fn split_half_edge(&mut self, e: u32, v: u32) -> [u32; 2]
        requires half { IsHalfSplittable self.old.mesh e }
        requires alone { IsAlone self.old.mesh v }
        requires room { HasEdgeAndFaceRoom self.old.mesh self.old.room 4 1 }
        ensures parts { let n = length self.old.mesh.half_edges in result ≡ n ∷ (n + 2) ∷ [] }
        ensures mesh { self.new.mesh ≡ half_split self.old.mesh e v }
        ensures rest { KeepsRest self.old self.new }
        ensures sound { AreSoundLinks self.old.mesh }
        ensures splits { SplitsHalfEdge self.old.mesh self.new.mesh e v }
    {
        let n = self.half_edge_count() as u32;
        self.add_face_beside(reversed(e), v);
        self.flip(e);
        [n, n + 2]
    }
}
