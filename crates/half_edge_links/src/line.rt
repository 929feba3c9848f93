//! The first edge, and a mesh of one line.
ghost use Rattle.std.specs.Prelude.{◌≡◌, ◌+◌, ◌-◌, length, Some, [], ◌∷◌};
ghost use Rattle.half_edge_links.specs.Grow.{edge_into, hung, IsLineEdge, IsOnLine, IsSlidable};
ghost use Rattle.half_edge_links.specs.{Grow.line_split, Grow.slid, Grow.Slides, Outline.MovesEdge};
ghost use Rattle.half_edge_links.specs.Grown.{AreConnectable, ExtendsLine, SplitsLineEdge};
ghost use Rattle.half_edge_links.specs.{Hull.HasOneOutline, Hull.KeepsOneOutline, Room.HasEdgeRoom};
ghost use Rattle.half_edge_links.specs.Meshes.{AreSoundLinks, connected, IsAlone, IsValidMesh};
ghost use Rattle.half_edge_links.specs.{Meshes.next, Meshes.origin, Rest.KeepsRest};

use crate::records::slide_edges;
use crate::vertex_list::set_out_edge;
use crate::{Links, reversed};

impl<V> Links<V> {
    /// Makes the first edge, from `a` to `b`.
    #[tactic(auto, using(crate::proofs::Views::inside_reads))]
    pub fn connect(&mut self, a: u32, b: u32)
        requires vertices { AreConnectable self.old.mesh a b }
        requires room { HasEdgeRoom self.old.mesh self.old.room 2 }
        ensures mesh { self.new.mesh ≡ connected self.old.mesh a b }
        ensures rest { KeepsRest self.old self.new }
        ensures sound { AreSoundLinks self.old.mesh }
        ensures outline { HasOneOutline self.new.mesh }
        ensures valid { IsValidMesh self.new.mesh }
    {
        self.recall_invariant();
        self.half_edges.push(b, 1, 1, 0);
        self.half_edges.push(a, 0, 0, 0);
        set_out_edge(&mut self.vertices, a, Some(0));
        set_out_edge(&mut self.vertices, b, Some(1));
        self.outer_edge = Some(0);
    }

    /// Puts an edge from vertex `u` of a line to vertex `v`.
    pub fn extend_line(&mut self, u: u32, v: u32)
        requires line { IsOnLine self.old.mesh u }
        requires alone { IsAlone self.old.mesh v }
        requires edge_room { HasEdgeRoom self.old.mesh self.old.room 2 }
        ensures mesh { self.new.mesh ≡ hung self.old.mesh (edge_into self.old.mesh u) v }
        ensures rest { KeepsRest self.old self.new }
        ensures sound { AreSoundLinks self.old.mesh }
        ensures extends { ExtendsLine self.old.mesh self.new.mesh u v }
        ensures valid { IsValidMesh self.new.mesh }
    {
        if let Some(edge) = self.out_edge(u) {
            self.hang(reversed(edge), v);
        }
    }

    /// Lets edge `e` end at the far end of the edge after it, which is the only one there.
    #[tactic(auto, using(crate::proofs::Views::inside_reads))]
    pub fn slide(&mut self, e: u32)
        requires { IsSlidable self.old.mesh e }
        ensures mesh { self.new.mesh ≡ slid self.old.mesh e }
        ensures rest { KeepsRest self.old self.new }
        ensures sound { AreSoundLinks self.old.mesh }
        ensures ends { let m = self.old.mesh in
            MovesEdge m self.new.mesh e (origin m e) (origin m (next m (next m e))) }
        ensures links { let m = self.old.mesh in
            Slides m self.new.mesh e (next m e) (next m (next m e)) }
        ensures outline { KeepsOneOutline self.old.mesh self.new.mesh }
        ensures valid { IsValidMesh self.new.mesh }
    {
        let t = reversed(e);
        let k = self.half_edge(e).next;
        let there = self.half_edge(k);
        let z = self.half_edge(t).prev;
        slide_edges(&mut self.half_edges, e, t, k, there.next, z);
        set_out_edge(&mut self.vertices, there.origin, Some(k));
    }

    /// Splits edge `e` of a line at vertex `v`. Gives both parts, directed as `e`.
    pub fn split_line(&mut self, e: u32, v: u32) -> [u32; 2]
        requires line { IsLineEdge self.old.mesh e }
        requires alone { IsAlone self.old.mesh v }
        requires edge_room { HasEdgeRoom self.old.mesh self.old.room 2 }
        ensures parts { let n = length self.old.mesh.half_edges in result ≡ e ∷ (n + 1) ∷ [] }
        ensures mesh { self.new.mesh ≡ line_split self.old.mesh e v }
        ensures rest { KeepsRest self.old self.new }
        ensures sound { AreSoundLinks self.old.mesh }
        ensures splits { SplitsLineEdge self.old.mesh self.new.mesh e v }
    {
        let n = self.half_edge_count() as u32;
        self.hang(e, v);
        self.slide(e);
        [e, n + 1]
    }
}
