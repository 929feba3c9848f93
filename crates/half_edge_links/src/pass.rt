//! An edge of a line that passes a vertex.
ghost use Rattle.std.specs.Prelude.{◌≡◌, ◌<◌};
ghost use Rattle.half_edge_links.specs.{EdgeList.shown, Places.AreJoined, Places.ArePassedPlaces};
ghost use Rattle.half_edge_links.specs.{Hull.KeepsOneOutline, Outline.MovesEdge, Rest.KeepsRest};
ghost use Rattle.half_edge_links.specs.Meshes.{AreSoundLinks, IsValidMesh, next, origin, rev};
ghost use Rattle.half_edge_links.specs.Pass.{IsPassable, passed, passed_edges, Passes};

use crate::edge_list::EdgeList;
use crate::records::{join, set_corner};
use crate::vertex_list::set_out_edge;
use crate::{Links, reversed};

// Lets edge `e`, with other side `t`, end at the far end of the edge `l` after it, whose other side
// is `k`; `z` is the edge before `k`.
#[tactic(auto, using(crate::proofs::Stored::Shown::joined_reads))]
fn pass_edges(half_edges: &mut EdgeList, e: u32, t: u32, k: u32, l: u32, z: u32)
    requires joined { AreJoined (shown half_edges.old.items) }
    requires places { ArePassedPlaces (shown half_edges.old.items) e t k l z }
    ensures items { shown half_edges.new.items ≡
        passed_edges (shown half_edges.old.items) e t k l z }
    ensures capacity { half_edges.new.capacity ≡ half_edges.old.capacity }
{
    let twin = half_edges.stored(t);
    let start = half_edges.stored(l).prev_origin;
    let start_before = half_edges.stored(k).prev_origin;
    join(half_edges, e, k, start);
    join(half_edges, z, t, start_before);
    join(half_edges, k, l, twin.prev_origin);
    set_corner(half_edges, twin.next, twin.prev_origin);
}

impl<V> Links<V> {
    /// Lets edge `e` of a line pass the vertex at its end, and end where the edge after it ends.
    /// The vertex is left hanging there, by the edge after `e`.
    #[tactic(auto, using(crate::proofs::Views::inside_reads))]
    pub fn pass(&mut self, e: u32)
        requires { IsPassable self.old.mesh e }
        ensures mesh { self.new.mesh ≡ passed self.old.mesh e }
        ensures rest { KeepsRest self.old self.new }
        ensures sound { AreSoundLinks self.old.mesh }
        ensures ends { let m = self.old.mesh in
            MovesEdge m self.new.mesh e (origin m e) (origin m (rev (next m e))) }
        ensures links { let m = self.old.mesh in
            Passes m self.new.mesh e (rev (next m e)) (next m e) }
        ensures outline { KeepsOneOutline self.old.mesh self.new.mesh }
        ensures valid { IsValidMesh self.new.mesh }
    {
        let t = reversed(e);
        let l = self.half_edge(e).next;
        let k = self.half_edge(t).prev;
        let z = self.half_edge(k).prev;
        let passed = self.half_edge(l).origin;
        pass_edges(&mut self.half_edges, e, t, k, l, z);
        set_out_edge(&mut self.vertices, passed, Some(l));
    }
}
