//! Taking edges, faces and vertices out of a mesh.
ghost use Rattle.std.specs.Prelude.{◌≡◌, ◌-◌, ◌<◌, length};
ghost use Rattle.half_edge_links.specs.{Hull.KeepsOneOutline, Rest.KeepsRest, Rest.TakesFromRest};
ghost use Rattle.half_edge_links.specs.Meshes.{AreSoundLinks, IsAlone, IsInner, IsValidMesh, prev};
ghost use Rattle.half_edge_links.specs.Meshes.{rev};
ghost use Rattle.half_edge_links.specs.{Move.MovesVertex, Peel.IsPeelable, Room.HasFaceRoom};
ghost use Rattle.half_edge_links.specs.Remove.{after_removal, IsOpenTriangle, IsRemovable};
ghost use Rattle.half_edge_links.specs.Remove.{loop_closed, opened, removed};
ghost use Rattle.half_edge_links.specs.Shrunk.{ClosesFace, OpensFace, PeelsEdge, RemovesEdge};
ghost use Rattle.half_edge_links.specs.Taken.{MovesEnds, MovesOuter, MovesTriangles};

use crate::removal::{
    fill, move_named, out_after, outer_after, pair_moved, rename_face, rename_out, renamed,
    set_loop_face, unlink,
};
use crate::vertex_list::set_out_edge;
use crate::{Links, reversed};

impl<V> Links<V> {
    /// Gives the loop of inner face `f` to the outer face. The last face takes its index.
    #[tactic(auto, using(crate::proofs::Views::inside_reads))]
    pub fn open_face(&mut self, f: u32)
        requires { IsInner self.old.mesh f }
        ensures mesh { self.new.mesh ≡ opened self.old.mesh f }
        ensures opens { OpensFace self.old.mesh self.new.mesh f }
        ensures valid { IsValidMesh self.new.mesh }
        ensures spare { HasFaceRoom self.new.mesh self.new.room 1 }
        ensures rest { KeepsRest self.old self.new }
        ensures sound { AreSoundLinks self.old.mesh }
    {
        let last = self.face_edge(self.inner_face_count() as u32);
        let edge = self.face_edge(f);
        set_loop_face(&mut self.half_edges, last, f);
        set_loop_face(&mut self.half_edges, edge, 0);
        self.face_edges.swap_remove(f as usize - 1);
    }

    /// Makes the loop of `h`, three edges of the outer face, a new last face.
    #[tactic(auto, using(crate::proofs::Views::inside_reads))]
    pub fn close_face(&mut self, h: u32)
        requires open { IsOpenTriangle self.old.mesh h }
        requires room { HasFaceRoom self.old.mesh self.old.room 1 }
        ensures mesh { self.new.mesh ≡ loop_closed self.old.mesh h }
        ensures closes { ClosesFace self.old.mesh self.new.mesh h }
        ensures valid { IsValidMesh self.new.mesh }
        ensures rest { KeepsRest self.old self.new }
        ensures sound { AreSoundLinks self.old.mesh }
    {
        let face = self.inner_face_count() as u32 + 1;
        set_loop_face(&mut self.half_edges, h, face);
        self.face_edges.push_reserved(h);
    }

    /// Removes edge `e`, with the outer face on both sides. The last edge takes its index.
    #[tactic(auto, using(crate::proofs::Views::inside_reads))]
    pub fn remove_edge(&mut self, e: u32)
        requires { IsRemovable self.old.mesh e }
        ensures mesh { self.new.mesh ≡ removed self.old.mesh e }
        ensures removes { RemovesEdge self.old.mesh self.new.mesh e }
        ensures valid { IsValidMesh self.new.mesh }
        ensures rest { KeepsRest self.old self.new }
        ensures sound { AreSoundLinks self.old.mesh }
    {
        let t = reversed(e);
        let edge = self.half_edge(e);
        let twin = self.half_edge(t);
        let last = (self.half_edge_count() - 2) as u32;
        let even = self.half_edge(last);
        let odd = self.half_edge(last + 1);
        let hole = e - e % 2;
        unlink(&mut self.half_edges, e, t);
        set_out_edge(&mut self.vertices, edge.origin, out_after(e, twin.next));
        set_out_edge(&mut self.vertices, twin.origin, out_after(t, edge.next));
        let outer = outer_after(self.outer_edge, e, t, edge.next, edge.prev);
        rename_out(&mut self.vertices, even.origin, last, hole);
        rename_out(&mut self.vertices, odd.origin, last, hole);
        rename_face(&mut self.face_edges, even.face, last, hole);
        rename_face(&mut self.face_edges, odd.face, last, hole);
        self.outer_edge = renamed(last, hole, outer);
        fill(&mut self.half_edges, last, hole);
    }

    /// The index of edge `h` once edge `e` was removed.
    #[tactic(auto, using(crate::proofs::Views::inside_reads))]
    pub fn index_after_removal(&self, e: u32, h: u32) -> u32
        requires { e < length self.now.mesh.half_edges }
        ensures value { result ≡ after_removal self.now.mesh e h }
        ensures sound { AreSoundLinks self.now.mesh }
    {
        let last = (self.half_edge_count() - 2) as u32;
        pair_moved(last, e - e % 2, h)
    }

    /// Removes edge `h`, with an inner face on its left and the outer face on its right, and that
    /// face. The last face and the last edge take their indexes. Gives the next edge round the
    /// origin of `h`.
    pub fn peel(&mut self, h: u32) -> u32
        requires { IsPeelable self.old.mesh h }
        ensures peels { PeelsEdge self.old.mesh self.new.mesh h }
        ensures valid { IsValidMesh self.new.mesh }
        ensures rest { KeepsRest self.old self.new }
        ensures sound { AreSoundLinks self.old.mesh }
        ensures spoke { result ≡ after_removal self.old.mesh h (rev (prev self.old.mesh h)) }
    {
        let edge = self.half_edge(h);
        let spoke = self.index_after_removal(h, reversed(edge.prev));
        self.open_face(edge.face);
        self.remove_edge(h);
        spoke
    }

    /// Removes vertex `v`, which has no edges, and gives its data back. The last vertex takes its
    /// index.
    #[tactic(auto, using(crate::proofs::Views::inside_reads))]
    pub fn swap_remove_vertex(&mut self, v: u32) -> V
        requires { IsAlone self.old.mesh v }
        ensures moves { MovesVertex self.old.mesh self.new.mesh v }
        ensures triangles { MovesTriangles self.old.mesh self.new.mesh v }
        ensures ends { MovesEnds self.old.mesh self.new.mesh v }
        ensures outer { MovesOuter self.old.mesh self.new.mesh v }
        ensures rest { TakesFromRest self.old self.new v result }
        ensures sound { AreSoundLinks self.old.mesh }
        ensures outline { KeepsOneOutline self.old.mesh self.new.mesh }
    {
        let last = self.out_edge(self.vertex_count() as u32 - 1);
        move_named(&mut self.half_edges, last, v);
        self.vertices.swap_remove(v as usize).value
    }
}
