//! Vertices that go, without edges or from a line.
ghost use Rattle.std.specs.Prelude.{◌≡◌, ◌<◌, length};
ghost use Rattle.half_edge_links.specs.{IsAlone, KeepsOneOutline, origin};
ghost use Rattle.half_edge_dcel.specs.MeshContents.{IsMeshWithData};
ghost use Rattle.half_edge_dcel.specs.Removal.{DropsVertex, HasFewEdges, LeavesLine, LeavesMesh};
ghost use Rattle.half_edge_dcel.specs.Taking.{IsMiddle, PassesVertex};

use crate::Dcel;
use half_edge_links::{FixedVertexHandle, reversed};

impl<V, DE, UE, F> Dcel<V, DE, UE, F> {
    /// Removes a vertex without edges, and gives its data back. The last vertex takes its index.
    pub fn swap_remove_vertex(&mut self, vertex: FixedVertexHandle) -> V
        requires { IsAlone self.old.mesh vertex }
        ensures drops { DropsVertex self.old self.new vertex result }
        ensures whole { IsMeshWithData self.new }
        ensures outline { KeepsOneOutline self.old.mesh self.new.mesh }
    {
        self.links.swap_remove_vertex(vertex.index())
    }

    // Lets the edge to the vertex where `out` starts pass it, and end at its other neighbour. Gives
    // the edge from the vertex that is left hanging there.
    fn pass_vertex(&mut self, out: u32) -> u32
        requires { IsMiddle self.old.mesh out }
        ensures { PassesVertex self.old self.new out result }
    {
        let edge = reversed(out);
        let left = self.links().half_edge(edge).next;
        self.links.pass(edge);
        left
    }
}

impl<V, DE: Drop, UE: Drop, F> Dcel<V, DE, UE, F> {
    // Joins the two neighbours of the vertex where `out` starts, which keeps no edge.
    fn join_neighbours(&mut self, out: u32)
        requires { IsMiddle self.old.mesh out }
        ensures leaves { LeavesLine self.old self.new (origin self.old.mesh out) }
        ensures outline { KeepsOneOutline self.old.mesh self.new.mesh }
        ensures whole { IsMeshWithData self.new }
    {
        let lost = self.pass_vertex(out);
        self.remove_edge(lost);
    }

    // Removes the edges of a vertex of a line, and joins its neighbours, if it has two.
    fn leave_line(&mut self, vertex: u32)
        requires within { vertex < length self.old.vertices }
        requires one_face { length self.old.faces ≡ 0 }
        requires few { HasFewEdges self.old.mesh vertex }
        ensures leaves { LeavesLine self.old self.new vertex }
        ensures outline { KeepsOneOutline self.old.mesh self.new.mesh }
        ensures whole { IsMeshWithData self.new }
    {
        if let Some(out) = self.links().out_edge(vertex) {
            let other = self.next_spoke(out);
            if other == out {
                self.remove_edge(out);
            } else {
                self.join_neighbours(out);
            }
        }
    }

    /// Removes a vertex of a mesh with one face, and gives its data back. If it has two neighbours,
    /// they are joined by an edge with the data of one of its edges. The last vertex takes its
    /// index.
    pub fn remove_when_degenerate(&mut self, vertex: FixedVertexHandle) -> V
        requires within { vertex < length self.old.vertices }
        requires one_face { length self.old.faces ≡ 0 }
        requires few { HasFewEdges self.old.mesh vertex }
        ensures leaves { LeavesMesh self.old self.new vertex result }
        ensures outline { KeepsOneOutline self.old.mesh self.new.mesh }
        ensures whole { IsMeshWithData self.new }
    {
        self.leave_line(vertex.index());
        self.swap_remove_vertex(vertex)
    }
}
