//! Vertices that lose their edges.
ghost use Rattle.std.specs.Prelude.{◌≡◌, ◌<◌, ◌≤◌, length};
ghost use Rattle.half_edge_links.specs.{face, IsStrip, IsWheel, neighbour, origin, turn};
ghost use Rattle.half_edge_dcel.specs.Hole.{CanTurnAway, FillsWithFan, HasFreeTip, IsBorder, IsHub};
ghost use Rattle.half_edge_dcel.specs.Hole.{TurnsAway};
ghost use Rattle.half_edge_dcel.specs.{MeshContents.IsMeshWithData, Taking.OpensFullFace};
ghost use Rattle.half_edge_dcel.specs.Removal.{AreSidesOf, FillsHole, first_spoke, LosesStrip};

use crate::Dcel;
use half_edge_links::{FixedDirectedEdgeHandle, FixedVertexHandle};

/// A vertex that has lost its edges.
#[derive(Clone, Copy, PartialEq, Eq, Debug)]
pub struct IsolateVertexResult {
    pub vertex: FixedVertexHandle,
}

impl<V, DE, UE, F> Dcel<V, DE, UE, F> {
    // Removes the edges of a vertex with `count` inner faces, which follow each other from `first`
    // on, and the outer face between its last edge and `first`.
    fn disconnect(&mut self, first: u32, count: usize)
    where
        DE: Drop,
        UE: Drop,
        F: Drop,
        requires { IsStrip self.old.mesh first count }
        ensures strip { let m = self.old.mesh in
            LosesStrip self.old self.new (origin m first) (neighbour m first) count }
        ensures whole { IsMeshWithData self.new }
    {
        self.recall_invariant();
        let mut h = first;
        for _ in 0..count {
            h = self.peel(h);
        }
        self.remove_edge(h);
    }

    /// Removes the edges of a vertex on the hull, and its faces. `edges` are the sides opposite it
    /// in these faces, at least one, in their order round it; afterwards they have the outer face
    /// on their left. The last edges and faces take the indexes that become free.
    pub fn disconnect_edge_strip(
        &mut self,
        edges: &[FixedDirectedEdgeHandle],
    ) -> IsolateVertexResult
    where
        DE: Drop,
        UE: Drop,
        F: Drop,
        requires { AreSidesOf self.old.mesh edges.now }

        ensures vertex { result.vertex ≡ origin self.old.mesh
            (first_spoke self.old.mesh edges.now) }
        ensures strip { let first = first_spoke self.old.mesh edges.now in
            LosesStrip self.old self.new (origin self.old.mesh first)
            (neighbour self.old.mesh first) (length edges.now) }
        ensures whole { IsMeshWithData self.new }
    {
        let side = edges[0].index();
        let first = self.links().half_edge(side).prev;
        let vertex = self.links().prev_origin(side);
        self.disconnect(first, edges.len());
        IsolateVertexResult {
            vertex: FixedVertexHandle::from_index(vertex),
        }
    }

    // Gives the last of the three faces round a vertex, from `first` on, to the outer one, and its
    // data back.
    fn open_third(&mut self, first: u32) -> F
        requires { IsWheel self.old.mesh first }
        ensures { let m = self.old.mesh in
            OpensFullFace self.old self.new (face m (turn m (turn m first))) result }
    {
        let second = self.next_spoke(first);
        let third = self.next_spoke(second);
        let face = self.links().half_edge(third).face;
        self.open_face(face)
    }

    // Removes the edges of a vertex with three faces round it, one of them on the left of `first`.
    // One face of its neighbours takes their place.
    fn collapse(&mut self, first: u32)
    where
        DE: Drop,
        UE: Drop,
        F: Drop,
        requires { IsWheel self.old.mesh first }
        ensures fills { let m = self.old.mesh in
            FillsHole self.old self.new (origin m first) (neighbour m first) }
        ensures whole { IsMeshWithData self.new }
    {
        let value = self.open_third(first);
        let spoke = self.peel(first);
        let pendant = self.peel(spoke);
        let border = self.index_after_removal(pendant);
        self.remove_edge(pendant);
        self.close_face(border, value);
    }

    // Turns the edge after `first` round their vertex, so that it leaves the vertex.
    fn turn_away(&mut self, first: u32)
        requires { CanTurnAway self.old.mesh first }
        ensures { TurnsAway self.old self.new first }
    {
        let spoke = self.next_spoke(first);
        self.links.flip(spoke);
    }

    // Removes the edges of a vertex with `count` faces round it, from `first` on. A fan of faces,
    // whose tip is the end of `first`, takes their place.
    fn fill_hole(&mut self, first: u32, count: usize)
    where
        DE: Drop,
        UE: Drop,
        F: Drop,
        requires many { 3 ≤ count }
        requires hub { IsHub self.old.mesh first count }
        requires tip { HasFreeTip (neighbour self.old.mesh first) count }
        ensures fan { let m = self.old.mesh in
            FillsWithFan self.old self.new (origin m first) (neighbour m first) count }
        ensures whole { IsMeshWithData self.new }
    {
        self.recall_invariant();
        for _ in 3..count {
            self.turn_away(first);
        }
        self.collapse(first);
    }

    /// Removes the edges of an inner vertex and fills the hole with a fan of faces. `border` is the
    /// loop round the vertex, of three edges or more, and the fan's tip is where the first of them
    /// starts: this vertex gets an edge to each one of the loop that is not beside it there, and
    /// none of these may be the tip itself. The new edges have the data of edges of the vertex, and
    /// the new faces those of its faces. The last edges and faces take the indexes that become
    /// free.
    pub fn isolate_vertex_and_fill_hole(
        &mut self,
        border: &[FixedDirectedEdgeHandle],
        vertex: FixedVertexHandle,
    ) -> IsolateVertexResult
    where
        DE: Drop,
        UE: Drop,
        F: Drop,
        requires { IsBorder self.old.mesh border.now vertex }

        ensures vertex { result.vertex ≡ vertex }
        ensures hole { let m = self.old.mesh in
            FillsWithFan self.old self.new vertex (neighbour m (first_spoke m border.now))
            (length border.now) }
        ensures whole { IsMeshWithData self.new }
    {
        let first = self.links().half_edge(border[0].index()).prev;
        self.fill_hole(first, border.len());
        IsolateVertexResult { vertex }
    }

    /// Does nothing: a vertex that loses its edges leaves no edge or face without use.
    pub fn cleanup_isolated_vertex(&mut self, _result: IsolateVertexResult)
        ensures { self.new ≡ self.old }
    {}
}
