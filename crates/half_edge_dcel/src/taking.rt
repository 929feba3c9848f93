//! Taking single edges and faces out, with their data.
ghost use Rattle.std.specs.Prelude.{◌≡◌, ◌+◌, ◌*◌, ◌<◌, ◌≤◌, length, vec_len, vec_capacity};
ghost use Rattle.half_edge_links.specs.{after_removal, IsInner, IsOpenTriangle, IsPeelable};
ghost use Rattle.half_edge_links.specs.{IsRemovable, next, turn};
ghost use Rattle.half_edge_dcel.specs.{MeshContents.IsMeshWithData, Taking.RemovesFullEdge};
ghost use Rattle.half_edge_dcel.specs.Removal.{TakesOutPair};
ghost use Rattle.half_edge_dcel.specs.Taking.{ClosesFullFace, OpensFullFace, PeelsFullEdge};

use crate::Dcel;
use half_edge_links::reversed;

// Takes items `2 k` and `2 k + 1` out. The last two take their places.
pub(crate) fn remove_pair<T: Drop>(items: &mut Vec<T>, k: usize)
    requires { 2 * k + 1 < vec_len items.old }
    ensures takes { TakesOutPair items.old.items items.new.items k }
    ensures capacity { vec_capacity items.new ≡ vec_capacity items.old }
{
    items.swap_remove(2 * k + 1);
    items.swap_remove(2 * k);
}

impl<V, DE, UE, F> Dcel<V, DE, UE, F> {
    // Removes an edge with the outer face on both sides. The last edge takes its index.
    pub(crate) fn remove_edge(&mut self, edge: u32)
    where
        DE: Drop,
        UE: Drop,
        requires { IsRemovable self.old.mesh edge }
        ensures { RemovesFullEdge self.old self.new edge }
    {
        self.links.remove_edge(edge);
        self.undirected.swap_remove(edge as usize / 2);
        remove_pair(&mut self.directed, edge as usize / 2);
    }

    // Gives an inner face to the outer one, and its data back. The last face takes its index.
    pub(crate) fn open_face(&mut self, face: u32) -> F
        requires { IsInner self.old.mesh face }
        ensures { OpensFullFace self.old self.new face result }
    {
        self.recall_invariant();
        self.links.open_face(face);
        self.faces.swap_remove(face as usize - 1)
    }

    // Removes an edge with an inner face on its left and the outer face on its right, and that
    // face. The last edge and the last face take their indexes. Gives the next edge round the
    // origin.
    pub(crate) fn peel(&mut self, edge: u32) -> u32
    where
        DE: Drop,
        UE: Drop,
        F: Drop,
        requires { IsPeelable self.old.mesh edge }
        ensures { PeelsFullEdge self.old self.new edge result }
    {
        let left = self.links.half_edge(edge).face as usize - 1;
        let spoke = self.links.peel(edge);
        self.faces.swap_remove(left);
        self.undirected.swap_remove(edge as usize / 2);
        remove_pair(&mut self.directed, edge as usize / 2);
        spoke
    }

    // Makes the loop of `edge`, three edges of the outer face, a new last face with this data.
    pub(crate) fn close_face(&mut self, edge: u32, value: F)
        requires triangle { IsOpenTriangle self.old.mesh edge }
        requires room { length self.old.faces + 1 ≤ self.old.room.faces }
        ensures { ClosesFullFace self.old self.new edge value }
    {
        self.links.close_face(edge);
        self.faces.push_reserved(value);
    }

    // The next edge round the origin of `edge`.
    pub(crate) fn next_spoke(&self, edge: u32) -> u32
        requires { edge < length self.now.mesh.half_edges }
        ensures value { result ≡ turn self.now.mesh edge }
        ensures whole { IsMeshWithData self.now }
    {
        reversed(self.links().half_edge(edge).prev)
    }

    // The index that the edge after `edge` gets once `edge` is removed.
    pub(crate) fn index_after_removal(&self, edge: u32) -> u32
        requires { edge < length self.now.mesh.half_edges }
        ensures value { let m = self.now.mesh in result ≡ after_removal m edge (next m edge) }
        ensures whole { IsMeshWithData self.now }
    {
        let links = self.links();
        links.index_after_removal(edge, links.half_edge(edge).next)
    }
}
