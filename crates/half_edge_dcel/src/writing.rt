//! References for writing to the data of edges and faces.
ghost use Rattle.std.specs.Prelude.{◌≡◌, ◌<◌, ◌≤◌, ◌∷◌, length, Some, slice_get};
ghost use Rattle.std.specs.Borrow.{Lends, sem};
ghost use Rattle.half_edge_dcel.specs.Writing.{with_directed, with_face, with_undirected};

use crate::Dcel;
use half_edge_links::{FixedDirectedEdgeHandle, FixedFaceHandle, FixedUndirectedEdgeHandle};

impl<V, DE, UE, F> Dcel<V, DE, UE, F> {
    ghost use Rattle.half_edge_dcel.specs.contracts.dcel.Dcel.{the_row};

    /// The data of a directed edge, for writing.
    pub fn directed_edge_data_mut(&mut self, edge: FixedDirectedEdgeHandle) -> &mut DE
        requires { edge < length self.old.directed }
        ensures* writes_back { sem 𝓛 (Lends (the_row V.row DE.row UE.row F.row) DE.row self.entry
            result (with_directed self.old edge)) }
        ensures value { slice_get self.old.directed edge ≡ Some result.now }
    {
        &mut self.directed[edge.index() as usize]
    }

    /// The data of an undirected edge, for writing.
    pub fn undirected_edge_data_mut(&mut self, edge: FixedUndirectedEdgeHandle) -> &mut UE
        requires { edge < length self.old.undirected }
        ensures* writes_back { sem 𝓛 (Lends (the_row V.row DE.row UE.row F.row) UE.row self.entry
            result (with_undirected self.old edge)) }
        ensures value { slice_get self.old.undirected edge ≡ Some result.now }
    {
        &mut self.undirected[edge.index() as usize]
    }

    /// The data of a face, the outer one among them, for writing.
    pub fn face_data_mut(&mut self, face: FixedFaceHandle) -> &mut F
        requires { face ≤ length self.old.faces }
        ensures* writes_back { sem 𝓛 (Lends (the_row V.row DE.row UE.row F.row) F.row self.entry
            result (with_face self.old face)) }
        ensures value { slice_get (self.old.outer ∷ self.old.faces) face ≡ Some result.now }
    {
        if face.is_outer() {
            &mut self.outer
        } else {
            &mut self.faces[face.index() as usize - 1]
        }
    }
}
