//! Room for a mesh to grow in.
ghost use Rattle.std.specs.Prelude.{◌≡◌, ◌≤◌, [], OnOk, IfOk, IsOk, Err};
ghost use Rattle.half_edge_links.specs.{empty, HasRoomFor, Room.AreFewEnough, Room.KeepsRoom};
ghost use Rattle.half_edge_dcel.specs.Empty.{IsEmptyMesh};

use crate::Dcel;
use half_edge_links::ReserveError;
use std::alloc::Global;

impl<V, DE, UE, F> Dcel<V, DE, UE, F> {
    /// Makes room for these totals, the outer face among them. After an error the mesh is as it
    /// was: `TooMany` comes where a total, with edges counted twice, passes `MAX_ELEMENTS`, and is
    /// looked at first, and `OutOfMemory` where memory was refused.
    pub fn reserve_capacity(
        &mut self,
        vertices: usize,
        undirected_edges: usize,
        faces: usize,
    ) -> Result<(), ReserveError>
        ensures contents { self.new ≡ record self.old { room = self.new.room } }
        ensures ok { OnOk result (HasRoomFor self.new.room vertices undirected_edges faces) }
        ensures kept { KeepsRoom self.old.room self.new.room }
        ensures too_many { result ≡ Err ReserveError.TooMany →
            ¬ AreFewEnough vertices undirected_edges faces }
        ensures few_enough { ¬ AreFewEnough vertices undirected_edges faces →
            result ≡ Err ReserveError.TooMany }
        ensures had_room { HasRoomFor self.old.room vertices undirected_edges faces → IsOk result }
    {
        self.links.reserve(vertices, undirected_edges, faces)?;
        let more_edges = undirected_edges.saturating_sub(self.undirected.len());
        let more_directed = (2 * undirected_edges).saturating_sub(self.directed.len());
        let more_faces = faces.saturating_sub(self.faces.len() + 1);
        if self.undirected.reserve(more_edges).is_err()
            || self.directed.reserve(more_directed).is_err()
            || self.faces.reserve(more_faces).is_err()
        {
            return Err(ReserveError::OutOfMemory);
        }
        Ok(())
    }

    /// Takes out all vertices, edges and inner faces. The outer face keeps its data, and the room
    /// stays.
    pub fn clear(&mut self)
    where
        V: Drop,
        DE: Drop,
        UE: Drop,
        F: Drop,
        ensures contents { self.new ≡ record self.old {
          mesh = empty;
          vertices = [];
          directed = [];
          undirected = [];
          faces = [];
        } }
    {
        self.links.clear();
        self.directed.clear();
        self.undirected.clear();
        self.faces.clear();
    }

    /// An empty mesh with room for these totals, the outer face among them, or a refusal as of
    /// `reserve_capacity`. Where no vertex and no edge is asked for, and no face beside the outer
    /// one, it takes no memory and is never refused.
    pub fn with_capacity(
        alloc: Global,
        vertices: usize,
        undirected_edges: usize,
        faces: usize,
    ) -> Result<Self, ReserveError>
    where
        V: Drop,
        DE: Drop,
        UE: Drop,
        F: Default + Drop,
        ensures contents { IfOk result (IsEmptyMesh F.is_default) }
        ensures room { IfOk result (λ d. HasRoomFor d.room vertices undirected_edges faces) }
        ensures too_many { result ≡ Err ReserveError.TooMany →
            ¬ AreFewEnough vertices undirected_edges faces }
        ensures few_enough { ¬ AreFewEnough vertices undirected_edges faces →
            result ≡ Err ReserveError.TooMany }
        ensures nothing { vertices ≡ 0 → undirected_edges ≡ 0 → faces ≤ 1 → IsOk result }
    {
        let mut mesh = Dcel::new(alloc);
        mesh.reserve_capacity(vertices, undirected_edges, faces)?;
        Ok(mesh)
    }
}
