//! How much room a mesh has, and asking for more.
ghost use Rattle.std.specs.Prelude.{◌≡◌, ◌+◌, ◌*◌, ◌-◌, ◌<◌, [], OnOk, IsTrue, ◌↔◌, Err, IsOk};
ghost use Rattle.half_edge_links.specs.Meshes.{empty};
ghost use Rattle.half_edge_links.specs.Room.{AreFewEnough, HasRoomFor, KeepsRoom};

use crate::Links;

/// The largest number of vertices, of directed edges and of faces.
pub const MAX_ELEMENTS: usize = 4294967295;

/// Why room was refused.
#[derive(Clone, Copy, PartialEq, Eq, Debug)]
pub enum ReserveError {
    /// A total, with edges counted twice, passes `MAX_ELEMENTS`.
    TooMany,
    /// Memory was refused.
    OutOfMemory,
}

/// Whether a mesh can have so many vertices, undirected edges and faces.
pub fn are_few_enough(vertices: usize, undirected_edges: usize, faces: usize) -> bool
    ensures { IsTrue result ↔ AreFewEnough vertices undirected_edges faces }
{
    vertices <= MAX_ELEMENTS && undirected_edges <= MAX_ELEMENTS / 2 && faces <= MAX_ELEMENTS
}

/// Whether a mesh with so many vertices may have no room for one more: each vertex goes with up to
/// six directed edges.
pub fn is_full(vertices: usize) -> bool
    ensures { IsTrue result ↔ MAX_ELEMENTS < 6 * (vertices + 1) }
{
    vertices >= MAX_ELEMENTS / 6
}

impl<V> Links<V> {
    /// Takes all vertices, edges and inner faces away, and keeps the room.
    #[tactic(auto, unfolding(crate::specs::EdgeList::shown))]
    pub fn clear(&mut self)
    where
        V: Drop,
        ensures mesh { self.new.mesh ≡ empty }
        ensures values { self.new.values ≡ [] }
        ensures room { self.new.room ≡ self.old.room }
    {
        self.vertices.clear();
        self.half_edges.clear();
        self.outer_edge = None;
        self.face_edges.clear();
    }

    /// Makes room for these totals, the outer face among them. After an error the mesh is as it
    /// was: `TooMany` comes where a total, that of the directed edges too, passes `MAX_ELEMENTS`,
    /// and is looked at first, and `OutOfMemory` where a list answers `AllocError`.
    pub fn reserve(
        &mut self,
        vertices: usize,
        undirected_edges: usize,
        faces: usize,
    ) -> Result<(), ReserveError>
        ensures mesh { self.new.mesh ≡ self.old.mesh }
        ensures values { self.new.values ≡ self.old.values }
        ensures ok { OnOk result (HasRoomFor self.new.room vertices undirected_edges faces) }
        ensures kept { KeepsRoom self.old.room self.new.room }
        ensures too_many { result ≡ Err ReserveError.TooMany →
            ¬ AreFewEnough vertices undirected_edges faces }
        ensures had_room { HasRoomFor self.old.room vertices undirected_edges faces → IsOk result }
        ensures few_enough { ¬ AreFewEnough vertices undirected_edges faces →
            result ≡ Err ReserveError.TooMany }
    {
        let more_vertices = vertices.saturating_sub(self.vertex_count());
        let more_faces = faces.saturating_sub(self.face_edges.len() + 1);
        if vertices > MAX_ELEMENTS || undirected_edges > MAX_ELEMENTS / 2 || faces > MAX_ELEMENTS {
            return Err(ReserveError::TooMany);
        }
        if self.vertices.reserve(more_vertices).is_err()
            || self.half_edges.reserve(2 * undirected_edges).is_err()
            || self.face_edges.reserve(more_faces).is_err()
        {
            return Err(ReserveError::OutOfMemory);
        }
        Ok(())
    }
}
