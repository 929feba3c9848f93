//! Vertices without edges, and new data of vertices.
ghost use Rattle.std.specs.Prelude.{◌≡◌, ◌-◌, ◌<◌, ◌∷◌, ◌++◌, []};
ghost use Rattle.std.specs.Prelude.{length, Some, slice_get, slice_set};
ghost use Rattle.half_edge_links.specs.Hull.{KeepsOneOutline};
ghost use Rattle.half_edge_links.specs.{Meshes.IsValidMesh, Meshes.with_vertex, Room.HasVertexRoom};

use crate::Links;
use crate::vertex_list::{NO_EDGE, Vertex};
use std::mem::replace;

impl<V> Links<V> {
    /// A new last vertex with these data and without edges.
    #[tactic(auto, unfolding(crate::specs::VertexList::named_by))]
    pub fn push_vertex(&mut self, value: V) -> u32
        requires { HasVertexRoom self.old.mesh self.old.room 1 }
        ensures vertex { result ≡ length self.old.mesh.out_edges }
        ensures mesh { self.new.mesh ≡ with_vertex self.old.mesh }
        ensures room { self.new.room ≡ self.old.room }
        ensures values { self.new.values ≡ self.old.values ++ value ∷ [] }
        ensures outline { KeepsOneOutline self.old.mesh self.new.mesh }
        ensures valid { IsValidMesh self.new.mesh }
    {
        let v = self.vertex_count() as u32;
        self.vertices.push_reserved(Vertex {
            out_edge: NO_EDGE,
            value,
        });
        v
    }

    /// Gives vertex `v` new data, and gives back the old ones.
    #[tactic(auto, using(crate::proofs::Lists::VertexLists::vertex_counts))]
    pub fn update_vertex(&mut self, v: u32, value: V) -> V
        requires { v < length self.old.values }
        ensures former { slice_get self.old.values v ≡ Some result }
        ensures contents { self.new ≡
            record self.old { values = slice_set self.old.values v value } }
    {
        replace(&mut self.vertices[v as usize].value, value)
    }
}
