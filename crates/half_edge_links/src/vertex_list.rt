//! What a list of vertices keeps. The edge that a vertex names and its data lie side by side, since
//! most steps read both.
ghost use Rattle.std.specs.Prelude.{◌≡◌, ◌<◌, length, slice_set, vec_capacity, Option};
ghost use Rattle.half_edge_links.specs.VertexList.{IsNameable, out_edges_of, values_of};

use std::alloc::AllocError;

// What a vertex without edges keeps in place of one. No edge has this number, since a mesh has at
// most `MAX_ELEMENTS` edges.
pub(crate) const NO_EDGE: u32 = u32::MAX;

// An edge that starts at a vertex, or `NO_EDGE`, and the vertex's data.
#[derive(Drop)]
pub(crate) struct Vertex<V> {
    pub(crate) out_edge: u32,
    pub(crate) value: V,
}

impl<V: Clone> Clone for Vertex<V> {
    ghost use Rattle.half_edge_links.specs.VertexList.{IsCopiedVertex};

    ghost is_clone = { IsCopiedVertex V.is_clone };

    fn clone(&self) -> Result<Self, AllocError> {
        Ok(Vertex {
            out_edge: self.out_edge,
            value: self.value.clone()?,
        })
    }
}

// Lets vertex `v` name `edge`.
#[tactic(auto, using(crate::proofs::Lists::VertexLists::vertex_counts))]
pub(crate) fn set_out_edge<V>(vertices: &mut Vec<Vertex<V>>, v: u32, edge: Option<u32>)
    requires vertex { v < length (out_edges_of vertices.old.items) }
    requires nameable { IsNameable edge }
    ensures out_edges { out_edges_of vertices.new.items ≡
        slice_set (out_edges_of vertices.old.items) v edge }
    ensures values { values_of vertices.new.items ≡ values_of vertices.old.items }
    ensures capacity { vec_capacity vertices.new ≡ vec_capacity vertices.old }
{
    vertices[v as usize].out_edge = edge.unwrap_or(NO_EDGE);
}
