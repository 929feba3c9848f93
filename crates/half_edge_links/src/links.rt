//! The vertices, edges and faces of a mesh, and reads of them.
ghost use Rattle.std.specs.Prelude.{◌≡◌, ◌-◌, ◌<◌, ◌≤◌, length, [], slice_get, Some};
ghost use Rattle.half_edge_links.specs.Meshes.{AreSoundLinks, edge_at, empty, face_edge, IsInner};
ghost use Rattle.half_edge_links.specs.Meshes.{IsValidMesh, origin, out_edge, prev};

use crate::edge_list::EdgeList;
use crate::vertex_list::{NO_EDGE, Vertex};
use crate::{HalfEdge, MAX_ELEMENTS};
use std::alloc::Global;
use std::marker::Model;

/// The vertices, directed edges and faces of a mesh, with data on the vertices. Directed edges
/// `2 k` and `2 k + 1` are the two sides of edge `k`, and face 0 is the outer face.
#[derive(Drop)]
pub struct Links<V> {
    // For each vertex, an edge that starts there, and its data.
    pub(crate) vertices: Vec<Vertex<V>>,
    pub(crate) half_edges: EdgeList,
    pub(crate) outer_edge: Option<u32>,
    // For each face from face 1 on, an edge with that face on its left.
    pub(crate) face_edges: Vec<u32>,
}

impl<V> Model for Links<V> {
    ghost use Rattle.std.specs.Prelude.{vec_capacity, min, ◌-◌};
    ghost use Rattle.half_edge_links.specs.{EdgeList.shown, Meshes.IsValidMesh};
    ghost use Rattle.half_edge_links.specs.{declared.room.TheConstants.MAX_ELEMENTS, Room.Held};
    ghost use Rattle.half_edge_links.specs.VertexList.{out_edges_of, values_of};

    ghost Value = { Held V };

    ghost view = { λ l. record {
      mesh = record {
        out_edges = out_edges_of l.vertices.items;
        half_edges = shown l.half_edges.items;
        outer_edge = l.outer_edge;
        face_edges = l.face_edges.items;
      };
      values = values_of l.vertices.items;
      room = record {
        vertices = min (vec_capacity l.vertices) MAX_ELEMENTS;
        edges = min l.half_edges.capacity MAX_ELEMENTS;
        faces = min (vec_capacity l.face_edges) (MAX_ELEMENTS - 1);
      };
    } };

    ghost invariant = { λ l. IsValidMesh (record {
      out_edges = out_edges_of l.vertices.items;
      half_edges = shown l.half_edges.items;
      outer_edge = l.outer_edge;
      face_edges = l.face_edges.items;
    }) };
}

impl<V> Links<V> {
    /// A mesh with no vertex, no edge and the outer face, which takes no memory.
    #[tactic(auto, unfolding(crate::specs::EdgeList::shown))]
    pub fn new(alloc: Global) -> Self
        ensures empty { result.mesh ≡ empty }
        ensures values { result.values ≡ [] }
    {
        Links {
            vertices: Vec::new(alloc),
            half_edges: EdgeList {
                records: Vec::new(alloc),
            },
            outer_edge: None,
            face_edges: Vec::new(alloc),
        }
    }

    /// Gives a proof what holds of each mesh. It does nothing when it runs.
    pub fn recall_invariant(&self)
        ensures { IsValidMesh self.now.mesh }
    {
        let _ = &self.vertices;
    }

    /// The directed edge `h`. The edge after it says where it starts.
    #[tactic(auto, using(crate::proofs::Views::joined_reads))]
    pub fn half_edge(&self, h: u32) -> HalfEdge
        requires { h < length self.now.mesh.half_edges }
        ensures value { result ≡ edge_at self.now.mesh.half_edges h }
        ensures sound { AreSoundLinks self.now.mesh }
        ensures valid { IsValidMesh self.now.mesh }
    {
        let edge = self.half_edges.stored(h);
        HalfEdge {
            origin: self.half_edges.stored(edge.next).prev_origin,
            next: edge.next,
            prev: edge.prev,
            face: edge.face,
        }
    }

    /// The vertex at which the edge before directed edge `h` starts: where `h` is an edge of an
    /// inner face, the corner opposite to it. This is the cheapest read of a vertex.
    #[tactic(auto, using(crate::proofs::Stored::Shown::shown_reads))]
    pub fn prev_origin(&self, h: u32) -> u32
        requires { h < length self.now.mesh.half_edges }
        ensures value { result ≡ origin self.now.mesh (prev self.now.mesh h) }
        ensures valid { IsValidMesh self.now.mesh }
    {
        self.half_edges.stored(h).prev_origin
    }

    /// How many directed edges there are.
    pub fn half_edge_count(&self) -> usize
        ensures value { result ≡ length self.now.mesh.half_edges }
        ensures sound { AreSoundLinks self.now.mesh }
        ensures small { result ≤ MAX_ELEMENTS }
        ensures room { self.now.room.edges ≤ MAX_ELEMENTS }
        ensures valid { IsValidMesh self.now.mesh }
    {
        self.half_edges.len()
    }

    /// How many vertices there are.
    #[tactic(auto, using(crate::proofs::Lists::VertexLists::vertex_counts))]
    pub fn vertex_count(&self) -> usize
        ensures value { result ≡ length self.now.mesh.out_edges }
        ensures values { result ≡ length self.now.values }
        ensures valid { IsValidMesh self.now.mesh }
    {
        self.vertices.len()
    }

    /// How many faces there are beside the outer one.
    pub fn inner_face_count(&self) -> usize
        ensures value { result ≡ length self.now.mesh.face_edges }
        ensures small { result < MAX_ELEMENTS }
        ensures valid { IsValidMesh self.now.mesh }
    {
        self.face_edges.len()
    }

    /// An edge of inner face `f`.
    pub fn face_edge(&self, f: u32) -> u32
        requires { IsInner self.now.mesh f }
        ensures value { result ≡ face_edge self.now.mesh f }
        ensures sound { AreSoundLinks self.now.mesh }
        ensures valid { IsValidMesh self.now.mesh }
    {
        self.face_edges[f as usize - 1]
    }

    /// An edge that starts at vertex `v`, if there is one.
    #[tactic(auto, using(crate::proofs::Lists::VertexLists::vertex_counts))]
    pub fn out_edge(&self, v: u32) -> Option<u32>
        requires { v < length self.now.mesh.out_edges }
        ensures value { result ≡ out_edge self.now.mesh v }
        ensures valid { IsValidMesh self.now.mesh }
    {
        let edge = self.vertices[v as usize].out_edge;
        if edge == NO_EDGE { None } else { Some(edge) }
    }

    /// The data of vertex `v`.
    #[tactic(auto, using(crate::proofs::Lists::VertexLists::vertex_counts))]
    pub fn vertex_data(&self, v: u32) -> &V
        requires { v < length self.now.values }
        ensures { slice_get self.now.values v ≡ Some result.now }
    {
        &self.vertices[v as usize].value
    }

    /// An edge with the outer face on its left, if there is an edge.
    pub fn outer_edge(&self) -> Option<u32>
        ensures value { result ≡ self.now.mesh.outer_edge }
        ensures valid { IsValidMesh self.now.mesh }
    {
        self.outer_edge
    }
}
