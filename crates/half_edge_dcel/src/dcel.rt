//! The mesh with its data, and reads of them.
ghost use Rattle.std.specs.Prelude.{◌≡◌, ◌<◌, ◌≤◌, ◌+◌, ◌*◌, ◌∷◌, []};
ghost use Rattle.std.specs.Prelude.{length, Some, slice_get, slice_set};
ghost use Rattle.half_edge_links.specs.{empty, MAX_ELEMENTS};
ghost use Rattle.half_edge_dcel.specs.MeshContents.{IsMeshWithData};

use half_edge_links::{
    FixedDirectedEdgeHandle, FixedFaceHandle, FixedUndirectedEdgeHandle, FixedVertexHandle, Links,
};
use std::alloc::Global;
use std::marker::Model;

/// A mesh with data on its vertices, directed edges, undirected edges and faces.
#[derive(Drop)]
pub struct Dcel<V, DE, UE, F> {
    // How the parts lie to each other, and the data of the vertices.
    pub(crate) links: Links<V>,
    pub(crate) directed: Vec<DE>,
    pub(crate) undirected: Vec<UE>,
    pub(crate) outer: F,
    // Of the faces from face 1 on.
    pub(crate) faces: Vec<F>,
}

impl<V, DE, UE, F> Model for Dcel<V, DE, UE, F> {
    ghost use Rattle.std.specs.Prelude.{◌*◌, min, length, vec_capacity};
    ghost use Rattle.half_edge_dcel.specs.MeshContents.{Contents, FitsMesh};

    ghost Value = { Contents V DE UE F };

    ghost view = { λ d. record {
      mesh = d.links.mesh;
      vertices = d.links.values;
      directed = d.directed.items;
      undirected = d.undirected.items;
      outer = d.outer;
      faces = d.faces.items;
      room = record {
        vertices = d.links.room.vertices;
        edges = min d.links.room.edges
            (min (vec_capacity d.directed) (2 * vec_capacity d.undirected));
        faces = min d.links.room.faces (vec_capacity d.faces);
      };
    } };

    ghost invariant = { λ d. FitsMesh d.links.mesh (length d.links.values)
        (length d.directed.items) (length d.undirected.items) (length d.faces.items) };
}

impl<V, DE, UE, F> Dcel<V, DE, UE, F> {
    /// A mesh with no vertex, no edge and the outer face, which takes no memory.
    pub fn new(alloc: Global) -> Self
    where
        F: Default,
        ensures mesh { result.mesh ≡ empty }
        ensures vertices { result.vertices ≡ [] }
        ensures directed { result.directed ≡ [] }
        ensures undirected { result.undirected ≡ [] }
        ensures outer { F.is_default result.outer }
        ensures faces { result.faces ≡ [] }
    {
        Dcel {
            links: Links::new(alloc),
            directed: Vec::new(alloc),
            undirected: Vec::new(alloc),
            outer: F::default(),
            faces: Vec::new(alloc),
        }
    }

    /// Gives a proof what holds of each mesh. It does nothing when it runs.
    pub fn recall_invariant(&self)
        ensures whole { IsMeshWithData self.now }
        ensures few_vertices { length self.now.vertices ≤ MAX_ELEMENTS }
        ensures few_edges { length self.now.directed ≤ MAX_ELEMENTS }
        ensures few_faces { length self.now.faces < MAX_ELEMENTS }
    {
        self.links.recall_invariant();
    }

    /// How the parts lie to each other.
    pub fn links(&self) -> &Links<V>
        ensures mesh { result.now.mesh ≡ self.now.mesh }
        ensures vertices { length result.now.mesh.out_edges ≡ length self.now.vertices }
        ensures edges { length result.now.mesh.half_edges ≡ length self.now.directed }
        ensures faces { length result.now.mesh.face_edges ≡ length self.now.faces }
        ensures whole { IsMeshWithData self.now }
    {
        self.links.recall_invariant();
        &self.links
    }

    /// How many vertices there are.
    pub fn num_vertices(&self) -> usize
        ensures value { result ≡ length self.now.vertices }
        ensures small { result ≤ MAX_ELEMENTS }
        ensures whole { IsMeshWithData self.now }
    {
        self.links.vertex_count()
    }

    /// How many directed edges there are, two for each undirected one.
    pub fn num_directed_edges(&self) -> usize
        ensures value { result ≡ length self.now.directed }
        ensures small { result ≤ MAX_ELEMENTS }
        ensures whole { IsMeshWithData self.now }
    {
        self.links.half_edge_count()
    }

    /// How many undirected edges there are.
    pub fn num_undirected_edges(&self) -> usize
        ensures value { result ≡ length self.now.undirected }
        ensures small { 2 * result ≤ MAX_ELEMENTS }
        ensures whole { IsMeshWithData self.now }
    {
        self.links.half_edge_count() / 2
    }

    /// How many faces there are beside the outer one.
    pub fn num_inner_faces(&self) -> usize
        ensures value { result ≡ length self.now.faces }
        ensures small { result < MAX_ELEMENTS }
        ensures whole { IsMeshWithData self.now }
    {
        self.links.inner_face_count()
    }

    /// How many faces there are, the outer one among them.
    pub fn num_faces(&self) -> usize
        ensures value { result ≡ length self.now.faces + 1 }
        ensures small { result ≤ MAX_ELEMENTS }
        ensures whole { IsMeshWithData self.now }
    {
        self.num_inner_faces() + 1
    }

    /// The data of a vertex.
    pub fn vertex_data(&self, vertex: FixedVertexHandle) -> &V
        requires { vertex < length self.now.vertices }
        ensures { slice_get self.now.vertices vertex ≡ Some result.now }
    {
        self.links.vertex_data(vertex.index())
    }

    /// Gives a vertex new data, and gives back the old ones.
    pub fn update_vertex(&mut self, vertex: FixedVertexHandle, value: V) -> V
        requires { vertex < length self.old.vertices }
        ensures former { slice_get self.old.vertices vertex ≡ Some result }
        ensures contents { self.new ≡ record self.old {
          vertices = slice_set self.old.vertices vertex value;
        } }
    {
        self.links.update_vertex(vertex.index(), value)
    }

    /// The data of a directed edge.
    pub fn directed_edge_data(&self, edge: FixedDirectedEdgeHandle) -> &DE
        requires { edge < length self.now.directed }
        ensures { slice_get self.now.directed edge ≡ Some result.now }
    {
        &self.directed[edge.index() as usize]
    }

    /// The data of an undirected edge.
    pub fn undirected_edge_data(&self, edge: FixedUndirectedEdgeHandle) -> &UE
        requires { edge < length self.now.undirected }
        ensures { slice_get self.now.undirected edge ≡ Some result.now }
    {
        &self.undirected[edge.index() as usize]
    }

    /// The data of a face, the outer one among them.
    pub fn face_data(&self, face: FixedFaceHandle) -> &F
        requires { face ≤ length self.now.faces }
        ensures { slice_get (self.now.outer ∷ self.now.faces) face ≡ Some result.now }
    {
        if face.is_outer() {
            &self.outer
        } else {
            &self.faces[face.index() as usize - 1]
        }
    }
}
