//! Faces together with the mesh that they lie in.
ghost use Rattle.std.specs.Prelude.{◌≡◌, ◌<◌, ◌≤◌, ◌∷◌, [], length};
ghost use Rattle.std.specs.Prelude.{slice_get, Some, ⊤, All, map, IsTrue};
ghost use Rattle.std.specs.Prelude.{◌↔◌};
ghost use Rattle.half_edge_links.specs.{face_edge, next, prev, triangle_at};
ghost use Rattle.half_edge_dcel.specs.MeshContents.{IsMeshWithData};

use crate::{Dcel, DirectedEdgeHandle, VertexHandle};
use half_edge_links::FixedFaceHandle;
use std::alloc::AllocError;

/// A face of a mesh: the outer one where its index is 0. Two of them are equal where their indexes
/// are.
#[derive_where(Copy, PartialEq, Eq, PartialOrd, Ord, Hash, Debug)]
pub struct FaceHandle<'a, V, DE, UE, F> {
    #[derive_where(skip)]
    pub(crate) dcel: &'a Dcel<V, DE, UE, F>,
    pub(crate) index: u32,
    ghost in_range: { index ≤ length dcel.now.faces },
}

impl<'a, V, DE, UE, F> Clone for FaceHandle<'a, V, DE, UE, F> {
    ghost is_clone = { λ it copy. (copy.dcel ≡ it.dcel) × (copy.index ≡ it.index) };

    ghost is_infallible = { λ _. ⊤ };

    fn clone(&self) -> Result<Self, AllocError> {
        Ok(*self)
    }
}

impl<'a, V, DE, UE, F> FaceHandle<'a, V, DE, UE, F> {
    /// The index of it.
    pub fn index(&self) -> u32
        ensures { result ≡ self.now.index }
    {
        self.index
    }

    /// The name of it alone.
    pub fn fix(&self) -> FixedFaceHandle
        ensures value { result ≡ self.now.index }
        ensures in_range { result ≤ length self.now.dcel.now.faces }
    {
        FixedFaceHandle::from_index(self.index)
    }

    /// The data of the face.
    pub fn data(&self) -> &'a F
        ensures { slice_get (self.now.dcel.now.outer ∷ self.now.dcel.now.faces) self.now.index ≡
            Some result.now }
    {
        self.dcel.face_data(self.fix())
    }

    /// Whether this is the outer face.
    pub fn is_outer(&self) -> bool
        ensures { IsTrue result ↔ (self.now.index ≡ 0) }
    {
        self.index == 0
    }

    /// An edge with this inner face on its left.
    pub fn adjacent_edge(&self) -> DirectedEdgeHandle<'a, V, DE, UE, F>
        requires { 0 < self.now.index }
        ensures dcel { result.dcel ≡ self.now.dcel }
        ensures index { result.index ≡ face_edge self.now.dcel.now.mesh self.now.index }
        ensures whole { IsMeshWithData self.now.dcel.now }
    {
        DirectedEdgeHandle {
            dcel: self.dcel,
            index: self.dcel.links().face_edge(self.index),
        }
    }

    /// The three edges with this inner face on their left, in their order round it.
    pub fn adjacent_edges(&self) -> [DirectedEdgeHandle<'a, V, DE, UE, F>; 3]
        requires { 0 < self.now.index }
        ensures dcel { All (λ e. e.dcel ≡ self.now.dcel) result }
        ensures indexes { let m = self.now.dcel.now.mesh in let e = face_edge m self.now.index in
            map (λ e. e.index) result ≡ e ∷ next m e ∷ prev m e ∷ [] }
    {
        let edge = self.adjacent_edge();
        [edge, edge.next(), edge.prev()]
    }

    /// The three corners of this inner face, in their order round it.
    pub fn vertices(&self) -> [VertexHandle<'a, V, DE, UE, F>; 3]
        requires { 0 < self.now.index }
        ensures dcel { All (λ v. v.dcel ≡ self.now.dcel) result }
        ensures indexes { let t = triangle_at self.now.dcel.now.mesh
            (face_edge self.now.dcel.now.mesh self.now.index) in
            map (λ v. v.index) result ≡ t.first ∷ t.second ∷ t.third ∷ [] }
    {
        let edge = self.adjacent_edge();
        [edge.from(), edge.to(), edge.prev_from()]
    }
}
