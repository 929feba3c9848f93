//! Vertices together with the mesh that they lie in.
ghost use Rattle.std.specs.Prelude.{◌≡◌, ◌<◌, ◌↔◌, length, slice_get, Some, ⊤};
ghost use Rattle.std.specs.Prelude.{IsNone, IfSome};
ghost use Rattle.{half_edge_dcel.specs.MeshContents.IsMeshWithData, half_edge_links.specs.out_edge};

use crate::edge_walk::EdgeWalk;
use crate::{CircularIterator, Dcel, DirectedEdgeHandle};
use half_edge_links::FixedVertexHandle;
use std::alloc::AllocError;

/// A vertex of a mesh. Two of them are equal where their indexes are.
#[derive_where(Copy, PartialEq, Eq, PartialOrd, Ord, Hash, Debug)]
pub struct VertexHandle<'a, V, DE, UE, F> {
    #[derive_where(skip)]
    pub(crate) dcel: &'a Dcel<V, DE, UE, F>,
    pub(crate) index: u32,
    ghost in_range: { index < length dcel.now.vertices },
}

impl<'a, V, DE, UE, F> Clone for VertexHandle<'a, V, DE, UE, F> {
    ghost is_clone = { λ it copy. (copy.dcel ≡ it.dcel) × (copy.index ≡ it.index) };

    ghost is_infallible = { λ _. ⊤ };

    fn clone(&self) -> Result<Self, AllocError> {
        Ok(*self)
    }
}

impl<'a, V, DE, UE, F> VertexHandle<'a, V, DE, UE, F> {
    ghost use Rattle.half_edge_dcel.specs.Rounds.{GivesRound, out_edges_left};

    /// The index of it.
    pub fn index(&self) -> u32
        ensures { result ≡ self.now.index }
    {
        self.index
    }

    /// The name of it alone.
    pub fn fix(&self) -> FixedVertexHandle
        ensures value { result ≡ self.now.index }
        ensures in_range { result < length self.now.dcel.now.vertices }
    {
        FixedVertexHandle::from_index(self.index)
    }

    /// The data of the vertex.
    pub fn data(&self) -> &'a V
        ensures { slice_get self.now.dcel.now.vertices self.now.index ≡ Some result.now }
    {
        self.dcel.vertex_data(self.fix())
    }

    /// An edge that starts here, if there is one.
    pub fn out_edge(&self) -> Option<DirectedEdgeHandle<'a, V, DE, UE, F>>
        ensures none { IsNone result ↔ IsNone (out_edge self.now.dcel.now.mesh self.now.index) }
        ensures edge { IfSome result (λ e. (e.dcel ≡ self.now.dcel) ×
            (out_edge self.now.dcel.now.mesh self.now.index ≡ Some e.index)) }
        ensures whole { IsMeshWithData self.now.dcel.now }
    {
        let index = self.dcel.links().out_edge(self.index)?;
        Some(DirectedEdgeHandle {
            dcel: self.dcel,
            index,
        })
    }

    /// The edges that start here, counterclockwise.
    pub fn out_edges(&self) -> CircularIterator<'a, V, DE, UE, F>
        ensures round { GivesRound self.now.dcel self.now.index (out_edges_left result) }
        ensures whole { IsMeshWithData self.now.dcel.now }
    {
        CircularIterator {
            walk: EdgeWalk::from(self.dcel, self.dcel.links().out_edge(self.index)),
        }
    }
}
