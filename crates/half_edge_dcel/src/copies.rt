//! A copy of a mesh with its data.
ghost use Rattle.half_edge_dcel.specs.Copied.{IsCopied};

use crate::Dcel;
use std::alloc::AllocError;

impl<V: Clone, DE: Clone, UE: Clone, F: Clone> Clone for Dcel<V, DE, UE, F> {
    ghost is_clone = { IsCopied V.is_clone DE.is_clone UE.is_clone F.is_clone };

    /// The same mesh with clones of all data, and room for as much as it has at least.
    fn clone(&self) -> Result<Self, AllocError> {
        Ok(Dcel {
            links: self.links.clone()?,
            directed: self.directed.clone()?,
            undirected: self.undirected.clone()?,
            outer: self.outer.clone()?,
            faces: self.faces.clone()?,
        })
    }
}
