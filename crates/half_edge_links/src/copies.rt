//! A copy of a mesh.
ghost use Rattle.half_edge_links.specs.Copied.{HoldsSame};

use crate::Links;
use std::alloc::AllocError;

impl<V: Clone> Clone for Links<V> {
    ghost is_clone = { HoldsSame V.is_clone };

    /// The same mesh with clones of the data, and with room for as much as it has at least.
    fn clone(&self) -> Result<Self, AllocError> {
        Ok(Links {
            vertices: self.vertices.clone()?,
            half_edges: self.half_edges.clone()?,
            outer_edge: self.outer_edge,
            face_edges: self.face_edges.clone()?,
        })
    }
}
