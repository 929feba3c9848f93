//! Iterators over the names of the parts of a mesh.
ghost use Rattle.std.specs.Prelude.{◌≡◌, ◌+◌, length};
ghost use Rattle.std.specs.List.{range_with_len};

use crate::Dcel;
use half_edge_links::{
    FixedDirectedEdgeIterator, FixedFaceIterator, FixedUndirectedEdgeIterator, FixedVertexIterator,
};

impl<V, DE, UE, F> Dcel<V, DE, UE, F> {
    /// The vertices by rising index.
    pub fn fixed_vertices(&self) -> FixedVertexIterator
        ensures { result ≡ range_with_len 0 (length self.now.vertices) }
    {
        FixedVertexIterator::new(0, self.num_vertices() as u32)
    }

    /// The directed edges by rising index.
    pub fn fixed_directed_edges(&self) -> FixedDirectedEdgeIterator
        ensures { result ≡ range_with_len 0 (length self.now.directed) }
    {
        FixedDirectedEdgeIterator::new(0, self.num_directed_edges() as u32)
    }

    /// The undirected edges by rising index.
    pub fn fixed_undirected_edges(&self) -> FixedUndirectedEdgeIterator
        ensures { result ≡ range_with_len 0 (length self.now.undirected) }
    {
        FixedUndirectedEdgeIterator::new(0, self.num_undirected_edges() as u32)
    }

    /// The faces by rising index, the outer one first.
    pub fn fixed_faces(&self) -> FixedFaceIterator
        ensures { result ≡ range_with_len 0 (length self.now.faces + 1) }
    {
        FixedFaceIterator::new(0, self.num_faces() as u32)
    }

    /// The faces but the outer one, by rising index.
    pub fn fixed_inner_faces(&self) -> FixedFaceIterator
        ensures { result ≡ range_with_len 1 (length self.now.faces) }
    {
        FixedFaceIterator::new(1, self.num_faces() as u32)
    }
}
