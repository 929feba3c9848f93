//! Iterators over the edges and vertices of a mesh that have a point in a shape.
ghost use Rattle.std.specs.Prelude.{◌<◌, length, All};
ghost use Rattle.std.specs.Iterator.{YieldsFirstBy, item_count};

use half_edge_dcel::{Dcel, MeshViews, UndirectedEdgeHandle, VertexHandle};
use half_edge_links::{FixedDirectedEdgeHandle, FixedVertexHandle};

/// The edges with a point in a shape, of which some are left: each once, in no promised order.
/// `next` takes no memory, and goes on giving `None` after the last.
///
/// ```
/// for edge in points.get_edges_in_rectangle(lower, upper, &ExactTests, rt.alloc())? {
///     println!(rt; "edge {}", edge.fix().index())?;
/// }
/// ```
#[derive(Drop)]
pub struct EdgesInShapeIterator<'a, V, DE, UE, F> {
    pub(crate) dcel: &'a Dcel<V, DE, UE, F>,
    pub(crate) edges: Vec<FixedDirectedEdgeHandle>,
    pub(crate) next: usize,
    ghost in_range: { All (λ e. e < length dcel.now.directed) edges.items },
}

impl<'a, V, DE, UE, F> Iterator for EdgesInShapeIterator<'a, V, DE, UE, F> {
    ghost use Rattle.delaunay_shapes.specs.Left.{edges_left};

    type Item = UndirectedEdgeHandle<'a, V, DE, UE, F>;

    ghost next_gives = { YieldsFirstBy (λ x. (x.dcel, x.index)) edges_left };

    ghost remaining = { item_count edges_left };

    fn next(&mut self) -> Option<UndirectedEdgeHandle<'a, V, DE, UE, F>> {
        if self.next >= self.edges.len() {
            return None;
        }
        let edge = self.edges[self.next];
        self.next += 1;
        Some(self.dcel.directed_edge(edge).as_undirected())
    }
}

/// The vertices in a shape, of which some are left: each once, in no promised order. `next` takes
/// no memory, and goes on giving `None` after the last.
///
/// ```
/// for vertex in points.get_vertices_in_circle(center, 25, &ExactTests, rt.alloc())? {
///     println!(rt; "vertex {}", vertex.fix().index())?;
/// }
/// ```
#[derive(Drop)]
pub struct VerticesInShapeIterator<'a, V, DE, UE, F> {
    pub(crate) dcel: &'a Dcel<V, DE, UE, F>,
    pub(crate) vertices: Vec<FixedVertexHandle>,
    pub(crate) next: usize,
    ghost in_range: { All (λ v. v < length dcel.now.vertices) vertices.items },
}

impl<'a, V, DE, UE, F> Iterator for VerticesInShapeIterator<'a, V, DE, UE, F> {
    ghost use Rattle.delaunay_shapes.specs.Left.{vertices_left};

    type Item = VertexHandle<'a, V, DE, UE, F>;

    ghost next_gives = { YieldsFirstBy (λ x. (x.dcel, x.index)) vertices_left };

    ghost remaining = { item_count vertices_left };

    fn next(&mut self) -> Option<VertexHandle<'a, V, DE, UE, F>> {
        if self.next >= self.vertices.len() {
            return None;
        }
        let vertex = self.vertices[self.next];
        self.next += 1;
        Some(self.dcel.vertex(vertex))
    }
}
