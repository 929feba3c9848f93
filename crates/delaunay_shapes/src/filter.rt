//! A look at each edge or vertex of a mesh.
ghost use Rattle.std.specs.Prelude.{All, IfOk, map};
ghost use Rattle.delaunay_shapes.specs.Left.{edges_left, GivesEdgesIn, GivesVerticesIn};
ghost use Rattle.delaunay_shapes.specs.Left.{vertices_left};

use crate::positions::spot_of;
use crate::{DistanceMetric, EdgesInShapeIterator, VerticesInShapeIterator};
use delaunay_core::math::PlaneTests;
use delaunay_core::point::HasPosition;
use half_edge_dcel::{Dcel, MeshViews};
use half_edge_links::{FixedUndirectedEdgeHandle, FixedVertexHandle};
use std::alloc::{AllocError, Global};

/// The edges with a point in a shape, each once, by a look at all edges. The tests have to cover
/// the shape's own points and the vertices.
///
/// `AllocError` comes where memory for the list of these edges is refused, and only from this call:
/// the iterator takes none.
pub fn edges_by_filter<
    'a,
    V: HasPosition,
    DE,
    UE,
    F,
    M: DistanceMetric<V::Scalar>,
    P: PlaneTests<V::Scalar>,
>(
    dcel: &'a Dcel<V, DE, UE, F>,
    metric: &M,
    tests: &P,
    alloc: Global,
) -> Result<EdgesInShapeIterator<'a, V, DE, UE, F>, AllocError>
    requires own_covered { All (P.covered tests.now) (M.own_points metric.now) }
    requires covered { All (P.covered tests.now) (map V.place dcel.now.vertices) }
    ensures { IfOk result (λ it. GivesEdgesIn (M.shape metric.now) V.place dcel.entry
        (edges_left it)) }
{
    let mut edges = Vec::new(alloc);
    for index in 0..dcel.num_undirected_edges() {
        let edge = FixedUndirectedEdgeHandle::from_index(index as u32);
        if metric.is_handle_inside(dcel.undirected_edge(edge), tests) {
            edges.push(edge.as_directed())?;
        }
    }
    Ok(EdgesInShapeIterator {
        dcel,
        edges,
        next: 0,
    })
}

/// The vertices in a shape, each once, by a look at all vertices. The tests have to cover these,
/// and none is asked.
///
/// `AllocError` comes where memory for the list of these vertices is refused, and only from this
/// call: the iterator takes none.
pub fn vertices_by_filter<
    'a,
    V: HasPosition,
    DE,
    UE,
    F,
    M: DistanceMetric<V::Scalar>,
    P: PlaneTests<V::Scalar>,
>(
    dcel: &'a Dcel<V, DE, UE, F>,
    metric: &M,
    tests: &P,
    alloc: Global,
) -> Result<VerticesInShapeIterator<'a, V, DE, UE, F>, AllocError>
    requires { All (P.covered tests.now) (map V.place dcel.now.vertices) }
    ensures { IfOk result (λ it. GivesVerticesIn (M.shape metric.now) V.place dcel.entry
        (vertices_left it)) }
{
    let mut vertices = Vec::new(alloc);
    for index in 0..dcel.num_vertices() {
        let vertex = FixedVertexHandle::from_index(index as u32);
        if metric.is_point_inside(spot_of(dcel.vertex(vertex))) {
            vertices.push(vertex)?;
        }
    }
    Ok(VerticesInShapeIterator {
        dcel,
        vertices,
        next: 0,
    })
}
