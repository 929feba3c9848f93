//! The edges and vertices in a shape, by a flood from its start.
ghost use Rattle.std.specs.Prelude.{map, All, IfOk};
ghost use Rattle.delaunay_core.specs.{place_of};
ghost use Rattle.delaunay_legalization.specs.{IsTriangulated, state_of};
ghost use Rattle.delaunay_shapes.specs.Left.{edges_left, GivesEdgesIn, GivesVerticesIn};
ghost use Rattle.delaunay_shapes.specs.{Left.vertices_left, Start.HasStartAt};

use crate::shape_search::ShapeSearch;
use crate::{DistanceMetric, EdgesInShapeIterator, VerticesInShapeIterator, vertices_by_filter};
use delaunay_core::math::PlaneTests;
use delaunay_core::point::{HasPosition, Point2};
use delaunay_legalization::Embedding;
use half_edge_dcel::Dcel;
use half_edge_links::FixedVertexHandle;
use std::alloc::{AllocError, Global};

/// The edges with a point in a shape, each once. The shape is a closed circle, and `start` its
/// centre, or a closed rectangle, and `start` its lower corner. The search begins at the vertex
/// `hint`, or at vertex 0 where there is no such vertex. The tests have to cover the shape's own
/// points and `start`, and have the vertices as sites.
///
/// `AllocError` comes where memory for the edges to begin with, for the marks of those that were
/// asked of, or for the list of those found is refused, and only from this call: the iterator takes
/// none.
pub fn edges_in_shape<
    'a,
    V: HasPosition,
    DE,
    UE,
    F,
    M: DistanceMetric<V::Scalar>,
    P: PlaneTests<V::Scalar>,
>(
    dcel: &'a Dcel<V, DE, UE, F>,
    metric: &M,
    start: Point2<V::Scalar>,
    hint: FixedVertexHandle,
    tests: &P,
    alloc: Global,
) -> Result<EdgesInShapeIterator<'a, V, DE, UE, F>, AllocError>
    requires kept { IsTriangulated V.place (state_of dcel.now) }
    requires sites { All (P.sites tests.now) (map V.place dcel.now.vertices) }
    requires own_covered { All (P.covered tests.now) (M.own_points metric.now) }
    requires start_covered { P.covered tests.now (place_of V.Scalar.whole start) }
    requires begins { HasStartAt (M.shape metric.now) (place_of V.Scalar.whole start) }
    ensures { IfOk result (λ it. GivesEdgesIn (M.shape metric.now) V.place dcel.entry
        (edges_left it)) }
{
    let search = ShapeSearch {
        embedding: Embedding { dcel, tests },
        metric,
        start,
    };
    let edges = search.edges_from(hint, alloc)?;
    Ok(EdgesInShapeIterator {
        dcel,
        edges,
        next: 0,
    })
}

/// The vertices in a shape, each once. The shape is a closed circle, and `start` its centre, or a
/// closed rectangle, and `start` its lower corner. The search begins at the vertex `hint`, or at
/// vertex 0 where there is no such vertex. The tests have to cover the shape's own points and
/// `start`, and have the vertices as sites.
///
/// `AllocError` comes where memory for the edges to begin with, for the marks of the edges that
/// were asked of, or for the lists of edges and vertices found is refused, and only from this call:
/// the iterator takes none.
pub fn vertices_in_shape<
    'a,
    V: HasPosition,
    DE,
    UE,
    F,
    M: DistanceMetric<V::Scalar>,
    P: PlaneTests<V::Scalar>,
>(
    dcel: &'a Dcel<V, DE, UE, F>,
    metric: &M,
    start: Point2<V::Scalar>,
    hint: FixedVertexHandle,
    tests: &P,
    alloc: Global,
) -> Result<VerticesInShapeIterator<'a, V, DE, UE, F>, AllocError>
    requires kept { IsTriangulated V.place (state_of dcel.now) }
    requires sites { All (P.sites tests.now) (map V.place dcel.now.vertices) }
    requires own_covered { All (P.covered tests.now) (M.own_points metric.now) }
    requires start_covered { P.covered tests.now (place_of V.Scalar.whole start) }
    requires begins { HasStartAt (M.shape metric.now) (place_of V.Scalar.whole start) }
    ensures { IfOk result (λ it. GivesVerticesIn (M.shape metric.now) V.place dcel.entry
        (vertices_left it)) }
{
    if dcel.num_vertices() < 2 {
        return vertices_by_filter(dcel, metric, tests, alloc);
    }
    let search = ShapeSearch {
        embedding: Embedding { dcel, tests },
        metric,
        start,
    };
    let vertices = search.vertices_from(hint, alloc)?;
    Ok(VerticesInShapeIterator {
        dcel,
        vertices,
        next: 0,
    })
}
