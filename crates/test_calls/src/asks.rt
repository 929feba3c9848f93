//! How often a search asks a shape of its own.
ghost use Rattle.std.specs.Prelude.{All};
ghost use Rattle.{plane.specs.InRange, test_calls.specs.Vertices.position_of};
ghost use Rattle.delaunay_legalization.specs.{IsTriangulated, state_of};

use crate::counting::counting_rectangle;
use crate::shapes::edge_indexes;
use crate::vertices::{TaggedVertex, both_in_range};
use delaunay_core::point::Point2;
use delaunay_extensions::FloatTriangulation;
use delaunay_shapes::edges_in_shape;
use exact_predicates::ExactTests;
use half_edge_dcel::Dcel;
use half_edge_links::FixedVertexHandle;
use std::alloc::Global;

// The mesh of a triangulation, whose vertices are in range.
fn mesh_of<T: FloatTriangulation<Vertex = TaggedVertex>>(
    triangulation: &T,
) -> &Dcel<TaggedVertex, T::DirectedEdge, T::UndirectedEdge, T::Face>
    ensures kept { IsTriangulated position_of (state_of result.now) }
    ensures in_range { All (λ v. InRange (position_of v)) result.now.vertices }
{
    triangulation.recall_invariant();
    triangulation.s()
}

/// How many edges a rectangle has, and whether the search for them asks it of fewer edges than
/// there are.
pub fn asks_fewer<T: FloatTriangulation<Vertex = TaggedVertex>>(
    points: &T,
    corners: (Point2<i64>, Point2<i64>),
    alloc: Global,
) -> Option<(usize, bool)> {
    let (lower, upper) = both_in_range(corners)?;
    let metric = counting_rectangle(lower, upper);
    let first = FixedVertexHandle::from_index(0);
    let mesh = mesh_of(points);
    let edges = edges_in_shape(mesh, &metric, lower, first, &ExactTests, alloc).ok()?;
    let is_fewer = (metric.asked() as usize) < points.num_undirected_edges();
    Some((edge_indexes(edges, alloc).ok()?.len(), is_fewer))
}
