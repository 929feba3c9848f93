//! Vertices with a number beside their position, and vertices, edges and points that a line names.
ghost use Rattle.std.specs.Prelude.{◌<◌, ◌≤ℤ◌, length, pos, IfSome};
ghost use Rattle.{delaunay_core.specs.place_of, plane.specs.InRange};

use delaunay_core::math::validate_vertex;
use delaunay_core::point::{HasPosition, Point2};
use delaunay_interface::Triangulation;
use half_edge_links::{FixedUndirectedEdgeHandle, FixedVertexHandle};
use std::alloc::{AllocError, Global};
use test_reader::Call;

/// A vertex with a number beside its position.
#[derive(Clone, Copy, Debug, PartialEq, Eq)]
pub struct TaggedVertex {
    pub position: Point2<i64>,
    pub tag: i64,
}

impl HasPosition for TaggedVertex {
    type Scalar = i64;

    ghost place = { λ v. place_of (λ z. z) v.position };

    fn position(&self) -> Point2<i64> {
        self.position
    }
}

/// The vertex that the first three numbers of a line name: its position and its number.
pub fn vertex_of(call: &Call<'_>) -> TaggedVertex {
    let [x, y, tag, ..] = call.numbers;
    TaggedVertex {
        position: Point2::new(x, y),
        tag,
    }
}

/// Vertices at the positions of a line, each with its place in the list as its number.
pub fn listed_vertices(call: &Call<'_>, alloc: Global) -> Result<Vec<TaggedVertex>, AllocError> {
    let mut vertices = Vec::new(alloc);
    let mut tag = 0i64;
    for position in call.positions(alloc)? {
        vertices.push(TaggedVertex { position, tag })?;
        tag = tag.wrapping_add(1);
    }
    Ok(vertices)
}

/// A point, if it is in range.
pub fn in_range(point: Point2<i64>) -> Option<Point2<i64>>
    ensures { IfSome result (λ p. InRange (place_of (λ z. z) p)) }
{
    if validate_vertex(&point).is_err() {
        return None;
    }
    Some(point)
}

/// Two points, if both are in range.
pub fn both_in_range(points: (Point2<i64>, Point2<i64>)) -> Option<(Point2<i64>, Point2<i64>)>
    ensures first { IfSome result (λ both. InRange (place_of (λ z. z) both.0)) }
    ensures second { IfSome result (λ both. InRange (place_of (λ z. z) both.1)) }
{
    let (first, second) = points;
    if validate_vertex(&first).is_err() || validate_vertex(&second).is_err() {
        return None;
    }
    Some((first, second))
}

/// A centre and a squared radius, if the one is in range and the other not negative.
pub fn circle_in_range(circle: (Point2<i64>, i64)) -> Option<(Point2<i64>, i64)>
    ensures center { IfSome result (λ c. InRange (place_of (λ z. z) c.0)) }
    ensures radius { IfSome result (λ c. pos 0 ≤ℤ c.1) }
{
    let (center, radius_2) = circle;
    if validate_vertex(&center).is_err() || radius_2 < 0 {
        return None;
    }
    Some((center, radius_2))
}

/// The vertex with an index, if it is there.
pub fn vertex_at<T: Triangulation>(points: &T, index: u32) -> Option<FixedVertexHandle>
    ensures { IfSome result (λ vertex. vertex < length (T.state points.now).vertices) }
{
    if index as usize >= points.num_vertices() {
        return None;
    }
    Some(FixedVertexHandle::from_index(index))
}

/// The vertices with two indexes, if both are there.
pub fn both<T: Triangulation>(
    points: &T,
    first: u32,
    second: u32,
) -> Option<(FixedVertexHandle, FixedVertexHandle)>
    ensures first { IfSome result (λ both. both.0 < length (T.state points.now).vertices) }
    ensures second { IfSome result (λ both. both.1 < length (T.state points.now).vertices) }
{
    let count = points.num_vertices();
    if first as usize >= count || second as usize >= count {
        return None;
    }
    let first = FixedVertexHandle::from_index(first);
    Some((first, FixedVertexHandle::from_index(second)))
}

/// The edge that joins two vertices.
pub fn edge_between<T: Triangulation>(
    points: &T,
    from: u32,
    to: u32,
) -> Option<FixedUndirectedEdgeHandle>
    ensures { IfSome result (λ edge. edge < length (T.state points.now).undirected) }
{
    let from = vertex_at(points, from)?;
    let Some(edge) = points.get_edge_from_neighbors(from, FixedVertexHandle::from_index(to)) else {
        return None;
    };
    let edge = edge.fix().as_undirected();
    if edge.index() as usize >= points.num_undirected_edges() {
        return None;
    }
    Some(edge)
}
