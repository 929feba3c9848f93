//! Vertices and edges in circles and rectangles.
ghost use Rattle.std.specs.Prelude.{ℕ, List, All, IfErr, IfOk};
ghost use Rattle.plane.specs.{Fraction, InRange};
ghost use Rattle.delaunay_shapes.specs.{edges_left, HasStartAt, vertices_left};
ghost use Rattle.c_calls.specs.Links.{AreFew, indexes_in};
ghost use Rattle.c_calls.specs.Metrics.{FindsPart, IsCircleOf, IsRectangleOf};
ghost use Rattle.c_calls.specs.{Shapes.IsNoCircle, Shapes.IsNoRectangle, View.View, View.view_of};
ghost use Rattle.c_calls.specs.Written.{IsRawInRange, plain_point, Tells};

use crate::queries::point_of;
use crate::raw::NumberedPoint;
use crate::statuses::{NEGATIVE, NO_SUCH_KIND, OUT_OF_MEMORY, TOO_LARGE};
use crate::told::{put, status_by_room};
use crate::{Query, RawPoint, RawShape, is_in_range};
use delaunay_extensions::FloatTriangulation;
use delaunay_interface::Triangulation;
use delaunay_shapes::{
    CircleMetric, DistanceMetric, EdgesInShapeIterator, RectangleMetric, VerticesInShapeIterator,
};
use exact_predicates::ExactTests;
use std::alloc::Global;

pub const CIRCLE: u32 = 0;

pub const RECTANGLE: u32 = 1;

// Writes the indexes of vertices as far as there is room, and how many there are.
fn write_vertices<V, DE, UE, F>(
    found: VerticesInShapeIterator<'_, V, DE, UE, F>,
    vertices: &mut [u32],
    length: &mut usize,
) -> u32
    requires { AreFew (vertices_left found) }
    ensures { Tells (indexes_in (vertices_left found.entry)) result length.new vertices.old
        vertices.new }
{
    let mut count = 0usize;
    for vertex in found {
        put(vertices, count, vertex.fix().index());
        count += 1;
    }
    *length = count;
    status_by_room(vertices.len(), count)
}

// Writes the indexes of edges as far as there is room, and how many there are.
fn write_found_edges<V, DE, UE, F>(
    found: EdgesInShapeIterator<'_, V, DE, UE, F>,
    edges: &mut [u32],
    length: &mut usize,
) -> u32
    requires { AreFew (edges_left found) }
    ensures { Tells (indexes_in (edges_left found.entry)) result length.new edges.old edges.new }
{
    let mut count = 0usize;
    for edge in found {
        put(edges, count, edge.fix().index());
        count += 1;
    }
    *length = count;
    status_by_room(edges.len(), count)
}

// The circle of a shape, or why it may not be asked about.
fn circle_of(shape: &RawShape) -> Result<CircleMetric<i32>, u32>
    ensures circle { IfOk result (λ m. IsCircleOf shape.now m.center m.radius_2) }
    ensures refused { IfErr result (IsNoCircle shape.now) }
{
    if !is_in_range(&shape.first) {
        return Err(TOO_LARGE);
    }
    if shape.radius_2 < 0 {
        return Err(NEGATIVE);
    }
    Ok(CircleMetric::new(point_of(&shape.first), shape.radius_2))
}

// The rectangle of a shape, or why it may not be asked about.
fn rectangle_of(shape: &RawShape) -> Result<RectangleMetric<i32>, u32>
    ensures rectangle { IfOk result (λ m. IsRectangleOf shape.now m.lower m.upper) }
    ensures refused { IfErr result (IsNoRectangle shape.now) }
{
    if !is_in_range(&shape.first) || !is_in_range(&shape.second) {
        return Err(TOO_LARGE);
    }
    Ok(RectangleMetric::new(point_of(&shape.first), point_of(&shape.second)))
}

/// What a query looks for in a shape.
pub trait Part {
    // Whether a list of indexes has exactly those in a shape.
    ghost are_in: { View → (Fraction → Type 0) → List ℕ → Type 0 };

    /// Writes the indexes of those in a shape that may be asked about, as far as there is room, and
    /// how many there are. The search begins at `start`.
    fn find<T: Triangulation<Vertex = NumberedPoint>, M: DistanceMetric<i32>>(
        points: &T,
        alloc: Global,
        metric: &M,
        start: &RawPoint,
        indexes: &mut [u32],
        length: &mut usize,
    ) -> u32
        requires own_in_range { All InRange (M.own_points metric.now) }
        requires start_in_range { IsRawInRange start.now }
        requires begins { HasStartAt (M.shape metric.now) (plain_point start.now) }
        ensures { FindsPart are_in (view_of T.Constraints.constraints (T.state points.now))
            (M.shape metric.now) result length.old length.new indexes.old indexes.new };
}

/// Vertices.
#[derive(Drop)]
pub struct Vertices;

impl Part for Vertices {
    ghost use Rattle.delaunay_shapes.specs.{AreVerticesInShape};

    ghost are_in = { λ v Shape. AreVerticesInShape Shape v.drawing.points };

    fn find<T: Triangulation<Vertex = NumberedPoint>, M: DistanceMetric<i32>>(
        points: &T,
        alloc: Global,
        metric: &M,
        start: &RawPoint,
        vertices: &mut [u32],
        length: &mut usize,
    ) -> u32 {
        points.recall_invariant();
        match points.get_vertices_in_shape(metric, point_of(start), &ExactTests, alloc) {
            Ok(found) => write_vertices(found, vertices, length),
            Err(_) => OUT_OF_MEMORY,
        }
    }
}

/// Edges, each if it has a point in the shape.
#[derive(Drop)]
pub struct Edges;

impl Part for Edges {
    ghost use Rattle.delaunay_shapes.specs.{AreEdgesInShape};

    ghost are_in = { λ v Shape. AreEdgesInShape Shape v.drawing.points v.links };

    fn find<T: Triangulation<Vertex = NumberedPoint>, M: DistanceMetric<i32>>(
        points: &T,
        alloc: Global,
        metric: &M,
        start: &RawPoint,
        edges: &mut [u32],
        length: &mut usize,
    ) -> u32 {
        points.recall_invariant();
        match points.get_edges_in_shape(metric, point_of(start), &ExactTests, alloc) {
            Ok(found) => write_found_edges(found, edges, length),
            Err(_) => OUT_OF_MEMORY,
        }
    }
}

/// The vertices or the edges in a shape.
#[derive(Drop)]
pub struct InShape<K> {
    pub part: K,
    pub shape: RawShape,
}

impl<K: Part> Query for InShape<K> {
    ghost use Rattle.c_calls.specs.Shapes.{FindsIn};

    type Item = u32;

    type Told = usize;

    ghost tells = { λ q v status was told old new. FindsIn (K.are_in v) q.shape status was told old
        new };

    #[tactic(auto, using(crate::proofs::Found::shape_query))]
    fn ask<T: Triangulation<Vertex = NumberedPoint>>(
        &self,
        points: &T,
        alloc: Global,
        indexes: &mut [u32],
        length: &mut usize,
    ) -> u32 {
        let start = &self.shape.first;
        match self.shape.kind {
            CIRCLE => match circle_of(&self.shape) {
                Ok(circle) => K::find(points, alloc, &circle, start, indexes, length),
                Err(status) => status,
            },
            RECTANGLE => match rectangle_of(&self.shape) {
                Ok(rectangle) => K::find(points, alloc, &rectangle, start, indexes, length),
                Err(status) => status,
            },
            _ => NO_SUCH_KIND,
        }
    }
}
