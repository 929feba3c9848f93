//! Queries of many points in one call.
ghost use Rattle.std.specs.Prelude.{◌≡◌, ◌↔◌, All, IsTrue};
ghost use Rattle.c_calls.specs.Kept.{kept_place};
ghost use Rattle.c_calls.specs.Queries.{FindsKeptNearest, IsLocationIn, IsNearestAnswer};
ghost use Rattle.c_calls.specs.{Queries.raw_location, Written.Answering, Written.IsRawInRange};

use crate::kept::{AnyTriangulation, PlainPoints};
use crate::lists::face_index;
use crate::raw::NumberedPoint;
use crate::statuses::{IS_CONSTRAINED, NONE, TOO_LARGE, TOO_SHORT, WELL};
use crate::{Query, RawLocation, RawPoint};
use delaunay_core::math::validate_vertex;
use delaunay_core::point::Point2;
use delaunay_interface::Triangulation;
use delaunay_location::PositionInTriangulation;
use exact_predicates::ExactTests;
use std::alloc::Global;

pub const ON_VERTEX: u32 = 0;

pub const ON_EDGE: u32 = 1;

pub const IN_FACE: u32 = 2;

pub const OUTSIDE: u32 = 3;

pub const NOWHERE: u32 = 4;

/// A point of C's.
pub fn point_of(point: &RawPoint) -> Point2<i32>
    ensures { result ≡ record { x = point.now.x; y = point.now.y } }
{
    Point2 {
        x: point.x,
        y: point.y,
    }
}

/// Whether both coordinates are in range.
pub fn is_in_range(point: &RawPoint) -> bool
    ensures { IsTrue result ↔ IsRawInRange point.now }
{
    validate_vertex(&point_of(point)).is_ok()
}

/// Whether all coordinates are in range.
pub fn are_in_range(points: &[RawPoint]) -> bool
    ensures { IsTrue result ↔ All IsRawInRange points.now }
{
    for point in points {
        if !is_in_range(point) {
            return false;
        }
    }
    true
}

// A location, for C.
fn raw_location(location: PositionInTriangulation) -> RawLocation
    ensures { result ≡ raw_location location }
{
    match location {
        PositionInTriangulation::OnVertex(vertex) => RawLocation {
            kind: ON_VERTEX,
            index: vertex.index(),
        },
        PositionInTriangulation::OnEdge(edge) => RawLocation {
            kind: ON_EDGE,
            index: edge.as_undirected().index(),
        },
        PositionInTriangulation::OnFace(face) => RawLocation {
            kind: IN_FACE,
            index: face_index(face),
        },
        PositionInTriangulation::OutsideOfConvexHull(edge) => RawLocation {
            kind: OUTSIDE,
            index: edge.as_undirected().index(),
        },
        PositionInTriangulation::NoTriangulation => RawLocation {
            kind: NOWHERE,
            index: NONE,
        },
    }
}

// Where a point in range is, for C.
fn location_at<T: Triangulation<Vertex = NumberedPoint>>(
    points: &T,
    query: &RawPoint,
) -> RawLocation
    requires { IsRawInRange query.now }
    ensures { IsLocationIn kept_place (T.state points.now) query.now result }
{
    raw_location(points.locate(point_of(query), &ExactTests))
}

/// Where each point of a list is.
#[derive(Drop)]
pub struct Locate<'a> {
    pub queries: &'a [RawPoint],
}

impl<'a> Query for Locate<'a> {
    ghost use Rattle.c_calls.specs.Written.{Answering};

    type Item = RawLocation;

    type Told = ();

    ghost tells = { λ q v status _ _ old new. Answering q.queries.now v.IsLocation status old new };

    fn ask<T: Triangulation<Vertex = NumberedPoint>>(
        &self,
        points: &T,
        _alloc: Global,
        locations: &mut [RawLocation],
        _told: &mut (),
    ) -> u32 {
        let queries = self.queries;
        if locations.len() < queries.len() {
            return TOO_SHORT;
        }
        if !are_in_range(queries) {
            return TOO_LARGE;
        }
        for index in 0..queries.len() {
            locations[index] = location_at(points, &queries[index]);
        }
        WELL
    }
}

// A vertex nearest to a point in range, for C.
fn nearest_at(points: &PlainPoints, query: &RawPoint) -> u32
    requires { IsRawInRange query.now }
    ensures { IsNearestAnswer kept_place points.now query.now result }
{
    match points.nearest_neighbor(point_of(query), &ExactTests) {
        Some(vertex) => vertex.fix().index(),
        None => NONE,
    }
}

// Writes a vertex nearest to each point.
fn find_nearest(points: &PlainPoints, queries: &[RawPoint], vertices: &mut [u32]) -> u32
    ensures { Answering queries.now (IsNearestAnswer kept_place points.now) result vertices.old
        vertices.new }
{
    if vertices.len() < queries.len() {
        return TOO_SHORT;
    }
    if !are_in_range(queries) {
        return TOO_LARGE;
    }
    for index in 0..queries.len() {
        vertices[index] = nearest_at(points, &queries[index]);
    }
    WELL
}

impl AnyTriangulation {
    /// Writes a vertex nearest to each point.
    pub fn find_nearest(&self, queries: &[RawPoint], vertices: &mut [u32]) -> u32
        ensures { FindsKeptNearest self.now queries.now result vertices.old vertices.new }
    {
        match self {
            AnyTriangulation::Plain(points) => find_nearest(points, queries, vertices),
            AnyTriangulation::Constrained(_) => IS_CONSTRAINED,
        }
    }
}
