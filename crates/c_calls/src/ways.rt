//! Ways through free faces.
ghost use Rattle.std.specs.Prelude.{◌≡◌, map, IfOk};
ghost use Rattle.c_calls.specs.{Kept.kept_place, Queries.MayAskLine, Ways.IsRawWay, Ways.raw_point};
ghost use Rattle.{c_calls.specs.Written.Tells, delaunay_legalization.specs.triangulation_of};

use crate::lines::may_ask_line;
use crate::queries::point_of;
use crate::raw::NumberedPoint;
use crate::sight::FreeBytes;
use crate::statuses::{OUT_OF_MEMORY, TOO_LARGE, UNEQUAL_LENGTHS};
use crate::told::{put, status_by_room};
use crate::{Query, RawPoint};
use delaunay_core::point::Point2;
use delaunay_interface::Triangulation;
use delaunay_ways::find_way;
use exact_predicates::ExactTests;
use std::alloc::{AllocError, Global};

// A point, for C.
fn raw_point(point: &Point2<i32>) -> RawPoint
    ensures { result ≡ raw_point point.now }
{
    RawPoint {
        x: point.x,
        y: point.y,
    }
}

// Writes points as far as there is room, and how many they are.
fn write_points(found: &[Point2<i32>], points: &mut [RawPoint], length: &mut usize) -> u32
    ensures { Tells (map raw_point found.now) result length.new points.old points.new }
{
    for index in 0..found.len() {
        put(points, index, raw_point(&found[index]));
    }
    *length = found.len();
    status_by_room(points.len(), found.len())
}

// A way through free faces, which has no points where there is none.
fn way_between<T: Triangulation<Vertex = NumberedPoint>>(
    points: &T,
    from: &RawPoint,
    to: &RawPoint,
    bytes: &[u8],
    alloc: Global,
) -> Result<Vec<Point2<i32>>, AllocError>
    requires { MayAskLine from.now to.now }
    ensures { IfOk result (λ way. IsRawWay (triangulation_of kept_place (T.state points.now))
        from.now to.now bytes.now (map raw_point way.items)) }
{
    points.recall_invariant();
    let (start, end) = (point_of(from), point_of(to));
    match find_way(points, start, end, &FreeBytes { bytes }, &ExactTests, alloc)? {
        Some(way) => Ok(way),
        None => Ok(Vec::new(alloc)),
    }
}

/// A way from one point to another through free faces, by a byte for each face. It has no points
/// where there is none.
#[derive(Drop)]
pub struct FindWay<'a> {
    pub from: RawPoint,
    pub to: RawPoint,
    pub bytes: &'a [u8],
}

impl<'a> Query for FindWay<'a> {
    ghost use Rattle.c_calls.specs.Ways.{FindsWay};

    type Item = RawPoint;

    type Told = usize;

    ghost tells = { λ q v status was told old new. FindsWay v.drawing q.from q.to q.bytes.now status
        was told old new };

    fn ask<T: Triangulation<Vertex = NumberedPoint>>(
        &self,
        points: &T,
        alloc: Global,
        way: &mut [RawPoint],
        length: &mut usize,
    ) -> u32 {
        if self.bytes.len() != points.num_inner_faces() {
            return UNEQUAL_LENGTHS;
        }
        if !may_ask_line(&self.from, &self.to) {
            return TOO_LARGE;
        }
        match way_between(points, &self.from, &self.to, self.bytes, alloc) {
            Ok(found) => write_points(&found, way, length),
            Err(_) => OUT_OF_MEMORY,
        }
    }
}
