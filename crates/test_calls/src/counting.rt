//! A shape that counts how often it is asked of an edge.
ghost use Rattle.std.specs.Prelude.{◌≡◌, ◌↔◌, ◌≤ℤ◌, pos, All, IsTrue};
ghost use Rattle.plane_theorems.specs.{HasPointIn};
ghost use Rattle.{delaunay_core.specs.place_of, plane.specs.InRange, plane.specs.whole as fraction};

use delaunay_core::math::PlaneTests;
use delaunay_core::point::{Point2, SpadeNum};
use delaunay_shapes::{DistanceMetric, RectangleMetric};
use std::cell::Cell;

/// A shape, with how often it was asked.
#[derive(Drop)]
pub struct Counting<M: Drop> {
    metric: M,
    asked: Cell<u32>,
}

/// A rectangle between two corners in range that counts.
pub fn counting_rectangle(lower: Point2<i64>, upper: Point2<i64>) -> Counting<RectangleMetric<i64>>
    requires lower { InRange (place_of (λ z. z) lower) }
    requires upper { InRange (place_of (λ z. z) upper) }
    ensures { result.metric.lower ≡ lower }
{
    Counting {
        metric: RectangleMetric::new(lower, upper),
        asked: Cell::new(0),
    }
}

impl<M: Drop> Counting<M> {
    pub fn asked(&self) -> u32 {
        self.asked.get()
    }
}

impl<S: SpadeNum, M: DistanceMetric<S>> DistanceMetric<S> for Counting<M> {
    ghost shape = { λ c. M.shape c.metric };

    ghost own_points = { λ c. M.own_points c.metric };

    ghost meets = { λ c. M.meets c.metric };

    ghost distance = { λ c. M.distance c.metric };

    fn is_edge_inside<P: PlaneTests<S>>(&self, points: (Point2<S>, Point2<S>), tests: &P) -> bool
        requires own_covered { All (P.covered tests.now) (M.own_points self.now.metric) }
        requires start_covered { P.covered tests.now (place_of S.whole points.0) }
        requires end_covered { P.covered tests.now (place_of S.whole points.1) }
        ensures answer { result ≡ M.meets self.now.metric (place_of S.whole points.0)
            (place_of S.whole points.1) }
        ensures inside { IsTrue result ↔ HasPointIn (M.shape self.now.metric)
            (place_of S.whole points.0) (place_of S.whole points.1) }
    {
        self.asked.set(self.asked.get().wrapping_add(1));
        self.metric.is_edge_inside(points, tests)
    }

    fn distance_to_point(&self, point: Point2<S>) -> i64
        requires { InRange (place_of S.whole point) }
        ensures value { result ≡ M.distance self.now.metric (place_of S.whole point) }
        ensures inside { (result ≤ℤ pos 0) ↔ M.shape self.now.metric
            (fraction (place_of S.whole point)) }
    {
        self.metric.distance_to_point(point)
    }
}
