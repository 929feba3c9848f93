//! Whether an edge that crosses a segment can be turned towards it, and whether the edge that is
//! made then crosses too.
ghost use Rattle.std.specs.Prelude.{◌↔◌, IsTrue, MatchOption};
ghost use Rattle.{delaunay_core.specs.place_of, plane_theorems.specs.ComesAfterOnRight};
ghost use Rattle.delaunay_edit.specs.Crossing.{CornersTurn, IsWayBetween};

use delaunay_core::math::PlaneTests;
use delaunay_core::point::{Point2, SpadeNum};
use half_edge_links::FixedDirectedEdgeHandle;
use std::marker::Model;

// A segment, and the corners round an edge from `start` to `end`, of which one is ahead of it, on
// its left, and one behind it. The tests cover all of them.
#[derive(Drop)]
pub(crate) struct Turning<'a, S: SpadeNum, P: PlaneTests<S>> {
    pub(crate) from: Point2<S>,
    pub(crate) to: Point2<S>,
    pub(crate) start: Point2<S>,
    pub(crate) behind: Point2<S>,
    pub(crate) end: Point2<S>,
    pub(crate) ahead: Point2<S>,
    pub(crate) tests: &'a P,
}

impl<'a, S: SpadeNum, P: PlaneTests<S>> Model for Turning<'a, S, P> {
    ghost use Rattle.delaunay_core.specs.{place_of};
    ghost use Rattle.delaunay_edit.specs.Turning.{AreCovered, Corners};

    ghost Value = { Corners P };

    ghost view = { λ t. record {
      from = place_of S.whole t.from;
      to = place_of S.whole t.to;
      start = place_of S.whole t.start;
      behind = place_of S.whole t.behind;
      end = place_of S.whole t.end;
      ahead = place_of S.whole t.ahead;
      tests = t.tests.now;
    } };

    ghost invariant = { λ t. AreCovered (P.covered t.tests.now) (place_of S.whole t.from)
        (place_of S.whole t.to) (place_of S.whole t.start) (place_of S.whole t.behind)
        (place_of S.whole t.end) (place_of S.whole t.ahead) };
}

impl<'a, S: SpadeNum, P: PlaneTests<S>> Turning<'a, S, P> {
    // Whether the start of the edge is right of the way from the start of the segment to a point,
    // or on it and farther than the point.
    fn starts_after(&self, point: Point2<S>) -> bool
        requires { P.covered self.now.tests (place_of S.whole point) }
        ensures { IsTrue result ↔
            ComesAfterOnRight self.now.from (place_of S.whole point) self.now.start }
    {
        let side = self.tests.side(self.from, point, self.start);
        if !side.is_on_line() {
            return side.is_on_right_side();
        }
        self.from.distance_2(point) < self.from.distance_2(self.start)
    }

    // Where the edge can be turned towards the segment: in which direction the edge that this makes
    // crosses it, from its right to its left, if it does.
    pub(crate) fn way_made(
        &self,
        edge: FixedDirectedEdgeHandle,
    ) -> Option<Option<FixedDirectedEdgeHandle>>
        ensures { let t = self.now in MatchOption result
            (¬ CornersTurn t.from t.to t.start t.behind t.end t.ahead)
            (λ way. CornersTurn t.from t.to t.start t.behind t.end t.ahead ×
            IsWayBetween t.from t.to t.behind t.ahead edge way) }
    {
        let tests = self.tests;
        let at_start = tests.side(self.start, self.behind, self.ahead);
        let at_end = tests.side(self.behind, self.end, self.ahead);
        if !at_start.is_on_left_side() || !at_end.is_on_left_side() {
            return None;
        }
        // Where the edge that is made crosses, its right end has to come before the start.
        let behind = tests.side(self.from, self.to, self.behind);
        let ahead = tests.side(self.from, self.to, self.ahead);
        if behind.is_on_right_side() && ahead.is_on_left_side() {
            if !self.starts_after(self.behind) {
                return None;
            }
            let start = tests.side(self.behind, self.ahead, self.from);
            let end = tests.side(self.behind, self.ahead, self.to);
            if start.is_on_left_side() && end.is_on_right_side() {
                return Some(Some(edge.rev()));
            }
        } else if ahead.is_on_right_side() && behind.is_on_left_side() {
            if !self.starts_after(self.ahead) {
                return None;
            }
            let start = tests.side(self.ahead, self.behind, self.from);
            let end = tests.side(self.ahead, self.behind, self.to);
            if start.is_on_left_side() && end.is_on_right_side() {
                return Some(Some(edge));
            }
        }
        Some(None)
    }
}
