//! The trait of hint generators.
ghost use Rattle.std.specs.Prelude.{◌≡◌, All, Some};
ghost use Rattle.plane.specs.{IsAtMost, IsAtMostOf, IsAtMostWith, IsAtMostWithout, Point};
ghost use Rattle.plane.specs.Hint.{IsNone};
ghost use Rattle.delaunay_core.specs.{Held.AreDistinct, Held.place_if, Held.places, Place.place_of};

use crate::math::PlaneTests;
use crate::point::{Point2, SpadeNum};
use half_edge_links::FixedVertexHandle;
use std::alloc::Global;

/// Tells a search at which vertex to begin. A triangulation tells its generator once of each
/// appended and of each removed vertex, and makes a new one where it is cleared. Any handle may be
/// answered, and no call is refused: a generator that finds no memory holds less.
///
/// It may keep positions of vertices, and the contracts say which at most: none where it is new,
/// those of the original in a copy, one more after an insertion, never a removed one, and those
/// handed in where it is initialised. Calls that are handed tests want the positions that it keeps,
/// and those of vertices that they tell of, to be sites of the tests, and a position that they ask
/// about to be covered. A triangulation sees to that.
///
/// ```
/// // Searches begin where the generator says, here a hierarchy:
/// let mut points: DelaunayTriangulation<Point2<i64>, (), (), (), HierarchyHintGenerator<i64>> =
///     DelaunayTriangulation::new(rt.alloc());
/// ```
pub trait HintGenerator<S: SpadeNum>: Drop {
    // The positions that it keeps. Calls with `&self` leave them, since they are read off the
    // value.
    ghost holds: { Self → Point → Type 0 };

    // The second is what a call of `duplicate` gave of the first. Only that call promises it.
    ghost is_duplicate: { Self → Self → Type 0 } = { λ _ _. Unit {0} };

    /// One that holds no position. It takes no memory.
    fn new(alloc: Global) -> Self
        ensures { IsNone (holds result) };

    /// A copy, which holds at most what this one does.
    fn duplicate(&self) -> Self
        ensures holds { IsAtMost (holds self.now) (holds result) }
        ensures given { is_duplicate self.now result };

    /// A vertex that is likely near a position, or a handle of none.
    fn get_hint<P: PlaneTests<S>>(&self, position: Point2<S>, tests: &P) -> FixedVertexHandle
        requires held { IsAtMost (P.sites tests.now) (holds self.now) }
        requires covered { P.covered tests.now (place_of S.whole position) };

    /// Tells of a vertex that a search ended at.
    fn notify_vertex_lookup(&self, vertex: FixedVertexHandle);

    /// Tells of a vertex that was appended, and of its position.
    fn notify_vertex_inserted<P: PlaneTests<S>>(
        &mut self,
        vertex: FixedVertexHandle,
        position: Point2<S>,
        tests: &P,
    )
        requires held { IsAtMost (P.sites tests.now) (holds self.old) }
        requires site { P.sites tests.now (place_of S.whole position) }
        ensures { IsAtMostWith (holds self.old) (holds self.new) (place_of S.whole position) };

    /// Tells of a vertex that was removed and of the position that it had. Where it was not the
    /// last, the last vertex has taken its handle, and `swapped_in_point` is that vertex's
    /// position.
    fn notify_vertex_removed<P: PlaneTests<S>>(
        &mut self,
        swapped_in_point: Option<Point2<S>>,
        vertex: FixedVertexHandle,
        position: Point2<S>,
        tests: &P,
    )
        requires held { IsAtMost (P.sites tests.now) (holds self.old) }
        requires site { P.sites tests.now (place_of S.whole position) }
        requires swapped_site { (p : Point) → place_if S.whole swapped_in_point ≡ Some p →
            P.sites tests.now p }
        ensures { IsAtMostWithout (holds self.old) (holds self.new) (place_of S.whole position)
            (place_if S.whole swapped_in_point) };

    /// One for the vertices at these positions, which all differ, in the order of their handles.
    fn initialize_from_triangulation<P: PlaneTests<S>>(
        alloc: Global,
        positions: &[Point2<S>],
        tests: &P,
    ) -> Self
        requires sites { All (P.sites tests.now) (places S.whole positions.now) }
        requires distinct { AreDistinct (places S.whole positions.now) }
        ensures { IsAtMostOf (holds result) (places S.whole positions.now) };
}
