//! Hint generators for tests, whose answers help no search, or come from one of several others: no
//! answer of a triangulation depends on them. And calls of generators by themselves.

ghost use Rattle.std.specs.Prelude.{◌≡◌, Some};
ghost use Rattle.plane.specs.{IsAtMostWith, IsAtMostWithout, Point};
ghost use Rattle.delaunay_core.specs.{place_if, place_of};

pub mod generators;
pub mod last_used;
mod listing;
mod switching;
mod telling;

use delaunay_core::HintGenerator;
use delaunay_core::math::PlaneTests;
use delaunay_core::point::{Point2, SpadeNum};
use half_edge_links::FixedVertexHandle;
pub use listing::{Listing, Told};
use std::alloc::Global;
use std::cell::Cell;
pub use switching::{Choice, Switching};

/// Answers every index from the first to the last in turn.
#[derive(Drop)]
pub struct InTurn<const FIRST: u32, const LAST: u32> {
    next: Cell<u32>,
}

/// Answers every index from 0 to 20 in turn.
pub type EachInTurn = InTurn<0, 20>;

/// Always answers 1000.
pub type Always1000 = InTurn<1000, 1000>;

fn starting<const FIRST: u32, const LAST: u32>() -> InTurn<FIRST, LAST> {
    InTurn {
        next: Cell::new(FIRST),
    }
}

impl<S: SpadeNum, const FIRST: u32, const LAST: u32> HintGenerator<S> for InTurn<FIRST, LAST> {
    ghost holds = { λ _ _. ⊥ };

    fn new(_alloc: Global) -> Self {
        starting()
    }

    fn duplicate(&self) -> Self {
        InTurn {
            next: Cell::new(self.next.get()),
        }
    }

    fn get_hint<P: PlaneTests<S>>(&self, _position: Point2<S>, _tests: &P) -> FixedVertexHandle
        requires covered { P.covered _tests.now (place_of S.whole _position) }
    {
        let next = self.next.get();
        self.next.set(if next < LAST { next + 1 } else { FIRST });
        FixedVertexHandle::from_index(next)
    }

    fn notify_vertex_lookup(&self, _vertex: FixedVertexHandle) {}

    fn notify_vertex_inserted<P: PlaneTests<S>>(
        &mut self,
        _vertex: FixedVertexHandle,
        _position: Point2<S>,
        _tests: &P,
    )
        requires site { P.sites _tests.now (place_of S.whole _position) }
        ensures { IsAtMostWith (λ _. ⊥) (λ _. ⊥) (place_of S.whole _position) }
    {}

    fn notify_vertex_removed<P: PlaneTests<S>>(
        &mut self,
        _swapped_in_point: Option<Point2<S>>,
        _vertex: FixedVertexHandle,
        _position: Point2<S>,
        _tests: &P,
    )
        requires site { P.sites _tests.now (place_of S.whole _position) }
        requires swapped_site { (p : Point) → place_if S.whole _swapped_in_point ≡ Some p → P.sites
            _tests.now p }
        ensures { IsAtMostWithout (λ _. ⊥) (λ _. ⊥) (place_of S.whole _position)
            (place_if S.whole _swapped_in_point) }
    {}

    fn initialize_from_triangulation<P: PlaneTests<S>>(
        _alloc: Global,
        _positions: &[Point2<S>],
        _tests: &P,
    ) -> Self {
        starting()
    }
}
