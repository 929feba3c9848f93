//! A hint generator that lists what it is told.
ghost use Rattle.std.specs.Prelude.{◌≡◌, Some};
ghost use Rattle.plane.specs.{IsAtMostWith, IsAtMostWithout, Point};
ghost use Rattle.delaunay_core.specs.{place_if, place_of};

use delaunay_core::HintGenerator;
use delaunay_core::math::PlaneTests;
use delaunay_core::point::{Point2, SpadeNum};
use half_edge_links::FixedVertexHandle;
use std::alloc::Global;
use std::cell::Cell;

/// What a generator was told.
#[derive(Clone, Copy)]
pub enum Told {
    Inserted(u32, i64, i64),
    Removed(u32, i64, i64),
    SwappedIn(i64, i64),
}

/// Lists what it is told of insertions and removals, and counts how often it is asked. It always
/// answers 0.
#[derive(Drop)]
pub struct Listing {
    pub told: Vec<Told>,
    pub asked: Cell<u32>,
}

impl Listing {
    fn list(&mut self, told: Told) {
        let _ = self.told.push(told);
    }
}

fn nothing_told(alloc: Global) -> Listing {
    Listing {
        told: Vec::new(alloc),
        asked: Cell::new(0),
    }
}

impl<S: SpadeNum> HintGenerator<S> for Listing {
    ghost holds = { λ _ _. ⊥ };

    fn new(alloc: Global) -> Self {
        nothing_told(alloc)
    }

    fn duplicate(&self) -> Self {
        Listing {
            told: Vec::new(*self.told.allocator()),
            asked: Cell::new(self.asked.get()),
        }
    }

    fn get_hint<P: PlaneTests<S>>(&self, _position: Point2<S>, _tests: &P) -> FixedVertexHandle
        requires covered { P.covered _tests.now (place_of S.whole _position) }
    {
        self.asked.set(self.asked.get().saturating_add(1));
        FixedVertexHandle::from_index(0)
    }

    fn notify_vertex_lookup(&self, _vertex: FixedVertexHandle) {}

    fn notify_vertex_inserted<P: PlaneTests<S>>(
        &mut self,
        vertex: FixedVertexHandle,
        position: Point2<S>,
        _tests: &P,
    )
        requires site { P.sites _tests.now (place_of S.whole position) }
        ensures { IsAtMostWith (λ _. ⊥) (λ _. ⊥) (place_of S.whole position) }
    {
        let (x, y) = (position.x.to_i64(), position.y.to_i64());
        self.list(Told::Inserted(vertex.index(), x, y));
    }

    fn notify_vertex_removed<P: PlaneTests<S>>(
        &mut self,
        swapped_in_point: Option<Point2<S>>,
        vertex: FixedVertexHandle,
        position: Point2<S>,
        _tests: &P,
    )
        requires site { P.sites _tests.now (place_of S.whole position) }
        requires swapped_site { (p : Point) → place_if S.whole swapped_in_point ≡ Some p → P.sites
            _tests.now p }
        ensures { IsAtMostWithout (λ _. ⊥) (λ _. ⊥) (place_of S.whole position)
            (place_if S.whole swapped_in_point) }
    {
        let (x, y) = (position.x.to_i64(), position.y.to_i64());
        self.list(Told::Removed(vertex.index(), x, y));
        if let Some(point) = swapped_in_point {
            self.list(Told::SwappedIn(point.x.to_i64(), point.y.to_i64()));
        }
    }

    fn initialize_from_triangulation<P: PlaneTests<S>>(
        alloc: Global,
        _positions: &[Point2<S>],
        _tests: &P,
    ) -> Self {
        nothing_told(alloc)
    }
}
