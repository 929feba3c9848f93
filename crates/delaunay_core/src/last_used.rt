//! The generator that keeps the last vertex.
ghost use Rattle.std.specs.Prelude.{◌≡◌, Some};
ghost use Rattle.plane.specs.{IsAtMostWith, IsAtMostWithout, Point};
ghost use Rattle.{delaunay_core.specs.Held.place_if, delaunay_core.specs.Place.place_of};

use crate::HintGenerator;
use crate::math::PlaneTests;
use crate::point::{Point2, SpadeNum};
use half_edge_links::FixedVertexHandle;
use std::alloc::Global;
use std::cell::Cell;

/// Gives the last vertex that was inserted or looked up, and after a removal the one with the index
/// before the removed one's; vertex 0 at first, and where vertex 0 was removed. It holds no
/// position, and takes no memory.
///
/// ```
/// type Points = DelaunayTriangulation<Point2<i64>, (), (), (), LastUsedVertexHintGenerator>;
/// ```
#[derive(Drop)]
pub struct LastUsedVertexHintGenerator {
    vertex: Cell<FixedVertexHandle>,
}

fn starting_at(vertex: FixedVertexHandle) -> LastUsedVertexHintGenerator {
    LastUsedVertexHintGenerator {
        vertex: Cell::new(vertex),
    }
}

impl<S: SpadeNum> HintGenerator<S> for LastUsedVertexHintGenerator {
    ghost holds = { λ _ _. ⊥ };

    fn new(_alloc: Global) -> Self {
        starting_at(FixedVertexHandle::from_index(0))
    }

    fn duplicate(&self) -> Self {
        starting_at(self.vertex.get())
    }

    fn get_hint<P: PlaneTests<S>>(&self, _position: Point2<S>, _tests: &P) -> FixedVertexHandle
        requires covered { P.covered _tests.now (place_of S.whole _position) }
    {
        self.vertex.get()
    }

    fn notify_vertex_lookup(&self, vertex: FixedVertexHandle) {
        self.vertex.set(vertex);
    }

    fn notify_vertex_inserted<P: PlaneTests<S>>(
        &mut self,
        vertex: FixedVertexHandle,
        _position: Point2<S>,
        _tests: &P,
    )
        requires site { P.sites _tests.now (place_of S.whole _position) }
        ensures { IsAtMostWith (λ _. ⊥) (λ _. ⊥) (place_of S.whole _position) }
    {
        self.vertex.set(vertex);
    }

    fn notify_vertex_removed<P: PlaneTests<S>>(
        &mut self,
        _swapped_in_point: Option<Point2<S>>,
        vertex: FixedVertexHandle,
        _position: Point2<S>,
        _tests: &P,
    )
        requires site { P.sites _tests.now (place_of S.whole _position) }
        requires swapped_site { (p : Point) → place_if S.whole _swapped_in_point ≡ Some p →
            P.sites _tests.now p }
        ensures { IsAtMostWithout (λ _. ⊥) (λ _. ⊥) (place_of S.whole _position)
            (place_if S.whole _swapped_in_point) }
    {
        let before = vertex.index().saturating_sub(1);
        self.vertex.set(FixedVertexHandle::from_index(before));
    }

    fn initialize_from_triangulation<P: PlaneTests<S>>(
        _alloc: Global,
        _positions: &[Point2<S>],
        _tests: &P,
    ) -> Self {
        starting_at(FixedVertexHandle::from_index(0))
    }
}
