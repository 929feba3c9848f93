//! The hierarchy: which vertices its layers have, and where a search begins.
ghost use Rattle.std.specs.Prelude.{◌≡◌, ◌⊎◌, [], IfOk, IsTrue, Some};
ghost use Rattle.plane.specs.{IsAtMost, IsAtMostWith, IsAtMostWithout, Point};
ghost use Rattle.delaunay_core.specs.{place_if, place_of};
ghost use Rattle.hint_hierarchy.specs.Layers.{IsHeld};

use crate::layer::Layer;
use crate::positions::{index_above, index_below};
use delaunay_core::HintGenerator;
use delaunay_core::math::PlaneTests;
use delaunay_core::point::{Point2, SpadeNum};
use half_edge_links::FixedVertexHandle;
use std::alloc::{AllocError, Global};

/// Gives a vertex near a position by a search through layers. The first layer has the vertices
/// whose index is a multiple of `BRANCH_FACTOR`, and each further layer those of the one below it
/// whose index there is one. It holds the positions of its layers' vertices. Where memory was
/// refused, or what it was told cannot be, it forgets all layers and gives vertex 0 until it is
/// made anew. With a factor below 2 it always does.
#[derive(Drop)]
pub struct HierarchyHintGeneratorWithBranchFactor<S: SpadeNum, const BRANCH_FACTOR: u32> {
    pub(crate) layers: Vec<Layer<S>>,
    // How many vertices the triangulation has.
    pub(crate) count: u32,
    // Whether the layers have all vertices that they are to have.
    pub(crate) is_whole: bool,
    alloc: Global,
}

/// A hierarchy in which each layer has every sixteenth vertex of the one below it.
///
/// ```
/// type Hints = HierarchyHintGenerator<i64>;
/// let mut points: DelaunayTriangulation<Point2<i64>, (), (), (), Hints> =
///     DelaunayTriangulation::new(rt.alloc());
/// ```
pub type HierarchyHintGenerator<S> = HierarchyHintGeneratorWithBranchFactor<S, 16>;

impl<S: SpadeNum, const BRANCH_FACTOR: u32> HierarchyHintGeneratorWithBranchFactor<
    S,
    BRANCH_FACTOR,
> {
    // Forgets all layers, until it is made anew.
    pub(crate) fn give_up(&mut self)
        ensures { self.new.layers.items ≡ [] }
    {
        self.layers.clear();
        self.is_whole = false;
    }

    // The position of the first vertex, or another where there is no layer yet.
    fn first_or(&self, other: Point2<S>) -> Point2<S>
        ensures { IsHeld S.whole self.now.layers.items (place_of S.whole result) ⊎
            (place_of S.whole result ≡ place_of S.whole other) }
    {
        if self.layers.is_empty() {
            other
        } else {
            self.layers[0].first_position(other)
        }
    }

    // Puts a layer of the first vertex alone on top; whether there was memory for it. The position
    // is that of the vertex where there is no layer yet.
    fn add_layer<P: PlaneTests<S>>(&mut self, position: Point2<S>, tests: &P) -> bool
        requires held { IsAtMost (P.sites tests.now) (IsHeld S.whole self.old.layers.items) }
        requires site { P.sites tests.now (place_of S.whole position) }
        ensures { IsAtMostWith (IsHeld S.whole self.old.layers.items)
            (IsHeld S.whole self.new.layers.items) (place_of S.whole position) }
    {
        let first = self.first_or(position);
        let mut layer = Layer::new(self.alloc);
        layer.insert(first, tests) && self.layers.push(layer).is_ok()
    }

    // Inserts a vertex with this index into each layer that is to have it; whether all layers are
    // as they are to be then.
    fn insert_upwards<P: PlaneTests<S>>(
        &mut self,
        index: u32,
        position: Point2<S>,
        tests: &P,
    ) -> bool
        requires held { IsAtMost (P.sites tests.now) (IsHeld S.whole self.old.layers.items) }
        requires site { P.sites tests.now (place_of S.whole position) }
        ensures { IsAtMostWith (IsHeld S.whole self.old.layers.items)
            (IsHeld S.whole self.new.layers.items) (place_of S.whole position) }
    {
        let mut below = index;
        for level in 0..self.layers.len() {
            let Some(index) = index_above::<BRANCH_FACTOR>(below) else {
                return true;
            };
            if !self.layers[level].insert(position, tests) {
                return false;
            }
            below = index;
        }
        self.add_layer(position, tests)
    }

    // Takes up the vertex that comes after those that it was told of.
    fn append<P: PlaneTests<S>>(&mut self, position: Point2<S>, tests: &P)
        requires held { IsAtMost (P.sites tests.now) (IsHeld S.whole self.old.layers.items) }
        requires site { P.sites tests.now (place_of S.whole position) }
        ensures { IsAtMostWith (IsHeld S.whole self.old.layers.items)
            (IsHeld S.whole self.new.layers.items) (place_of S.whole position) }
    {
        let appended = self.is_whole && self.insert_upwards(self.count, position, tests);
        match self.count.checked_add(1) {
            Some(count) if appended => self.count = count,
            _ => self.give_up(),
        }
    }

    // The index of a vertex near a position, by a search from the top layer down. It goes on at the
    // nearest vertex of each layer, which the layer keeps as the last that was used. The top layer
    // has one vertex, and is passed over.
    pub(crate) fn index_near<P: PlaneTests<S>>(&self, position: Point2<S>, tests: &P) -> u32
        requires held { IsAtMost (P.sites tests.now) (IsHeld S.whole self.now.layers.items) }
        requires covered { P.covered tests.now (place_of S.whole position) }
    {
        let mut start = 0;
        let mut level = self.layers.len().saturating_sub(1);
        while level > 0 {
            level -= 1;
            let layer = &self.layers[level];
            start = index_below::<BRANCH_FACTOR>(layer.nearest_from(start, position, tests));
        }
        start
    }

    // Whether no layer has a vertex at a position, by a search only where a filter does not tell.
    fn is_vacant<P: PlaneTests<S>>(&self, position: Point2<S>, tests: &P) -> bool
        requires held { IsAtMost (P.sites tests.now) (IsHeld S.whole self.now.layers.items) }
        requires covered { P.covered tests.now (place_of S.whole position) }
        ensures { IsTrue result →
            ¬ IsHeld S.whole self.now.layers.items (place_of S.whole position) }
    {
        for layer in &self.layers {
            if !layer.may_have(position) {
                continue;
            }
            // The layer's own search then begins at the vertex nearest to the position.
            self.index_near(position, tests);
            if !layer.is_vacant(position, tests) {
                return false;
            }
        }
        true
    }

    // Copies of all layers.
    fn copy_layers(&self) -> Result<Vec<Layer<S>>, AllocError>
        ensures { IfOk result (λ v. IsAtMost (IsHeld S.whole self.now.layers.items)
            (IsHeld S.whole v.items)) }
    {
        let mut copies = Vec::new(self.alloc);
        for layer in &self.layers {
            copies.push(layer.try_clone()?)?;
        }
        Ok(copies)
    }
}

impl<S: SpadeNum, const BRANCH_FACTOR: u32> HintGenerator<S>
    for HierarchyHintGeneratorWithBranchFactor<S, BRANCH_FACTOR> {
    ghost use Rattle.hint_hierarchy.specs.Layers.{IsHeld};

    ghost holds = { λ s. IsHeld S.whole s.layers.items };

    fn new(alloc: Global) -> Self {
        HierarchyHintGeneratorWithBranchFactor {
            layers: Vec::new(alloc),
            count: 0,
            is_whole: BRANCH_FACTOR >= 2,
            alloc,
        }
    }

    fn duplicate(&self) -> Self {
        let mut copy: Self = HintGenerator::<S>::new(self.alloc);
        match self.copy_layers() {
            Ok(layers) => {
                copy.layers = layers;
                copy.count = self.count;
                copy.is_whole = self.is_whole;
            }
            Err(_) => copy.give_up(),
        }
        copy
    }

    fn get_hint<P: PlaneTests<S>>(&self, position: Point2<S>, tests: &P) -> FixedVertexHandle
        requires held { IsAtMost (P.sites tests.now) (IsHeld S.whole self.now.layers.items) }
        requires covered { P.covered tests.now (place_of S.whole position) }
    {
        FixedVertexHandle::from_index(self.index_near(position, tests))
    }

    fn notify_vertex_lookup(&self, _vertex: FixedVertexHandle) {}

    fn notify_vertex_inserted<P: PlaneTests<S>>(
        &mut self,
        vertex: FixedVertexHandle,
        position: Point2<S>,
        tests: &P,
    )
        requires held { IsAtMost (P.sites tests.now) (IsHeld S.whole self.old.layers.items) }
        requires site { P.sites tests.now (place_of S.whole position) }
        ensures { IsAtMostWith (IsHeld S.whole self.old.layers.items)
            (IsHeld S.whole self.new.layers.items) (place_of S.whole position) }
    {
        if vertex.index() == self.count {
            self.append(position, tests);
        } else {
            self.give_up();
        }
    }

    fn notify_vertex_removed<P: PlaneTests<S>>(
        &mut self,
        swapped_in_point: Option<Point2<S>>,
        vertex: FixedVertexHandle,
        position: Point2<S>,
        tests: &P,
    )
        requires held { IsAtMost (P.sites tests.now) (IsHeld S.whole self.old.layers.items) }
        requires site { P.sites tests.now (place_of S.whole position) }
        requires swapped_site { (p : Point) → place_if S.whole swapped_in_point ≡ Some p →
            P.sites tests.now p }
        ensures { IsAtMostWithout (IsHeld S.whole self.old.layers.items)
            (IsHeld S.whole self.new.layers.items) (place_of S.whole position)
            (place_if S.whole swapped_in_point) }
    {
        let removed = self.is_whole && self.remove_upwards(swapped_in_point, vertex.index(), tests);
        if removed && self.is_vacant(position, tests) {
            self.drop_idle_layers();
        } else {
            self.give_up();
        }
    }

    fn initialize_from_triangulation<P: PlaneTests<S>>(
        alloc: Global,
        positions: &[Point2<S>],
        tests: &P,
    ) -> Self {
        let mut hierarchy: Self = HintGenerator::<S>::new(alloc);
        for position in positions {
            hierarchy.append(*position, tests);
        }
        hierarchy
    }
}
