//! Removals from a hierarchy.
ghost use Rattle.std.specs.Prelude.{◌≡◌, All, Some};
ghost use Rattle.{delaunay_core.specs.place_if, plane.specs.IsAtMost, plane.specs.Point};
ghost use Rattle.hint_hierarchy.specs.Layers.{IsAtMostOr, IsHeld, IsPositionOf, positions};

use crate::HierarchyHintGeneratorWithBranchFactor;
use crate::layer::Layer;
use crate::positions::index_above;
use delaunay_core::math::PlaneTests;
use delaunay_core::point::{Point2, SpadeNum};

// Takes the vertex `removed` out of a layer, if it is in it, and puts the last vertex of the
// triangulation in its place. `last` is the index that the last vertex has had in the layer, if it
// was in it, and `swapped_in` is its position. Whether it was done.
fn remove_from_layer<S: SpadeNum, P: PlaneTests<S>>(
    layer: &mut Layer<S>,
    removed: Option<u32>,
    last: Option<u32>,
    swapped_in: Option<Point2<S>>,
    tests: &P,
) -> bool
    requires sites { All (P.sites tests.now) (positions S.whole layer.old) }
    requires swapped_site { (p : Point) → place_if S.whole swapped_in ≡ Some p →
        P.sites tests.now p }
    ensures { IsAtMostOr (IsPositionOf S.whole layer.old) (IsPositionOf S.whole layer.new)
        (place_if S.whole swapped_in) }
{
    match (removed, last, swapped_in) {
        (None, None, _) => true,
        (None, Some(last), _) => layer.remove(last, tests),
        (Some(index), Some(_), _) => layer.remove(index, tests),
        (Some(index), None, Some(position)) => {
            layer.insert(position, tests) && layer.remove(index, tests)
        }
        (Some(_), None, None) => false,
    }
}

impl<S: SpadeNum, const BRANCH_FACTOR: u32> HierarchyHintGeneratorWithBranchFactor<
    S,
    BRANCH_FACTOR,
> {
    // Takes the vertex with this index out of each layer that has it, puts the last vertex, which
    // takes that index, where it is to be, and counts one vertex less. Whether the triangulation
    // has had the vertex, and all layers are as they are to be then.
    pub(crate) fn remove_upwards<P: PlaneTests<S>>(
        &mut self,
        swapped_in: Option<Point2<S>>,
        index: u32,
        tests: &P,
    ) -> bool
        requires held { IsAtMost (P.sites tests.now) (IsHeld S.whole self.old.layers.items) }
        requires swapped_site { (p : Point) → place_if S.whole swapped_in ≡ Some p →
            P.sites tests.now p }
        ensures { IsAtMostOr (IsHeld S.whole self.old.layers.items)
            (IsHeld S.whole self.new.layers.items) (place_if S.whole swapped_in) }
    {
        if index >= self.count {
            return false;
        }
        self.count -= 1;
        if let (Some(_), None, Some(position)) = (
            index_above::<BRANCH_FACTOR>(index),
            index_above::<BRANCH_FACTOR>(self.count),
            swapped_in,
        ) {
            // The first layer is to take up the last vertex, and searches its place from here on.
            self.index_near(position, tests);
        }
        let mut removed = Some(index);
        let mut last = Some(self.count);
        for level in 0..self.layers.len() {
            removed = removed.and_then(index_above::<BRANCH_FACTOR>);
            last = last.and_then(index_above::<BRANCH_FACTOR>);
            if !remove_from_layer(&mut self.layers[level], removed, last, swapped_in, tests) {
                return false;
            }
        }
        true
    }

    // Drops the top layer where the one below it has one vertex, and all layers where the
    // triangulation has none.
    pub(crate) fn drop_idle_layers(&mut self)
        ensures { IsAtMost (IsHeld S.whole self.old.layers.items)
            (IsHeld S.whole self.new.layers.items) }
    {
        let layers = self.layers.len();
        if self.count == 0 {
            self.layers.clear();
        } else if layers >= 2 && self.layers[layers - 2].is_idle() {
            self.layers.truncate(layers - 1);
        }
    }
}
