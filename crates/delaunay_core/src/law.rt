//! What the comparisons of points mean.
ghost use Rattle.std.specs.Prelude.{◌≡◌, ◌↔◌, Some, IsTrue};
ghost use Rattle.std.specs.Ordering.{int_cmp, ordering_then};

use crate::point::{Point2, SpadeNum};

/// Points are ordered by `x`, then by `y`, as whole numbers. Those and only those are equal that
/// are one.
pub fn points_are_ordered<S: SpadeNum>()
    ensures order { (p q : Point2 S) →
        ⟦<Point2<S> as PartialOrd>⟧.partial_cmp p q ≡ Some
        (ordering_then (int_cmp (S.whole p.x) (S.whole q.x))
        (int_cmp (S.whole p.y) (S.whole q.y))) }
    ensures equality { (p q : Point2 S) → IsTrue (⟦<Point2<S> as PartialEq>⟧.eq p q) ↔ (p ≡ q) }
{}
