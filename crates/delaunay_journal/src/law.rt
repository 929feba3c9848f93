//! What follows of several calls.
ghost use Rattle.std.specs.Prelude.{◌≡◌, ◌-ℤ◌, List};
ghost use Rattle.plane.specs.{opposite, Side};
ghost use Rattle.delaunay_journal.specs.Laws.{LocationFindsInsertion, QueriesAreSymmetric};
ghost use Rattle.delaunay_journal.specs.Laws.{RemovalUndoesInsertion};

use delaunay_core::math::PointProjection;
use delaunay_core::point::{Point2, SpadeNum};

/// A law: after an insertion of a value into a triangulation of vertices `V`, edges `D` and `U` and
/// faces `F`, its position is located on the vertex whose handle the insertion gave.
pub fn location_finds_insertion<V, D, U, F>()
    ensures { LocationFindsInsertion V D U F }
{}

/// A law: a vertex that is put into a triangulation, and taken out again, leaves vertices and
/// constraints as they were: a constraint that it split is whole again.
pub fn removal_undoes_insertion<V, D, U, F>()
    ensures { RemovalUndoesInsertion V D U F }
{}

/// A law: `exists_constraint` and `get_edge_from_neighbors` answer alike in either order of their
/// vertices, the second with the two directions of one edge.
pub fn queries_are_symmetric<V, D, U, F>()
    ensures { QueriesAreSymmetric V D U F }
{}

/// A law: a side that is reversed twice is as before, and so are the numbers of a projection.
pub fn reversing_undoes_itself<S>()
    ensures side { (s : Side) → opposite (opposite s) ≡ s }
    ensures projection { (p q r : PointProjection S) → q.factor ≡ p.length_2 -ℤ p.factor →
        q.length_2 ≡ p.length_2 → r.factor ≡ q.length_2 -ℤ q.factor → r.length_2 ≡ q.length_2 →
        (r.factor ≡ p.factor) × (r.length_2 ≡ p.length_2) }
{}

/// A law: a point that is made a pair or an array, and this a point again, is the same, and so is a
/// pair or an array that is made a point, and this one of its kind again.
pub fn conversions_undo_each_other<S: SpadeNum>()
    ensures pair { (p q : Point2 S) (a : S × S) →
        ⟦<(S, S) as From<Point2<S>>>⟧.from_gives p a →
        ⟦<Point2<S> as From<(S, S)>>⟧.from_gives a q → q ≡ p }
    ensures array { (p q : Point2 S) (a : List S) →
        ⟦<[S; 2] as From<Point2<S>>>⟧.from_gives p a →
        ⟦<Point2<S> as From<[S; 2]>>⟧.from_gives a q → q ≡ p }
    ensures from_pair { (a b : S × S) (p : Point2 S) →
        ⟦<Point2<S> as From<(S, S)>>⟧.from_gives a p →
        ⟦<(S, S) as From<Point2<S>>>⟧.from_gives p b → b ≡ a }
    ensures from_array { (a b : List S) (p : Point2 S) →
        ⟦<Point2<S> as From<[S; 2]>>⟧.from_gives a p →
        ⟦<[S; 2] as From<Point2<S>>>⟧.from_gives p b → b ≡ a }
{}
