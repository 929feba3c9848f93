//! The constraints that a segment crosses.
ghost use Rattle.std.specs.Prelude.{◌/◌, ◌<◌, length, map, Contains, IfNone};
ghost use Rattle.std.specs.Iterator.{at_most};
ghost use Rattle.delaunay_core.specs.{place_of};
ghost use Rattle.delaunay_legalization.specs.{point_at, state_of};
ghost use Rattle.delaunay_location.specs.Conflicts.{GivesConflict, IsConflictOf};
ghost use Rattle.delaunay_location.specs.Walk.{IsReady, WalksLine};

use crate::{Intersection, LineIntersectionIterator, LineViews};
use delaunay_core::math::PlaneTests;
use delaunay_core::point::{HasPosition, Point2};
use delaunay_legalization::{ConstraintMarker, Embedding};
use half_edge_dcel::DirectedEdgeHandle;
use half_edge_links::FixedVertexHandle;
use std::marker::PhantomData;

// The edge of an item, if the segment crosses it and it is a constraint.
fn conflict_in<'a, M: ConstraintMarker<UE>, V, DE, UE, F>(
    item: &Intersection<'a, V, DE, UE, F>,
) -> Option<DirectedEdgeHandle<'a, V, DE, UE, F>>
    ensures { IsConflictOf M.constraints item.now result }
{
    let edge = item.as_edge_intersection()?;
    if M::is_constraint_edge(edge.as_undirected().data()) {
        Some(edge)
    } else {
        None
    }
}

/// The constraints that a segment meets in one point strictly within them, in the order along the
/// segment. No call takes memory. After the last one it gives `None` as often as it is asked.
///
/// ```
/// let constraints = site.get_conflicting_edges_between_points(from, to, &ExactTests);
/// println!(rt; "{} constraints in the way", constraints.count())?;
/// ```
#[derive(Drop)]
pub struct ConflictingEdgesIterator<
    'a,
    M: ConstraintMarker<UE>,
    V: HasPosition,
    DE,
    UE,
    F,
    P: PlaneTests<V::Scalar>,
> {
    pub line: LineIntersectionIterator<'a, V, DE, UE, F, P>,
    pub marks: PhantomData<M>,
}

impl<
    'a,
    M: ConstraintMarker<UE>,
    V: HasPosition,
    DE,
    UE,
    F,
    P: PlaneTests<V::Scalar>,
> ConflictingEdgesIterator<'a, M, V, DE, UE, F, P> {
    /// The constraints that the segment between two vertices crosses.
    pub fn between_vertices(
        embedding: &Embedding<'a, V, DE, UE, F, P>,
        from: FixedVertexHandle,
        to: FixedVertexHandle,
    ) -> Self
        requires from_in { from < length embedding.now.dcel.vertices }
        requires to_in { to < length embedding.now.dcel.vertices }
        ensures line { let d = embedding.now.dcel in let points = map V.place d.vertices in
            WalksLine V.place V.Scalar.whole (state_of d) (point_at points from)
            (point_at points to) result.line }
        ensures ready { IsReady V.place V.Scalar.whole P.sites P.covered result.line }
    {
        ConflictingEdgesIterator {
            line: embedding.line_between_vertices(from, to),
            marks: PhantomData,
        }
    }

    /// The constraints that the segment between two positions crosses. The search for the first
    /// position begins at the vertex `hint`, or at vertex 0 where there is no such vertex.
    pub fn between_points(
        embedding: &Embedding<'a, V, DE, UE, F, P>,
        from: Point2<V::Scalar>,
        to: Point2<V::Scalar>,
        hint: FixedVertexHandle,
    ) -> Self
        requires from_covered { P.covered embedding.now.tests (place_of V.Scalar.whole from) }
        requires to_covered { P.covered embedding.now.tests (place_of V.Scalar.whole to) }
        ensures line { WalksLine V.place V.Scalar.whole (state_of embedding.now.dcel)
            (place_of V.Scalar.whole from) (place_of V.Scalar.whole to) result.line }
        ensures ready { IsReady V.place V.Scalar.whole P.sites P.covered result.line }
    {
        ConflictingEdgesIterator {
            line: embedding.line_between(from, to, hint),
            marks: PhantomData,
        }
    }
}

impl<'a, M: ConstraintMarker<UE>, V: HasPosition, DE, UE, F, P: PlaneTests<V::Scalar>> Iterator
    for ConflictingEdgesIterator<'a, M, V, DE, UE, F, P> {
    type Item = DirectedEdgeHandle<'a, V, DE, UE, F>;

    ghost can_next = { λ it. IsReady V.place V.Scalar.whole P.sites P.covered it.line };

    // After `None` it may be asked again.
    ghost next_gives = { λ it r after. GivesConflict V.place V.Scalar.whole M.constraints it.line r
        after.line × IfNone r (IsReady V.place V.Scalar.whole P.sites P.covered after.line) };

    ghost remaining = { λ it. at_most it.line.left };

    fn next(&mut self) -> Option<DirectedEdgeHandle<'a, V, DE, UE, F>> {
        while let Some(item) = self.line.next() {
            if let Some(edge) = conflict_in::<M, _, _, _, _>(&item) {
                return Some(edge);
            }
        }
        None
    }

    fn size_hint(&self) -> (usize, Option<usize>) {
        (0, Some(self.line.left))
    }
}
