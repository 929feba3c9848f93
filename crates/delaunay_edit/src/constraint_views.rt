//! What an edit asks of the constraints, in a mesh with its points: how many a path makes, and the
//! halves of a straight one.
ghost use Rattle.std.specs.Prelude.{◌≢◌, ◌<◌, length, map, IfNone, IfSome};
ghost use Rattle.delaunay_legalization.specs.{constraints_by, points_and_constraints_by, Reading};
ghost use Rattle.{delaunay_edit.specs.Adding.CanAddPath, delaunay_legalization.specs.state_of};
ghost use Rattle.delaunay_edit.specs.{Counting.HasPairs, Counting.IsMissing, Halves.AreHalvesAt};

use crate::halves::two_constraint_ends;
use crate::is_constraint_between;
use delaunay_core::math::PlaneTests;
use delaunay_core::point::HasPosition;
use delaunay_legalization::{
    ConstraintMarker, Embedding, is_constraint_edge, is_strictly_within, position_of,
};
use delaunay_location::{Intersection, LineViews};
use delaunay_vertices::VertexPair;
use half_edge_links::FixedVertexHandle;

/// The constraints that an edit makes or takes, in a mesh with its points.
pub trait ConstraintViews<V: HasPosition, DE, UE, F, P: PlaneTests<V::Scalar>> {
    ghost reading: { Self → Reading V DE UE F P };

    /// How many subconstraints of the path between two different vertices are no constraints,
    /// unless a constraint crosses it. It is one walk, which stops at the first that does, and
    /// takes no memory.
    fn count_path<M: ConstraintMarker<UE>>(
        &self,
        from: FixedVertexHandle,
        to: FixedVertexHandle,
    ) -> Option<usize>
        requires ends { let vertices = (reading self.now).dcel.vertices in
            (from < length vertices) × (to < length vertices) }
        requires apart { from ≢ to }
        ensures barred { IfNone result
            (¬ CanAddPath V.place M.constraints (reading self.now).dcel from to) }
        ensures free { IfSome result
            (λ n. CanAddPath V.place M.constraints (reading self.now).dcel from to) }
        ensures missing { let d = (reading self.now).dcel in
            let pairs = constraints_by M.constraints (state_of d) in
            IfSome result (λ n. HasPairs (IsMissing (map V.place d.vertices) pairs from to) n) };

    /// The far ends of the halves of a straight constraint whose middle is a vertex, if it is that
    /// of one.
    fn straight_halves<M: ConstraintMarker<UE>>(
        &self,
        vertex: FixedVertexHandle,
    ) -> Option<VertexPair>
        requires { vertex < length (reading self.now).dcel.vertices }
        ensures { AreHalvesAt V.place
            (points_and_constraints_by M.constraints (state_of (reading self.now).dcel)) vertex
            result };
}

impl<V: HasPosition, DE, UE, F, P: PlaneTests<V::Scalar>> ConstraintViews<V, DE, UE, F, P>
    for Embedding<'_, V, DE, UE, F, P> {
    ghost reading = { λ s. s };

    fn count_path<M: ConstraintMarker<UE>>(
        &self,
        from: FixedVertexHandle,
        to: FixedVertexHandle,
    ) -> Option<usize> {
        let mut count = 0;
        let mut at = from;
        let mut line = self.line_between_vertices(from, to);
        while let Some(item) = line.next() {
            match item {
                Intersection::EdgeIntersection(edge) => {
                    if is_constraint_edge::<M, _, _, _, _>(self.dcel, edge.fix().as_undirected()) {
                        return None;
                    }
                }
                Intersection::VertexIntersection(vertex) => {
                    let next = vertex.fix();
                    if next != at {
                        if !is_constraint_between::<M, _, _, _, _>(self.dcel, at, next) {
                            count += 1;
                        }
                        at = next;
                    }
                }
                Intersection::EdgeOverlap(_) => {}
            }
        }
        Some(count)
    }

    fn straight_halves<M: ConstraintMarker<UE>>(
        &self,
        vertex: FixedVertexHandle,
    ) -> Option<VertexPair> {
        let (first, second) = two_constraint_ends::<M, _, _, _, _>(self.dcel, vertex)?;
        let from = position_of(self.dcel, first);
        let to = position_of(self.dcel, second);
        let middle = position_of(self.dcel, vertex);
        is_strictly_within(from, to, middle, self.tests).then_some((first, second))
    }
}
