//! What a segment meets, from wherever its start is.
ghost use Rattle.std.specs.Prelude.{◌↔◌, ◌<◌, length, map, IsTrue};
ghost use Rattle.{delaunay_core.specs.place_of, delaunay_location.specs.Over.BeginsWith};
ghost use Rattle.delaunay_legalization.specs.{constraints_by, Reading, state_of, triangulation_of};
ghost use Rattle.delaunay_location.specs.{Conflicts.IntersectsConstraint, Location.Locates};
ghost use Rattle.delaunay_location.specs.Walk.{IsReady, WalksBetween, WalksLine};

use crate::outside::{first_along, first_on_outline, first_past, if_seen};
use crate::starts::{first_in_face, first_on_edge};
use crate::{
    ConflictingEdgesIterator, FixedIntersection, LineIntersectionIterator, LocationViews,
    PositionInTriangulation,
};
use delaunay_core::math::PlaneTests;
use delaunay_core::point::{HasPosition, Point2};
use delaunay_legalization::{ConstraintMarker, Embedding, is_same_point, position_of};
use half_edge_dcel::MeshViews;
use half_edge_links::FixedVertexHandle;

// What a segment meets first, from the location of its start. Where its ends are one point, it is
// the vertex there, or else the edge.
fn first_from<V: HasPosition, DE, UE, F, P: PlaneTests<V::Scalar>>(
    embedding: &Embedding<'_, V, DE, UE, F, P>,
    from: Point2<V::Scalar>,
    to: Point2<V::Scalar>,
    start: PositionInTriangulation,
) -> Option<FixedIntersection>
    requires from_covered { P.covered embedding.now.tests (place_of V.Scalar.whole from) }
    requires to_covered { P.covered embedding.now.tests (place_of V.Scalar.whole to) }
    requires start { Locates (map V.place embedding.now.dcel.vertices) embedding.now.dcel.mesh
        (place_of V.Scalar.whole from) start }
    ensures { BeginsWith V.place V.Scalar.whole embedding.now from to result }
{
    let dcel = embedding.dcel;
    if is_same_point(from, to) {
        return match start {
            PositionInTriangulation::OnVertex(vertex) => Some(FixedIntersection::Vertex(vertex)),
            PositionInTriangulation::OnEdge(edge) => Some(FixedIntersection::Overlap(edge)),
            _ => None,
        };
    }
    match start {
        PositionInTriangulation::OnVertex(vertex) => Some(FixedIntersection::Vertex(vertex)),
        PositionInTriangulation::OnEdge(edge) => Some(first_on_edge(embedding, from, to, edge)),
        PositionInTriangulation::OnFace(face) => {
            first_in_face(embedding, from, to, dcel.face(face).adjacent_edge().fix())
        }
        // It goes along the outline from this edge on. Past the end of a line of vertices, where it
        // sees no edge, it looks at this end alone.
        PositionInTriangulation::OutsideOfConvexHull(edge) => match if_seen(embedding, from, edge) {
            Some(seen) => first_along(embedding, from, to, seen),
            None => first_past(embedding, from, to, edge),
        },
        PositionInTriangulation::NoTriangulation => first_on_outline(embedding, from, to),
    }
}

/// What segments meet, in a mesh with its points. What each call gives is said at `Embedding`.
pub trait LineViews<'a, V: HasPosition, DE, UE, F, P: PlaneTests<V::Scalar>> {
    ghost reading: { Self → Reading V DE UE F P };

    /// What the segment from one position to another meets. Where it starts is looked for from the
    /// vertex `hint` on, or from vertex 0 where there is no such vertex.
    fn line_between(
        &self,
        from: Point2<V::Scalar>,
        to: Point2<V::Scalar>,
        hint: FixedVertexHandle,
    ) -> LineIntersectionIterator<'a, V, DE, UE, F, P>
        requires from_covered { P.covered (reading self.now).tests (place_of V.Scalar.whole from) }
        requires to_covered { P.covered (reading self.now).tests (place_of V.Scalar.whole to) };

    /// What the segment from one vertex to another meets, from the vertex on: of a vertex to
    /// itself, that vertex alone.
    fn line_between_vertices(
        &self,
        from: FixedVertexHandle,
        to: FixedVertexHandle,
    ) -> LineIntersectionIterator<'a, V, DE, UE, F, P>
        requires from_in { from < length (reading self.now).dcel.vertices }
        requires to_in { to < length (reading self.now).dcel.vertices };

    /// Whether two positions differ and the segment between them meets a constraint in one point,
    /// strictly within the constraint. The search for the first position begins at the vertex
    /// `hint`, or at vertex 0 where there is no such vertex.
    fn intersects_constraint<M: ConstraintMarker<UE>>(
        &self,
        from: Point2<V::Scalar>,
        to: Point2<V::Scalar>,
        hint: FixedVertexHandle,
    ) -> bool
        requires from_covered { P.covered (reading self.now).tests (place_of V.Scalar.whole from) }
        requires to_covered { P.covered (reading self.now).tests (place_of V.Scalar.whole to) };
}

impl<'a, V: HasPosition, DE, UE, F, P: PlaneTests<V::Scalar>> LineViews<'a, V, DE, UE, F, P>
    for Embedding<'a, V, DE, UE, F, P> {
    ghost reading = { λ s. s };

    fn line_between(
        &self,
        from: Point2<V::Scalar>,
        to: Point2<V::Scalar>,
        hint: FixedVertexHandle,
    ) -> LineIntersectionIterator<'a, V, DE, UE, F, P>
        requires from_covered { P.covered self.now.tests (place_of V.Scalar.whole from) }
        requires to_covered { P.covered self.now.tests (place_of V.Scalar.whole to) }
        ensures line { WalksLine V.place V.Scalar.whole (state_of self.now.dcel)
            (place_of V.Scalar.whole from) (place_of V.Scalar.whole to) result }
        ensures ready { IsReady V.place V.Scalar.whole P.sites P.covered result }
    {
        let start = self.locate_with_hint(from, hint);
        let current = first_from(self, from, to, start);
        let dcel = self.dcel;
        LineIntersectionIterator {
            dcel,
            tests: self.tests,
            from,
            to,
            current,
            left: dcel.num_vertices() + dcel.num_undirected_edges(),
        }
    }

    fn line_between_vertices(
        &self,
        from: FixedVertexHandle,
        to: FixedVertexHandle,
    ) -> LineIntersectionIterator<'a, V, DE, UE, F, P>
        requires from_in { from < length self.now.dcel.vertices }
        requires to_in { to < length self.now.dcel.vertices }
        ensures line { WalksBetween V.place V.Scalar.whole (state_of self.now.dcel) from to result }
        ensures ready { IsReady V.place V.Scalar.whole P.sites P.covered result }
    {
        let dcel = self.dcel;
        let (start, end) = (position_of(dcel, from), position_of(dcel, to));
        LineIntersectionIterator {
            dcel,
            tests: self.tests,
            from: start,
            to: end,
            current: Some(FixedIntersection::Vertex(from)),
            left: dcel.num_vertices() + dcel.num_undirected_edges(),
        }
    }

    fn intersects_constraint<M: ConstraintMarker<UE>>(
        &self,
        from: Point2<V::Scalar>,
        to: Point2<V::Scalar>,
        hint: FixedVertexHandle,
    ) -> bool
        requires from_covered { P.covered self.now.tests (place_of V.Scalar.whole from) }
        requires to_covered { P.covered self.now.tests (place_of V.Scalar.whole to) }
        ensures { let s = state_of self.now.dcel in
            IsTrue result ↔ IntersectsConstraint (triangulation_of V.place s)
            (constraints_by M.constraints s) (place_of V.Scalar.whole from)
            (place_of V.Scalar.whole to) }
    {
        let mut crossed = ConflictingEdgesIterator::<M, _, _, _, _, _>::between_points(
            self, from, to, hint,
        );
        crossed.next().is_some()
    }
}
