//! Where a position is, by a walk from face to face.
ghost use Rattle.std.specs.Prelude.{◌<◌, length, map, IfSome};
ghost use Rattle.{delaunay_core.specs.place_of, delaunay_location.specs.Distances.CanMeasure};
ghost use Rattle.delaunay_legalization.specs.{Reading};
ghost use Rattle.delaunay_location.specs.{Location.IsPlaceOf, Location.Locates, Stop.IsWalkOf};

use crate::PositionInTriangulation;
use crate::line::place_on_line;
use crate::location::place_by_scan;
use crate::samples::nearer_sample;
use crate::steps::{Step, Stop, ends_of, way_near_hull, way_through};
use delaunay_core::math::PlaneTests;
use delaunay_core::point::{HasPosition, Point2};
use delaunay_legalization::{Embedding, is_same_point, is_strictly_within};
use half_edge_dcel::{Dcel, MeshViews};
use half_edge_links::{FixedDirectedEdgeHandle, FixedVertexHandle};

// After so many steps a walk looks for a nearer vertex anywhere in the mesh.
pub(crate) const FEW_STEPS: usize = 16;

// Where a walk is after some steps.
pub(crate) enum Walked {
    // It has ended: here, unless no side had the position.
    Ended(Option<PositionInTriangulation>),
    // It goes on in the face on the left of this edge.
    Reached(FixedDirectedEdgeHandle),
}

// The location of a position on an edge: at one of its ends, or within it.
#[inline(never)]
pub(crate) fn place_on_edge<V: HasPosition, DE, UE, F, P: PlaneTests<V::Scalar>>(
    embedding: &Embedding<'_, V, DE, UE, F, P>,
    point: Point2<V::Scalar>,
    edge: FixedDirectedEdgeHandle,
) -> Option<PositionInTriangulation>
    requires within { edge < length embedding.now.dcel.directed }
    requires covered { P.covered embedding.now.tests (place_of V.Scalar.whole point) }
    ensures { IfSome result (IsPlaceOf V.place V.Scalar.whole embedding.now point) }
{
    let (from, to) = ends_of(embedding, edge);
    let here = embedding.dcel.directed_edge(edge);
    if is_same_point(from, point) {
        return Some(PositionInTriangulation::OnVertex(here.from().fix()));
    }
    if is_same_point(to, point) {
        return Some(PositionInTriangulation::OnVertex(here.to().fix()));
    }
    if is_strictly_within(from, to, point, embedding.tests) {
        return Some(PositionInTriangulation::OnEdge(edge));
    }
    None
}

// Where a walk from an edge ends, or is after a number of steps, each from the face on the left of
// an edge.
//
// A face near the hull is told apart before it is known which side leads on. So the records of both
// sides are asked for while the corner between them is on its way from memory, and the next step
// does not wait for its own.
fn walk_on<V: HasPosition, DE, UE, F, P: PlaneTests<V::Scalar>>(
    embedding: &Embedding<'_, V, DE, UE, F, P>,
    point: Point2<V::Scalar>,
    edge: FixedDirectedEdgeHandle,
    steps: usize,
) -> Walked
    requires within { edge < length embedding.now.dcel.directed }
    requires covered { P.covered embedding.now.tests (place_of V.Scalar.whole point) }
    ensures { IsWalkOf V.place V.Scalar.whole embedding.now point result }
{
    let (from, to) = ends_of(embedding, edge);
    let mut stop = Stop { edge, from, to };
    for _ in 0..steps {
        let here = embedding.dcel.directed_edge(stop.edge);
        let step = if here.is_outer_edge()
            || here.prev().rev().is_outer_edge()
            || here.next().rev().is_outer_edge()
        {
            way_near_hull(embedding, point, stop)
        } else {
            way_through(embedding, point, stop)
        };
        match step {
            Step::Beyond(side) => {
                stop = Stop {
                    edge: side.edge.rev(),
                    from: side.to,
                    to: side.from,
                };
            }
            Step::Found(place) => return Walked::Ended(Some(place)),
            Step::OnSide(side) => return Walked::Ended(place_on_edge(embedding, point, side)),
        }
    }
    Walked::Reached(stop.edge)
}

// Where a position is, by a walk from an edge. There is no answer where the walk has not ended
// after as many steps as there are directed edges: it goes round in a circle then. Among faces that
// pass the circle test it ends earlier. A long walk goes on at a vertex all over the mesh, if one
// of those looked at is nearer.
fn walk_from<V: HasPosition, DE, UE, F, P: PlaneTests<V::Scalar>>(
    embedding: &Embedding<'_, V, DE, UE, F, P>,
    point: Point2<V::Scalar>,
    start: FixedDirectedEdgeHandle,
) -> Option<PositionInTriangulation>
    requires within { start < length embedding.now.dcel.directed }
    requires covered { P.covered embedding.now.tests (place_of V.Scalar.whole point) }
    ensures { IfSome result (IsPlaceOf V.place V.Scalar.whole embedding.now point) }
{
    if embedding.dcel.num_inner_faces() == 0 {
        return place_on_line(embedding, point, start);
    }
    let edge = match walk_on(embedding, point, start, FEW_STEPS) {
        Walked::Ended(place) => return place,
        Walked::Reached(edge) => nearer_edge(embedding.dcel, edge, point),
    };
    match walk_on(embedding, point, edge, embedding.dcel.num_directed_edges()) {
        Walked::Ended(place) => place,
        Walked::Reached(_) => None,
    }
}

// An edge that starts at the nearest of some vertices all over the mesh, or the edge `other` where
// that starts nearer.
#[inline(never)]
pub(crate) fn nearer_edge<V: HasPosition, DE, UE, F>(
    dcel: &Dcel<V, DE, UE, F>,
    other: FixedDirectedEdgeHandle,
    point: Point2<V::Scalar>,
) -> FixedDirectedEdgeHandle
    requires can { CanMeasure V.place dcel.now (place_of V.Scalar.whole point) }
    requires within { other < length dcel.now.directed }
    ensures { result < length dcel.now.directed }
{
    let from = dcel.directed_edge(other).from().fix();
    let nearest = nearer_sample(dcel, from, point);
    match dcel.vertex(nearest).out_edge() {
        Some(edge) if nearest != from => edge.fix(),
        _ => other,
    }
}

/// Where positions are, in a mesh with its points. What each call gives is said at `Embedding`.
pub trait LocationViews<V: HasPosition, DE, UE, F, P: PlaneTests<V::Scalar>> {
    ghost reading: { Self → Reading V DE UE F P };

    /// Where a position is: the vertex, edge or face that it is on or strictly inside of, or an
    /// edge of the outline that it is beyond. The tests have to cover the position. The search
    /// begins at the vertex `hint`, or at vertex 0 where there is no such vertex: the nearer it is,
    /// the shorter the way, and the answer is right whatever it is. It takes no memory.
    fn locate_with_hint(
        &self,
        point: Point2<V::Scalar>,
        hint: FixedVertexHandle,
    ) -> PositionInTriangulation
        requires covered { P.covered (reading self.now).tests (place_of V.Scalar.whole point) };
}

impl<V: HasPosition, DE, UE, F, P: PlaneTests<V::Scalar>> LocationViews<V, DE, UE, F, P>
    for Embedding<'_, V, DE, UE, F, P> {
    ghost reading = { λ s. s };

    fn locate_with_hint(
        &self,
        point: Point2<V::Scalar>,
        hint: FixedVertexHandle,
    ) -> PositionInTriangulation
        requires covered { P.covered self.now.tests (place_of V.Scalar.whole point) }
        ensures { let d = self.now.dcel in
            Locates (map V.place d.vertices) d.mesh (place_of V.Scalar.whole point) result }
    {
        let dcel = self.dcel;
        let vertex = if (hint.index() as usize) < dcel.num_vertices() {
            dcel.vertex(hint)
        } else if dcel.num_vertices() > 0 {
            dcel.vertex(FixedVertexHandle::from_index(0))
        } else {
            return PositionInTriangulation::NoTriangulation;
        };
        let Some(start) = vertex.out_edge() else {
            return place_by_scan(self, point);
        };
        match walk_from(self, point, start.fix()) {
            Some(place) => place,
            None => place_by_scan(self, point),
        }
    }
}
