//! Which edge of a vertex is turned away next, and where the vertex lies.
ghost use Rattle.std.specs.Prelude.{◌≡◌, ◌↔◌, ◌<◌, length, IsTrue, IsFalse, IfSome};
ghost use Rattle.{delaunay_vertices.specs.Hull.IsCornerAt, half_edge_links.specs.origin};
ghost use Rattle.delaunay_vertices.specs.Star.{FindsSpoke, IsBetweenAt, IsConvexAt, IsFourStar};
ghost use Rattle.delaunay_vertices.specs.Star.{IsInnerStar, IsSpokeThat, IsTurnable};

use crate::star::{cw_edge, is_between_faces};
use delaunay_core::math::PlaneTests;
use delaunay_core::point::{HasPosition, Point2};
use delaunay_legalization::{Embedding, ccw_edge, is_strictly_within, turns_left};
use half_edge_dcel::Dcel;
use half_edge_links::FixedDirectedEdgeHandle;
use std::marker::Model;

// Where a vertex has no more edges than these, any that can be turned away is as good as another.
const FEW_EDGES: usize = 16;

// The edges of a vertex, from `first` on, in the mesh of a triangulation whose vertices are sites
// of the tests.
#[derive(Drop)]
pub(crate) struct Spokes<'a, V: HasPosition, DE, UE, F, P: PlaneTests<V::Scalar>> {
    pub(crate) dcel: &'a Dcel<V, DE, UE, F>,
    pub(crate) first: FixedDirectedEdgeHandle,
    pub(crate) tests: &'a P,
}

impl<'a, V: HasPosition, DE, UE, F, P: PlaneTests<V::Scalar>> Model
    for Spokes<'a, V, DE, UE, F, P> {
    ghost use Rattle.std.specs.Prelude.{map};
    ghost use Rattle.delaunay_vertices.specs.Star.{HasSpoke, Surrounding};

    ghost Value = { Surrounding DE };

    ghost view = { λ s. record {
      points = map V.place s.dcel.now.vertices;
      mesh = s.dcel.now.mesh;
      directed = s.dcel.now.directed;
      first = s.first;
    } };

    ghost invariant = { λ s. HasSpoke V.place P.sites s.dcel.now s.tests.now s.first };
}

impl<'a, V: HasPosition, DE, UE, F, P: PlaneTests<V::Scalar>> Spokes<'a, V, DE, UE, F, P> {
    // Whether the edge after an edge, round the vertex where they start, lies across a strictly
    // convex quadrilateral.
    fn is_convex_at(&self, edge: FixedDirectedEdgeHandle) -> bool
        requires { edge < length self.now.directed }
        ensures { IsTrue result ↔ IsConvexAt self.now.points self.now.mesh edge }
    {
        let embedding = Embedding {
            dcel: self.dcel,
            tests: self.tests,
        };
        let second = ccw_edge(self.dcel, edge);
        let third = ccw_edge(self.dcel, second);
        let centre = embedding.start_of(edge);
        let before = embedding.end_of(edge);
        let corner = embedding.end_of(second);
        let after = embedding.end_of(third);
        turns_left(before, corner, after, self.tests)
            && turns_left(centre, before, after, self.tests)
    }

    // Whether the face that a turn of the edge after an edge makes, beyond the vertex where they
    // start, has not the next neighbour inside its circle. If it has, an edge of that face is
    // flipped later.
    fn is_clear_at(&self, edge: FixedDirectedEdgeHandle) -> bool
        requires within { edge < length self.now.directed }
        requires convex { IsConvexAt self.now.points self.now.mesh edge }
    {
        let embedding = Embedding {
            dcel: self.dcel,
            tests: self.tests,
        };
        let second = ccw_edge(self.dcel, edge);
        let third = ccw_edge(self.dcel, second);
        let beyond = embedding.end_of(ccw_edge(self.dcel, third));
        let before = embedding.end_of(edge);
        let corner = embedding.end_of(second);
        let after = embedding.end_of(third);
        !self.tests.is_in_circle(before, corner, after, beyond)
    }

    // Whether the edge after an edge lies between two faces, across a strictly convex
    // quadrilateral.
    fn is_turnable(&self, edge: FixedDirectedEdgeHandle) -> bool
        requires { edge < length self.now.directed }
        ensures { IsTrue result ↔ IsTurnable self.now.points self.now.mesh edge }
    {
        self.is_convex_at(edge) && is_between_faces(self.dcel, edge)
    }

    // The same, and with `is_clear` that a turn makes a face that may well stay.
    fn is_wanted(&self, edge: FixedDirectedEdgeHandle, is_clear: bool) -> bool
        requires { edge < length self.now.directed }
        ensures turnable { IsTrue result → IsTurnable self.now.points self.now.mesh edge }
        ensures all { IsFalse is_clear → IsTurnable self.now.points self.now.mesh edge
            → IsTrue result }
    {
        self.is_turnable(edge) && (!is_clear || self.is_clear_at(edge))
    }

    // Of so many edges, one before an edge that can be turned away; with `is_clear`, one where a
    // turn makes a face that may well stay.
    fn find_turnable(&self, count: usize, is_clear: bool) -> Option<FixedDirectedEdgeHandle>
        ensures some { IfSome result (IsSpokeThat IsTurnable self.now) }
        ensures finds { IsFalse is_clear → FindsSpoke IsTurnable self.now count result }
    {
        let mut edge = self.first;
        for i in 0..count {
            if self.is_wanted(edge, is_clear) {
                return Some(edge);
            }
            edge = ccw_edge(self.dcel, edge);
        }
        None
    }

    // Of so many edges, one before an edge across a strictly convex quadrilateral.
    fn find_convex(&self, count: usize) -> Option<FixedDirectedEdgeHandle>
        ensures { FindsSpoke IsConvexAt self.now count result }
    {
        let mut edge = self.first;
        for i in 0..count {
            if self.is_convex_at(edge) {
                return Some(edge);
            }
            edge = ccw_edge(self.dcel, edge);
        }
        None
    }

    // The same of a vertex inside the hull: any, or, where there are many, if possible such a one
    // that few edges have to be flipped later.
    pub(crate) fn choose_edge(&self, count: usize) -> Option<FixedDirectedEdgeHandle>
        ensures { FindsSpoke IsConvexAt self.now count result }
    {
        if count > FEW_EDGES {
            if let Some(edge) = self.find_turnable(count, true) {
                return Some(edge);
            }
        }
        self.find_convex(count)
    }

    // The same of a vertex on the hull, where the edge that is turned away lies between two faces.
    pub(crate) fn choose_hull_edge(&self, count: usize) -> Option<FixedDirectedEdgeHandle>
        ensures { FindsSpoke IsTurnable self.now count result }
    {
        if count > FEW_EDGES {
            if let Some(edge) = self.find_turnable(count, true) {
                return Some(edge);
            }
        }
        self.find_turnable(count, false)
    }

    // Whether the vertex, on the hull with the outer face on the right of `first`, is a corner of
    // the hull.
    pub(crate) fn is_corner(&self) -> bool
        ensures { IsTrue result ↔ IsCornerAt self.now.points self.now.mesh self.now.first }
    {
        let embedding = Embedding {
            dcel: self.dcel,
            tests: self.tests,
        };
        let last = cw_edge(self.dcel, self.first);
        let centre = embedding.start_of(self.first);
        let from = embedding.end_of(self.first);
        let to = embedding.end_of(last);
        turns_left(centre, from, to, self.tests)
    }

    // Of `first` and the edge after it, one whose end is one of the two neighbours between which
    // the vertex is. It has four edges.
    pub(crate) fn edge_beside_line(&self) -> FixedDirectedEdgeHandle
        requires { IsFourStar self.now.points self.now.mesh self.now.first }
        ensures star { IsInnerStar self.now.points self.now.mesh
            (origin self.now.mesh self.now.first) result 4 }
        ensures between { IsBetweenAt self.now.points self.now.mesh result }
    {
        let embedding = Embedding {
            dcel: self.dcel,
            tests: self.tests,
        };
        let second = ccw_edge(self.dcel, self.first);
        let opposite = ccw_edge(self.dcel, second);
        let centre = embedding.start_of(self.first);
        let from = embedding.end_of(self.first);
        let to = embedding.end_of(opposite);
        if is_strictly_within(from, to, centre, self.tests) {
            self.first
        } else {
            second
        }
    }
}

// Where the next look begins after a turn at an edge: at this edge of the same vertex, or, where
// there are many, at the one before it, since its quadrilateral is another now.
pub(crate) fn edge_to_go_on<V, DE, UE, F>(
    dcel: &Dcel<V, DE, UE, F>,
    edge: FixedDirectedEdgeHandle,
    count: usize,
    if_few: FixedDirectedEdgeHandle,
) -> FixedDirectedEdgeHandle
    requires within { edge < length dcel.now.directed }
    requires few_within { if_few < length dcel.now.directed }
    requires few_starts { origin dcel.now.mesh if_few ≡ origin dcel.now.mesh edge }
    ensures within { result < length dcel.now.directed }
    ensures starts { origin dcel.now.mesh result ≡ origin dcel.now.mesh edge }
{
    if count > FEW_EDGES {
        cw_edge(dcel, edge)
    } else {
        if_few
    }
}
