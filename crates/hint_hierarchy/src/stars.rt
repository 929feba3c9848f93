//! The stars of a layer's vertices, each in one place, so that a search waits for memory about once
//! a vertex that it passes, and not once for each edge and each neighbour.
ghost use Rattle.{delaunay_core.specs.place_of, plane.specs.InRange};

use crate::star::Star;
use delaunay_core::point::{Point2, SpadeNum};
use delaunay_interface::{DelaunayTriangulation, Triangulation};
use half_edge_links::FixedVertexHandle;
use std::alloc::Global;

/// The star of each vertex, by index.
#[derive(Clone, Drop)]
pub(crate) struct Stars {
    stars: Vec<Star>,
}

impl Stars {
    pub(crate) fn new(alloc: Global) -> Self {
        Stars {
            stars: Vec::new(alloc),
        }
    }

    /// Takes up the vertex that was inserted last; whether it is a new one, and there was memory.
    /// Of a neighbour's former edges those are gone that lay between its edges to the neighbours
    /// beside it.
    pub(crate) fn take_up<S: SpadeNum>(
        &mut self,
        triangulation: &DelaunayTriangulation<Point2<S>>,
        vertex: FixedVertexHandle,
    ) -> bool {
        if vertex.index() as usize != self.stars.len() {
            return false;
        }
        let Some(vertex) = triangulation.get_vertex(vertex) else {
            return false;
        };
        let star = Star::of(&vertex);
        if self.stars.push(star).is_err() {
            return false;
        }
        for edge in vertex.out_edges() {
            let end = edge.to();
            let is_on_hull = edge.is_outer_edge() || edge.rev().is_outer_edge();
            let (before, after) = (edge.ccw().to().fix(), edge.cw().to().fix());
            if let Some(former) = self.stars.get_mut(end.fix().index() as usize) {
                if is_on_hull || !former.put_between(before, star.centre, after) {
                    *former = Star::of(&end);
                }
            }
        }
        true
    }

    /// Renews the stars of some vertices, after a removal of a vertex, whose index the last one has
    /// taken.
    pub(crate) fn renew<S: SpadeNum>(
        &mut self,
        triangulation: &DelaunayTriangulation<Point2<S>>,
        removed: FixedVertexHandle,
        changed: &[FixedVertexHandle],
    ) {
        let count = triangulation.num_vertices();
        self.stars.truncate(count);
        let last = FixedVertexHandle::from_index(u32::try_from(count).unwrap_or(0));
        if let Some(moved) = triangulation.get_vertex(removed) {
            for edge in moved.out_edges() {
                if let Some(star) = self.stars.get_mut(edge.to().fix().index() as usize) {
                    star.rename(last, removed);
                }
            }
        }
        for vertex in changed {
            if let (Some(vertex), Some(star)) = (
                triangulation.get_vertex(*vertex),
                self.stars.get_mut(vertex.index() as usize),
            ) {
                *star = Star::of(&vertex);
            }
        }
    }

    /// A vertex that none of its neighbours that are kept is nearer to a position than, by moves
    /// from `start` to the nearest neighbour, and whether all its neighbours are kept.
    pub(crate) fn near(&self, start: u32, position: Point2<i64>) -> (u32, bool)
        requires { InRange (place_of (λ z. z) position) }
    {
        let Some(star) = self.stars.get(start as usize) else {
            return (0, false);
        };
        let mut nearest = star.candidate(position);
        for _ in 0..self.stars.len() {
            let Some(star) = self.stars.get(nearest.vertex as usize) else {
                break;
            };
            let nearer = star.nearest_or(nearest, position);
            if nearer.vertex == nearest.vertex {
                return (nearest.vertex, star.keeps_all());
            }
            nearest = nearer;
        }
        (nearest.vertex, false)
    }
}
