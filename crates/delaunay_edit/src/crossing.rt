//! The edges that cross a segment between two vertices, in the lists from which they are turned.
ghost use Rattle.std.specs.Prelude.{◌≡◌, ◌<◌, [], length, map, MatchOption, OnOk};
ghost use Rattle.delaunay_edit.specs.Lists.{HaveRoom, KeepRoom, ListSubconstraint};

use delaunay_core::math::PlaneTests;
use delaunay_core::point::HasPosition;
use delaunay_legalization::Embedding;
use delaunay_location::{Intersection, LineViews};
use half_edge_links::{FixedDirectedEdgeHandle, FixedVertexHandle};
use std::alloc::{AllocError, Global};

/// The lists of the edges that cross a segment, each from its right to its left. What stands in
/// them between two edits has no meaning, but the room for it stays.
#[derive(Drop)]
pub struct CrossingLists {
    // Those that could not be turned when they were seen last.
    pub(crate) waiting: Vec<FixedDirectedEdgeHandle>,
    // Those that are to be seen: the last one is the next.
    pub(crate) unseen: Vec<FixedDirectedEdgeHandle>,
}

impl CrossingLists {
    /// Empty lists, without room.
    pub fn new(alloc: Global) -> Self
        ensures waiting { result.waiting.items ≡ [] }
        ensures unseen { result.unseen.items ≡ [] }
    {
        CrossingLists {
            waiting: Vec::new(alloc),
            unseen: Vec::new(alloc),
        }
    }

    /// Makes room for so many edges in each list. It gives `AllocError` where memory was refused.
    pub fn reserve(&mut self, edges: usize) -> Result<(), AllocError>
        ensures { OnOk result (HaveRoom edges self.new) }
    {
        self.waiting.clear();
        self.waiting.reserve(edges)?;
        self.unseen.clear();
        self.unseen.reserve(edges)
    }

    // Lists the edges that cross the first subconstraint of the path between two vertices, in place
    // of what was listed, and gives the vertex where it ends, unless the two are one. All of them
    // wait, in their order on the way. It is one walk, which stops at that vertex.
    pub(crate) fn list_subconstraint<V: HasPosition, DE, UE, F, P: PlaneTests<V::Scalar>>(
        &mut self,
        embedding: &Embedding<'_, V, DE, UE, F, P>,
        from: FixedVertexHandle,
        to: FixedVertexHandle,
    ) -> Option<FixedVertexHandle>
        requires ends { let vertices = embedding.now.dcel.vertices in
            (from < length vertices) × (to < length vertices) }
        requires room { HaveRoom (length embedding.now.dcel.undirected) self.old }
        ensures subconstraint { MatchOption result (from ≡ to) (λ v. ListSubconstraint
            (map V.place embedding.now.dcel.vertices) embedding.now.dcel from to v self.new) }
        ensures room { KeepRoom self.old self.new }
    {
        if from == to {
            return None;
        }
        self.waiting.clear();
        self.unseen.clear();
        let mut line = embedding.line_between_vertices(from, to);
        while let Some(item) = line.next() {
            match item {
                Intersection::EdgeIntersection(edge) => {
                    self.waiting.push_reserved(edge.rev().fix());
                }
                Intersection::VertexIntersection(vertex) => {
                    let next = vertex.fix();
                    if next != from {
                        return Some(next);
                    }
                }
                Intersection::EdgeOverlap(_) => {}
            }
        }
        unreachable!()
    }
}
