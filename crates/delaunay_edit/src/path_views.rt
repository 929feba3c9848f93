//! The paths between vertices, read: whether a constraint crosses one, and its edges.
ghost use Rattle.std.specs.Prelude.{◌↔◌, ◌<◌, ◌≤◌, length, map, vec_capacity, IsTrue};
ghost use Rattle.delaunay_legalization.specs.{Reading};
ghost use Rattle.delaunay_edit.specs.{Adding.CanAddPath, PathEdges.HasPath, PathEdges.LeadAlong};

use delaunay_core::math::PlaneTests;
use delaunay_core::point::HasPosition;
use delaunay_legalization::{ConstraintMarker, Embedding};
use delaunay_location::{ConflictingEdgesIterator, Intersection, LineViews};
use half_edge_dcel::MeshViews;
use half_edge_links::{FixedDirectedEdgeHandle, FixedVertexHandle};

/// The paths between vertices, in a mesh with its points.
pub trait PathViews<V: HasPosition, DE, UE, F, P: PlaneTests<V::Scalar>> {
    ghost reading: { Self → Reading V DE UE F P };

    /// Whether no constraint crosses the segment between two vertices. Where an edge joins them, a
    /// look round the first tells.
    fn can_add_path<M: ConstraintMarker<UE>>(
        &self,
        from: FixedVertexHandle,
        to: FixedVertexHandle,
    ) -> bool
        requires from_in { from < length (reading self.now).dcel.vertices }
        requires to_in { to < length (reading self.now).dcel.vertices }
        ensures { IsTrue result ↔
            CanAddPath V.place M.constraints (reading self.now).dcel from to };

    /// The edges along the path between two vertices, in order, where each of its subconstraints is
    /// one, by one walk. They replace what is in `edges`, which has room for as many as there are
    /// vertices.
    fn edges_along(
        &self,
        from: FixedVertexHandle,
        to: FixedVertexHandle,
        edges: &mut Vec<FixedDirectedEdgeHandle>,
    )
        requires from_in { from < length (reading self.now).dcel.vertices }
        requires to_in { to < length (reading self.now).dcel.vertices }
        requires joined { let d = (reading self.now).dcel in
            HasPath (map V.place d.vertices) d.mesh from to }
        requires room { length (reading self.now).dcel.vertices ≤ vec_capacity edges.old }
        ensures { let d = (reading self.now).dcel in
            LeadAlong (map V.place d.vertices) d.mesh from to edges.new.items };
}

impl<V: HasPosition, DE, UE, F, P: PlaneTests<V::Scalar>> PathViews<V, DE, UE, F, P>
    for Embedding<'_, V, DE, UE, F, P> {
    ghost reading = { λ s. s };

    fn can_add_path<M: ConstraintMarker<UE>>(
        &self,
        from: FixedVertexHandle,
        to: FixedVertexHandle,
    ) -> bool {
        if self.dcel.get_edge_from_neighbors(from, to).is_some() {
            return true;
        }
        let mut conflicts = ConflictingEdgesIterator::<M, _, _, _, _, _>::between_vertices(
            self, from, to,
        );
        conflicts.next().is_none()
    }

    fn edges_along(
        &self,
        from: FixedVertexHandle,
        to: FixedVertexHandle,
        edges: &mut Vec<FixedDirectedEdgeHandle>,
    ) {
        edges.clear();
        if from == to {
            return;
        }
        let mut at = from;
        let mut line = self.line_between_vertices(from, to);
        while let Some(item) = line.next() {
            match item {
                Intersection::EdgeIntersection(_) => {}
                Intersection::VertexIntersection(vertex) => {
                    let next = vertex.fix();
                    if next != at {
                        let Some(edge) = self.dcel.get_edge_from_neighbors(at, next) else {
                            unreachable!()
                        };
                        edges.push_reserved(edge.fix());
                        at = next;
                    }
                }
                Intersection::EdgeOverlap(_) => {}
            }
        }
    }
}
