//! Handles of the parts of a mesh, and iterators over them.
#![tactic(auto)]

ghost use Rattle.std.specs.Prelude.{◌≡◌, ◌≢◌, ◌<◌, ◌≤◌, ◌+◌, ◌↔◌, ℕ};
ghost use Rattle.std.specs.Prelude.{length, IsSome, IfNone, IfSome};
ghost use Rattle.std.specs.List.{range_with_len};
ghost use Rattle.half_edge_links.specs.{origin, rev};
ghost use Rattle.half_edge_dcel.specs.Left.{directed_edges_left, each_in, faces_left};
ghost use Rattle.half_edge_dcel.specs.Left.{undirected_edges_left, vertices_left};
ghost use Rattle.half_edge_dcel.specs.MeshContents.{Contents};
ghost use Rattle.half_edge_dcel.specs.Rounds.{GivesOuterLoop, hull_left};

use crate::edge_walk::EdgeWalk;
use crate::{
    Dcel, DirectedEdgeHandle, DirectedEdgeIterator, FaceHandle, FaceIterator, HullIterator,
    UndirectedEdgeHandle, UndirectedEdgeIterator, VertexHandle, VertexIterator,
};
use half_edge_links::{
    FixedDirectedEdgeHandle, FixedFaceHandle, FixedUndirectedEdgeHandle, FixedVertexHandle,
    reversed,
};

/// Handles of the vertices, edges and faces of a mesh, and iterators over them. What each call
/// gives is said at `Dcel`.
pub trait MeshViews<V, DE, UE, F> {
    ghost contents: { Self → Contents V DE UE F };

    /// The vertex with this name, which has to be one of this mesh.
    fn vertex(&self, vertex: FixedVertexHandle) -> VertexHandle<'_, V, DE, UE, F>
        requires { vertex < length (contents self.now).vertices };

    /// The vertex with this name, if there is one.
    fn get_vertex(&self, vertex: FixedVertexHandle) -> Option<VertexHandle<'_, V, DE, UE, F>>;

    /// The directed edge with this name, which has to be one of this mesh.
    fn directed_edge(&self, edge: FixedDirectedEdgeHandle) -> DirectedEdgeHandle<'_, V, DE, UE, F>
        requires { edge < length (contents self.now).directed };

    /// The undirected edge with this name, which has to be one of this mesh.
    fn undirected_edge(
        &self,
        edge: FixedUndirectedEdgeHandle,
    ) -> UndirectedEdgeHandle<'_, V, DE, UE, F>
        requires { edge < length (contents self.now).undirected };

    /// The face with this name, which has to be one of this mesh.
    fn face(&self, face: FixedFaceHandle) -> FaceHandle<'_, V, DE, UE, F>
        requires { face ≤ length (contents self.now).faces };

    /// The outer face, whose index is 0.
    fn outer_face(&self) -> FaceHandle<'_, V, DE, UE, F>;

    /// The edge from one vertex, which has to be one of this mesh, to another, if they are joined.
    fn get_edge_from_neighbors(
        &self,
        from: FixedVertexHandle,
        to: FixedVertexHandle,
    ) -> Option<DirectedEdgeHandle<'_, V, DE, UE, F>>
        requires { from < length (contents self.now).vertices };

    /// The vertices, by rising index.
    fn vertices(&self) -> VertexIterator<'_, V, DE, UE, F>;

    /// The directed edges, by rising index.
    fn directed_edges(&self) -> DirectedEdgeIterator<'_, V, DE, UE, F>;

    /// The undirected edges, by rising index.
    fn undirected_edges(&self) -> UndirectedEdgeIterator<'_, V, DE, UE, F>;

    /// The faces, by rising index, the outer one first.
    fn faces(&self) -> FaceIterator<'_, V, DE, UE, F>;

    /// The faces but the outer one, by rising index.
    fn inner_faces(&self) -> FaceIterator<'_, V, DE, UE, F>;

    /// The edges with the outer face on their left, clockwise round the hull.
    fn convex_hull(&self) -> HullIterator<'_, V, DE, UE, F>;
}

impl<V, DE, UE, F> MeshViews<V, DE, UE, F> for Dcel<V, DE, UE, F> {
    ghost contents = { λ c. c };

    fn vertex(&self, vertex: FixedVertexHandle) -> VertexHandle<'_, V, DE, UE, F>
        requires { vertex < length self.now.vertices }
        ensures dcel { result.dcel ≡ self.entry }
        ensures index { result.index ≡ vertex }
    {
        VertexHandle {
            dcel: self,
            index: vertex.index(),
        }
    }

    fn get_vertex(&self, vertex: FixedVertexHandle) -> Option<VertexHandle<'_, V, DE, UE, F>>
        ensures in_range { IsSome result ↔ (vertex < length self.now.vertices) }
        ensures vertex { IfSome result (λ v. (v.dcel ≡ self.entry) × (v.index ≡ vertex)) }
    {
        if (vertex.index() as usize) < self.num_vertices() {
            Some(self.vertex(vertex))
        } else {
            None
        }
    }

    fn directed_edge(&self, edge: FixedDirectedEdgeHandle) -> DirectedEdgeHandle<'_, V, DE, UE, F>
        requires { edge < length self.now.directed }
        ensures dcel { result.dcel ≡ self.entry }
        ensures index { result.index ≡ edge }
    {
        DirectedEdgeHandle {
            dcel: self,
            index: edge.index(),
        }
    }

    fn undirected_edge(
        &self,
        edge: FixedUndirectedEdgeHandle,
    ) -> UndirectedEdgeHandle<'_, V, DE, UE, F>
        requires { edge < length self.now.undirected }
        ensures dcel { result.dcel ≡ self.entry }
        ensures index { result.index ≡ edge }
    {
        UndirectedEdgeHandle {
            dcel: self,
            index: edge.index(),
        }
    }

    fn face(&self, face: FixedFaceHandle) -> FaceHandle<'_, V, DE, UE, F>
        requires { face ≤ length self.now.faces }
        ensures dcel { result.dcel ≡ self.entry }
        ensures index { result.index ≡ face }
    {
        FaceHandle {
            dcel: self,
            index: face.index(),
        }
    }

    fn outer_face(&self) -> FaceHandle<'_, V, DE, UE, F>
        ensures dcel { result.dcel ≡ self.entry }
        ensures index { result.index ≡ 0 }
    {
        FaceHandle {
            dcel: self,
            index: 0,
        }
    }

    fn get_edge_from_neighbors(
        &self,
        from: FixedVertexHandle,
        to: FixedVertexHandle,
    ) -> Option<DirectedEdgeHandle<'_, V, DE, UE, F>>
        requires { from < length self.now.vertices }
        ensures some { let m = self.now.mesh in
            IfSome result (λ e. (e.dcel ≡ self.entry) × (origin m e.index ≡ from) ×
            (origin m (rev e.index) ≡ to)) }
        ensures none { let m = self.now.mesh in
            IfNone result ((h : ℕ) → h < length self.now.directed → origin m h ≡ from →
            origin m (rev h) ≢ to) }
    {
        let count = self.num_directed_edges();
        let links = self.links();
        let first = links.out_edge(from.index())?;
        let target = to.index();
        let mut edge = first;
        let mut end = links.half_edge(reversed(first)).origin;
        for _ in 0..count {
            if end == target {
                return Some(DirectedEdgeHandle {
                    dcel: self,
                    index: edge,
                });
            }
            end = links.prev_origin(edge);
            edge = reversed(links.half_edge(edge).prev);
            if edge == first {
                return None;
            }
        }
        None
    }

    fn vertices(&self) -> VertexIterator<'_, V, DE, UE, F>
        ensures { vertices_left result ≡ each_in self.entry
            (range_with_len 0 (length self.now.vertices)) }
    {
        VertexIterator {
            dcel: self,
            rest: self.fixed_vertices(),
        }
    }

    fn directed_edges(&self) -> DirectedEdgeIterator<'_, V, DE, UE, F>
        ensures { directed_edges_left result ≡ each_in self.entry
            (range_with_len 0 (length self.now.directed)) }
    {
        DirectedEdgeIterator {
            dcel: self,
            rest: self.fixed_directed_edges(),
        }
    }

    fn undirected_edges(&self) -> UndirectedEdgeIterator<'_, V, DE, UE, F>
        ensures { undirected_edges_left result ≡ each_in self.entry
            (range_with_len 0 (length self.now.undirected)) }
    {
        UndirectedEdgeIterator {
            dcel: self,
            rest: self.fixed_undirected_edges(),
        }
    }

    fn faces(&self) -> FaceIterator<'_, V, DE, UE, F>
        ensures { faces_left result ≡ each_in self.entry
            (range_with_len 0 (length self.now.faces + 1)) }
    {
        FaceIterator {
            dcel: self,
            rest: self.fixed_faces(),
        }
    }

    fn inner_faces(&self) -> FaceIterator<'_, V, DE, UE, F>
        ensures { faces_left result ≡ each_in self.entry
            (range_with_len 1 (length self.now.faces)) }
    {
        FaceIterator {
            dcel: self,
            rest: self.fixed_inner_faces(),
        }
    }

    fn convex_hull(&self) -> HullIterator<'_, V, DE, UE, F>
        ensures { GivesOuterLoop self.entry (hull_left result) }
    {
        HullIterator {
            walk: EdgeWalk::from(self, self.links().outer_edge()),
        }
    }
}
