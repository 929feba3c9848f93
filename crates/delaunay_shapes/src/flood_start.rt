//! The edges that a flood begins with, by the location of the shape's start.
ghost use Rattle.std.specs.Prelude.{◌≡◌, ℕ, ◌/◌, ◌<◌, ◌≤◌};
ghost use Rattle.std.specs.Prelude.{length, All, IfNone, IfOk, IfSome, Contains, Some};
ghost use Rattle.half_edge_links.specs.{face, face_edge, out_edge};
ghost use Rattle.delaunay_location.specs.{HasHandle};
ghost use Rattle.delaunay_shapes.specs.{ShapeSearch.EnclosesEdge, Start.HasSides, Start.HasStarts};

use crate::DistanceMetric;
use crate::shape_search::ShapeSearch;
use delaunay_core::math::PlaneTests;
use delaunay_core::point::HasPosition;
use delaunay_location::PositionInTriangulation;
use half_edge_dcel::{Dcel, MeshViews};
use half_edge_links::{
    FixedDirectedEdgeHandle, FixedFaceHandle, FixedUndirectedEdgeHandle, FixedVertexHandle,
};
use std::alloc::{AllocError, Global};

// An edge at a vertex, if it has one.
fn edge_at_vertex<V, DE, UE, F>(
    dcel: &Dcel<V, DE, UE, F>,
    vertex: FixedVertexHandle,
    alloc: Global,
) -> Result<Vec<FixedUndirectedEdgeHandle>, AllocError>
    requires { vertex < length dcel.now.vertices }
    ensures starts { IfOk result (λ v. (h : ℕ) → out_edge dcel.now.mesh vertex ≡ Some h →
        Contains v.items (h / 2)) }
    ensures within { IfOk result (λ v. All (λ e. e < length dcel.now.undirected) v.items) }
{
    let mut starts = Vec::new(alloc);
    if let Some(edge) = dcel.vertex(vertex).out_edge() {
        starts.push(edge.as_undirected().fix())?;
    }
    Ok(starts)
}

// A list of one edge, without its direction.
fn edge_alone<V, DE, UE, F>(
    dcel: &Dcel<V, DE, UE, F>,
    edge: FixedDirectedEdgeHandle,
    alloc: Global,
) -> Result<Vec<FixedUndirectedEdgeHandle>, AllocError>
    requires { edge < length dcel.now.directed }
    ensures starts { IfOk result (λ v. Contains v.items (edge / 2)) }
    ensures within { IfOk result (λ v. All (λ e. e < length dcel.now.undirected) v.items) }
{
    let edge = dcel.directed_edge(edge).as_undirected().fix();
    let starts = vec![in alloc; edge]?;
    Ok(starts)
}

// The sides of an inner face.
fn sides_of_face<V, DE, UE, F>(
    dcel: &Dcel<V, DE, UE, F>,
    face: FixedFaceHandle,
    alloc: Global,
) -> Result<Vec<FixedUndirectedEdgeHandle>, AllocError>
    requires positive { 0 < face }
    requires within { face ≤ length dcel.now.faces }
    ensures starts { IfOk result (λ v. HasSides dcel.now.mesh v.items
        (face_edge dcel.now.mesh face)) }
    ensures within { IfOk result (λ v. All (λ e. e < length dcel.now.undirected) v.items) }
{
    let edge = dcel.face(face).adjacent_edge();
    let first = edge.as_undirected().fix();
    let second = edge.next().as_undirected().fix();
    let third = edge.prev().as_undirected().fix();
    let starts = vec![in alloc; first, second, third]?;
    Ok(starts)
}

impl<
    'a,
    V: HasPosition,
    DE,
    UE,
    F,
    M: DistanceMetric<V::Scalar>,
    P: PlaneTests<V::Scalar>,
> ShapeSearch<'a, V, DE, UE, F, M, P> {
    // An outer edge with a point in the shape, by a look along the outline.
    fn outer_edge(&self) -> Option<FixedDirectedEdgeHandle>
        ensures some { IfSome result (λ e. (e < length self.now.dcel.directed) ×
            EnclosesEdge V.place M.shape self.now (e / 2)) }
        ensures none { IfNone result ((h : ℕ) → h < length self.now.dcel.mesh.half_edges →
            face self.now.dcel.mesh h ≡ 0 → ¬ EnclosesEdge V.place M.shape self.now (h / 2)) }
    {
        let embedding = &self.embedding;
        for edge in embedding.dcel.convex_hull() {
            let edge = edge.fix();
            if self.has_edge(edge.as_undirected()) {
                return Some(edge);
            }
        }
        None
    }

    // The edges to begin with from a location.
    pub(crate) fn edges_at(
        &self,
        location: PositionInTriangulation,
        alloc: Global,
    ) -> Result<Vec<FixedUndirectedEdgeHandle>, AllocError>
        requires { HasHandle self.now.dcel.mesh location }
        ensures starts { IfOk result (λ v. HasStarts (EnclosesEdge V.place M.shape self.now)
            self.now.dcel.mesh v.items location) }
        ensures within { IfOk result (λ v. All (λ e. e < length self.now.dcel.undirected) v.items) }
    {
        let dcel = self.embedding.dcel;
        match location {
            PositionInTriangulation::OnVertex(vertex) => edge_at_vertex(dcel, vertex, alloc),
            PositionInTriangulation::OnEdge(edge) => edge_alone(dcel, edge, alloc),
            PositionInTriangulation::OnFace(face) => sides_of_face(dcel, face, alloc),
            PositionInTriangulation::OutsideOfConvexHull(_) => match self.outer_edge() {
                Some(edge) => edge_alone(dcel, edge, alloc),
                None => Ok(Vec::new(alloc)),
            },
            PositionInTriangulation::NoTriangulation => Ok(Vec::new(alloc)),
        }
    }
}
