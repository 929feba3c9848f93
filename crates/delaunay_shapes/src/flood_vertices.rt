//! The vertices in a shape, each found with the edge that it names: a flood finds that, too, and
//! looks at its ends as it goes on from it.
ghost use Rattle.std.specs.Prelude.{◌≡◌, ◌↔◌, ◌<◌, length, map, IfOk};
ghost use Rattle.std.specs.Prelude.{IsTrue, OnOk, Some};
ghost use Rattle.half_edge_links.specs.{origin, out_edge};
ghost use Rattle.delaunay_shapes.specs.Flood.{AreNamedIn, IsSpread, KeepsEnds, KeepsStart, Spreads};
ghost use Rattle.delaunay_shapes.specs.InShape.{AreVerticesInShape, undirected_of};
ghost use Rattle.delaunay_shapes.specs.ShapeSearch.{EnclosesVertex, IsFloodFor};

use crate::DistanceMetric;
use crate::flood::EdgeFlood;
use crate::positions::spot_of;
use crate::shape_search::ShapeSearch;
use delaunay_core::math::PlaneTests;
use delaunay_core::point::HasPosition;
use half_edge_dcel::{Dcel, MeshViews};
use half_edge_links::{FixedDirectedEdgeHandle, FixedVertexHandle};
use std::alloc::{AllocError, Global};

// Whether the start of an edge names it.
#[inline(always)]
fn is_named<V, DE, UE, F>(dcel: &Dcel<V, DE, UE, F>, edge: FixedDirectedEdgeHandle) -> bool
    requires { edge < length dcel.now.directed }
    ensures { IsTrue result ↔
        (out_edge dcel.now.mesh (origin dcel.now.mesh edge) ≡ Some edge) }
{
    match dcel.directed_edge(edge).from().out_edge() {
        Some(named) => named.fix() == edge,
        None => false,
    }
}

impl<
    'a,
    V: HasPosition,
    DE,
    UE,
    F,
    M: DistanceMetric<V::Scalar>,
    P: PlaneTests<V::Scalar>,
> ShapeSearch<'a, V, DE, UE, F, M, P> {
    // Keeps the start of an edge, if it names this edge and is in the shape.
    #[inline(always)]
    fn keep_start(
        &self,
        edge: FixedDirectedEdgeHandle,
        found: &mut Vec<FixedVertexHandle>,
    ) -> Result<(), AllocError>
        requires { edge < length self.now.dcel.directed }
        ensures { OnOk result (KeepsStart (EnclosesVertex V.place M.shape self.now)
            self.now.dcel.mesh found.old.items found.new.items edge) }
    {
        let embedding = &self.embedding;
        if is_named(embedding.dcel, edge) {
            let vertex = embedding.dcel.directed_edge(edge).from();
            if self.metric.is_point_inside(spot_of(vertex)) {
                found.push(vertex.fix())?;
            }
        }
        Ok(())
    }

    // Keeps the ends of an edge that name it and are in the shape.
    #[inline(always)]
    fn keep_ends(
        &self,
        edge: FixedDirectedEdgeHandle,
        found: &mut Vec<FixedVertexHandle>,
    ) -> Result<(), AllocError>
        requires { edge < length self.now.dcel.directed }
        ensures { OnOk result (KeepsEnds (EnclosesVertex V.place M.shape self.now)
            self.now.dcel.mesh found.old.items found.new.items edge) }
    {
        let dcel = self.embedding.dcel;
        let edge = dcel.undirected_edge(edge.as_undirected()).as_directed();
        self.keep_start(edge.fix(), found)?;
        self.keep_start(edge.rev().fix(), found)
    }

    // The vertices in the shape that name one of the edges that a flood has found.
    fn named_inside(
        &self,
        flood: &EdgeFlood,
        alloc: Global,
    ) -> Result<Vec<FixedVertexHandle>, AllocError>
        requires { IsFloodFor V.place M.shape self.now flood.now }
        ensures { IfOk result (λ v. AreNamedIn (EnclosesVertex V.place M.shape self.now)
            self.now.dcel.mesh (undirected_of flood.now.found.items) v.items) }
    {
        let mut found = Vec::new(alloc);
        for index in 0..flood.found.len() {
            let edge = self.embedding.dcel.directed_edge(flood.found[index]);
            self.keep_ends(edge.fix(), &mut found)?;
        }
        Ok(found)
    }

    // Goes on from each edge found to those beside it, until none is new, and keeps the vertices in
    // the shape that name one of them.
    fn spread_to_vertices(
        &self,
        flood: &mut EdgeFlood,
        alloc: Global,
    ) -> Result<Vec<FixedVertexHandle>, AllocError>
        requires { IsFloodFor V.place M.shape self.now flood.old }
        ensures flooding { IfOk result (λ v. IsFloodFor V.place M.shape self.now flood.new) }
        ensures on { IfOk result (λ v. Spreads flood.old.asked flood.new.asked flood.old.found.items
            flood.new.found.items) }
        ensures spread { IfOk result (λ v. IsSpread self.now.dcel.mesh flood.new.asked
            flood.new.found.items) }
        ensures named { IfOk result (λ v. AreNamedIn (EnclosesVertex V.place M.shape self.now)
            self.now.dcel.mesh (undirected_of flood.new.found.items) v.items) }
    {
        let mut index = flood.found.len();
        let mut vertices = self.named_inside(flood, alloc)?;
        self.spread_starts(flood)?;
        'edges: while index < flood.found.len() {
            let edge = self.embedding.dcel.directed_edge(flood.found[index]).fix();
            self.ask_beside(edge, flood)?;
            self.keep_ends(edge, &mut vertices)?;
            index += 1;
        }
        Ok(vertices)
    }

    // The vertices in the shape, each once, of two vertices or more. The first edge is looked for
    // from the vertex `hint` on.
    pub(crate) fn vertices_from(
        &self,
        hint: FixedVertexHandle,
        alloc: Global,
    ) -> Result<Vec<FixedVertexHandle>, AllocError>
        requires { 1 < length self.now.dcel.vertices }
        ensures { IfOk result (λ v. AreVerticesInShape (M.shape self.now.metric)
            (map V.place self.now.dcel.vertices) v.items) }
    {
        let mut flood = EdgeFlood::new(self.embedding.dcel.num_undirected_edges(), alloc);
        self.ask_starts(hint, &mut flood, alloc)?;
        let vertices = self.spread_to_vertices(&mut flood, alloc)?;
        Ok(vertices)
    }
}
