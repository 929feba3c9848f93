//! A flood over the edges of a mesh that have a point in a shape: from those found, to those beside
//! them in their faces.
ghost use Rattle.std.specs.Prelude.{◌≡◌, ◌<◌, ◌/◌, [], length, map, All, IfOk};
ghost use Rattle.std.specs.Prelude.{replicate, false, OnOk};
ghost use Rattle.delaunay_shapes.specs.Flood.{HasBegunWith, IsAsked, IsSpread, IsSpreadTo, Spreads};
ghost use Rattle.delaunay_shapes.specs.InShape.{AreEdgesInShape, undirected_of};
ghost use Rattle.delaunay_shapes.specs.ShapeSearch.{AsksBesideFor, AsksFor, EnclosesEdge};
ghost use Rattle.delaunay_shapes.specs.ShapeSearch.{IsFloodFor};

use crate::shape_search::ShapeSearch;
use crate::{DistanceMetric, Marks};
use delaunay_core::math::PlaneTests;
use delaunay_core::point::HasPosition;
use delaunay_location::LocationViews;
use half_edge_dcel::MeshViews;
use half_edge_links::{FixedDirectedEdgeHandle, FixedVertexHandle};
use std::alloc::{AllocError, Global};

// The edges that a flood has asked of, and those of them that have a point in the shape, each in
// the direction on whose left the flood goes on: it comes from the other side.
#[derive(Drop)]
pub(crate) struct EdgeFlood {
    pub(crate) asked: Marks,
    pub(crate) found: Vec<FixedDirectedEdgeHandle>,
}

impl EdgeFlood {
    // One that has asked of none of so many edges.
    pub(crate) fn new(count: usize, alloc: Global) -> EdgeFlood
        ensures asked { result.asked ≡ replicate count false }
        ensures found { result.found.items ≡ [] }
    {
        EdgeFlood {
            asked: Marks::new(count, alloc),
            found: Vec::new(alloc),
        }
    }
}

impl<
    'a,
    V: HasPosition,
    DE,
    UE,
    F,
    M: DistanceMetric<V::Scalar>,
    P: PlaneTests<V::Scalar>,
> ShapeSearch<'a, V, DE, UE, F, M, P> {
    // Asks the metric of an edge that was not asked before, and keeps its other side where it has a
    // point in the shape.
    #[inline(never)]
    fn ask_new(
        &self,
        edge: FixedDirectedEdgeHandle,
        flood: &mut EdgeFlood,
    ) -> Result<(), AllocError>
        requires new { ¬ IsAsked flood.old.asked (edge / 2) }
        requires within { edge / 2 < length self.now.dcel.undirected }
        requires flooding { IsFloodFor V.place M.shape self.now flood.old }
        ensures { OnOk result (AsksFor V.place M.shape self.now flood.old flood.new edge) }
    {
        let whole = edge.as_undirected();
        flood.asked.mark(whole.index())?;
        if self.has_edge(whole) {
            flood.found.push(edge.rev())?;
        }
        Ok(())
    }

    // Asks the metric of an edge, unless it was asked before, and keeps its other side where it has
    // a point in the shape.
    #[inline(always)]
    fn ask(&self, edge: FixedDirectedEdgeHandle, flood: &mut EdgeFlood) -> Result<(), AllocError>
        requires within { edge / 2 < length self.now.dcel.undirected }
        requires flooding { IsFloodFor V.place M.shape self.now flood.old }
        ensures { OnOk result (AsksFor V.place M.shape self.now flood.old flood.new edge) }
    {
        if flood.asked.is_marked(edge.as_undirected().index()) {
            return Ok(());
        }
        self.ask_new(edge, flood)
    }

    // Asks of the edges before and after an edge in its loop.
    #[inline(always)]
    pub(crate) fn ask_beside(
        &self,
        edge: FixedDirectedEdgeHandle,
        flood: &mut EdgeFlood,
    ) -> Result<(), AllocError>
        requires within { edge < length self.now.dcel.directed }
        requires flooding { IsFloodFor V.place M.shape self.now flood.old }
        ensures { OnOk result (AsksBesideFor V.place M.shape self.now flood.old flood.new edge) }
    {
        let edge = self.embedding.dcel.directed_edge(edge);
        let after = edge.next().fix();
        let before = edge.prev().fix();
        self.ask(after, flood)?;
        self.ask(before, flood)
    }

    // Goes on from the edges that a flood began with, to both sides.
    pub(crate) fn spread_starts(&self, flood: &mut EdgeFlood) -> Result<(), AllocError>
        requires { IsFloodFor V.place M.shape self.now flood.old }
        ensures flooding { OnOk result (IsFloodFor V.place M.shape self.now flood.new) }
        ensures on { OnOk result (Spreads flood.old.asked flood.new.asked flood.old.found.items
            flood.new.found.items) }
        ensures spread { OnOk result (IsSpreadTo self.now.dcel.mesh flood.new.asked
            flood.new.found.items 0 (length flood.old.found.items)) }
    {
        for index in 0..flood.found.len() {
            let edge = self.embedding.dcel.directed_edge(flood.found[index]);
            self.ask_beside(edge.rev().fix(), flood)?;
            self.ask_beside(edge.fix(), flood)?;
        }
        Ok(())
    }

    // Goes on from each edge found to those beside it, until none is new.
    fn spread(&self, flood: &mut EdgeFlood) -> Result<(), AllocError>
        requires { IsFloodFor V.place M.shape self.now flood.old }
        ensures flooding { OnOk result (IsFloodFor V.place M.shape self.now flood.new) }
        ensures on { OnOk result (Spreads flood.old.asked flood.new.asked flood.old.found.items
            flood.new.found.items) }
        ensures spread { OnOk result (IsSpread self.now.dcel.mesh flood.new.asked
            flood.new.found.items) }
    {
        let mut index = flood.found.len();
        self.spread_starts(flood)?;
        'edges: while index < flood.found.len() {
            let edge = self.embedding.dcel.directed_edge(flood.found[index]).fix();
            self.ask_beside(edge, flood)?;
            index += 1;
        }
        Ok(())
    }

    // Asks of edges of which one has a point in the shape, if any edge has: those at the centre of
    // a circle or at the lower corner of a rectangle, or, where that is outside, an outer edge.
    // They are looked for from the vertex `hint` on.
    pub(crate) fn ask_starts(
        &self,
        hint: FixedVertexHandle,
        flood: &mut EdgeFlood,
        alloc: Global,
    ) -> Result<(), AllocError>
        requires { IsFloodFor V.place M.shape self.now flood.old }
        ensures flooding { OnOk result (IsFloodFor V.place M.shape self.now flood.new) }
        ensures begun { OnOk result (HasBegunWith (EnclosesEdge V.place M.shape self.now)
            (length self.now.dcel.undirected) flood.new.asked) }
    {
        let location = self.embedding.locate_with_hint(self.start, hint);
        let starts = self.edges_at(location, alloc)?;
        for edge in starts.as_slice() {
            self.ask(edge.as_directed(), flood)?;
        }
        Ok(())
    }

    // The edges with a point in the shape, each once and in one of its directions. The first is
    // looked for from the vertex `hint` on.
    pub(crate) fn edges_from(
        &self,
        hint: FixedVertexHandle,
        alloc: Global,
    ) -> Result<Vec<FixedDirectedEdgeHandle>, AllocError>
        ensures exact { IfOk result (λ v. AreEdgesInShape (M.shape self.now.metric)
            (map V.place self.now.dcel.vertices) self.now.dcel.mesh (undirected_of v.items)) }
        ensures within { IfOk result (λ v. All (λ e. e < length self.now.dcel.directed) v.items) }
    {
        let mut flood = EdgeFlood::new(self.embedding.dcel.num_undirected_edges(), alloc);
        self.ask_starts(hint, &mut flood, alloc)?;
        self.spread(&mut flood)?;
        let EdgeFlood { found, .. } = flood;
        Ok(found)
    }
}
