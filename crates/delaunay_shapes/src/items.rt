//! Whether a segment passes free faces at what it meets.
ghost use Rattle.std.specs.Prelude.{◌≡◌, ◌≢◌, ◌↔◌, ◌<◌, List, length, IsTrue};
ghost use Rattle.plane.specs.{across, Item, on};
ghost use Rattle.half_edge_links.specs.{origin, rev};
ghost use Rattle.delaunay_location.specs.{AreLeft, IsReady, item_in, mesh_of};
ghost use Rattle.delaunay_shapes.specs.{Beside.IsFreeBeside, Passing.Passes, Passing.PassesEach};

use crate::FreeFaces;
use crate::edges::{is_free_along, is_free_beside};
use delaunay_core::line_side_info::LineSideInfo;
use delaunay_core::math::PlaneTests;
use delaunay_core::point::{HasPosition, Point2};
use delaunay_legalization::Embedding;
use delaunay_location::{Intersection, LineIntersectionIterator};
use half_edge_dcel::{Dcel, DirectedEdgeHandle};
use half_edge_links::FixedDirectedEdgeHandle;
use std::marker::Model;

/// A segment over the mesh of a triangulation with free faces, and tests that cover its ends and
/// have the vertices as sites.
#[derive(Drop)]
pub(crate) struct Sight<'a, V: HasPosition, DE, UE, F, G: FreeFaces, P: PlaneTests<V::Scalar>> {
    pub(crate) dcel: &'a Dcel<V, DE, UE, F>,
    pub(crate) free: &'a G,
    pub(crate) from: Point2<V::Scalar>,
    pub(crate) to: Point2<V::Scalar>,
    pub(crate) tests: &'a P,
}

impl<'a, V: HasPosition, DE, UE, F, G: FreeFaces, P: PlaneTests<V::Scalar>> Model
    for Sight<'a, V, DE, UE, F, G, P> {
    ghost use Rattle.delaunay_core.specs.{place_of};
    ghost use Rattle.{delaunay_location.specs.IsOverMesh, delaunay_shapes.specs.Passing.Looking};

    ghost Value = { Looking V DE UE F G P };

    ghost view = { λ s. record {
      dcel = s.dcel.now;
      free = s.free.now;
      from = place_of V.Scalar.whole s.from;
      to = place_of V.Scalar.whole s.to;
      tests = s.tests.now;
    } };

    ghost invariant = { λ s. IsOverMesh V.place P.sites P.covered s.dcel.now s.tests.now
        (place_of V.Scalar.whole s.from) (place_of V.Scalar.whole s.to) };
}

impl<'a, V: HasPosition, DE, UE, F, G: FreeFaces, P: PlaneTests<V::Scalar>> Sight<
    'a,
    V,
    DE,
    UE,
    F,
    G,
    P,
> {
    // Whether the face on the left of an edge is free, or else a position, which is seen on this
    // side along the edge, is on its line.
    fn is_free_unless_on(&self, edge: FixedDirectedEdgeHandle, side: LineSideInfo) -> bool
        requires { edge < length self.now.dcel.directed }
        ensures { IsTrue result ↔
            (side ≢ on → IsFreeBeside self.now.dcel.mesh (G.free self.now.free) edge) }
    {
        side.is_on_line() || is_free_beside(self.dcel, edge, self.free)
    }

    // Whether the faces that the segment has beside an edge that it crosses are free.
    fn crosses_free(&self, edge: &DirectedEdgeHandle<'a, V, DE, UE, F>) -> bool
        requires { edge.now.dcel.now ≡ self.now.dcel }
        ensures { let m = self.now.dcel.mesh in let h = edge.now.index in
            IsTrue result ↔
            Passes V.place G.free self.now (across (origin m h) (origin m (rev h))) }
    {
        let twin = edge.rev().fix();
        let edge = edge.fix();
        let embedding = Embedding {
            dcel: self.dcel,
            tests: self.tests,
        };
        self.is_free_unless_on(twin, embedding.side_along(twin, self.from))
            && self.is_free_unless_on(edge, embedding.side_along(edge, self.to))
    }

    // Whether those that it has beside an item that it meets are: one of the two beside an edge
    // that it runs along.
    fn passes(&self, item: &Intersection<'a, V, DE, UE, F>) -> bool
        requires { (mesh_of item.now).now ≡ self.now.dcel }
        ensures { IsTrue result ↔ Passes V.place G.free self.now (item_in item.now) }
    {
        match item {
            Intersection::EdgeIntersection(edge) => self.crosses_free(edge),
            Intersection::VertexIntersection(_) => true,
            Intersection::EdgeOverlap(edge) => is_free_along(self.dcel, edge.fix(), self.free),
        }
    }

    // Whether those beside each item of a line are.
    pub(crate) fn passes_each(
        &self,
        line: &mut LineIntersectionIterator<'a, V, DE, UE, F, P>,
    ) -> bool
        requires mesh { line.old.dcel.now ≡ self.now.dcel }
        requires ready { IsReady V.place V.Scalar.whole P.sites P.covered line.old }
        ensures { (items : List Item) → AreLeft V.place V.Scalar.whole line.old items →
            IsTrue result ↔ PassesEach V.place G.free self.now items }
    {
        while let Some(item) = line.next() {
            if !self.passes(&item) {
                return false;
            }
        }
        true
    }
}
