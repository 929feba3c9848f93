//! The items that a segment meets, one after another.
ghost use Rattle.std.specs.Iterator.{at_most};
ghost use Rattle.delaunay_location.specs.Walk.{GivesNext, IsReady};

use crate::crossing::{after_crossing, after_overlap};
use crate::vertex::after_vertex;
use crate::{FixedIntersection, Intersection};
use delaunay_core::math::PlaneTests;
use delaunay_core::point::{HasPosition, Point2};
use delaunay_legalization::{Embedding, is_same_point};
use half_edge_dcel::{Dcel, MeshViews};

/// The vertices and edges that a segment meets, in the order along the segment. No call takes
/// memory. A call of `next` looks at the edges of one vertex at most. After the last item it gives
/// `None` as often as it is asked.
///
/// ```
/// for item in LineIntersectionIterator::new(&points, from, to, &ExactTests) {
///     if let Some(edge) = item.as_edge_intersection() {
///         println!(rt; "across edge {}", edge.fix().index())?;
///     }
/// }
/// ```
#[derive(Drop)]
pub struct LineIntersectionIterator<'a, V: HasPosition, DE, UE, F, P: PlaneTests<V::Scalar>> {
    pub dcel: &'a Dcel<V, DE, UE, F>,
    pub tests: &'a P,
    pub from: Point2<V::Scalar>,
    pub to: Point2<V::Scalar>,
    pub current: Option<FixedIntersection>,
    // No more items come than these.
    pub left: usize,
}

impl<'a, V: HasPosition, DE, UE, F, P: PlaneTests<V::Scalar> + 'a> Iterator
    for LineIntersectionIterator<'a, V, DE, UE, F, P> {
    type Item = Intersection<'a, V, DE, UE, F>;

    ghost can_next = { IsReady V.place V.Scalar.whole P.sites P.covered };

    ghost next_gives = { GivesNext V.place V.Scalar.whole };

    ghost remaining = { λ it. at_most it.left };

    fn next(&mut self) -> Option<Intersection<'a, V, DE, UE, F>> {
        let item = self.current?;
        let embedding = Embedding {
            dcel: self.dcel,
            tests: self.tests,
        };
        let (from, to) = (self.from, self.to);
        let next = match item {
            _ if is_same_point(from, to) => None,
            FixedIntersection::Edge(edge) => after_crossing(&embedding, from, to, edge),
            FixedIntersection::Vertex(vertex) => after_vertex(&embedding, from, to, vertex),
            FixedIntersection::Overlap(edge) => after_overlap(&embedding, from, to, edge),
        };
        let found = match item {
            FixedIntersection::Edge(edge) => {
                Intersection::EdgeIntersection(self.dcel.directed_edge(edge))
            }
            FixedIntersection::Vertex(vertex) => {
                Intersection::VertexIntersection(self.dcel.vertex(vertex))
            }
            FixedIntersection::Overlap(edge) => {
                Intersection::EdgeOverlap(self.dcel.directed_edge(edge))
            }
        };
        self.current = next;
        self.left -= 1;
        Some(found)
    }

    fn size_hint(&self) -> (usize, Option<usize>) {
        (0, Some(self.left))
    }
}
