//! How far the nearest vertex is.
ghost use Rattle.std.specs.Prelude.{◌≡◌, ◌⊎◌, ◌≤ℤ◌, length, MatchOption};
ghost use Rattle.{plane.specs.InRange, triangulate_run.specs.Stage.position};
ghost use Rattle.{delaunay_edit.specs.none, delaunay_legalization.specs.triangulation_of};
ghost use Rattle.triangulate_run.specs.{Answer.IsVertexDistance, Engine.HasSites, Engine.stage_by};
ghost use Rattle.triangulate_run.specs.declared.reply.Reply.TheVariants.{Distance, NoNeighbor};

use crate::engine::Plain;
use crate::reply::Reply;
use delaunay_core::HintGenerator;
use delaunay_core::math::PlaneTests;
use delaunay_core::point::Point2;
use delaunay_interface::Triangulation;
use half_edge_links::FixedVertexHandle;

/// The least squared distance to a vertex, by the search of a triangulation without constraints.
pub(crate) fn nearest_of_plain<L: HintGenerator<i64>, P: PlaneTests<i64>>(
    triangulation: &Plain<L>,
    tests: &P,
    point: Point2<i64>,
) -> Option<i64>
    requires covered { P.covered tests.now (position point) }
    requires sites { HasSites (P.sites tests.now) (stage_by none triangulation.now) }
    ensures { MatchOption result (length triangulation.now.vertices ≡ 0)
        (IsVertexDistance (triangulation_of position triangulation.now) (position point)) }
{
    triangulation.recall_invariant();
    match triangulation.nearest_neighbor(point, tests) {
        Some(vertex) => Some(point.distance_2(*vertex.data())),
        None => None,
    }
}

/// The same by a look at all vertices.
pub(crate) fn nearest_of_all<T: Triangulation<Vertex = Point2<i64>>>(
    triangulation: &T,
    point: Point2<i64>,
) -> Option<i64>
    requires { InRange (position point) }
    ensures { let s = T.state triangulation.now in MatchOption result (length s.vertices ≡ 0)
        (IsVertexDistance (triangulation_of position s) (position point)) }
{
    triangulation.recall_invariant();
    let mut least = None;
    for index in 0..triangulation.num_vertices() {
        let vertex = triangulation.vertex(FixedVertexHandle::from_index(index as u32));
        least = Some(lesser(least, point.distance_2(*vertex.data())));
    }
    least
}

/// The lesser of two numbers, the first of which may be missing.
fn lesser(first: Option<i64>, second: i64) -> i64
    ensures { MatchOption first (result ≡ second)
        (λ x. ((result ≡ x) × (x ≤ℤ second)) ⊎ ((result ≡ second) × (second ≤ℤ x))) }
{
    match first {
        Some(first) if first < second => first,
        _ => second,
    }
}

/// The distance to the nearest vertex, or that there is none.
pub(crate) fn distance_reply(distance_2: Option<i64>) -> Reply
    ensures { MatchOption distance_2 (result ≡ NoNeighbor) (λ d. result ≡ Distance d) }
{
    match distance_2 {
        Some(distance_2) => Reply::Distance(distance_2),
        None => Reply::NoNeighbor,
    }
}
