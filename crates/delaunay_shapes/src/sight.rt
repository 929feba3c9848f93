//! Whether a segment is a line of sight.
ghost use Rattle.std.specs.Prelude.{◌↔◌, map, All, IsTrue};
ghost use Rattle.plane_theorems.specs.{IsInSight};
ghost use Rattle.{delaunay_core.specs.place_of, plane.specs.InRange, plane.specs.whole as fraction};
ghost use Rattle.delaunay_legalization.specs.{state_of, triangulation_of};
ghost use Rattle.delaunay_shapes.specs.{Beside.by_place, Passing.GoesFree};

use crate::FreeFaces;
use crate::items::Sight;
use crate::places::is_in_free;
use delaunay_core::math::PlaneTests;
use delaunay_core::point::{HasPosition, Point2};
use delaunay_legalization::Embedding;
use delaunay_location::{HasMesh, LineViews};
use half_edge_links::FixedVertexHandle;

// Whether a segment passes free faces at each item that it meets. The search for its start begins
// at the vertex `hint`.
fn goes_free<'a, V: HasPosition, DE, UE, F, G: FreeFaces, P: PlaneTests<V::Scalar>>(
    embedding: &Embedding<'a, V, DE, UE, F, P>,
    from: Point2<V::Scalar>,
    to: Point2<V::Scalar>,
    hint: FixedVertexHandle,
    free: &'a G,
) -> bool
    requires from_covered { P.covered embedding.now.tests (place_of V.Scalar.whole from) }
    requires to_covered { P.covered embedding.now.tests (place_of V.Scalar.whole to) }
    ensures { GoesFree (triangulation_of V.place (state_of embedding.now.dcel))
        (by_place (G.free free.now)) (fraction (place_of V.Scalar.whole from))
        (fraction (place_of V.Scalar.whole to)) result }
{
    let mut line = embedding.line_between(from, to, hint);
    let sight = Sight {
        dcel: line.dcel,
        free,
        from,
        to,
        tests: embedding.tests,
    };
    sight.passes_each(&mut line)
}

/// Whether each point of the segment between two positions is in a closed free face. So the segment
/// enters no face that is not free and does not leave the hull; it may go through corners of faces
/// that are not free, and along an edge with a free face on one side. A position sees itself where
/// it is in a closed free face. The tests cover both positions and have the vertices as sites. It
/// takes no memory.
///
/// ```
/// let seen = is_in_sight(&hall, guard, door, &floor, &ExactTests);
/// ```
pub fn is_in_sight<
    T: HasMesh<V, DE, UE, F>,
    V: HasPosition,
    DE,
    UE,
    F,
    G: FreeFaces,
    P: PlaneTests<V::Scalar>,
>(triangulation: &T, from: Point2<V::Scalar>, to: Point2<V::Scalar>, free: &G, tests: &P) -> bool
    requires sites { let points = map V.place (T.mesh_state triangulation.now).vertices in
        All InRange points → All (P.sites tests.now) points }
    requires from_covered { P.covered tests.now (place_of V.Scalar.whole from) }
    requires to_covered { P.covered tests.now (place_of V.Scalar.whole to) }
    ensures { let s = T.mesh_state triangulation.now in
        IsTrue result ↔ IsInSight (triangulation_of V.place s) (by_place (G.free free.now))
        (fraction (place_of V.Scalar.whole from)) (fraction (place_of V.Scalar.whole to)) }
{
    let start = triangulation.search_start(from, tests);
    let end = triangulation.search_start(to, tests);
    let dcel = triangulation.mesh();
    let embedding = Embedding { dcel, tests };
    if !is_in_free(&embedding, from, start, free) {
        return false;
    }
    if !is_in_free(&embedding, to, end, free) {
        return false;
    }
    goes_free(&embedding, from, to, start, free)
}
