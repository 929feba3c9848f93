//! A way through free faces.
ghost use Rattle.std.specs.Prelude.{map, All, IfOk, MatchOption};
ghost use Rattle.plane.specs.{InRange, IsVertex, vertex, whole as fraction};
ghost use Rattle.plane_theorems.specs.{IsInFree, Ways.Chains.IsChain, Ways.Chains.IsJoined};
ghost use Rattle.delaunay_core.specs.{place_of};
ghost use Rattle.{delaunay_legalization.specs.triangulation_of, delaunay_shapes.specs.by_place};
ghost use Rattle.delaunay_ways.specs.Ways.{IsPathBetween, IsWay};

use crate::corners::corners_at;
use crate::search::find_path;
use crate::short::shorten;
use crate::taut::pull_taut;
use delaunay_core::math::PlaneTests;
use delaunay_core::point::{HasPosition, Point2};
use delaunay_legalization::Embedding;
use delaunay_location::HasMesh;
use delaunay_shapes::{FreeFaces, is_in_sight};
use std::alloc::{AllocError, Global};

// The vertices of a chain from one position in a closed free face to another.
fn path_between<
    T: HasMesh<V, DE, UE, F>,
    V: HasPosition,
    DE,
    UE,
    F,
    G: FreeFaces,
    P: PlaneTests<V::Scalar>,
>(
    triangulation: &T,
    from: Point2<V::Scalar>,
    to: Point2<V::Scalar>,
    free: &G,
    tests: &P,
    alloc: Global,
) -> Result<Option<Vec<u32>>, AllocError>
    requires sites { let points = map V.place (T.mesh_state triangulation.now).vertices in
        All InRange points → All (P.sites tests.now) points }
    requires from_covered { P.covered tests.now (place_of V.Scalar.whole from) }
    requires to_covered { P.covered tests.now (place_of V.Scalar.whole to) }
    requires from_free { IsInFree (triangulation_of V.place (T.mesh_state triangulation.now))
        (by_place (G.free free.now)) (fraction (place_of V.Scalar.whole from)) }
    requires to_free { IsInFree (triangulation_of V.place (T.mesh_state triangulation.now))
        (by_place (G.free free.now)) (fraction (place_of V.Scalar.whole to)) }
    ensures { IfOk result (λ found. MatchOption found
        (¬ IsJoined (triangulation_of V.place (T.mesh_state triangulation.now))
        (by_place (G.free free.now)) (fraction (place_of V.Scalar.whole from))
        (fraction (place_of V.Scalar.whole to)))
        (λ vs. IsPathBetween (triangulation_of V.place (T.mesh_state triangulation.now))
        (by_place (G.free free.now)) (fraction (place_of V.Scalar.whole from))
        (fraction (place_of V.Scalar.whole to)) vs.items)) }
{
    let start = triangulation.search_start(from, tests);
    let end = triangulation.search_start(to, tests);
    let dcel = triangulation.mesh();
    let embedding = Embedding { dcel, tests };
    let Some(first) = corners_at(&embedding, from, start) else {
        return Ok(None);
    };
    let Some(last) = corners_at(&embedding, to, end) else {
        return Ok(None);
    };
    find_path(dcel, free, &first, &last, from, to, alloc)
}

/// A way from one position to another through closed free faces: positions, each in sight of the
/// next by `is_in_sight`, from `from` over vertices to `to`. None exactly where no chain of any
/// positions, each in sight of the next, joins the two. So a way may go along sides of free faces,
/// and past a corner at which two free faces meet.
///
/// The way is taut: no position between can be left out, since its two neighbours do not see each
/// other. It is the shortest among those close to it, and not always the shortest of all: no
/// contract tells its length. The tests cover both positions and have the vertices as sites. It
/// gives `AllocError` where memory was refused.
///
/// ```
/// if let Some(way) = find_way(&hall, guard, door, &floor, &ExactTests, rt.alloc())? {
///     println!(rt; "over {} corners", way.len() - 2)?;
/// }
/// ```
pub fn find_way<
    T: HasMesh<V, DE, UE, F>,
    V: HasPosition,
    DE,
    UE,
    F,
    G: FreeFaces,
    P: PlaneTests<V::Scalar>,
>(
    triangulation: &T,
    from: Point2<V::Scalar>,
    to: Point2<V::Scalar>,
    free: &G,
    tests: &P,
    alloc: Global,
) -> Result<Option<Vec<Point2<V::Scalar>>>, AllocError>
    requires sites { let points = map V.place (T.mesh_state triangulation.now).vertices in
        All InRange points → All (P.sites tests.now) points }
    requires from_covered { P.covered tests.now (place_of V.Scalar.whole from) }
    requires to_covered { P.covered tests.now (place_of V.Scalar.whole to) }
    ensures { let t = triangulation_of V.place (T.mesh_state triangulation.now) in
        let free = by_place (G.free free.now) in
        let p = place_of V.Scalar.whole from in let q = place_of V.Scalar.whole to in
        IfOk result (λ found. MatchOption found (¬ IsJoined t free (fraction p) (fraction q))
        (λ way. IsWay t free p q (map (place_of V.Scalar.whole) way.items))) }
{
    if !is_in_sight(triangulation, from, from, free, tests) {
        return Ok(None);
    }
    if !is_in_sight(triangulation, to, to, free, tests) {
        return Ok(None);
    }
    let Some(path) = path_between(triangulation, from, to, free, tests, alloc)? else {
        return Ok(None);
    };
    let path = shorten(triangulation, from, to, path, free, tests, alloc)?;
    let way = pull_taut(triangulation, from, to, &path, free, tests, alloc)?;
    Ok(Some(way))
}
