//! A way without the positions that it can do without.
ghost use Rattle.std.specs.Prelude.{map, All, IfOk, OnOk};
ghost use Rattle.plane.specs.{InRange, IsVertex, vertex, whole as fraction};
ghost use Rattle.{delaunay_core.specs.place_of, plane_theorems.specs.Ways.Chains.IsChain};
ghost use Rattle.{delaunay_legalization.specs.triangulation_of, delaunay_shapes.specs.by_place};
ghost use Rattle.delaunay_ways.specs.{Pulling.CanGoOn, Pulling.GoesOn, Ways.IsWay};

use crate::near::is_seen;
use delaunay_core::math::PlaneTests;
use delaunay_core::point::{HasPosition, Point2};
use delaunay_legalization::position_of;
use delaunay_location::HasMesh;
use delaunay_shapes::FreeFaces;
use half_edge_links::FixedVertexHandle;
use std::alloc::{AllocError, Global};

// Goes on to a position that is in sight of the last one: positions before it from which it is seen
// become the last one. Searches begin at the vertex `near`.
fn go_on<
    T: HasMesh<V, DE, UE, F>,
    V: HasPosition,
    DE,
    UE,
    F,
    G: FreeFaces,
    P: PlaneTests<V::Scalar>,
>(
    triangulation: &T,
    way: &mut Vec<Point2<V::Scalar>>,
    next: Point2<V::Scalar>,
    near: FixedVertexHandle,
    free: &G,
    tests: &P,
) -> Result<(), AllocError>
    requires sites { let points = map V.place (T.mesh_state triangulation.now).vertices in
        All InRange points → All (P.sites tests.now) points }
    requires way_covered { All (λ x. P.covered tests.now (place_of V.Scalar.whole x))
        way.old.items }
    requires next_covered { P.covered tests.now (place_of V.Scalar.whole next) }
    requires seen { CanGoOn (triangulation_of V.place (T.mesh_state triangulation.now))
        (by_place (G.free free.now)) (map (place_of V.Scalar.whole) way.old.items)
        (place_of V.Scalar.whole next) }
    ensures covered { OnOk result (All (λ x. P.covered tests.now (place_of V.Scalar.whole x))
        way.new.items) }
    ensures goes_on { OnOk result (GoesOn
        (triangulation_of V.place (T.mesh_state triangulation.now)) (by_place (G.free free.now))
        (map (place_of V.Scalar.whole) way.old.items) (place_of V.Scalar.whole next)
        (map (place_of V.Scalar.whole) way.new.items)) }
{
    while way.len() > 1 {
        if !is_seen(triangulation, way[way.len() - 2], next, near, free, tests) {
            break;
        }
        way.pop();
    }
    way.push(next)?;
    Ok(())
}

/// A taut way from one position over vertices of a path to another.
pub(crate) fn pull_taut<
    T: HasMesh<V, DE, UE, F>,
    V: HasPosition,
    DE,
    UE,
    F,
    G: FreeFaces,
    P: PlaneTests<V::Scalar>,
>(
    triangulation: &T,
    from: Point2<V::Scalar>,
    to: Point2<V::Scalar>,
    path: &[u32],
    free: &G,
    tests: &P,
    alloc: Global,
) -> Result<Vec<Point2<V::Scalar>>, AllocError>
    requires sites { let points = map V.place (T.mesh_state triangulation.now).vertices in
        All InRange points → All (P.sites tests.now) points }
    requires from_covered { P.covered tests.now (place_of V.Scalar.whole from) }
    requires to_covered { P.covered tests.now (place_of V.Scalar.whole to) }
    requires exist { All (IsVertex (triangulation_of V.place (T.mesh_state triangulation.now)))
        path.now }
    requires chain { let t = triangulation_of V.place (T.mesh_state triangulation.now) in
        IsChain t (by_place (G.free free.now)) (fraction (place_of V.Scalar.whole from))
        (map (vertex t) path.now) (fraction (place_of V.Scalar.whole to)) }
    ensures { IfOk result (λ way. IsWay (triangulation_of V.place (T.mesh_state triangulation.now))
        (by_place (G.free free.now)) (place_of V.Scalar.whole from) (place_of V.Scalar.whole to)
        (map (place_of V.Scalar.whole) way.items)) }
{
    let dcel = triangulation.mesh();
    let mut way = Vec::new(alloc);
    way.push(from)?;
    for vertex in path {
        let near = FixedVertexHandle::from_index(*vertex);
        let next = position_of(dcel, near);
        go_on(triangulation, &mut way, next, near, free, tests)?;
    }
    let near = triangulation.search_start(to, tests);
    go_on(triangulation, &mut way, to, near, free, tests)?;
    Ok(way)
}
