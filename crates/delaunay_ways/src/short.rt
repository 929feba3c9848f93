//! A chain over vertices that is as short as it can be made at each of them.
ghost use Rattle.std.specs.Prelude.{◌≡◌, ◌<◌, ◌++◌, ◌∷◌, length, map, All, reverse};
ghost use Rattle.std.specs.Prelude.{IfOk, IfSome, IsTrue, OnOk};
ghost use Rattle.plane.specs.{InRange, IsVertex, vertex, whole as fraction};
ghost use Rattle.{delaunay_core.specs.place_of, plane_theorems.specs.Ways.Chains.IsChain};
ghost use Rattle.delaunay_legalization.specs.{state_of, triangulation_of};
ghost use Rattle.{delaunay_shapes.specs.by_place};
ghost use Rattle.delaunay_ways.specs.{Turning.end_place, Turning.IsTurnOf, Ways.IsPathBetween};

use crate::near::is_seen;
use crate::turns::{Turn, go_round};
use delaunay_core::math::PlaneTests;
use delaunay_core::point::{HasPosition, Point2};
use delaunay_legalization::{Embedding, position_of};
use delaunay_location::HasMesh;
use delaunay_shapes::FreeFaces;
use half_edge_dcel::Dcel;
use half_edge_links::FixedVertexHandle;
use std::alloc::{AllocError, Global};

// Whether each position is in sight of the next: from one over vertices to another. Searches begin
// at a vertex.
fn is_chain<
    T: HasMesh<V, DE, UE, F>,
    V: HasPosition,
    DE,
    UE,
    F,
    G: FreeFaces,
    P: PlaneTests<V::Scalar>,
>(
    triangulation: &T,
    from: Point2<V::Scalar>,
    vertices: &[u32],
    to: Point2<V::Scalar>,
    start: FixedVertexHandle,
    free: &G,
    tests: &P,
) -> bool
    requires sites { let points = map V.place (T.mesh_state triangulation.now).vertices in
        All InRange points → All (P.sites tests.now) points }
    requires from_covered { P.covered tests.now (place_of V.Scalar.whole from) }
    requires to_covered { P.covered tests.now (place_of V.Scalar.whole to) }
    requires exist { All (IsVertex (triangulation_of V.place (T.mesh_state triangulation.now)))
        vertices.now }
    ensures { let t = triangulation_of V.place (T.mesh_state triangulation.now) in
        IsTrue result → IsChain t (by_place (G.free free.now))
        (fraction (place_of V.Scalar.whole from)) (map (vertex t) vertices.now)
        (fraction (place_of V.Scalar.whole to)) }
{
    let dcel = triangulation.mesh();
    let mut here = from;
    let mut near = start;
    for vertex in vertices {
        near = FixedVertexHandle::from_index(*vertex);
        let next = position_of(dcel, near);
        if !is_seen(triangulation, here, next, near, free, tests) {
            return false;
        }
        here = next;
    }
    is_seen(triangulation, here, to, near, free, tests)
}

// The vertices that a chain may go over in place of one, if it is shorter then.
fn round_vertex<V: HasPosition, DE, UE, F, G: FreeFaces, P: PlaneTests<V::Scalar>>(
    embedding: &Embedding<'_, V, DE, UE, F, P>,
    turn: Turn<V::Scalar>,
    vertex: FixedVertexHandle,
    free: &G,
    alloc: Global,
) -> Result<Option<Vec<u32>>, AllocError>
    requires turn { IsTurnOf (P.covered embedding.now.tests) V.Scalar.whole turn }
    requires vertex { vertex < length embedding.now.dcel.vertices }
    ensures { IfOk result (λ found. IfSome found
        (λ chain. All (λ v. v < length embedding.now.dcel.vertices) chain.items)) }
{
    if !embedding
        .tests
        .side(turn.first, turn.at, turn.last)
        .is_on_left_side()
    {
        return go_round(embedding, turn, vertex, free, alloc);
    }
    let mirrored = Turn {
        first: turn.last,
        at: turn.at,
        last: turn.first,
    };
    let Some(mut chain) = go_round(embedding, mirrored, vertex, free, alloc)? else {
        return Ok(None);
    };
    chain.reverse();
    Ok(Some(chain))
}

// The vertices of a shorter chain from one position to another than that over a vertex, if there is
// one beside it.
fn shorter<
    T: HasMesh<V, DE, UE, F>,
    V: HasPosition,
    DE,
    UE,
    F,
    G: FreeFaces,
    P: PlaneTests<V::Scalar>,
>(
    triangulation: &T,
    from: Point2<V::Scalar>,
    vertex: FixedVertexHandle,
    to: Point2<V::Scalar>,
    free: &G,
    tests: &P,
    alloc: Global,
) -> Result<Option<Vec<u32>>, AllocError>
    requires sites { let points = map V.place (T.mesh_state triangulation.now).vertices in
        All InRange points → All (P.sites tests.now) points }
    requires from_covered { P.covered tests.now (place_of V.Scalar.whole from) }
    requires to_covered { P.covered tests.now (place_of V.Scalar.whole to) }
    requires exists { IsVertex (triangulation_of V.place (T.mesh_state triangulation.now)) vertex }
    ensures { IfOk result (λ found. IfSome found (λ chain.
        IsPathBetween (triangulation_of V.place (T.mesh_state triangulation.now))
        (by_place (G.free free.now)) (fraction (place_of V.Scalar.whole from))
        (fraction (place_of V.Scalar.whole to)) chain.items)) }
{
    if is_seen(triangulation, from, to, vertex, free, tests) {
        return Ok(Some(Vec::new(alloc)));
    }
    let dcel = triangulation.mesh();
    let at = position_of(dcel, vertex);
    let turn = Turn {
        first: from,
        at,
        last: to,
    };
    let embedding = Embedding { dcel, tests };
    let Some(chain) = round_vertex(&embedding, turn, vertex, free, alloc)? else {
        return Ok(None);
    };
    if is_chain(triangulation, from, &chain, to, vertex, free, tests) {
        Ok(Some(chain))
    } else {
        Ok(None)
    }
}

// Where a chain from a position over vertices is at the last one.
fn end_of<V: HasPosition, DE, UE, F>(
    dcel: &Dcel<V, DE, UE, F>,
    from: Point2<V::Scalar>,
    vertices: &[u32],
) -> Point2<V::Scalar>
    requires { All (IsVertex (triangulation_of V.place (state_of dcel.now))) vertices.now }
    ensures { place_of V.Scalar.whole result ≡
        end_place (triangulation_of V.place (state_of dcel.now)) (place_of V.Scalar.whole from)
        vertices.now }
{
    match vertices.last() {
        Some(vertex) => position_of(dcel, FixedVertexHandle::from_index(*vertex)),
        None => from,
    }
}

// Puts vertices before those that are left, which lie in a list from the last one to the first.
fn put_before(left: &mut Vec<u32>, chain: Vec<u32>) -> Result<(), AllocError>
    ensures { OnOk result (reverse left.new.items ≡ chain.items ++ reverse left.old.items) }
{
    let mut chain = chain;
    while let Some(vertex) = chain.pop() {
        left.push(vertex)?;
    }
    Ok(())
}

// Goes on by a vertex that follows those that are done: it is done too, or else a shorter chain
// comes in its place, and the vertex before it is looked at again.
fn go_on<
    T: HasMesh<V, DE, UE, F>,
    V: HasPosition,
    DE,
    UE,
    F,
    G: FreeFaces,
    P: PlaneTests<V::Scalar>,
>(
    triangulation: &T,
    from: Point2<V::Scalar>,
    to: Point2<V::Scalar>,
    done: &mut Vec<u32>,
    vertex: u32,
    left: &mut Vec<u32>,
    free: &G,
    tests: &P,
    alloc: Global,
) -> Result<(), AllocError>
    requires sites { let points = map V.place (T.mesh_state triangulation.now).vertices in
        All InRange points → All (P.sites tests.now) points }
    requires from_covered { P.covered tests.now (place_of V.Scalar.whole from) }
    requires to_covered { P.covered tests.now (place_of V.Scalar.whole to) }
    requires path { IsPathBetween
        (triangulation_of V.place (T.mesh_state triangulation.now)) (by_place (G.free free.now))
        (fraction (place_of V.Scalar.whole from)) (fraction (place_of V.Scalar.whole to))
        (done.old.items ++ vertex ∷ reverse left.old.items) }
    ensures { OnOk result (IsPathBetween
        (triangulation_of V.place (T.mesh_state triangulation.now)) (by_place (G.free free.now))
        (fraction (place_of V.Scalar.whole from)) (fraction (place_of V.Scalar.whole to))
        (done.new.items ++ reverse left.new.items)) }
{
    let dcel = triangulation.mesh();
    let before = end_of(dcel, from, done);
    let after = end_of(dcel, to, left);
    let here = FixedVertexHandle::from_index(vertex);
    let Some(chain) = shorter(triangulation, before, here, after, free, tests, alloc)? else {
        done.push(vertex)?;
        return Ok(());
    };
    put_before(left, chain)?;
    if let Some(last) = done.pop() {
        left.push(last)?;
    }
    Ok(())
}

// Puts those that are left behind those that are done.
fn put_behind(done: &mut Vec<u32>, left: Vec<u32>) -> Result<(), AllocError>
    ensures { OnOk result (done.new.items ≡ done.old.items ++ reverse left.items) }
{
    let mut left = left;
    while let Some(vertex) = left.pop() {
        done.push(vertex)?;
    }
    Ok(())
}

/// A path that is as short as it can be made at each of its vertices: at none of them two others
/// see each other, or are all faces free on the side to which it turns. It takes so many steps at
/// most as there are vertices, several times, and may then be longer.
pub(crate) fn shorten<
    T: HasMesh<V, DE, UE, F>,
    V: HasPosition,
    DE,
    UE,
    F,
    G: FreeFaces,
    P: PlaneTests<V::Scalar>,
>(
    triangulation: &T,
    from: Point2<V::Scalar>,
    to: Point2<V::Scalar>,
    path: Vec<u32>,
    free: &G,
    tests: &P,
    alloc: Global,
) -> Result<Vec<u32>, AllocError>
    requires sites { let points = map V.place (T.mesh_state triangulation.now).vertices in
        All InRange points → All (P.sites tests.now) points }
    requires from_covered { P.covered tests.now (place_of V.Scalar.whole from) }
    requires to_covered { P.covered tests.now (place_of V.Scalar.whole to) }
    requires path { IsPathBetween
        (triangulation_of V.place (T.mesh_state triangulation.now)) (by_place (G.free free.now))
        (fraction (place_of V.Scalar.whole from)) (fraction (place_of V.Scalar.whole to))
        path.items }
    ensures { IfOk result (λ short. IsPathBetween
        (triangulation_of V.place (T.mesh_state triangulation.now)) (by_place (G.free free.now))
        (fraction (place_of V.Scalar.whole from)) (fraction (place_of V.Scalar.whole to))
        short.items) }
{
    let steps = triangulation.mesh().num_vertices().saturating_mul(8);
    let mut done: Vec<u32> = Vec::new(alloc);
    let mut left = path;
    left.reverse();
    for _ in 0..steps {
        let Some(vertex) = left.pop() else {
            break;
        };
        go_on(
            triangulation,
            from,
            to,
            &mut done,
            vertex,
            &mut left,
            free,
            tests,
            alloc,
        )?;
    }
    put_behind(&mut done, left)?;
    Ok(done)
}
