//! Where a chain of positions turns, and which vertices it may go over instead.
ghost use Rattle.std.specs.Prelude.{◌<◌, length, All, IfOk, IfSome, OnOk};
ghost use Rattle.{delaunay_core.specs.place_of, delaunay_ways.specs.Turning.IsTurnOf};

use crate::spokes::list_spokes;
use delaunay_core::line_side_info::LineSideInfo;
use delaunay_core::math::PlaneTests;
use delaunay_core::point::{HasPosition, Point2};
use delaunay_legalization::{Embedding, is_same_point};
use delaunay_location::{Intersection, LineViews};
use delaunay_shapes::FreeFaces;
use half_edge_dcel::MeshViews;
use half_edge_links::{FixedDirectedEdgeHandle, FixedVertexHandle};
use std::alloc::{AllocError, Global};

/// A chain goes from the first position to the one at a vertex, and from there to the last.
#[derive(Clone, Copy)]
pub(crate) struct Turn<S> {
    pub(crate) first: Point2<S>,
    pub(crate) at: Point2<S>,
    pub(crate) last: Point2<S>,
}

// The position where an edge starts.
fn start_of<V: HasPosition, DE, UE, F, P: PlaneTests<V::Scalar>>(
    embedding: &Embedding<'_, V, DE, UE, F, P>,
    edge: FixedDirectedEdgeHandle,
) -> Point2<V::Scalar>
    requires { edge < length embedding.now.dcel.directed }
    ensures { P.covered embedding.now.tests (place_of V.Scalar.whole result) }
{
    embedding.start_of(edge)
}

// The side of the vertex where an edge starts.
fn side_of<V: HasPosition, DE, UE, F, P: PlaneTests<V::Scalar>>(
    embedding: &Embedding<'_, V, DE, UE, F, P>,
    from: Point2<V::Scalar>,
    to: Point2<V::Scalar>,
    edge: FixedDirectedEdgeHandle,
) -> LineSideInfo
    requires edge { edge < length embedding.now.dcel.directed }
    requires from_covered { P.covered embedding.now.tests (place_of V.Scalar.whole from) }
    requires to_covered { P.covered embedding.now.tests (place_of V.Scalar.whole to) }
{
    embedding.tests.side(from, to, start_of(embedding, edge))
}

// Whether the vertex where an edge starts is strictly within the angle of a right turn.
fn is_within<V: HasPosition, DE, UE, F, P: PlaneTests<V::Scalar>>(
    embedding: &Embedding<'_, V, DE, UE, F, P>,
    turn: Turn<V::Scalar>,
    edge: FixedDirectedEdgeHandle,
) -> bool
    requires turn { IsTurnOf (P.covered embedding.now.tests) V.Scalar.whole turn }
    requires edge { edge < length embedding.now.dcel.directed }
{
    side_of(embedding, turn.first, turn.at, edge).is_on_right_side()
        && side_of(embedding, turn.at, turn.last, edge).is_on_right_side()
}

// Whether it is within the angle or on its legs.
fn is_in_angle<V: HasPosition, DE, UE, F, P: PlaneTests<V::Scalar>>(
    embedding: &Embedding<'_, V, DE, UE, F, P>,
    turn: Turn<V::Scalar>,
    edge: FixedDirectedEdgeHandle,
) -> bool
    requires turn { IsTurnOf (P.covered embedding.now.tests) V.Scalar.whole turn }
    requires edge { edge < length embedding.now.dcel.directed }
{
    !side_of(embedding, turn.first, turn.at, edge).is_on_left_side()
        && !side_of(embedding, turn.at, turn.last, edge).is_on_left_side()
}

// Whether an edge from the vertex of a turn has a face on its left that is within the angle and not
// free.
fn is_blocked<V: HasPosition, DE, UE, F, G: FreeFaces, P: PlaneTests<V::Scalar>>(
    embedding: &Embedding<'_, V, DE, UE, F, P>,
    turn: Turn<V::Scalar>,
    spoke: FixedDirectedEdgeHandle,
    free: &G,
) -> bool
    requires turn { IsTurnOf (P.covered embedding.now.tests) V.Scalar.whole turn }
    requires spoke { spoke < length embedding.now.dcel.directed }
{
    let edge = embedding.dcel.directed_edge(spoke);
    if edge.is_outer_edge() {
        return false;
    }
    if free.is_free(edge.face().fix()) {
        return false;
    }
    is_in_angle(embedding, turn, edge.rev().fix())
        && is_in_angle(embedding, turn, edge.prev().fix())
}

// Whether each face within the angle of a right turn is free.
fn is_open<V: HasPosition, DE, UE, F, G: FreeFaces, P: PlaneTests<V::Scalar>>(
    embedding: &Embedding<'_, V, DE, UE, F, P>,
    turn: Turn<V::Scalar>,
    spokes: &[FixedDirectedEdgeHandle],
    free: &G,
) -> bool
    requires turn { IsTurnOf (P.covered embedding.now.tests) V.Scalar.whole turn }
    requires spokes { All (λ h. h < length embedding.now.dcel.directed) spokes.now }
{
    for spoke in spokes {
        if is_blocked(embedding, turn, *spoke, free) {
            return false;
        }
    }
    true
}

// Adds an edge that starts strictly within the triangle of a right turn, or on its legs but for
// their ends.
fn add<V: HasPosition, DE, UE, F, P: PlaneTests<V::Scalar>>(
    embedding: &Embedding<'_, V, DE, UE, F, P>,
    turn: Turn<V::Scalar>,
    edge: FixedDirectedEdgeHandle,
    found: &mut Vec<FixedDirectedEdgeHandle>,
) -> Result<(), AllocError>
    requires turn { IsTurnOf (P.covered embedding.now.tests) V.Scalar.whole turn }
    requires edge { edge < length embedding.now.dcel.directed }
    requires found { All (λ h. h < length embedding.now.dcel.directed) found.old.items }
    ensures { OnOk result (All (λ h. h < length embedding.now.dcel.directed) found.new.items) }
{
    if is_same_point(start_of(embedding, edge), turn.at) {
        return Ok(());
    }
    if !is_in_angle(embedding, turn, edge) {
        return Ok(());
    }
    if side_of(embedding, turn.first, turn.last, edge).is_on_left_side() {
        found.push(edge)?;
    }
    Ok(())
}

// Adds the corners of the faces beside an edge.
fn add_beside<V: HasPosition, DE, UE, F, P: PlaneTests<V::Scalar>>(
    embedding: &Embedding<'_, V, DE, UE, F, P>,
    turn: Turn<V::Scalar>,
    edge: FixedDirectedEdgeHandle,
    found: &mut Vec<FixedDirectedEdgeHandle>,
) -> Result<(), AllocError>
    requires turn { IsTurnOf (P.covered embedding.now.tests) V.Scalar.whole turn }
    requires edge { edge < length embedding.now.dcel.directed }
    requires found { All (λ h. h < length embedding.now.dcel.directed) found.old.items }
    ensures { OnOk result (All (λ h. h < length embedding.now.dcel.directed) found.new.items) }
{
    let here = embedding.dcel.directed_edge(edge);
    let twin = here.rev();
    add(embedding, turn, edge, found)?;
    add(embedding, turn, twin.fix(), found)?;
    add(embedding, turn, here.prev().fix(), found)?;
    add(embedding, turn, twin.prev().fix(), found)
}

// Adds the neighbors of a vertex that are strictly within the angle of a right turn there, and
// tells whether there are any.
fn add_within<V: HasPosition, DE, UE, F, P: PlaneTests<V::Scalar>>(
    embedding: &Embedding<'_, V, DE, UE, F, P>,
    whole: Turn<V::Scalar>,
    turn: Turn<V::Scalar>,
    spokes: &[FixedDirectedEdgeHandle],
    found: &mut Vec<FixedDirectedEdgeHandle>,
) -> Result<bool, AllocError>
    requires whole { IsTurnOf (P.covered embedding.now.tests) V.Scalar.whole whole }
    requires turn { IsTurnOf (P.covered embedding.now.tests) V.Scalar.whole turn }
    requires spokes { All (λ h. h < length embedding.now.dcel.directed) spokes.now }
    requires found { All (λ h. h < length embedding.now.dcel.directed) found.old.items }
    ensures { OnOk result (All (λ h. h < length embedding.now.dcel.directed) found.new.items) }
{
    let mut any = false;
    for spoke in spokes {
        let edge = embedding.dcel.directed_edge(*spoke).rev().fix();
        if is_within(embedding, turn, edge) {
            add(embedding, whole, edge, found)?;
            any = true;
        }
    }
    Ok(any)
}

// Adds what a leg passes at a vertex: the neighbors on its right, and the vertex, where the leg
// cannot be moved to the right there.
fn add_round<V: HasPosition, DE, UE, F, G: FreeFaces, P: PlaneTests<V::Scalar>>(
    embedding: &Embedding<'_, V, DE, UE, F, P>,
    whole: Turn<V::Scalar>,
    from: Point2<V::Scalar>,
    to: Point2<V::Scalar>,
    vertex: FixedVertexHandle,
    free: &G,
    found: &mut Vec<FixedDirectedEdgeHandle>,
    alloc: Global,
) -> Result<(), AllocError>
    requires whole { IsTurnOf (P.covered embedding.now.tests) V.Scalar.whole whole }
    requires from_covered { P.covered embedding.now.tests (place_of V.Scalar.whole from) }
    requires to_covered { P.covered embedding.now.tests (place_of V.Scalar.whole to) }
    requires vertex { vertex < length embedding.now.dcel.vertices }
    requires found { All (λ h. h < length embedding.now.dcel.directed) found.old.items }
    ensures { OnOk result (All (λ h. h < length embedding.now.dcel.directed) found.new.items) }
{
    let spokes = list_spokes(embedding.dcel, vertex, alloc)?;
    let Some(spoke) = spokes.first().copied() else {
        return Ok(());
    };
    let leg = Turn {
        first: from,
        at: start_of(embedding, spoke),
        last: to,
    };
    let any = add_within(embedding, whole, leg, &spokes, found)?;
    if !any || !is_open(embedding, leg, &spokes, free) {
        add(embedding, whole, spoke, found)?;
    }
    Ok(())
}

// Adds what a leg of a turn passes.
fn add_along<V: HasPosition, DE, UE, F, G: FreeFaces, P: PlaneTests<V::Scalar>>(
    embedding: &Embedding<'_, V, DE, UE, F, P>,
    turn: Turn<V::Scalar>,
    from: Point2<V::Scalar>,
    to: Point2<V::Scalar>,
    hint: FixedVertexHandle,
    free: &G,
    found: &mut Vec<FixedDirectedEdgeHandle>,
    alloc: Global,
) -> Result<(), AllocError>
    requires turn { IsTurnOf (P.covered embedding.now.tests) V.Scalar.whole turn }
    requires from_covered { P.covered embedding.now.tests (place_of V.Scalar.whole from) }
    requires to_covered { P.covered embedding.now.tests (place_of V.Scalar.whole to) }
    requires found { All (λ h. h < length embedding.now.dcel.directed) found.old.items }
    ensures { OnOk result (All (λ h. h < length embedding.now.dcel.directed) found.new.items) }
{
    let mut line = embedding.line_between(from, to, hint);
    while let Some(item) = line.next() {
        match item {
            Intersection::EdgeIntersection(edge) => {
                add_beside(embedding, turn, edge.fix(), found)?;
            }
            Intersection::VertexIntersection(vertex) => {
                add_round(embedding, turn, from, to, vertex.fix(), free, found, alloc)?;
            }
            Intersection::EdgeOverlap(_) => {}
        }
    }
    Ok(())
}

// The edge of a list that starts farthest to the left, as seen from one position to another, if one
// starts on the left.
fn leftmost<V: HasPosition, DE, UE, F, P: PlaneTests<V::Scalar>>(
    embedding: &Embedding<'_, V, DE, UE, F, P>,
    from: Point2<V::Scalar>,
    to: Point2<V::Scalar>,
    found: &[FixedDirectedEdgeHandle],
) -> Option<FixedDirectedEdgeHandle>
    requires from_covered { P.covered embedding.now.tests (place_of V.Scalar.whole from) }
    requires to_covered { P.covered embedding.now.tests (place_of V.Scalar.whole to) }
    requires found { All (λ h. h < length embedding.now.dcel.directed) found.now }
    ensures { IfSome result (λ h. h < length embedding.now.dcel.directed) }
{
    let mut best = None;
    let mut there = to;
    for edge in found {
        if side_of(embedding, from, there, *edge).is_on_left_side() {
            there = start_of(embedding, *edge);
            best = Some(*edge);
        }
    }
    best
}

// The vertex where an edge starts.
fn vertex_of<V: HasPosition, DE, UE, F, P: PlaneTests<V::Scalar>>(
    embedding: &Embedding<'_, V, DE, UE, F, P>,
    edge: FixedDirectedEdgeHandle,
) -> u32
    requires { edge < length embedding.now.dcel.directed }
    ensures { result < length embedding.now.dcel.vertices }
{
    embedding.dcel.directed_edge(edge).from().fix().index()
}

// The vertices of the chain from one position to another that has each of these on its right.
fn hull<V: HasPosition, DE, UE, F, P: PlaneTests<V::Scalar>>(
    embedding: &Embedding<'_, V, DE, UE, F, P>,
    from: Point2<V::Scalar>,
    to: Point2<V::Scalar>,
    found: &[FixedDirectedEdgeHandle],
    alloc: Global,
) -> Result<Vec<u32>, AllocError>
    requires from_covered { P.covered embedding.now.tests (place_of V.Scalar.whole from) }
    requires to_covered { P.covered embedding.now.tests (place_of V.Scalar.whole to) }
    requires found { All (λ h. h < length embedding.now.dcel.directed) found.now }
    ensures { IfOk result (λ chain. All (λ v. v < length embedding.now.dcel.vertices) chain.items) }
{
    let mut chain = Vec::new(alloc);
    let mut here = from;
    for _ in 0..found.len() {
        let Some(edge) = leftmost(embedding, here, to, found) else {
            break;
        };
        chain.push(vertex_of(embedding, edge))?;
        here = start_of(embedding, edge);
    }
    Ok(chain)
}

/// The vertices that a chain may go over from the first position to the last in place of the vertex
/// of a right turn, if each face within the angle is free there.
pub(crate) fn go_round<V: HasPosition, DE, UE, F, G: FreeFaces, P: PlaneTests<V::Scalar>>(
    embedding: &Embedding<'_, V, DE, UE, F, P>,
    turn: Turn<V::Scalar>,
    vertex: FixedVertexHandle,
    free: &G,
    alloc: Global,
) -> Result<Option<Vec<u32>>, AllocError>
    requires turn { IsTurnOf (P.covered embedding.now.tests) V.Scalar.whole turn }
    requires vertex { vertex < length embedding.now.dcel.vertices }
    ensures { IfOk result (λ found. IfSome found
        (λ chain. All (λ v. v < length embedding.now.dcel.vertices) chain.items)) }
{
    let spokes = list_spokes(embedding.dcel, vertex, alloc)?;
    if !is_open(embedding, turn, &spokes, free) {
        return Ok(None);
    }
    let mut found = Vec::new(alloc);
    add_within(embedding, turn, turn, &spokes, &mut found)?;
    add_along(
        embedding, turn, turn.first, turn.at, vertex, free, &mut found, alloc,
    )?;
    add_along(
        embedding, turn, turn.at, turn.last, vertex, free, &mut found, alloc,
    )?;
    let chain = hull(embedding, turn.first, turn.last, &found, alloc)?;
    Ok(Some(chain))
}
