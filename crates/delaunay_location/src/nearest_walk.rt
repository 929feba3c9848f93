//! The vertex that is nearest to a position, by a walk from neighbour to neighbour.
ghost use Rattle.std.specs.Prelude.{◌≡◌, ◌≢◌, ℕ, ◌+◌, ◌<◌, ◌≤◌, ◌^◌, [], length, map};
ghost use Rattle.std.specs.Prelude.{MatchOption};
ghost use Rattle.plane.specs.{gap, InRange, IsConstrainedDelaunay, IsNearest, place};
ghost use Rattle.half_edge_links.specs.{next, origin, rev};
ghost use Rattle.{delaunay_core.specs.place_of, plane.specs.whole as fraction};
ghost use Rattle.delaunay_legalization.specs.{IsTriangulated, state_of, triangulation_of};
ghost use Rattle.delaunay_location.specs.Candidate.{EndsNoNearer, HasNoNearerNeighbor, IsCandidate};
ghost use Rattle.delaunay_location.specs.Candidate.{IsMoveCount, IsNearerCandidate, IsReached};
ghost use Rattle.{delaunay_location.specs.Distances.CanMeasure, plane_theorems.specs.nearer_count};

use crate::samples::nearer_sample;
use crate::vertex_distance::distance_2_to;
use delaunay_core::point::{HasPosition, Point2};
use delaunay_legalization::ccw_edge;
use half_edge_dcel::{Dcel, MeshViews};
use half_edge_links::{FixedDirectedEdgeHandle, FixedVertexHandle};

// After so many moves a walk looks for a nearer vertex anywhere in the mesh.
const FEW_MOVES: u64 = 16;

// A vertex that may be the nearest one to a position: an edge that starts there and ends no nearer,
// and the vertex's squared distance. A walk comes to a vertex by an edge whose other direction is
// such a one, and which it has just read.
#[derive(Drop)]
pub(crate) struct Candidate {
    pub(crate) spoke: FixedDirectedEdgeHandle,
    pub(crate) distance_2: i64,
}

// An edge that starts at a vertex, if there is one.
fn spoke_of<V, DE, UE, F>(
    dcel: &Dcel<V, DE, UE, F>,
    vertex: FixedVertexHandle,
) -> Option<FixedDirectedEdgeHandle>
    requires { vertex < length dcel.now.vertices }
    ensures { let m = dcel.now.mesh in
        MatchOption result ((h : ℕ) → h < length m.half_edges → origin m h ≢ vertex)
        (λ e. (e < length dcel.now.directed) × (origin m e ≡ vertex)) }
{
    Some(dcel.vertex(vertex).out_edge()?.fix())
}

// The next edge clockwise round the vertex where an edge starts.
#[inline(always)]
fn edge_clockwise<V, DE, UE, F>(
    dcel: &Dcel<V, DE, UE, F>,
    edge: FixedDirectedEdgeHandle,
) -> FixedDirectedEdgeHandle
    requires { edge < length dcel.now.directed }
    ensures value { result ≡ next dcel.now.mesh (rev edge) }
    ensures within { result < length dcel.now.directed }
{
    dcel.directed_edge(edge).cw().fix()
}

// The end of an edge as a candidate, if it is nearer than the edge's start, which has the squared
// distance `distance_2`. Both distances are squared, so no root is taken.
#[inline(always)]
fn nearer_end<V: HasPosition, DE, UE, F>(
    dcel: &Dcel<V, DE, UE, F>,
    edge: FixedDirectedEdgeHandle,
    end: FixedVertexHandle,
    distance_2: i64,
    point: Point2<V::Scalar>,
) -> Option<Candidate>
    requires can { CanMeasure V.place dcel.now (place_of V.Scalar.whole point) }
    requires within { edge < length dcel.now.directed }
    requires end { end ≡ origin dcel.now.mesh (rev edge) }
    requires start { distance_2 ≡ gap (fraction (place_of V.Scalar.whole point))
        (place (map V.place dcel.now.vertices) (origin dcel.now.mesh edge)) }
    ensures { let points = map V.place dcel.now.vertices in
        let p = place_of V.Scalar.whole point in
        MatchOption result (EndsNoNearer points dcel.now.mesh p edge)
        (IsNearerCandidate points dcel.now.mesh p (origin dcel.now.mesh edge)) }
{
    let at_end_2 = distance_2_to(dcel, end, point);
    if at_end_2 < distance_2 {
        return Some(Candidate {
            spoke: edge.rev(),
            distance_2: at_end_2,
        });
    }
    None
}

// Where the edge after this one ends. In an inner face the edge before this one starts there, which
// this one's own record tells.
#[inline(always)]
fn end_after<V, DE, UE, F>(
    dcel: &Dcel<V, DE, UE, F>,
    edge: FixedDirectedEdgeHandle,
) -> FixedVertexHandle
    requires { edge < length dcel.now.directed }
    ensures { result ≡ origin dcel.now.mesh (rev (next dcel.now.mesh edge)) }
{
    let edge = dcel.directed_edge(edge);
    if edge.is_outer_edge() {
        return edge.next().to().fix();
    }
    edge.prev_from().fix()
}

// A candidate to begin with: a vertex, or a neighbour that is nearer, to which it is a move. There
// is none where the vertex has no edge.
fn first_candidate<V: HasPosition, DE, UE, F>(
    dcel: &Dcel<V, DE, UE, F>,
    from: FixedVertexHandle,
    point: Point2<V::Scalar>,
    moves: &mut u64,
) -> Option<Candidate>
    requires can { CanMeasure V.place dcel.now (place_of V.Scalar.whole point) }
    requires within { from < length dcel.now.vertices }
    requires fits { moves.old + nearer_count (triangulation_of V.place (state_of dcel.now))
        (fraction (place_of V.Scalar.whole point)) from < 2 ^ 64 }
    ensures { let points = map V.place dcel.now.vertices in
        let p = place_of V.Scalar.whole point in MatchOption result
        (HasNoNearerNeighbor points dcel.now.mesh p from × (moves.new ≡ moves.old))
        (IsReached points dcel.now.mesh p from moves.old moves.new) }
{
    let spoke = spoke_of(dcel, from)?;
    let distance_2 = distance_2_to(dcel, from, point);
    let end = dcel.directed_edge(spoke).to().fix();
    match nearer_end(dcel, spoke, end, distance_2, point) {
        Some(nearer) => {
            *moves += 1;
            Some(nearer)
        }
        None => Some(Candidate { spoke, distance_2 }),
    }
}

// A candidate that is a neighbour of another and strictly nearer, if there is one. The look goes
// round the vertex both ways at once, since each edge has to be read before the next one is known,
// and a processor waits for two of them no longer than for one.
fn nearer_neighbor<V: HasPosition, DE, UE, F>(
    dcel: &Dcel<V, DE, UE, F>,
    from: &Candidate,
    point: Point2<V::Scalar>,
) -> Option<Candidate>
    requires can { CanMeasure V.place dcel.now (place_of V.Scalar.whole point) }
    requires from { IsCandidate (map V.place dcel.now.vertices) dcel.now.mesh
        (place_of V.Scalar.whole point) from.now }
    ensures { let points = map V.place dcel.now.vertices in
        let p = place_of V.Scalar.whole point in
        let v = origin dcel.now.mesh from.now.spoke in
        MatchOption result (HasNoNearerNeighbor points dcel.now.mesh p v)
        (IsNearerCandidate points dcel.now.mesh p v) }
{
    let Candidate { spoke, distance_2 } = *from;
    let mut left = spoke;
    let mut right = spoke;
    loop {
        let next = edge_clockwise(dcel, left);
        if next.index() == right.index() {
            return None;
        }
        let end = end_after(dcel, left.rev());
        if let Some(nearer) = nearer_end(dcel, next, end, distance_2, point) {
            return Some(nearer);
        }
        left = next;
        let next = ccw_edge(dcel, right);
        if next.index() == left.index() {
            return None;
        }
        let end = dcel.directed_edge(right).prev_from().fix();
        if let Some(nearer) = nearer_end(dcel, next, end, distance_2, point) {
            return Some(nearer);
        }
        right = next;
    }
}

// A candidate anywhere in the mesh that is nearer than this one, if one of those looked at is, or
// this one. To go to such a vertex is a move, and to go on to its neighbour another one.
#[inline(never)]
fn candidate_anywhere<V: HasPosition, DE, UE, F>(
    dcel: &Dcel<V, DE, UE, F>,
    from: Candidate,
    point: Point2<V::Scalar>,
    moves: &mut u64,
) -> Candidate
    requires can { CanMeasure V.place dcel.now (place_of V.Scalar.whole point) }
    requires from { IsCandidate (map V.place dcel.now.vertices) dcel.now.mesh
        (place_of V.Scalar.whole point) from }
    requires fits { moves.old + nearer_count (triangulation_of V.place (state_of dcel.now))
        (fraction (place_of V.Scalar.whole point)) (origin dcel.now.mesh from.spoke) < 2 ^ 64 }
    ensures { IsReached (map V.place dcel.now.vertices) dcel.now.mesh
        (place_of V.Scalar.whole point) (origin dcel.now.mesh from.spoke) moves.old moves.new
        result }
{
    let vertex = dcel.directed_edge(from.spoke).from().fix();
    let sample = nearer_sample(dcel, vertex, point);
    if sample.index() == vertex.index() {
        return from;
    }
    match first_candidate(dcel, sample, point, moves) {
        Some(candidate) => {
            *moves += 1;
            candidate
        }
        None => from,
    }
}

// The vertex that is nearest to a position, by a walk from a candidate to nearer neighbours until
// there is none. It adds the number of its moves to `moves`, of those all over the mesh too. Where
// one to a neighbour makes that a multiple of sixteen, it goes on at a vertex anywhere in the mesh,
// if one of those looked at is nearer.
fn nearest_from<V: HasPosition, DE, UE, F>(
    dcel: &Dcel<V, DE, UE, F>,
    start: Candidate,
    point: Point2<V::Scalar>,
    moves: &mut u64,
) -> FixedVertexHandle
    requires can { CanMeasure V.place dcel.now (place_of V.Scalar.whole point) }
    requires delaunay { IsConstrainedDelaunay (triangulation_of V.place (state_of dcel.now)) [] }
    requires start { IsCandidate (map V.place dcel.now.vertices) dcel.now.mesh
        (place_of V.Scalar.whole point) start }
    requires fits { moves.old + nearer_count (triangulation_of V.place (state_of dcel.now))
        (fraction (place_of V.Scalar.whole point)) (origin dcel.now.mesh start.spoke) < 2 ^ 64 }
    ensures nearest { IsNearest (triangulation_of V.place (state_of dcel.now))
        (fraction (place_of V.Scalar.whole point)) result }
    ensures counted { IsMoveCount (triangulation_of V.place (state_of dcel.now))
        (place_of V.Scalar.whole point) (origin dcel.now.mesh start.spoke) result moves.old
        moves.new }
{
    let mut nearest = start;
    while let Some(nearer) = nearer_neighbor(dcel, &nearest, point) {
        *moves += 1;
        nearest = nearer;
        if *moves % FEW_MOVES == 0 {
            nearest = candidate_anywhere(dcel, nearest, point, moves);
        }
    }
    dcel.directed_edge(nearest.spoke).from().fix()
}

/// The vertex that is nearest to a position in range, by a walk from `start` to nearer neighbours
/// until there is none: one of them, where several are. It adds the number of its moves to `moves`,
/// one for each step to another vertex, which is strictly nearer: a neighbour, or after a long way
/// one of some all over the mesh. So they are fewer than there are vertices. It takes no memory.
pub fn nearest_by_neighbors<V: HasPosition, DE, UE, F>(
    dcel: &Dcel<V, DE, UE, F>,
    start: FixedVertexHandle,
    point: Point2<V::Scalar>,
    moves: &mut u64,
) -> FixedVertexHandle
    requires kept { IsTriangulated V.place (state_of dcel.now) }
    requires delaunay { IsConstrainedDelaunay (triangulation_of V.place (state_of dcel.now)) [] }
    requires within { start < length dcel.now.vertices }
    requires in_range { InRange (place_of V.Scalar.whole point) }
    requires fits { moves.old + length dcel.now.vertices ≤ 2 ^ 64 }
    ensures nearest { IsNearest (triangulation_of V.place (state_of dcel.now))
        (fraction (place_of V.Scalar.whole point)) result }
    ensures counted { (moves.old ≤ moves.new) × (moves.new < moves.old + length dcel.now.vertices) }
{
    match first_candidate(dcel, start, point, moves) {
        Some(candidate) => nearest_from(dcel, candidate, point, moves),
        None => start,
    }
}
