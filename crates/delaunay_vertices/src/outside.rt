//! A new vertex outside the hull, or off the edges of the line of all vertices.
ghost use Rattle.std.specs.Prelude.{◌≡◌, ◌⊎◌, ◌↔◌, ◌+◌, ◌*◌, ◌<◌, length, map, All, IsTrue};
ghost use Rattle.plane.specs.{IsPast, place, TurnsLeft, whole as fraction};
ghost use Rattle.half_edge_links.specs.{face, HasRoomFor, next, origin, prev, rev};
ghost use Rattle.plane_theorems.specs.{alone};
ghost use Rattle.{delaunay_core.specs.place_of, half_edge_dcel.specs.edges};
ghost use Rattle.delaunay_legalization.specs.{IsApart, state_of};
ghost use Rattle.delaunay_vertices.specs.{Edges.AddsOnly, Growth.CanTake, Growth.GainsVertex};

use delaunay_core::math::PlaneTests;
use delaunay_core::point::{HasPosition, Point2};
use delaunay_legalization::{position_of, turns_left};
use half_edge_dcel::{Dcel, MeshViews};
use half_edge_links::{FixedDirectedEdgeHandle, FixedVertexHandle};

// The edge after an edge in its loop.
#[inline(always)]
fn edge_after<V, DE, UE, F>(
    dcel: &Dcel<V, DE, UE, F>,
    edge: FixedDirectedEdgeHandle,
) -> FixedDirectedEdgeHandle
    requires { edge < length dcel.now.directed }
    ensures value { result ≡ next dcel.now.mesh edge }
    ensures within { result < length dcel.now.directed }
{
    dcel.directed_edge(edge).next().fix()
}

// The edge before an edge in its loop.
#[inline(always)]
fn edge_before<V, DE, UE, F>(
    dcel: &Dcel<V, DE, UE, F>,
    edge: FixedDirectedEdgeHandle,
) -> FixedDirectedEdgeHandle
    requires { edge < length dcel.now.directed }
    ensures value { result ≡ prev dcel.now.mesh edge }
    ensures within { result < length dcel.now.directed }
{
    dcel.directed_edge(edge).prev().fix()
}

// Whether a position is strictly on the left of an edge.
fn is_on_left<V: HasPosition, DE, UE, F, P: PlaneTests<V::Scalar>>(
    dcel: &Dcel<V, DE, UE, F>,
    edge: FixedDirectedEdgeHandle,
    position: Point2<V::Scalar>,
    tests: &P,
) -> bool
    requires within { edge < length dcel.now.directed }
    requires sites { All (P.sites tests.now) (map V.place dcel.now.vertices) }
    requires covered { P.covered tests.now (place_of V.Scalar.whole position) }
    ensures { let points = map V.place dcel.now.vertices in let m = dcel.now.mesh in
        IsTrue result ↔ TurnsLeft (place points (origin m edge))
        (place points (origin m (rev edge))) (fraction (place_of V.Scalar.whole position)) }
{
    let ends = dcel.directed_edge(edge);
    let from = position_of(dcel, ends.from().fix());
    let to = position_of(dcel, ends.to().fix());
    turns_left(from, to, position, tests)
}

/// Puts a vertex beside an outer edge and gives its handle: strictly on the left of the edge, where
/// it makes a face of it and each outer edge that has it on its left, or else past the end of the
/// line of all vertices at which the edge starts, where it joins it to that end.
pub fn insert_outside<
    V: HasPosition,
    DE: Default,
    UE: Default,
    F: Default,
    P: PlaneTests<V::Scalar>,
>(
    dcel: &mut Dcel<V, DE, UE, F>,
    edge: FixedDirectedEdgeHandle,
    value: V,
    tests: &P,
) -> FixedVertexHandle
    requires can { CanTake V.place value (state_of dcel.old) }
    requires sites { All (P.sites tests.now) (map V.place dcel.old.vertices) ×
        P.sites tests.now (V.place value) }
    requires apart { IsApart (map V.place dcel.old.vertices) (V.place value) }
    requires outer { (edge < length dcel.old.directed) × (face dcel.old.mesh edge ≡ 0) }
    requires outside { let points = map V.place dcel.old.vertices in let m = dcel.old.mesh in
        TurnsLeft (place points (origin m edge)) (place points (origin m (rev edge)))
        (fraction (V.place value)) ⊎
        IsPast (alone points) (origin m edge) (fraction (V.place value)) }
    requires room { HasRoomFor dcel.old.room (length dcel.old.vertices + 1)
        (3 * (length dcel.old.vertices + 1)) (2 * (length dcel.old.vertices + 1)) }
    ensures takes { GainsVertex V.place value (state_of dcel.old) (state_of dcel.new) result }
    ensures edges { AddsOnly UE.is_default (edges dcel.old) (edges dcel.new) }
{
    let position = value.position();
    if !is_on_left(dcel, edge, position, tests) {
        let end = dcel.directed_edge(edge).from().fix();
        return dcel.extend_line(end, value);
    }
    let vertex = dcel.create_new_face_adjacent_to_edge(edge, value);
    let edges = dcel.num_directed_edges() as u32;
    let mut ahead = FixedDirectedEdgeHandle::from_index(edges - 3);
    let behind = FixedDirectedEdgeHandle::from_index(edges - 1);
    while is_on_left(dcel, edge_after(dcel, ahead), position, tests) {
        ahead = dcel.create_single_face_between_edge_and_next(ahead);
    }
    let mut before = edge_before(dcel, behind);
    while is_on_left(dcel, before, position, tests) {
        let behind = dcel.create_single_face_between_edge_and_next(before);
        before = edge_before(dcel, behind);
    }
    vertex
}
