//! Calls that remove. Each looks first whether it may be made, and gives nothing where it may not.
ghost use Rattle.std.specs.Prelude.{◌≡◌, ◌≢◌, ◌<◌, length, IsTrue, IfSome};
ghost use Rattle.half_edge_links.specs.{face, next, origin, prev, rev, turn};
ghost use Rattle.half_edge_dcel.specs.{HasFewEdges};

use crate::lookups::{Mesh, directed, has_edge, has_vertex, is_inner, is_outer, vertex};
use half_edge_dcel::{Dcel, IsolateVertexResult, MeshViews};
use half_edge_links::{FixedDirectedEdgeHandle, FixedVertexHandle};

/// The data of a vertex without edges, which is gone.
pub fn swap_remove_vertex<V, DE: Drop, UE: Drop, F>(
    mesh: &mut Dcel<V, DE, UE, F>,
    index: u32,
) -> Option<V> {
    let vertex = vertex(index);
    if !has_vertex(mesh, vertex) || mesh.vertex(vertex).out_edge().is_some() {
        return None;
    }
    Some(mesh.swap_remove_vertex(vertex))
}

// Whether a vertex may leave a line: it is between two others, or at an end of two edges or more.
fn may_leave_line<V, DE, UE, F>(mesh: &Dcel<V, DE, UE, F>, vertex: FixedVertexHandle) -> bool
    ensures within { IsTrue result → vertex < length mesh.now.vertices }
    ensures one_face { IsTrue result → length mesh.now.faces ≡ 0 }
    ensures few { IsTrue result → HasFewEdges mesh.now.mesh vertex }
{
    if mesh.num_inner_faces() > 0 || !has_vertex(mesh, vertex) {
        return false;
    }
    let Some(out) = mesh.vertex(vertex).out_edge() else {
        return false;
    };
    if out.ccw().index() == out.index() {
        return out.next().index() != out.rev().index();
    }
    out.ccw().ccw().index() == out.index()
        && out.to().index() != out.ccw().to().index()
        && out.prev().index() != out.rev().index()
}

/// The data of a vertex of a line, which is gone: it was between two others, or at an end of two
/// edges or more.
pub fn remove_when_degenerate<V, DE: Drop, UE: Drop, F>(
    mesh: &mut Dcel<V, DE, UE, F>,
    index: u32,
) -> Option<V> {
    let vertex = vertex(index);
    if !may_leave_line(mesh, vertex) {
        return None;
    }
    Some(mesh.remove_when_degenerate(vertex))
}

// The edge before a side that is there.
fn edge_before<V, DE, UE, F>(
    mesh: &Dcel<V, DE, UE, F>,
    side: FixedDirectedEdgeHandle,
) -> Option<FixedDirectedEdgeHandle>
    ensures within { IfSome result (λ _. side < length mesh.now.directed) }
    ensures before { IfSome result (λ edge. edge ≡ prev mesh.now.mesh side) }
{
    if !has_edge(mesh, side) {
        return None;
    }
    Some(mesh.directed_edge(side).prev().fix())
}

// Whether an edge has an inner face, as the only one between it and the next edge round its start.
fn has_lone_face<V, DE, UE, F>(mesh: &Dcel<V, DE, UE, F>, edge: FixedDirectedEdgeHandle) -> bool
    ensures inner { IsTrue result → 0 < face mesh.now.mesh edge }
    ensures outer { IsTrue result → face mesh.now.mesh (rev edge) ≡ 0 }
    ensures last { IsTrue result → face mesh.now.mesh (turn mesh.now.mesh edge) ≡ 0 }
{
    if !is_inner(mesh, edge) || !is_outer(mesh, edge.rev()) {
        return false;
    }
    mesh.directed_edge(edge).ccw().is_outer_edge()
}

// Whether the outer face goes from an edge to the next one round its start, which is not the only
// one at its end.
fn leaves_more<V, DE, UE, F>(mesh: &Dcel<V, DE, UE, F>, edge: FixedDirectedEdgeHandle) -> bool
    ensures gap { let m = mesh.now.mesh in IsTrue result → next m (rev edge) ≡ turn m edge }
    ensures far { let m = mesh.now.mesh in
        IsTrue result → next m (turn m edge) ≢ rev (turn m edge) }
{
    if !has_edge(mesh, edge) {
        return false;
    }
    let edge = mesh.directed_edge(edge);
    let last = edge.ccw();
    edge.rev().next().index() == last.index() && last.next().index() != last.rev().index()
}

// Takes the only face of a corner of the hull away, which starts `spoke` and is opposite `side`.
fn disconnect_corner(
    mesh: &mut Mesh,
    spoke: FixedDirectedEdgeHandle,
    side: FixedDirectedEdgeHandle,
) -> IsolateVertexResult
    requires within { side < length mesh.old.directed }
    requires before { spoke ≡ prev mesh.old.mesh side }
    requires inner { 0 < face mesh.old.mesh spoke }
    requires outer { face mesh.old.mesh (rev spoke) ≡ 0 }
    requires last { let m = mesh.old.mesh in face m (turn m spoke) ≡ 0 }
    requires gap { let m = mesh.old.mesh in next m (rev spoke) ≡ turn m spoke }
    requires far { let m = mesh.old.mesh in next m (turn m spoke) ≢ rev (turn m spoke) }
{
    let _whole = mesh.num_vertices();
    mesh.disconnect_edge_strip(&[side])
}

/// The index of a vertex with one face, of which this is the side opposite it: it has lost its
/// edges.
pub fn disconnect_edge_strip(mesh: &mut Mesh, side: u32) -> Option<u32> {
    let side = directed(side);
    let Some(spoke) = edge_before(mesh, side) else {
        return None;
    };
    if !has_lone_face(mesh, spoke) || !leaves_more(mesh, spoke) {
        return None;
    }
    let done = disconnect_corner(mesh, spoke, side);
    let index = done.vertex.index();
    mesh.cleanup_isolated_vertex(done);
    Some(index)
}

// An edge that starts at a vertex.
fn out_edge<V, DE, UE, F>(
    mesh: &Dcel<V, DE, UE, F>,
    vertex: FixedVertexHandle,
) -> Option<FixedDirectedEdgeHandle>
    ensures within { IfSome result (λ edge. edge < length mesh.now.directed) }
    ensures starts { IfSome result (λ edge. origin mesh.now.mesh edge ≡ vertex) }
{
    if !has_vertex(mesh, vertex) {
        return None;
    }
    let Some(edge) = mesh.vertex(vertex).out_edge() else {
        return None;
    };
    if edge.from().index() != vertex.index() {
        return None;
    }
    Some(edge.fix())
}

// The edges after an edge with an inner face, round its start and in that face.
fn after<V, DE, UE, F>(
    mesh: &Dcel<V, DE, UE, F>,
    edge: FixedDirectedEdgeHandle,
) -> Option<(FixedDirectedEdgeHandle, FixedDirectedEdgeHandle)>
    ensures inner { IfSome result (λ _. 0 < face mesh.now.mesh edge) }
    ensures round { IfSome result (λ both. both.0 ≡ turn mesh.now.mesh edge) }
    ensures side { IfSome result (λ both. both.1 ≡ next mesh.now.mesh edge) }
{
    if !has_edge(mesh, edge) {
        return None;
    }
    let edge = mesh.directed_edge(edge);
    if edge.is_outer_edge() {
        return None;
    }
    Some((edge.ccw().fix(), edge.next().fix()))
}

// Whether two edges end at different vertices.
fn end_apart<V, DE, UE, F>(
    mesh: &Dcel<V, DE, UE, F>,
    edge: FixedDirectedEdgeHandle,
    other: FixedDirectedEdgeHandle,
) -> bool
    ensures { let m = mesh.now.mesh in IsTrue result → origin m (rev other) ≢ origin m (rev edge) }
{
    has_edge(mesh, edge)
        && has_edge(mesh, other)
        && mesh.directed_edge(other).to().index() != mesh.directed_edge(edge).to().index()
}

// Takes the edges of a vertex away that has three or four inner faces round it.
fn isolate_vertex(mesh: &mut Mesh, vertex: FixedVertexHandle) -> Option<IsolateVertexResult> {
    let _whole = mesh.num_vertices();
    let Some(a) = out_edge(mesh, vertex) else {
        return None;
    };
    let Some((b, ab)) = after(mesh, a) else {
        return None;
    };
    let Some((c, bc)) = after(mesh, b) else {
        return None;
    };
    let Some((d, cd)) = after(mesh, c) else {
        return None;
    };
    if d.index() == a.index() {
        return Some(mesh.isolate_vertex_and_fill_hole(&[ab, bc, cd], vertex));
    }
    let Some((end, da)) = after(mesh, d) else {
        return None;
    };
    if end.index() != a.index() || !end_apart(mesh, a, c) {
        return None;
    }
    Some(mesh.isolate_vertex_and_fill_hole(&[ab, bc, cd, da], vertex))
}

/// The index of a vertex with three or four faces round it: it has lost its edges, and one or two
/// faces fill the hole.
pub fn isolate_vertex_and_fill_hole(mesh: &mut Mesh, index: u32) -> Option<u32> {
    match isolate_vertex(mesh, vertex(index)) {
        Some(done) => Some(done.vertex.index()),
        None => None,
    }
}
