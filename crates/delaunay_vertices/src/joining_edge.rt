//! The edge that joins two vertices.
ghost use Rattle.std.specs.Prelude.{◌≡◌, ◌<◌, length, IfNone, IfSome};
ghost use Rattle.half_edge_links.specs.{origin, rev};
ghost use Rattle.delaunay_vertices.specs.Pairs.{HasNoEdgeBetween};

use crate::freeing::some_edge;
use crate::pairs::vertex_at_end;
use delaunay_legalization::ccw_edge;
use half_edge_dcel::Dcel;
use half_edge_links::{FixedDirectedEdgeHandle, FixedVertexHandle};

// The edge from one vertex to another, if there are such vertices and they are joined. It looks
// round both at once, so it costs what the one with fewer edges costs.
pub(crate) fn find_edge_between<V, DE, UE, F>(
    dcel: &Dcel<V, DE, UE, F>,
    from: FixedVertexHandle,
    to: FixedVertexHandle,
) -> Option<FixedDirectedEdgeHandle>
    ensures within { IfSome result (λ e. e < length dcel.now.directed) }
    ensures starts { IfSome result (λ e. origin dcel.now.mesh e ≡ from) }
    ensures ends { IfSome result (λ e. origin dcel.now.mesh (rev e) ≡ to) }
    ensures none { IfNone result (HasNoEdgeBetween dcel.now.mesh from to) }
{
    let vertices = dcel.num_vertices();
    if from.index() as usize >= vertices {
        return None;
    }
    if to.index() as usize >= vertices {
        return None;
    }
    let first = some_edge(dcel, from)?;
    let second = some_edge(dcel, to)?;
    let mut forward = first;
    let mut backward = second;
    for i in 0..dcel.num_directed_edges() {
        if vertex_at_end(dcel, forward).index() == to.index() {
            return Some(forward);
        }
        if vertex_at_end(dcel, backward).index() == from.index() {
            return Some(backward.rev());
        }
        forward = ccw_edge(dcel, forward);
        if forward.index() == first.index() {
            return None;
        }
        backward = ccw_edge(dcel, backward);
        if backward.index() == second.index() {
            return None;
        }
    }
    None
}
