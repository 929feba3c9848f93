//! The ends of the constraints at a vertex.
ghost use Rattle.std.specs.Prelude.{◌≡◌, ◌⊎◌, ◌↔◌, ◌<◌, length, IfNone, IfSome, IsTrue};
ghost use Rattle.half_edge_links.specs.{origin, rev};
ghost use Rattle.delaunay_legalization.specs.{constraints_by, IsTriangulated, state_of};
ghost use Rattle.delaunay_edit.specs.Halves.{AreTwoEnds, IsEndBeside, LeadsBeside};

use delaunay_core::point::HasPosition;
use delaunay_legalization::{ConstraintMarker, is_constraint_edge};
use delaunay_vertices::VertexPair;
use half_edge_dcel::{Dcel, MeshViews};
use half_edge_links::{FixedDirectedEdgeHandle, FixedVertexHandle};

// Whether a vertex is one of two.
fn is_either(vertex: FixedVertexHandle, one: FixedVertexHandle, other: FixedVertexHandle) -> bool
    ensures { IsTrue result ↔ ((vertex ≡ one) ⊎ (vertex ≡ other)) }
{
    vertex == one || vertex == other
}

// The far end of an edge, if it is a constraint that ends at neither of two vertices.
fn end_beside<M: ConstraintMarker<UE>, V: HasPosition, DE, UE, F>(
    dcel: &Dcel<V, DE, UE, F>,
    edge: FixedDirectedEdgeHandle,
    one: FixedVertexHandle,
    other: FixedVertexHandle,
) -> Option<FixedVertexHandle>
    requires within { edge < length dcel.now.directed }
    requires kept { IsTriangulated V.place (state_of dcel.now) }
    ensures none { IfNone result (¬ LeadsBeside M.constraints dcel.now one other edge) }
    ensures leads { IfSome result (λ _. LeadsBeside M.constraints dcel.now one other edge) }
    ensures end { IfSome result (λ k. k ≡ origin dcel.now.mesh (rev edge)) }
{
    let end = dcel.directed_edge(edge).to().fix();
    if is_either(end, one, other) {
        return None;
    }
    if is_constraint_edge::<M, _, _, _, _>(dcel, edge.as_undirected()) {
        Some(end)
    } else {
        None
    }
}

// The far end of a constraint at a vertex that is neither of two others, if there is one.
fn constraint_end_beside<M: ConstraintMarker<UE>, V: HasPosition, DE, UE, F>(
    dcel: &Dcel<V, DE, UE, F>,
    vertex: FixedVertexHandle,
    one: FixedVertexHandle,
    other: FixedVertexHandle,
) -> Option<FixedVertexHandle>
    requires within { vertex < length dcel.now.vertices }
    requires kept { IsTriangulated V.place (state_of dcel.now) }
    ensures { IsEndBeside (constraints_by M.constraints (state_of dcel.now)) vertex one other
        result }
{
    for edge in dcel.vertex(vertex).out_edges() {
        if let Some(end) = end_beside::<M, _, _, _, _>(dcel, edge.fix(), one, other) {
            return Some(end);
        }
    }
    None
}

// The far ends of the constraints at a vertex, if there are exactly two.
pub(crate) fn two_constraint_ends<M: ConstraintMarker<UE>, V: HasPosition, DE, UE, F>(
    dcel: &Dcel<V, DE, UE, F>,
    vertex: FixedVertexHandle,
) -> Option<VertexPair>
    requires within { vertex < length dcel.now.vertices }
    requires kept { IsTriangulated V.place (state_of dcel.now) }
    ensures { AreTwoEnds (constraints_by M.constraints (state_of dcel.now)) vertex result }
{
    let first = constraint_end_beside::<M, _, _, _, _>(dcel, vertex, vertex, vertex)?;
    let second = constraint_end_beside::<M, _, _, _, _>(dcel, vertex, first, first)?;
    match constraint_end_beside::<M, _, _, _, _>(dcel, vertex, first, second) {
        Some(_) => None,
        None => Some((first, second)),
    }
}
