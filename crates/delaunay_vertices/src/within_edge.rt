//! A new vertex within an edge.
ghost use Rattle.std.specs.Prelude.{◌+◌, ◌*◌, ◌/◌, ◌<◌, length, map, Contains};
ghost use Rattle.half_edge_links.specs.{HasRoomFor};
ghost use Rattle.delaunay_legalization.specs.{IsWithinEdge, state_of};
ghost use Rattle.delaunay_vertices.specs.Constraints.{IsOneIf, SplitsConstraints};
ghost use Rattle.delaunay_vertices.specs.Growth.{CanTake, GainsVertex};

use crate::FreeByDefault;
use delaunay_core::point::HasPosition;
use delaunay_legalization::{is_constraint_edge, is_outer, make_constraint};
use half_edge_dcel::Dcel;
use half_edge_links::{FixedDirectedEdgeHandle, FixedVertexHandle};

/// Splits an edge at a vertex strictly within it, joins the vertex to the corner opposite the edge
/// in each inner face beside it, and gives its handle, and how many more edges are constraints:
/// where the edge was one, both halves are.
pub fn insert_within_edge<
    M: FreeByDefault<UE>,
    V: HasPosition,
    DE: Default,
    UE: Default,
    F: Default,
>(
    dcel: &mut Dcel<V, DE, UE, F>,
    edge: FixedDirectedEdgeHandle,
    value: V,
) -> (FixedVertexHandle, usize)
    requires can { CanTake V.place value (state_of dcel.old) }
    requires within { edge < length dcel.old.directed }
    requires on_edge { IsWithinEdge (map V.place dcel.old.vertices) dcel.old.mesh (V.place value)
        edge }
    requires room { HasRoomFor dcel.old.room (length dcel.old.vertices + 1)
        (3 * (length dcel.old.vertices + 1)) (2 * (length dcel.old.vertices + 1)) }
    ensures takes { GainsVertex V.place value (state_of dcel.old) (state_of dcel.new) result.0 }
    ensures constraints { SplitsConstraints V.place M.constraints (state_of dcel.old)
        (state_of dcel.new) value }
    ensures more { IsOneIf (Contains (M.constraints dcel.old.undirected) (edge / 2)) result.1 }
{
    let was_constraint = is_constraint_edge::<M, _, _, _, _>(dcel, edge.as_undirected());
    let (vertex, halves) = if dcel.num_inner_faces() == 0 {
        dcel.split_edge_when_all_vertices_on_line(edge, value)
    } else if is_outer(dcel, edge) {
        dcel.split_half_edge(edge.rev(), value)
    } else if is_outer(dcel, edge.rev()) {
        dcel.split_half_edge(edge, value)
    } else {
        dcel.split_edge(edge, value)
    };
    // The second half has default data, as all new edges do; the first has those of the edge.
    let second_half = halves[1].as_undirected();
    if !was_constraint {
        return (vertex, 0);
    }
    make_constraint::<M, _, _, _, _>(dcel, second_half);
    (vertex, 1)
}
