//! Edges that become constraints, or cease to be.
ghost use Rattle.std.specs.Prelude.{◌<◌, length};
ghost use Rattle.delaunay_legalization.specs.Marking.{HasEdgeData};

use crate::ConstraintMarker;
use half_edge_dcel::Dcel;
use half_edge_links::FixedUndirectedEdgeHandle;

/// Makes an edge a constraint, where data can have the mark.
pub fn make_constraint<M: ConstraintMarker<UE>, V, DE, UE, F>(
    dcel: &mut Dcel<V, DE, UE, F>,
    edge: FixedUndirectedEdgeHandle,
)
    requires { edge < length dcel.old.undirected }
    ensures { HasEdgeData M.marked dcel.old dcel.new edge }
{
    M::make_constraint(dcel.undirected_edge_data_mut(edge));
}

/// Makes an edge no constraint.
pub fn free_edge<M: ConstraintMarker<UE>, V, DE, UE, F>(
    dcel: &mut Dcel<V, DE, UE, F>,
    edge: FixedUndirectedEdgeHandle,
)
    requires { edge < length dcel.old.undirected }
    ensures { HasEdgeData M.unmarked dcel.old dcel.new edge }
{
    M::free(dcel.undirected_edge_data_mut(edge));
}
