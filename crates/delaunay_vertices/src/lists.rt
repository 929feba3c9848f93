//! The lists that removals work with.
ghost use Rattle.std.specs.Prelude.{◌≡◌, ◌<◌, [], length, OnOk};
ghost use Rattle.delaunay_vertices.specs.{Lists.HasRoomToRemove, Pairs.HasRoomAt, Pairs.IsRoundOf};

use crate::VertexPair;
use crate::freeing::some_edge;
use crate::star::count_edges;
use delaunay_legalization::EdgeSet;
use half_edge_dcel::Dcel;
use half_edge_links::{FixedDirectedEdgeHandle, FixedVertexHandle};
use std::alloc::{AllocError, Global};

/// The lists that removals work with. What stands in them between two removals has no meaning, but
/// the room for it stays.
#[derive(Drop)]
pub struct RemovalLists {
    // The sides opposite a vertex that goes from the hull.
    pub(crate) sides: Vec<FixedDirectedEdgeHandle>,
    // The edges that are tested.
    pub(crate) tested: EdgeSet,
    // What edges join that were turned away.
    pub(crate) turned: Vec<VertexPair>,
    // How many edges the vertex has for which there is room.
    pub(crate) edges: usize,
}

// How many edges start at a vertex.
fn degree<V, DE, UE, F>(dcel: &Dcel<V, DE, UE, F>, vertex: FixedVertexHandle) -> usize
    requires { vertex < length dcel.now.vertices }
    ensures room { HasRoomAt dcel.now.mesh vertex 0 result }
    ensures round { IsRoundOf dcel.now.mesh vertex result }
{
    match some_edge(dcel, vertex) {
        Some(first) => count_edges(dcel, first),
        None => 0,
    }
}

impl RemovalLists {
    /// Empty lists, without room.
    pub fn new(alloc: Global) -> Self
        ensures sides { result.sides.items ≡ [] }
        ensures turned { result.turned.items ≡ [] }
    {
        RemovalLists {
            sides: Vec::new(alloc),
            tested: EdgeSet::new(alloc),
            turned: Vec::new(alloc),
            edges: 0,
        }
    }

    /// Makes room to remove a vertex. It gives `AllocError` where memory was refused.
    pub fn reserve_for<V, DE, UE, F>(
        &mut self,
        dcel: &Dcel<V, DE, UE, F>,
        vertex: FixedVertexHandle,
    ) -> Result<(), AllocError>
        requires { vertex < length dcel.now.vertices }
        ensures { OnOk result (HasRoomToRemove dcel.now vertex self.new) }
    {
        let edges = degree(dcel, vertex);
        self.sides.clear();
        self.sides.reserve(edges)?;
        // One flip lists the edges round it, and may lead to the next: so any edge may be listed,
        // though each once.
        self.tested.reserve(3 * dcel.num_vertices())?;
        self.turned.clear();
        self.edges = edges;
        self.turned.reserve(edges)
    }
}
