//! The edges of a vertex.
ghost use Rattle.std.specs.Prelude.{◌<◌, length, All, IfOk};

use half_edge_dcel::{Dcel, MeshViews};
use half_edge_links::{FixedDirectedEdgeHandle, FixedVertexHandle};
use std::alloc::{AllocError, Global};

/// The edges that start at a vertex.
pub(crate) fn list_spokes<V, DE, UE, F>(
    dcel: &Dcel<V, DE, UE, F>,
    vertex: FixedVertexHandle,
    alloc: Global,
) -> Result<Vec<FixedDirectedEdgeHandle>, AllocError>
    requires { vertex < length dcel.now.vertices }
    ensures { IfOk result (λ spokes. All (λ h. h < length dcel.now.directed) spokes.items) }
{
    let mut spokes = Vec::new(alloc);
    for edge in dcel.vertex(vertex).out_edges() {
        spokes.push(edge.fix())?;
    }
    Ok(spokes)
}
