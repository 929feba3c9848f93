//! The sides of the hole that a vertex leaves.
ghost use Rattle.std.specs.Prelude.{◌<◌, length, IfOk};
ghost use Rattle.delaunay_vertices.specs.Pairs.{HasBorder};

use crate::VertexPair;
use crate::freeing::some_edge;
use crate::pairs::vertex_at_end;
use crate::star::count_edges;
use delaunay_legalization::ccw_edge;
use half_edge_dcel::Dcel;
use half_edge_links::FixedVertexHandle;
use std::alloc::{AllocError, Global};

/// Lists the ends of each edge of a vertex and of the edge after it round the vertex: so each side
/// opposite the vertex in a face, and across the outer face a pair that need not be joined. It
/// gives `AllocError` where memory was refused.
pub fn sides_of_hole<V, DE, UE, F>(
    dcel: &Dcel<V, DE, UE, F>,
    vertex: FixedVertexHandle,
    alloc: Global,
) -> Result<Vec<VertexPair>, AllocError>
    requires { vertex < length dcel.now.vertices }
    ensures { IfOk result (λ ps. HasBorder dcel.now.mesh vertex ps.items) }
{
    let Some(first) = some_edge(dcel, vertex) else {
        return Ok(Vec::new(alloc));
    };
    let count = count_edges(dcel, first);
    let mut border = Vec::with_capacity(alloc, count)?;
    let mut edge = first;
    for i in 0..count {
        let after = ccw_edge(dcel, edge);
        border.push_reserved((vertex_at_end(dcel, edge), vertex_at_end(dcel, after)));
        edge = after;
    }
    Ok(border)
}
