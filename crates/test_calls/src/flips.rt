//! Insertions whose flips are counted.

use crate::points::Plain;
use crate::vertices::TaggedVertex;
use delaunay_core::HintGenerator;
use delaunay_core::math::InsertionError;
use delaunay_interface::Triangulation;
use exact_predicates::ExactTests;
use half_edge_links::FixedVertexHandle;

/// What an insertion gives.
type Inserted = Result<FixedVertexHandle, InsertionError>;

/// Inserts a vertex, and tells how many edges were flipped. Nothing where there are many vertices.
#[tactic(auto, using(crate::proofs::FlipCounts::counted_flips))]
pub fn insert_counting<L: HintGenerator<i64>>(
    points: &mut Plain<L>,
    vertex: TaggedVertex,
) -> Option<(Inserted, u64)> {
    if points.num_vertices() > 1000 {
        return None;
    }
    let mut flips = 0u64;
    let inserted = points.insert_counting(vertex, &ExactTests, &mut flips);
    Some((inserted, flips))
}
