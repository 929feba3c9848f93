//! What answers to a location and data of edges derive: equality, order, hashes and printed forms.

use crate::markers::edge;
use delaunay_location::PositionInTriangulation;
use half_edge_links::{FixedDirectedEdgeHandle, FixedFaceHandle, FixedVertexHandle};
use std::cmp::Ordering;
use std::hash::Hash;
use test_reader::hash_of;

/// The order of two values, and whether they are equal and hash alike.
type Compared = (Ordering, Option<Ordering>, [bool; 2]);

fn compared<T: Ord + Hash>(first: &T, second: &T) -> Compared {
    let alike = [*first == *second, hash_of(first) == hash_of(second)];
    (first.cmp(second), first.partial_cmp(second), alike)
}

// An answer of a kind, from `OnVertex` as 0 on, with the index of its element.
fn answer(kind: i64, index: u32) -> PositionInTriangulation {
    match kind {
        0 => PositionInTriangulation::OnVertex(FixedVertexHandle::from_index(index)),
        1 => PositionInTriangulation::OnEdge(FixedDirectedEdgeHandle::from_index(index)),
        2 => PositionInTriangulation::OnFace(FixedFaceHandle::from_index(index)),
        3 => {
            let edge = FixedDirectedEdgeHandle::from_index(index);
            PositionInTriangulation::OutsideOfConvexHull(edge)
        }
        _ => PositionInTriangulation::NoTriangulation,
    }
}

/// Each kind of answer, with another index in each.
pub fn each_answer() -> [PositionInTriangulation; 5] {
    [
        answer(0, 0),
        answer(1, 1),
        answer(2, 2),
        answer(3, 3),
        answer(4, 4),
    ]
}

/// Of two answers, each by its kind and an index.
pub fn compare_answers((kind, index): (i64, u32), (other, at): (i64, u32)) -> Compared {
    compared(&answer(kind, index), &answer(other, at))
}

/// Of two edges' data, each by whether the edge is a constraint and by the user's part.
pub fn compare_edges((is_constraint, data): (bool, u32), (other, with): (bool, u32)) -> Compared {
    compared(&edge(is_constraint, data), &edge(other, with))
}
