//! The data of edges that may be constraints, and which edges they fix.

use delaunay_legalization::{
    CdtEdge, ConstraintMarker, EdgeConstraints, NoConstraints, free_edge_data,
};

/// An edge's data, as a constraint or as none.
pub fn edge(is_constraint: bool, data: u32) -> CdtEdge<u32> {
    let mut edge = free_edge_data(data);
    if is_constraint {
        EdgeConstraints::make_constraint(&mut edge);
    }
    edge
}

/// An edge that is no constraint, and one that is.
pub fn free_and_fixed() -> [CdtEdge<u32>; 2] {
    [edge(false, 7), edge(true, 8)]
}

/// Whether an edge is a constraint when it is new, made one and unmade; and whether the default
/// edge is a new one of 0.
pub fn made_and_unmade() -> [bool; 4] {
    let mut edge = free_edge_data(7u32);
    let is_new = edge.is_constraint_edge();
    EdgeConstraints::make_constraint(&mut edge);
    let is_made = edge.is_constraint_edge();
    EdgeConstraints::free(&mut edge);
    [
        is_new,
        is_made,
        edge.is_constraint_edge(),
        CdtEdge::<u32>::default() == free_edge_data(0),
    ]
}

/// The data of a constraint that were written over, and whether it is one still.
pub fn written() -> (u32, bool) {
    let mut edge = edge(true, 7);
    *edge.data_mut() = 8;
    (*edge.data(), edge.is_constraint_edge())
}

/// Whether each marker takes a constraint and another edge for constraints.
pub fn markers() -> [[bool; 2]; 2] {
    let (constraint, other) = (edge(true, 7), edge(false, 7));
    [
        [
            EdgeConstraints::is_constraint_edge(&constraint),
            EdgeConstraints::is_constraint_edge(&other),
        ],
        [
            NoConstraints::is_constraint_edge(&constraint),
            NoConstraints::is_constraint_edge(&other),
        ],
    ]
}
