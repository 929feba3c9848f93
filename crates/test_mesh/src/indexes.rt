//! Names of the parts of a mesh, without a mesh.

use crate::iterators::count_of;
use crate::lookups::{directed, vertex};
use half_edge_links::{
    FixedDirectedEdgeIterator, FixedFaceHandle, FixedFaceIterator, FixedUndirectedEdgeIterator,
    FixedVertexIterator,
};

/// The index of an edge in the other direction, without its direction, and of the first direction
/// of that; then of the vertex and the face of this index, and whether this is the outer face.
pub fn forms(index: u32) -> ([u32; 5], bool) {
    let edge = directed(index);
    let undirected = edge.as_undirected();
    let face = FixedFaceHandle::from_index(index);
    let indexes = [
        edge.rev().index(),
        undirected.index(),
        undirected.as_directed().index(),
        vertex(index).index(),
        face.index(),
    ];
    (indexes, face.is_outer())
}

/// How many names the iterators from index 2 to index 4 give, and the greatest of each.
pub fn names_from_two() -> ([usize; 4], [Option<u32>; 4]) {
    let counts = [
        count_of(FixedVertexIterator::new(2, 5)),
        count_of(FixedDirectedEdgeIterator::new(2, 5)),
        count_of(FixedUndirectedEdgeIterator::new(2, 5)),
        count_of(FixedFaceIterator::new(2, 5)),
    ];
    (counts, greatest_from_two())
}

fn greatest_from_two() -> [Option<u32>; 4] {
    [
        FixedVertexIterator::new(2, 5).max().map(|it| it.index()),
        FixedDirectedEdgeIterator::new(2, 5)
            .max()
            .map(|it| it.index()),
        FixedUndirectedEdgeIterator::new(2, 5)
            .max()
            .map(|it| it.index()),
        FixedFaceIterator::new(2, 5).max().map(|it| it.index()),
    ]
}
