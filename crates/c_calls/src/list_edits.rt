//! Edits of a triangulation that C keeps, where C hands in a list.
ghost use Rattle.std.specs.Prelude.{◌≡◌, ◌<◌, ◌≤◌, ◌↔◌, ◌++◌, length, drop, slice_get, slice_set};
ghost use Rattle.std.specs.Prelude.{All, IfOk, IsTrue, Some, false};
ghost use Rattle.c_calls.specs.{declared.raw.NumberedPoint.NumberedPoint, Kept.kept_place};
ghost use Rattle.c_calls.specs.Lists.{AddsChainKept, chain_segments, ChainAddition};
ghost use Rattle.c_calls.specs.Lists.{InsertsListKept, ListInsertion, MayInsert, Numbering};
ghost use Rattle.c_calls.specs.Lists.{NumbersKept, SegmentsAddition, unnumbered_points};

use crate::RawPoint;
use crate::edits::{constrain, is_vertex, unnumbered};
use crate::kept::{AnyTriangulation, ConstrainedPoints};
use crate::queries::are_in_range;
use crate::raw::NumberedPoint;
use crate::statuses::{
    IS_PLAIN, NO_SUCH_VERTEX, OUT_OF_MEMORY, TOO_LARGE, TOO_SHORT, UNEQUAL_LENGTHS, WELL, status_of,
};
use delaunay_core::point::Point2;
use delaunay_extensions::InsertAll;
use delaunay_interface::Triangulation;
use exact_predicates::ExactTests;
use half_edge_links::FixedVertexHandle;
use std::alloc::{AllocError, Global};

// The vertices that are inserted at points.
fn unnumbered_all(alloc: Global, positions: &[RawPoint]) -> Result<Vec<NumberedPoint>, AllocError>
    ensures { IfOk result (λ vertices. vertices.items ≡ unnumbered_points positions.now) }
{
    positions
        .iter()
        .map(|point| {
            unnumbered(Point2 {
                x: point.x,
                y: point.y,
            })
        })
        .collect(alloc)
}

// Writes the indexes of vertices to the front of a list with room for them.
fn write_indexes(vertices: &[FixedVertexHandle], indexes: &mut [u32])
    requires { length vertices.now ≤ length indexes.old }
    ensures { indexes.new ≡ vertices.now ++ drop (length vertices.now) indexes.old }
{
    for index in 0..vertices.len() {
        indexes[index] = vertices[index].index();
    }
}

// Inserts vertices in range, for which there is room, and writes the index of each.
fn insert_in_range<T: Triangulation<Vertex = NumberedPoint>>(
    points: &mut T,
    alloc: Global,
    positions: &[RawPoint],
    indexes: &mut [u32],
) -> u32
    requires { MayInsert kept_place (unnumbered_points positions.now) indexes.old
        (T.state points.old) }
    ensures { ListInsertion kept_place T.Constraints.constraints
        (unnumbered_points positions.now) result indexes.old indexes.new (T.state points.old)
        (T.state points.new) }
{
    let Ok(vertices) = unnumbered_all(alloc, positions) else {
        return OUT_OF_MEMORY;
    };
    match points.insert_all(vertices, &ExactTests) {
        Ok(handles) => {
            write_indexes(handles.as_slice(), indexes);
            WELL
        }
        Err(_) => OUT_OF_MEMORY,
    }
}

// Inserts vertices, and writes the index of each.
fn insert_all<T: Triangulation<Vertex = NumberedPoint>>(
    points: &mut T,
    alloc: Global,
    positions: &[RawPoint],
    indexes: &mut [u32],
) -> u32
    ensures { ListInsertion kept_place T.Constraints.constraints
        (unnumbered_points positions.now) result indexes.old indexes.new (T.state points.old)
        (T.state points.new) }
{
    if indexes.len() < positions.len() {
        return TOO_SHORT;
    }
    if !are_in_range(positions) {
        return TOO_LARGE;
    }
    match points.reserve(positions.len()) {
        Ok(()) => insert_in_range(points, alloc, positions, indexes),
        Err(error) => status_of(error),
    }
}

// Whether vertices have these indexes.
fn are_vertices<T: Triangulation>(points: &T, indexes: &[u32]) -> bool
    ensures { IsTrue result ↔ All (λ i. i < length (T.state points.now).vertices) indexes.now }
{
    for index in 0..indexes.len() {
        if !is_vertex(points, indexes[index]) {
            return false;
        }
    }
    true
}

// Gives a number to a vertex.
fn set_number<T: Triangulation<Vertex = NumberedPoint>>(points: &mut T, vertex: u32, number: u64)
    requires { vertex < length (T.state points.old).vertices }
    ensures { (p : NumberedPoint)
        × ((slice_get (T.state points.old).vertices vertex ≡ Some p)
        × (T.state points.new ≡ record (T.state points.old) {
          vertices = slice_set (T.state points.old).vertices vertex
              (record p { number = number });
        })) }
{
    let vertex = FixedVertexHandle::from_index(vertex);
    let position = points.vertex(vertex).data().position;
    let _old = points.replace_vertex(vertex, NumberedPoint { position, number });
}

// Gives numbers to vertices.
#[tactic(auto, using(crate::proofs::Numbers::numberings))]
fn set_numbers<T: Triangulation<Vertex = NumberedPoint>>(
    points: &mut T,
    vertices: &[u32],
    numbers: &[u64],
) -> u32
    ensures { Numbering vertices.now numbers.now result (T.state points.old)
        (T.state points.new) }
{
    if vertices.len() != numbers.len() {
        return UNEQUAL_LENGTHS;
    }
    if !are_vertices(points, vertices) {
        return NO_SUCH_VERTEX;
    }
    for index in 0..vertices.len() {
        set_number(points, vertices[index], numbers[index]);
    }
    WELL
}

// Joins each vertex of a list to the next, and counts the segments that are joined.
fn constrain_path(points: &mut ConstrainedPoints, vertices: &[u32], made: &mut usize) -> u32
    requires some { 0 < length vertices.now }
    requires there { All (λ i. i < length points.old.vertices) vertices.now }
    ensures { SegmentsAddition kept_place (chain_segments vertices.now false) result made.new
        points.old points.new }
{
    *made = 0;
    for index in 1..vertices.len() {
        let status = constrain(points, vertices[index - 1], vertices[index]);
        if status != WELL {
            return status;
        }
        *made = index;
    }
    WELL
}

// Joins each vertex of a list to the next, and the last to the first where it is closed, and counts
// the segments that are joined.
#[tactic(auto, using(crate::proofs::Chains::chains))]
fn constrain_chain(
    points: &mut ConstrainedPoints,
    vertices: &[u32],
    closed: bool,
    made: &mut usize,
) -> u32
    ensures { ChainAddition kept_place vertices.now closed result made.new points.old
        points.new }
{
    *made = 0;
    if !are_vertices(points, vertices) {
        return NO_SUCH_VERTEX;
    }
    if vertices.len() == 0 {
        return WELL;
    }
    let status = constrain_path(points, vertices, made);
    if status != WELL {
        return status;
    }
    if !closed {
        return WELL;
    }
    let status = constrain(points, vertices[vertices.len() - 1], vertices[0]);
    if status != WELL {
        return status;
    }
    *made = vertices.len();
    WELL
}

impl AnyTriangulation {
    /// Inserts vertices with the number 0, along a curve, and writes the index of each.
    #[tactic(auto, using(crate::proofs::Listed::insertions_kept))]
    pub fn insert_all(&mut self, alloc: Global, positions: &[RawPoint], indexes: &mut [u32]) -> u32
        ensures { InsertsListKept (unnumbered_points positions.now) result indexes.old
            indexes.new self.old self.new }
    {
        match self {
            AnyTriangulation::Plain(points) => insert_all(points, alloc, positions, indexes),
            AnyTriangulation::Constrained(points) => insert_all(points, alloc, positions, indexes),
        }
    }

    /// Gives numbers to vertices.
    #[tactic(auto, using(crate::proofs::Numbers::numberings_kept))]
    pub fn set_numbers(&mut self, vertices: &[u32], numbers: &[u64]) -> u32
        ensures { NumbersKept vertices.now numbers.now result self.old self.new }
    {
        match self {
            AnyTriangulation::Plain(points) => set_numbers(points, vertices, numbers),
            AnyTriangulation::Constrained(points) => set_numbers(points, vertices, numbers),
        }
    }

    /// Joins each vertex of a list to the next, and the last to the first where it is closed, and
    /// counts the segments that are joined.
    #[tactic(auto, using(crate::proofs::Chains::chains_kept))]
    pub fn constrain_chain(&mut self, vertices: &[u32], closed: bool, made: &mut usize) -> u32
        ensures { AddsChainKept vertices.now closed result made.new self.old self.new }
    {
        match self {
            AnyTriangulation::Plain(_) => IS_PLAIN,
            AnyTriangulation::Constrained(points) => constrain_chain(
                points, vertices, closed, made,
            ),
        }
    }
}
