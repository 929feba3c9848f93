//! Lines of constraints: nothing where a call is not made.

use crate::points::Constrained;
use crate::vertices::{TaggedVertex, both, edge_between};
use delaunay_core::HintGenerator;
use delaunay_interface::ConstraintError;
use exact_predicates::ExactTests;
use half_edge_links::{FixedDirectedEdgeHandle, FixedVertexHandle};
use std::alloc::AllocError;
use std::io;
use test_reader::Call;

// The edges of the path that was made.
fn try_add<L: HintGenerator<i64>>(
    points: &mut Constrained<L>,
    from: u32,
    to: u32,
) -> Option<Result<Vec<FixedDirectedEdgeHandle>, AllocError>> {
    let (from, to) = both(points, from, to)?;
    Some(points.try_add_constraint(from, to, &ExactTests))
}

// Whether an edge of a path that nothing crosses became a constraint: nothing where one crosses.
fn add_unless_crossed<L: HintGenerator<i64>>(
    points: &mut Constrained<L>,
    from: u32,
    to: u32,
) -> Option<Result<Option<bool>, AllocError>> {
    let (from, to) = both(points, from, to)?;
    Some(points.add_constraint_unless_crossed(from, to, &ExactTests))
}

// Whether the edge that joins two vertices was a constraint, which is released.
fn release<L: HintGenerator<i64>>(
    points: &mut Constrained<L>,
    from: u32,
    to: u32,
) -> Option<Result<bool, AllocError>> {
    let edge = edge_between(points, from, to)?;
    Some(points.remove_constraint_edge(edge, &ExactTests))
}

// Whether the edge that joins two vertices is a constraint.
fn is_constraint<L: HintGenerator<i64>>(
    points: &Constrained<L>,
    from: u32,
    to: u32,
) -> Option<bool> {
    let edge = edge_between(points, from, to)?;
    Some(points.is_constraint_edge(edge))
}

// Whether a constraint joins two vertices.
fn exists<L: HintGenerator<i64>>(points: &Constrained<L>, from: u32, to: u32) -> bool {
    let from = FixedVertexHandle::from_index(from);
    points.exists_constraint(from, FixedVertexHandle::from_index(to))
}

// What the first two of these vertices give as the ends of a constraint.
fn add_edge<L: HintGenerator<i64>>(
    points: &mut Constrained<L>,
    ends: &[TaggedVertex],
) -> Option<Result<bool, ConstraintError>> {
    let [from, to] = *ends.first_chunk::<2>()?;
    Some(points.add_constraint_edge(from, to, &ExactTests))
}

// What a list of vertices gives as a path of constraints, which may be closed.
fn add_edges<L: HintGenerator<i64>>(
    points: &mut Constrained<L>,
    vertices: Vec<TaggedVertex>,
    closed: bool,
) -> Result<(), ConstraintError> {
    points.add_constraint_edges(vertices.into_iter(), closed, &ExactTests)
}

// Prints that a chain was added, or what its error says.
fn tell_chain(
    rt: &impl Print,
    call: &Call<'_>,
    added: Result<(), ConstraintError>,
) -> io::Result<()> {
    let line = call.line;
    match added {
        Ok(()) => call.tell(rt, &()),
        Err(error) => println!(rt; "{line} > {error}"),
    }
}

/// Whether a call adds constraints between the vertices of a list.
pub fn is_chain(name: &str) -> bool {
    name == "add_constraint_edge" || name == "add_constraint_edges" || name == "add_closed_edges"
}

/// Makes such a call.
pub fn chain<L: HintGenerator<i64>>(
    rt: &impl Print,
    points: &mut Constrained<L>,
    call: &Call<'_>,
    vertices: Vec<TaggedVertex>,
) -> io::Result<()> {
    if call.name == "add_constraint_edge" {
        return call.tell(rt, &add_edge(points, vertices.as_slice()));
    }
    let added = add_edges(points, vertices, call.name == "add_closed_edges");
    tell_chain(rt, call, added)
}

/// Makes the call of a line that names two vertices by their indexes, and tells whether it is one.
pub fn constrain<L: HintGenerator<i64>>(
    rt: &impl Print,
    points: &mut Constrained<L>,
    call: &Call<'_>,
) -> io::Result<bool> {
    let [from, to, _] = call.indexes();
    let printed = match call.name {
        "try_add_constraint" => call.tell(rt, &try_add(points, from, to)),
        "add_constraint_unless_crossed" => call.tell(rt, &add_unless_crossed(points, from, to)),
        "remove_constraint_edge" => call.tell(rt, &release(points, from, to)),
        "exists_constraint" => call.tell(rt, &exists(points, from, to)),
        "is_constraint_edge" => call.tell(rt, &is_constraint(points, from, to)),
        _ => return Ok(false),
    };
    printed?;
    Ok(true)
}
