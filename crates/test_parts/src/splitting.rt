//! Joins the segments of a line, four numbers each, in a triangulation of their ends, splits those
//! that cross, and prints what came of it, the numbers of vertices and of constraints, and the
//! constraints by the positions of their ends, in order.

use delaunay_core::point::Point2;
use delaunay_interface::{ConstrainedDelaunayTriangulation, Triangulation};
use delaunay_journal::{Replayable, SplitError, add_constraints_and_split};
use delaunay_legalization::ConstraintMarker;
use exact_predicates::ExactTests;
use std::alloc::Global;
use test_reader::Call;

// Inserts the ends of segments, and joins them.
fn join<T: Replayable<Vertex = Point2<i64>>>(
    triangulation: &mut T,
    ends: &[Point2<i64>],
    steps: usize,
    alloc: Global,
) -> anyhow::Result<Result<(), SplitError>> {
    let mut segments = Vec::new(alloc);
    let mut start = None;
    for end in ends {
        let end = triangulation.insert(*end, &ExactTests)?;
        match start.take() {
            Some(start) => segments.push((start, end))?,
            None => start = Some(end),
        }
    }
    let make_vertex = |position| position;
    Ok(add_constraints_and_split(
        triangulation,
        &mut segments,
        steps,
        &ExactTests,
        &make_vertex,
    ))
}

// The constraints by the positions of their ends, in order, the lesser end first.
fn constraints_of<T: Triangulation<Vertex = Point2<i64>>>(
    triangulation: &T,
    alloc: Global,
) -> anyhow::Result<Vec<(Point2<i64>, Point2<i64>)>> {
    let mut constraints = Vec::new(alloc);
    for edge in triangulation.directed_edges() {
        let ends = (*edge.from().data(), *edge.to().data());
        if ends.0 < ends.1 && T::Constraints::is_constraint_edge(edge.as_undirected().data()) {
            constraints.push(ends)?;
        }
    }
    constraints.sort()?;
    Ok(constraints)
}

fn answer<T: Replayable<Vertex = Point2<i64>>>(
    rt: &(impl Print + AllocGlobal),
    triangulation: &mut T,
    ends: &[Point2<i64>],
    steps: usize,
) -> anyhow::Result<()> {
    let joined = join(triangulation, ends, steps, rt.alloc())?;
    let constraints = constraints_of(triangulation, rt.alloc())?;
    println!(rt;
        "{joined:?} {} {}",
        triangulation.num_vertices(),
        constraints.len()
    )?;
    for (from, to) in constraints {
        println!(rt; "{} {} {} {}", from.x, from.y, to.x, to.y)?;
    }
    Ok(())
}

/// Splits the segments of a line in at most so many steps.
pub fn split(rt: &(impl Print + AllocGlobal), call: &Call<'_>, steps: usize) -> anyhow::Result<()> {
    let ends = call.positions(rt.alloc())?;
    let mut triangulation = ConstrainedDelaunayTriangulation::<Point2<i64>>::new(rt.alloc());
    answer(rt, &mut triangulation, ends.as_slice(), steps)
}
