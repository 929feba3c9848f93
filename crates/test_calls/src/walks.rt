//! Lines that ask what segments meet, and which constraints they cross. Items are printed as they
//! are, behind how many there may be.
ghost use Rattle.std.specs.Iterator.{IsFinite};

use crate::points::Constrained;
use crate::vertices::{TaggedVertex, both, both_in_range};
use delaunay_core::HintGenerator;
use delaunay_interface::Triangulation;
use delaunay_location::LineIntersectionIterator;
use exact_predicates::ExactTests;
use std::fmt::Debug;
use std::io;
use test_reader::Call;

// Prints all items.
fn print_items<I: Iterator + Drop>(rt: &impl Print, call: &Call<'_>, items: I) -> io::Result<()>
where
    I::Item: Debug + Drop,
    requires can_next { I.can_next items }
    requires finite { IsFinite (I.remaining items) }
{
    call.tell(rt, &items.size_hint())?;
    for item in items {
        println!(rt; "{item:?}")?;
    }
    Ok(())
}

/// What the segment between two points meets.
pub fn walk<T: Triangulation<Vertex = TaggedVertex>>(
    rt: &impl Print,
    points: &T,
    call: &Call<'_>,
) -> io::Result<()> {
    match both_in_range(call.ends()) {
        Some((from, to)) => {
            let items = LineIntersectionIterator::new(points, from, to, &ExactTests);
            print_items(rt, call, items)
        }
        None => call.tell(rt, &"no walk"),
    }
}

/// The same between two vertices.
pub fn walk_between<T: Triangulation<Vertex = TaggedVertex>>(
    rt: &impl Print,
    points: &T,
    call: &Call<'_>,
) -> io::Result<()> {
    let [from, to, _] = call.indexes();
    match both(points, from, to) {
        Some((from, to)) => {
            let items = LineIntersectionIterator::new_from_handles(points, from, to, &ExactTests);
            print_items(rt, call, items)
        }
        None => call.tell(rt, &"no walk"),
    }
}

// The constraints that the segment between two points crosses.
fn conflicts<L: HintGenerator<i64>>(
    rt: &impl Print,
    points: &Constrained<L>,
    call: &Call<'_>,
) -> io::Result<()> {
    match both_in_range(call.ends()) {
        Some((from, to)) => {
            let edges = points.get_conflicting_edges_between_points(from, to, &ExactTests);
            print_items(rt, call, edges)
        }
        None => call.tell(rt, &"no walk"),
    }
}

// The same between two vertices.
fn conflicts_between<L: HintGenerator<i64>>(
    rt: &impl Print,
    points: &Constrained<L>,
    call: &Call<'_>,
) -> io::Result<()> {
    let [from, to, _] = call.indexes();
    match both(points, from, to) {
        Some((from, to)) => {
            let edges = points.get_conflicting_edges_between_vertices(from, to, &ExactTests);
            print_items(rt, call, edges)
        }
        None => call.tell(rt, &"no walk"),
    }
}

// Whether a segment crosses a constraint.
fn intersects<L: HintGenerator<i64>>(points: &Constrained<L>, call: &Call<'_>) -> Option<bool> {
    let (from, to) = both_in_range(call.ends())?;
    Some(points.intersects_constraint(from, to, &ExactTests))
}

/// Makes the call of a line that asks which constraints a segment crosses.
pub fn cross<L: HintGenerator<i64>>(
    rt: &impl Print,
    points: &Constrained<L>,
    call: &Call<'_>,
) -> io::Result<bool> {
    let printed = match call.name {
        "conflicts" => conflicts(rt, points, call),
        "conflicts_of_handles" => conflicts_between(rt, points, call),
        "intersects_constraint" => call.tell(rt, &intersects(points, call)),
        _ => return Ok(false),
    };
    printed?;
    Ok(true)
}
