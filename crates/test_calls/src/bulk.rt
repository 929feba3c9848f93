//! Lines that insert the vertices of a list at once or step by step.

use crate::vertices::TaggedVertex;
use delaunay_core::math::InsertionError;
use delaunay_extensions::{BulkInsertion, BulkInsertionError, InsertAll};
use delaunay_interface::Triangulation;
use exact_predicates::ExactTests;
use std::io;
use test_reader::Call;

// Tells the place, the handle and what is left after each step, and why the last one was none.
fn insert_in_steps<T: Triangulation<Vertex = TaggedVertex>>(
    rt: &impl Print,
    points: &mut T,
    vertices: Vec<TaggedVertex>,
) -> Result<io::Result<()>, BulkInsertionError> {
    let mut insertion = BulkInsertion::new(vertices)?;
    for _ in 0..insertion.len() {
        let Some((place, vertex)) = insertion.insert_next(points, &ExactTests)? else {
            break;
        };
        let (index, left) = (vertex.index(), insertion.len());
        if let Err(error) = println!(rt; "place {place}, vertex {index}, {left} left") {
            return Ok(Err(error));
        }
    }
    Ok(println!(rt; "none is left: {}", insertion.is_empty()))
}

// Why a list is not inserted, as a text.
fn tell_steps<T: Triangulation<Vertex = TaggedVertex>>(
    rt: &impl Print,
    points: &mut T,
    vertices: Vec<TaggedVertex>,
) -> io::Result<()> {
    match insert_in_steps(rt, points, vertices) {
        Ok(told) => told,
        Err(error) => println!(rt; "{error}"),
    }
}

fn reserve<T: Triangulation>(points: &mut T, additional: i64) -> Result<(), InsertionError> {
    points.reserve(usize::try_from(additional).unwrap_or(0))
}

/// Makes the call of a line that inserts the vertices of a list, each with its place as its number,
/// or makes room for so many.
pub fn insert_many<T: Triangulation<Vertex = TaggedVertex>>(
    rt: &impl Print,
    points: &mut T,
    call: &Call<'_>,
    vertices: Vec<TaggedVertex>,
) -> io::Result<bool> {
    let printed = match call.name {
        "insert_all" => call.tell(rt, &points.insert_all(vertices, &ExactTests)),
        "insert_in_steps" => tell_steps(rt, points, vertices),
        "reserve" => call.tell(rt, &reserve(points, call.numbers[0])),
        _ => return Ok(false),
    };
    printed?;
    Ok(true)
}
