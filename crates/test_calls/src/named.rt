//! A copy of a triangulation whose vertices have names, which take memory.
ghost use Rattle.delaunay_core.specs.{place_of};

use delaunay_core::math::InsertionError;
use delaunay_core::point::{HasPosition, Point2};
use delaunay_interface::{DelaunayTriangulation, Triangulation};
use exact_predicates::ExactTests;
use std::alloc::{AllocError, Global};
use std::io;

/// A vertex with a name.
#[derive(Clone, Debug, Drop)]
pub struct NamedVertex {
    position: Point2<i64>,
    name: String,
}

impl HasPosition for NamedVertex {
    type Scalar = i64;

    ghost place = { λ v. place_of (λ z. z) v.position };

    fn position(&self) -> Point2<i64> {
        self.position
    }
}

fn named(x: i64, y: i64, alloc: Global) -> Result<NamedVertex, AllocError> {
    Ok(NamedVertex {
        position: Point2::new(x, y),
        name: format!(in alloc; "at {x} {y}")?,
    })
}

fn insert_five<T: Triangulation<Vertex = NamedVertex>>(
    points: &mut T,
    alloc: Global,
) -> Result<(), InsertionError> {
    for (x, y) in [(-1, -1), (1, -1), (1, 1), (-1, 1), (0, 0)] {
        let Ok(vertex) = named(x, y, alloc) else {
            return Err(InsertionError::OutOfMemory);
        };
        points.insert(vertex, &ExactTests)?;
    }
    Ok(())
}

fn print_all<T: Triangulation<Vertex = NamedVertex>>(
    rt: &impl Print,
    remark: &str,
    points: &T,
) -> io::Result<()> {
    println!(rt; "{remark}")?;
    for vertex in points.vertices() {
        println!(rt; "{:?}", *vertex.data())?;
    }
    Ok(())
}

// Prints a copy of a triangulation.
fn print_copy(rt: &impl Print, points: &DelaunayTriangulation<NamedVertex>) -> io::Result<()> {
    match points.try_clone() {
        Ok(copy) => print_all(rt, "copy", &copy),
        Err(_) => println!(rt; "Err(AllocError)"),
    }
}

// Copies a triangulation, and prints the copy and the first. A line `begin` stands before the copy
// where calls are marked.
fn print_both(
    rt: &impl Print,
    points: &DelaunayTriangulation<NamedVertex>,
    is_marked: bool,
) -> io::Result<()> {
    if is_marked {
        println!(rt; "begin")?;
    }
    print_copy(rt, points)?;
    print_all(rt, "first", points)
}

/// Copies a square with its centre, and prints the copy and the first. A line `begin` stands before
/// the copy too where calls are marked.
pub fn copy_named(rt: &(impl Print + AllocGlobal), is_marked: bool) -> io::Result<()> {
    println!(rt; "ready")?;
    let mut points: DelaunayTriangulation<NamedVertex> = DelaunayTriangulation::new(rt.alloc());
    match insert_five(&mut points, rt.alloc()) {
        Ok(()) => print_both(rt, &points, is_marked),
        Err(_) => println!(rt; "refused"),
    }
}
