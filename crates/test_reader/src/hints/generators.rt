//! Generators of hints by themselves.
ghost use Rattle.std.specs.Prelude.{Some};
ghost use Rattle.plane.specs.{InRange, IsAtMost};

use delaunay_core::HintGenerator;
use delaunay_core::math::validate_vertex;
use delaunay_core::point::Point2;
use exact_predicates::ExactTests;
use half_edge_links::FixedVertexHandle;
use std::alloc::Global;
use std::io;

// Tells of a vertex at a position in range.
fn tell<L: HintGenerator<i64>>(generator: &mut L, index: u32, position: Point2<i64>)
    requires { IsAtMost InRange (L.holds generator.old) }
    ensures { IsAtMost InRange (L.holds generator.new) }
{
    if validate_vertex(&position).is_ok() {
        let vertex = FixedVertexHandle::from_index(index);
        generator.notify_vertex_inserted(vertex, position, &ExactTests);
    }
}

// Tells that a vertex went and that the last one, which is elsewhere, took its handle.
fn tell_removal<L: HintGenerator<i64>>(
    generator: &mut L,
    index: u32,
    position: Point2<i64>,
    last: Point2<i64>,
)
    requires { IsAtMost InRange (L.holds generator.old) }
    ensures { IsAtMost InRange (L.holds generator.new) }
{
    if validate_vertex(&position).is_ok() && validate_vertex(&last).is_ok() {
        let vertex = FixedVertexHandle::from_index(index);
        generator.notify_vertex_removed(Some(last), vertex, position, &ExactTests);
    }
}

// Prints a remark, and the hints at some places.
fn print_hints<L: HintGenerator<i64>>(
    rt: &impl Print,
    remark: &str,
    generator: &L,
    places: [(i64, i64); 4],
) -> io::Result<()>
    requires { IsAtMost InRange (L.holds generator.now) }
{
    println!(rt; "{remark}")?;
    for (x, y) in places {
        let position = Point2::new(x, y);
        if validate_vertex(&position).is_ok() {
            let hint = generator.get_hint(position, &ExactTests).index();
            println!(rt; "hint at ({x}, {y}): {hint}")?;
        }
    }
    Ok(())
}

// Three of the five vertices, the last of them twice.
const NEAR_FIVE: [(i64, i64); 4] = [(-1, -1), (1, -1), (0, 0), (0, 0)];

/// Tells of five vertices and of the removal of one, and begins anew with the five.
pub fn five<L: HintGenerator<i64>>(rt: &(impl Print + AllocGlobal)) -> io::Result<()> {
    let mut told: L = HintGenerator::<i64>::new(rt.alloc());
    tell(&mut told, 0, Point2::new(-1, -1));
    tell(&mut told, 1, Point2::new(0, -1));
    tell(&mut told, 2, Point2::new(1, -1));
    tell(&mut told, 3, Point2::new(-1, 0));
    tell(&mut told, 4, Point2::new(0, 0));
    print_hints(rt, "told of five vertices", &told, NEAR_FIVE)?;
    tell_removal(&mut told, 2, Point2::new(1, -1), Point2::new(0, 0));
    print_hints(rt, "told that the one at 1 -1 went", &told, NEAR_FIVE)?;
    let points = [
        Point2::new(-1, -1),
        Point2::new(0, -1),
        Point2::new(1, -1),
        Point2::new(-1, 0),
        Point2::new(0, 0),
    ];
    let made: L = HintGenerator::<i64>::initialize_from_triangulation(
        rt.alloc(),
        &points,
        &ExactTests,
    );
    print_hints(rt, "made for the five", &made, NEAR_FIVE)?;
    let copy = HintGenerator::<i64>::duplicate(&made);
    print_hints(rt, "its copy", &copy, NEAR_FIVE)
}

// Four of the nine points that one is made for.
const NEAR_NINE: [(i64, i64); 4] = [(-30, 50), (10, -70), (20, 30), (-80, 80)];

// One for nine points.
fn initialized<L: HintGenerator<i64>>(alloc: Global) -> L
    ensures { IsAtMost InRange (L.holds result) }
{
    let points = [
        Point2::new(0, 0),
        Point2::new(40, 10),
        Point2::new(-30, 50),
        Point2::new(-60, -20),
        Point2::new(10, -70),
        Point2::new(90, 90),
        Point2::new(20, 30),
        Point2::new(50, -50),
        Point2::new(-80, 80),
    ];
    HintGenerator::<i64>::initialize_from_triangulation(alloc, &points, &ExactTests)
}

/// Makes one for nine points, and prints its hints.
pub fn initialize<L: HintGenerator<i64>>(rt: &(impl Print + AllocGlobal)) -> io::Result<()> {
    let made: L = initialized(rt.alloc());
    print_hints(rt, "made", &made, NEAR_NINE)
}

/// Copies one, and prints the hints of the copy and of the first. A line `begin` stands before the
/// copy too where calls are marked.
pub fn duplicate<L: HintGenerator<i64>>(
    rt: &(impl Print + AllocGlobal),
    is_marked: bool,
) -> io::Result<()> {
    println!(rt; "ready")?;
    let made: L = initialized(rt.alloc());
    if is_marked {
        println!(rt; "begin")?;
    }
    let copy = HintGenerator::<i64>::duplicate(&made);
    print_hints(rt, "copy", &copy, NEAR_NINE)?;
    print_hints(rt, "first", &made, NEAR_NINE)
}
