//! Walls between the corners of a yard, each built where no other crosses it, and what ways over
//! the yard meet, to the end of each and no further.

ghost use Rattle.spade_delaunay.specs.Place.{place_of};
ghost use Rattle.spade_delaunay.specs.Tests.{InRange};
ghost use Rattle.spade_delaunay.specs.Walk.{IsReady};

use exact_predicates::ExactTests;
use spade_delaunay::handles::FixedVertexHandle;
use spade_delaunay::{
    ConflictingEdgesIterator, ConstrainedDelaunayTriangulation, ConstraintMarker, HasPosition,
    InsertionError, Intersection, LineIntersectionIterator, PlaneTests, Point2, Triangulation,
    validate_vertex,
};
use std::alloc::AllocError;

type Yard = ConstrainedDelaunayTriangulation<Point2<i64>>;

/// Metres east and north of the gate.
const CORNERS: [(i64, i64); 6] = [(0, 0), (60, 0), (60, 40), (0, 40), (20, 20), (45, 15)];

/// The numbers of the corners that each wall joins. The third would cross the second.
const WALLS: [(u32, u32); 5] = [(0, 4), (4, 2), (1, 3), (5, 2), (0, 5)];

/// Both ends of ways over the yard: through a corner, across two walls, along one, and past all.
const WAYS: [(i64, i64, i64, i64); 4] = [
    (-10, 30, 80, 0),
    (30, -10, 30, 50),
    (0, 0, 30, 30),
    (-10, -10, -10, 50),
];

fn mark_corners(yard: &mut impl Triangulation<Vertex = Point2<i64>>) -> Result<(), InsertionError> {
    for (x, y) in CORNERS {
        yard.insert(Point2::new(x, y), &ExactTests)?;
    }
    Ok(())
}

/// Builds a wall between two corners, unless one of them is not there, or the wall would cross
/// another, and tells whether it did.
fn build(yard: &mut Yard, from: u32, to: u32) -> Result<bool, AllocError> {
    if from as usize >= yard.num_vertices() || to as usize >= yard.num_vertices() {
        return Ok(false);
    }
    let (from, to) = (
        FixedVertexHandle::from_index(from),
        FixedVertexHandle::from_index(to),
    );
    if yard.can_add_constraint(from, to, &ExactTests) {
        yard.add_constraint(from, to, &ExactTests)
    } else {
        Ok(false)
    }
}

fn build_all(rt: &HostRuntime, yard: &mut Yard) -> anyhow::Result<()> {
    mark_corners(yard)?;
    for (from, to) in WALLS {
        let done = if build(yard, from, to)? {
            "built"
        } else {
            "not built"
        };
        println!(rt; "wall from corner {from} to corner {to}: {done}")?;
    }
    println!(rt; "{} walls", yard.num_constraints())?;
    Ok(())
}

/// Tells the corner or the numbers of both ends of the edge that a way meets.
fn tell_item<V, DE, UE, F>(
    rt: &HostRuntime,
    item: &Intersection<'_, V, DE, UE, F>,
) -> anyhow::Result<()> {
    match item {
        Intersection::EdgeIntersection(edge) => {
            let [from, to] = edge.vertices();
            println!(rt; "across {} {}", from.fix().index(), to.fix().index())?;
        }
        Intersection::VertexIntersection(corner) => println!(rt; "at {}", corner.fix().index())?,
        Intersection::EdgeOverlap(edge) => {
            let [from, to] = edge.vertices();
            println!(rt; "along {} {}", from.fix().index(), to.fix().index())?;
        }
    }
    Ok(())
}

/// Tells what a way meets, and whether anything comes after the last that it met.
fn tell_line<V: HasPosition, DE, UE, F, P: PlaneTests<V::Scalar>>(
    rt: &HostRuntime,
    line: &mut LineIntersectionIterator<'_, V, DE, UE, F, P>,
) -> anyhow::Result<()>
    requires { IsReady V.place V.Scalar.whole P.sites P.covered line.old }
{
    while let Some(item) = line.next() {
        tell_item(rt, &item)?;
    }
    println!(rt; "the way ends: {}", line.next().is_none())?;
    Ok(())
}

/// Tells which walls a way crosses, and whether one comes after the last.
fn tell_walls<M: ConstraintMarker<UE>, V: HasPosition, DE, UE, F, P: PlaneTests<V::Scalar>>(
    rt: &HostRuntime,
    walls: &mut ConflictingEdgesIterator<'_, M, V, DE, UE, F, P>,
) -> anyhow::Result<()>
    requires { IsReady V.place V.Scalar.whole P.sites P.covered walls.old.line }
{
    while let Some(wall) = walls.next() {
        let [from, to] = wall.vertices();
        println!(rt; "through wall {} {}", from.fix().index(), to.fix().index())?;
    }
    println!(rt; "no wall is left: {}", walls.next().is_none())?;
    Ok(())
}

/// Tells what a way in range meets, and which walls it crosses.
fn tell_way(rt: &HostRuntime, yard: &Yard, from: Point2<i64>, to: Point2<i64>) -> anyhow::Result<()>
    requires from { InRange (place_of (λ z. z) from) }
    requires to { InRange (place_of (λ z. z) to) }
{
    let mut line = LineIntersectionIterator::new(yard, from, to, &ExactTests);
    let mut walls = yard.get_conflicting_edges_between_points(from, to, &ExactTests);
    tell_line(rt, &mut line)?;
    tell_walls(rt, &mut walls)
}

fn tell_ways(rt: &HostRuntime, yard: &Yard) -> anyhow::Result<()> {
    for (a, b, c, d) in WAYS {
        println!(rt; "from {a} {b} to {c} {d}:")?;
        let (from, to) = (Point2::new(a, b), Point2::new(c, d));
        if validate_vertex(&from).is_ok() && validate_vertex(&to).is_ok() {
            tell_way(rt, yard, from, to)?;
        }
    }
    Ok(())
}

fn patrol(rt: &HostRuntime, yard: &mut Yard) -> anyhow::Result<()> {
    build_all(rt, yard)?;
    tell_ways(rt, yard)
}

pub fn run(rt: &HostRuntime) -> anyhow::Result<()> {
    patrol(rt, &mut Yard::new(rt.alloc()))
}
