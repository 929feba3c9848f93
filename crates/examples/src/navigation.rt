//! A navigation mesh: a hall with walls and pillars, who sees whom past them, and what changes when
//! a wall is taken down. A wall is a constraint. A pillar is a closed chain of constraints, and the
//! faces in it are not free.

ghost use Rattle.std.specs.Prelude.{slice_index_or, false};

use exact_predicates::ExactTests;
use spade_delaunay::handles::FixedFaceHandle;
use spade_delaunay::{
    ConstrainedDelaunayTriangulation, ConstraintError, FreeFaces, InsertionError, Point2,
    PositionInTriangulation, Triangulation, is_in_sight, validate_vertex,
};
use std::alloc::{AllocError, Global};

type Hall = ConstrainedDelaunayTriangulation<Point2<i64>>;

/// The corners of the hall, in tenths of a metre.
const CORNERS: [(i64, i64); 4] = [(0, 0), (400, 0), (400, 300), (0, 300)];

/// The lower left and the upper right corner of each pillar.
const PILLARS: [(i64, i64, i64, i64); 2] = [(180, 60, 210, 90), (320, 200, 350, 250)];

/// Both ends of each wall inside. The third meets the first at its end, and the last would cross
/// the second, so it is not built.
const WALLS: [(i64, i64, i64, i64); 5] = [
    (100, 60, 100, 210),
    (160, 150, 330, 150),
    (100, 210, 220, 260),
    (250, 40, 320, 90),
    (240, 100, 240, 200),
];

/// The middle of the wall that is taken down.
const TAKEN: (i64, i64) = (100, 135);

/// Who looks from where to where. The last five look from corner to corner through a pillar, along
/// its side, past its corner, into it through a corner, and through two corners of the other one.
const GUARDS: [(i64, i64, i64, i64); 11] = [
    (40, 120, 180, 120),
    (40, 40, 180, 40),
    (200, 100, 300, 200),
    (130, 120, 340, 140),
    (60, 270, 380, 290),
    (300, 20, 260, 110),
    (180, 60, 210, 90),
    (180, 60, 210, 60),
    (170, 70, 190, 50),
    (170, 50, 195, 75),
    (314, 190, 356, 260),
];

/// Which faces are floor, by index: all inside the hall but those in pillars.
#[derive(Drop)]
struct Floor {
    free: Vec<bool>,
}

impl FreeFaces for Floor {
    ghost free = { λ floor face. slice_index_or floor.free.items face false };

    fn is_free(&self, face: FixedFaceHandle) -> bool {
        self.free
            .get(face.index() as usize)
            .copied()
            .unwrap_or(false)
    }
}

/// Builds a wall, unless it would cross another, and tells whether it did.
fn build(hall: &mut Hall, from: Point2<i64>, to: Point2<i64>) -> anyhow::Result<bool> {
    match hall.add_constraint_edge(from, to, &ExactTests) {
        Ok(_) => Ok(true),
        Err(ConstraintError::Conflict) => Ok(false),
        Err(error) => Err(error.into()),
    }
}

/// Builds the sides of each pillar.
fn raise_pillars(hall: &mut Hall) -> anyhow::Result<()> {
    for (west, south, east, north) in PILLARS {
        let corners = [
            Point2::new(west, south),
            Point2::new(east, south),
            Point2::new(east, north),
            Point2::new(west, north),
        ];
        hall.add_constraint_edges(corners.into_iter(), true, &ExactTests)?;
    }
    Ok(())
}

/// Whether a position is in a pillar or on its side.
fn is_in(pillar: (i64, i64, i64, i64), position: Point2<i64>) -> bool {
    let (west, south, east, north) = pillar;
    west <= position.x && position.x <= east && south <= position.y && position.y <= north
}

/// Whether the face with three corners is in a pillar. A pillar's sides are edges, so a face that
/// is not in it has a corner outside.
fn is_solid(corners: [Point2<i64>; 3]) -> bool {
    let [a, b, c] = corners;
    for pillar in PILLARS {
        if is_in(pillar, a) && is_in(pillar, b) && is_in(pillar, c) {
            return true;
        }
    }
    false
}

/// Marks the faces, the outer one first.
fn mark_floor(hall: &Hall, alloc: Global) -> Result<Floor, AllocError> {
    let mut free = Vec::new(alloc);
    free.push(false)?;
    for face in hall.inner_faces() {
        let [a, b, c] = face.vertices();
        free.push(!is_solid([*a.data(), *b.data(), *c.data()]))?;
    }
    Ok(Floor { free })
}

fn build_all(rt: &HostRuntime, hall: &mut Hall) -> anyhow::Result<()> {
    for (a, b, c, d) in WALLS {
        let done = if build(hall, Point2::new(a, b), Point2::new(c, d))? {
            "built"
        } else {
            "not built"
        };
        println!(rt; "wall from {a} {b} to {c} {d}: {done}")?;
    }
    Ok(())
}

/// Whether one sees from a position to another, past all walls and pillars. Nothing where a
/// position is too far off.
fn sees(hall: &Hall, floor: &Floor, from: Point2<i64>, to: Point2<i64>) -> Option<bool> {
    if validate_vertex(&from).is_err() || validate_vertex(&to).is_err() {
        return None;
    }
    let has_wall = hall.intersects_constraint(from, to, &ExactTests);
    Some(!has_wall && is_in_sight(hall, from, to, floor, &ExactTests))
}

fn look(rt: &HostRuntime, hall: &Hall) -> anyhow::Result<()> {
    let floor = mark_floor(hall, rt.alloc())?;
    for (a, b, c, d) in GUARDS {
        if let Some(seen) = sees(hall, &floor, Point2::new(a, b), Point2::new(c, d)) {
            let word = if seen { "sees" } else { "does not see" };
            println!(rt; "{a} {b} {word} {c} {d}")?;
        }
    }
    Ok(())
}

/// Takes down the wall through a position, if there is one.
fn take_down(hall: &mut Hall, position: Point2<i64>) -> anyhow::Result<bool> {
    if validate_vertex(&position).is_err() {
        return Ok(false);
    }
    match hall.locate(position, &ExactTests) {
        PositionInTriangulation::OnEdge(edge) => {
            let wall = hall.directed_edge(edge).as_undirected().fix();
            Ok(hall.remove_constraint_edge(wall, &ExactTests)?)
        }
        _ => Ok(false),
    }
}

fn mark_corners(hall: &mut impl Triangulation<Vertex = Point2<i64>>) -> Result<(), InsertionError> {
    for (x, y) in CORNERS {
        hall.insert(Point2::new(x, y), &ExactTests)?;
    }
    Ok(())
}

fn guard(rt: &HostRuntime, hall: &mut Hall) -> anyhow::Result<()> {
    mark_corners(hall)?;
    raise_pillars(hall)?;
    build_all(rt, hall)?;
    println!(rt;
        "{} faces, {} constraints",
        hall.num_inner_faces(),
        hall.num_constraints()
    )?;
    look(rt, hall)?;
    let (x, y) = TAKEN;
    let gone = take_down(hall, Point2::new(x, y))?;
    println!(rt;
        "wall at {x} {y}: {}",
        if gone { "taken down" } else { "not there" }
    )?;
    look(rt, hall)
}

pub fn run(rt: &HostRuntime) -> anyhow::Result<()> {
    guard(rt, &mut Hall::new(rt.alloc()))
}
