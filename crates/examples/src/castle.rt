//! A castle: rings of walls as constraints, and how many of them lie at least between a position
//! and the fields. A breach opens a ring, and a hedge that is no ring is walked round.

use exact_predicates::ExactTests;
use spade_delaunay::handles::FixedFaceHandle;
use spade_delaunay::{
    ConstrainedDelaunayTriangulation, InsertionError, Point2, PositionInTriangulation,
    Triangulation, face_layers, validate_vertex,
};

type Castle = ConstrainedDelaunayTriangulation<Point2<i64>>;

/// The corners of the fields, in metres.
const FIELDS: [(i64, i64); 4] = [(-200, -200), (800, -200), (800, 500), (-200, 500)];

/// The corners of each ring of walls, the outer one first.
const RINGS: [[(i64, i64); 4]; 3] = [
    [(0, 0), (400, 0), (400, 300), (0, 300)],
    [(150, 100), (300, 100), (300, 250), (150, 250)],
    [(200, 150), (250, 150), (250, 200), (200, 200)],
];

/// Both ends of the hedge.
const HEDGE: (i64, i64, i64, i64) = (-100, 100, -100, 250);

/// Where the middle ring is breached.
const BREACH: (i64, i64) = (225, 100);

/// Names of places, and where they are.
const PLACES: [(&str, i64, i64); 7] = [
    ("the camp", 600, 100),
    ("the orchard", -150, 170),
    ("the market", 50, 60),
    ("the chapel", 170, 120),
    ("the tower", 230, 160),
    ("the gate", 400, 170),
    ("the hill", 900, 900),
];

fn mark_fields(
    castle: &mut impl Triangulation<Vertex = Point2<i64>>,
) -> Result<(), InsertionError> {
    for (x, y) in FIELDS {
        castle.insert(Point2::new(x, y), &ExactTests)?;
    }
    Ok(())
}

fn build(castle: &mut Castle) -> anyhow::Result<()> {
    for [(ax, ay), (bx, by), (cx, cy), (dx, dy)] in RINGS {
        let corners = [
            Point2::new(ax, ay),
            Point2::new(bx, by),
            Point2::new(cx, cy),
            Point2::new(dx, dy),
        ];
        castle.add_constraint_edges(corners.into_iter(), true, &ExactTests)?;
    }
    let (a, b, c, d) = HEDGE;
    castle.add_constraint_edge(Point2::new(a, b), Point2::new(c, d), &ExactTests)?;
    Ok(())
}

/// The face at a position, or nothing on a wall.
fn face_at(castle: &Castle, position: Point2<i64>) -> Option<FixedFaceHandle> {
    if validate_vertex(&position).is_err() {
        return None;
    }
    match castle.locate(position, &ExactTests) {
        PositionInTriangulation::OnFace(face) => Some(face),
        PositionInTriangulation::OnEdge(edge) => {
            let edge = castle.directed_edge(edge);
            let is_wall = edge.as_undirected().data().is_constraint_edge();
            if is_wall {
                None
            } else {
                Some(edge.face().fix())
            }
        }
        PositionInTriangulation::OutsideOfConvexHull(_) => Some(castle.outer_face().fix()),
        _ => None,
    }
}

/// How many walls lie before a position, or nothing on a wall.
fn walls_before(castle: &Castle, layers: &[u32], position: Point2<i64>) -> Option<u32> {
    let face = face_at(castle, position)?;
    layers.get(face.index() as usize).copied()
}

fn report(rt: &HostRuntime, castle: &Castle) -> anyhow::Result<()> {
    let layers = face_layers(castle, rt.alloc())?;
    for (name, x, y) in PLACES {
        match walls_before(castle, layers.as_slice(), Point2::new(x, y)) {
            Some(walls) => println!(rt; "walls before {name}: {walls}")?,
            None => println!(rt; "{name} is on a wall")?,
        }
    }
    Ok(())
}

/// Breaches the wall at a position.
fn breach(castle: &mut Castle, position: Point2<i64>) -> anyhow::Result<()> {
    if validate_vertex(&position).is_err() {
        return Ok(());
    }
    if let PositionInTriangulation::OnEdge(edge) = castle.locate(position, &ExactTests) {
        let wall = castle.directed_edge(edge).as_undirected().fix();
        castle.remove_constraint_edge(wall, &ExactTests)?;
    }
    Ok(())
}

fn besiege(rt: &HostRuntime, castle: &mut Castle) -> anyhow::Result<()> {
    mark_fields(castle)?;
    build(castle)?;
    println!(rt;
        "{} faces, {} walls",
        castle.num_inner_faces(),
        castle.num_constraints()
    )?;
    report(rt, castle)?;
    let (x, y) = BREACH;
    breach(castle, Point2::new(x, y))?;
    println!(rt; "the wall at {x} {y} is breached")?;
    report(rt, castle)
}

pub fn run(rt: &HostRuntime) -> anyhow::Result<()> {
    besiege(rt, &mut Castle::new(rt.alloc()))
}
