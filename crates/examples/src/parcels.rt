//! A map of parcels between boundary stones. Each face is a parcel, whose data name its owner. When
//! a stone goes, the parcels at it are no longer there, and all others keep their owner.

use exact_predicates::ExactTests;
use spade_delaunay::{
    DelaunayTriangulation, InsertionError, Point2, PositionInTriangulation, Triangulation,
    validate_vertex,
};

/// What is known of a parcel.
#[derive(Default, Drop)]
struct Parcel {
    owner: Option<&'static str>,
}

type Map = DelaunayTriangulation<Point2<i64>, (), (), Parcel>;

/// Metres east and north of the village church.
const STONES: [(i64, i64); 7] = [
    (0, 0),
    (90, -10),
    (180, 20),
    (170, 120),
    (80, 140),
    (-10, 110),
    (85, 55),
];

/// The stone that a flood takes.
const LOST: (i64, i64) = (-10, 110);

/// Names, and a position inside the parcel of each.
const OWNERS: [(&str, i64, i64); 4] = [
    ("Aune", 60, 10),
    ("Berg", 140, 30),
    ("Chen", 150, 90),
    ("Diaz", 30, 50),
];

/// Gives each parcel to its owner. A position outside of all parcels changes nothing.
fn sell_all(map: &mut impl Triangulation<Vertex = Point2<i64>, Face = Parcel>) {
    for (owner, x, y) in OWNERS {
        let position = Point2::new(x, y);
        if validate_vertex(&position).is_err() {
            continue;
        }
        if let PositionInTriangulation::OnFace(face) = map.locate(position, &ExactTests) {
            map.face_data_mut(face).owner = Some(owner);
        }
    }
}

fn owner_at(
    map: &impl Triangulation<Vertex = Point2<i64>, Face = Parcel>,
    position: Point2<i64>,
) -> Option<&'static str> {
    if validate_vertex(&position).is_err() {
        return None;
    }
    match map.locate(position, &ExactTests) {
        PositionInTriangulation::OnFace(face) => map.face(face).data().owner,
        _ => None,
    }
}

fn report(
    rt: &HostRuntime,
    map: &impl Triangulation<Vertex = Point2<i64>, Face = Parcel>,
) -> anyhow::Result<()> {
    println!(rt; "{} parcels", map.num_inner_faces())?;
    for (_, x, y) in OWNERS {
        let owner = owner_at(map, Point2::new(x, y)).unwrap_or("nobody's");
        println!(rt; "parcel at {x} {y}: {owner}")?;
    }
    Ok(())
}

fn set_stones(map: &mut impl Triangulation<Vertex = Point2<i64>>) -> Result<(), InsertionError> {
    for (x, y) in STONES {
        map.insert(Point2::new(x, y), &ExactTests)?;
    }
    Ok(())
}

/// The flood takes its stone.
fn lose_stone(map: &mut impl Triangulation<Vertex = Point2<i64>>) -> anyhow::Result<()> {
    let (x, y) = LOST;
    let position = Point2::new(x, y);
    if validate_vertex(&position).is_ok() {
        map.locate_and_remove(position, &ExactTests)?;
    }
    Ok(())
}

fn settle(
    rt: &HostRuntime,
    map: &mut impl Triangulation<Vertex = Point2<i64>, Face = Parcel>,
) -> anyhow::Result<()> {
    set_stones(map)?;
    sell_all(map);
    report(rt, map)?;
    lose_stone(map)?;
    let (x, y) = LOST;
    println!(rt; "the stone at {x} {y} is lost")?;
    report(rt, map)
}

pub fn run(rt: &HostRuntime) -> anyhow::Result<()> {
    settle(rt, &mut Map::new(rt.alloc()))
}
