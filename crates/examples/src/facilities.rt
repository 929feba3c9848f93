//! Which fire station is nearest to a fire, before and after one of them closes.

use exact_predicates::ExactTests;
use spade_delaunay::{
    DelaunayTriangulation, HasPosition, InsertionError, Point2, Triangulation, validate_vertex,
};

/// A vertex is whatever has a position.
#[derive(Drop)]
struct Station {
    name: &'static str,
    position: Point2<i64>,
}

impl HasPosition for Station {
    type Scalar = i64;

    // A user's position is that of a field; proofs see it so too.
    ghost place = { λ s. ⟦<Point2<i64> as HasPosition>⟧.place s.position };

    fn position(&self) -> Point2<i64> {
        self.position
    }
}

type Stations = DelaunayTriangulation<Station>;

/// Names, and metres east and north of the town hall.
const STATIONS: [(&str, i64, i64); 12] = [
    ("Town hall", 0, 0),
    ("Harbour", 5200, -800),
    ("Mill", -2300, 1900),
    ("North gate", 400, 4100),
    ("South gate", -300, -3700),
    ("Airport", 9800, 7600),
    ("Quarry", -8700, -2500),
    ("Forest", -6100, 6800),
    ("Lake", 3100, 6900),
    ("Vineyard", 2600, 2200),
    ("Depot", 2700, -2600),
    ("Marsh", 7400, -6100),
];

/// Metres east and north of the town hall, too.
const FIRES: [(i64, i64); 6] = [
    (100, -200),
    (4000, 600),
    (2500, 2100),
    (-4000, 4100),
    (30000, 30000),
    (-1000, -1900),
];

/// Tells how many stations there are then.
fn open_all(stations: &mut impl Triangulation<Vertex = Station>) -> Result<usize, InsertionError> {
    for (name, x, y) in STATIONS {
        let position = Point2::new(x, y);
        stations.insert(Station { name, position }, &ExactTests)?;
    }
    Ok(stations.num_vertices())
}

/// Nothing where the position is too far off, or no station is open.
fn nearest_to(stations: &Stations, position: Point2<i64>) -> Option<&'static str> {
    if validate_vertex(&position).is_err() {
        return None;
    }
    match stations.nearest_neighbor(position, &ExactTests) {
        Some(nearest) => Some(nearest.data().name),
        None => None,
    }
}

fn send_crews(rt: &HostRuntime, stations: &Stations) -> anyhow::Result<()> {
    for (x, y) in FIRES {
        let crew = nearest_to(stations, Point2::new(x, y)).unwrap_or("nobody comes");
        println!(rt; "fire at {x} {y}: {crew}")?;
    }
    Ok(())
}

/// Closes the station in the vineyard.
fn close(
    rt: &HostRuntime,
    stations: &mut impl Triangulation<Vertex = Station>,
) -> anyhow::Result<()> {
    if let Some(closed) = stations.locate_and_remove(Point2::new(2600, 2200), &ExactTests)? {
        println!(rt; "{} closes", closed.name)?;
    }
    Ok(())
}

fn serve(rt: &HostRuntime, stations: &mut Stations) -> anyhow::Result<()> {
    let count = open_all(stations)?;
    println!(rt; "{count} stations")?;
    send_crews(rt, stations)?;
    close(rt, stations)?;
    send_crews(rt, stations)
}

pub fn run(rt: &HostRuntime) -> anyhow::Result<()> {
    serve(rt, &mut Stations::new(rt.alloc()))
}
