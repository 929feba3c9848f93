//! Tolls on roads: data that are written at an edge, at one of its directions and at a face are
//! read again there, and all others stay. The functions are proved once for both triangulations.

ghost use Rattle.std.specs.Prelude.{◌≡◌, ◌<◌, ◌≤◌, ◌∷◌, length, map, slice_set};

use exact_predicates::ExactTests;
use spade_delaunay::handles::{
    FixedDirectedEdgeHandle, FixedFaceHandle, FixedUndirectedEdgeHandle,
};
use spade_delaunay::{
    ConstrainedDelaunayTriangulation, DelaunayTriangulation, InsertionError, Point2, Triangulation,
};

/// The toll of a road, what each of its lanes takes, and the rent of a field.
type Roads = DelaunayTriangulation<Point2<i64>, i64, i64, i64>;

/// The same where some roads are walled.
type WalledRoads = ConstrainedDelaunayTriangulation<Point2<i64>, i64, i64, i64>;

/// Kilometres east and north of the market.
const TOWNS: [(i64, i64); 4] = [(0, 0), (9, 1), (8, 7), (1, 6)];

/// Writes the toll of a road. Those of the others stay.
fn set_toll<T: Triangulation<UndirectedUserData = i64>>(
    roads: &mut T,
    road: FixedUndirectedEdgeHandle,
    toll: i64,
)
    requires { road < length (T.state roads.old).undirected }
    ensures { map T.Constraints.user (T.state roads.new).undirected ≡
        slice_set (map T.Constraints.user (T.state roads.old).undirected) road toll }
{
    *roads.undirected_edge_data_mut(road) = toll;
}

/// Writes the toll of a road, and reads it.
fn read_toll<T: Triangulation<UndirectedUserData = i64>>(
    roads: &mut T,
    road: FixedUndirectedEdgeHandle,
    toll: i64,
) -> i64
    requires { road < length (T.state roads.old).undirected }
    ensures { result ≡ toll }
{
    *roads.undirected_edge_data_mut(road) = toll;
    *roads.undirected_edge_data_mut(road)
}

/// Writes what a lane takes. What the others take stays.
fn set_lane<T: Triangulation<DirectedEdge = i64>>(
    roads: &mut T,
    lane: FixedDirectedEdgeHandle,
    taken: i64,
)
    requires { lane < length (T.state roads.old).directed }
    ensures { (T.state roads.new).directed ≡ slice_set (T.state roads.old).directed lane taken }
{
    *roads.directed_edge_data_mut(lane) = taken;
}

/// Writes what a lane takes, and reads it.
fn read_lane<T: Triangulation<DirectedEdge = i64>>(
    roads: &mut T,
    lane: FixedDirectedEdgeHandle,
    taken: i64,
) -> i64
    requires { lane < length (T.state roads.old).directed }
    ensures { result ≡ taken }
{
    *roads.directed_edge_data_mut(lane) = taken;
    *roads.directed_edge_data_mut(lane)
}

/// Writes the rent of a field. Those of the others stay. The land around is a field, too.
fn set_rent<T: Triangulation<Face = i64>>(roads: &mut T, field: FixedFaceHandle, rent: i64)
    requires { field ≤ length (T.state roads.old).faces }
    ensures { (T.state roads.new).outer ∷ (T.state roads.new).faces ≡
        slice_set ((T.state roads.old).outer ∷ (T.state roads.old).faces) field rent }
{
    *roads.face_data_mut(field) = rent;
}

/// Writes the rent of a field, and reads it.
fn read_rent<T: Triangulation<Face = i64>>(roads: &mut T, field: FixedFaceHandle, rent: i64) -> i64
    requires { field ≤ length (T.state roads.old).faces }
    ensures { result ≡ rent }
{
    *roads.face_data_mut(field) = rent;
    *roads.face_data_mut(field)
}

fn lay_out(roads: &mut impl Triangulation<Vertex = Point2<i64>>) -> Result<(), InsertionError> {
    for (x, y) in TOWNS {
        roads.insert(Point2::new(x, y), &ExactTests)?;
    }
    Ok(())
}

fn collect(
    rt: &HostRuntime,
    roads: &mut impl Triangulation<
        Vertex = Point2<i64>,
        DirectedEdge = i64,
        UndirectedUserData = i64,
        Face = i64,
    >,
) -> anyhow::Result<()> {
    lay_out(roads)?;
    let road = FixedUndirectedEdgeHandle::from_index(3);
    if roads.num_undirected_edges() > 3 {
        set_toll(roads, road, 6);
    }
    if roads.num_undirected_edges() > 3 {
        println!(rt; "the toll is {}", read_toll(roads, road, 7))?;
    }
    let lane = FixedDirectedEdgeHandle::from_index(6);
    if roads.num_directed_edges() > 6 {
        set_lane(roads, lane, 4);
    }
    if roads.num_directed_edges() > 6 {
        println!(rt; "a lane takes {}", read_lane(roads, lane, 5))?;
    }
    let field = FixedFaceHandle::from_index(1);
    if roads.num_inner_faces() > 0 {
        set_rent(roads, field, 30);
    }
    if roads.num_inner_faces() > 0 {
        println!(rt; "the rent is {}", read_rent(roads, field, 40))?;
    }
    Ok(())
}

pub fn run(rt: &HostRuntime) -> anyhow::Result<()> {
    collect(rt, &mut Roads::new(rt.alloc()))?;
    collect(rt, &mut WalledRoads::new(rt.alloc()))
}
