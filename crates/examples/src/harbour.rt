//! A harbour's chart, with a lighthouse as a shape of a user's own. The contracts say in the
//! library's words how far a ship is past the light and past the basin, which fairways are lit, and
//! where a ship is.

ghost use Rattle.std.specs.Prelude.{◌≡◌, ◌∷◌, ◌↔◌, ◌*◌, ◌<◌, ◌≤ℤ◌, [], pos, map};
ghost use Rattle.std.specs.Prelude.{All, IfSome, IsTrue};
ghost use Rattle.spade_delaunay.specs.Distances.{IsEdgeInShape, circle_distance};
ghost use Rattle.spade_delaunay.specs.Distances.{meets_circle};
ghost use Rattle.spade_delaunay.specs.Distances.{rectangle_distance};
ghost use Rattle.spade_delaunay.specs.EdgeTests.{HasPointIn};
ghost use Rattle.spade_delaunay.specs.Fraction.{whole as fraction};
ghost use Rattle.spade_delaunay.specs.Known.{point_at};
ghost use Rattle.spade_delaunay.specs.Location.{IsLocation, on_vertex};
ghost use Rattle.spade_delaunay.specs.Mesh.{face_edge, origin, rev};
ghost use Rattle.spade_delaunay.specs.Place.{place_of};
ghost use Rattle.spade_delaunay.specs.Shape.{InClosedCircle};
ghost use Rattle.spade_delaunay.specs.State.{triangulation_of};
ghost use Rattle.spade_delaunay.specs.Tests.{InRange};
ghost use Rattle.spade_delaunay.specs.Triangles.{triangle_at};
ghost use Rattle.spade_delaunay.specs.Voronoi.{IsVoronoiStart};

use exact_predicates::ExactTests;
use spade_delaunay::handles::{
    DirectedVoronoiEdge, FaceHandle, FixedVertexHandle, UndirectedEdgeHandle, VoronoiVertex,
};
use spade_delaunay::{
    CircleMetric, DelaunayTriangulation, DistanceMetric, InsertionError, PlaneTests, Point2,
    PositionInTriangulation, RectangleMetric, Triangulation, validate_vertex,
};

type Chart = DelaunayTriangulation<Point2<i64>>;

/// Metres east and north of the pier.
const BUOYS: [(i64, i64); 5] = [(0, 0), (50, -5), (60, 40), (10, 45), (30, 20)];

/// Where the lighthouse is, and the square of how far its light reaches.
const LIGHTHOUSE: (i64, i64) = (0, 60);

const REACH_2: i64 = 900;

/// Two corners of the basin.
const BASIN: (i64, i64, i64, i64) = (20, -40, 40, -10);

/// Where ships are.
const SHIPS: [(i64, i64); 4] = [(10, 45), (30, -20), (70, 70), (25, 25)];

/// Between which buoys fairways are looked for.
const FAIRWAYS: [(u32, u32); 4] = [(0, 3), (3, 4), (4, 1), (0, 2)];

/// A lighthouse, and where its light reaches.
#[derive(Drop)]
struct Lighthouse {
    light: CircleMetric<i64>,
}

impl DistanceMetric<i64> for Lighthouse {
    ghost shape = { λ l. InClosedCircle (place_of (λ z. z) l.light.center) l.light.radius_2 };

    ghost own_points = { λ _. [] };

    ghost meets = { λ l. meets_circle (place_of (λ z. z) l.light.center) l.light.radius_2 };

    ghost distance = { λ l. circle_distance (place_of (λ z. z) l.light.center) l.light.radius_2 };

    fn is_edge_inside<P: PlaneTests<i64>>(
        &self,
        points: (Point2<i64>, Point2<i64>),
        tests: &P,
    ) -> bool
        requires own_covered { All (P.covered tests.now) [] }
        requires start_covered { P.covered tests.now (place_of (λ z. z) points.0) }
        requires end_covered { P.covered tests.now (place_of (λ z. z) points.1) }
        ensures answer { result ≡ meets_circle (place_of (λ z. z) self.now.light.center)
            self.now.light.radius_2 (place_of (λ z. z) points.0) (place_of (λ z. z) points.1) }
        ensures inside { IsTrue result ↔
            HasPointIn (InClosedCircle (place_of (λ z. z) self.now.light.center)
            self.now.light.radius_2) (place_of (λ z. z) points.0) (place_of (λ z. z) points.1) }
    {
        self.light.is_edge_inside(points, tests)
    }

    fn distance_to_point(&self, point: Point2<i64>) -> i64
        requires { InRange (place_of (λ z. z) point) }
        ensures value { result ≡ circle_distance (place_of (λ z. z) self.now.light.center)
            self.now.light.radius_2 (place_of (λ z. z) point) }
        ensures inside { (result ≤ℤ pos 0) ↔
            InClosedCircle (place_of (λ z. z) self.now.light.center) self.now.light.radius_2
            (fraction (place_of (λ z. z) point)) }
    {
        self.light.distance_to_point(point)
    }
}

/// By how much the squared distance from the lighthouse is past that of its light's reach.
fn past_light(lighthouse: &Lighthouse, ship: Point2<i64>) -> i64
    requires { InRange (place_of (λ z. z) ship) }
    ensures { result ≡ circle_distance (place_of (λ z. z) lighthouse.now.light.center)
        lighthouse.now.light.radius_2 (place_of (λ z. z) ship) }
{
    lighthouse.distance_to_point(ship)
}

/// The squared distance from the basin.
fn past_basin(basin: &RectangleMetric<i64>, ship: Point2<i64>) -> i64
    requires { InRange (place_of (λ z. z) ship) }
    ensures { result ≡ rectangle_distance (place_of (λ z. z) basin.now.lower)
        (place_of (λ z. z) basin.now.upper) (place_of (λ z. z) ship) }
{
    basin.distance_to_point(ship)
}

/// Whether some of the way between two places is lit.
fn is_way_lit(lighthouse: &Lighthouse, from: Point2<i64>, to: Point2<i64>) -> bool
    requires from { InRange (place_of (λ z. z) from) }
    requires to { InRange (place_of (λ z. z) to) }
    ensures { IsTrue result ↔
        HasPointIn (InClosedCircle (place_of (λ z. z) lighthouse.now.light.center)
        lighthouse.now.light.radius_2) (place_of (λ z. z) from) (place_of (λ z. z) to) }
{
    lighthouse.is_edge_inside((from, to), &ExactTests)
}

/// Whether some of a fairway is lit, whose ends are in range.
fn is_fairway_lit(
    lighthouse: &Lighthouse,
    fairway: UndirectedEdgeHandle<'_, Point2<i64>, (), (), ()>,
) -> bool
    requires from { InRange (point_at (map (place_of (λ z. z)) fairway.dcel.now.vertices)
        (origin fairway.dcel.now.mesh (2 * fairway.index))) }
    requires to { InRange (point_at (map (place_of (λ z. z)) fairway.dcel.now.vertices)
        (origin fairway.dcel.now.mesh (rev (2 * fairway.index)))) }
    ensures { IsTrue result ↔
        IsEdgeInShape (InClosedCircle (place_of (λ z. z) lighthouse.now.light.center)
        lighthouse.now.light.radius_2) (map (place_of (λ z. z)) fairway.entry.dcel.now.vertices)
        fairway.entry.dcel.now.mesh fairway.entry.index }
{
    lighthouse.is_handle_inside(fairway, &ExactTests)
}

/// The numbers of the buoys at the corners of an area, counterclockwise.
fn corners(area: FaceHandle<'_, Point2<i64>, (), (), ()>) -> [u32; 3]
    requires { 0 < area.index }
    ensures { let m = area.entry.dcel.now.mesh in
        let t = triangle_at m (face_edge m area.entry.index) in
        result ≡ t.first ∷ t.second ∷ t.third ∷ [] }
{
    let [first, second, third] = area.vertices();
    [
        first.fix().index(),
        second.fix().index(),
        third.fix().index(),
    ]
}

/// Where a side of the waters that are nearest to a buoy begins.
fn start_of<'a>(
    side: DirectedVoronoiEdge<'a, Point2<i64>, (), (), ()>,
) -> VoronoiVertex<'a, Point2<i64>, (), (), ()>
    ensures { IsVoronoiStart side.entry.edge.dcel side.entry.edge.index result }
{
    side.from()
}

/// The number of the buoy where a ship is, if it is at one.
fn buoy_at(chart: &Chart, ship: Point2<i64>) -> Option<u32>
    requires { InRange (place_of (λ z. z) ship) }
    ensures { IfSome result (λ b. IsLocation (triangulation_of (place_of (λ z. z)) chart.now)
        (fraction (place_of (λ z. z) ship)) (on_vertex b)) }
{
    match chart.locate(ship, &ExactTests) {
        PositionInTriangulation::OnVertex(buoy) => Some(buoy.index()),
        _ => None,
    }
}

/// Whether the side of the chart that a ship is past has nothing on its left, if it is past one:
/// it always has.
fn is_past_side(chart: &Chart, ship: Point2<i64>) -> Option<bool>
    requires { InRange (place_of (λ z. z) ship) }
    ensures { IfSome result IsTrue }
{
    match chart.locate(ship, &ExactTests) {
        PositionInTriangulation::OutsideOfConvexHull(side) => {
            Some(chart.directed_edge(side).is_outer_edge())
        }
        _ => None,
    }
}

/// Whether some of the fairway between two buoys is lit, if there is one.
fn is_lit_between(chart: &Chart, lighthouse: &Lighthouse, from: u32, to: u32) -> Option<bool> {
    if from as usize >= chart.num_vertices() {
        return None;
    }
    let (from, to) = (
        FixedVertexHandle::from_index(from),
        FixedVertexHandle::from_index(to),
    );
    let fairway = chart.get_edge_from_neighbors(from, to)?.as_undirected();
    let [start, end] = chart.edge_positions(fairway.as_directed());
    if validate_vertex(&start).is_err() || validate_vertex(&end).is_err() {
        return None;
    }
    Some(is_fairway_lit(lighthouse, fairway))
}

fn tell_fairways(rt: &HostRuntime, chart: &Chart, lighthouse: &Lighthouse) -> anyhow::Result<()> {
    for (from, to) in FAIRWAYS {
        match is_lit_between(chart, lighthouse, from, to) {
            Some(lit) => println!(rt; "fairway from {from} to {to}, lit: {lit}")?,
            None => println!(rt; "no fairway from {from} to {to}")?,
        }
    }
    Ok(())
}

fn tell_ship(
    rt: &HostRuntime,
    chart: &Chart,
    lighthouse: &Lighthouse,
    ship: Point2<i64>,
) -> anyhow::Result<()> {
    if validate_vertex(&ship).is_err() {
        return Ok(());
    }
    let (lower_x, lower_y, upper_x, upper_y) = BASIN;
    let basin = RectangleMetric::new(Point2::new(lower_x, lower_y), Point2::new(upper_x, upper_y));
    println!(rt;
        "ship at {} {}: {} past the light, {} past the basin",
        ship.x,
        ship.y,
        past_light(lighthouse, ship),
        past_basin(&basin, ship)
    )?;
    if is_way_lit(lighthouse, ship, Point2::new(0, 0)) {
        println!(rt; "its way to the pier is lit")?;
    }
    if let Some(buoy) = buoy_at(chart, ship) {
        println!(rt; "it is at buoy {buoy}")?;
    }
    if let Some(past) = is_past_side(chart, ship) {
        println!(rt; "it is off the chart: {past}")?;
    }
    Ok(())
}

/// How many areas there are, and the sum of the numbers at their corners.
fn tell_areas(rt: &HostRuntime, chart: &Chart) -> anyhow::Result<()> {
    let mut sum = 0u32;
    for area in chart.inner_faces() {
        let [first, second, third] = corners(area);
        sum = sum
            .wrapping_add(first)
            .wrapping_add(second)
            .wrapping_add(third);
    }
    println!(rt; "{} areas, corners sum to {sum}", chart.num_inner_faces())?;
    let mut open = 0u32;
    for side in chart.directed_voronoi_edges() {
        if let VoronoiVertex::Outer(_) = start_of(side) {
            open = open.wrapping_add(1);
        }
    }
    println!(rt; "{open} sides come from far away")?;
    Ok(())
}

fn lay_buoys(chart: &mut impl Triangulation<Vertex = Point2<i64>>) -> Result<(), InsertionError> {
    for (x, y) in BUOYS {
        chart.insert(Point2::new(x, y), &ExactTests)?;
    }
    Ok(())
}

fn tell_all(rt: &HostRuntime, chart: &mut Chart) -> anyhow::Result<()> {
    lay_buoys(chart)?;
    let (x, y) = LIGHTHOUSE;
    let lighthouse = Lighthouse {
        light: CircleMetric::new(Point2::new(x, y), REACH_2),
    };
    tell_areas(rt, chart)?;
    tell_fairways(rt, chart, &lighthouse)?;
    for (x, y) in SHIPS {
        tell_ship(rt, chart, &lighthouse, Point2::new(x, y))?;
    }
    Ok(())
}

pub fn run(rt: &HostRuntime) -> anyhow::Result<()> {
    tell_all(rt, &mut Chart::new(rt.alloc()))
}
