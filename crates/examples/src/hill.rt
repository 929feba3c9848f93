//! Triangulates the survey points of a hill, and tells what is nearest to a camp and which edges a
//! path to it crosses, past a fence.

use exact_predicates::ExactTests;
use spade_delaunay::{
    ConstrainedDelaunayTriangulation, DelaunayTriangulation, InsertionError,
    LineIntersectionIterator, Point2, Triangulation,
};

type PlainHill = DelaunayTriangulation<Point2<i64>>;

type FencedHill = ConstrainedDelaunayTriangulation<Point2<i64>>;

fn survey(hill: &mut impl Triangulation<Vertex = Point2<i64>>) -> Result<(), InsertionError> {
    for (x, y) in [(0, 0), (120, 35), (-80, 140), (-150, -60)] {
        hill.insert(Point2::new(x, y), &ExactTests)?;
    }
    Ok(())
}

fn tell_nearest(rt: &HostRuntime, hill: &PlainHill) -> anyhow::Result<()> {
    println!(rt; "{} edges", hill.num_undirected_edges())?;
    if let Some(nearest) = hill.nearest_neighbor(Point2::new(70, 110), &ExactTests) {
        println!(rt; "nearest to the camp: vertex {}", nearest.fix().index())?;
    }
    Ok(())
}

fn tell_path(rt: &HostRuntime, hill: &FencedHill) -> anyhow::Result<()> {
    let (from, to) = (Point2::new(-100, 20), Point2::new(70, 110));
    for met in LineIntersectionIterator::new(hill, from, to, &ExactTests) {
        if let Some(edge) = met.as_edge_intersection() {
            let fence = edge.as_undirected().data().is_constraint_edge();
            println!(rt; "the path crosses an edge, fence: {fence}")?;
        }
    }
    Ok(())
}

fn visit_camp(rt: &HostRuntime, hill: &mut PlainHill) -> anyhow::Result<()> {
    survey(hill)?;
    tell_nearest(rt, hill)
}

fn pass_fence(rt: &HostRuntime, hill: &mut FencedHill) -> anyhow::Result<()> {
    survey(hill)?;
    hill.add_constraint_edge(Point2::new(0, 0), Point2::new(-80, 140), &ExactTests)?;
    tell_path(rt, hill)
}

pub fn run(rt: &HostRuntime) -> anyhow::Result<()> {
    visit_camp(rt, &mut PlainHill::new(rt.alloc()))?;
    pass_fence(rt, &mut FencedHill::new(rt.alloc()))
}
