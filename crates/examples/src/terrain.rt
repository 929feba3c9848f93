//! A terrain: heights on a grid of posts, with a hole where a cloud hid the ground, which a second
//! survey fills.

ghost use Rattle.std.specs.Prelude.{◌<◌};

use exact_predicates::ExactTests;
use spade_delaunay::{
    DelaunayTriangulation, HasPosition, InsertionError, Point2, PositionInTriangulation,
    Triangulation, validate_vertex,
};

/// A post of the survey.
#[derive(Drop)]
struct Post {
    position: Point2<i64>,
    metres: i32,
}

impl HasPosition for Post {
    type Scalar = i64;

    ghost place = { λ p. ⟦<Point2<i64> as HasPosition>⟧.place p.position };

    fn position(&self) -> Point2<i64> {
        self.position
    }
}

type Terrain = DelaunayTriangulation<Post>;

/// Posts a row, and rows.
const SIDE: u8 = 7;

/// Metres above the sea, row by row from the south.
const HEIGHTS: [[i32; 7]; 7] = [
    [210, 214, 220, 231, 229, 221, 215],
    [212, 219, 233, 247, 242, 230, 222],
    [218, 231, 252, 268, 259, 241, 228],
    [223, 240, 266, 291, 275, 250, 233],
    [220, 236, 258, 274, 263, 244, 230],
    [214, 226, 241, 252, 246, 233, 224],
    [208, 216, 225, 234, 230, 222, 217],
];

/// Where walkers stand, in metres east and north of the first post.
const WALKERS: [(i64, i64); 5] = [(60, 30), (310, 290), (300, 300), (480, 120), (900, 100)];

/// Whether the cloud hid a post.
fn is_hidden(column: u8, row: u8) -> bool {
    2 <= column && column <= 4 && 2 <= row && row <= 4
}

/// Posts are a hundred metres apart. Those of each second row are moved by fifty metres to the
/// east, so that no four neighbours lie on a circle.
fn post_at(column: u8, row: u8) -> Post
    requires column { column < SIDE }
    requires row { row < SIDE }
{
    let x = 100 * i64::from(column) + 50 * i64::from(row % 2);
    Post {
        position: Point2::new(x, 100 * i64::from(row)),
        metres: HEIGHTS[usize::from(row)][usize::from(column)],
    }
}

/// Adds the posts that the cloud hid, or all others.
fn survey(
    terrain: &mut impl Triangulation<Vertex = Post>,
    hidden: bool,
) -> Result<(), InsertionError> {
    for row in 0..SIDE {
        for column in 0..SIDE {
            if is_hidden(column, row) == hidden {
                terrain.insert(post_at(column, row), &ExactTests)?;
            }
        }
    }
    Ok(())
}

/// The lowest and the highest corner of the face at a position; that of a post is its own.
fn heights_at(
    terrain: &impl Triangulation<Vertex = Post>,
    position: Point2<i64>,
) -> Option<(i32, i32)> {
    if validate_vertex(&position).is_err() {
        return None;
    }
    match terrain.locate(position, &ExactTests) {
        PositionInTriangulation::OnVertex(vertex) => {
            let metres = terrain.vertex(vertex).data().metres;
            Some((metres, metres))
        }
        PositionInTriangulation::OnEdge(edge) => {
            let [a, b] = terrain.directed_edge(edge).vertices();
            let (a, b) = (a.data().metres, b.data().metres);
            Some((a.min(b), a.max(b)))
        }
        PositionInTriangulation::OnFace(face) => {
            let [a, b, c] = terrain.face(face).vertices();
            let (a, b, c) = (a.data().metres, b.data().metres, c.data().metres);
            Some((a.min(b).min(c), a.max(b).max(c)))
        }
        _ => None,
    }
}

fn report(rt: &HostRuntime, terrain: &impl Triangulation<Vertex = Post>) -> anyhow::Result<()> {
    println!(rt;
        "{} posts, {} edges, {} faces, {} edges round them",
        terrain.num_vertices(),
        terrain.num_undirected_edges(),
        terrain.num_inner_faces(),
        terrain.convex_hull_size()
    )?;
    for (x, y) in WALKERS {
        match heights_at(terrain, Point2::new(x, y)) {
            Some((low, high)) => println!(rt; "walker at {x} {y}: {low} to {high} m")?,
            None => println!(rt; "walker at {x} {y}: outside")?,
        }
    }
    Ok(())
}

/// Surveys twice, and reports after each survey.
fn survey_twice(
    rt: &HostRuntime,
    terrain: &mut impl Triangulation<Vertex = Post>,
) -> anyhow::Result<()> {
    survey(terrain, false)?;
    report(rt, terrain)?;
    survey(terrain, true)?;
    report(rt, terrain)
}

pub fn run(rt: &HostRuntime) -> anyhow::Result<()> {
    survey_twice(rt, &mut Terrain::new(rt.alloc()))
}
