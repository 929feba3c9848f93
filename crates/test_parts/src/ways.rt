//! A way from one position of a line to another, and which faces ways join. The other numbers of
//! the line are segments, four numbers each: their ends become vertices, and each segment a
//! constraint unless one crosses it. The inner faces whose index is no multiple of 3 are free.

ghost use Rattle.std.specs.Prelude.{◌%◌, ◌==◌, not};

use delaunay_core::math::validate_vertex;
use delaunay_core::point::Point2;
use delaunay_interface::{ConstrainedDelaunayTriangulation, Triangulation};
use delaunay_journal::{PairEdit, Replayable};
use delaunay_shapes::FreeFaces;
use delaunay_ways::{WideFaces, find_way, reachable};
use exact_predicates::ExactTests;
use half_edge_links::FixedFaceHandle;
use std::alloc::{AllocError, Global};
use test_reader::Call;

// The faces whose index is no multiple of 3.
struct TwoOfThree;

impl FreeFaces for TwoOfThree {
    ghost free = { λ _ face. not (face % 3 == 0) };

    fn is_free(&self, face: FixedFaceHandle) -> bool {
        face.index() % 3 != 0
    }
}

// Inserts the ends of segments, and joins them where no constraint crosses.
fn build<T: Replayable<Vertex = Point2<i64>>>(
    triangulation: &mut T,
    ends: &[Point2<i64>],
) -> anyhow::Result<()> {
    let mut start = None;
    for end in ends {
        let end = triangulation.insert(*end, &ExactTests)?;
        match start.take() {
            Some(start) => {
                triangulation.change_pair(PairEdit::Join(start, end), &ExactTests);
            }
            None => start = Some(end),
        }
    }
    Ok(())
}

fn pair(position: &Point2<i64>) -> (i64, i64) {
    (position.x, position.y)
}

// The corners of each inner face, in order.
fn faces_of<T: Triangulation<Vertex = Point2<i64>>>(
    triangulation: &T,
    alloc: Global,
) -> Result<Vec<[(i64, i64); 3]>, AllocError> {
    let mut faces = Vec::new(alloc);
    for face in triangulation.inner_faces() {
        let [a, b, c] = face.vertices();
        faces.push([pair(a.data()), pair(b.data()), pair(c.data())])?;
    }
    Ok(faces)
}

// A way by the coordinates of its positions.
fn way_between<T: Triangulation<Vertex = Point2<i64>>>(
    triangulation: &T,
    from: Point2<i64>,
    to: Point2<i64>,
    alloc: Global,
) -> anyhow::Result<Option<Vec<(i64, i64)>>> {
    validate_vertex(&from)?;
    validate_vertex(&to)?;
    triangulation.recall_invariant();
    let Some(way) = find_way(triangulation, from, to, &TwoOfThree, &ExactTests, alloc)? else {
        return Ok(None);
    };
    let mut pairs = Vec::new(alloc);
    for position in way.iter() {
        pairs.push(pair(position))?;
    }
    Ok(Some(pairs))
}

fn answer<T: Replayable<Vertex = Point2<i64>>>(
    rt: &(impl Print + AllocGlobal),
    triangulation: &mut T,
    call: &Call<'_>,
) -> anyhow::Result<()> {
    let positions = call.positions(rt.alloc())?;
    let (from, to) = call.ends();
    build(triangulation, positions.get(2..).unwrap_or(&[]))?;
    let faces = faces_of(triangulation, rt.alloc())?;
    println!(rt; "{faces:?}")?;
    match way_between(triangulation, from, to, rt.alloc())? {
        Some(way) => println!(rt; "{way:?}")?,
        None => println!(rt; "none")?,
    }
    Ok(())
}

/// Prints the corners of the inner faces, and the way, or `none`.
pub fn tell_way(rt: &(impl Print + AllocGlobal), call: &Call<'_>) -> anyhow::Result<()> {
    let mut triangulation = ConstrainedDelaunayTriangulation::<Point2<i64>>::new(rt.alloc());
    answer(rt, &mut triangulation, call)
}

// The label of each inner face, or -1 where it is not free.
fn labels_of<T: Triangulation<Vertex = Point2<i64>>, G: FreeFaces>(
    triangulation: &T,
    free: &G,
    alloc: Global,
) -> Result<Vec<i64>, AllocError> {
    let mut labels = Vec::new(alloc);
    for label in reachable(triangulation, free, alloc)?.iter().skip(1) {
        labels.push(label.map_or(-1, i64::from))?;
    }
    Ok(labels)
}

fn answer_parts<T: Replayable<Vertex = Point2<i64>>>(
    rt: &(impl Print + AllocGlobal),
    triangulation: &mut T,
    call: &Call<'_>,
) -> anyhow::Result<()> {
    let positions = call.positions(rt.alloc())?;
    build(triangulation, positions.get(1..).unwrap_or(&[]))?;
    let faces = faces_of(triangulation, rt.alloc())?;
    println!(rt; "{faces:?}")?;
    let labels = labels_of(triangulation, &TwoOfThree, rt.alloc())?;
    println!(rt; "{labels:?}")?;
    let width_2 = call.numbers[0];
    let wide = WideFaces::new(triangulation, &TwoOfThree, width_2, rt.alloc())?;
    let labels = labels_of(triangulation, &wide, rt.alloc())?;
    println!(rt; "{labels:?}")?;
    Ok(())
}

/// Prints the corners of the inner faces, and their labels. The first number of the line is a
/// squared diameter, and the second one 0: then it prints the labels where only faces are free that
/// are so wide.
pub fn tell_parts(rt: &(impl Print + AllocGlobal), call: &Call<'_>) -> anyhow::Result<()> {
    let mut triangulation = ConstrainedDelaunayTriangulation::<Point2<i64>>::new(rt.alloc());
    answer_parts(rt, &mut triangulation, call)
}
