//! Ways through the faces that are kept.
use crate::building::{DrawnLists, point_index};
use anyhow::{Context, bail};
use delaunay_core::math::validate_vertex;
use delaunay_core::point::Point2;
use delaunay_interface::Triangulation;
use delaunay_location::PositionInTriangulation;
use delaunay_shapes::FreeFaces;
use delaunay_ways::find_way;
use exact_predicates::ExactTests;
use half_edge_dcel::FaceHandle;
use half_edge_links::FixedFaceHandle;
use mesh_files::{Asked, Form};
use mesh_io::{Scene, Task};
use std::alloc::{AllocError, Global};
use std::io;
use std::io::{BufWriter, Write};

/// Which faces are kept, by index.
#[derive(Drop)]
struct KeptFlags {
    flags: Vec<bool>,
}

impl FreeFaces for KeptFlags {
    ghost use Rattle.std.specs.Prelude.{slice_index_or, false};

    ghost free = { λ kept face. slice_index_or kept.flags.items face false };

    fn is_free(&self, face: FixedFaceHandle) -> bool {
        self.flags
            .get(face.index() as usize)
            .copied()
            .unwrap_or(false)
    }
}

/// The indexes of the points at the corners of a face, of an inner one.
pub fn corner_indexes<V, DE, UE, F>(
    face: FaceHandle<'_, V, DE, UE, F>,
    indexes: &[u32],
) -> Option<[u32; 3]> {
    if face.is_outer() {
        return None;
    }
    let [first, second, third] = face.vertices();
    Some([
        point_index(indexes, first.fix().index()),
        point_index(indexes, second.fix().index()),
        point_index(indexes, third.fix().index()),
    ])
}

/// Which faces are kept. Those are listed as the faces of the triangulation are.
fn kept_faces<T: Triangulation<Vertex = Point2<i32>>>(
    triangulation: &T,
    drawn: &DrawnLists<'_>,
    alloc: Global,
) -> Result<KeptFlags, AllocError> {
    let mut flags = Vec::with_capacity(alloc, triangulation.num_all_faces())?;
    flags.push(false)?;
    let mut next = 0usize;
    for face in triangulation.inner_faces() {
        let is_kept = match (corner_indexes(face, drawn.indexes), drawn.faces.get(next)) {
            (Some(corners), Some(kept)) => *kept == corners,
            _ => false,
        };
        next = next.saturating_add(usize::from(is_kept));
        flags.push(is_kept)?;
    }
    Ok(KeptFlags { flags })
}

/// Puts a point of a way behind a line: its numbers, and which point of the input it is, from 1.
fn push_point<T: Triangulation<Vertex = Point2<i32>>>(
    line: &mut String,
    scene: &Scene,
    triangulation: &T,
    indexes: &[u32],
    point: Point2<i32>,
) -> Result<(), AllocError> {
    let [x, y] = scene.scaled.numbers_at(point);
    write!(line, "{x},{y},")?;
    if validate_vertex(&point).is_ok()
        && let PositionInTriangulation::OnVertex(vertex) = triangulation.locate(
            point,
            &ExactTests,
        )
    {
        let number = u64::from(point_index(indexes, vertex.index())).saturating_add(1);
        write!(line, "{number}")?;
    }
    line.push('\n')
}

/// Writes a way as a table: no rows where there is none.
fn write_table<W: Write, T: Triangulation<Vertex = Point2<i32>>>(
    writer: &mut W,
    scene: &Scene,
    triangulation: &T,
    indexes: &[u32],
    way: &[Point2<i32>],
    alloc: Global,
) -> io::Result<()> {
    writer.write_all(b"x,y,point\n")?;
    let mut line = String::new(alloc);
    for point in way {
        line.clear();
        push_point(&mut line, scene, triangulation, indexes, *point)?;
        writer.write_all(line.as_bytes())?;
    }
    writer.flush()
}

/// Writes a way as a line of GeoJSON: a feature without a geometry where there is none.
fn write_line<W: Write>(
    writer: &mut W,
    scene: &Scene,
    way: &[Point2<i32>],
    alloc: Global,
) -> io::Result<()> {
    let mut line = String::new(alloc);
    line.push_str("{\"type\":\"Feature\",\"properties\":{},\"geometry\":")?;
    let mut before = "{\"type\":\"LineString\",\"coordinates\":[";
    for point in way {
        let [x, y] = scene.scaled.numbers_at(*point);
        write!(line, "{before}[{x},{y}]")?;
        before = ",";
    }
    line.push_str(if way.is_empty() { "null}\n" } else { "]}}\n" })?;
    writer.write_all(line.as_bytes())?;
    writer.flush()
}

/// The points of a way through the faces that are kept, or none.
fn way_between<T: Triangulation<Vertex = Point2<i32>>>(
    triangulation: &T,
    drawn: &DrawnLists<'_>,
    from: Point2<i32>,
    to: Point2<i32>,
    alloc: Global,
) -> Result<Vec<Point2<i32>>, AllocError> {
    let kept = kept_faces(triangulation, drawn, alloc)?;
    triangulation.recall_invariant();
    if validate_vertex(&from).is_err() || validate_vertex(&to).is_err() {
        return Ok(Vec::new(alloc));
    }
    match find_way(triangulation, from, to, &kept, &ExactTests, alloc)? {
        Some(way) => Ok(way),
        None => Ok(Vec::new(alloc)),
    }
}

/// Tells a way between the two points that are asked about.
pub fn tell_way_between<T: Triangulation<Vertex = Point2<i32>>>(
    rt: &HostRuntime,
    task: &Task<'_>,
    scene: &Scene,
    triangulation: &T,
    drawn: &DrawnLists<'_>,
) -> anyhow::Result<()> {
    let alloc = rt.alloc();
    let [Asked::Near(from), Asked::Near(to)] = scene.asked_points.as_slice() else {
        bail!("--way: an end is more than 2^29 units from the middle of the input: move it nearer");
    };
    let way = way_between(triangulation, drawn, *from, *to, alloc)?;
    if way.is_empty() && !task.is_quiet {
        let _ = eprintln!(rt; "mesh: there is no way from the one point to the other");
    }
    let mut writer = BufWriter::new(alloc, io::writer(rt))?;
    let told = if task.form == Some(Form::GeoJson) && task.output.is_none() {
        write_line(&mut writer, scene, way.as_slice(), alloc)
    } else {
        write_table(
            &mut writer,
            scene,
            triangulation,
            drawn.indexes,
            way.as_slice(),
            alloc,
        )
    };
    told.context("standard output")
}
