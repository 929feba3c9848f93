//! Segments of a drawing that cross, and are split where they do.
use crate::areas::scalar_product;
use crate::building::{drawing_fault, drawn_sides, kept_part, point_index};
use crate::heights::{Weighed, height_at, height_of};
use crate::paths::{Turn, path_between, thousandths_from, turns_of};
use anyhow::anyhow;
use decimal_numbers::Decimal;
use delaunay_core::math::validate_vertex;
use delaunay_core::point::Point2;
use delaunay_interface::Triangulation;
use delaunay_journal::Replayable;
use drawing_faces::{DrawnSegment, Lead, SegmentError, VertexPair, named_faces, split_segments};
use exact_predicates::ExactTests;
use half_edge_links::FixedVertexHandle;
use mesh_files::{Drawing, FileLine};
use mesh_io::{Scene, Task, input_name};
use std::alloc::{AllocError, Global};

/// What became of a triangulation whose segments cross.
#[derive(Drop)]
pub struct SplitMesh {
    /// How many times two were split.
    pub count: usize,
    /// How far a path of constraints is from its segment at most, in thousandths of a unit, rounded
    /// up.
    thousandths: u64,
    /// By which vertices segments go since then.
    pub turns: Vec<Turn>,
    /// The faces that are kept, by the indexes of their corners.
    pub faces: Vec<[u32; 3]>,
}

impl SplitMesh {
    /// How far a path is from its segment at most, in units of so many digits behind the point.
    pub fn largest(&self, digits: u32) -> Decimal {
        let largest = Decimal {
            negative: false,
            magnitude: self.thousandths,
            digits: digits.saturating_add(3),
        };
        largest.shortened()
    }
}

/// Of each point the vertex of which it is the first point.
fn first_vertices(names: &[u32], points: usize, alloc: Global) -> Result<Vec<u32>, AllocError> {
    let mut vertices = Vec::from_elem(alloc, u32::MAX, points)?;
    for (vertex, index) in names.iter().enumerate() {
        if let Some(entry) = vertices.get_mut(*index as usize) {
            *entry = u32::try_from(vertex).unwrap_or(u32::MAX);
        }
    }
    Ok(vertices)
}

/// The vertex at the position of a point.
fn vertex_there<T: Triangulation<Vertex = Point2<i32>>>(
    triangulation: &T,
    point: Point2<i32>,
) -> Option<u32> {
    triangulation.recall_invariant();
    if validate_vertex(&point).is_err() {
        return None;
    }
    Some(
        triangulation
            .locate_vertex(point, &ExactTests)?
            .fix()
            .index(),
    )
}

/// Of each point its vertex.
pub fn point_vertices<T: Triangulation<Vertex = Point2<i32>>>(
    triangulation: &T,
    names: &[u32],
    points: &[Point2<i32>],
    alloc: Global,
) -> Result<Vec<u32>, AllocError> {
    let mut vertices = first_vertices(names, points.len(), alloc)?;
    if names.len() == points.len() {
        return Ok(vertices);
    }
    for (vertex, point) in vertices.iter_mut().zip(points) {
        if *vertex == u32::MAX {
            *vertex = vertex_there(triangulation, *point).unwrap_or(u32::MAX);
        }
    }
    Ok(vertices)
}

/// The vertices at the ends of a segment between points.
fn segment_vertices(vertices: &[u32], from: u32, to: u32) -> [u32; 2] {
    [point_index(vertices, from), point_index(vertices, to)]
}

/// The segments that are still to be added, the first of them last.
fn left_segments(
    drawing: &Drawing,
    added: &[bool],
    vertices: &[u32],
    alloc: Global,
) -> Result<Vec<VertexPair>, AllocError> {
    let mut left = Vec::new(alloc);
    for (segment, is_added) in drawing.segments.iter().zip(added).rev() {
        if !*is_added {
            let [from, to] = segment_vertices(vertices, segment.from, segment.to);
            left.push((
                FixedVertexHandle::from_index(from),
                FixedVertexHandle::from_index(to),
            ))?;
        }
    }
    Ok(left)
}

/// How many joins and splits are allowed where there are so many segments: more than each two of
/// them can need.
fn most_steps(segments: usize) -> usize {
    let pairs = segments.saturating_mul(segments);
    pairs.saturating_mul(8).saturating_add(1 << 20)
}

/// Why segments could not be split.
fn split_fault(task: &Task<'_>, error: SegmentError) -> anyhow::Error {
    let name = input_name(task);
    match error {
        SegmentError::NoVertex => anyhow!(
            "{name}: a segment ends at a point that is not in the list"
        ),
        SegmentError::TooManySteps => {
            anyhow!("{name}: segments still cross after as many splits as are made")
        }
        SegmentError::Refused(_) => {
            anyhow!(
                "{name}: splitting segments needs more memory, or more points than have indexes"
            )
        }
    }
}

/// The height of a point on the way between two others, by the indexes of these. Heights have so
/// many digits behind the point.
fn made_height(
    drawing: &Drawing,
    [from, to]: [u32; 2],
    [start, end, point]: [Point2<i32>; 3],
    digits: u32,
) -> Option<Decimal> {
    let (first, _) = (height_at(drawing, from)?, height_at(drawing, to)?);
    let whole = scalar_product(start, end, end);
    let part = scalar_product(start, end, point).max(0).min(whole);
    let parts = [
        Weighed {
            index: from,
            weight: whole.wrapping_sub(part),
        },
        Weighed {
            index: to,
            weight: part,
        },
    ];
    let height = height_of(drawing, parts.as_slice()).unwrap_or(first);
    Some(height.rounded_to(digits).shortened())
}

/// The most digits behind the point of heights, and three more.
fn made_digits(drawing: &Drawing) -> u32 {
    let mut digits = 0;
    for height in &drawing.heights {
        if let Some(height) = height {
            digits = digits.max(height.decimal.digits);
        }
    }
    digits.saturating_add(3)
}

/// The position of a vertex.
fn vertex_position<T: Triangulation<Vertex = Point2<i32>>>(
    triangulation: &T,
    vertex: FixedVertexHandle,
) -> Point2<i32> {
    match triangulation.get_vertex(vertex) {
        Some(vertex) => *vertex.data(),
        None => Point2::new(0, 0),
    }
}

/// Adds the point by which a segment goes since it was split.
fn add_made<T: Triangulation<Vertex = Point2<i32>>>(
    scene: &mut Scene,
    triangulation: &T,
    names: &mut Vec<u32>,
    lead: &Lead,
    digits: u32,
) -> anyhow::Result<()> {
    let point = vertex_position(triangulation, lead.by);
    let positions = [
        vertex_position(triangulation, lead.ends.0),
        vertex_position(triangulation, lead.ends.1),
        point,
    ];
    let from = point_index(names, lead.ends.0.index());
    let to = point_index(names, lead.ends.1.index());
    let height = made_height(&scene.drawing, [from, to], positions, digits);
    let at = match scene.drawing.spots.get(from as usize) {
        Some(spot) => spot.file_line(),
        None => FileLine::of_line(0),
    };
    let index = u32::try_from(scene.scaled.points.len()).unwrap_or(u32::MAX);
    scene
        .scaled
        .add_made(&mut scene.drawing, point, height, at)?;
    names.push(index)?;
    Ok(())
}

/// Adds the points by which segments go since they were split.
fn add_all_made<T: Triangulation<Vertex = Point2<i32>>>(
    scene: &mut Scene,
    triangulation: &T,
    names: &mut Vec<u32>,
    leads: &[Lead],
) -> anyhow::Result<()> {
    let digits = made_digits(&scene.drawing);
    for lead in leads {
        if lead.by.index() as usize == names.len() {
            add_made(scene, triangulation, names, lead, digits)?;
        }
    }
    Ok(())
}

/// The position of a vertex, by its index.
fn position_at<T: Triangulation<Vertex = Point2<i32>>>(
    triangulation: &T,
    vertex: u32,
) -> Point2<i32> {
    vertex_position(triangulation, FixedVertexHandle::from_index(vertex))
}

/// How far the path of a segment is from it at most, in thousandths of a unit, rounded up.
fn path_distance<T: Triangulation<Vertex = Point2<i32>>>(triangulation: &T, path: &[u32]) -> u64 {
    let (Some(from), Some(to)) = (path.first(), path.last()) else {
        return 0;
    };
    let (from, to) = (
        position_at(triangulation, *from),
        position_at(triangulation, *to),
    );
    let mut most = 0;
    for vertex in path {
        most = most.max(thousandths_from(from, to, position_at(triangulation, *vertex)));
    }
    most
}

/// How far paths are from their segments at most.
fn largest_distance<T: Triangulation<Vertex = Point2<i32>>>(
    triangulation: &T,
    drawing: &Drawing,
    turns: &[Turn],
    vertices: &[u32],
    alloc: Global,
) -> Result<u64, AllocError> {
    let mut most = 0;
    for segment in &drawing.segments {
        let ends = segment_vertices(vertices, segment.from, segment.to);
        let path = path_between(triangulation, turns, ends, alloc)?;
        most = most.max(path_distance(triangulation, path.as_slice()));
    }
    Ok(most)
}

/// The sides of holes along the paths that they became, by vertices.
fn led_sides<T: Triangulation<Vertex = Point2<i32>>>(
    triangulation: &T,
    sides: &[DrawnSegment],
    turns: &[Turn],
    vertices: &[u32],
    alloc: Global,
) -> Result<Vec<DrawnSegment>, AllocError> {
    let mut led = Vec::new(alloc);
    for side in sides {
        let ends = segment_vertices(vertices, side.from, side.to);
        let path = path_between(triangulation, turns, ends, alloc)?;
        for (from, to) in path.iter().zip(path.iter().skip(1)) {
            led.push(DrawnSegment {
                from: *from,
                to: *to,
            })?;
        }
    }
    Ok(led)
}

/// The handles of so many vertices.
fn handles_of(count: usize, alloc: Global) -> Result<Vec<FixedVertexHandle>, AllocError> {
    let mut handles = Vec::with_capacity(alloc, count)?;
    for vertex in 0..u32::try_from(count).unwrap_or(u32::MAX) {
        handles.push(FixedVertexHandle::from_index(vertex))?;
    }
    Ok(handles)
}

/// The faces that are kept of a triangulation whose segments were split, by the indexes of their
/// corners.
fn kept_rows<T: Triangulation<Vertex = Point2<i32>>>(
    task: &Task<'_>,
    scene: &Scene,
    triangulation: &T,
    names: &[u32],
    sides: &[DrawnSegment],
    alloc: Global,
) -> anyhow::Result<Vec<[u32; 3]>> {
    let handles = handles_of(names.len(), alloc)?;
    let (kept, holes) = kept_part(task, scene);
    match named_faces(
        triangulation,
        names,
        holes,
        sides,
        handles.as_slice(),
        kept,
        alloc,
    ) {
        Ok(rows) => Ok(rows),
        Err(error) => Err(drawing_fault(task, &scene.drawing, error)),
    }
}

/// Splits the segments of a drawing that cross. The drawing and the names of vertices get the
/// points at which they were split.
pub fn split_scene<T: Replayable<Vertex = Point2<i32>>>(
    task: &Task<'_>,
    scene: &mut Scene,
    triangulation: &mut T,
    names: &mut Vec<u32>,
    added: &[bool],
    alloc: Global,
) -> anyhow::Result<SplitMesh> {
    triangulation.recall_invariant();
    let sides = drawn_sides(task, scene, alloc)?;
    let vertices = point_vertices(triangulation, names, scene.scaled.points.as_slice(), alloc)?;
    let mut left = left_segments(&scene.drawing, added, vertices.as_slice(), alloc)?;
    let steps = most_steps(scene.drawing.segments.len());
    let leads = match split_segments(triangulation, &mut left, steps, alloc) {
        Ok(leads) => leads,
        Err(error) => return Err(split_fault(task, error)),
    };
    add_all_made(scene, triangulation, names, leads.as_slice())?;
    let turns = turns_of(leads.as_slice(), alloc)?;
    let (ways, ends) = (turns.as_slice(), vertices.as_slice());
    let sides = led_sides(triangulation, sides.as_slice(), ways, ends, alloc)?;
    Ok(SplitMesh {
        count: leads.len(),
        thousandths: largest_distance(triangulation, &scene.drawing, ways, ends, alloc)?,
        faces: kept_rows(task, scene, triangulation, names, sides.as_slice(), alloc)?,
        turns,
    })
}
