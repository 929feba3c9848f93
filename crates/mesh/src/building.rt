//! The triangulation of a drawing, and what is told of it.
use crate::crossings::{crossing_point, first_crossed};
use crate::disjoint::disjoint_segments;
use crate::splitting::{SplitMesh, split_scene};
use anyhow::{anyhow, bail};
use decimal_numbers::Decimal;
use delaunay_core::point::Point2;
use delaunay_interface::Triangulation;
use delaunay_journal::Replayable;
use delaunay_legalization::ConstraintMarker;
use drawing_faces::{DrawingError, DrawnMesh, DrawnSegment, Kept, triangulate_drawing};
use half_edge_dcel::UndirectedEdgeHandle;
use mesh_files::{Drawing, FacePolygons, FileLine, Form, MeshText, WrittenPoints, hole_sides};
use mesh_io::{
    CrossingRule, KeepRule, Question, Scene, Task, input_name, refine_scene, write_mesh,
};
use std::alloc::{AllocError, Global};
use std::fmt;

/// What there is of a drawing beside its triangulation.
#[derive(Clone, Copy)]
pub struct DrawnLists<'a> {
    /// Of each vertex the index of its point.
    pub indexes: &'a [u32],
    /// Of each segment whether it was added.
    pub added: &'a [bool],
    /// The faces that are kept, by the indexes of their corners.
    pub faces: &'a [[u32; 3]],
    /// The polygons that each of them is in, where the drawing has polygons.
    pub polygons: Option<FacePolygons<'a>>,
    /// How many edges are constraints.
    pub constraints: usize,
}

impl<'a> DrawnLists<'a> {
    /// The lists of a drawing with polygons.
    pub fn with_polygons(
        indexes: &'a [u32],
        added: &'a [bool],
        faces: &'a [[u32; 3]],
        polygons: FacePolygons<'a>,
        constraints: usize,
    ) -> DrawnLists<'a> {
        let polygons = Some(polygons);
        DrawnLists {
            indexes,
            added,
            faces,
            polygons,
            constraints,
        }
    }
}

/// Where a segment stands in its file.
fn segment_line(scene: &Scene, index: usize) -> FileLine {
    match scene.drawing.segments.get(index) {
        Some(segment) => segment.file_line(),
        None => FileLine::of_line(0),
    }
}

/// The name of a segment's file.
fn segment_file<'a>(task: &Task<'a>, scene: &Scene, index: usize) -> &'a str {
    match task.lines {
        Some(lines) if index >= scene.own_segments => lines,
        _ => input_name(task),
    }
}

/// That a segment crosses another, by where they stand, if it is known which, and where.
#[derive(Clone, Copy)]
pub struct Crossing<'a> {
    file: &'a str,
    file_line: FileLine,
    other: Option<(&'a str, FileLine)>,
    at: Option<[Decimal; 2]>,
}

/// Tells which segment of a file is crossed by one of another file, or of the same.
fn write_crossed<W: fmt::Write>(
    f: &mut fmt::Formatter<W>,
    file: &str,
    other_file: &str,
    other: FileLine,
) -> fmt::Result {
    write!(f, "that of {other}")?;
    if file == other_file {
        return Ok(());
    }
    write!(f, " of {other_file}")
}

/// Tells where a segment stands that crosses another.
fn write_crossing<W: fmt::Write>(
    f: &mut fmt::Formatter<W>,
    file: &str,
    file_line: FileLine,
) -> fmt::Result {
    write!(f, "{file}: {file_line}: the segment crosses ")
}

impl fmt::Display for Crossing<'_> {
    fn fmt<W: fmt::Write>(&self, f: &mut fmt::Formatter<W>) -> fmt::Result {
        write_crossing(f, self.file, self.file_line)?;
        match self.other {
            None => f.write_str("another")?,
            Some((file, other)) => write_crossed(f, self.file, file, other)?,
        }
        match self.at {
            Some(at) => {
                let [x, y] = at;
                write!(f, " at {x},{y}")
            }
            None => Ok(()),
        }
    }
}

/// That a segment crosses one before it, by their indexes.
fn crossing_of<'a>(
    task: &Task<'a>,
    scene: &Scene,
    index: usize,
    crossed: Option<usize>,
) -> Crossing<'a> {
    let at = match crossed {
        Some(other) => crossing_point(scene, index, other),
        None => None,
    };
    Crossing {
        file: segment_file(task, scene, index),
        file_line: segment_line(scene, index),
        other: match crossed {
            Some(other) => Some((segment_file(task, scene, other), segment_line(scene, other))),
            None => None,
        },
        at: match at {
            Some(point) => Some(scene.scaled.numbers_at(point)),
            None => None,
        },
    }
}

/// The segments of a drawing, without their lines.
fn segments_of(drawing: &Drawing, alloc: Global) -> Result<Vec<DrawnSegment>, AllocError> {
    let mut segments = Vec::with_capacity(alloc, drawing.segments.len())?;
    for segment in &drawing.segments {
        segments.push(DrawnSegment {
            from: segment.from,
            to: segment.to,
        })?;
    }
    Ok(segments)
}

/// Segments between points by their indexes.
fn segments_between(sides: &[[u32; 2]], alloc: Global) -> Result<Vec<DrawnSegment>, AllocError> {
    let mut segments = Vec::with_capacity(alloc, sides.len())?;
    for [from, to] in sides {
        segments.push(DrawnSegment {
            from: *from,
            to: *to,
        })?;
    }
    Ok(segments)
}

/// Whether a drawing has polygons: rings, or regions.
fn has_polygons(scene: &Scene) -> bool {
    !scene.drawing.rings.is_empty() || !scene.regions.spots.is_empty()
}

/// Whether the faces are kept that segments close off. Where a drawing has polygons, the inside is
/// theirs.
fn keeps_layers(task: &Task<'_>, scene: &Scene) -> bool {
    match task.keep {
        KeepRule::All => false,
        KeepRule::Inside => !has_polygons(scene),
        KeepRule::Layers => true,
    }
}

/// The sides of the drawing's rings round holes, where only what segments close off is kept.
pub fn drawn_sides(
    task: &Task<'_>,
    scene: &Scene,
    alloc: Global,
) -> Result<Vec<DrawnSegment>, AllocError> {
    if !keeps_layers(task, scene) {
        return Ok(Vec::new(alloc));
    }
    let sides = hole_sides(&scene.drawing, scene.scaled.points.as_slice(), alloc)?;
    segments_between(sides.as_slice(), alloc)
}

/// Tells that a segment was left out, or gives that as an error.
fn tell_crossing(rt: &impl Eprint, task: &Task<'_>, crossing: Crossing<'_>) -> anyhow::Result<()> {
    if task.crossing != CrossingRule::Skip {
        bail!("{crossing}");
    }
    let _ = eprintln!(rt; "mesh: {crossing}, and is left out");
    Ok(())
}

/// Tells which segments were left out, or that one crosses another where that is an error.
fn tell_crossings<T: Triangulation<Vertex = Point2<i32>>>(
    rt: &impl Eprint,
    task: &Task<'_>,
    scene: &Scene,
    triangulation: &T,
    added: &[bool],
) -> anyhow::Result<()> {
    if task.crossing == CrossingRule::Split {
        return Ok(());
    }
    if task.crossing == CrossingRule::Skip && task.is_quiet {
        return Ok(());
    }
    for (index, is_added) in added.iter().enumerate() {
        if !*is_added {
            let crossed = first_crossed(scene, triangulation, added, index);
            tell_crossing(rt, task, crossing_of(task, scene, index, crossed))?;
        }
    }
    Ok(())
}

/// The index of the point of a vertex, by the indexes of all.
pub fn point_index(indexes: &[u32], vertex: u32) -> u32 {
    indexes.get(vertex as usize).copied().unwrap_or(u32::MAX)
}

/// The indexes of the ends of an edge's points.
fn end_indexes<V, DE, UE, F>(
    indexes: &[u32],
    edge: UndirectedEdgeHandle<'_, V, DE, UE, F>,
) -> [u32; 2] {
    let [a, b] = edge.vertices();
    [
        point_index(indexes, a.fix().index()),
        point_index(indexes, b.fix().index()),
    ]
}

/// The edges that are constraints, by the indexes of their ends.
fn constraint_ends<T: Triangulation<Vertex = Point2<i32>>>(
    triangulation: &T,
    drawn: &DrawnLists<'_>,
    alloc: Global,
) -> Result<Vec<[u32; 2]>, AllocError> {
    let mut constraints = Vec::with_capacity(alloc, drawn.constraints)?;
    for edge in triangulation.undirected_edges() {
        if T::Constraints::is_constraint_edge(edge.data()) {
            constraints.push(end_indexes(drawn.indexes, edge))?;
        }
    }
    Ok(constraints)
}

/// Why a drawing was not triangulated, with the line of a point in a hole.
pub fn drawing_fault(task: &Task<'_>, drawing: &Drawing, error: DrawingError) -> anyhow::Error {
    let name = input_name(task);
    match error {
        DrawingError::HoleTooLarge(index)
        | DrawingError::HoleOnSegment(index)
        | DrawingError::HoleInNoFace(index) => {
            let line = match drawing.holes.get(index) {
                Some(spot) => spot.line,
                None => 0,
            };
            anyhow!("{name}: line {line}: {error}")
        }
        _ => anyhow!("{name}: {error}"),
    }
}

/// Tells how many there are of each.
fn tell_counts(rt: &impl Eprint, points: usize, drawn: &DrawnLists<'_>) {
    let vertices = drawn.indexes.len();
    if vertices < points {
        let repeated = points.saturating_sub(vertices);
        let _ = eprintln!(rt;
            "mesh: points that repeat an earlier one, and so are in no face: {repeated}"
        );
    }
    let (faces, constraints) = (drawn.faces.len(), drawn.constraints);
    let _ = eprintln!(rt; "mesh: {vertices} vertices, {faces} faces, {constraints} constraints");
}

/// Which faces are kept, and the points in holes that count for that.
pub fn kept_part<'a>(task: &Task<'_>, scene: &'a Scene) -> (Kept, &'a [Point2<i32>]) {
    if keeps_layers(task, scene) {
        (Kept::Inside, scene.scaled.holes.as_slice())
    } else {
        (Kept::All, [].as_slice())
    }
}

/// The triangulation of a drawing with these segments, with the faces that are kept.
fn triangulate_segments(
    task: &Task<'_>,
    scene: &Scene,
    segments: &[DrawnSegment],
    sides: &[DrawnSegment],
    alloc: Global,
) -> anyhow::Result<DrawnMesh> {
    let (kept, holes) = kept_part(task, scene);
    let points = scene.scaled.points.as_slice();
    match triangulate_drawing(points, segments, holes, sides, kept, alloc) {
        Ok(drawn) => Ok(drawn),
        Err(error) => Err(drawing_fault(task, &scene.drawing, error)),
    }
}

/// Whether all segments of a drawing were added.
fn are_all_taken(drawn: &DrawnMesh) -> bool {
    drawn.added.iter().all(|is_added| *is_added)
}

/// The triangulation of a drawing, with the faces that are kept. Segments that overlap become
/// segments that do not, if all of these can be added: else each walks over all that it covers.
fn triangulate_scene(task: &Task<'_>, scene: &Scene, alloc: Global) -> anyhow::Result<DrawnMesh> {
    let segments = segments_of(&scene.drawing, alloc)?;
    let sides = drawn_sides(task, scene, alloc)?;
    let points = scene.scaled.points.as_slice();
    if let Some(disjoint) = disjoint_segments(points, segments.as_slice(), alloc)? {
        let mut drawn = triangulate_segments(
            task,
            scene,
            disjoint.as_slice(),
            sides.as_slice(),
            alloc,
        )?;
        if are_all_taken(&drawn) {
            drawn.added = Vec::from_elem(alloc, true, segments.len())?;
            return Ok(drawn);
        }
    }
    triangulate_segments(task, scene, segments.as_slice(), sides.as_slice(), alloc)
}

/// The triangulation of a drawing, with the faces that are kept, on a scale with room for the
/// points at which segments are split, if some are to be.
pub fn triangulate_with_room(
    task: &Task<'_>,
    scene: &mut Scene,
    alloc: Global,
) -> anyhow::Result<DrawnMesh> {
    let drawn = triangulate_scene(task, scene, alloc)?;
    if task.crossing == CrossingRule::Skip || are_all_taken(&drawn) {
        return Ok(drawn);
    }
    let digits = scene.scaled.x_scale.digits;
    refine_scene(task, scene, alloc)?;
    if scene.scaled.x_scale.digits == digits {
        return Ok(drawn);
    }
    triangulate_scene(task, scene, alloc)
}

/// Whether it counts which polygons faces are in.
pub fn needs_polygons(task: &Task<'_>, scene: &Scene) -> bool {
    let is_told = match task.question {
        Some(Question::Locate(_) | Question::Overlaps) => true,
        _ => task.form == Some(Form::GeoJson) || task.form == Some(Form::Csv),
    };
    has_polygons(scene) && (is_told || task.keep == KeepRule::Inside)
}

/// The first segment that was left out, as one that crosses another.
fn first_crossing<'a, T: Triangulation<Vertex = Point2<i32>>>(
    task: &Task<'a>,
    scene: &Scene,
    triangulation: &T,
    added: &[bool],
) -> Option<Crossing<'a>> {
    let index = added.iter().position(|is_added| !*is_added)?;
    let crossed = first_crossed(scene, triangulation, added, index);
    Some(crossing_of(task, scene, index, crossed))
}

/// Splits the segments that cross, where that is asked for, tells how many times and how far that
/// moved them, and gives what came of it.
pub fn split_crossing<T: Replayable<Vertex = Point2<i32>>>(
    rt: &HostRuntime,
    task: &Task<'_>,
    scene: &mut Scene,
    triangulation: &mut T,
    names: &mut Vec<u32>,
    added: &[bool],
) -> anyhow::Result<Option<SplitMesh>> {
    triangulation.recall_invariant();
    if task.crossing != CrossingRule::Split {
        return Ok(None);
    }
    let Some(crossing) = first_crossing(task, scene, triangulation, added) else {
        return Ok(None);
    };
    let split = split_scene(task, scene, triangulation, names, added, rt.alloc())?;
    if !task.is_quiet {
        let (count, largest) = (split.count, split.largest(scene.scaled.x_scale.digits));
        let _ = eprintln!(rt;
            "mesh: {crossing}; both are split there ({count} such, by at most {largest})"
        );
    }
    Ok(Some(split))
}

/// Tells what is to be told of a triangulation.
pub fn tell_drawn<T: Triangulation<Vertex = Point2<i32>>>(
    rt: &impl Eprint,
    task: &Task<'_>,
    scene: &Scene,
    triangulation: &T,
    drawn: &DrawnLists<'_>,
) -> anyhow::Result<()> {
    tell_crossings(rt, task, scene, triangulation, drawn.added)?;
    if !task.is_quiet {
        tell_counts(rt, scene.scaled.points.len(), drawn);
    }
    Ok(())
}

/// The indexes of the points of vertices, in order.
fn written_indexes(indexes: &[u32], alloc: Global) -> Result<Vec<u32>, AllocError> {
    let mut written = Vec::with_capacity(alloc, indexes.len())?;
    written.extend_from_slice(indexes)?;
    written.sort()?;
    Ok(written)
}

/// Of each of so many points how many come before it of those at these indexes.
fn ranks_of(written: &[u32], points: usize, alloc: Global) -> Result<Vec<u32>, AllocError> {
    let mut ranks = Vec::from_elem(alloc, 0, points)?;
    for (rank, index) in written.iter().enumerate() {
        if let Some(entry) = ranks.get_mut(*index as usize) {
            *entry = u32::try_from(rank).unwrap_or(u32::MAX);
        }
    }
    Ok(ranks)
}

/// Writes a mesh to standard output, or to the file that is asked for.
pub fn write_triangulated<T: Triangulation<Vertex = Point2<i32>>>(
    rt: &HostRuntime,
    task: &Task<'_>,
    scene: &Scene,
    triangulation: &T,
    drawn: &DrawnLists<'_>,
) -> anyhow::Result<()> {
    let constraints = constraint_ends(triangulation, drawn, rt.alloc())?;
    let written = written_indexes(drawn.indexes, rt.alloc())?;
    let ranks = ranks_of(written.as_slice(), scene.scaled.points.len(), rt.alloc())?;
    let points = WrittenPoints {
        indexes: written.as_slice(),
        ranks: ranks.as_slice(),
    };
    let text = MeshText {
        drawing: &scene.drawing,
        scaled: &scene.scaled,
        points: if task.is_compact { Some(points) } else { None },
        polygons: drawn.polygons,
        faces: drawn.faces,
        constraints: constraints.as_slice(),
        width: task.width,
    };
    write_mesh(rt, task, &text)
}
