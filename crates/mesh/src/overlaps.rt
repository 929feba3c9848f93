//! Where polygons overlap, and which gaps they leave.
use crate::areas::turned_area;
use crate::building::DrawnLists;
use crate::polygons::{NO_FACE, across_faces};
use anyhow::{Context, bail};
use decimal_numbers::{Decimal, Scale};
use delaunay_core::point::Point2;
use mesh_files::{FacePolygons, Named};
use mesh_io::Scene;
use std::alloc::{AllocError, Global};
use std::io;
use std::io::{BufWriter, Write};

/// The faces of a drawing, what is next to each, and the polygons that each is in.
#[derive(Drop)]
struct PolygonMap<'a> {
    faces: &'a [[u32; 3]],
    /// Of each side of each face the face on its other side.
    across: Vec<u32>,
    polygons: FacePolygons<'a>,
}

/// Faces next to one another that are in the same polygons.
#[derive(Drop)]
struct Part {
    first: usize,
    doubled_area: u64,
    reaches_outside: bool,
    /// The polygons round it.
    around: Vec<u32>,
}

/// A search for all parts.
#[derive(Drop)]
struct Search {
    is_passed: Vec<bool>,
    due: Vec<u32>,
}

impl Search {
    /// Notes that a face is to be passed, unless that is noted.
    fn note(&mut self, face: u32) -> Result<(), AllocError> {
        let Some(is_passed) = self.is_passed.get_mut(face as usize) else {
            return Ok(());
        };
        if !*is_passed {
            *is_passed = true;
            self.due.push(face)?;
        }
        Ok(())
    }
}

/// The point at an index.
fn point_at(scene: &Scene, index: u32) -> Point2<i32> {
    match scene.scaled.points.get(index as usize) {
        Some(point) => *point,
        None => Point2::new(0, 0),
    }
}

/// Twice the area of a face.
fn doubled_area(scene: &Scene, [a, b, c]: [u32; 3]) -> u64 {
    turned_area(point_at(scene, a), point_at(scene, b), point_at(scene, c)).unsigned_abs()
}

/// The mean of three coordinates, rounded to three digits more than they have.
fn mean_of(scale: &Scale, [a, b, c]: [i32; 3]) -> Decimal {
    let sum = i128::from(a)
        .wrapping_add(i128::from(b))
        .wrapping_add(i128::from(c));
    let whole = i128::from(scale.origin).wrapping_mul(3).wrapping_add(sum);
    let thousandths = whole.unsigned_abs().wrapping_mul(1000).wrapping_add(1) / 3;
    let mean = Decimal {
        negative: whole < 0,
        magnitude: u64::try_from(thousandths).unwrap_or(u64::MAX),
        digits: scale.digits.saturating_add(3),
    };
    mean.shortened()
}

/// The middle of a face.
fn middle_of(scene: &Scene, [a, b, c]: [u32; 3]) -> [Decimal; 2] {
    let (a, b, c) = (point_at(scene, a), point_at(scene, b), point_at(scene, c));
    [
        mean_of(&scene.scaled.x_scale, [a.x, b.x, c.x]),
        mean_of(&scene.scaled.y_scale, [a.y, b.y, c.y]),
    ]
}

impl PolygonMap<'_> {
    /// Passes a face of a part.
    fn pass(
        &self,
        scene: &Scene,
        face: u32,
        part: &mut Part,
        search: &mut Search,
    ) -> Result<(), AllocError> {
        let Some(corners) = self.faces.get(face as usize).copied() else {
            return Ok(());
        };
        let area = doubled_area(scene, corners);
        part.doubled_area = part.doubled_area.saturating_add(area);
        let numbers = self.polygons.of(face as usize);
        let first = (face as usize).saturating_mul(3);
        for side in first..first.saturating_add(3) {
            let next = self.across.get(side).copied().unwrap_or(NO_FACE);
            if next == NO_FACE {
                part.reaches_outside = true;
            } else if self.polygons.of(next as usize) == numbers {
                search.note(next)?;
            } else {
                part.around
                    .extend_from_slice(self.polygons.of(next as usize))?;
            }
        }
        Ok(())
    }

    /// The part that begins with a face.
    fn part_from(
        &self,
        scene: &Scene,
        first: usize,
        search: &mut Search,
        alloc: Global,
    ) -> Result<Part, AllocError> {
        let mut part = Part {
            first,
            doubled_area: 0,
            reaches_outside: false,
            around: Vec::new(alloc),
        };
        search.note(u32::try_from(first).unwrap_or(NO_FACE))?;
        // a face is listed once
        for _ in 0..self.faces.len() {
            let Some(face) = search.due.pop() else {
                break;
            };
            self.pass(scene, face, &mut part, search)?;
        }
        part.around.sort()?;
        part.around.dedup();
        Ok(part)
    }
}

/// Puts numbers behind a line, with blanks between them.
fn push_numbers(line: &mut String, numbers: &[u32]) -> Result<(), AllocError> {
    let mut before = "";
    for number in numbers {
        write!(line, "{before}{number}")?;
        before = " ";
    }
    Ok(())
}

/// Puts a part behind a line: of a gap the polygons round it.
fn push_part(
    line: &mut String,
    scene: &Scene,
    map: &PolygonMap<'_>,
    part: &Part,
) -> Result<(), AllocError> {
    let own = map.polygons.of(part.first);
    let (kind, numbers) = if own.is_empty() {
        ("gap", part.around.as_slice())
    } else {
        ("overlap", own)
    };
    let area = Decimal {
        negative: false,
        magnitude: part.doubled_area.saturating_mul(5),
        digits: scene
            .scaled
            .x_scale
            .digits
            .saturating_mul(2)
            .saturating_add(1),
    };
    let area = area.shortened();
    let corners = map.faces.get(part.first).copied().unwrap_or([0; 3]);
    let [x, y] = middle_of(scene, corners);
    write!(line, "{kind},")?;
    push_numbers(line, numbers)?;
    write!(line, ",{area},{x},{y}")?;
    scene
        .records
        .push_fields(line, &scene.drawing, Named::Polygons(numbers))?;
    line.push('\n')
}

/// How many overlaps and gaps there are.
#[derive(Clone, Copy)]
struct Counts {
    overlaps: u64,
    gaps: u64,
}

impl Counts {
    /// Whether a part is an overlap or a gap, which then counts.
    fn add(&mut self, polygons: usize, reaches_outside: bool) -> bool {
        if polygons == 0 && !reaches_outside {
            self.gaps = self.gaps.saturating_add(1);
            return true;
        }
        if polygons > 1 {
            self.overlaps = self.overlaps.saturating_add(1);
            return true;
        }
        false
    }
}

/// Writes all overlaps and gaps, and counts them.
fn write_parts<W: Write>(
    writer: &mut W,
    scene: &Scene,
    map: &PolygonMap<'_>,
    alloc: Global,
) -> io::Result<Counts> {
    let mut line = String::new(alloc);
    let name = scene.records.number_name();
    write!(line, "kind,{name},area,x,y")?;
    scene.records.push_names(&mut line)?;
    line.push('\n')?;
    writer.write_all(line.as_bytes())?;
    let mut counts = Counts {
        overlaps: 0,
        gaps: 0,
    };
    let mut search = Search {
        is_passed: Vec::from_elem(alloc, false, map.faces.len())?,
        due: Vec::new(alloc),
    };
    for first in 0..map.faces.len() {
        if search.is_passed.get(first).copied() != Some(false) {
            continue;
        }
        let part = map.part_from(scene, first, &mut search, alloc)?;
        if counts.add(map.polygons.of(first).len(), part.reaches_outside) {
            line.clear();
            push_part(&mut line, scene, map, &part)?;
            writer.write_all(line.as_bytes())?;
        }
    }
    writer.flush()?;
    Ok(counts)
}

/// Tells where polygons overlap, and which gaps they leave: faces in several polygons, and faces in
/// none from which no way through such faces leads to the outside.
pub fn tell_overlaps(
    rt: &HostRuntime,
    is_quiet: bool,
    scene: &Scene,
    drawn: &DrawnLists<'_>,
) -> anyhow::Result<()> {
    let Some(polygons) = drawn.polygons else {
        bail!("--overlaps: the input has no polygons");
    };
    let map = PolygonMap {
        faces: drawn.faces,
        across: across_faces(drawn.faces, rt.alloc())?,
        polygons,
    };
    let mut writer = BufWriter::new(rt.alloc(), io::writer(rt))?;
    let counts = write_parts(&mut writer, scene, &map, rt.alloc()).context("standard output")?;
    if !is_quiet {
        let (overlaps, gaps) = (counts.overlaps, counts.gaps);
        let _ = eprintln!(rt; "mesh: {overlaps} overlaps, {gaps} gaps");
    }
    Ok(())
}
