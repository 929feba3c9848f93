//! Which point of a drawing is nearest to each that is asked about.
use crate::building::point_index;
use crate::wide::{push_wide, thousandths_of_root};
use anyhow::Context;
use delaunay_core::HintGenerator;
use delaunay_core::math::validate_vertex;
use delaunay_core::point::Point2;
use delaunay_interface::{DelaunayTriangulation, Triangulation};
use drawing_faces::triangulate_points;
use exact_predicates::ExactTests;
use half_edge_dcel::VertexHandle;
use mesh_files::{Asked, Drawing, Named, Number, Spot};
use mesh_io::Scene;
use std::alloc::{AllocError, Global};
use std::io;
use std::io::{BufWriter, Write};

/// A point by its index, and the square of how far it is.
#[derive(Clone, Copy)]
struct NearestPoint {
    index: u32,
    squared: u128,
}

/// A point that is asked about, in range or outside it.
#[derive(Clone, Copy)]
struct WidePoint {
    x: i64,
    y: i64,
}

impl WidePoint {
    /// The square of how far it is from a point.
    fn squared_distance(self, point: Point2<i32>) -> u128 {
        let dx = u128::from(self.x.abs_diff(i64::from(point.x)));
        let dy = u128::from(self.y.abs_diff(i64::from(point.y)));
        dx.wrapping_mul(dx).wrapping_add(dy.wrapping_mul(dy))
    }

    /// The point of the range that is nearest to it.
    fn in_range(self) -> Point2<i32> {
        let reach = 1i64 << 29;
        let x = self.x.min(reach).max(-reach);
        let y = self.y.min(reach).max(-reach);
        Point2::new(i32::try_from(x).unwrap_or(0), i32::try_from(y).unwrap_or(0))
    }
}

/// Puts a number behind a line, as it came, with a comma.
fn push_number(line: &mut String, drawing: &Drawing, number: &Number) -> Result<(), AllocError> {
    match str::from_utf8(drawing.text_of(number)) {
        Ok(text) => line.push_str(text)?,
        Err(_) => {}
    }
    line.push(',')
}

/// Puts the numbers of a point behind a line, as they came, each with a comma.
pub fn push_spot(line: &mut String, drawing: &Drawing, spot: &Spot) -> Result<(), AllocError> {
    push_number(line, drawing, &spot.x)?;
    push_number(line, drawing, &spot.y)
}

/// A neighbour that is nearer to a point than a vertex, if there is one.
fn nearer_neighbour<'a, DE, UE, F>(
    vertex: VertexHandle<'a, Point2<i32>, DE, UE, F>,
    asked: WidePoint,
) -> Option<VertexHandle<'a, Point2<i32>, DE, UE, F>> {
    let here = asked.squared_distance(*vertex.data());
    for edge in vertex.out_edges() {
        let [_, neighbour] = edge.vertices();
        if asked.squared_distance(*neighbour.data()) < here {
            return Some(neighbour);
        }
    }
    None
}

/// The point that is nearest to one, if there is a point: a vertex with no neighbour that is
/// nearer, from that on which is nearest to the range's nearest point.
fn nearest_to<DE, UE, F, L: HintGenerator<i32>>(
    plain: &DelaunayTriangulation<Point2<i32>, DE, UE, F, L>,
    indexes: &[u32],
    asked: WidePoint,
) -> Option<NearestPoint> {
    let point = asked.in_range();
    if validate_vertex(&point).is_err() {
        return None;
    }
    let mut vertex = plain.nearest_neighbor(point, &ExactTests)?;
    for _ in 0..indexes.len() {
        let Some(nearer) = nearer_neighbour(vertex, asked) else {
            break;
        };
        vertex = nearer;
    }
    Some(NearestPoint {
        index: point_index(indexes, vertex.fix().index()),
        squared: asked.squared_distance(*vertex.data()),
    })
}

/// Puts the nearest point behind a line, by its number from 1, and how far it is, also squared.
fn push_nearest(
    line: &mut String,
    digits: u32,
    nearest: Option<NearestPoint>,
) -> Result<(), AllocError> {
    let Some(nearest) = nearest else {
        return line.push_str(",,");
    };
    let number = u64::from(nearest.index) + 1;
    write!(line, "{number},")?;
    let distance = thousandths_of_root(nearest.squared);
    push_wide(line, distance, digits.saturating_add(3))?;
    line.push(',')?;
    push_wide(line, nearest.squared, digits.saturating_mul(2))
}

/// Where a point is that is asked about, if it is not too far to be compared.
fn wide_point(asked: Asked) -> Option<WidePoint> {
    match asked {
        Asked::Near(point) => Some(WidePoint {
            x: i64::from(point.x),
            y: i64::from(point.y),
        }),
        Asked::Far { x, y } => Some(WidePoint { x, y }),
        Asked::Beyond => None,
    }
}

/// What an answer names: the nearest point, if there is one.
fn named(nearest: Option<NearestPoint>) -> Named<'static> {
    match nearest {
        Some(nearest) => Named::Point(nearest.index),
        None => Named::Nothing,
    }
}

/// Puts the nearest point to one behind a line, or that it is too far to be compared, and what the
/// file says of it.
fn push_answer<DE, UE, F, L: HintGenerator<i32>>(
    line: &mut String,
    scene: &Scene,
    plain: &DelaunayTriangulation<Point2<i32>, DE, UE, F, L>,
    indexes: &[u32],
    asked: Asked,
) -> Result<(), AllocError> {
    let mut nearest = None;
    if let Some(point) = wide_point(asked) {
        nearest = nearest_to(plain, indexes, point);
        push_nearest(line, scene.scaled.x_scale.digits, nearest)?;
    } else {
        line.push_str("too far,,")?;
    }
    scene
        .records
        .push_fields(line, &scene.drawing, named(nearest))?;
    line.push('\n')
}

fn write_nearest<W: Write, DE, UE, F, L: HintGenerator<i32>>(
    writer: &mut W,
    scene: &Scene,
    plain: &DelaunayTriangulation<Point2<i32>, DE, UE, F, L>,
    indexes: &[u32],
    alloc: Global,
) -> io::Result<()> {
    let mut line = String::new(alloc);
    line.push_str("x,y,point,distance,distance_2")?;
    scene.records.push_names(&mut line)?;
    line.push('\n')?;
    writer.write_all(line.as_bytes())?;
    for (spot, point) in scene.asked.spots.iter().zip(&scene.asked_points) {
        line.clear();
        push_spot(&mut line, &scene.asked, spot)?;
        push_answer(&mut line, scene, plain, indexes, *point)?;
        writer.write_all(line.as_bytes())?;
    }
    writer.flush()
}

/// Tells which of some points is nearest to each that is asked about.
fn tell_nearest_of<DE, UE, F, L: HintGenerator<i32>>(
    rt: &HostRuntime,
    scene: &Scene,
    plain: &DelaunayTriangulation<Point2<i32>, DE, UE, F, L>,
    indexes: &[u32],
) -> anyhow::Result<()> {
    let mut writer = BufWriter::new(rt.alloc(), io::writer(rt))?;
    write_nearest(&mut writer, scene, plain, indexes, rt.alloc()).context("standard output")
}

/// Tells which point is nearest to each that is asked about.
pub fn tell_nearest(rt: &HostRuntime, scene: &Scene) -> anyhow::Result<()> {
    let triangulated = triangulate_points(scene.scaled.points.as_slice(), rt.alloc())?;
    tell_nearest_of(
        rt,
        scene,
        &triangulated.plain,
        triangulated.vertices.as_slice(),
    )
}
