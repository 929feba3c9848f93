//! What each point that is asked about is on: a point of the drawing, an edge or a face.
ghost use Rattle.std.specs.Prelude.{◌<◌};

use crate::areas::{scalar_product, turned_area};
use crate::building::point_index;
use crate::heights::{Weighed, height_of};
use crate::kept::KeptFaces;
use crate::nearest::push_spot;
use anyhow::Context;
use delaunay_core::math::validate_vertex;
use delaunay_core::point::Point2;
use delaunay_interface::Triangulation;
use delaunay_location::PositionInTriangulation;
use exact_predicates::ExactTests;
use half_edge_dcel::{DirectedEdgeHandle, FaceHandle, VertexHandle};
use mesh_files::{Asked, Drawing, Named};
use mesh_io::Scene;
use std::alloc::{AllocError, Global};
use std::io;
use std::io::{BufWriter, Write};

/// What is told of a point: the line, the polygons that it is in, and the point of the drawing that
/// it is on.
#[derive(Drop)]
struct Answer {
    line: String,
    numbers: Vec<u32>,
    point: Option<u32>,
}

impl Answer {
    /// Puts the numbers of points, from 1, behind the line, and the height of a point between them.
    fn push_parts(
        &mut self,
        drawing: &Drawing,
        kind: &str,
        parts: &[Weighed],
    ) -> Result<(), AllocError> {
        self.line.push_str(kind)?;
        for i in 0..3 {
            self.line.push(',')?;
            if let Some(part) = parts.get(i) {
                let number = u64::from(part.index).saturating_add(1);
                write!(self.line, "{number}")?;
            }
        }
        self.line.push(',')?;
        if let Some(height) = height_of(drawing, parts) {
            write!(self.line, "{height}")?;
        }
        Ok(())
    }

    /// Tells what a point is on, if that is kept.
    fn push_kept(
        &mut self,
        drawing: &Drawing,
        kind: &str,
        parts: &[Weighed],
        is_kept: bool,
    ) -> Result<(), AllocError> {
        if is_kept {
            self.push_parts(drawing, kind, parts)
        } else {
            self.point = None;
            self.push_parts(drawing, "outside", &[])
        }
    }

    /// What the answer names: polygons, or else the point.
    fn named(&self) -> Named<'_> {
        match self.point {
            Some(point) if self.numbers.is_empty() => Named::Point(point),
            _ => Named::Polygons(self.numbers.as_slice()),
        }
    }

    /// Puts the numbers of the polygons behind the line, with blanks between them.
    fn push_polygons(&mut self) -> Result<(), AllocError> {
        self.numbers.sort()?;
        self.numbers.dedup();
        let mut before = ",";
        for number in &self.numbers {
            write!(self.line, "{before}{number}")?;
            before = " ";
        }
        self.line
            .push_str(if self.numbers.is_empty() { "," } else { "" })
    }

    /// Ends the line: with polygons where the drawing has some, and with what the file says of what
    /// is named.
    fn end(&mut self, scene: &Scene, has_polygons: bool) -> Result<(), AllocError> {
        if has_polygons {
            self.push_polygons()?;
        }
        let mut fields = String::new(*self.line.allocator());
        scene
            .records
            .push_fields(&mut fields, &scene.drawing, self.named())?;
        self.line.push_str(fields.as_str())?;
        self.line.push('\n')
    }

    /// Begins another line.
    fn clear(&mut self) {
        self.line.clear();
        self.numbers.clear();
        self.point = None;
    }
}

/// The ends of an edge, with their weights at a point of the edge.
fn weighed_ends<DE, UE, F>(
    indexes: &[u32],
    edge: DirectedEdgeHandle<'_, Point2<i32>, DE, UE, F>,
    point: Point2<i32>,
) -> [Weighed; 2] {
    let [from, to] = edge.vertices();
    let (a, b) = (*from.data(), *to.data());
    let (whole, part) = (scalar_product(a, b, b), scalar_product(a, b, point));
    [
        Weighed {
            index: point_index(indexes, from.fix().index()),
            weight: whole.wrapping_sub(part),
        },
        Weighed {
            index: point_index(indexes, to.fix().index()),
            weight: part,
        },
    ]
}

/// The corners of a face, with their weights at a point of the face.
fn weighed_corners<DE, UE, F>(
    indexes: &[u32],
    face: FaceHandle<'_, Point2<i32>, DE, UE, F>,
    point: Point2<i32>,
) -> [Weighed; 3]
    requires { 0 < face.index }
{
    let [first, second, third] = face.vertices();
    let (a, b, c) = (*first.data(), *second.data(), *third.data());
    [
        Weighed {
            index: point_index(indexes, first.fix().index()),
            weight: turned_area(point, b, c),
        },
        Weighed {
            index: point_index(indexes, second.fix().index()),
            weight: turned_area(point, c, a),
        },
        Weighed {
            index: point_index(indexes, third.fix().index()),
            weight: turned_area(point, a, b),
        },
    ]
}

/// What a point outside the range is on: nothing, as all points are in range.
fn outside_kind(vertices: usize) -> &'static str {
    if vertices < 2 { "nowhere" } else { "outside" }
}

/// Tells which vertex a point is on.
fn push_vertex<DE, UE, F>(
    answer: &mut Answer,
    drawing: &Drawing,
    kept: &KeptFaces<'_>,
    vertex: VertexHandle<'_, Point2<i32>, DE, UE, F>,
) -> Result<(), AllocError> {
    let index = point_index(kept.drawn.indexes, vertex.fix().index());
    let is_kept = kept.add_round(vertex, &mut answer.numbers)?;
    answer.point = Some(index);
    answer.push_kept(drawing, "point", &[Weighed { index, weight: 1 }], is_kept)
}

/// Tells which edge a point is on.
fn push_edge<DE, UE, F>(
    answer: &mut Answer,
    drawing: &Drawing,
    kept: &KeptFaces<'_>,
    edge: DirectedEdgeHandle<'_, Point2<i32>, DE, UE, F>,
    point: Point2<i32>,
) -> Result<(), AllocError> {
    let parts = weighed_ends(kept.drawn.indexes, edge, point);
    let is_kept = kept.add_beside(edge, &mut answer.numbers)?;
    answer.push_kept(drawing, "edge", parts.as_slice(), is_kept)
}

/// Tells which face a point is in.
fn push_face<DE, UE, F>(
    answer: &mut Answer,
    drawing: &Drawing,
    kept: &KeptFaces<'_>,
    face: FaceHandle<'_, Point2<i32>, DE, UE, F>,
    point: Point2<i32>,
) -> Result<(), AllocError>
    requires { 0 < face.index }
{
    let parts = weighed_corners(kept.drawn.indexes, face, point);
    let is_kept = kept.add(parts.map(|part| part.index), &mut answer.numbers)?;
    answer.push_kept(drawing, "face", parts.as_slice(), is_kept)
}

/// Tells what a point is on.
fn push_location<T: Triangulation<Vertex = Point2<i32>>>(
    answer: &mut Answer,
    drawing: &Drawing,
    triangulation: &T,
    kept: &KeptFaces<'_>,
    asked: Asked,
) -> Result<(), AllocError> {
    triangulation.recall_invariant();
    let Asked::Near(point) = asked else {
        return answer.push_parts(drawing, outside_kind(triangulation.num_vertices()), &[]);
    };
    if validate_vertex(&point).is_err() {
        return answer.line.push_str(",,,,");
    }
    match triangulation.locate(point, &ExactTests) {
        PositionInTriangulation::OnVertex(vertex) => {
            push_vertex(answer, drawing, kept, triangulation.vertex(vertex))
        }
        PositionInTriangulation::OnEdge(edge) => {
            push_edge(
                answer,
                drawing,
                kept,
                triangulation.directed_edge(edge),
                point,
            )
        }
        PositionInTriangulation::OnFace(face) => {
            push_face(answer, drawing, kept, triangulation.face(face), point)
        }
        PositionInTriangulation::OutsideOfConvexHull(_) => {
            answer.push_parts(drawing, "outside", &[])
        }
        PositionInTriangulation::NoTriangulation => answer.push_parts(drawing, "nowhere", &[]),
    }
}

/// The header of the answers.
fn push_head(line: &mut String, scene: &Scene, kept: &KeptFaces<'_>) -> Result<(), AllocError> {
    line.push_str("x,y,on,a,b,c,z")?;
    if kept.drawn.polygons.is_some() {
        let name = scene.records.number_name();
        write!(line, ",{name}")?;
    }
    scene.records.push_names(line)?;
    line.push('\n')
}

fn write_locations<W: Write, T: Triangulation<Vertex = Point2<i32>>>(
    writer: &mut W,
    scene: &Scene,
    triangulation: &T,
    kept: &KeptFaces<'_>,
    alloc: Global,
) -> io::Result<()> {
    let mut answer = Answer {
        line: String::new(alloc),
        numbers: Vec::new(alloc),
        point: None,
    };
    push_head(&mut answer.line, scene, kept)?;
    writer.write_all(answer.line.as_bytes())?;
    for (spot, point) in scene.asked.spots.iter().zip(&scene.asked_points) {
        answer.clear();
        push_spot(&mut answer.line, &scene.asked, spot)?;
        push_location(&mut answer, &scene.drawing, triangulation, kept, *point)?;
        answer.end(scene, kept.drawn.polygons.is_some())?;
        writer.write_all(answer.line.as_bytes())?;
    }
    writer.flush()
}

/// Tells what each point that is asked about is on, by the numbers of points from 1, and its height
/// there, where the drawing has heights. Only faces count that are kept.
pub fn tell_locations<T: Triangulation<Vertex = Point2<i32>>>(
    rt: &HostRuntime,
    scene: &Scene,
    triangulation: &T,
    kept: &KeptFaces<'_>,
) -> anyhow::Result<()> {
    let mut writer = BufWriter::new(rt.alloc(), io::writer(rt))?;
    write_locations(&mut writer, scene, triangulation, kept, rt.alloc()).context("standard output")
}
