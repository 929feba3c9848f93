//! A mesh that is to be written, and its forms.
use crate::neighbours::{NO_FACE, neighbours_of};
use crate::{Drawing, Number, Records, Scaled};
use std::alloc::{AllocError, Global};
use std::io;
use std::io::Write;

/// The form of a text.
#[derive(Clone, Copy, Debug, PartialEq, Eq)]
pub enum Form {
    Obj,
    Ply,
    GeoJson,
    Svg,
    Ele,
    Node,
    Csv,
    Stl,
    Poly,
    Neigh,
}

impl Form {
    /// The form of this name, which is also what files of the form end in.
    pub fn named(name: &str) -> Option<Self> {
        match name {
            "obj" => Some(Form::Obj),
            "ply" => Some(Form::Ply),
            "geojson" => Some(Form::GeoJson),
            "svg" => Some(Form::Svg),
            "ele" => Some(Form::Ele),
            "node" => Some(Form::Node),
            "csv" => Some(Form::Csv),
            "stl" => Some(Form::Stl),
            "poly" => Some(Form::Poly),
            "neigh" => Some(Form::Neigh),
            _ => None,
        }
    }
}

/// What of a mesh lines of a text are for.
#[derive(Clone, Copy)]
enum Part {
    Head,
    Points,
    Faces,
    ConstraintHead,
    Constraints,
    Tail,
}

/// The parts of a text, in order.
const PARTS: [Part; 6] = [
    Part::Head,
    Part::Points,
    Part::Faces,
    Part::ConstraintHead,
    Part::Constraints,
    Part::Tail,
];

/// The points that are written where not all are.
#[derive(Clone, Copy)]
pub struct WrittenPoints<'a> {
    /// Their indexes, in order.
    pub indexes: &'a [u32],
    /// Of each point of the drawing how many of these stand before it.
    pub ranks: &'a [u32],
}

/// The polygons that each face is in, by their numbers, those of a face one behind the other.
#[derive(Clone, Copy)]
pub struct FacePolygons<'a> {
    /// Of each face where its numbers begin, and where those of the last end.
    pub starts: &'a [u32],
    pub numbers: &'a [u32],
    /// What the file says of polygons, where that is written.
    pub records: Option<&'a Records>,
}

impl<'a> FacePolygons<'a> {
    /// What the numbers of polygons are called.
    pub fn number_name(&self) -> &'static str {
        match self.records {
            Some(records) => records.number_name(),
            None => "polygon",
        }
    }

    /// The numbers of a face's polygons.
    pub fn of(&self, face: usize) -> &'a [u32] {
        let start = self.starts.get(face).copied().unwrap_or(0) as usize;
        let end = self.starts.get(face.saturating_add(1));
        let end = end.copied().unwrap_or(0) as usize;
        self.numbers.get(start..end).unwrap_or(&[])
    }
}

/// A mesh that is to be written: a drawing, faces by the indexes of their corners in its list of
/// points, and in the same way the edges that are constraints. A picture has this width, in pixels.
#[derive(Drop)]
pub struct MeshText<'a> {
    pub drawing: &'a Drawing,
    pub scaled: &'a Scaled,
    /// The points that are written, where not all are.
    pub points: Option<WrittenPoints<'a>>,
    /// Which polygons each face is in, where the drawing has polygons.
    pub polygons: Option<FacePolygons<'a>>,
    pub faces: &'a [[u32; 3]],
    pub constraints: &'a [[u32; 2]],
    pub width: u32,
}

/// Puts the number of a face behind a line, or -1 where there is none.
fn push_neighbour(line: &mut String, face: u32) -> Result<(), AllocError> {
    if face == NO_FACE {
        return line.push_str(" -1");
    }
    let number = u64::from(face).saturating_add(1);
    write!(line, " {number}")
}

impl MeshText<'_> {
    /// How many points are written.
    fn point_count(&self) -> usize {
        match self.points {
            Some(points) => points.indexes.len(),
            None => self.drawing.spots.len(),
        }
    }

    /// The index in the drawing of a point that is written.
    fn index_at(&self, index: usize) -> usize {
        match self.points {
            Some(points) => points.indexes.get(index).copied().unwrap_or(u32::MAX) as usize,
            None => index,
        }
    }

    /// The number that a point has in this form: from 0 in `ply`, else from 1.
    pub(crate) fn number_of(&self, form: Form, index: u32) -> u64 {
        let index = match self.points {
            Some(points) => points.ranks.get(index as usize).copied().unwrap_or(index),
            None => index,
        };
        u64::from(index).saturating_add(u64::from(form != Form::Ply))
    }

    /// Puts a number behind a line, as it came.
    fn push_number(&self, line: &mut String, number: Number) -> Result<(), AllocError> {
        match str::from_utf8(self.drawing.text_of(&number)) {
            Ok(text) => line.push_str(text),
            Err(_) => Ok(()),
        }
    }

    /// Puts the numbers of a point behind a line, as they came, and 0 for a height that is needed
    /// where there is none.
    fn push_point(
        &self,
        line: &mut String,
        index: usize,
        needs_height: bool,
    ) -> Result<(), AllocError> {
        if let Some(spot) = self.drawing.spots.get(index).copied() {
            self.push_number(line, spot.x)?;
            line.push(' ')?;
            self.push_number(line, spot.y)?;
        }
        match self.drawing.height(index) {
            Some(height) => {
                line.push(' ')?;
                self.push_number(line, height)
            }
            None if needs_height => line.push_str(" 0"),
            None => Ok(()),
        }
    }

    /// Puts a point's line behind a line, which has what stands before its numbers.
    fn push_point_line(
        &self,
        form: Form,
        line: &mut String,
        index: usize,
    ) -> Result<(), AllocError> {
        match form {
            Form::Obj => line.push_str("v ")?,
            Form::Node | Form::Poly => {
                let number = index.saturating_add(1);
                write!(line, "{number} ")?;
            }
            _ => {}
        }
        let index = if form == Form::Stl {
            index
        } else {
            self.index_at(index)
        };
        let is_list = matches!(form, Form::Node | Form::Poly);
        self.push_point(line, index, !is_list || !self.drawing.heights.is_empty())?;
        line.push('\n')
    }

    /// Puts a constraint behind a line, by the numbers of its ends or, in GeoJSON, as a line.
    fn push_segment(&self, form: Form, line: &mut String, index: usize) -> Result<(), AllocError> {
        let Some([from, to]) = self.constraints.get(index) else {
            return Ok(());
        };
        let (a, b) = (self.number_of(form, *from), self.number_of(form, *to));
        match form {
            Form::Obj => writeln!(line, "l {a} {b}"),
            Form::Ply => writeln!(line, "{a} {b}"),
            Form::GeoJson => {
                let is_first = index == 0 && self.faces.is_empty();
                line.push_str(if is_first { "\n" } else { ",\n" })?;
                self.push_line_string(line, [*from, *to])
            }
            _ => {
                let number = index.saturating_add(1);
                writeln!(line, "{number} {a} {b}")
            }
        }
    }

    /// Puts the corners of a face behind a line, as a facet of a solid.
    pub(crate) fn push_facet(&self, line: &mut String, face: &[u32; 3]) -> Result<(), AllocError> {
        line.push_str("facet normal 0 0 0\nouter loop\n")?;
        for corner in face {
            line.push_str("vertex ")?;
            self.push_point_line(Form::Stl, line, *corner as usize)?;
        }
        line.push_str("endloop\nendfacet\n")
    }

    /// Writes which faces are next to each.
    fn write_neighbours<W: Write>(&self, writer: &mut W, alloc: Global) -> io::Result<()> {
        let mut line = String::new(alloc);
        self.push_ele_head(&mut line)?;
        let neighbours = neighbours_of(self.faces, alloc)?;
        for (index, row) in neighbours.iter().enumerate() {
            let number = index.saturating_add(1);
            write!(line, "{number}")?;
            for face in row {
                push_neighbour(&mut line, *face)?;
            }
            line.push('\n')?;
            writer.write_all(line.as_bytes())?;
            line.clear();
        }
        writer.write_all(line.as_bytes())
    }

    fn push_ply_head(&self, line: &mut String) -> Result<(), AllocError> {
        let (points, faces) = (self.point_count(), self.faces.len());
        writeln!(line, "ply\nformat ascii 1.0\nelement vertex {points}")?;
        line.push_str("property double x\nproperty double y\nproperty double z\n")?;
        writeln!(line, "element face {faces}")?;
        line.push_str("property list uchar uint vertex_indices\n")?;
        let edges = self.constraints.len();
        if edges > 0 {
            writeln!(line, "element edge {edges}")?;
            line.push_str("property int vertex1\nproperty int vertex2\n")?;
        }
        line.push_str("end_header\n")
    }

    fn push_node_head(&self, line: &mut String) -> Result<(), AllocError> {
        let count = self.point_count();
        let attributes = u8::from(!self.drawing.heights.is_empty());
        writeln!(line, "{count} 2 {attributes} 0")
    }

    fn push_ele_head(&self, line: &mut String) -> Result<(), AllocError> {
        let count = self.faces.len();
        writeln!(line, "{count} 3 0")
    }

    fn push_csv_head(&self, line: &mut String) -> Result<(), AllocError> {
        line.push_str("a,b,c,area")?;
        if let Some(polygons) = &self.polygons {
            let name = polygons.number_name();
            write!(line, ",{name}")?;
            if let Some(records) = polygons.records {
                records.push_names(line)?;
            }
        }
        line.push('\n')
    }

    fn push_head(&self, form: Form, line: &mut String) -> Result<(), AllocError> {
        match form {
            Form::Obj => Ok(()),
            Form::Ply => self.push_ply_head(line),
            Form::GeoJson => line.push_str("{\"type\":\"FeatureCollection\",\"features\":["),
            Form::Svg => self.push_svg_head(line),
            Form::Ele | Form::Neigh => self.push_ele_head(line),
            Form::Node | Form::Poly => self.push_node_head(line),
            Form::Stl => line.push_str("solid mesh\n"),
            Form::Csv => self.push_csv_head(line),
        }
    }

    /// How many lines a part has.
    fn count(&self, form: Form, part: Part) -> usize {
        match (part, form) {
            (Part::Head, _) => 1,
            (Part::Points, Form::Obj | Form::Ply | Form::Node | Form::Poly) => {
                self.point_count()
            }
            (Part::Faces, Form::Node | Form::Poly) => 0,
            (Part::Faces, _) => self.faces.len(),
            (Part::Constraints, Form::Svg | Form::Poly | Form::Obj | Form::Ply) => {
                self.constraints.len()
            }
            (Part::Constraints, Form::GeoJson) => self.constraints.len(),
            (Part::ConstraintHead, Form::Svg | Form::Poly) => 1,
            (Part::Tail, Form::GeoJson | Form::Svg | Form::Stl | Form::Poly) => 1,
            _ => 0,
        }
    }

    /// Puts a line of a part behind a line.
    fn push_line(
        &self,
        form: Form,
        part: Part,
        index: usize,
        line: &mut String,
    ) -> Result<(), AllocError> {
        match part {
            Part::Head => self.push_head(form, line),
            Part::Points => self.push_point_line(form, line, index),
            Part::Faces => self.push_face_line(form, line, index),
            Part::ConstraintHead if form == Form::Poly => {
                let count = self.constraints.len();
                writeln!(line, "{count} 0")
            }
            Part::ConstraintHead => self.push_constraint_head(line),
            Part::Constraints if form == Form::Svg => self.push_constraint(line, index),
            Part::Constraints => self.push_segment(form, line, index),
            Part::Tail => line.push_str(match form {
                Form::Svg => "</g>\n</svg>\n",
                Form::Stl => "endsolid mesh\n",
                Form::Poly => "0\n",
                _ => "\n]}\n",
            }),
        }
    }

    /// Writes the mesh in this form.
    pub fn write<W: Write>(&self, form: Form, writer: &mut W, alloc: Global) -> io::Result<()> {
        if form == Form::Neigh {
            return self.write_neighbours(writer, alloc);
        }
        let mut line = String::new(alloc);
        for part in PARTS {
            for index in 0..self.count(form, part) {
                line.clear();
                self.push_line(form, part, index, &mut line)?;
                writer.write_all(line.as_bytes())?;
            }
        }
        Ok(())
    }
}
