//! Faces as tables with areas and as GeoJSON.
use crate::{FacePolygons, Form, MeshText, Named};
use decimal_numbers::Decimal;
use std::alloc::AllocError;

/// Puts numbers behind a line, with a separator between them.
fn push_numbers(line: &mut String, numbers: &[u32], separator: &str) -> Result<(), AllocError> {
    let mut before = "";
    for number in numbers {
        write!(line, "{before}{number}")?;
        before = separator;
    }
    Ok(())
}

impl MeshText<'_> {
    /// Twice the area of a face, in square units of the last digit.
    fn doubled_area(&self, [a, b, c]: &[u32; 3]) -> u64 {
        let points = &self.scaled.points;
        let corners = (
            points.get(*a as usize),
            points.get(*b as usize),
            points.get(*c as usize),
        );
        let (Some(a), Some(b), Some(c)) = corners else {
            return 0;
        };
        let (ax, ay) = (i64::from(a.x), i64::from(a.y));
        let (bx, by) = (
            i64::from(b.x).wrapping_sub(ax),
            i64::from(b.y).wrapping_sub(ay),
        );
        let (cx, cy) = (
            i64::from(c.x).wrapping_sub(ax),
            i64::from(c.y).wrapping_sub(ay),
        );
        bx.wrapping_mul(cy)
            .wrapping_sub(by.wrapping_mul(cx))
            .unsigned_abs()
    }

    /// The area of a face.
    fn area(&self, face: &[u32; 3]) -> Decimal {
        let digits = self.scaled.x_scale.digits;
        let area = Decimal {
            negative: false,
            magnitude: self.doubled_area(face).saturating_mul(5),
            digits: digits.saturating_mul(2).saturating_add(1),
        };
        area.shortened()
    }

    /// Puts the numbers of a face's corners behind a line, with what else the form has.
    fn push_corners(
        &self,
        form: Form,
        line: &mut String,
        index: usize,
        face: &[u32; 3],
    ) -> Result<(), AllocError> {
        let [a, b, c] = face.map(|corner| self.number_of(form, corner));
        match form {
            Form::Obj => writeln!(line, "f {a} {b} {c}"),
            Form::Ply => writeln!(line, "3 {a} {b} {c}"),
            Form::Csv => {
                let area = self.area(face);
                write!(line, "{a},{b},{c},{area}")?;
                self.push_polygon_fields(line, index)?;
                line.push('\n')
            }
            _ => {
                let number = index.saturating_add(1);
                writeln!(line, "{number} {a} {b} {c}")
            }
        }
    }

    /// Puts the numbers of a face's polygons behind a line, and their fields, where the drawing has
    /// polygons.
    fn push_polygon_fields(&self, line: &mut String, face: usize) -> Result<(), AllocError> {
        let Some(polygons) = self.polygons else {
            return Ok(());
        };
        line.push(',')?;
        push_numbers(line, polygons.of(face), " ")?;
        match polygons.records {
            Some(records) => {
                records.push_fields(line, self.drawing, Named::Polygons(polygons.of(face)))
            }
            None => Ok(()),
        }
    }

    /// Puts the number and the properties of the one polygon that a face is in behind a line.
    fn push_single(
        &self,
        line: &mut String,
        polygons: &FacePolygons<'_>,
        number: u32,
    ) -> Result<(), AllocError> {
        write!(line, "{number}")?;
        match polygons.records {
            Some(records) => records.push_members(line, self.drawing, number, ","),
            None => Ok(()),
        }
    }

    /// Puts the numbers and the properties of several polygons behind a line, as lists.
    fn push_several(
        &self,
        line: &mut String,
        polygons: &FacePolygons<'_>,
        numbers: &[u32],
    ) -> Result<(), AllocError> {
        line.push('[')?;
        push_numbers(line, numbers, ",")?;
        line.push(']')?;
        let Some(records) = polygons.records else {
            return Ok(());
        };
        let mut before = ",\"properties\":[{";
        for number in numbers {
            line.push_str(before)?;
            records.push_members(line, self.drawing, *number, "")?;
            before = "},{";
        }
        line.push_str(if numbers.is_empty() { "" } else { "}]" })
    }

    /// Puts the properties of a face behind a line: the numbers of its polygons and their
    /// properties, in lists where it is not in one alone.
    fn push_properties(&self, line: &mut String, face: usize) -> Result<(), AllocError> {
        let Some(polygons) = &self.polygons else {
            return line.push_str("{}");
        };
        let name = polygons.number_name();
        write!(line, "{{\"{name}\":")?;
        match polygons.of(face) {
            [number] => self.push_single(line, polygons, *number)?,
            numbers => self.push_several(line, polygons, numbers)?,
        }
        line.push('}')
    }

    /// Puts the numbers of a point behind a line, as JSON spells numbers.
    fn push_position(&self, line: &mut String, index: usize) -> Result<(), AllocError> {
        if let Some(spot) = self.drawing.spots.get(index) {
            let (x, y) = (spot.x.decimal, spot.y.decimal);
            write!(line, "{x},{y}")?;
        }
        if let Some(height) = self.drawing.height(index) {
            let z = height.decimal;
            write!(line, ",{z}")?;
        }
        Ok(())
    }

    /// Puts a face behind a line, as a polygon.
    fn push_polygon(
        &self,
        line: &mut String,
        index: usize,
        [a, b, c]: &[u32; 3],
    ) -> Result<(), AllocError> {
        line.push_str("{\"type\":\"Feature\",\"properties\":")?;
        self.push_properties(line, index)?;
        line.push_str(",\"geometry\":")?;
        line.push_str("{\"type\":\"Polygon\",\"coordinates\":[[[")?;
        for corner in [a, b, c] {
            self.push_position(line, *corner as usize)?;
            line.push_str("],[")?;
        }
        self.push_position(line, *a as usize)?;
        line.push_str("]]]}}")
    }

    /// Puts a constraint behind a line, as a line of GeoJSON.
    pub(crate) fn push_line_string(
        &self,
        line: &mut String,
        [from, to]: [u32; 2],
    ) -> Result<(), AllocError> {
        line.push_str("{\"type\":\"Feature\",\"properties\":{},\"geometry\":")?;
        line.push_str("{\"type\":\"LineString\",\"coordinates\":[[")?;
        self.push_position(line, from as usize)?;
        line.push_str("],[")?;
        self.push_position(line, to as usize)?;
        line.push_str("]]}}")
    }

    /// Puts a face's line behind a line.
    pub(crate) fn push_face_line(
        &self,
        form: Form,
        line: &mut String,
        index: usize,
    ) -> Result<(), AllocError> {
        let Some(face) = self.faces.get(index) else {
            return Ok(());
        };
        match form {
            Form::GeoJson => {
                line.push_str(if index == 0 { "\n" } else { ",\n" })?;
                self.push_polygon(line, index, face)
            }
            Form::Svg => self.push_svg_face(line, face),
            Form::Stl => self.push_facet(line, face),
            _ => self.push_corners(form, line, index, face),
        }
    }
}
