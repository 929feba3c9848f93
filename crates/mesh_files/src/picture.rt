//! A mesh as a picture: faces with thin edges, and constraints with thick ones.
use crate::MeshText;
use decimal_numbers::Decimal;
use std::alloc::AllocError;

/// The part of the plane that a picture shows, in whole coordinates, with y downwards.
#[derive(Clone, Copy)]
struct Frame {
    left: i64,
    top: i64,
    width: i64,
    height: i64,
}

impl Frame {
    /// The width of lines: so many thousandths of the picture's greater side.
    fn line_width(&self, thousandths: u64) -> Decimal {
        Decimal {
            negative: false,
            magnitude: self
                .width
                .max(self.height)
                .unsigned_abs()
                .saturating_mul(thousandths),
            digits: 3,
        }
    }
}

impl MeshText<'_> {
    fn frame(&self) -> Frame {
        let mut ends = None;
        for point in &self.scaled.points {
            let (x, y) = (i64::from(point.x), i64::from(point.y).wrapping_neg());
            ends = match ends {
                None => Some((x, x, y, y)),
                Some((left, right, top, bottom)) => {
                    Some((x.min(left), x.max(right), y.min(top), y.max(bottom)))
                }
            };
        }
        let (left, right, top, bottom) = ends.unwrap_or((0, 0, 0, 0));
        let (width, height) = (right.wrapping_sub(left), bottom.wrapping_sub(top));
        let margin = width.max(height) / 50 + 1;
        Frame {
            left: left.wrapping_sub(margin),
            top: top.wrapping_sub(margin),
            width: width.wrapping_add(margin.wrapping_mul(2)),
            height: height.wrapping_add(margin.wrapping_mul(2)),
        }
    }

    fn push_corner(&self, line: &mut String, index: u32) -> Result<(), AllocError> {
        if let Some(point) = self.scaled.points.get(index as usize) {
            let (x, y) = (point.x, i64::from(point.y).wrapping_neg());
            write!(line, "{x},{y} ")?;
        }
        Ok(())
    }

    pub(crate) fn push_svg_face(
        &self,
        line: &mut String,
        [a, b, c]: &[u32; 3],
    ) -> Result<(), AllocError> {
        line.push_str("<polygon points=\"")?;
        self.push_corner(line, *a)?;
        self.push_corner(line, *b)?;
        self.push_corner(line, *c)?;
        line.push_str("\"/>\n")
    }

    /// Puts the line of a constraint behind a line.
    pub(crate) fn push_constraint(
        &self,
        line: &mut String,
        index: usize,
    ) -> Result<(), AllocError> {
        let Some([a, b]) = self.constraints.get(index) else {
            return Ok(());
        };
        line.push_str("<polyline points=\"")?;
        self.push_corner(line, *a)?;
        self.push_corner(line, *b)?;
        line.push_str("\"/>\n")
    }

    // Lines are as thick on the screen whatever the coordinates are.
    pub(crate) fn push_svg_head(&self, line: &mut String) -> Result<(), AllocError> {
        let frame = self.frame();
        let Frame {
            left,
            top,
            width,
            height,
        } = frame;
        let pixels = self.width;
        let thin = frame.line_width(1);
        line.push_str("<svg xmlns=\"http://www.w3.org/2000/svg\" ")?;
        writeln!(
            line,
            "viewBox=\"{left} {top} {width} {height}\" width=\"{pixels}\">"
        )?;
        line.push_str("<g fill=\"#eef3f8\" stroke=\"#456\" stroke-linejoin=\"round\" ")?;
        writeln!(line, "stroke-width=\"{thin}\">")
    }

    pub(crate) fn push_constraint_head(&self, line: &mut String) -> Result<(), AllocError> {
        let thick = self.frame().line_width(3);
        writeln!(
            line,
            "</g>\n<g fill=\"none\" stroke=\"#c30\" stroke-width=\"{thick}\">"
        )
    }
}
