//! The whole coordinates of a drawing.
use crate::drawing::NumberTexts;
use crate::{Drawing, FileFault, FileLine, Moves, Number, Reason, Spot};
use decimal_numbers::{Decimal, Scale, ScaleError};
use delaunay_core::point::Point2;
use std::alloc::Global;

/// How far apart coordinates may be.
const RANGE: i64 = 1 << 30;

/// Points of whole coordinates, and what they stand for.
#[derive(Drop)]
pub struct Scaled {
    pub points: Vec<Point2<i32>>,
    pub holes: Vec<Point2<i32>>,
    pub x_scale: Scale,
    pub y_scale: Scale,
    /// Which numbers were rounded.
    pub moves: Moves,
}

/// The number that a coordinate stands for.
fn number_at(scale: &Scale, coordinate: i32) -> Decimal {
    let units = scale.origin.saturating_add(i64::from(coordinate));
    let number = Decimal {
        negative: units < 0,
        magnitude: units.unsigned_abs(),
        digits: scale.digits,
    };
    number.shortened()
}

impl Scaled {
    /// The numbers that the coordinates of a point stand for.
    pub fn numbers_at(&self, point: Point2<i32>) -> [Decimal; 2] {
        [
            number_at(&self.x_scale, point.x),
            number_at(&self.y_scale, point.y),
        ]
    }

    /// Adds a point that no file has, behind the others, to the drawing too: with its height where
    /// points have heights, for a segment that stands there.
    pub fn add_made(
        &mut self,
        drawing: &mut Drawing,
        point: Point2<i32>,
        height: Option<Decimal>,
        at: FileLine,
    ) -> Result<(), FileFault> {
        drawing.add_made(self.numbers_at(point), height, at)?;
        self.points.push(point)?;
        Ok(())
    }
}

/// Whether numbers are rounded to as many digits behind the point as fit, are rounded to so many,
/// or have to be exact.
#[derive(Clone, Copy)]
pub enum Rounding {
    Fit,
    Exact,
    To(u32),
}

/// One of the two coordinates.
#[derive(Clone, Copy)]
enum Axis {
    X,
    Y,
}

impl Axis {
    fn name(self) -> &'static str {
        match self {
            Axis::X => "x",
            Axis::Y => "y",
        }
    }

    fn number(self, spot: &Spot) -> Number {
        match self {
            Axis::X => spot.x,
            Axis::Y => spot.y,
        }
    }
}

/// A number in units of the last of so many digits behind the point, to which it is rounded, if
/// there are not too many.
fn units_of(decimal: &Decimal, digits: u32) -> Option<i64> {
    match decimal.rounded_to(digits).times_power(digits) {
        Ok(units) => Some(units),
        Err(_) => None,
    }
}

/// The least and the greatest number of points, in units of the last of so many digits.
#[derive(Clone, Copy)]
struct Ends {
    least: i64,
    most: i64,
}

impl Ends {
    /// How far it is from the least to the greatest.
    fn span(&self) -> i64 {
        self.most.saturating_sub(self.least)
    }

    /// The ends with another number between them.
    fn with(ends: Option<Ends>, units: i64) -> Ends {
        match ends {
            None => Ends {
                least: units,
                most: units,
            },
            Some(ends) => Ends {
                least: ends.least.min(units),
                most: ends.most.max(units),
            },
        }
    }

    /// The ends of a coordinate of points and those before, if none has too many units.
    fn of(axis: Axis, spots: &[Spot], digits: u32, before: Option<Ends>) -> Option<Option<Ends>> {
        let mut ends = before;
        for spot in spots {
            let units = units_of(&axis.number(spot).decimal, digits)?;
            ends = Some(Ends::with(ends, units));
        }
        Some(ends)
    }
}

/// The ends of a coordinate of all points of a drawing.
fn axis_ends(axis: Axis, drawing: &Drawing, digits: u32) -> Option<Ends> {
    let ends = Ends::of(axis, drawing.spots.as_slice(), digits, None)?;
    let ends = Ends::of(axis, drawing.holes.as_slice(), digits, ends)?;
    Some(ends.unwrap_or(Ends { least: 0, most: 0 }))
}

/// How far apart the points of a drawing are, if they fit with so many digits.
fn fitting_span(drawing: &Drawing, digits: u32) -> Option<i64> {
    let x = axis_ends(Axis::X, drawing, digits)?;
    let y = axis_ends(Axis::Y, drawing, digits)?;
    let span = x.span().max(y.span());
    if span <= RANGE { Some(span) } else { None }
}

/// How many digits more surely fit where points are so far apart; one at least is to be tried.
fn surely_more(span: i64) -> u32 {
    let mut span = span.saturating_add(1).saturating_mul(10);
    for more in 0..10 {
        if span > RANGE {
            return more.max(1);
        }
        span = span.saturating_mul(10);
    }
    10
}

/// The most digits behind the point, and no more than so many, to which the numbers of a drawing
/// can be rounded.
fn most_fitting(drawing: &Drawing, upper: u32) -> Option<u32> {
    if fitting_span(drawing, upper).is_some() {
        return Some(upper);
    }
    let mut found = None;
    let mut digits = 0u32;
    for _ in 0..upper {
        let Some(span) = fitting_span(drawing, digits) else {
            break;
        };
        found = Some(digits);
        digits = digits.saturating_add(surely_more(span));
        if digits >= upper {
            break;
        }
    }
    found
}

/// Rounds a point, and notes how far that moves it.
fn round_spot(
    texts: &mut NumberTexts,
    spot: &mut Spot,
    digits: u32,
    moves: &mut Moves,
) -> Result<(), FileFault> {
    let at = spot.file_line();
    moves.note(&spot.x.decimal, digits, texts.finest);
    moves.note(&spot.y.decimal, digits, texts.finest);
    spot.x = texts.rounded(spot.x, digits, at)?;
    spot.y = texts.rounded(spot.y, digits, at)?;
    Ok(())
}

/// Rounds points, and notes how far that moves them.
fn round_all(
    texts: &mut NumberTexts,
    spots: &mut [Spot],
    digits: u32,
    moves: &mut Moves,
) -> Result<(), FileFault> {
    for spot in spots {
        round_spot(texts, spot, digits, moves)?;
    }
    Ok(())
}

/// Rounds the points of a drawing.
fn round(drawing: &mut Drawing, digits: u32) -> Result<Moves, FileFault> {
    let mut moves = Moves::new(digits);
    round_all(
        &mut drawing.texts,
        drawing.spots.as_mut_slice(),
        digits,
        &mut moves,
    )?;
    round_all(
        &mut drawing.texts,
        drawing.holes.as_mut_slice(),
        digits,
        &mut moves,
    )?;
    Ok(moves)
}

/// The most digits behind the point of any number of points.
pub fn most_digits(spots: &[Spot]) -> u32 {
    let mut digits = 0;
    for spot in spots {
        digits = digits.max(spot.x.decimal.digits).max(spot.y.decimal.digits);
    }
    digits
}

/// The most digits behind the point of any coordinate of a drawing.
fn digits_of(drawing: &Drawing) -> u32 {
    most_digits(drawing.spots.as_slice()).max(most_digits(drawing.holes.as_slice()))
}

fn points_of(
    spots: &[Spot],
    x_scale: &Scale,
    y_scale: &Scale,
    fitting: Option<u32>,
    alloc: Global,
) -> Result<Vec<Point2<i32>>, FileFault> {
    let mut points = Vec::with_capacity(alloc, spots.len())?;
    for spot in spots {
        let x = coordinate_of(Axis::X, spot, x_scale, fitting)?;
        let y = coordinate_of(Axis::Y, spot, y_scale, fitting)?;
        points.push(Point2::new(x, y))?;
    }
    Ok(points)
}

/// A coordinate of a point. Where it has none, so many digits would fit.
fn coordinate_of(
    axis: Axis,
    spot: &Spot,
    scale: &Scale,
    fitting: Option<u32>,
) -> Result<i32, FileFault> {
    let reason = match scale.coordinate(&axis.number(spot).decimal) {
        Ok(coordinate) => return Ok(coordinate),
        Err(ScaleError::TooFine) => Reason::TooFine(axis.name(), fitting.unwrap_or(0)),
        Err(ScaleError::TooFar) => Reason::TooFar(axis.name(), scale.digits, fitting),
    };
    Err(FileFault::at_line(spot.file_line(), reason))
}

/// A coordinate of the first point, in units of the last of so many digits, if it has not too many.
fn first_units(axis: Axis, drawing: &Drawing, digits: u32) -> Option<i64> {
    units_of(&axis.number(drawing.spots.first()?).decimal, digits)
}

/// The scale of one coordinate of a drawing. Where the points are too far apart, it has its 0 at
/// the first of them.
fn scale_of(axis: Axis, drawing: &Drawing, digits: u32) -> Scale {
    match axis_ends(axis, drawing, digits) {
        Some(ends) if ends.span() <= RANGE => Scale::between(digits, ends.least, ends.most),
        _ => Scale {
            origin: first_units(axis, drawing, digits).unwrap_or(0),
            digits,
        },
    }
}

/// The place of the first number that has more digits behind the point, and why it does not fit.
fn finer_fault(drawing: &Drawing, digits: u32) -> Option<FileFault> {
    for spot in drawing.spots.iter().chain(&drawing.holes) {
        let axis = if spot.x.decimal.digits > digits {
            Axis::X
        } else if spot.y.decimal.digits > digits {
            Axis::Y
        } else {
            continue;
        };
        let reason = Reason::TooFine(axis.name(), digits);
        return Some(FileFault::at_line(spot.file_line(), reason));
    }
    None
}

/// To how many digits behind the point numbers are taken, and how many would fit.
#[derive(Clone, Copy)]
struct Fitting {
    needed: u32,
    fitting: Option<u32>,
}

impl Fitting {
    fn of(drawing: &Drawing) -> Self {
        let needed = digits_of(drawing);
        Fitting {
            needed,
            fitting: most_fitting(drawing, needed.min(drawing.texts.finest)),
        }
    }

    /// Whether not all digits fit, but some.
    fn is_less(&self) -> bool {
        match self.fitting {
            Some(fitting) => fitting < self.needed,
            None => false,
        }
    }
}

/// Rounds what is to be rounded, and refuses what may not be. It gives how many digits fit where
/// some do not.
fn round_as(
    drawing: &mut Drawing,
    rounding: Rounding,
    moves: &mut Moves,
) -> Result<Option<u32>, FileFault> {
    let needed = Fitting::of(drawing);
    let digits = match rounding {
        Rounding::To(digits) => digits.min(drawing.texts.finest),
        Rounding::Exact | Rounding::Fit if !needed.is_less() => return Ok(needed.fitting),
        Rounding::Fit => needed.fitting.unwrap_or(0),
        Rounding::Exact => {
            return match finer_fault(drawing, needed.fitting.unwrap_or(0)) {
                Some(fault) => Err(fault),
                None => Ok(needed.fitting),
            };
        }
    };
    *moves = round(drawing, digits)?;
    Ok(needed.fitting)
}

/// How many digits behind the point coordinates have where points that are asked about have so
/// many: those of the drawing, or more, where all fit.
fn scale_digits(drawing: &Drawing, asked: u32) -> u32 {
    let digits = digits_of(drawing);
    if asked <= digits {
        return digits;
    }
    match most_fitting(drawing, asked) {
        Some(fitting) => fitting.max(digits),
        None => digits,
    }
}

/// Gives each point of a drawing whole coordinates: its numbers times a power of ten that makes all
/// of them whole, moved where they are far from 0. Numbers are exact, or are rounded before. The
/// power is raised for points that are asked about, which have so many digits behind the point, as
/// far as there is room.
pub fn scale(
    drawing: &mut Drawing,
    rounding: Rounding,
    asked: u32,
    alloc: Global,
) -> Result<Scaled, FileFault> {
    let mut moves = Moves::new(0);
    let fitting = round_as(drawing, rounding, &mut moves)?;
    let digits = scale_digits(drawing, asked);
    let x_scale = scale_of(Axis::X, drawing, digits);
    let y_scale = scale_of(Axis::Y, drawing, digits);
    let (spots, holes) = (drawing.spots.as_slice(), drawing.holes.as_slice());
    Ok(Scaled {
        points: points_of(spots, &x_scale, &y_scale, fitting, alloc)?,
        holes: points_of(holes, &x_scale, &y_scale, fitting, alloc)?,
        x_scale,
        y_scale,
        moves,
    })
}
