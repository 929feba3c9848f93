//! What a file says.
ghost use Rattle.std.specs.Prelude.{◌≡◌, ◌<◌, ◌++◌, ◌∷◌, [], length, All, IfOk, OnOk};
ghost use Rattle.decimal_numbers.specs.Value.{SpellsTooLong};
ghost use Rattle.mesh_files.specs.Written.{HasEnds, IsAsWritten};

use crate::{FileFault, FileLine, Reason};
use decimal_numbers::{Decimal, DecimalError, LongDecimal};
use std::alloc::{AllocError, Global};

/// A number, and where it stands, as it came, in the text of its drawing.
#[derive(Clone, Copy)]
pub struct Number {
    pub decimal: Decimal,
    start: u32,
    end: u32,
}

impl Number {
    /// Whether two numbers are one, however they are spelled.
    pub(crate) fn is_equal(&self, other: &Number) -> bool {
        let (one, two) = (&self.decimal, &other.decimal);
        one.magnitude == two.magnitude
            && one.digits == two.digits
            && (one.negative == two.negative || one.magnitude == 0)
    }
}

/// A point, its line in the file, from 1, and its feature, from 1, if it is in one, else 0.
#[derive(Clone, Copy)]
pub struct Spot {
    pub x: Number,
    pub y: Number,
    pub line: u32,
    pub feature: u32,
}

impl Spot {
    pub(crate) fn new(x: Number, y: Number, at: FileLine) -> Self
        ensures x { result.x ≡ x }
        ensures y { result.y ≡ y }
    {
        let FileLine { line, feature } = at;
        Spot {
            x,
            y,
            line,
            feature,
        }
    }

    /// Where the point stands in the file.
    pub fn file_line(&self) -> FileLine {
        FileLine {
            line: self.line,
            feature: self.feature,
        }
    }
}

/// A segment between two points, by their indexes in the list, its line in the file, and its
/// feature, from 1, if it is in one, else 0.
#[derive(Clone, Copy)]
pub struct Segment {
    pub from: u32,
    pub to: u32,
    pub line: u32,
    pub feature: u32,
}

impl Segment {
    /// Where the segment stands in the file.
    pub fn file_line(&self) -> FileLine {
        FileLine {
            line: self.line,
            feature: self.feature,
        }
    }
}

/// A ring of a polygon: points next to one another in the list, from `start` up to `end`, each of
/// them joined to the next, and the last to the first. The rings of a feature are one polygon,
/// which has the feature's number; else a polygon has its own, from 1.
#[derive(Clone, Copy)]
pub struct Ring {
    pub start: u32,
    pub end: u32,
    pub is_hole: bool,
    pub polygon: u32,
}

/// The texts of numbers, one behind the other, and how exact those are that have more digits than
/// fit.
#[derive(Drop)]
pub(crate) struct NumberTexts {
    bytes: Vec<u8>,
    /// To how many digits behind the point each coordinate can be rounded.
    pub(crate) finest: u32,
    /// How many heights have more digits than fit.
    pub(crate) cut_heights: u64,
}

impl NumberTexts {
    /// Keeps the text of a number.
    fn keep(&mut self, decimal: Decimal, word: &[u8], at: FileLine) -> Result<Number, FileFault>
        ensures { IfOk result (λ n. n.decimal ≡ decimal) }
    {
        let start = self.bytes.len();
        self.bytes.extend_from_slice(word)?;
        let end = self.bytes.len();
        let most = u32::MAX as usize;
        if start > most || end > most {
            return Err(FileFault::at_line(at, Reason::TooMany));
        }
        Ok(Number {
            decimal,
            start: start as u32,
            end: end as u32,
        })
    }

    /// Takes a number in that no file has, and spells it.
    fn spell(&mut self, decimal: Decimal, at: FileLine) -> Result<Number, FileFault> {
        let mut word = String::new(*self.bytes.allocator());
        write!(word, "{decimal}")?;
        self.keep(decimal, word.as_bytes(), at)
    }

    /// Notes a number with more digits than fit, of which these are kept; `name` is what it is.
    fn note_cut(&mut self, decimal: Decimal, name: &'static str) {
        if name == "x" || name == "y" {
            self.finest = self.finest.min(decimal.digits.saturating_sub(1));
        } else {
            self.cut_heights = self.cut_heights.saturating_add(1);
        }
    }

    /// The number rounded to so many digits behind the point.
    pub(crate) fn rounded(
        &mut self,
        number: Number,
        digits: u32,
        at: FileLine,
    ) -> Result<Number, FileFault> {
        if number.decimal.digits <= digits {
            return Ok(number);
        }
        let decimal = number.decimal.rounded_to(digits).shortened();
        let mut word = String::new(*self.bytes.allocator());
        write!(word, "{decimal}")?;
        self.put_over(number, decimal, word.as_bytes(), at)
    }

    /// Puts the text of a number into the place of another, or behind all where it is longer.
    fn put_over(
        &mut self,
        old: Number,
        decimal: Decimal,
        word: &[u8],
        at: FileLine,
    ) -> Result<Number, FileFault> {
        let start = old.start as usize;
        let end = start.saturating_add(word.len());
        if end > old.end as usize {
            return self.keep(decimal, word, at);
        }
        for (i, byte) in (start..end).zip(word) {
            if let Some(slot) = self.bytes.get_mut(i) {
                *slot = *byte;
            }
        }
        Ok(Number {
            decimal,
            start: old.start,
            end: end as u32,
        })
    }
}

/// Points, their heights, segments between them, points in holes, and the rings of polygons.
#[derive(Drop)]
pub struct Drawing {
    pub spots: Vec<Spot>,
    /// The height of each point that has one. It is empty where none has.
    pub heights: Vec<Option<Number>>,
    pub segments: Vec<Segment>,
    pub holes: Vec<Spot>,
    pub rings: Vec<Ring>,
    pub(crate) texts: NumberTexts,
    left_out: String,
    open_rings: u32,
    first_open: FileLine,
    pub ghost ends_are_points: { All (HasEnds (length spots.items)) segments.items },
    pub ghost heights_are_of_points: { 0 < length heights.items
        → length heights.items ≡ length spots.items },
}

impl Drawing {
    ghost use Rattle.mesh_files.specs.Drawn.{AddsSpot, FillsHeights, HasNoNumbers, SameNumbers};

    /// Nothing yet.
    pub fn new(alloc: Global) -> Self
        ensures { HasNoNumbers result }
    {
        Drawing {
            spots: Vec::new(alloc),
            heights: Vec::new(alloc),
            segments: Vec::new(alloc),
            holes: Vec::new(alloc),
            rings: Vec::new(alloc),
            texts: NumberTexts {
                bytes: Vec::new(alloc),
                finest: u32::MAX,
                cut_heights: 0,
            },
            left_out: String::new(alloc),
            open_rings: 0,
            first_open: FileLine::of_line(0),
        }
    }

    /// Takes a number in that does not fit with all its digits; `name` is what it is.
    fn long_number(
        &mut self,
        word: &[u8],
        name: &'static str,
        at: FileLine,
    ) -> Result<Number, FileFault>
        requires { SpellsTooLong word.now }
        ensures written { IfOk result (λ n. IsAsWritten word.now n.decimal) }
        ensures same { OnOk result (SameNumbers self.old self.new) }
    {
        let Ok(long) = Decimal::parse_long(word) else {
            return Err(FileFault::at_line(at, Reason::TooLong(name)));
        };
        let LongDecimal { decimal, is_exact } = long;
        if is_exact {
            return self.texts.keep(decimal.shortened(), word, at);
        }
        if decimal.digits == 0 {
            return Err(FileFault::at_line(at, Reason::TooLong(name)));
        }
        let number = self.texts.keep(decimal, word, at)?;
        self.texts.note_cut(decimal, name);
        Ok(number)
    }

    /// Takes a number in; `name` is what it is.
    pub(crate) fn number(
        &mut self,
        word: &[u8],
        name: &'static str,
        at: FileLine,
    ) -> Result<Number, FileFault>
        ensures written { IfOk result (λ n. IsAsWritten word.now n.decimal) }
        ensures same { OnOk result (SameNumbers self.old self.new) }
    {
        let reason = match Decimal::parse(word) {
            Ok(decimal) => return self.texts.keep(decimal.shortened(), word, at),
            Err(DecimalError::Malformed) => Reason::NotNumber(name),
            Err(DecimalError::TooLong) => return self.long_number(word, name, at),
        };
        Err(FileFault::at_line(at, reason))
    }

    /// Gives each point an index for its height.
    fn fill_heights(&mut self) -> Result<(), AllocError>
        ensures { OnOk result (FillsHeights self.old self.new) }
    {
        if self.heights.is_empty() {
            let mut heights = Vec::new(*self.spots.allocator());
            heights.resize(self.spots.len(), None)?;
            self.heights = heights;
        }
        Ok(())
    }

    /// Takes a point in, with its height if it has one.
    pub(crate) fn add_spot(&mut self, spot: Spot, height: Option<Number>) -> Result<(), FileFault>
        ensures { OnOk result (AddsSpot spot height self.old self.new) }
    {
        if height.is_none() && self.heights.is_empty() {
            self.spots.push(spot)?;
            return Ok(());
        }
        self.fill_heights()?;
        self.spots.reserve(1)?;
        self.heights.push(height)?;
        self.spots.push_reserved(spot);
        Ok(())
    }

    /// Takes a point in that no file has, with its height where points have heights. It stands
    /// where the segment stands for which it was made.
    pub(crate) fn add_made(
        &mut self,
        [x, y]: [Decimal; 2],
        height: Option<Decimal>,
        at: FileLine,
    ) -> Result<(), FileFault> {
        let spot = Spot::new(self.texts.spell(x, at)?, self.texts.spell(y, at)?, at);
        let height = match height {
            Some(height) => Some(self.texts.spell(height, at)?),
            None => None,
        };
        self.add_spot(spot, height)
    }

    /// Asks for a point by its index in the list.
    fn check_point(&self, point: u32, at: FileLine) -> Result<(), FileFault>
        ensures { OnOk result (point < length self.now.spots.items) }
    {
        if (point as usize) < self.spots.len() {
            return Ok(());
        }
        Err(FileFault::at_line(at, Reason::NoPoint(u64::from(point))))
    }

    /// Takes a segment in whose ends are points.
    pub(crate) fn join(&mut self, from: u32, to: u32, at: FileLine) -> Result<(), FileFault>
        ensures { OnOk result (SameNumbers self.old self.new) }
    {
        self.check_point(from, at)?;
        self.check_point(to, at)?;
        let FileLine { line, feature } = at;
        self.segments.push(Segment {
            from,
            to,
            line,
            feature,
        })?;
        Ok(())
    }

    /// Takes a ring of points in, from one index up to another.
    pub(crate) fn add_ring(&mut self, start: u32, end: u32, is_hole: bool) -> Result<(), AllocError>
        ensures { OnOk result (SameNumbers self.old self.new) }
    {
        let feature = match self.spots.get(start as usize) {
            Some(spot) => spot.feature,
            None => 0,
        };
        let last = match self.rings.last() {
            Some(ring) => ring.polygon,
            None => 0,
        };
        let polygon = if feature > 0 {
            feature
        } else {
            last.saturating_add(u32::from(!is_hole))
        };
        self.rings.push(Ring {
            start,
            end,
            is_hole,
            polygon,
        })?;
        Ok(())
    }

    /// The index that the next point has in the list.
    pub(crate) fn next_index(&self, at: FileLine) -> Result<u32, FileFault> {
        match u32::try_from(self.spots.len()) {
            Ok(next) => Ok(next),
            Err(_) => Err(FileFault::at_line(at, Reason::TooMany)),
        }
    }

    /// Notes what of the file is left out.
    pub(crate) fn leave_out(&mut self, name: &str) -> Result<(), AllocError>
        ensures { OnOk result (SameNumbers self.old self.new) }
    {
        if !self.left_out.is_empty() {
            self.left_out.push_str(", ")?;
        }
        self.left_out.push_str(name)
    }

    /// Notes a ring that does not end where it began, and is closed.
    pub(crate) fn note_open_ring(&mut self, at: FileLine)
        ensures { SameNumbers self.old self.new }
    {
        if self.open_rings == 0 {
            self.first_open = at;
        }
        self.open_rings = self.open_rings.saturating_add(1);
    }

    /// How many rings were closed that do not end where they began, and the fault that the first of
    /// them is, if there are any.
    pub fn open_rings(&self) -> Option<(u32, FileFault)> {
        if self.open_rings == 0 {
            return None;
        }
        let fault = FileFault::at_line(self.first_open, Reason::OpenRing);
        Some((self.open_rings, fault))
    }

    /// What of the file is left out, by names with commas between them, if anything is.
    pub fn left_out(&self) -> Option<&str> {
        if self.left_out.is_empty() {
            None
        } else {
            Some(self.left_out.as_str())
        }
    }

    /// The height of the point at an index, if it has one.
    pub fn height(&self, index: usize) -> Option<Number> {
        self.heights.get(index).copied().flatten()
    }

    /// How many points have no height where others have one, and the fault that the first of them
    /// is, if there are any.
    pub fn without_height(&self) -> Option<(u32, FileFault)> {
        let (mut count, mut first) = (0u32, None);
        for (spot, height) in self.spots.iter().zip(&self.heights) {
            if height.is_none() {
                count = count.saturating_add(1);
                if first.is_none() {
                    first = Some(spot.file_line());
                }
            }
        }
        Some((count, FileFault::at_line(first?, Reason::NoHeight)))
    }

    /// How many heights have more digits than fit.
    pub fn cut_heights(&self) -> u64 {
        self.texts.cut_heights
    }

    /// A number as it came, or as it was rounded.
    pub fn text_of(&self, number: &Number) -> &[u8] {
        self.texts
            .bytes
            .get(number.start as usize..number.end as usize)
            .unwrap_or(&[])
    }
}
