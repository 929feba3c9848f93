//! The side of a directed line.
ghost use Rattle.std.specs.Prelude.{◌≡◌, ◌≢◌, ◌↔◌, IsTrue};
ghost use Rattle.plane.specs.{left, on, opposite, right};

use std::marker::Model;

#[derive(Clone, Copy, Debug, PartialEq, Eq)]
enum Turn {
    Left,
    Right,
    OnLine,
}

/// The side of a directed line on which a point lies: left, right, or on the line.
///
/// ```
/// let side = LineSideInfo::left();
/// let other = side.reversed().is_on_right_side(); // true
/// let both = side.is_on_left_side_or_on_line(); // true
/// ```
#[derive(Clone, Copy, Debug, PartialEq, Eq)]
pub struct LineSideInfo {
    turn: Turn,
}

impl Model for LineSideInfo {
    ghost use Rattle.plane.specs.{Side};
    ghost use Rattle.delaunay_core.specs.Turned.{side_of, turn_of};

    ghost Value = { Side };

    ghost view = { λ s. side_of s.turn };

    ghost inverse = { λ s. record { turn = turn_of s } };
}

impl LineSideInfo {
    /// The point lies strictly on the left.
    pub const fn left() -> LineSideInfo
        ensures { result ≡ left }
    {
        LineSideInfo { turn: Turn::Left }
    }

    /// The point lies strictly on the right.
    pub const fn right() -> LineSideInfo
        ensures { result ≡ right }
    {
        LineSideInfo { turn: Turn::Right }
    }

    /// The point lies on the line, or the line's two points are one.
    pub const fn on_line() -> LineSideInfo
        ensures { result ≡ on }
    {
        LineSideInfo { turn: Turn::OnLine }
    }

    /// Whether the point lies strictly on the left.
    pub fn is_on_left_side(&self) -> bool
        ensures { IsTrue result ↔ (self.now ≡ left) }
    {
        matches!(self.turn, Turn::Left)
    }

    /// Whether the point lies strictly on the right.
    pub fn is_on_right_side(&self) -> bool
        ensures { IsTrue result ↔ (self.now ≡ right) }
    {
        matches!(self.turn, Turn::Right)
    }

    /// Whether the point lies on the left or on the line.
    pub fn is_on_left_side_or_on_line(&self) -> bool
        ensures { IsTrue result ↔ (self.now ≢ right) }
    {
        !matches!(self.turn, Turn::Right)
    }

    /// Whether the point lies on the right or on the line.
    pub fn is_on_right_side_or_on_line(self) -> bool
        ensures { IsTrue result ↔ (self ≢ left) }
    {
        !matches!(self.turn, Turn::Left)
    }

    /// Whether the point lies on the line, or the line's two points are one.
    pub fn is_on_line(self) -> bool
        ensures { IsTrue result ↔ (self ≡ on) }
    {
        matches!(self.turn, Turn::OnLine)
    }

    /// Left and right change places.
    pub fn reversed(self) -> LineSideInfo
        ensures { result ≡ opposite self }
    {
        match self.turn {
            Turn::Left => LineSideInfo::right(),
            Turn::Right => LineSideInfo::left(),
            Turn::OnLine => LineSideInfo::on_line(),
        }
    }
}
