//! What crosses between C and the library, field by field as include/tevasulim.h has it.
use delaunay_core::point::{HasPosition, Point2};

/// A point.
#[repr(C)]
#[derive(Clone, Copy)]
pub struct RawPoint {
    pub x: i32,
    pub y: i32,
}

/// Two points or vertices, by their indexes.
#[repr(C)]
#[derive(Clone, Copy)]
pub struct RawSegment {
    pub from: u32,
    pub to: u32,
}

/// A face: its corners, the faces opposite them, and whether the edges opposite them are
/// constraints.
#[repr(C)]
#[derive(Clone, Copy)]
pub struct RawFace {
    pub corner_0: u32,
    pub corner_1: u32,
    pub corner_2: u32,
    pub neighbor_0: u32,
    pub neighbor_1: u32,
    pub neighbor_2: u32,
    pub constrained_0: u32,
    pub constrained_1: u32,
    pub constrained_2: u32,
}

/// An edge: its ends, and whether it is a constraint.
#[repr(C)]
#[derive(Clone, Copy)]
pub struct RawEdge {
    pub from: u32,
    pub to: u32,
    pub constrained: u32,
}

/// Where a point is.
#[repr(C)]
#[derive(Clone, Copy)]
pub struct RawLocation {
    pub kind: u32,
    pub index: u32,
}

/// What a line meets.
#[repr(C)]
#[derive(Clone, Copy)]
pub struct RawMeeting {
    pub kind: u32,
    pub from: u32,
    pub to: u32,
    pub constrained: u32,
}

/// A closed circle or rectangle, by its kind.
#[repr(C)]
#[derive(Clone, Copy)]
pub struct RawShape {
    pub kind: u32,
    pub first: RawPoint,
    pub second: RawPoint,
    pub radius_2: i64,
}

/// The sides of a box. One that is `i32::MIN` at the left or bottom, or `i32::MAX` at the right or
/// top, is nowhere.
#[repr(C)]
#[derive(Clone, Copy)]
pub struct RawBox {
    pub left: i32,
    pub bottom: i32,
    pub right: i32,
    pub top: i32,
}

/// How many elements a triangulation has.
#[repr(C)]
#[derive(Clone, Copy)]
pub struct RawCounts {
    pub vertices: u64,
    pub edges: u64,
    pub faces: u64,
    pub constraints: u64,
}

/// A vertex: a position, and a number of the caller's.
#[derive(Clone, Copy)]
pub struct NumberedPoint {
    pub position: Point2<i32>,
    pub number: u64,
}

impl HasPosition for NumberedPoint {
    type Scalar = i32;

    ghost place = { λ p. ⟦<Point2<i32> as HasPosition>⟧.place p.position };

    fn position(&self) -> Point2<i32> {
        self.position
    }
}
