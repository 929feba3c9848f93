//! A triangulation of either type, which C keeps.
use crate::raw::NumberedPoint;
use delaunay_interface::{ConstrainedDelaunayTriangulation, DelaunayTriangulation};
use std::alloc::Global;

pub type PlainPoints = DelaunayTriangulation<NumberedPoint>;

pub type ConstrainedPoints = ConstrainedDelaunayTriangulation<NumberedPoint>;

/// A triangulation, plain or constrained.
#[derive(Drop)]
pub enum AnyTriangulation {
    Plain(PlainPoints),
    Constrained(ConstrainedPoints),
}
