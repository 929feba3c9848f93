//! A triangulation of either type.

use crate::hints::Choosing;
use crate::vertices::TaggedVertex;
use delaunay_interface::{ConstrainedDelaunayTriangulation, DelaunayTriangulation, Triangulation};
use std::alloc::{AllocError, Global};

/// A triangulation without constraints, with a number on each edge and face.
pub type Plain<L> = DelaunayTriangulation<TaggedVertex, u32, u32, u32, L>;

/// The same with constraints.
pub type Constrained<L> = ConstrainedDelaunayTriangulation<TaggedVertex, u32, u32, u32, L>;

/// One of either type.
#[derive(Drop)]
pub enum Points<L: Choosing> {
    Plain(Plain<L>),
    Constrained(Constrained<L>),
}

impl<L: Choosing> Points<L> {
    /// No vertex, and no constraints.
    pub fn new(alloc: Global) -> Self {
        Points::Plain(Plain::new(alloc))
    }

    /// With constraints, of which there are none yet; or the same, where memory was refused.
    pub fn with_constraints(self) -> (Self, Result<(), AllocError>) {
        match self {
            Points::Plain(points) => match Constrained::from_delaunay(points) {
                Ok(points) => (Points::Constrained(points), Ok(())),
                Err(points) => (Points::Plain(points), Err(AllocError)),
            },
            Points::Constrained(points) => (Points::Constrained(points), Ok(())),
        }
    }

    /// The same once more.
    pub fn try_clone(&self) -> Result<Self, AllocError> {
        match self {
            Points::Plain(points) => Ok(Points::Plain(points.try_clone()?)),
            Points::Constrained(points) => Ok(Points::Constrained(points.try_clone()?)),
        }
    }

    /// What it asks for hints.
    pub fn generator(&self) -> &L {
        match self {
            Points::Plain(points) => points.hint_generator(),
            Points::Constrained(points) => points.hint_generator(),
        }
    }
}
