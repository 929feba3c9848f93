//! Copies of a triangulation that C keeps.
ghost use Rattle.std.specs.Prelude.{◌≡◌, IfOk, IfSome};
ghost use Rattle.c_calls.specs.Kept.{IsKeptDelaunay};

use crate::kept::AnyTriangulation;
use std::alloc::{AllocError, Global};

impl AnyTriangulation {
    /// The same triangulation once more.
    pub fn try_clone(&self) -> Result<AnyTriangulation, AllocError>
        ensures same { IfOk result (λ copy. copy ≡ self.now) }
        ensures headline { IfOk result IsKeptDelaunay }
    {
        match self {
            AnyTriangulation::Plain(points) => Ok(AnyTriangulation::Plain(points.try_clone()?)),
            AnyTriangulation::Constrained(points) => Ok(AnyTriangulation::Constrained(
                points.try_clone()?,
            )),
        }
    }

    /// The same triangulation once more, in a box.
    pub fn boxed_clone(&self, alloc: Global) -> Option<Box<AnyTriangulation>>
        ensures same { IfSome result (λ copy. copy.value ≡ self.now) }
        ensures headline { IfSome result (λ copy. IsKeptDelaunay copy.value) }
    {
        let Ok(copy) = self.try_clone() else {
            return None;
        };
        Box::new(alloc, copy).ok()
    }
}
