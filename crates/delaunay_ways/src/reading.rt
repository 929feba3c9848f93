//! The path that a search found, read from its steps.
ghost use Rattle.std.specs.Prelude.{◌≤◌, ℕ, Bool, List, length, Contains, IfOk};
ghost use Rattle.plane.specs.{Triangulation};
ghost use Rattle.delaunay_ways.specs.Steps.{AreEarlier, AreSteps, IsStep, LeadsOver};

use std::alloc::{AllocError, Global};

/// How a search came to a vertex: it began there, where `before` is 0, or else it went along a side
/// of a free face from the vertex of the step before, whose index is one less than `before`.
#[derive(Clone, Copy)]
pub(crate) struct Step {
    pub(crate) vertex: u32,
    pub(crate) before: usize,
}

/// The vertices from that of a step back to where the search began.
pub(crate) fn read_path(steps: &[Step], from: Step, alloc: Global) -> Result<Vec<u32>, AllocError>
    requires within { from.before ≤ length steps.now }
    requires earlier { AreEarlier steps.now }
    ensures { (t : Triangulation) (free : ℕ → Bool) (first last : List ℕ) →
        AreSteps t free last steps.now → IsStep t free last steps.now from.vertex from.before →
        Contains first from.vertex → IfOk result (λ vs. LeadsOver t free first last vs.items) }
{
    let mut path = Vec::new(alloc);
    let mut step = from;
    path.push(step.vertex)?;
    while step.before > 0 {
        step = steps[step.before - 1];
        path.push(step.vertex)?;
    }
    Ok(path)
}
