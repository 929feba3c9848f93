//! Vertices that a search may go on to.
ghost use Rattle.std.specs.Prelude.{◌≡◌};

/// A vertex, and `before`, which says as in a `Step` how a search comes to it. The greatest lead
/// has the least sum of the length of the way to it and the least length of the way ahead.
#[derive(Clone, Copy, PartialEq, Eq, PartialOrd, Ord)]
pub(crate) struct Lead {
    rank: u64,
    pub(crate) length: u64,
    pub(crate) vertex: u32,
    pub(crate) before: usize,
}

impl Lead {
    pub(crate) fn new(vertex: u32, before: usize, length: u64, ahead: u64) -> Lead
        ensures vertex { result.vertex ≡ vertex }
        ensures before { result.before ≡ before }
    {
        Lead {
            rank: u64::MAX - length.saturating_add(ahead),
            length,
            vertex,
            before,
        }
    }
}
