//! A triangulation behind a pointer that C keeps.
ghost use Rattle.std.specs.Prelude.{◌≡◌, Option, Some, None, MatchOption};
ghost use Rattle.c_calls.specs.declared.kept.AnyTriangulation.{AnyTriangulation};

use crate::kept::AnyTriangulation;
use crate::loose::Loose;
use std::alloc::Global;
use std::marker::Model;
use std::mem::replace;

// Does something with what a handle has, and puts it back. A closed handle ends the call.
macro_rules! with_kept {
    ($handle:expr, $alloc:expr, $kept:ident => $call:expr) => {{
        let Some($kept) = $handle.take($alloc) else {
            return CLOSED;
        };
        let told = $call;
        $handle.put($kept, $alloc);
        told
    }};
    ($handle:expr, $alloc:expr, mut $kept:ident => $call:expr) => {{
        let Some(mut $kept) = $handle.take($alloc) else {
            return CLOSED;
        };
        let told = $call;
        $kept.recall_headline();
        $handle.put($kept, $alloc);
        told
    }};
}

pub(crate) use with_kept;

/// What C sees of a triangulation.
#[repr(C)]
pub struct Opaque {
    byte: u8,
}

/// A triangulation that C keeps, or none. All bytes 0 are none.
#[repr(C)]
pub struct Handle {
    at: *mut Opaque,
    is_open: bool,
    pub ghost kept: { Option AnyTriangulation },
}

impl Model for Handle {
    ghost use Rattle.c_calls.specs.{contracts.kept.AnyTriangulation.the_row, Keeps.keeps};

    ghost also_owns = { λ h. keeps the_row h.is_open h.at h.kept };
}

impl Handle {
    // None.
    fn closed() -> Self
        ensures { result.kept ≡ None }
    {
        Handle {
            at: std::ptr::null_mut(),
            is_open: false,
        }
    }

    // A triangulation that C keeps from now on.
    fn of_loose(loose: Loose<AnyTriangulation, Global>) -> Self
        ensures { result.kept ≡ Some loose.value }
    {
        let Loose { at, alloc: _ } = loose;
        Handle {
            at: at as *mut Opaque,
            is_open: true,
        }
    }

    // The triangulation that C kept, if there is one.
    fn into_loose(self, alloc: Global) -> Option<Loose<AnyTriangulation, Global>>
        ensures { MatchOption result (self.kept ≡ None) (λ l. self.kept ≡ Some l.value) }
    {
        let Handle { at, is_open } = self;
        if is_open {
            Some(Loose {
                at: at as *mut AnyTriangulation,
                alloc,
            })
        } else {
            None
        }
    }

    fn into_kept(self, alloc: Global) -> Option<Box<AnyTriangulation>>
        ensures { MatchOption result (self.kept ≡ None) (λ b. self.kept ≡ Some b.value) }
    {
        let loose = self.into_loose(alloc)?;
        Some(loose.into_box())
    }

    /// Takes the triangulation out, and leaves the handle closed.
    pub fn take(&mut self, alloc: Global) -> Option<Box<AnyTriangulation>>
        ensures gives { MatchOption result (self.old.kept ≡ None)
            (λ b. self.old.kept ≡ Some b.value) }
        ensures closed { self.new.kept ≡ None }
    {
        replace(self, Handle::closed()).into_kept(alloc)
    }

    /// Puts a triangulation in. What was there is gone.
    pub fn put(&mut self, kept: Box<AnyTriangulation>, alloc: Global)
        ensures { self.new.kept ≡ Some kept.value }
    {
        drop(replace(self, Handle::of_loose(Loose::of(kept))).into_kept(alloc));
    }
}
