//! A list whose items come one by one, at places far apart.
ghost use Rattle.std.specs.Prelude.{◌≡◌, ◌<◌, length, slice_set, All, IfOk};
ghost use Rattle.delaunay_extensions.specs.ByPlace.{written};

use std::alloc::{AllocError, Global};
use std::marker::Model;

/// How many items wait until they are written: enough that the memory of many is fetched at a time,
/// and few enough that they stay in the nearest cache.
const WAITING: usize = 64;

/// A list that is written at places far apart. Each write would wait for memory by itself. So a few
/// items are kept and then written together, and the memory of all is waited for at once.
#[derive(Drop)]
pub(crate) struct ByPlace<T> {
    items: Vec<T>,
    waiting: Vec<(usize, T)>,
}

impl<T> Model for ByPlace<T> {
    ghost use Rattle.std.specs.Prelude.{◌<◌, ◌≤◌, length, All, List, vec_capacity, vec_len};
    ghost use Rattle.delaunay_extensions.specs.ByPlace.{written};

    ghost Value = { List T };

    // The items as they are once those that wait are written.
    ghost view = { λ s. written s.items.items s.waiting.items };

    ghost invariant = { λ s. All (λ e. e.0 < length s.items.items) s.waiting.items
        × (0 < length s.items.items → 64 ≤ vec_capacity s.waiting)
        × (vec_len s.waiting < 64) };
}

impl<T: Copy + Drop> ByPlace<T> {
    /// So many copies of an item; of none it takes no memory. It gives `AllocError` where memory
    /// was refused.
    pub(crate) fn new(alloc: Global, item: T, count: usize) -> Result<Self, AllocError>
        ensures { IfOk result (λ list. length list ≡ count) }
    {
        let room = if count == 0 { 0 } else { WAITING };
        Ok(ByPlace {
            items: Vec::from_elem(alloc, item, count)?,
            waiting: Vec::with_capacity(alloc, room)?,
        })
    }

    /// Writes an item, which comes after its place.
    pub(crate) fn write(&mut self, entry: (usize, T))
        requires { entry.0 < length self.old }
        ensures { self.new ≡ slice_set self.old entry.0 entry.1 }
    {
        self.waiting.push_reserved(entry);
        if self.waiting.len() == WAITING {
            write_entries(&mut self.items, &self.waiting);
            self.waiting.clear();
        }
    }

    /// The list as it was written.
    pub(crate) fn finish(self) -> Vec<T>
        ensures { result.items ≡ self }
    {
        let mut items = self.items;
        write_entries(&mut items, &self.waiting);
        items
    }
}

// Writes items at their places, the first first.
fn write_entries<T: Copy>(items: &mut Vec<T>, waiting: &Vec<(usize, T)>)
    requires { All (λ e. e.0 < length items.old.items) waiting.now.items }
    ensures { items.new.items ≡ written items.old.items waiting.now.items }
{
    for entry in waiting {
        items[entry.0] = entry.1;
    }
}
