//! Which free faces are wide enough for a disc.
ghost use Rattle.std.specs.Prelude.{◌+◌, ◌<◌, ◌≤◌, slice_index_or, false, length, IfOk};
ghost use Rattle.{delaunay_legalization.specs.triangulation_of, delaunay_shapes.specs.by_place};
ghost use Rattle.delaunay_ways.specs.{AreWide};
ghost use Rattle.c_calls.specs.{Kept.kept_place, Sight.is_marked, Wide.IsFlagOf, Written.Answered};

use crate::Query;
use crate::raw::NumberedPoint;
use crate::sight::FreeBytes;
use crate::statuses::{NEGATIVE, OUT_OF_MEMORY, TOO_SHORT, UNEQUAL_LENGTHS, WELL};
use delaunay_interface::Triangulation;
use delaunay_shapes::FreeFaces;
use delaunay_ways::WideFaces;
use half_edge_links::FixedFaceHandle;
use std::alloc::{AllocError, Global};

// The wide ones of the faces that are free by these bytes.
fn wide_of<T: Triangulation<Vertex = NumberedPoint>>(
    points: &T,
    bytes: &[u8],
    width_2: i64,
    alloc: Global,
) -> Result<WideFaces, AllocError>
    ensures { IfOk result (λ wide. AreWide (triangulation_of kept_place (T.state points.now))
        (is_marked bytes.now) width_2 (by_place (λ n. slice_index_or wide n false))) }
{
    points.recall_invariant();
    WideFaces::new(points, &FreeBytes { bytes }, width_2, alloc)
}

// 1 where the face at this place of C's list is one of these, and else 0.
fn flag_of(wide: &WideFaces, index: usize) -> u8
    requires { index < 4294967295 }
    ensures { IsFlagOf wide.now index result }
{
    if wide.is_free(FixedFaceHandle::from_index(index as u32 + 1)) {
        1
    } else {
        0
    }
}

// Writes the flags of so many inner faces.
fn write_flags(wide: &WideFaces, count: usize, flags: &mut [u8])
    requires few { count < 4294967295 }
    requires room { count ≤ length flags.old }
    ensures { Answered (IsFlagOf wide.now) count flags.old flags.new }
{
    for index in 0..count {
        flags[index] = flag_of(wide, index);
    }
}

/// Which free faces, by a byte for each face, have no height whose square is less than `width_2`.
#[derive(Drop)]
pub struct ListWide<'a> {
    pub bytes: &'a [u8],
    pub width_2: i64,
}

impl<'a> Query for ListWide<'a> {
    ghost use Rattle.c_calls.specs.Wide.{ListsWide};

    type Item = u8;

    type Told = usize;

    ghost tells = { λ q v status was told old new. ListsWide v.drawing q.bytes.now q.width_2 status
        was told old new };

    fn ask<T: Triangulation<Vertex = NumberedPoint>>(
        &self,
        points: &T,
        alloc: Global,
        flags: &mut [u8],
        length: &mut usize,
    ) -> u32 {
        let count = points.num_inner_faces();
        if self.bytes.len() != count {
            return UNEQUAL_LENGTHS;
        }
        if self.width_2 < 0 {
            return NEGATIVE;
        }
        *length = count;
        if flags.len() < count {
            return TOO_SHORT;
        }
        let Ok(wide) = wide_of(points, self.bytes, self.width_2, alloc) else {
            return OUT_OF_MEMORY;
        };
        write_flags(&wide, count, flags);
        WELL
    }
}
