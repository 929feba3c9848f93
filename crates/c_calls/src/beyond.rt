//! Which faces have closed disks that pass the sides of a box.
ghost use Rattle.std.specs.Prelude.{◌≡◌, ◌<◌, length};
ghost use Rattle.c_calls.specs.Beyond.{IsFlagAt, raw_side, raw_sides};
ghost use Rattle.{c_calls.specs.Kept.kept_place, delaunay_legalization.specs.triangulation_of};

use crate::raw::NumberedPoint;
use crate::statuses::{TOO_SHORT, WELL};
use crate::{Query, RawBox};
use delaunay_interface::Triangulation;
use exact_predicates::{Sides, is_disk_within};
use half_edge_links::FixedFaceHandle;
use std::alloc::Global;

// A side of C's, which is nowhere at one end of the numbers.
fn side_of(at: i32, nowhere: i32) -> Option<i32>
    ensures { result ≡ raw_side nowhere at }
{
    if at == nowhere { None } else { Some(at) }
}

// The sides of a box.
fn sides_of(within: &RawBox) -> Sides
    ensures { result ≡ raw_sides within.now }
{
    Sides {
        left: side_of(within.left, -2147483648),
        bottom: side_of(within.bottom, -2147483648),
        right: side_of(within.right, 2147483647),
        top: side_of(within.top, 2147483647),
    }
}

// 1 where the closed disk of the face with this index passes a side, and else 0.
fn flag_at<T: Triangulation<Vertex = NumberedPoint>>(points: &T, index: u32, sides: &Sides) -> u8
    requires { index < length (T.state points.now).faces }
    ensures { IsFlagAt (triangulation_of kept_place (T.state points.now)) sides.now index result }
{
    points.recall_invariant();
    let face = points.face(FixedFaceHandle::from_index(index + 1));
    let corners = points.face_positions(face);
    if is_disk_within(corners[0], corners[1], corners[2], sides) {
        0
    } else {
        1
    }
}

/// Whether the closed disk of each face passes a side of a box.
#[derive(Drop)]
pub struct ListBeyond {
    pub within: RawBox,
}

impl Query for ListBeyond {
    ghost use Rattle.c_calls.specs.Beyond.{ListsBeyond};

    type Item = u8;

    type Told = usize;

    ghost tells = { λ q v status _ told old new. ListsBeyond v.drawing q.within status told old
        new };

    fn ask<T: Triangulation<Vertex = NumberedPoint>>(
        &self,
        points: &T,
        _alloc: Global,
        flags: &mut [u8],
        length: &mut usize,
    ) -> u32 {
        let count = points.num_inner_faces();
        *length = count;
        if flags.len() < count {
            return TOO_SHORT;
        }
        let sides = sides_of(&self.within);
        for index in 0..count {
            flags[index] = flag_at(points, index as u32, &sides);
        }
        WELL
    }
}
