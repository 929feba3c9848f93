//! Which free faces ways join.
ghost use Rattle.std.specs.Prelude.{◌≡◌, ◌+◌, ◌≤◌, length, IfOk};
ghost use Rattle.{c_calls.specs.Kept.kept_place, delaunay_legalization.specs.triangulation_of};
ghost use Rattle.c_calls.specs.{Reach.IsLabelAt, Reach.raw_label, Written.Answered};
ghost use Rattle.{c_calls.specs.Sight.is_marked, delaunay_ways.specs.Parts.AreLabels};

use crate::Query;
use crate::raw::NumberedPoint;
use crate::sight::FreeBytes;
use crate::statuses::{NONE, OUT_OF_MEMORY, TOO_SHORT, UNEQUAL_LENGTHS, WELL};
use delaunay_interface::Triangulation;
use delaunay_ways::reachable;
use std::alloc::{AllocError, Global};

// The labels of all faces, by which ways join those that are free by these bytes.
fn labels_of<T: Triangulation<Vertex = NumberedPoint>>(
    points: &T,
    bytes: &[u8],
    alloc: Global,
) -> Result<Vec<Option<u32>>, AllocError>
    ensures { IfOk result (λ labels. AreLabels (triangulation_of kept_place (T.state points.now))
        (is_marked bytes.now) labels.items) }
{
    points.recall_invariant();
    reachable(points, &FreeBytes { bytes }, alloc)
}

// A label, for C.
fn raw_label(label: Option<u32>) -> u32
    ensures { result ≡ raw_label label }
{
    match label {
        Some(label) => label,
        None => NONE,
    }
}

// Writes the labels of the inner faces.
fn write_labels(found: &[Option<u32>], count: usize, labels: &mut [u32])
    requires found { length found.now ≡ count + 1 }
    requires room { count ≤ length labels.old }
    ensures { Answered (IsLabelAt found.now) count labels.old labels.new }
{
    for index in 0..count {
        labels[index] = raw_label(found[index + 1]);
    }
}

/// The label of each face: two free faces, by a byte for each face, have the same exactly where
/// ways join them.
#[derive(Drop)]
pub struct ListLabels<'a> {
    pub bytes: &'a [u8],
}

impl<'a> Query for ListLabels<'a> {
    ghost use Rattle.c_calls.specs.Reach.{ListsLabels};

    type Item = u32;

    type Told = usize;

    ghost tells = { λ q v status was told old new. ListsLabels v.drawing q.bytes.now status was told
        old new };

    fn ask<T: Triangulation<Vertex = NumberedPoint>>(
        &self,
        points: &T,
        alloc: Global,
        labels: &mut [u32],
        length: &mut usize,
    ) -> u32 {
        let count = points.num_inner_faces();
        if self.bytes.len() != count {
            return UNEQUAL_LENGTHS;
        }
        *length = count;
        if labels.len() < count {
            return TOO_SHORT;
        }
        let Ok(found) = labels_of(points, self.bytes, alloc) else {
            return OUT_OF_MEMORY;
        };
        write_labels(&found, count, labels);
        WELL
    }
}
