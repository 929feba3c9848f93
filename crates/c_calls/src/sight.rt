//! Whether a segment stays in free faces.
use crate::lines::may_ask_line;
use crate::queries::point_of;
use crate::raw::NumberedPoint;
use crate::statuses::{TOO_LARGE, UNEQUAL_LENGTHS, WELL};
use crate::{Query, RawPoint};
use delaunay_interface::Triangulation;
use delaunay_shapes::{FreeFaces, is_in_sight};
use exact_predicates::ExactTests;
use half_edge_links::FixedFaceHandle;
use std::alloc::Global;

// Which inner faces are free: those whose byte is not 0.
#[derive(Drop)]
pub(crate) struct FreeBytes<'a> {
    pub(crate) bytes: &'a [u8],
}

impl<'a> FreeFaces for FreeBytes<'a> {
    ghost use Rattle.c_calls.specs.Sight.{is_free_face};

    ghost free = { λ f face. is_free_face f.bytes.now face };

    fn is_free(&self, face: FixedFaceHandle) -> bool {
        let index = face.index() as usize;
        index > 0 && self.bytes.get(index - 1).copied().unwrap_or(0) != 0
    }
}

/// Whether the segment between two points stays in free faces, by a byte for each face.
#[derive(Drop)]
pub struct LookAlong<'a> {
    pub from: RawPoint,
    pub to: RawPoint,
    pub bytes: &'a [u8],
}

impl<'a> Query for LookAlong<'a> {
    ghost use Rattle.c_calls.specs.Sight.{FindsSight};

    type Item = ();

    type Told = u32;

    ghost tells = { λ q v status _ seen _ _. FindsSight v.drawing q.from q.to q.bytes.now status
        seen };

    fn ask<T: Triangulation<Vertex = NumberedPoint>>(
        &self,
        points: &T,
        _alloc: Global,
        _list: &mut [()],
        seen: &mut u32,
    ) -> u32 {
        if self.bytes.len() != points.num_inner_faces() {
            return UNEQUAL_LENGTHS;
        }
        if !may_ask_line(&self.from, &self.to) {
            return TOO_LARGE;
        }
        points.recall_invariant();
        let (start, end) = (point_of(&self.from), point_of(&self.to));
        let free = FreeBytes { bytes: self.bytes };
        let is_seen = is_in_sight(points, start, end, &free, &ExactTests);
        *seen = if is_seen { 1 } else { 0 };
        WELL
    }
}
