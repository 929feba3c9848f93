//! Which faces are next to one another.
use std::alloc::{AllocError, Global};

/// No face.
pub(crate) const NO_FACE: u32 = u32::MAX;

/// A side of a face: its ends with the lesser first, the face, and the corner that is across it.
#[derive(Clone, Copy, PartialEq, Eq, PartialOrd, Ord)]
struct FaceSide {
    low: u32,
    high: u32,
    face: u32,
    across: u8,
}

/// The sides of a face.
fn sides_of(face: u32, [a, b, c]: [u32; 3]) -> [FaceSide; 3] {
    let side = |from: u32, to: u32, across: u8| FaceSide {
        low: from.min(to),
        high: from.max(to),
        face,
        across,
    };
    [side(b, c, 0), side(c, a, 1), side(a, b, 2)]
}

/// Notes that a face is across a corner of another.
fn put(neighbours: &mut [[u32; 3]], side: &FaceSide, other: u32) {
    let Some(row) = neighbours.get_mut(side.face as usize) else {
        return;
    };
    if let Some(slot) = row.get_mut(side.across as usize) {
        *slot = other;
    }
}

/// Of each face the faces across its corners, by their indexes, or `NO_FACE`.
pub(crate) fn neighbours_of(
    faces: &[[u32; 3]],
    alloc: Global,
) -> Result<Vec<[u32; 3]>, AllocError> {
    let mut sides = Vec::new(alloc);
    let mut neighbours = Vec::with_capacity(alloc, faces.len())?;
    for (index, face) in faces.iter().enumerate() {
        neighbours.push([NO_FACE; 3])?;
        for side in sides_of(u32::try_from(index).unwrap_or(NO_FACE), *face) {
            sides.push(side)?;
        }
    }
    sides.sort()?;
    let mut last = None;
    for side in &sides {
        if let Some(before) = last {
            let before: &FaceSide = before;
            if before.low == side.low && before.high == side.high {
                put(neighbours.as_mut_slice(), before, side.face);
                put(neighbours.as_mut_slice(), side, before.face);
            }
        }
        last = Some(side);
    }
    Ok(neighbours)
}
