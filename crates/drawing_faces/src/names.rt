//! Vertices and faces by the indexes of their points in a list.
ghost use Rattle.std.specs.Prelude.{◌≡◌, ◌⊎◌, ◌<◌, All, length, map, slice_index, IfErr, IfOk};
ghost use Rattle.half_edge_links.specs.{MAX_ELEMENTS};
ghost use Rattle.drawing_faces.specs.{Drawing.face_of, Names.AreFirsts, Names.places_of};
ghost use Rattle.drawing_faces.specs.declared.error.DrawingError.TheVariants.{OutOfMemory};

use crate::{DrawingError, FaceCorners};
use half_edge_links::{FixedVertexHandle, MAX_ELEMENTS};
use std::alloc::{AllocError, Global};

/// Of each of so many vertices the first index where it stands in a list. It gives `TooMany` for a
/// list of more than `MAX_ELEMENTS`, and `OutOfMemory` where memory was refused.
pub(crate) fn first_indexes(
    vertices: &[FixedVertexHandle],
    count: usize,
    alloc: Global,
) -> Result<Vec<u32>, DrawingError>
    requires { All (λ v. v < count) vertices.now }
    ensures firsts { IfOk result (λ firsts. AreFirsts count vertices.now firsts.items) }
    ensures refuses { IfErr result
        (λ error. (error ≡ OutOfMemory) ⊎ (MAX_ELEMENTS < length vertices.now)) }
{
    if vertices.len() > MAX_ELEMENTS {
        return Err(DrawingError::TooMany);
    }
    let mut firsts = Vec::from_elem(alloc, 0, count)?;
    let mut index = vertices.len();
    while index > 0 {
        index -= 1;
        let vertex = vertices[index].index() as usize;
        firsts[vertex] = index as u32;
    }
    Ok(firsts)
}

/// The name of a vertex; 0 where it has none.
fn name_of(names: &[u32], vertex: u32) -> u32
    ensures { result ≡ slice_index names.now vertex }
{
    names.get(vertex as usize).copied().unwrap_or(0)
}

/// Faces with the names of their corners in place of these.
pub(crate) fn name_corners(
    faces: &[FaceCorners],
    names: &[u32],
    alloc: Global,
) -> Result<Vec<[u32; 3]>, AllocError>
    ensures { IfOk result (λ rows. rows.items ≡ map (λ c. places_of names.now (face_of c))
        faces.now) }
{
    let mut rows = Vec::with_capacity(alloc, faces.len())?;
    for face in faces {
        rows.push([
            name_of(names, face.first),
            name_of(names, face.second),
            name_of(names, face.third),
        ])?;
    }
    Ok(rows)
}
