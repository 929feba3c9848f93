//! Which free faces are joined.
ghost use Rattle.std.specs.Prelude.{IfOk};
ghost use Rattle.{delaunay_legalization.specs.triangulation_of, delaunay_shapes.specs.by_place};
ghost use Rattle.delaunay_ways.specs.Parts.{AreLabels};

use crate::labels::Labels;
use delaunay_core::point::HasPosition;
use delaunay_location::HasMesh;
use delaunay_shapes::FreeFaces;
use half_edge_links::FixedFaceHandle;
use std::alloc::{AllocError, Global};

/// Labels of the free faces, by which they are joined: the label of each face by its index, and
/// none for the outer face, which comes first, and for faces that are not free. Two free faces have
/// the same label exactly where a chain of positions, each in sight of the next, joins a position
/// of one with a position of the other; then it does so for all their positions. So one call
/// answers for any two positions whether `find_way` finds a way. The labels are 0, 1 and so on, in
/// the order of the first faces that have them.
///
/// Faces that share only a vertex are joined, as a way may go through it. This is so because a line
/// of sight may, and there is no call that leaves it out.
///
/// ```
/// let parts = reachable(&hall, &floor, rt.alloc())?;
/// if parts[here.index() as usize] == parts[there.index() as usize] {
///     println!(rt; "there is a way")?;
/// }
/// ```
pub fn reachable<T: HasMesh<V, DE, UE, F>, V: HasPosition, DE, UE, F, G: FreeFaces>(
    triangulation: &T,
    free: &G,
    alloc: Global,
) -> Result<Vec<Option<u32>>, AllocError>
    ensures { IfOk result (λ labels. AreLabels
        (triangulation_of V.place (T.mesh_state triangulation.now)) (by_place (G.free free.now))
        labels.items) }
{
    let dcel = triangulation.mesh();
    let mut labels = Labels::new(dcel, alloc)?;
    let mut parts = Vec::new(alloc);
    parts.push(None)?;
    for index in 1..dcel.num_faces() {
        let face = FixedFaceHandle::from_index(index as u32);
        let label = labels.label_face(dcel, face, free)?;
        parts.push(label)?;
    }
    Ok(parts)
}
