//! The layers of a triangulation's faces, as users ask for them.
ghost use Rattle.std.specs.Prelude.{IfOk};
ghost use Rattle.delaunay_extensions.specs.Layers.{AreLayers};

use crate::search::find_layers;
use delaunay_interface::Triangulation;
use std::alloc::{AllocError, Global};

/// The layer of each face, by index: how many constraints at least are crossed on a way from the
/// outer face to it, from face to face across edges. The outer face comes first, with 0. Faces that
/// are reached from outside past no constraint have 0 too, those inside one closed chain of
/// constraints 1, and so on. It gives `AllocError` where memory was refused.
///
/// ```
/// let layers = face_layers(&site, rt.alloc())?;
/// for face in site.inner_faces() {
///     if layers[face.fix().index() as usize] % 2 == 1 {
///         println!(rt; "face {} is built on", face.fix().index())?;
///     }
/// }
/// ```
pub fn face_layers<T: Triangulation>(points: &T, alloc: Global) -> Result<Vec<u32>, AllocError>
    ensures { IfOk result (λ v. AreLayers (T.state points.now).mesh
        (T.Constraints.constraints (T.state points.now).undirected) v.items) }
{
    find_layers::<T::Constraints, _, _, _, _>(points.s(), alloc)
}
