//! Room for what vertices can bring.
ghost use Rattle.std.specs.Prelude.{◌≡◌, ◌↔◌, ◌+◌, ◌*◌, ◌<◌, ◌≤◌, length};
ghost use Rattle.std.specs.Prelude.{Err, IsErrOf, IsFalse, OnErr, OnOk};
ghost use Rattle.delaunay_core.specs.{OutOfIndexes, OutOfMemory, TooLarge};
ghost use Rattle.{delaunay_legalization.specs.state_of, half_edge_links.specs.HasRoomFor};

use delaunay_core::math::InsertionError;
use delaunay_legalization::EdgeSet;
use half_edge_dcel::Dcel;
use half_edge_links::{MAX_ELEMENTS, ReserveError};

/// Makes room for so many more vertices, with the edges and faces that they can bring, and for the
/// edges that a legalization may list, which it does unless the triangulation is free of
/// constraints. After an error the mesh is as it was: `OutOfIndexes` comes exactly where six times
/// the new number of vertices passes `MAX_ELEMENTS`, and `OutOfMemory` where memory was refused.
pub fn reserve_for_vertices<V, DE, UE, F>(
    dcel: &mut Dcel<V, DE, UE, F>,
    work: &mut EdgeSet,
    more: usize,
    is_free: bool,
) -> Result<(), InsertionError>
    requires small { more ≤ MAX_ELEMENTS }
    ensures same { state_of dcel.new ≡ state_of dcel.old }
    ensures full { IsErrOf result OutOfIndexes ↔
        (MAX_ELEMENTS < 6 * (length dcel.old.vertices + more)) }
    ensures memory { 6 * (length dcel.old.vertices + more) ≤ MAX_ELEMENTS →
        OnErr result (result ≡ Err OutOfMemory) }
    ensures not_too_large { ¬ IsErrOf result TooLarge }
    ensures ok { OnOk result (HasRoomFor dcel.new.room (length dcel.old.vertices + more)
        (3 * (length dcel.old.vertices + more)) (2 * (length dcel.old.vertices + more))) }
    ensures work { OnOk result (IsFalse is_free →
        3 * (length dcel.old.vertices + more) ≤ work.new.room) }
{
    let vertices = dcel.num_vertices() + more;
    match dcel.reserve_capacity(vertices, 3 * vertices, 2 * vertices) {
        Ok(()) => {}
        Err(ReserveError::TooMany) => return Err(InsertionError::OutOfIndexes),
        Err(ReserveError::OutOfMemory) => return Err(InsertionError::OutOfMemory),
    }
    if is_free || work.reserve(3 * vertices).is_ok() {
        return Ok(());
    }
    Err(InsertionError::OutOfMemory)
}
