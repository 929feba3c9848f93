//! What is left to do where a vertex went: the halves of a straight constraint are joined, and each
//! edge is made to pass the circle test.
ghost use Rattle.std.specs.Prelude.{◌≡◌, ◌*◌, ◌≤◌, ◌++◌};
ghost use Rattle.std.specs.Prelude.{length, map, All, IfSome, IsTrue, OnOk};
ghost use Rattle.delaunay_vertices.specs.{FailOnlyAt, pairs_left};
ghost use Rattle.delaunay_edit.specs.Halves.{CanSettle, HasRoomToSettle, Settles};
ghost use Rattle.{delaunay_edit.specs.Lists.HaveRoom, delaunay_legalization.specs.FlipsFit};

use crate::{CrossingLists, add_path};
use delaunay_core::math::PlaneTests;
use delaunay_core::point::HasPosition;
use delaunay_legalization::{ConstraintMarker, EdgeSet, Sides, legalize};
use delaunay_vertices::{RemovalLists, VertexPair, index_left, legalize_pairs, list_pairs};
use half_edge_dcel::Dcel;
use half_edge_links::FixedVertexHandle;
use std::alloc::AllocError;

/// Makes room to join the far ends of straight halves, if there are such, in a mesh of at most so
/// many edges. It gives `AllocError` where memory was refused.
pub fn reserve_to_join(
    crossing: &mut CrossingLists,
    halves: &Option<VertexPair>,
    edges: usize,
) -> Result<(), AllocError>
    ensures { OnOk result (IfSome halves.now (λ _. HaveRoom edges crossing.new)) }
{
    match halves {
        Some(_) => crossing.reserve(edges),
        None => Ok(()),
    }
}

/// Joins the far ends of straight halves, whose middle `vertex` went, if there are such, and flips
/// edges until each that is no constraint passes the circle test. `border`, `is_free` and the lists
/// are as `legalize_pairs` has them, and for halves `reserve_to_join` has made room.
pub fn settle<M: ConstraintMarker<UE>, V: HasPosition, DE, UE, F, P: PlaneTests<V::Scalar>>(
    dcel: &mut Dcel<V, DE, UE, F>,
    vertex: FixedVertexHandle,
    halves: Option<VertexPair>,
    is_free: bool,
    border: &[VertexPair],
    tests: &P,
    lists: &mut RemovalLists,
    crossing: &mut CrossingLists,
    work: &mut EdgeSet,
    flips: &mut u64,
)
    requires can { CanSettle V.place M.can_mark M.constraints dcel.old vertex halves
        (border.now ++ lists.old.turned.items) }
    requires only { IsTrue is_free → FailOnlyAt (map V.place dcel.old.vertices) dcel.old.mesh
        (pairs_left (length dcel.old.vertices) vertex (border.now ++ lists.old.turned.items)) }
    requires sites { All (P.sites tests.now) (map V.place dcel.old.vertices) }
    requires room { HasRoomToSettle (length dcel.old.vertices) work.old.room lists.old.tested.room
        crossing.old halves }
    requires fits { FlipsFit (length dcel.old.vertices) flips.old }

    ensures { Settles V.place M.marks M.marked M.constraints dcel.old dcel.new vertex halves
        flips.old flips.new }
{
    match halves {
        Some(ends) => {
            // No edge is tested before the far ends are joined: so one that is there before and
            // after has not gone in between.
            list_pairs::<M, _, _, _, _>(dcel, vertex, border, lists, work);
            let from = index_left(dcel, ends.0, vertex);
            let to = index_left(dcel, ends.1, vertex);
            add_path::<M, _, _, _, _, _>(dcel, from, to, tests, crossing, work);
            legalize::<M, _, _, _, _, _>(dcel, &Sides::Round, tests, work, flips);
        }
        None => legalize_pairs::<M, _, _, _, _, _>(
            dcel, vertex, is_free, border, tests, lists, work, flips,
        ),
    }
}
