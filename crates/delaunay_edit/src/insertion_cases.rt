//! A new vertex at any position that no vertex has.
ghost use Rattle.std.specs.Prelude.{◌+◌, ◌*◌, ◌≤◌, length, IsFalse};
ghost use Rattle.half_edge_links.specs.{HasRoomFor};
ghost use Rattle.delaunay_legalization.specs.{CountsFlips, FlipsFit, state_of};
ghost use Rattle.delaunay_edit.specs.Edits.{AppendsVertex, CanAppend};

use delaunay_core::math::PlaneTests;
use delaunay_core::point::HasPosition;
use delaunay_legalization::{EdgeSet, legalize_vertex};
use delaunay_location::PositionInTriangulation;
use delaunay_vertices::{FreeByDefault, insert_outside, insert_within_edge};
use half_edge_dcel::Dcel;
use half_edge_links::FixedVertexHandle;

/// The new last vertex at a position that no vertex has, round which the edges that fail are
/// flipped, and how many constraints more there are: one that the position is strictly within
/// becomes two. `is_free` may say that there was none; `work` has room for a legalization else.
pub fn insert_at<
    M: FreeByDefault<UE>,
    V: HasPosition,
    DE: Default,
    UE: Default,
    F: Default,
    P: PlaneTests<V::Scalar>,
>(
    dcel: &mut Dcel<V, DE, UE, F>,
    location: PositionInTriangulation,
    value: V,
    is_free: bool,
    tests: &P,
    work: &mut EdgeSet,
    flips: &mut u64,
) -> (FixedVertexHandle, usize)
    requires can { CanAppend V.place M.constraints (P.sites tests.now) value location is_free
        (state_of dcel.old) }
    requires room { HasRoomFor dcel.old.room (length dcel.old.vertices + 1)
        (3 * (length dcel.old.vertices + 1)) (2 * (length dcel.old.vertices + 1)) }
    requires work { IsFalse is_free → 3 * (length dcel.old.vertices + 1) ≤ work.old.room }
    requires fits { FlipsFit (length dcel.old.vertices + 1) flips.old }
    ensures appends { AppendsVertex V.place M.constraints value result.0 result.1
        (state_of dcel.old) (state_of dcel.new) }
    ensures counted { CountsFlips (length dcel.new.vertices) flips.old flips.new }
{
    let (vertex, more) = match location {
        PositionInTriangulation::OnFace(face) => (dcel.insert_into_triangle(value, face), 0),
        PositionInTriangulation::OnEdge(edge) => {
            insert_within_edge::<M, _, _, _, _>(dcel, edge, value)
        }
        PositionInTriangulation::OutsideOfConvexHull(edge) => {
            (insert_outside(dcel, edge, value, tests), 0)
        }
        PositionInTriangulation::NoTriangulation => {
            let vertex = dcel.append_unconnected_vertex(value);
            if vertex.index() > 0 {
                dcel.setup_initial_two_vertices(FixedVertexHandle::from_index(0), vertex);
            }
            return (vertex, 0);
        }
        PositionInTriangulation::OnVertex(_) => unreachable!(),
    };
    legalize_vertex::<M, _, _, _, _, _>(dcel, vertex, is_free, tests, work, flips);
    (vertex, more)
}
