//! Vertices that go, with their edges.
ghost use Rattle.std.specs.Prelude.{◌≡◌, ◌<◌, [], length, map, All, IsTrue};
ghost use Rattle.plane_theorems.specs.{LocalMesh};
ghost use Rattle.delaunay_legalization.specs.{constraints_by, faces_of, IsEmbedding};
ghost use Rattle.delaunay_legalization.specs.{IsTriangulated, outer_of, points_and_constraints};
ghost use Rattle.delaunay_legalization.specs.{points_and_constraints_by, state_of};
ghost use Rattle.delaunay_vertices.specs.{Lists.HasRoomToRemove, Star.LosesStar};
ghost use Rattle.delaunay_vertices.specs.{Removal.TakesVertexOut, RemovalData.RenumbersEdges};

use crate::RemovalLists;
use crate::freeing::{free_edges_at, some_edge};
use crate::removal_hull::{isolate_on_hull, outer_edge_beside};
use crate::removal_inner::isolate_inner;
use delaunay_core::math::PlaneTests;
use delaunay_core::point::HasPosition;
use delaunay_legalization::ConstraintMarker;
use half_edge_dcel::{Dcel, MeshViews};
use half_edge_links::{FixedDirectedEdgeHandle, FixedVertexHandle};

// Removes the edges of a vertex in the plane, and its faces. `lists` gets what each turned one
// joins.
fn isolate<V: HasPosition, DE: Drop, UE: Drop, F: Drop, P: PlaneTests<V::Scalar>>(
    dcel: &mut Dcel<V, DE, UE, F>,
    vertex: FixedVertexHandle,
    tests: &P,
    lists: &mut RemovalLists,
)
    requires embedding { IsEmbedding V.place P.sites dcel.old tests.now }
    requires shape { LocalMesh (map V.place dcel.old.vertices) (faces_of dcel.old.mesh)
        (outer_of dcel.old.mesh) }
    requires within { vertex < length dcel.old.vertices }
    requires room { HasRoomToRemove dcel.old vertex lists.old }
    ensures isolates { LosesStar V.place dcel.old dcel.new vertex lists.new.turned.items }
    ensures capacity { lists.new.tested.room ≡ lists.old.tested.room }
{
    let first = match some_edge(dcel, vertex) {
        Some(edge) => edge,
        None => unreachable!(),
    };
    match outer_edge_beside(dcel, first, lists.edges) {
        Some(edge) => isolate_on_hull(dcel, edge, vertex, tests, lists),
        None => isolate_inner(dcel, first, lists.edges, vertex, tests, &mut lists.turned),
    }
}

// Takes a vertex out, and gives its data back. The hole or the gap that its faces leave is filled
// so that the others have a mesh, or on a line its two neighbours are joined, and the last vertex
// takes its index. `lists` gets what each edge joins that was turned away.
fn take_vertex<V: HasPosition, DE: Drop, UE: Drop, F: Drop, P: PlaneTests<V::Scalar>>(
    dcel: &mut Dcel<V, DE, UE, F>,
    vertex: FixedVertexHandle,
    tests: &P,
    lists: &mut RemovalLists,
) -> V
    requires embedding { IsEmbedding V.place P.sites dcel.old tests.now }
    requires within { vertex < length dcel.old.vertices }
    requires room { HasRoomToRemove dcel.old vertex lists.old }
    ensures takes { TakesVertexOut V.place points_and_constraints (state_of dcel.old)
        (state_of dcel.new) vertex result lists.new.turned.items }
    ensures edges { RenumbersEdges dcel.old dcel.new vertex }
    ensures capacity { lists.new.tested.room ≡ lists.old.tested.room }
{
    if dcel.num_inner_faces() == 0 {
        return dcel.remove_when_degenerate(vertex);
    }
    isolate(dcel, vertex, tests, lists);
    dcel.swap_remove_vertex(vertex)
}

/// Removes a vertex with the constraints that end at it, and gives its data back. The hole or the
/// gap that its faces leave is filled so that the others have a mesh, and the last vertex takes its
/// index. Each other constraint stays; `is_free` may say that the mesh has no constraint at all.
/// `lists` gets what each edge joins that was turned away.
pub fn remove_vertex<
    M: ConstraintMarker<UE>,
    V: HasPosition,
    DE: Drop,
    UE: Drop,
    F: Drop,
    P: PlaneTests<V::Scalar>,
>(
    dcel: &mut Dcel<V, DE, UE, F>,
    vertex: FixedVertexHandle,
    is_free: bool,
    tests: &P,
    lists: &mut RemovalLists,
) -> V
    requires kept { IsTriangulated V.place (state_of dcel.old) }
    requires within { vertex < length dcel.old.vertices }
    requires free { IsTrue is_free → constraints_by M.constraints (state_of dcel.old) ≡ [] }
    requires sites { All (P.sites tests.now) (map V.place dcel.old.vertices) }
    requires room { HasRoomToRemove dcel.old vertex lists.old }

    ensures takes { TakesVertexOut V.place (points_and_constraints_by M.constraints)
        (state_of dcel.old) (state_of dcel.new) vertex result lists.new.turned.items }
    ensures capacity { lists.new.tested.room ≡ lists.old.tested.room }
{
    free_edges_at::<M, _, _, _, _>(dcel, vertex, is_free);
    take_vertex(dcel, vertex, tests, lists)
}
