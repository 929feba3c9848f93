//! The vertex that is nearest to a position.
ghost use Rattle.std.specs.Prelude.{◌≡◌, ◌<◌, length, MatchOption};
ghost use Rattle.delaunay_core.specs.{place_of};
ghost use Rattle.delaunay_edit.specs.{AreSites, Elements.IsNearestVertex};

use crate::DelaunayTriangulation;
use delaunay_core::HintGenerator;
use delaunay_core::math::PlaneTests;
use delaunay_core::point::{HasPosition, Point2};
use delaunay_location::{HasMesh, nearest_by_neighbors};
use half_edge_dcel::{MeshViews, VertexHandle};
use half_edge_links::FixedVertexHandle;

// The vertex of a hint, or the first where it is the handle of none.
fn start_at(hint: FixedVertexHandle, count: usize) -> FixedVertexHandle
    requires { 0 < count }
    ensures { result < count }
{
    if (hint.index() as usize) < count {
        hint
    } else {
        FixedVertexHandle::from_index(0)
    }
}

impl<V: HasPosition, DE, UE, F, L: HintGenerator<V::Scalar>> DelaunayTriangulation<
    V,
    DE,
    UE,
    F,
    L,
> {
    /// A vertex that none is strictly nearer than to a position that the tests cover, unless there
    /// is no vertex. The hint generator says where the search begins. It takes no memory.
    ///
    /// ```
    /// if let Some(vertex) = stations.nearest_neighbor(Point2::new(3, 1), &ExactTests) {
    ///     println!(rt; "{}", vertex.data().name)?;
    /// }
    /// ```
    pub fn nearest_neighbor<P: PlaneTests<V::Scalar>>(
        &self,
        point: Point2<V::Scalar>,
        tests: &P,
    ) -> Option<VertexHandle<'_, V, DE, UE, F>>
        requires sites { AreSites V.place (P.sites tests.now) self.now.vertices }
        requires covered { P.covered tests.now (place_of V.Scalar.whole point) }
        ensures { MatchOption result (length self.now.vertices ≡ 0)
            (λ v. IsNearestVertex V.place self.now (place_of V.Scalar.whole point) v.dcel.now
            v.index) }
    {
        let mesh = self.mesh();
        let count = mesh.num_vertices();
        if count == 0 {
            return None;
        }
        let hint = self.search_start(point, tests);
        let mut moves = 0;
        let nearest = nearest_by_neighbors(mesh, start_at(hint, count), point, &mut moves);
        self.hint_generator.notify_vertex_lookup(nearest);
        Some(mesh.vertex(nearest))
    }
}
