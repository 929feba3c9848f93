//! What is looked up before a vertex goes.
ghost use Rattle.std.specs.Prelude.{◌≡◌, ◌⊎◌, ◌<◌, [], length, map, All, IfOk};
ghost use Rattle.delaunay_legalization.specs.{constraints_by, points_and_constraints_by};
ghost use Rattle.delaunay_edit.specs.{AreHalvesAt};
ghost use Rattle.{delaunay_edit.specs.Halves.IsLoss, delaunay_vertices.specs.HasBorder};

use crate::TriangulationCore;
use delaunay_core::HintGenerator;
use delaunay_core::math::PlaneTests;
use delaunay_core::point::HasPosition;
use delaunay_edit::{ConstraintViews, EdgeData, count_constraints_at};
use delaunay_legalization::Embedding;
use delaunay_location::HasMesh;
use delaunay_vertices::{VertexPair, sides_of_hole};
use half_edge_links::FixedVertexHandle;
use std::alloc::AllocError;

impl<
    V: HasPosition,
    DE: Drop,
    UE: Drop,
    F: Drop,
    L: HintGenerator<V::Scalar>,
    M: EdgeData<UE>,
> TriangulationCore<V, DE, UE, F, L, M> {
    // The sides of a vertex's hole that are to be tested, or a refusal. Without constraints no
    // vertex is inside the circle of a face beyond one, so it passes whatever fills the hole.
    pub(crate) fn sides_to_test(
        &self,
        vertex: FixedVertexHandle,
    ) -> Result<Vec<VertexPair>, AllocError>
        requires { vertex < length self.now.vertices }
        ensures { IfOk result (λ ps. (constraints_by M.constraints self.now ≡ []) ⊎
            HasBorder self.now.mesh vertex ps.items) }
    {
        if self.num_constraints == 0 {
            return Ok(Vec::new(self.alloc));
        }
        sides_of_hole(&self.dcel, vertex, self.alloc)
    }

    // The far ends of the halves of a straight constraint whose middle is a vertex, if it is that
    // of one. Where there is no constraint it looks at no edge.
    pub(crate) fn halves_at<P: PlaneTests<V::Scalar>>(
        &self,
        vertex: FixedVertexHandle,
        tests: &P,
    ) -> Option<VertexPair>
        requires within { vertex < length self.now.vertices }
        requires sites { All (P.sites tests.now) (map V.place self.now.vertices) }
        ensures { AreHalvesAt V.place (points_and_constraints_by M.constraints self.now) vertex
            result }
    {
        if self.num_constraints == 0 {
            return None;
        }
        let dcel = self.mesh();
        Embedding { dcel, tests }.straight_halves::<M>(vertex)
    }

    // How many constraints fewer there are when a vertex goes. Where there is none it looks at no
    // edge.
    pub(crate) fn count_lost(&self, vertex: FixedVertexHandle, halves: &Option<VertexPair>) -> usize
        requires { vertex < length self.now.vertices }
        ensures { IsLoss (constraints_by M.constraints self.now) vertex halves.now result }
    {
        match halves {
            Some(_) => 1,
            None if self.num_constraints == 0 => 0,
            None => count_constraints_at::<M, _, _, _, _>(&self.dcel, vertex),
        }
    }
}
