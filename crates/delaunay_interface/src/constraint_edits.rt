//! Edges and paths that become constraints, and room for it.
ghost use Rattle.std.specs.Prelude.{◌≡◌, ◌*◌, ◌<◌, ℕ, length, map, All, Ok, OnErr, OnOk};
ghost use Rattle.plane.specs.{Adds, CanAdd};
ghost use Rattle.half_edge_links.specs.{origin, rev};
ghost use Rattle.delaunay_edit.specs.{AddsConstraint, constrained, constraint_edges};
ghost use Rattle.delaunay_edit.specs.{constraints_of, HasPairs, IsDelaunay, IsMissing};
ghost use Rattle.delaunay_edit.specs.ConstraintEdits.{MarksEdges};

use crate::ConstrainedDelaunayTriangulation;
use delaunay_core::HintGenerator;
use delaunay_core::math::PlaneTests;
use delaunay_core::point::HasPosition;
use delaunay_edit::{ConstraintViews, add_path, constrain_edge};
use delaunay_legalization::{EdgeConstraints, Embedding, Sides, is_constraint_edge, legalize};
use delaunay_location::HasMesh;
use half_edge_dcel::MeshViews;
use half_edge_links::{FixedDirectedEdgeHandle, FixedVertexHandle};
use std::alloc::AllocError;

impl<V: HasPosition, DE, UE, F, L: HintGenerator<V::Scalar>> ConstrainedDelaunayTriangulation<
    V,
    DE,
    UE,
    F,
    L,
> {
    // Makes an edge a constraint, unless it is one, and tells whether it was none. No edge is
    // turned for it, so it takes no memory.
    pub(crate) fn constrain(&mut self, edge: FixedDirectedEdgeHandle) -> bool
        requires { edge < length self.old.directed }
        ensures adds { let m = self.old.mesh in AddsConstraint V.place {E = ℕ} (origin m edge)
            (origin m (rev edge)) (Ok result) self.old self.new }
        ensures mesh { self.new.mesh ≡ self.old.mesh }
        ensures headline { IsDelaunay V.place constraint_edges self.new }
    {
        if is_constraint_edge::<EdgeConstraints, _, _, _, _>(self.mesh(), edge.as_undirected()) {
            return false;
        }
        constrain_edge::<EdgeConstraints, _, _, _, _>(&mut self.dcel, edge);
        self.num_constraints += 1;
        true
    }

    // Adds the path between two vertices, of which so many subconstraints are no constraints, or a
    // refusal that changes nothing.
    pub(crate) fn join_path<P: PlaneTests<V::Scalar>>(
        &mut self,
        from: FixedVertexHandle,
        to: FixedVertexHandle,
        missing: usize,
        tests: &P,
    ) -> Result<(), AllocError>
        requires within { (from < length self.old.vertices) × (to < length self.old.vertices) }
        requires missing { HasPairs (IsMissing (map V.place self.old.vertices)
            (constraints_of self.old) from to) missing }
        requires free { CanAdd V.place (constrained self.old) from to }
        requires sites { All (P.sites tests.now) (map V.place self.old.vertices) }
        ensures plain { OnOk result (Adds V.place (constrained self.old) (constrained self.new) from
            to) }
        ensures data { OnOk result (MarksEdges self.old self.new) }
        ensures headline { IsDelaunay V.place constraint_edges self.new }
        ensures err { OnErr result (self.new ≡ self.old) }
    {
        let edges = 3 * self.mesh().num_vertices();
        self.work.reserve(edges)?;
        self.crossing.reserve(edges)?;
        self.work.clear();
        add_path::<EdgeConstraints, _, _, _, _, _>(
            &mut self.dcel,
            from,
            to,
            tests,
            &mut self.crossing,
            &mut self.work,
        );
        let mut flips = 0;
        legalize::<EdgeConstraints, _, _, _, _, _>(
            &mut self.dcel,
            &Sides::Round,
            tests,
            &mut self.work,
            &mut flips,
        );
        self.num_constraints += missing;
        Ok(())
    }
}
