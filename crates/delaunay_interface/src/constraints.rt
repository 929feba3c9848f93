//! Constraints: which edges are such, edges that become or cease to be one, and what crosses them.
ghost use Rattle.std.specs.Prelude.{◌≡◌, ◌⊎◌, ◌↔◌, ◌*◌, ◌<◌, length, map, Contains};
ghost use Rattle.std.specs.Prelude.{IsTrue, IsOk, IfErr, IfOk, OnErr};
ghost use Rattle.plane.specs.{CanAdd, Joins, Unconstrains};
ghost use Rattle.half_edge_links.specs.{origin, rev};
ghost use Rattle.{delaunay_core.specs.place_of, delaunay_interface.specs.Views.CanAddConstraint};
ghost use Rattle.delaunay_legalization.specs.{point_at, points_and_constraints, triangulation_of};
ghost use Rattle.delaunay_location.specs.{IntersectsConstraint, IsReady, WalksLine};
ghost use Rattle.delaunay_edit.specs.{AddsConstraint, AddsPathIfFree, AreSites, constrained};
ghost use Rattle.delaunay_edit.specs.{constraint_edges, constraints_of, HasOtherEdgeData};
ghost use Rattle.delaunay_edit.specs.{Constrained.IsFree, IsDelaunay, ReleasesConstraint};
ghost use Rattle.delaunay_edit.specs.ConstraintEdits.{AddsIfFree, MayJoin};

use crate::{ConstrainedDelaunayTriangulation, DelaunayTriangulation, TriangulationCore};
use delaunay_core::HintGenerator;
use delaunay_core::math::PlaneTests;
use delaunay_core::point::{HasPosition, Point2};
use delaunay_edit::{ConstraintViews, PathViews, is_constraint_between, release_constraint};
use delaunay_legalization::{
    CdtEdge, EdgeConstraints, Embedding, free_edge_data, is_constraint_edge,
};
use delaunay_location::{ConflictingEdgesIterator, HasMesh, LineViews};
use half_edge_dcel::MeshViews;
use half_edge_links::{FixedDirectedEdgeHandle, FixedUndirectedEdgeHandle, FixedVertexHandle};
use std::alloc::AllocError;
use std::marker::PhantomData;

impl<V: HasPosition, DE, UE, F, L: HintGenerator<V::Scalar>> ConstrainedDelaunayTriangulation<
    V,
    DE,
    UE,
    F,
    L,
> {
    /// Whether no constraint has one point in common with the segment between two vertices of the
    /// triangulation that is strictly within both. It takes no memory.
    pub fn can_add_constraint<P: PlaneTests<V::Scalar>>(
        &self,
        from: FixedVertexHandle,
        to: FixedVertexHandle,
        tests: &P,
    ) -> bool
        requires from_in { from < length self.now.vertices }
        requires to_in { to < length self.now.vertices }
        requires sites { AreSites V.place (P.sites tests.now) self.now.vertices }
        ensures { IsTrue result ↔ CanAddConstraint V.place self.now from to }
    {
        let dcel = self.mesh();
        Embedding { dcel, tests }.can_add_path::<EdgeConstraints>(from, to)
    }

    /// Makes constraints of the edges between neighbours among the vertices on the segment between
    /// two of the triangulation, which no constraint crosses, as `can_add_constraint` tells; of a
    /// vertex and itself it makes none. Edges may be flipped, and all data but the marks of the new
    /// constraints stay, each under its handle. It tells whether that made a constraint of an edge
    /// that was none, and gives `AllocError` where memory was refused; then nothing changes, and so
    /// where it made none.
    pub fn add_constraint<P: PlaneTests<V::Scalar>>(
        &mut self,
        from: FixedVertexHandle,
        to: FixedVertexHandle,
        tests: &P,
    ) -> Result<bool, AllocError>
        requires from_in { from < length self.old.vertices }
        requires to_in { to < length self.old.vertices }
        requires free { CanAddConstraint V.place self.old from to }
        requires sites { AreSites V.place (P.sites tests.now) self.old.vertices }
        ensures adds { AddsConstraint V.place from to result self.old self.new }
        ensures headline { IsDelaunay V.place constraint_edges self.new }
    {
        match self.add_constraint_unless_crossed(from, to, tests) {
            Ok(Some(made)) => Ok(made),
            Ok(None) => unreachable!(),
            Err(refused) => Err(refused),
        }
    }

    /// Does what `add_constraint` does, unless a constraint crosses the segment, which it tells by
    /// `None`. So `can_add_constraint` need not be asked before, and the segment is walked along
    /// once less. Where a constraint crosses, nothing changes, and no memory is taken. It gives
    /// `AllocError` where memory was refused, and then nothing changes either.
    ///
    /// ```
    /// match site.add_constraint_unless_crossed(from, to, &ExactTests)? {
    ///     Some(made) => println!(rt; "a constraint, and a new one: {made}")?,
    ///     None => println!(rt; "another constraint is in the way")?,
    /// }
    /// ```
    pub fn add_constraint_unless_crossed<P: PlaneTests<V::Scalar>>(
        &mut self,
        from: FixedVertexHandle,
        to: FixedVertexHandle,
        tests: &P,
    ) -> Result<Option<bool>, AllocError>
        requires { MayJoin V.place (P.sites tests.now) self.old from to }
        ensures adds { AddsIfFree V.place from to result self.old self.new }
        ensures headline { IsDelaunay V.place constraint_edges self.new }
    {
        let dcel = self.mesh();
        if from == to {
            return Ok(Some(false));
        }
        if let Some(edge) = dcel.get_edge_from_neighbors(from, to) {
            let edge = edge.fix();
            return Ok(Some(self.constrain(edge)));
        }
        let embedding = Embedding { dcel, tests };
        let Some(missing) = embedding.count_path::<EdgeConstraints>(from, to) else {
            return Ok(None);
        };
        if missing == 0 {
            return Ok(Some(false));
        }
        self.join_path(from, to, missing, tests)?;
        Ok(Some(true))
    }

    /// Does what `add_constraint` does and gives the edges of the path, each directed along it, in
    /// order from `from` to `to`, as they are after the last flip. Where a constraint crosses the
    /// segment, or where the two vertices are one, it gives no edge and changes nothing, and takes
    /// no memory. It gives `AllocError` where memory was refused, and then nothing changes either.
    ///
    /// ```
    /// for edge in site.try_add_constraint(from, to, &ExactTests)? {
    ///     println!(rt; "constraint along edge {}", edge.index())?;
    /// }
    /// ```
    pub fn try_add_constraint<P: PlaneTests<V::Scalar>>(
        &mut self,
        from: FixedVertexHandle,
        to: FixedVertexHandle,
        tests: &P,
    ) -> Result<Vec<FixedDirectedEdgeHandle>, AllocError>
        requires from_in { from < length self.old.vertices }
        requires to_in { to < length self.old.vertices }
        requires sites { AreSites V.place (P.sites tests.now) self.old.vertices }
        ensures path { IfOk result
            (λ edges. AddsPathIfFree V.place from to edges.items self.old self.new) }
        ensures none { (from ≡ to) ⊎ (¬ CanAdd V.place (constrained self.old) from to) →
            IsOk result }
        ensures err { OnErr result (self.new ≡ self.old) }
        ensures headline { IsDelaunay V.place constraint_edges self.new }
    {
        let dcel = self.mesh();
        let mut edges = Vec::new(self.alloc);
        if from == to {
            return Ok(edges);
        }
        if let Some(edge) = dcel.get_edge_from_neighbors(from, to) {
            let edge = edge.fix();
            edges.push(edge)?;
            self.constrain(edge);
            return Ok(edges);
        }
        let embedding = Embedding { dcel, tests };
        let Some(missing) = embedding.count_path::<EdgeConstraints>(from, to) else {
            return Ok(edges);
        };
        edges.reserve(dcel.num_vertices())?;
        self.join_path(from, to, missing, tests)?;
        let dcel = self.mesh();
        Embedding { dcel, tests }.edges_along(from, to, &mut edges);
        Ok(edges)
    }

    /// Takes from an edge of the triangulation that it is a constraint, and tells whether it was
    /// one. Edges may be flipped then, it among them. Where it was none, nothing changes, and no
    /// memory is taken. An edge or face that is there before and after keeps its handle and its
    /// data. It gives `AllocError` where memory was refused, and then nothing changes.
    ///
    /// ```
    /// if site.remove_constraint_edge(edge, &ExactTests)? {
    ///     println!(rt; "{} constraints are left", site.num_constraints())?;
    /// }
    /// ```
    pub fn remove_constraint_edge<P: PlaneTests<V::Scalar>>(
        &mut self,
        edge: FixedUndirectedEdgeHandle,
        tests: &P,
    ) -> Result<bool, AllocError>
        requires within { edge < length self.old.undirected }
        requires sites { AreSites V.place (P.sites tests.now) self.old.vertices }
        ensures releases { ReleasesConstraint V.place edge result self.old self.new }
        ensures headline { IsDelaunay V.place constraint_edges self.new }
    {
        let edges = 3 * self.mesh().num_vertices();
        if !self.is_constraint_edge(edge) {
            return Ok(false);
        }
        self.work.reserve(edges)?;
        let mut flips = 0;
        release_constraint::<EdgeConstraints, _, _, _, _, _>(
            &mut self.dcel,
            edge,
            tests,
            &mut self.work,
            &mut flips,
        );
        self.num_constraints -= 1;
        Ok(true)
    }

    /// Whether an edge of the triangulation is a constraint.
    pub fn is_constraint_edge(&self, edge: FixedUndirectedEdgeHandle) -> bool
        requires { edge < length self.now.undirected }
        ensures marked { IsTrue result ↔ Contains (constraint_edges self.now.undirected) edge }
        ensures joined { let m = self.now.mesh in
            IsTrue result ↔ Joins (constraints_of self.now) (origin m (2 * edge))
            (origin m (rev (2 * edge))) }
    {
        is_constraint_edge::<EdgeConstraints, _, _, _, _>(self.mesh(), edge)
    }

    /// How many edges are constraints. The number is kept, so no edge is looked at.
    pub fn num_constraints(&self) -> usize
        ensures { result ≡ length (constraints_of self.now) }
    {
        self.num_constraints
    }

    /// Whether a constraint joins two vertices, in either order, by a look round the first. A
    /// handle of no vertex is joined to none.
    pub fn exists_constraint(&self, from: FixedVertexHandle, to: FixedVertexHandle) -> bool
        ensures { IsTrue result ↔ Joins (constraints_of self.now) from to }
    {
        let mesh = self.mesh();
        if (from.index() as usize) < mesh.num_vertices() {
            return is_constraint_between::<EdgeConstraints, _, _, _, _>(mesh, from, to);
        }
        false
    }

    /// The vertices, edges and faces of a triangulation without constraints, under the same
    /// handles, with its hint generator and no constraint. Where memory was refused, it gives the
    /// triangulation back as it was.
    pub fn from_delaunay(
        plain: DelaunayTriangulation<V, DE, UE, F, L>,
    ) -> Result<Self, DelaunayTriangulation<V, DE, UE, F, L>>
    where
        UE: Drop,
        ensures ok { IfOk result (HasOtherEdgeData IsFree plain) }
        ensures plain { IfOk result
            (λ c. Unconstrains V.place (points_and_constraints plain) (constrained c)) }
        ensures headline { IfOk result (IsDelaunay V.place constraint_edges) }
        ensures err { IfErr result (λ d. d ≡ plain) }
    {
        let TriangulationCore {
            dcel,
            work,
            lists,
            crossing,
            num_constraints,
            hint_generator,
            alloc,
            marks,
        } = plain;
        match dcel.map_undirected_edges(|data| free_edge_data(data)) {
            Ok(dcel) => Ok(TriangulationCore {
                dcel,
                work,
                lists,
                crossing,
                num_constraints: 0,
                hint_generator,
                alloc,
                marks: PhantomData,
            }),
            Err(dcel) => Err(TriangulationCore {
                dcel,
                work,
                lists,
                crossing,
                num_constraints,
                hint_generator,
                alloc,
                marks,
            }),
        }
    }

    /// Whether two positions that the tests cover differ and the segment between them meets a
    /// constraint in one point, strictly within the constraint. A constraint along the segment does
    /// not count, nor one that only ends on it. The hint generator says where the search for the
    /// first position begins.
    pub fn intersects_constraint<P: PlaneTests<V::Scalar>>(
        &self,
        from: Point2<V::Scalar>,
        to: Point2<V::Scalar>,
        tests: &P,
    ) -> bool
        requires sites { AreSites V.place (P.sites tests.now) self.now.vertices }
        requires from_covered { P.covered tests.now (place_of V.Scalar.whole from) }
        requires to_covered { P.covered tests.now (place_of V.Scalar.whole to) }
        ensures { let whole = V.Scalar.whole in
            IsTrue result ↔ IntersectsConstraint (triangulation_of V.place self.now)
            (constraints_of self.now) (place_of whole from) (place_of whole to) }
    {
        let start = self.search_start(from, tests);
        let dcel = self.mesh();
        Embedding { dcel, tests }.intersects_constraint::<EdgeConstraints>(from, to, start)
    }

    /// The constraints that the segment from one position to another meets in one point strictly
    /// within them, in the order along the segment, each in the direction of its
    /// `EdgeIntersection`. The tests cover both positions. The hint generator says where the search
    /// for the first begins.
    ///
    /// ```
    /// for constraint in site.get_conflicting_edges_between_points(from, to, &ExactTests) {
    ///     println!(rt; "constraint {}", constraint.as_undirected().fix().index())?;
    /// }
    /// ```
    pub fn get_conflicting_edges_between_points<'a, P: PlaneTests<V::Scalar>>(
        &'a self,
        from: Point2<V::Scalar>,
        to: Point2<V::Scalar>,
        tests: &'a P,
    ) -> ConflictingEdgesIterator<'a, EdgeConstraints, V, DE, CdtEdge<UE>, F, P>
        requires sites { AreSites V.place (P.sites tests.now) self.now.vertices }
        requires from_covered { P.covered tests.now (place_of V.Scalar.whole from) }
        requires to_covered { P.covered tests.now (place_of V.Scalar.whole to) }
        ensures line { let whole = V.Scalar.whole in
            WalksLine V.place whole self.now (place_of whole from) (place_of whole to) result.line }
        ensures ready { IsReady V.place V.Scalar.whole P.sites P.covered result.line }
    {
        let start = self.search_start(from, tests);
        let dcel = self.mesh();
        ConflictingEdgesIterator::between_points(&Embedding { dcel, tests }, from, to, start)
    }

    /// The same for the segment from one vertex to another.
    pub fn get_conflicting_edges_between_vertices<'a, P: PlaneTests<V::Scalar>>(
        &'a self,
        from: FixedVertexHandle,
        to: FixedVertexHandle,
        tests: &'a P,
    ) -> ConflictingEdgesIterator<'a, EdgeConstraints, V, DE, CdtEdge<UE>, F, P>
        requires from_in { from < length self.now.vertices }
        requires to_in { to < length self.now.vertices }
        requires sites { AreSites V.place (P.sites tests.now) self.now.vertices }
        ensures line { let points = map V.place self.now.vertices in
            WalksLine V.place V.Scalar.whole self.now (point_at points from) (point_at points to)
            result.line }
        ensures ready { IsReady V.place V.Scalar.whole P.sites P.covered result.line }
    {
        let dcel = self.mesh();
        ConflictingEdgesIterator::between_vertices(&Embedding { dcel, tests }, from, to)
    }
}
