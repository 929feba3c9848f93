//! Constraints between vertices that are inserted for them.
ghost use Rattle.std.specs.Prelude.{◌≡◌, ◌<◌, List, length, IfOk};
ghost use Rattle.std.specs.Iterator.{IsFinite};
ghost use Rattle.plane.specs.{InRange};
ghost use Rattle.delaunay_edit.specs.{AreSites, constraint_edges, IsDelaunay};
ghost use Rattle.delaunay_interface.specs.ConstraintEdges.{AddsConstraintEdge, AddsConstraintEdges};
ghost use Rattle.delaunay_interface.specs.ConstraintEdges.{InsertsEnd, JoinsVertices, MayGive};
ghost use Rattle.delaunay_interface.specs.ConstraintEdges.{StaysReady, Takes};

use crate::{ConstrainedDelaunayTriangulation, ConstraintError, Triangulation};
use delaunay_core::HintGenerator;
use delaunay_core::math::{InsertionError, PlaneTests};
use delaunay_core::point::HasPosition;
use half_edge_links::FixedVertexHandle;

impl<
    V: HasPosition + Drop,
    DE: Default + Drop,
    UE: Default + Drop,
    F: Default + Drop,
    L: HintGenerator<V::Scalar>,
> ConstrainedDelaunayTriangulation<V, DE, UE, F, L> {
    // Inserts a vertex as `insert` does.
    fn insert_end<P: PlaneTests<V::Scalar>>(
        &mut self,
        value: V,
        tests: &P,
    ) -> Result<FixedVertexHandle, ConstraintError>
        requires sites { AreSites V.place (P.sites tests.now) self.old.vertices }
        requires new_site { InRange (V.place value) → P.sites tests.now (V.place value) }
        ensures inserts { InsertsEnd V.place value result self.old self.new }
        ensures within { IfOk result (λ v. v < length self.new.vertices) }
        ensures ready { StaysReady V.place (P.sites tests.now) self.old self.new }
    {
        match self.insert(value, tests) {
            Ok(vertex) => Ok(vertex),
            Err(error) => Err(ConstraintError::Insertion(error)),
        }
    }

    // Joins two vertices by constraints, or says why not.
    fn join_vertices<P: PlaneTests<V::Scalar>>(
        &mut self,
        from: FixedVertexHandle,
        to: FixedVertexHandle,
        tests: &P,
    ) -> Result<bool, ConstraintError>
        requires from_in { from < length self.old.vertices }
        requires to_in { to < length self.old.vertices }
        requires sites { AreSites V.place (P.sites tests.now) self.old.vertices }
        ensures joins { JoinsVertices V.place from to result self.old self.new }
        ensures vertices { self.new.vertices ≡ self.old.vertices }
        ensures headline { IsDelaunay V.place constraint_edges self.new }
    {
        match self.add_constraint_unless_crossed(from, to, tests) {
            Ok(Some(made)) => Ok(made),
            Ok(None) => Err(ConstraintError::Conflict),
            Err(_) => Err(ConstraintError::Insertion(InsertionError::OutOfMemory)),
        }
    }

    /// Inserts two vertices as `insert` does, and joins them by constraints as `add_constraint`
    /// does. It tells whether that made a constraint of an edge that was none. It gives `Insertion`
    /// where a vertex was refused, or where memory was refused when both were there, and `Conflict`
    /// exactly where a constraint crosses the segment. What was inserted before a refusal stays.
    ///
    /// ```
    /// let (from, to) = (Point2::new(0, 0), Point2::new(4, 2));
    /// if site.add_constraint_edge(from, to, &ExactTests)? {
    ///     println!(rt; "{} constraints", site.num_constraints())?;
    /// }
    /// ```
    pub fn add_constraint_edge<P: PlaneTests<V::Scalar>>(
        &mut self,
        from: V,
        to: V,
        tests: &P,
    ) -> Result<bool, ConstraintError>
        requires sites { AreSites V.place (P.sites tests.now) self.old.vertices }
        requires from_site { InRange (V.place from) → P.sites tests.now (V.place from) }
        requires to_site { InRange (V.place to) → P.sites tests.now (V.place to) }
        ensures adds { AddsConstraintEdge V.place from to result self.old self.new }
        ensures headline { IsDelaunay V.place constraint_edges self.new }
    {
        let from = self.insert_end(from, tests)?;
        let to = self.insert_end(to, tests)?;
        self.join_vertices(from, to, tests)
    }

    /// Inserts vertices as `insert` does, joins each to the one before it by constraints as
    /// `add_constraint` does, and at last, where `closed` says so, the last to the first, unless
    /// they are one. It gives `Insertion` where a vertex was refused, or where memory was refused
    /// when two were to be joined, and `Conflict` exactly where a constraint crosses their segment.
    /// What was inserted and joined before a refusal stays. The iterator has to be one that ends.
    ///
    /// ```
    /// let corners = [Point2::new(0, 0), Point2::new(4, 0), Point2::new(0, 4)];
    /// site.add_constraint_edges(corners.into_iter(), true, &ExactTests)?;
    /// println!(rt; "{} constraints", site.num_constraints())?; // 3 constraints
    /// ```
    pub fn add_constraint_edges<I: Iterator<Item = V>, P: PlaneTests<V::Scalar>>(
        &mut self,
        mut vertices: I,
        closed: bool,
        tests: &P,
    ) -> Result<(), ConstraintError>
        requires can_next { I.can_next vertices }
        requires ends { IsFinite (I.remaining vertices) }
        requires sites { AreSites V.place (P.sites tests.now) self.old.vertices }
        requires new_sites { (v : V) → MayGive I.next_gives vertices v → InRange (V.place v) →
            P.sites tests.now (V.place v) }
        ensures adds { (vs : List V) × Takes I.next_gives vertices vs result ×
            AddsConstraintEdges V.place vs closed result self.old self.new }
        ensures headline { IsDelaunay V.place constraint_edges self.new }
    {
        self.recall_invariant();
        let Some(start) = vertices.next() else {
            return Ok(());
        };
        let first = self.insert_end(start, tests)?;
        let mut last = first;
        for vertex in vertices {
            let next = self.insert_end(vertex, tests)?;
            self.join_vertices(last, next, tests)?;
            last = next;
        }
        if !closed || last == first {
            return Ok(());
        }
        self.join_vertices(last, first, tests)?;
        Ok(())
    }
}
