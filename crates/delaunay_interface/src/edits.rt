//! Insertions, of which the hint generator is told.
ghost use Rattle.std.specs.Prelude.{◌+◌, ◌≤◌, length};
ghost use Rattle.{half_edge_links.specs.MAX_ELEMENTS, plane.specs.InRange};
ghost use Rattle.delaunay_legalization.specs.{CountsFlips, FlipsFit};
ghost use Rattle.delaunay_edit.specs.{AreSites, Edits.AreSitesWith, InsertsVertex, IsDelaunay};

use crate::TriangulationCore;
use delaunay_core::HintGenerator;
use delaunay_core::math::{InsertionError, PlaneTests, validate_vertex};
use delaunay_core::point::HasPosition;
use delaunay_edit::{EdgeData, insert_at};
use delaunay_legalization::Embedding;
use delaunay_location::{LocationViews, PositionInTriangulation};
use delaunay_vertices::{FreeByDefault, reserve_for_vertices};
use half_edge_links::FixedVertexHandle;

impl<
    V: HasPosition + Drop,
    DE: Default,
    UE: Default,
    F: Default,
    L: HintGenerator<V::Scalar>,
    M: EdgeData<UE> + FreeByDefault<UE>,
> TriangulationCore<V, DE, UE, F, L, M> {
    /// Does what `insert` does, and adds the number of flips to `flips`. A count below 2^63 has
    /// room for them, as `flips_fit` says, a lemma of `spade_delaunay`; so has what one insertion
    /// counted from 0, by `first_count_is_small`. `counted_flips` is both:
    ///
    /// ```
    /// #[tactic(auto, using(spade_delaunay::proofs::Flips::counted_flips))]
    /// fn insert_counted(points: &mut Points, flips: &mut u64) -> Result<(), InsertionError> {
    ///     if points.num_vertices() < 100 && *flips < 1 << 63 {
    ///         points.insert_counting(Point2::new(2, 1), &ExactTests, flips)?;
    ///     }
    ///     Ok(())
    /// }
    /// ```
    pub fn insert_counting<P: PlaneTests<V::Scalar>>(
        &mut self,
        value: V,
        tests: &P,
        flips: &mut u64,
    ) -> Result<FixedVertexHandle, InsertionError>
        requires sites { AreSites V.place (P.sites tests.now) self.old.vertices }
        requires new_site { InRange (V.place value) → P.sites tests.now (V.place value) }
        requires fits { FlipsFit (length self.old.vertices + 1) flips.old }
        ensures inserts { InsertsVertex V.place M.constraints value result self.old self.new }
        ensures headline { IsDelaunay V.place M.constraints self.new }
        ensures counted { CountsFlips (length self.new.vertices) flips.old flips.new }
    {
        self.insert_told(value, None, tests, flips)
    }

    // Inserts a vertex by a search from `hint`, or from where the generator says, and tells the
    // generator of it where it was appended. A count of 0 has room where there are no more vertices
    // than a mesh can have.
    pub(crate) fn insert_told<P: PlaneTests<V::Scalar>>(
        &mut self,
        value: V,
        hint: Option<FixedVertexHandle>,
        tests: &P,
        flips: &mut u64,
    ) -> Result<FixedVertexHandle, InsertionError>
        requires sites { AreSitesWith V.place (P.sites tests.now) self.old.vertices value }
        requires fits { length self.old.vertices ≤ MAX_ELEMENTS →
            FlipsFit (length self.old.vertices + 1) flips.old }
        ensures inserts { InsertsVertex V.place M.constraints value result self.old self.new }
        ensures headline { IsDelaunay V.place M.constraints self.new }
        ensures counted { CountsFlips (length self.new.vertices) flips.old flips.new }
    {
        self.recall_well_formed();
        validate_vertex(&value)?;
        let position = value.position();
        let start = match hint {
            Some(vertex) => vertex,
            None => self.hint_generator.get_hint(position, tests),
        };
        let dcel = &self.dcel;
        let location = Embedding { dcel, tests }.locate_with_hint(position, start);
        match location {
            PositionInTriangulation::OnVertex(vertex) => {
                let _ = self.dcel.update_vertex(vertex, value);
                Ok(vertex)
            }
            _ => {
                let is_free = self.num_constraints == 0;
                reserve_for_vertices(&mut self.dcel, &mut self.work, 1, is_free)?;
                let dcel = &mut self.dcel;
                let work = &mut self.work;
                let (vertex, more) = insert_at::<M, _, _, _, _, _>(
                    dcel, location, value, is_free, tests, work, flips,
                );
                self.num_constraints += more;
                self.hint_generator
                    .notify_vertex_inserted(vertex, position, tests);
                Ok(vertex)
            }
        }
    }
}
