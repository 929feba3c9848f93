//! The struct that both triangulation types are.
ghost use Rattle.std.specs.Prelude.{◌≡◌, IfOk};
ghost use Rattle.{delaunay_core.specs.place_of, delaunay_edit.specs.KeepsImage};
ghost use Rattle.delaunay_legalization.specs.{constraints_by, state_of};
ghost use Rattle.delaunay_edit.specs.{AreSites, IsCopy, IsCounted, IsDelaunay, IsWellFormed};

use delaunay_core::math::PlaneTests;
use delaunay_core::point::{HasPosition, Point2};
use delaunay_core::{HintGenerator, LastUsedVertexHintGenerator};
use delaunay_edit::{CrossingLists, EdgeData};
use delaunay_legalization::{CdtEdge, EdgeConstraints, EdgeSet, NoConstraints};
use delaunay_location::HasMesh;
use delaunay_vertices::RemovalLists;
use half_edge_dcel::Dcel;
use half_edge_links::FixedVertexHandle;
use std::alloc::{AllocError, Global};
use std::marker::{Model, PhantomData};

/// A triangulation of vertices with different positions: its faces tile the hull of the positions,
/// or its edges join the positions of one line to their neighbours. The constraints are the edges
/// that the marker `M` finds by their data, and no face has a vertex strictly inside its circle
/// that is seen from inside the face past the constraints. A hint generator is told of each vertex
/// that comes and goes, and says where searches begin.
#[derive(Drop)]
pub struct TriangulationCore<
    V: HasPosition,
    DE,
    UE,
    F,
    L: HintGenerator<V::Scalar>,
    M: EdgeData<UE>,
> {
    // The vertices, edges and faces.
    pub(crate) dcel: Dcel<V, DE, UE, F>,
    // The edges that a legalization has still to test: none between edits, but the room for them
    // stays.
    pub(crate) work: EdgeSet,
    // What a removal lists besides.
    pub(crate) lists: RemovalLists,
    // The edges that cross a subconstraint of a path while it becomes one.
    pub(crate) crossing: CrossingLists,
    pub(crate) num_constraints: usize,
    pub(crate) hint_generator: L,
    pub(crate) alloc: Global,
    pub(crate) marks: PhantomData<M>,
}

impl<V: HasPosition, DE, UE, F, L: HintGenerator<V::Scalar>, M: EdgeData<UE>> Model
    for TriangulationCore<V, DE, UE, F, L, M> {
    ghost use Rattle.std.specs.Prelude.{◌*◌, map};
    ghost use Rattle.{delaunay_legalization.specs.state_of, plane.specs.IsAtMostOf};
    ghost use Rattle.{delaunay_edit.specs.IsCounted, delaunay_legalization.specs.State.State};

    ghost Value = { State V DE UE F };

    ghost view = { λ c. state_of c.dcel };

    // The mesh is legal, the number is that of its constraints, and what the generator holds are
    // positions of vertices.
    ghost invariant = { λ c.
        IsCounted V.place M.constraints (state_of c.dcel) c.num_constraints ×
        IsAtMostOf (L.holds c.hint_generator) (map V.place c.dcel.vertices) };
}

impl<V: HasPosition, DE, UE, F, L: HintGenerator<V::Scalar>, M: EdgeData<UE>> TriangulationCore<
    V,
    DE,
    UE,
    F,
    L,
    M,
> {
    // Gives a proof what holds of each triangulation between edits. It does nothing when it runs.
    pub(crate) fn recall_well_formed(&self)
        ensures { IsWellFormed V.place M.constraints self.now }
    {
        self.dcel.recall_invariant();
    }
}

impl<
    V: HasPosition + Clone + Drop,
    DE: Clone + Drop,
    UE: Clone + Drop,
    F: Clone + Drop,
    L: HintGenerator<V::Scalar>,
    M: EdgeData<UE>,
> TriangulationCore<V, DE, UE, F, L, M> {
    /// A copy with the same vertices, edges, faces and constraints under the same handles, clones
    /// of all data, and a duplicate of the hint generator. Each clone of one of its vertices has
    /// that one's position, and each clone of the data of one of its edges is a constraint where
    /// that edge is one. It gives `AllocError` where memory was refused.
    ///
    /// ```
    /// let mut copy = points.try_clone()?;
    /// copy.insert(Point2::new(9, 9), &ExactTests)?; // `points` stays
    /// ```
    pub fn try_clone(&self) -> Result<Self, AllocError>
        requires places { KeepsImage V.is_clone V.place self.now.vertices }
        requires marks { KeepsImage UE.is_clone M.marks self.now.undirected }
        ensures copy { IfOk result
            (IsCopy V.is_clone DE.is_clone UE.is_clone F.is_clone self.now) }
        ensures constraints { IfOk result
            (λ c. constraints_by M.constraints c ≡ constraints_by M.constraints self.now) }
        ensures headline { IfOk result (IsDelaunay V.place M.constraints) }
    {
        Ok(TriangulationCore {
            dcel: self.dcel.clone()?,
            work: EdgeSet::new(self.alloc),
            lists: RemovalLists::new(self.alloc),
            crossing: CrossingLists::new(self.alloc),
            num_constraints: self.num_constraints,
            hint_generator: self.hint_generator.duplicate(),
            alloc: self.alloc,
            marks: PhantomData,
        })
    }
}

impl<V: HasPosition, DE, UE, F, L: HintGenerator<V::Scalar>, M: EdgeData<UE>> HasMesh<V, DE, UE, F>
    for TriangulationCore<V, DE, UE, F, L, M> {
    ghost mesh_state = { λ s. s };

    fn search_start<P: PlaneTests<V::Scalar>>(
        &self,
        position: Point2<V::Scalar>,
        tests: &P,
    ) -> FixedVertexHandle
        requires sites { AreSites V.place (P.sites tests.now) self.now.vertices }
        requires covered { P.covered tests.now (place_of V.Scalar.whole position) }
    {
        self.recall_well_formed();
        self.hint_generator.get_hint(position, tests)
    }

    fn mesh(&self) -> &Dcel<V, DE, UE, F>
        ensures state { state_of result.now ≡ self.now }
        ensures well_formed { IsWellFormed V.place M.constraints self.now }
    {
        self.recall_well_formed();
        &self.dcel
    }
}

/// A triangulation of vertices with different positions. Its inner faces turn left and tile the
/// hull of the positions, and none has a vertex strictly inside its circle; where the positions are
/// on one line there is no inner face, and edges join the neighbours. What its calls ask of handles
/// and of tests is what those of the trait `Triangulation` ask.
///
/// Here a square of four points and its centre, and the vertex that is nearest to `(3, 1)`:
///
/// ```
/// let mut square: DelaunayTriangulation<Point2<i64>> = DelaunayTriangulation::new(rt.alloc());
/// for (x, y) in [(-1, -1), (1, -1), (1, 1), (-1, 1), (0, 0)] {
///     square.insert(Point2::new(x, y), &ExactTests)?;
/// }
/// println!(rt; "{} faces", square.num_inner_faces())?; // 4 faces
/// let nearest = square.nearest_neighbor(Point2::new(3, 1), &ExactTests); // vertex 2
/// ```
pub type DelaunayTriangulation<V, DE = (), UE = (), F = (), L = LastUsedVertexHintGenerator> =
    TriangulationCore<V, DE, UE, F, L, NoConstraints>;

/// A triangulation of vertices with different positions, some of whose edges are constraints, which
/// stay edges. Its inner faces turn left and tile the hull of the positions, and none has a vertex
/// strictly inside its circle that is seen from inside the face past the constraints; where the
/// positions are on one line there is no inner face, and edges join the neighbours. What its calls
/// ask of handles and of tests is what those of the trait `Triangulation` ask: handles in range,
/// sites for its vertices and for positions in range that are inserted, and that positions asked
/// for are covered.
///
/// Here a constraint from vertex 0 to vertex 2, where no other constraint crosses it:
///
/// ```
/// if site.can_add_constraint(from, to, &ExactTests) {
///     let made = site.add_constraint(from, to, &ExactTests)?; // true
/// }
/// println!(rt; "{} constraints", site.num_constraints())?; // 1 constraints
/// ```
pub type ConstrainedDelaunayTriangulation<
    V,
    DE = (),
    UE = (),
    F = (),
    L = LastUsedVertexHintGenerator,
> = TriangulationCore<V, DE, CdtEdge<UE>, F, L, EdgeConstraints>;
