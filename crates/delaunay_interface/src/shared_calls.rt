//! The calls of the trait, for the struct that both triangulation types are.
ghost use Rattle.std.specs.Prelude.{refl};
ghost use Rattle.delaunay_edit.specs.{with_face_data};
ghost use Rattle.delaunay_edit.specs.Writing.{with_directed_data, with_undirected_data};

use crate::TriangulationCore;
use crate::lookups::position_if;
use crate::triangulation::{Triangulation, sealed};
use delaunay_core::HintGenerator;
use delaunay_core::math::{InsertionError, PlaneTests};
use delaunay_core::point::HasPosition;
use delaunay_edit::{CrossingLists, EdgeData, reserve_to_join, settle};
use delaunay_legalization::EdgeSet;
use delaunay_location::HasMesh;
use delaunay_vertices::{FreeByDefault, RemovalLists, remove_vertex, reserve_for_vertices};
use half_edge_dcel::Dcel;
use half_edge_links::{
    FixedDirectedEdgeHandle, FixedFaceHandle, FixedUndirectedEdgeHandle, FixedVertexHandle,
    MAX_ELEMENTS, ReserveError,
};
use std::alloc::{AllocError, Global};
use std::marker::PhantomData;

impl<V: HasPosition, DE, UE, F, L: HintGenerator<V::Scalar>, M: EdgeData<UE>> sealed::Sealed
    for TriangulationCore<V, DE, UE, F, L, M> {}

impl<
    V: HasPosition + Drop,
    DE: Default + Drop,
    UE: Default + Drop,
    F: Default + Drop,
    L: HintGenerator<V::Scalar>,
    M: EdgeData<UE> + FreeByDefault<UE>,
> Triangulation for TriangulationCore<V, DE, UE, F, L, M> {
    type Vertex = V;

    type DirectedEdge = DE;

    type UndirectedEdge = UE;

    type UndirectedUserData = M::User;

    type Face = F;

    type HintGenerator = L;

    type Constraints = M;

    ghost state = { λ t. t };

    ghost state_is_of_mesh = { λ _. refl };

    ghost with_directed = { with_directed_data };

    ghost with_user = { λ s e w. with_undirected_data s (M.with_user s.undirected e w) };

    ghost with_face = { with_face_data };

    ghost writes_directed = { λ _ _ _. refl };

    ghost writes_user = { λ _ _ _. refl };

    ghost writes_face = { λ _ _ _. refl };

    fn s(&self) -> &Dcel<V, DE, UE, F> {
        self.mesh()
    }

    fn hint_generator(&self) -> &L {
        &self.hint_generator
    }

    fn recall_invariant(&self) {
        self.recall_well_formed();
    }

    fn new(alloc: Global) -> Self {
        TriangulationCore {
            dcel: Dcel::new(alloc),
            work: EdgeSet::new(alloc),
            lists: RemovalLists::new(alloc),
            crossing: CrossingLists::new(alloc),
            num_constraints: 0,
            hint_generator: L::new(alloc),
            alloc,
            marks: PhantomData,
        }
    }

    fn with_capacity(
        alloc: Global,
        vertices: usize,
        undirected_edges: usize,
        faces: usize,
    ) -> Result<Self, InsertionError> {
        let mut made = Self::new(alloc);
        let dcel = &mut made.dcel;
        match dcel.reserve_capacity(vertices, undirected_edges, faces) {
            Ok(()) => Ok(made),
            Err(ReserveError::TooMany) => Err(InsertionError::OutOfIndexes),
            Err(ReserveError::OutOfMemory) => Err(InsertionError::OutOfMemory),
        }
    }

    fn reserve(&mut self, additional: usize) -> Result<(), InsertionError> {
        if additional > MAX_ELEMENTS {
            return Err(InsertionError::OutOfIndexes);
        }
        let is_free = self.num_constraints == 0;
        reserve_for_vertices(&mut self.dcel, &mut self.work, additional, is_free)
    }

    fn insert<P: PlaneTests<V::Scalar>>(
        &mut self,
        value: V,
        tests: &P,
    ) -> Result<FixedVertexHandle, InsertionError> {
        let mut flips = 0;
        self.insert_told(value, None, tests, &mut flips)
    }

    fn insert_with_hint<P: PlaneTests<V::Scalar>>(
        &mut self,
        value: V,
        hint: FixedVertexHandle,
        tests: &P,
    ) -> Result<FixedVertexHandle, InsertionError> {
        let mut flips = 0;
        self.insert_told(value, Some(hint), tests, &mut flips)
    }

    fn remove<P: PlaneTests<V::Scalar>>(
        &mut self,
        vertex: FixedVertexHandle,
        tests: &P,
    ) -> Result<V, AllocError> {
        let edges = 3 * self.s().num_vertices();
        self.work.reserve(edges)?;
        self.lists.reserve_for(&self.dcel, vertex)?;
        let border = self.sides_to_test(vertex)?;
        let halves = self.halves_at(vertex, tests);
        reserve_to_join(&mut self.crossing, &halves, edges)?;
        let lost = self.count_lost(vertex, &halves);
        let is_free = self.num_constraints == 0;
        let removed = remove_vertex::<M, _, _, _, _, _>(
            &mut self.dcel,
            vertex,
            is_free,
            tests,
            &mut self.lists,
        );
        let mut flips = 0;
        settle::<M, _, _, _, _, _>(
            &mut self.dcel,
            vertex,
            halves,
            is_free,
            border.as_slice(),
            tests,
            &mut self.lists,
            &mut self.crossing,
            &mut self.work,
            &mut flips,
        );
        self.num_constraints -= lost;
        let swapped_in = position_if(&self.dcel, vertex);
        self.hint_generator
            .notify_vertex_removed(swapped_in, vertex, removed.position(), tests);
        Ok(removed)
    }

    fn clear(&mut self) {
        self.dcel.clear();
        self.num_constraints = 0;
        self.hint_generator = L::new(self.alloc);
    }

    fn replace_vertex(&mut self, vertex: FixedVertexHandle, value: V) -> V {
        self.dcel.update_vertex(vertex, value)
    }

    fn directed_edge_data_mut(&mut self, edge: FixedDirectedEdgeHandle) -> &mut DE {
        self.dcel.directed_edge_data_mut(edge)
    }

    fn undirected_edge_data_mut(&mut self, edge: FixedUndirectedEdgeHandle) -> &mut M::User {
        M::user_data_mut(&mut self.dcel, edge)
    }

    fn face_data_mut(&mut self, face: FixedFaceHandle) -> &mut F {
        self.dcel.face_data_mut(face)
    }
}
