//! The calls of both triangulation types.
ghost use Rattle.std.specs.Prelude.{◌≡◌, ℕ, ◌+◌, ◌*◌, ◌<◌, ◌≤◌, ◌↔◌, [], ◌∷◌, length, map, Some};
ghost use Rattle.std.specs.Prelude.{IsTrue, IsOk, IsErrOf, IfOk, MatchOption, slice_get, slice_set};
ghost use Rattle.std.specs.Borrow.{Lends, sem};
ghost use Rattle.std.specs.List.{range_with_len};
ghost use Rattle.plane.specs.{InRange, IsAtMostOf, PlainEdits.IsCleared, Replaces};
ghost use Rattle.half_edge_links.specs.{empty, MAX_ELEMENTS, Room.AreFewEnough};
ghost use Rattle.{half_edge_dcel.specs.hull_left, half_edge_dcel.specs.Left.vertices_left};
ghost use Rattle.half_edge_dcel.specs.Left.{directed_edges_left, faces_left, undirected_edges_left};
ghost use Rattle.delaunay_core.specs.{OutOfIndexes, place_of, TooLarge};
ghost use Rattle.delaunay_legalization.specs.{IsKnown, point_at, points_and_constraints_by};
ghost use Rattle.delaunay_legalization.specs.{State.State, state_of, triangulation_of};
ghost use Rattle.delaunay_edit.specs.{AreSites, FindsLocation, GivesElements, InsertsVertex};
ghost use Rattle.delaunay_edit.specs.{IsDelaunay, IsWellFormed, RemovesVertex, with_face_data};
ghost use Rattle.delaunay_edit.specs.{Edits.LocatesAndRemoves, Hull.CountsHullEdges};
ghost use Rattle.delaunay_edit.specs.{Elements.IsVertexAt, Storage.IsEmptyState};
ghost use Rattle.delaunay_edit.specs.Writing.{with_directed_data, with_undirected_data};
ghost use Rattle.delaunay_interface.specs.InnerFaces.{inner_faces_left};
ghost use Rattle.delaunay_interface.specs.Views.{AreNotJoined, AreOnLine, corners_at, ends_at};
ghost use Rattle.delaunay_interface.specs.Views.{GivesOutline, IsEdgeBetween, IsElement};

use crate::lookups::vertex_near;
use crate::{
    DirectedEdgesOf, DirectedVoronoiEdgesOf, FacesOf, HullOf, InnerFaceIterator, InnerFacesOf,
    UndirectedEdgesOf, UndirectedVoronoiEdgesOf, VerticesOf, VoronoiFacesOf,
};
use delaunay_core::HintGenerator;
use delaunay_core::math::{InsertionError, PlaneTests};
use delaunay_core::point::{HasPosition, Point2};
use delaunay_edit::EdgeData;
use delaunay_legalization::Embedding;
use delaunay_location::{HasMesh, LocationViews, PositionInTriangulation};
use half_edge_dcel::{
    Dcel, DirectedEdgeHandle, FaceHandle, MeshViews, UndirectedEdgeHandle, VertexHandle,
};
use half_edge_links::{
    FixedDirectedEdgeHandle, FixedDirectedEdgeIterator, FixedFaceHandle, FixedFaceIterator,
    FixedUndirectedEdgeHandle, FixedUndirectedEdgeIterator, FixedVertexHandle, FixedVertexIterator,
};
use half_edge_mesh::VoronoiViews;
use std::alloc::{AllocError, Global};

pub(crate) mod sealed {
    pub trait Sealed {}
}

/// What `DelaunayTriangulation` and `ConstrainedDelaunayTriangulation` have in common. No other
/// type has it.
///
/// A function over either type, which looks for a position and removes the vertex there:
///
/// ```
/// fn forget<T: Triangulation, P: PlaneTests<<T::Vertex as HasPosition>::Scalar>>(
///     points: &mut T,
///     position: Point2<<T::Vertex as HasPosition>::Scalar>,
///     tests: &P,
/// ) -> Result<bool, AllocError> {
///     Ok(points.locate_and_remove(position, tests)?.is_some())
/// }
/// ```
///
/// Calls that ask tests want each vertex to be a site of them, and so a position in range that is
/// inserted, and each position that is asked for to be covered by them. Handles are those of this
/// triangulation: `get_vertex` and the counts tell whether they are in range.
pub trait Triangulation: Drop
    + sealed::Sealed
    + HasMesh<Self::Vertex, Self::DirectedEdge, Self::UndirectedEdge, Self::Face> {
    /// What a vertex is: it has a position.
    type Vertex: HasPosition + Drop;

    /// The data of a directed edge.
    type DirectedEdge: Default + Drop;

    /// The data of an edge, with the mark of a constraint where edges may be constraints.
    type UndirectedEdge: Default + Drop;

    /// The user's part of the data of an edge.
    type UndirectedUserData;

    /// The data of a face.
    type Face: Default + Drop;

    /// Tells at which vertex a search begins.
    type HintGenerator: HintGenerator<<Self::Vertex as HasPosition>::Scalar>;

    /// Which edges are constraints.
    type Constraints: EdgeData<Self::UndirectedEdge, User = Self::UndirectedUserData>;

    ghost state: { Self → State Self.Vertex Self.DirectedEdge Self.UndirectedEdge Self.Face };

    // The mesh, for the bodies below.
    fn s(&self) -> &Dcel<Self::Vertex, Self::DirectedEdge, Self::UndirectedEdge, Self::Face>
        ensures state { state_of result.now ≡ state self.now }
        ensures well_formed { IsWellFormed Self.Vertex.place Self.Constraints.constraints
            (state self.now) };

    // The generator that is asked where searches begin.
    fn hint_generator(&self) -> &Self::HintGenerator
        ensures { IsAtMostOf (Self.HintGenerator.holds result.now)
            (map Self.Vertex.place (state self.now).vertices) };

    /// Gives a proof what holds of each triangulation between edits. It does nothing when it runs.
    fn recall_invariant(&self)
        ensures { IsWellFormed Self.Vertex.place Self.Constraints.constraints (state self.now) };

    // What it ends as, with other data of a directed edge, of the user's of an edge, or of a face.
    ghost with_directed: { Self → ℕ → Self.DirectedEdge → Self };

    ghost with_user: { Self → ℕ → Self.UndirectedUserData → Self };

    ghost with_face: { Self → ℕ → Self.Face → Self };

    /// No vertex, no edge, and the outer face with default data.
    fn new(alloc: Global) -> Self
        ensures empty { IsEmptyState Self.Face.is_default (state result) }
        ensures headline { IsDelaunay Self.Vertex.place Self.Constraints.constraints
            (state result) };

    /// No vertex and no edge, with room for these totals, the outer face among them. It gives
    /// `OutOfIndexes` where a total passes `MAX_ELEMENTS`, with edges counted twice, and else
    /// `OutOfMemory` where memory was refused.
    ///
    /// ```
    /// let points: DelaunayTriangulation<Point2<i64>> =
    ///     DelaunayTriangulation::with_capacity(rt.alloc(), 100, 294, 196)?;
    /// ```
    fn with_capacity(
        alloc: Global,
        vertices: usize,
        undirected_edges: usize,
        faces: usize,
    ) -> Result<Self, InsertionError>
        ensures ok { IfOk result (λ t. IsEmptyState Self.Face.is_default (state t)) }
        ensures headline { IfOk result
            (λ t. IsDelaunay Self.Vertex.place Self.Constraints.constraints (state t)) }
        ensures full { IsErrOf result OutOfIndexes ↔ ¬ AreFewEnough vertices undirected_edges
            faces }
        ensures not_too_large { ¬ IsErrOf result TooLarge }
        ensures nothing { vertices ≡ 0 → undirected_edges ≡ 0 → faces ≤ 1 → IsOk result };

    /// Makes room for so many more vertices, with the edges and faces that they can bring. Nothing
    /// else changes, whatever it gives: `OutOfIndexes` exactly where six times the new number of
    /// vertices passes `MAX_ELEMENTS`, and `OutOfMemory` where memory was refused.
    ///
    /// ```
    /// points.reserve(1000)?;
    /// ```
    fn reserve(&mut self, additional: usize) -> Result<(), InsertionError>
        ensures same { state self.new ≡ state self.old }
        ensures full { IsErrOf result OutOfIndexes ↔
            (MAX_ELEMENTS < 6 * (length (state self.old).vertices + additional)) }
        ensures not_too_large { ¬ IsErrOf result TooLarge };

    /// Inserts a vertex and gives its handle. The first of these that applies decides: `TooLarge`
    /// where a coordinate is out of range; the handle of the vertex at its position, which it
    /// replaces; `OutOfIndexes` where the mesh is full; `OutOfMemory` where memory was refused;
    /// else the handle of the new last vertex, of which the hint generator is told. A constraint
    /// that the new vertex is strictly within becomes two, and no other edge becomes one. Handles
    /// of vertices stay, and those of edges and faces may change. An edge or a face that is there
    /// before and after keeps its data, and so does the outer face. A refused vertex is dropped,
    /// and nothing else changes.
    ///
    /// ```
    /// let first = points.insert(Point2::new(0, 0), &ExactTests)?; // vertex 0
    /// let second = points.insert(Point2::new(4, 0), &ExactTests)?; // vertex 1
    /// let again = points.insert(Point2::new(0, 0), &ExactTests)?; // vertex 0, replaced
    /// ```
    fn insert<P: PlaneTests<<Self::Vertex as HasPosition>::Scalar>>(
        &mut self,
        value: Self::Vertex,
        tests: &P,
    ) -> Result<FixedVertexHandle, InsertionError>
        requires sites { AreSites Self.Vertex.place (P.sites tests.now) (state self.old).vertices }
        requires new_site { InRange (Self.Vertex.place value) → P.sites tests.now
            (Self.Vertex.place value) }
        ensures inserts { InsertsVertex Self.Vertex.place Self.Constraints.constraints value
            result (state self.old) (state self.new) }
        ensures headline { IsDelaunay Self.Vertex.place Self.Constraints.constraints
            (state self.new) };

    /// Does what `insert` does, by a search from the vertex `hint`; a handle of no vertex counts as
    /// the first.
    fn insert_with_hint<P: PlaneTests<<Self::Vertex as HasPosition>::Scalar>>(
        &mut self,
        value: Self::Vertex,
        hint: FixedVertexHandle,
        tests: &P,
    ) -> Result<FixedVertexHandle, InsertionError>
        requires sites { AreSites Self.Vertex.place (P.sites tests.now) (state self.old).vertices }
        requires new_site { InRange (Self.Vertex.place value) → P.sites tests.now
            (Self.Vertex.place value) }
        ensures inserts { InsertsVertex Self.Vertex.place Self.Constraints.constraints value
            result (state self.old) (state self.new) }
        ensures headline { IsDelaunay Self.Vertex.place Self.Constraints.constraints
            (state self.new) };

    /// Removes a vertex, with the constraints that end at it, and gives it back; the last vertex
    /// takes its handle, and the hint generator is told. Where exactly two constraints end at it,
    /// and it is strictly between their other ends, a constraint joins these then. Handles of edges
    /// and faces change too. Each other constraint stays. An edge that did not end at the vertex,
    /// or a face without that corner, that is there before and after keeps its data, and so does
    /// the outer face. It gives `AllocError` where memory was refused, and then nothing changes.
    ///
    /// ```
    /// if (vertex.index() as usize) < points.num_vertices() {
    ///     let position = points.remove(vertex, &ExactTests)?;
    ///     println!(rt; "{} {} is gone", position.x, position.y)?;
    /// }
    /// ```
    fn remove<P: PlaneTests<<Self::Vertex as HasPosition>::Scalar>>(
        &mut self,
        vertex: FixedVertexHandle,
        tests: &P,
    ) -> Result<Self::Vertex, AllocError>
        requires within { vertex < length (state self.old).vertices }
        requires sites { AreSites Self.Vertex.place (P.sites tests.now) (state self.old).vertices }
        ensures removes { RemovesVertex Self.Vertex.place Self.Constraints.constraints vertex
            result (state self.old) (state self.new) }
        ensures headline { IsDelaunay Self.Vertex.place Self.Constraints.constraints
            (state self.new) };

    /// Forgets each vertex, each edge with its constraint, and each inner face. The outer face
    /// keeps its data, memory that was taken is kept for later insertions, and the hint generator
    /// is a new one. It is never refused.
    fn clear(&mut self)
        ensures new { state self.new ≡ record (state self.old)
            { vertices = []; mesh = empty; directed = []; undirected = []; faces = [] } }
        ensures plain { IsCleared Self.Vertex.place
            (points_and_constraints_by Self.Constraints.constraints (state self.new)) }
        ensures headline { IsDelaunay Self.Vertex.place Self.Constraints.constraints
            (state self.new) };

    /// Exchanges a vertex for one of the same position, and gives the old one back.
    fn replace_vertex(&mut self, vertex: FixedVertexHandle, value: Self::Vertex) -> Self::Vertex
        requires within { vertex < length (state self.old).vertices }
        requires same { point_at (map Self.Vertex.place (state self.old).vertices) vertex ≡
            Self.Vertex.place value }
        ensures value { slice_get (state self.old).vertices vertex ≡ Some result }
        ensures new { state self.new ≡ record (state self.old)
            { vertices = slice_set (state self.old).vertices vertex value } }
        ensures plain { Replaces Self.Vertex.place
            (points_and_constraints_by Self.Constraints.constraints (state self.old))
            (points_and_constraints_by Self.Constraints.constraints (state self.new)) vertex value }
        ensures headline { IsDelaunay Self.Vertex.place Self.Constraints.constraints
            (state self.new) };

    /// The data of a directed edge, for writing.
    fn directed_edge_data_mut(&mut self, edge: FixedDirectedEdgeHandle) -> &mut Self::DirectedEdge
        requires { edge < length (state self.old).directed }
        ensures* writes_back { sem 𝓛
            (Lends Self.row Self.DirectedEdge.row self.entry result
            (with_directed self.entry.now edge)) }
        ensures value { slice_get (state self.old).directed edge ≡ Some result.now };

    /// The user's part of the data of an edge, for writing. Whether the edge is a constraint cannot
    /// be written.
    ///
    /// ```
    /// if (edge.index() as usize) < points.num_undirected_edges() {
    ///     *points.undirected_edge_data_mut(edge) = 7;
    /// }
    /// ```
    fn undirected_edge_data_mut(
        &mut self,
        edge: FixedUndirectedEdgeHandle,
    ) -> &mut Self::UndirectedUserData
        requires { edge < length (state self.old).undirected }
        ensures* writes_back { sem 𝓛
            (Lends Self.row Self.UndirectedUserData.row self.entry result
            (with_user self.entry.now edge)) }
        ensures value { slice_get (map Self.Constraints.user (state self.old).undirected) edge ≡
            Some result.now };

    /// The data of a face, the outer one among them, for writing.
    fn face_data_mut(&mut self, face: FixedFaceHandle) -> &mut Self::Face
        requires { face ≤ length (state self.old).faces }
        ensures* writes_back { sem 𝓛
            (Lends Self.row Self.Face.row self.entry result (with_face self.entry.now face)) }
        ensures value { slice_get ((state self.old).outer ∷ (state self.old).faces) face ≡ Some
            result.now };

    ghost state_is_of_mesh: { (t : Self) → Self.HasMesh.mesh_state t ≡ state t };

    // Where data are written through a reference, all else is as it was.
    ghost writes_directed: { (t : Self) (e : ℕ) (w : Self.DirectedEdge) →
        state (with_directed t e w) ≡ with_directed_data (state t) e w };

    ghost writes_user: { (t : Self) (e : ℕ) (w : Self.UndirectedUserData) →
        state (with_user t e w) ≡
        with_undirected_data (state t) (Self.Constraints.with_user (state t).undirected e w) };

    ghost writes_face: { (t : Self) (f : ℕ) (w : Self.Face) →
        state (with_face t f w) ≡ with_face_data (state t) f w };

    /// How many vertices there are.
    final fn num_vertices(&self) -> usize
        ensures value { result ≡ length (state self.now).vertices }
        ensures small { result ≤ MAX_ELEMENTS }
    {
        self.s().num_vertices()
    }

    /// How many undirected edges there are.
    final fn num_undirected_edges(&self) -> usize
        ensures value { result ≡ length
            (triangulation_of Self.Vertex.place (state self.now)).edges }
        ensures values { result ≡ length (state self.now).undirected }
        ensures small { 2 * result ≤ MAX_ELEMENTS }
    {
        self.s().num_undirected_edges()
    }

    /// Each undirected edge has two directions.
    final fn num_directed_edges(&self) -> usize
        ensures value { result ≡ 2 * length
            (triangulation_of Self.Vertex.place (state self.now)).edges }
        ensures values { result ≡ length (state self.now).directed }
        ensures small { result ≤ MAX_ELEMENTS }
    {
        self.s().num_directed_edges()
    }

    /// How many faces there are beside the outer one.
    final fn num_inner_faces(&self) -> usize
        ensures value { result ≡ length
            (triangulation_of Self.Vertex.place (state self.now)).faces }
        ensures values { result ≡ length (state self.now).faces }
        ensures small { result < MAX_ELEMENTS }
    {
        self.s().num_inner_faces()
    }

    /// How many faces there are, the outer one among them.
    final fn num_all_faces(&self) -> usize
        ensures value { result ≡ length
            (triangulation_of Self.Vertex.place (state self.now)).faces + 1 }
        ensures values { result ≡ length (state self.now).faces + 1 }
        ensures small { result ≤ MAX_ELEMENTS }
    {
        self.s().num_faces()
    }

    /// How many directed edges have the outer face on their left. On one line each edge counts in
    /// both directions.
    final fn convex_hull_size(&self) -> usize
        ensures { CountsHullEdges Self.Vertex.place (state self.now) result }
    {
        let dcel = self.s();
        dcel.num_directed_edges() - 3 * dcel.num_inner_faces()
    }

    /// Whether all vertices are on one line, as those of an empty triangulation are.
    final fn all_vertices_on_line(&self) -> bool
        ensures { IsTrue result ↔ AreOnLine (triangulation_of Self.Vertex.place (state self.now)) }
    {
        self.s().num_inner_faces() == 0
    }

    /// The vertex with a handle of this triangulation.
    final fn vertex(
        &self,
        vertex: FixedVertexHandle,
    ) -> VertexHandle<'_, Self::Vertex, Self::DirectedEdge, Self::UndirectedEdge, Self::Face>
        requires { vertex < length (state self.now).vertices }
        ensures state { state_of result.dcel.now ≡ state self.now }
        ensures index { result.index ≡ vertex }
    {
        self.s().vertex(vertex)
    }

    /// The vertex with this handle, if there is one.
    final fn get_vertex(
        &self,
        vertex: FixedVertexHandle,
    ) -> Option<
        VertexHandle<'_, Self::Vertex, Self::DirectedEdge, Self::UndirectedEdge, Self::Face>,
    >
        ensures { MatchOption result (length (state self.now).vertices ≤ vertex)
            (λ v. IsElement (state self.now) vertex v.dcel.now v.index) }
    {
        self.s().get_vertex(vertex)
    }

    /// The directed edge with a handle of this triangulation.
    final fn directed_edge(
        &self,
        edge: FixedDirectedEdgeHandle,
    ) -> DirectedEdgeHandle<'_, Self::Vertex, Self::DirectedEdge, Self::UndirectedEdge, Self::Face>
        requires { edge < length (state self.now).directed }
        ensures state { state_of result.dcel.now ≡ state self.now }
        ensures index { result.index ≡ edge }
    {
        self.s().directed_edge(edge)
    }

    /// The undirected edge with a handle of this triangulation.
    final fn undirected_edge(
        &self,
        edge: FixedUndirectedEdgeHandle,
    ) -> UndirectedEdgeHandle<
        '_,
        Self::Vertex,
        Self::DirectedEdge,
        Self::UndirectedEdge,
        Self::Face,
    >
        requires { edge < length (state self.now).undirected }
        ensures state { state_of result.dcel.now ≡ state self.now }
        ensures index { result.index ≡ edge }
    {
        self.s().undirected_edge(edge)
    }

    /// The edge from one vertex, which has to be one of this triangulation, to another, if they are
    /// joined. A handle of no vertex is joined to none.
    ///
    /// ```
    /// if let Some(edge) = points.get_edge_from_neighbors(first, second) {
    ///     let [from, to] = points.edge_positions(edge);
    /// }
    /// ```
    final fn get_edge_from_neighbors(
        &self,
        from: FixedVertexHandle,
        to: FixedVertexHandle,
    ) -> Option<
        DirectedEdgeHandle<'_, Self::Vertex, Self::DirectedEdge, Self::UndirectedEdge, Self::Face>,
    >
        requires { from < length (state self.now).vertices }
        ensures { MatchOption result (AreNotJoined (state self.now) from to)
            (λ e. IsEdgeBetween (state self.now) from to e.dcel.now e.index) }
    {
        self.s().get_edge_from_neighbors(from, to)
    }

    /// The face with a handle of this triangulation, the outer one among them.
    final fn face(
        &self,
        face: FixedFaceHandle,
    ) -> FaceHandle<'_, Self::Vertex, Self::DirectedEdge, Self::UndirectedEdge, Self::Face>
        requires { face ≤ length (state self.now).faces }
        ensures state { state_of result.dcel.now ≡ state self.now }
        ensures index { result.index ≡ face }
    {
        self.s().face(face)
    }

    /// The outer face, whose index is 0.
    final fn outer_face(
        &self,
    ) -> FaceHandle<'_, Self::Vertex, Self::DirectedEdge, Self::UndirectedEdge, Self::Face>
        ensures state { state_of result.dcel.now ≡ state self.now }
        ensures index { result.index ≡ 0 }
    {
        self.s().outer_face()
    }

    /// The position of a vertex of this triangulation.
    final fn vertex_position(
        &self,
        vertex: VertexHandle<
            '_,
            Self::Vertex,
            Self::DirectedEdge,
            Self::UndirectedEdge,
            Self::Face,
        >,
    ) -> Point2<<Self::Vertex as HasPosition>::Scalar>
        requires { state_of vertex.dcel.now ≡ state self.now }
        ensures { place_of Self.Vertex.Scalar.whole result ≡ point_at
            (map Self.Vertex.place (state self.now).vertices) vertex.entry.index }
    {
        vertex.data().position()
    }

    /// The positions of the ends of an edge of this triangulation, in its direction.
    final fn edge_positions(
        &self,
        edge: DirectedEdgeHandle<
            '_,
            Self::Vertex,
            Self::DirectedEdge,
            Self::UndirectedEdge,
            Self::Face,
        >,
    ) -> [Point2<<Self::Vertex as HasPosition>::Scalar>; 2]
        requires { state_of edge.dcel.now ≡ state self.now }
        ensures { map (place_of Self.Vertex.Scalar.whole) result ≡ ends_at Self.Vertex.place
            (state self.now) edge.entry.index }
    {
        [
            self.vertex_position(edge.from()),
            self.vertex_position(edge.to()),
        ]
    }

    /// The positions of the corners of an inner face of this triangulation, counterclockwise.
    final fn face_positions(
        &self,
        face: FaceHandle<'_, Self::Vertex, Self::DirectedEdge, Self::UndirectedEdge, Self::Face>,
    ) -> [Point2<<Self::Vertex as HasPosition>::Scalar>; 3]
        requires mesh { state_of face.dcel.now ≡ state self.now }
        requires inner { 0 < face.index }
        ensures { map (place_of Self.Vertex.Scalar.whole) result ≡ corners_at Self.Vertex.place
            (state self.now) face.entry.index }
    {
        let edge = face.adjacent_edge();
        [
            self.vertex_position(edge.from()),
            self.vertex_position(edge.to()),
            self.vertex_position(edge.prev().from()),
        ]
    }

    /// The vertices, by rising index.
    final fn vertices(&self) -> VerticesOf<'_, Self>
        ensures { GivesElements (state self.now) 0 (length (state self.now).vertices)
            (vertices_left result) }
    {
        self.s().vertices()
    }

    /// The directed edges, by rising index.
    final fn directed_edges(&self) -> DirectedEdgesOf<'_, Self>
        ensures { GivesElements (state self.now) 0 (length (state self.now).directed)
            (directed_edges_left result) }
    {
        self.s().directed_edges()
    }

    /// The undirected edges, by rising index.
    final fn undirected_edges(&self) -> UndirectedEdgesOf<'_, Self>
        ensures { GivesElements (state self.now) 0 (length (state self.now).undirected)
            (undirected_edges_left result) }
    {
        self.s().undirected_edges()
    }

    /// The faces, by rising index, the outer one first.
    final fn all_faces(&self) -> FacesOf<'_, Self>
        ensures { GivesElements (state self.now) 0 (length (state self.now).faces + 1)
            (faces_left result) }
    {
        self.s().faces()
    }

    /// The faces but the outer one, by rising index. Each is known to be an inner one, so that its
    /// corners can be asked for.
    ///
    /// ```
    /// for face in points.inner_faces() {
    ///     let [first, second, third] = face.vertices();
    /// }
    /// ```
    final fn inner_faces(&self) -> InnerFacesOf<'_, Self>
        ensures { GivesElements (state self.now) 1 (length (state self.now).faces)
            (inner_faces_left result) }
    {
        InnerFaceIterator::new(self.s())
    }

    /// The handles of the vertices, by rising index.
    final fn fixed_vertices(&self) -> FixedVertexIterator
        ensures { result ≡ range_with_len 0 (length (state self.now).vertices) }
    {
        self.s().fixed_vertices()
    }

    /// The handles of the directed edges, by rising index.
    final fn fixed_directed_edges(&self) -> FixedDirectedEdgeIterator
        ensures { result ≡ range_with_len 0 (length (state self.now).directed) }
    {
        self.s().fixed_directed_edges()
    }

    /// The handles of the undirected edges, by rising index.
    final fn fixed_undirected_edges(&self) -> FixedUndirectedEdgeIterator
        ensures { result ≡ range_with_len 0 (length (state self.now).undirected) }
    {
        self.s().fixed_undirected_edges()
    }

    /// The handles of the faces, by rising index, the outer one first.
    final fn fixed_all_faces(&self) -> FixedFaceIterator
        ensures { result ≡ range_with_len 0 (length (state self.now).faces + 1) }
    {
        self.s().fixed_faces()
    }

    /// The handles of the faces but the outer one, by rising index.
    final fn fixed_inner_faces(&self) -> FixedFaceIterator
        ensures { result ≡ range_with_len 1 (length (state self.now).faces) }
    {
        self.s().fixed_inner_faces()
    }

    /// All edges with the outer face on their left, clockwise round the hull. On one line each edge
    /// comes in both directions.
    ///
    /// ```
    /// for edge in points.convex_hull() {
    ///     println!(rt; "{} to {}", edge.from().fix().index(), edge.to().fix().index())?;
    /// }
    /// ```
    final fn convex_hull(&self) -> HullOf<'_, Self>
        ensures { GivesOutline Self.Vertex.place (state self.now) (hull_left result) }
    {
        self.s().convex_hull()
    }

    /// The faces of the Voronoi diagram, by rising index of their vertices.
    ///
    /// ```
    /// for face in points.voronoi_faces() {
    ///     let sides = face.adjacent_edges().count();
    /// }
    /// ```
    final fn voronoi_faces(&self) -> VoronoiFacesOf<'_, Self>
        ensures { GivesElements (state self.now) 0 (length (state self.now).vertices)
            (vertices_left result.vertices) }
    {
        self.s().voronoi_faces()
    }

    /// The directed edges of the Voronoi diagram, by rising index of the edges that they lie
    /// across.
    final fn directed_voronoi_edges(&self) -> DirectedVoronoiEdgesOf<'_, Self>
        ensures { GivesElements (state self.now) 0 (length (state self.now).directed)
            (directed_edges_left result.edges) }
    {
        self.s().directed_voronoi_edges()
    }

    /// The undirected edges of the Voronoi diagram, by rising index of the edges that they lie
    /// across.
    final fn undirected_voronoi_edges(&self) -> UndirectedVoronoiEdgesOf<'_, Self>
        ensures { GivesElements (state self.now) 0 (length (state self.now).undirected)
            (undirected_edges_left result.edges) }
    {
        self.s().undirected_voronoi_edges()
    }

    /// Where a position is that the tests cover: on a vertex, on an edge, in a face, outside, or,
    /// without a triangulation, at no vertex. The edge of a position outside has the outer face on
    /// its left. The search begins at the vertex `hint`; a handle of no vertex counts as the first.
    final fn locate_with_hint<P: PlaneTests<<Self::Vertex as HasPosition>::Scalar>>(
        &self,
        point: Point2<<Self::Vertex as HasPosition>::Scalar>,
        hint: FixedVertexHandle,
        tests: &P,
    ) -> PositionInTriangulation
        requires sites { AreSites Self.Vertex.place (P.sites tests.now) (state self.now).vertices }
        requires covered { P.covered tests.now (place_of Self.Vertex.Scalar.whole point) }
        ensures { FindsLocation Self.Vertex.place (state self.now)
            (place_of Self.Vertex.Scalar.whole point) result }
    {
        let dcel = self.s();
        let answer = Embedding { dcel, tests }.locate_with_hint(point, hint);
        let vertex = vertex_near(dcel, &answer);
        self.hint_generator().notify_vertex_lookup(vertex);
        answer
    }

    /// Where a position is that the tests cover, as `locate_with_hint` says. The hint generator
    /// says where the search begins.
    ///
    /// ```
    /// match points.locate(Point2::new(1, 1), &ExactTests) {
    ///     PositionInTriangulation::OnVertex(vertex) => println!(rt; "vertex {}", vertex.index())?,
    ///     PositionInTriangulation::OnEdge(edge) => println!(rt; "edge {}", edge.index())?,
    ///     PositionInTriangulation::OnFace(face) => println!(rt; "face {}", face.index())?,
    ///     PositionInTriangulation::OutsideOfConvexHull(_) => println!(rt; "outside")?,
    ///     PositionInTriangulation::NoTriangulation => println!(rt; "nowhere")?,
    /// }
    /// ```
    final fn locate<P: PlaneTests<<Self::Vertex as HasPosition>::Scalar>>(
        &self,
        point: Point2<<Self::Vertex as HasPosition>::Scalar>,
        tests: &P,
    ) -> PositionInTriangulation
        requires sites { AreSites Self.Vertex.place (P.sites tests.now) (state self.now).vertices }
        requires covered { P.covered tests.now (place_of Self.Vertex.Scalar.whole point) }
        ensures { FindsLocation Self.Vertex.place (state self.now)
            (place_of Self.Vertex.Scalar.whole point) result }
    {
        let hint = self.search_start(point, tests);
        self.locate_with_hint(point, hint, tests)
    }

    /// The vertex at a position that the tests cover, if there is one.
    final fn locate_vertex<P: PlaneTests<<Self::Vertex as HasPosition>::Scalar>>(
        &self,
        point: Point2<<Self::Vertex as HasPosition>::Scalar>,
        tests: &P,
    ) -> Option<
        VertexHandle<'_, Self::Vertex, Self::DirectedEdge, Self::UndirectedEdge, Self::Face>,
    >
        requires sites { AreSites Self.Vertex.place (P.sites tests.now) (state self.now).vertices }
        requires covered { P.covered tests.now (place_of Self.Vertex.Scalar.whole point) }
        ensures { let p = place_of Self.Vertex.Scalar.whole point in
            MatchOption result (¬ IsKnown (map Self.Vertex.place (state self.now).vertices) p)
            (λ v. IsVertexAt Self.Vertex.place (state self.now) p v.dcel.now v.index) }
    {
        self.recall_invariant();
        match self.locate(point, tests) {
            PositionInTriangulation::OnVertex(vertex) => Some(self.vertex(vertex)),
            _ => None,
        }
    }

    /// Removes the vertex at a position that the tests cover and gives it back, as `remove` does.
    /// It gives `None` exactly where no vertex is there; then it takes no memory, and nothing
    /// changes. It gives `AllocError` where memory was refused, and then nothing changes either.
    final fn locate_and_remove<P: PlaneTests<<Self::Vertex as HasPosition>::Scalar>>(
        &mut self,
        point: Point2<<Self::Vertex as HasPosition>::Scalar>,
        tests: &P,
    ) -> Result<Option<Self::Vertex>, AllocError>
        requires sites { AreSites Self.Vertex.place (P.sites tests.now) (state self.old).vertices }
        requires covered { P.covered tests.now (place_of Self.Vertex.Scalar.whole point) }
        ensures removes { let p = place_of Self.Vertex.Scalar.whole point in
            LocatesAndRemoves Self.Vertex.place Self.Constraints.constraints p result
            (state self.old) (state self.new) }
        ensures headline { IsDelaunay Self.Vertex.place Self.Constraints.constraints
            (state self.new) }
    {
        self.recall_invariant();
        let Some(vertex) = self.locate_vertex(point, tests) else {
            return Ok(None);
        };
        let vertex = vertex.fix();
        Ok(Some(self.remove(vertex, tests)?))
    }
}
