//! The calls of both triangulations that ask for edges and vertices in a rectangle or a circle.
ghost use Rattle.std.specs.Prelude.{◌≤ℤ◌, pos, All, IfOk};
ghost use Rattle.plane.specs.{InClosedCircle, InClosedRectangle};
ghost use Rattle.{delaunay_core.specs.place_of, delaunay_edit.specs.AreSites};
ghost use Rattle.delaunay_shapes.specs.{corners, edges_left, HasStartAt, vertices_left};
ghost use Rattle.delaunay_extensions.specs.Found.{FindsEdges, FindsVertices};

use delaunay_core::HintGenerator;
use delaunay_core::math::PlaneTests;
use delaunay_core::point::{HasPosition, Point2};
use delaunay_interface::{DirectedOf, FaceOf, Triangulation, UndirectedOf, VertexOf};
use delaunay_shapes::{
    CircleMetric, DistanceMetric, EdgesInShapeIterator, RectangleMetric, VerticesInShapeIterator,
    edges_in_shape, vertices_in_shape,
};
use std::alloc::{AllocError, Global};

/// The scalars of a triangulation's positions.
pub type ScalarOf<T> = <VertexOf<T> as HasPosition>::Scalar;

/// Positions in a triangulation.
pub type PointOf<T> = Point2<ScalarOf<T>>;

/// The edges of a triangulation in a shape.
pub type EdgesIn<'a, T> = EdgesInShapeIterator<
    'a,
    VertexOf<T>,
    DirectedOf<T>,
    UndirectedOf<T>,
    FaceOf<T>,
>;

/// The vertices of a triangulation in a shape.
pub type VerticesIn<'a, T> = VerticesInShapeIterator<
    'a,
    VertexOf<T>,
    DirectedOf<T>,
    UndirectedOf<T>,
    FaceOf<T>,
>;

/// Edges and vertices in closed rectangles and circles: of both triangulations.
///
/// All vertices are sites of the tests, which also cover the four corners of a rectangle or the
/// centre of a circle. The hint generator says where the search for that corner or centre begins.
/// Memory is taken as the iterator is made, and refused only there; what it gives comes in no
/// promised order.
///
/// The vertices of a triangulation `points` at most 5 from the origin:
///
/// ```
/// let near = points.get_vertices_in_circle(Point2::new(0, 0), 25, &ExactTests, rt.alloc())?;
/// for vertex in near {
///     println!(rt; "{}", vertex.fix().index())?;
/// }
/// ```
pub trait FloatTriangulation: Triangulation {
    /// The edges with a point in a closed shape, each once: the tests cover the shape's own points,
    /// and `start`, which is a circle's centre or a rectangle's lower corner. It gives `AllocError`
    /// where memory was refused.
    final fn get_edges_in_shape<M: DistanceMetric<ScalarOf<Self>>, P: PlaneTests<ScalarOf<Self>>>(
        &self,
        metric: &M,
        start: PointOf<Self>,
        tests: &P,
        alloc: Global,
    ) -> Result<EdgesIn<'_, Self>, AllocError>
        requires sites { AreSites Self.Vertex.place (P.sites tests.now)
            (Self.state self.now).vertices }
        requires own_covered { All (P.covered tests.now) (M.own_points metric.now) }
        requires start_covered { P.covered tests.now (place_of Self.Vertex.Scalar.whole start) }
        requires begins { HasStartAt (M.shape metric.now)
            (place_of Self.Vertex.Scalar.whole start) }
        ensures { IfOk result (λ it. FindsEdges Self.Vertex.place (Self.state self.now)
            (M.shape metric.now) (edges_left it)) }
    {
        let hint = self.search_start(start, tests);
        edges_in_shape(self.s(), metric, start, hint, tests, alloc)
    }

    /// The vertices in a closed shape, each once: the tests cover the shape's own points,
    /// and `start`, which is a circle's centre or a rectangle's lower corner. It gives `AllocError`
    /// where memory was refused.
    final fn get_vertices_in_shape<
        M: DistanceMetric<ScalarOf<Self>>,
        P: PlaneTests<ScalarOf<Self>>,
    >(
        &self,
        metric: &M,
        start: PointOf<Self>,
        tests: &P,
        alloc: Global,
    ) -> Result<VerticesIn<'_, Self>, AllocError>
        requires sites { AreSites Self.Vertex.place (P.sites tests.now)
            (Self.state self.now).vertices }
        requires own_covered { All (P.covered tests.now) (M.own_points metric.now) }
        requires start_covered { P.covered tests.now (place_of Self.Vertex.Scalar.whole start) }
        requires begins { HasStartAt (M.shape metric.now)
            (place_of Self.Vertex.Scalar.whole start) }
        ensures { IfOk result (λ it. FindsVertices Self.Vertex.place (Self.state self.now)
            (M.shape metric.now) (vertices_left it)) }
    {
        let hint = self.search_start(start, tests);
        vertices_in_shape(self.s(), metric, start, hint, tests, alloc)
    }

    /// The edges with a point in a closed rectangle, each once: none where `upper` is left of
    /// `lower` or below it. It gives `AllocError` where memory was refused.
    final fn get_edges_in_rectangle<P: PlaneTests<ScalarOf<Self>>>(
        &self,
        lower: PointOf<Self>,
        upper: PointOf<Self>,
        tests: &P,
        alloc: Global,
    ) -> Result<EdgesIn<'_, Self>, AllocError>
        requires sites { AreSites Self.Vertex.place (P.sites tests.now)
            (Self.state self.now).vertices }
        requires covered { All (P.covered tests.now) (corners
            (place_of Self.Vertex.Scalar.whole lower) (place_of Self.Vertex.Scalar.whole upper)) }
        ensures { let whole = Self.Vertex.Scalar.whole in
            IfOk result (λ it. FindsEdges Self.Vertex.place (Self.state self.now)
            (InClosedRectangle (place_of whole lower) (place_of whole upper)) (edges_left it)) }
    {
        let rectangle = RectangleMetric::new(lower, upper);
        self.get_edges_in_shape(&rectangle, lower, tests, alloc)
    }

    /// The vertices in a closed rectangle, each once: none where `upper` is left of `lower` or
    /// below it. It gives `AllocError` where memory was refused.
    final fn get_vertices_in_rectangle<P: PlaneTests<ScalarOf<Self>>>(
        &self,
        lower: PointOf<Self>,
        upper: PointOf<Self>,
        tests: &P,
        alloc: Global,
    ) -> Result<VerticesIn<'_, Self>, AllocError>
        requires sites { AreSites Self.Vertex.place (P.sites tests.now)
            (Self.state self.now).vertices }
        requires covered { All (P.covered tests.now) (corners
            (place_of Self.Vertex.Scalar.whole lower) (place_of Self.Vertex.Scalar.whole upper)) }
        ensures { let whole = Self.Vertex.Scalar.whole in
            IfOk result (λ it. FindsVertices Self.Vertex.place (Self.state self.now)
            (InClosedRectangle (place_of whole lower) (place_of whole upper)) (vertices_left it)) }
    {
        let rectangle = RectangleMetric::new(lower, upper);
        self.get_vertices_in_shape(&rectangle, lower, tests, alloc)
    }

    /// The edges with a point in a closed circle, each once. The squared radius is not negative.
    /// It gives `AllocError` where memory was refused.
    final fn get_edges_in_circle<P: PlaneTests<ScalarOf<Self>>>(
        &self,
        center: PointOf<Self>,
        radius_2: i64,
        tests: &P,
        alloc: Global,
    ) -> Result<EdgesIn<'_, Self>, AllocError>
        requires sites { AreSites Self.Vertex.place (P.sites tests.now)
            (Self.state self.now).vertices }
        requires covered { P.covered tests.now (place_of Self.Vertex.Scalar.whole center) }
        requires not_negative { pos 0 ≤ℤ radius_2 }
        ensures { IfOk result (λ it. FindsEdges Self.Vertex.place (Self.state self.now)
            (InClosedCircle (place_of Self.Vertex.Scalar.whole center) radius_2) (edges_left it)) }
    {
        let circle = CircleMetric::new(center, radius_2);
        self.get_edges_in_shape(&circle, center, tests, alloc)
    }

    /// The vertices in a closed circle, each once. The squared radius is not negative. It gives
    /// `AllocError` where memory was refused.
    final fn get_vertices_in_circle<P: PlaneTests<ScalarOf<Self>>>(
        &self,
        center: PointOf<Self>,
        radius_2: i64,
        tests: &P,
        alloc: Global,
    ) -> Result<VerticesIn<'_, Self>, AllocError>
        requires sites { AreSites Self.Vertex.place (P.sites tests.now)
            (Self.state self.now).vertices }
        requires covered { P.covered tests.now (place_of Self.Vertex.Scalar.whole center) }
        requires not_negative { pos 0 ≤ℤ radius_2 }
        ensures { IfOk result (λ it. FindsVertices Self.Vertex.place (Self.state self.now)
            (InClosedCircle (place_of Self.Vertex.Scalar.whole center) radius_2)
            (vertices_left it)) }
    {
        let circle = CircleMetric::new(center, radius_2);
        self.get_vertices_in_shape(&circle, center, tests, alloc)
    }
}

impl<T: Triangulation> FloatTriangulation for T {}
