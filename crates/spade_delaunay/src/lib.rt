//! Delaunay triangulations of points with whole-number coordinates, whose side and circle tests the
//! caller hands in. All that a user names is here.
//!
//! With tests that answer by determinants, four points have two faces:
//!
//! ```
//! let mut points: DelaunayTriangulation<Point2<i64>> = DelaunayTriangulation::new(rt.alloc());
//! for (x, y) in [(0, 0), (4, 0), (4, 3), (0, 3)] {
//!     points.insert(Point2::new(x, y), &ExactTests)?;
//! }
//! for face in points.inner_faces() {
//!     let [first, second, third] = face.vertices();
//! }
//! ```
#![tactic(auto)]

pub mod handles;
pub mod iterators;

pub use delaunay_extensions::{
    BulkInsertion, BulkInsertionError, CircleMetric, DistanceMetric, EdgesInShapeIterator,
    FloatTriangulation, RectangleMetric, VerticesInShapeIterator, face_layers,
};
pub use delaunay_shapes::{FreeFaces, is_in_sight};
pub use delaunay_ways::{WideFaces, find_way, reachable};
pub use hint_hierarchy::delaunay_core::line_side_info::LineSideInfo;
pub use hint_hierarchy::delaunay_core::math::{
    InsertionError, MAX_ALLOWED_VALUE, PlaneTests, PointProjection, is_ordered_ccw, project_point,
    validate_coordinate, validate_vertex,
};
pub use hint_hierarchy::delaunay_core::point::{HasPosition, Point2, SpadeNum};
pub use hint_hierarchy::delaunay_core::{HintGenerator, LastUsedVertexHintGenerator};
pub use hint_hierarchy::delaunay_interface::{
    ConflictingEdgesIterator, ConstrainedDelaunayTriangulation, ConstraintError,
    DelaunayTriangulation, EdgeData, HasMesh, Intersection, LineIntersectionIterator,
    PositionInTriangulation, Triangulation, TriangulationCore,
};
pub use hint_hierarchy::delaunay_legalization::{
    CdtEdge, ConstraintMarker, EdgeConstraints, NoConstraints,
};
pub use hint_hierarchy::half_edge_mesh::{Dcel, MAX_ELEMENTS};
pub use hint_hierarchy::{HierarchyHintGenerator, HierarchyHintGeneratorWithBranchFactor};
