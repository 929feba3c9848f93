//! The constrained Delaunay triangulation of points and segments, and its faces.
#![tactic(auto)]

mod borders;
mod differences;
mod drawn;
mod edits;
mod error;
mod faces;
mod flood;
mod holes;
mod names;
mod polygons;
mod sides;
mod splits;
mod within;

pub use borders::Borders;
pub use drawn::{
    Constrained, DrawnMesh, Plain, TriangulatedPoints, triangulate_drawing, triangulate_points,
};
pub use edits::{DrawnSegment, add_segments, insert_points};
pub use error::DrawingError;
pub use faces::{FaceCorners, Kept, faces_inside, faces_of, kept_faces};
pub use polygons::{PolygonsOfFaces, polygons_of_faces};
pub use splits::{Lead, SegmentError, VertexPair, split_segments};
pub use within::named_faces;
