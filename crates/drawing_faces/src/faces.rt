//! The faces of a triangulation.
ghost use Rattle.std.specs.Prelude.{◌≡◌, ◌<◌, ◌≤◌, All, drop, length, map, IfOk};
ghost use Rattle.delaunay_legalization.specs.{triangulation_of};
ghost use Rattle.drawing_faces.specs.Drawing.{face_of, faces_inside, indexes_at};
ghost use Rattle.drawing_faces.specs.{declared.faces.Kept.TheVariants.Inside, Flood.MarkOpenFaces};
ghost use Rattle.drawing_faces.specs.{Kept.AreKept, Kept.IsLeftOut, Names.position};

use crate::flood::reach_faces;
use delaunay_core::point::Point2;
use delaunay_extensions::face_layers;
use delaunay_interface::Triangulation;
use half_edge_dcel::FaceHandle;
use half_edge_links::FixedFaceHandle;
use std::alloc::{AllocError, Global};

/// The vertices of a face, by index, against the clock.
#[derive(Clone, Copy, Debug, PartialEq, Eq)]
pub struct FaceCorners {
    pub first: u32,
    pub second: u32,
    pub third: u32,
}

/// Which faces of a drawing are kept.
#[derive(Clone, Copy, Debug, PartialEq, Eq)]
pub enum Kept {
    /// All.
    All,
    /// Those that no way from outside reaches without crossing a constraint.
    Inside,
}

/// The corners of an inner face.
fn corner_indexes<DE, UE, F>(face: FaceHandle<'_, Point2<i32>, DE, UE, F>) -> FaceCorners
    requires { 0 < face.index }
    ensures { result ≡ indexes_at face.entry.dcel.now.mesh face.entry.index }
{
    let [a, b, c] = face.vertices();
    FaceCorners {
        first: a.fix().index(),
        second: b.fix().index(),
        third: c.fix().index(),
    }
}

/// All inner faces, each once, by rising index.
pub fn faces_of<T: Triangulation<Vertex = Point2<i32>>>(
    triangulation: &T,
    alloc: Global,
) -> Result<Vec<FaceCorners>, AllocError>
    ensures { IfOk result (λ faces. map face_of faces.items ≡
        (triangulation_of position (T.state triangulation.now)).faces) }
{
    triangulation.recall_invariant();
    let mut faces = Vec::with_capacity(alloc, triangulation.num_inner_faces())?;
    for face in triangulation.inner_faces() {
        faces.push(corner_indexes(face))?;
    }
    Ok(faces)
}

/// The faces of a layer above 0, by the layers of all faces, of which the outer one comes first.
pub fn faces_inside(
    faces: &[FaceCorners],
    layers: &[u32],
    alloc: Global,
) -> Result<Vec<FaceCorners>, AllocError>
    ensures { IfOk result (λ kept. kept.items ≡ faces_inside (drop 1 layers.now) faces.now) }
{
    let mut kept = Vec::new(alloc);
    for (i, face) in faces.iter().enumerate() {
        if i + 1 >= layers.len() {
            break;
        }
        if layers[i + 1] != 0 {
            kept.push(*face)?;
        }
    }
    Ok(kept)
}

/// The layers of all faces, with 0 in place of that of a face which a way from one of some others
/// reaches past no constraint.
fn open_layers<T: Triangulation<Vertex = Point2<i32>>>(
    triangulation: &T,
    starts: &[FixedFaceHandle],
    alloc: Global,
) -> Result<Vec<u32>, AllocError>
    requires { All (λ f. f ≤ length (T.state triangulation.now).faces) starts.now }
    ensures { IfOk result (λ layers. MarkOpenFaces (T.state triangulation.now).mesh
        (T.Constraints.constraints (T.state triangulation.now).undirected) starts.now
        layers.items) }
{
    let layers = face_layers(triangulation, alloc)?;
    reach_faces::<T::Constraints, _, _, _, _>(triangulation.s(), layers, starts, alloc)
}

/// The faces that no way from outside, or from one of some faces, reaches without crossing a
/// constraint, by rising index.
fn closed_faces<T: Triangulation<Vertex = Point2<i32>>>(
    triangulation: &T,
    holes: &[FixedFaceHandle],
    alloc: Global,
) -> Result<Vec<FaceCorners>, AllocError>
    requires { All (λ f. f ≤ length (T.state triangulation.now).faces) holes.now }
    ensures { IfOk result (λ faces. AreKept (IsLeftOut Inside (T.state triangulation.now).mesh
        (T.Constraints.constraints (T.state triangulation.now).undirected) holes.now) 1
        (triangulation_of position (T.state triangulation.now)).faces (map face_of faces.items)) }
{
    let faces = faces_of(triangulation, alloc)?;
    let layers = open_layers(triangulation, holes, alloc)?;
    faces_inside(faces.as_slice(), layers.as_slice(), alloc)
}

/// The faces that are kept, each once, by rising index. Where the inside is kept, these are left
/// out that a way from outside, or from one of some faces, reaches.
pub fn kept_faces<T: Triangulation<Vertex = Point2<i32>>>(
    triangulation: &T,
    kept: Kept,
    holes: &[FixedFaceHandle],
    alloc: Global,
) -> Result<Vec<FaceCorners>, AllocError>
    requires { All (λ f. f ≤ length (T.state triangulation.now).faces) holes.now }
    ensures { IfOk result (λ faces. AreKept (IsLeftOut kept (T.state triangulation.now).mesh
        (T.Constraints.constraints (T.state triangulation.now).undirected) holes.now) 1
        (triangulation_of position (T.state triangulation.now)).faces (map face_of faces.items)) }
{
    match kept {
        Kept::All => faces_of(triangulation, alloc),
        Kept::Inside => closed_faces(triangulation, holes, alloc),
    }
}
