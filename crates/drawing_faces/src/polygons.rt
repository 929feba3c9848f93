//! Which polygons each face is in.
ghost use Rattle.std.specs.Prelude.{◌≡◌, ◌∷◌, ◌+◌, ◌<◌, ◌≤◌, [], ℕ, List, true, false};
ghost use Rattle.std.specs.Prelude.{length, map, replicate};
ghost use Rattle.std.specs.Prelude.{IfOk, OnOk, IfSome, IfNone, All, None, Some, slice_set};
ghost use Rattle.half_edge_links.specs.{face, rev};
ghost use Rattle.drawing_faces.specs.PolygonSearch.{AreEven, AreEvenAt, GoesOn, IsClosed};
ghost use Rattle.drawing_faces.specs.PolygonSearch.{IsClosedAt, IsOpen, IsSearch, IsUnevenAt};
ghost use Rattle.drawing_faces.specs.PolygonSearch.{lists_in, work_left};
ghost use Rattle.drawing_faces.specs.Polygons.{AreUneven, AreWithin, label_at, polygons_in};
ghost use Rattle.drawing_faces.specs.Polygons.{sides_in};

use crate::Borders;
use crate::differences::{difference, fault_of};
use delaunay_interface::Triangulation;
use half_edge_dcel::{Dcel, MeshViews};
use half_edge_links::{FixedDirectedEdgeHandle, FixedFaceHandle};
use std::alloc::{AllocError, Global};

/// The polygons that each face is in.
#[derive(Drop)]
pub struct PolygonsOfFaces {
    // Of each face which list it has.
    labels: Vec<Option<usize>>,
    lists: Vec<Vec<u32>>,
}

// No face has a list.
fn no_labels(count: usize, alloc: Global) -> Result<Vec<Option<usize>>, AllocError>
    ensures { IfOk result (λ v. v.items ≡ replicate count None) }
{
    Vec::from_elem(alloc, None, count)
}

// A list of no polygons.
fn one_list(alloc: Global) -> Result<Vec<Vec<u32>>, AllocError>
    ensures { IfOk result (λ v. map (λ l. l.items) v.items ≡ [] ∷ []) }
{
    let mut lists = Vec::new(alloc);
    lists.push(Vec::new(alloc))?;
    Ok(lists)
}

// The faces on the left and on the right of an edge.
fn faces_beside<V, DE, UE, F>(
    dcel: &Dcel<V, DE, UE, F>,
    edge: FixedDirectedEdgeHandle,
) -> (FixedFaceHandle, FixedFaceHandle)
    requires { edge < length dcel.now.directed }
    ensures left { result.0 ≡ face dcel.now.mesh edge }
    ensures right { result.1 ≡ face dcel.now.mesh (rev edge) }
    ensures within { result.1 ≤ length dcel.now.faces }
{
    let edge = dcel.directed_edge(edge);
    (edge.face().fix(), edge.rev().face().fix())
}

impl PolygonsOfFaces {
    /// The polygons that a face is in; none where the mesh has no such face.
    pub fn at(&self, face: FixedFaceHandle) -> &[u32]
        ensures { result.now ≡ polygons_in self.now face }
    {
        match self.labels.get(face.index() as usize) {
            Some(Some(label)) => match self.lists.get(*label) {
                Some(list) => list.as_slice(),
                None => &[],
            },
            Some(None) | None => &[],
        }
    }

    // The outer face is in no polygon, and nothing is known of the others.
    fn new<V, DE, UE, F>(
        dcel: &Dcel<V, DE, UE, F>,
        alloc: Global,
    ) -> Result<PolygonsOfFaces, AllocError>
        ensures { IfOk result (λ p. (borders : ℕ → List ℕ) →
            IsSearch dcel.now.mesh borders p.labels.items (lists_in p)) }
    {
        dcel.recall_invariant();
        let mut labels = no_labels(dcel.num_faces(), alloc)?;
        labels[0] = Some(0);
        let lists = one_list(alloc)?;
        Ok(PolygonsOfFaces { labels, lists })
    }

    // Which list a face has, if it has one.
    fn label_of(&self, face: FixedFaceHandle) -> Option<usize>
        ensures { result ≡ label_at self.now.labels.items face }
    {
        self.labels.get(face.index() as usize).copied().flatten()
    }

    // The index of a list with what is in another list or among some numbers, and not in both.
    fn list_across(
        &mut self,
        label: usize,
        sides: &[u32],
        alloc: Global,
    ) -> Result<usize, AllocError>
        requires { label < length self.old.lists.items }
        ensures labels { self.new.labels ≡ self.old.labels }
        ensures lists { IfOk result (λ i. GoesOn (lists_in self.old) label sides.now i
            (lists_in self.new)) }
    {
        if sides.is_empty() {
            return Ok(label);
        }
        let list = difference(self.lists[label].as_slice(), sides, alloc)?;
        let next = self.lists.len();
        self.lists.push(list)?;
        Ok(next)
    }

    // Gives an inner face a list, and notes its edges.
    fn tell<V, DE, UE, F>(
        &mut self,
        dcel: &Dcel<V, DE, UE, F>,
        face: FixedFaceHandle,
        label: usize,
        due: &mut Vec<FixedDirectedEdgeHandle>,
    ) -> Result<(), AllocError>
        requires inner { (0 < face) × (face ≤ length dcel.now.faces) }
        requires size { face < length self.old.labels.items }
        requires within { All (λ h. h < length dcel.now.directed) due.old.items }
        ensures labels { self.new.labels.items ≡ slice_set self.old.labels.items face
            (Some label) }
        ensures lists { self.new.lists ≡ self.old.lists }
        ensures due { OnOk result (length due.new.items ≤ length due.old.items + 3) }
        ensures within { OnOk result (All (λ h. h < length dcel.now.directed) due.new.items) }
    {
        self.labels[face.index() as usize] = Some(label);
        let edge = dcel.face(face).adjacent_edge();
        due.push(edge.fix())?;
        due.push(edge.next().fix())?;
        due.push(edge.prev().fix())?;
        Ok(())
    }

    // Gives the face across an edge a list, if it has none and that on the left of the edge has.
    fn cross<V, DE, UE, F>(
        &mut self,
        dcel: &Dcel<V, DE, UE, F>,
        borders: &Borders,
        edge: FixedDirectedEdgeHandle,
        due: &mut Vec<FixedDirectedEdgeHandle>,
        alloc: Global,
    ) -> Result<(), AllocError>
        requires edge { edge < length dcel.now.directed }
        requires within { All (λ h. h < length dcel.now.directed) due.old.items }
        requires search { IsSearch dcel.now.mesh (sides_in borders.now) self.old.labels.items
            (lists_in self.old) }
        ensures search { OnOk result (IsSearch dcel.now.mesh (sides_in borders.now)
            self.new.labels.items (lists_in self.new)) }
        ensures within { OnOk result (All (λ h. h < length dcel.now.directed) due.new.items) }
        ensures work { OnOk result (work_left self.new.labels.items due.new.items ≤
            work_left self.old.labels.items due.old.items) }
        ensures less { OnOk result (IsOpen dcel.now.mesh self.old.labels.items edge →
            work_left self.new.labels.items due.new.items <
            work_left self.old.labels.items due.old.items) }
    {
        dcel.recall_invariant();
        let sides = borders.at(edge.as_undirected());
        let (here, next) = faces_beside(dcel, edge);
        let Some(label) = self.label_of(here) else {
            return Ok(());
        };
        if self.label_of(next).is_some() {
            return Ok(());
        }
        let label = self.list_across(label, sides, alloc)?;
        self.tell(dcel, next, label, due)
    }

    // Goes on from the edges that were noted as long as there are any.
    fn flood<V, DE, UE, F>(
        &mut self,
        dcel: &Dcel<V, DE, UE, F>,
        borders: &Borders,
        due: &mut Vec<FixedDirectedEdgeHandle>,
        alloc: Global,
    ) -> Result<(), AllocError>
        requires within { All (λ h. h < length dcel.now.directed) due.old.items }
        requires search { IsSearch dcel.now.mesh (sides_in borders.now) self.old.labels.items
            (lists_in self.old) }
        ensures search { OnOk result (IsSearch dcel.now.mesh (sides_in borders.now)
            self.new.labels.items (lists_in self.new)) }
        ensures within { OnOk result (All (λ h. h < length dcel.now.directed) due.new.items) }
        ensures work { OnOk result (work_left self.new.labels.items due.new.items ≤
            work_left self.old.labels.items due.old.items) }
    {
        while let Some(edge) = due.pop() {
            self.cross(dcel, borders, edge, due, alloc)?;
        }
        Ok(())
    }

    // Whether an edge leads from a face with a list to one with none.
    fn is_open<V, DE, UE, F>(
        &self,
        dcel: &Dcel<V, DE, UE, F>,
        edge: FixedDirectedEdgeHandle,
    ) -> bool
        requires { edge < length dcel.now.directed }
        ensures open { result ≡ true → IsOpen dcel.now.mesh self.now.labels.items edge }
        ensures closed { result ≡ false → IsClosedAt dcel.now.mesh self.now.labels.items edge }
    {
        dcel.recall_invariant();
        let (here, next) = faces_beside(dcel, edge);
        self.label_of(here).is_some() && self.label_of(next).is_none()
    }

    // An edge that leads from a face with a list to one with none.
    fn open_edge<V, DE, UE, F>(&self, dcel: &Dcel<V, DE, UE, F>) -> Option<FixedDirectedEdgeHandle>
        ensures open { IfSome result (IsOpen dcel.now.mesh self.now.labels.items) }
        ensures closed { IfNone result (IsClosed dcel.now.mesh self.now.labels.items) }
    {
        dcel.recall_invariant();
        for index in 0..dcel.num_directed_edges() {
            let edge = FixedDirectedEdgeHandle::from_index(index as u32);
            if self.is_open(dcel, edge) {
                return Some(edge);
            }
        }
        None
    }

    // Whether the lists of the faces at an edge fit each other across it.
    fn fits_across<V, DE, UE, F>(
        &self,
        dcel: &Dcel<V, DE, UE, F>,
        borders: &Borders,
        edge: FixedDirectedEdgeHandle,
    ) -> bool
        requires { edge < length dcel.now.directed }
        ensures fits { result ≡ true → AreEvenAt dcel.now.mesh (sides_in borders.now)
            self.now.labels.items (lists_in self.now) edge }
        ensures fault { result ≡ false → IsUnevenAt dcel.now.mesh (sides_in borders.now)
            self.now.labels.items (lists_in self.now) }
    {
        dcel.recall_invariant();
        let sides = borders.at(edge.as_undirected());
        let (here, next) = faces_beside(dcel, edge);
        self.label_of(here).is_none() || fault_of(self.at(here), sides, self.at(next)).is_none()
    }

    // Whether the lists fit each other across all edges.
    fn is_even<V, DE, UE, F>(&self, dcel: &Dcel<V, DE, UE, F>, borders: &Borders) -> bool
        ensures even { result ≡ true → AreEven dcel.now.mesh (sides_in borders.now)
            self.now.labels.items (lists_in self.now) }
        ensures uneven { result ≡ false → IsUnevenAt dcel.now.mesh (sides_in borders.now)
            self.now.labels.items (lists_in self.now) }
    {
        dcel.recall_invariant();
        for index in 0..dcel.num_directed_edges() {
            let edge = FixedDirectedEdgeHandle::from_index(index as u32);
            if !self.fits_across(dcel, borders, edge) {
                return false;
            }
        }
        true
    }
}

// The polygons of all faces, if the sides agree.
fn find_polygons<V, DE, UE, F>(
    dcel: &Dcel<V, DE, UE, F>,
    borders: &Borders,
    alloc: Global,
) -> Result<Option<PolygonsOfFaces>, AllocError>
    ensures within { IfOk result (λ found. IfSome found (λ p.
        AreWithin dcel.now.mesh (sides_in borders.now) (polygons_in p))) }
    ensures none { IfOk result (λ found. IfNone found
        (AreUneven dcel.now.mesh (sides_in borders.now))) }
{
    dcel.recall_invariant();
    let mut polygons = PolygonsOfFaces::new(dcel, alloc)?;
    let mut due = Vec::new(alloc);
    while let Some(edge) = polygons.open_edge(dcel) {
        polygons.cross(dcel, borders, edge, &mut due, alloc)?;
        polygons.flood(dcel, borders, &mut due, alloc)?;
    }
    if polygons.is_even(dcel, borders) {
        Ok(Some(polygons))
    } else {
        Ok(None)
    }
}

/// The polygons that each face is in, by the even-odd rule: those whose sides are crossed an odd
/// number of times by whoever goes to the face from outside, from face to face across edges. So a
/// face in a hole of a polygon is not in it. `None` says that two ways to some face do not agree,
/// as with sides that are not closed rings. It gives `AllocError` where memory was refused.
pub fn polygons_of_faces<T: Triangulation>(
    triangulation: &T,
    borders: &Borders,
    alloc: Global,
) -> Result<Option<PolygonsOfFaces>, AllocError>
    ensures within { IfOk result (λ found. IfSome found (λ p.
        AreWithin (T.state triangulation.now).mesh (sides_in borders.now) (polygons_in p))) }
    ensures none { IfOk result (λ found. IfNone found
        (AreUneven (T.state triangulation.now).mesh (sides_in borders.now))) }
{
    find_polygons(triangulation.s(), borders, alloc)
}
