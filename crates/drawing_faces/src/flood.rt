//! A search for the faces that are reached past no constraint: face by face, from the outer face
//! and from others.
ghost use Rattle.std.specs.Prelude.{◌≡◌, ◌+◌, ◌<◌, ◌≤◌, ℕ, All, Contains, length, IfOk, OnOk};
ghost use Rattle.{delaunay_extensions.specs.AreLayers, drawing_faces.specs.Flood.MarkOpenFaces};
ghost use Rattle.drawing_faces.specs.Flood.{Enters, flood_left, IsFlood, IsReached, ListsFree};

use delaunay_legalization::{ConstraintMarker, is_constraint_edge};
use half_edge_dcel::{Dcel, MeshViews};
use half_edge_links::{FixedDirectedEdgeHandle, FixedFaceHandle};
use std::alloc::{AllocError, Global};

// Faces by index, with 0 for those that were reached, and directed edges that lead on from these,
// none of them a constraint.
#[derive(Drop)]
struct Flood {
    reached: Vec<u32>,
    due: Vec<FixedDirectedEdgeHandle>,
}

impl Flood {
    // Lists an edge, if it is no constraint.
    fn list<M: ConstraintMarker<UE>, V, DE, UE, F>(
        &mut self,
        dcel: &Dcel<V, DE, UE, F>,
        edge: FixedDirectedEdgeHandle,
    ) -> Result<(), AllocError>
        requires { edge < length dcel.now.directed }
        ensures lists { OnOk result (ListsFree (M.constraints dcel.now.undirected) (λ h. h ≡ edge)
            self.old.due.items self.new.due.items) }
        ensures reached { self.new.reached ≡ self.old.reached }
        ensures work { OnOk result (length self.new.due.items ≤ length self.old.due.items + 1) }
    {
        let whole = dcel.directed_edge(edge).as_undirected().fix();
        if is_constraint_edge::<M, _, _, _, _>(dcel, whole) {
            return Ok(());
        }
        self.due.push(edge)?;
        Ok(())
    }

    // Reaches a face, and lists its edges, unless it was reached before.
    fn enter<M: ConstraintMarker<UE>, V, DE, UE, F>(
        &mut self,
        dcel: &Dcel<V, DE, UE, F>,
        face: FixedFaceHandle,
    ) -> Result<(), AllocError>
        requires size { length self.old.reached.items ≡ length dcel.now.mesh.face_edges + 1 }
        requires outer { IsReached self.old.reached.items 0 }
        requires within { face < length self.old.reached.items }
        ensures enters { OnOk result (Enters dcel.now.mesh (M.constraints dcel.now.undirected) face
            self.old.reached.items self.old.due.items self.new.reached.items
            self.new.due.items) }
        ensures work { OnOk result (flood_left self.new.reached.items self.new.due.items ≤
            flood_left self.old.reached.items self.old.due.items) }
    {
        dcel.recall_invariant();
        let index = face.index() as usize;
        if self.reached[index] == 0 {
            return Ok(());
        }
        self.reached[index] = 0;
        let edge = dcel.face(face).adjacent_edge();
        self.list::<M, _, _, _, _>(dcel, edge.fix())?;
        self.list::<M, _, _, _, _>(dcel, edge.next().fix())?;
        self.list::<M, _, _, _, _>(dcel, edge.prev().fix())
    }

    // Reaches each of some faces.
    fn enter_all<M: ConstraintMarker<UE>, V, DE, UE, F>(
        &mut self,
        dcel: &Dcel<V, DE, UE, F>,
        faces: &[FixedFaceHandle],
    ) -> Result<(), AllocError>
        requires within { All (λ f. f ≤ length dcel.now.faces) faces.now }
        requires flood { IsFlood dcel.now.mesh (M.constraints dcel.now.undirected) faces.now
            (λ f. ⊥) self.old.reached.items self.old.due.items }
        ensures flood { OnOk result (IsFlood dcel.now.mesh (M.constraints dcel.now.undirected)
            faces.now (λ f. ⊥) self.new.reached.items self.new.due.items) }
        ensures each { OnOk result
            ((f : ℕ) → Contains faces.now f → IsReached self.new.reached.items f) }
    {
        dcel.recall_invariant();
        for face in faces {
            self.enter::<M, _, _, _, _>(dcel, *face)?;
        }
        Ok(())
    }
}

// The layers of all faces, with 0 also for those that are reached past no constraint from others.
pub(crate) fn reach_faces<M: ConstraintMarker<UE>, V, DE, UE, F>(
    dcel: &Dcel<V, DE, UE, F>,
    layers: Vec<u32>,
    starts: &[FixedFaceHandle],
    alloc: Global,
) -> Result<Vec<u32>, AllocError>
    requires layers { AreLayers dcel.now.mesh (M.constraints dcel.now.undirected) layers.items }
    requires within { All (λ f. f ≤ length dcel.now.faces) starts.now }
    ensures { IfOk result (λ v. MarkOpenFaces dcel.now.mesh (M.constraints dcel.now.undirected)
        starts.now v.items) }
{
    dcel.recall_invariant();
    let mut flood = Flood {
        reached: layers,
        due: Vec::new(alloc),
    };
    flood.enter_all::<M, _, _, _, _>(dcel, starts)?;
    while let Some(edge) = flood.due.pop() {
        let face = dcel.directed_edge(edge).rev().face().fix();
        flood.enter::<M, _, _, _, _>(dcel, face)?;
    }
    Ok(flood.reached)
}
