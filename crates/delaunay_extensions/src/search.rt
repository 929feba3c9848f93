//! A search for the layers of all faces: face by face from the outer one, a constraint later than
//! any other edge.
ghost use Rattle.std.specs.Prelude.{◌≡◌, ◌+◌, ◌*◌, ◌<◌, ◌≤◌, ◌++◌, ◌∷◌, [], length};
ghost use Rattle.std.specs.Prelude.{IfOk, MatchOption, OnOk};
ghost use Rattle.delaunay_legalization.specs.{IsTriangulated, state_of};
ghost use Rattle.delaunay_extensions.specs.{Layers.AreLayers, Search.unseen, Search.work_left};
ghost use Rattle.delaunay_extensions.specs.Search.{IsSearching, IsSideOf, Lists, PutsIn, TakesNext};

use delaunay_core::point::HasPosition;
use delaunay_legalization::{ConstraintMarker, is_constraint_edge};
use half_edge_dcel::{Dcel, MeshViews};
use half_edge_links::FixedDirectedEdgeHandle;
use std::alloc::{AllocError, Global};

// In place of the layer of a face that was not reached.
const UNSEEN: u32 = u32::MAX;

// What is known of the layers of faces, by index, and the edges that lead on from faces with a
// layer: those to be crossed for the layer that the search has come to, and for the next one.
#[derive(Drop)]
struct LayerSearch {
    layers: Vec<u32>,
    layer: u32,
    now: Vec<FixedDirectedEdgeHandle>,
    later: Vec<FixedDirectedEdgeHandle>,
}

impl LayerSearch {
    // No face but the outer one has a layer.
    fn new<M: ConstraintMarker<UE>, V, DE, UE, F>(
        dcel: &Dcel<V, DE, UE, F>,
        alloc: Global,
    ) -> Result<LayerSearch, AllocError>
        ensures { IfOk result (λ s. IsSearching dcel.now (M.constraints dcel.now.undirected)
            s.layers.items s.now.items s.later.items s.layer) }
    {
        let mut layers = Vec::from_elem(alloc, UNSEEN, dcel.num_faces())?;
        layers[0] = 0;
        let mut search = LayerSearch {
            layers,
            layer: 0,
            now: Vec::new(alloc),
            later: Vec::new(alloc),
        };
        search.list_outer_edges::<M, _, _, _, _>(dcel)?;
        Ok(search)
    }

    // Lists the edges of the outer face.
    fn list_outer_edges<M: ConstraintMarker<UE>, V, DE, UE, F>(
        &mut self,
        dcel: &Dcel<V, DE, UE, F>,
    ) -> Result<(), AllocError>
        ensures { OnOk result (PutsIn (M.constraints dcel.now.undirected)
            (IsSideOf dcel.now.mesh 0) self.old self.new) }
    {
        for index in 0..dcel.num_directed_edges() {
            let edge = FixedDirectedEdgeHandle::from_index(index as u32);
            if dcel.directed_edge(edge).is_outer_edge() {
                self.list::<M, _, _, _, _>(dcel, edge)?;
            }
        }
        Ok(())
    }

    // Lists an edge, a constraint for the next layer.
    fn list<M: ConstraintMarker<UE>, V, DE, UE, F>(
        &mut self,
        dcel: &Dcel<V, DE, UE, F>,
        edge: FixedDirectedEdgeHandle,
    ) -> Result<(), AllocError>
        requires within { edge < length dcel.now.directed }
        ensures lists { OnOk result (Lists (M.constraints dcel.now.undirected) (λ h. h ≡ edge)
            self.old.now.items self.old.later.items self.new.now.items self.new.later.items) }
        ensures layers { self.new.layers ≡ self.old.layers }
        ensures layer { self.new.layer ≡ self.old.layer }
        ensures work { OnOk result (length self.new.now.items + 2 * length self.new.later.items ≤
            length self.old.now.items + 2 * length self.old.later.items + 2) }
    {
        let whole = dcel.directed_edge(edge).as_undirected().fix();
        if is_constraint_edge::<M, _, _, _, _>(dcel, whole) {
            self.later.push(edge)?;
        } else {
            self.now.push(edge)?;
        }
        Ok(())
    }

    // Takes the next edge to be crossed; those of the next layer come when this one has no more.
    fn next(&mut self) -> Option<FixedDirectedEdgeHandle>
        requires { 0 < length self.old.later.items → self.old.layer < unseen }
        ensures layers { self.new.layers ≡ self.old.layers }
        ensures takes { TakesNext result self.old.now.items self.old.later.items self.old.layer
            self.new.now.items self.new.later.items self.new.layer }
    {
        if self.now.is_empty() && !self.later.is_empty() {
            std::mem::swap(&mut self.now, &mut self.later);
            self.layer += 1;
        }
        self.now.pop()
    }

    // Crosses an edge: a face that was not reached before gets this layer, and its edges are
    // listed.
    fn cross<M: ConstraintMarker<UE>, V, DE, UE, F>(
        &mut self,
        dcel: &Dcel<V, DE, UE, F>,
        edge: FixedDirectedEdgeHandle,
    ) -> Result<(), AllocError>
        requires { IsSearching dcel.now (M.constraints dcel.now.undirected) self.old.layers.items
            (self.old.now.items ++ edge ∷ []) self.old.later.items self.old.layer }
        ensures search { OnOk result (IsSearching dcel.now (M.constraints dcel.now.undirected)
            self.new.layers.items self.new.now.items self.new.later.items self.new.layer) }
        ensures work { OnOk result (work_left self.new.layers.items self.new.now.items
            self.new.later.items ≤
            work_left self.old.layers.items self.old.now.items self.old.later.items) }
    {
        let face = dcel.directed_edge(edge).rev().face();
        let index = face.fix().index() as usize;
        if self.layers[index] != UNSEEN {
            return Ok(());
        }
        self.layers[index] = self.layer;
        let edge = face.adjacent_edge();
        self.list::<M, _, _, _, _>(dcel, edge.fix())?;
        self.list::<M, _, _, _, _>(dcel, edge.next().fix())?;
        self.list::<M, _, _, _, _>(dcel, edge.prev().fix())
    }
}

// The layer of each face of a triangulation.
pub(crate) fn find_layers<M: ConstraintMarker<UE>, V: HasPosition, DE, UE, F>(
    dcel: &Dcel<V, DE, UE, F>,
    alloc: Global,
) -> Result<Vec<u32>, AllocError>
    requires { IsTriangulated V.place (state_of dcel.now) }
    ensures { IfOk result (λ v. AreLayers dcel.now.mesh (M.constraints dcel.now.undirected)
        v.items) }
{
    let mut search = LayerSearch::new::<M, _, _, _, _>(dcel, alloc)?;
    while let Some(edge) = search.next() {
        search.cross::<M, _, _, _, _>(dcel, edge)?;
    }
    Ok(search.layers)
}
