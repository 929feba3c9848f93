//! Labels of vertices: those that sides of free faces join have the same.
ghost use Rattle.std.specs.Prelude.{◌≡◌, ◌+◌, ◌-◌, ◌<◌, ◌≤◌, ◌∷◌, [], length, IfOk, OnOk};
ghost use Rattle.std.specs.Prelude.{None, replicate, Some};
ghost use Rattle.plane.specs.{vertex as position};
ghost use Rattle.delaunay_legalization.specs.{IsTriangulated, state_of, triangulation_of};
ghost use Rattle.{delaunay_shapes.specs.by_place, plane_theorems.specs.Ways.Chains.IsJoined};
ghost use Rattle.delaunay_ways.specs.Parts.{Floods, GivesLabel, HasFlooded, IsFlood, KeepsLabels};
ghost use Rattle.delaunay_ways.specs.Parts.{label_at, LabelsFace, work_of};

use crate::corners::first_corner;
use crate::sides::is_side;
use delaunay_core::point::HasPosition;
use delaunay_shapes::FreeFaces;
use half_edge_dcel::{Dcel, MeshViews};
use half_edge_links::{FixedFaceHandle, FixedVertexHandle};
use std::alloc::{AllocError, Global};

/// The labels of vertices, how many there are, and vertices from which a flood has yet to go on.
#[derive(Drop)]
pub(crate) struct Labels {
    labels: Vec<Option<u32>>,
    count: u32,
    left: Vec<u32>,
}

impl Labels {
    /// No vertex has a label.
    pub(crate) fn new<V, DE, UE, F>(
        dcel: &Dcel<V, DE, UE, F>,
        alloc: Global,
    ) -> Result<Labels, AllocError>
        ensures labels { IfOk result (λ l. l.labels.items ≡
            replicate (length dcel.now.vertices) None) }
        ensures count { IfOk result (λ l. l.count ≡ 0) }
        ensures left { IfOk result (λ l. l.left.items ≡ []) }
    {
        Ok(Labels {
            labels: Vec::from_elem(alloc, None, dcel.num_vertices())?,
            count: 0,
            left: Vec::new(alloc),
        })
    }

    // Gives a vertex a label, unless it has one.
    fn give(&mut self, vertex: u32, label: u32) -> Result<(), AllocError>
        requires { vertex < length self.old.labels.items }
        ensures count { self.new.count ≡ self.old.count }
        ensures gives { OnOk result (GivesLabel self.old.labels.items self.old.left.items vertex
            label self.new.labels.items self.new.left.items) }
    {
        if self.labels[vertex as usize].is_none() {
            self.left.push(vertex)?;
            self.labels[vertex as usize] = Some(label);
        }
        Ok(())
    }

    // Gives the label of a vertex to those that a side of a free face joins to it.
    fn spread<V: HasPosition, DE, UE, F, G: FreeFaces>(
        &mut self,
        dcel: &Dcel<V, DE, UE, F>,
        vertex: FixedVertexHandle,
        label: u32,
        free: &G,
    ) -> Result<(), AllocError>
        requires kept { IsTriangulated V.place (state_of dcel.now) }
        requires flood { let t = triangulation_of V.place (state_of dcel.now) in
            IsFlood t (by_place (G.free free.now)) self.old.labels.items
            (vertex ∷ self.old.left.items) (label + 1) }
        requires here { label_at self.old.labels.items vertex ≡ Some label }
        ensures flood { let t = triangulation_of V.place (state_of dcel.now) in
            OnOk result (IsFlood t (by_place (G.free free.now)) self.new.labels.items
            self.new.left.items (label + 1)) }
        ensures count { self.new.count ≡ self.old.count }
        ensures kept { OnOk result (KeepsLabels self.old.labels.items self.new.labels.items) }
        ensures work { OnOk result (work_of self.new.labels.items self.new.left.items ≤
            work_of self.old.labels.items self.old.left.items) }
    {
        for edge in dcel.vertex(vertex).out_edges() {
            let side = dcel.directed_edge(edge.fix());
            if is_side(side, free) {
                let to = side.to();
                self.give(to.index(), label)?;
            }
        }
        Ok(())
    }

    // Gives the next label to a vertex that has none, and to all that sides of free faces join with
    // it.
    fn flood<V: HasPosition, DE, UE, F, G: FreeFaces>(
        &mut self,
        dcel: &Dcel<V, DE, UE, F>,
        vertex: FixedVertexHandle,
        free: &G,
    ) -> Result<(), AllocError>
        requires kept { IsTriangulated V.place (state_of dcel.now) }
        requires flooded { let t = triangulation_of V.place (state_of dcel.now) in
            HasFlooded t (by_place (G.free free.now)) self.old.labels.items self.old.left.items
            self.old.count }
        requires bare { label_at self.old.labels.items vertex ≡ None }
        requires exists { vertex < length dcel.now.vertices }
        requires joined { let t = triangulation_of V.place (state_of dcel.now) in
            IsJoined t (by_place (G.free free.now)) (position t vertex) (position t vertex) }
        requires few { self.old.count + 1 < 4294967296 }
        ensures { let t = triangulation_of V.place (state_of dcel.now) in
            OnOk result (Floods t (by_place (G.free free.now)) self.old.labels.items vertex
            self.old.count self.new.labels.items self.new.left.items self.new.count) }
    {
        let label = self.count;
        self.give(vertex.index(), label)?;
        self.count += 1;
        while let Some(vertex) = self.left.pop() {
            self.spread(dcel, FixedVertexHandle::from_index(vertex), label, free)?;
        }
        Ok(())
    }

    /// The label of an inner face, if it is free: that of its first corner, which gets the next one
    /// where it has none.
    pub(crate) fn label_face<V: HasPosition, DE, UE, F, G: FreeFaces>(
        &mut self,
        dcel: &Dcel<V, DE, UE, F>,
        face: FixedFaceHandle,
        free: &G,
    ) -> Result<Option<u32>, AllocError>
        requires kept { IsTriangulated V.place (state_of dcel.now) }
        requires inner { (0 < face) × (face ≤ length dcel.now.faces) }
        requires flooded { let t = triangulation_of V.place (state_of dcel.now) in
            HasFlooded t (by_place (G.free free.now)) self.old.labels.items self.old.left.items
            self.old.count }
        requires few { self.old.count + 1 < 4294967296 }
        ensures label { let t = triangulation_of V.place (state_of dcel.now) in
            IfOk result (λ label. LabelsFace t (by_place (G.free free.now)) self.old.labels.items
            self.new.labels.items (face - 1) self.old.count self.new.count label) }
        ensures left { OnOk result (self.new.left.items ≡ []) }
    {
        if !free.is_free(face) {
            return Ok(None);
        }
        let corner = first_corner(dcel, face);
        if let Some(label) = self.labels[corner.index() as usize] {
            return Ok(Some(label));
        }
        let label = self.count;
        self.flood(dcel, corner, free)?;
        Ok(Some(label))
    }
}
