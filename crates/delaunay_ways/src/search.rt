//! A search over the vertices of a mesh, along sides of free faces.
ghost use Rattle.std.specs.Prelude.{◌≡◌, ◌↔◌, ◌+◌, ◌<◌, ◌∷◌, [], ◌++◌, ℕ, true, length, Contains};
ghost use Rattle.std.specs.Prelude.{slice_set, MatchOption, OnOk, IfOk, IsTrue, All};
ghost use Rattle.std.specs.Prelude.{false, replicate};
ghost use Rattle.std.specs.BinaryHeap.{heap_items};
ghost use Rattle.std.specs.List.Sorted.{IsPermutation};
ghost use Rattle.plane_theorems.specs.Ways.Links.{AreApart, IsMarked};
ghost use Rattle.delaunay_legalization.specs.{IsTriangulated, state_of, triangulation_of};
ghost use Rattle.{delaunay_shapes.specs.by_place, delaunay_ways.specs.declared.leads.Lead.Lead};
ghost use Rattle.delaunay_ways.specs.{Search.Begins, Search.Spreads, Search.Takes, Steps.LeadsOver};

use crate::distances::distance;
use crate::leads::Lead;
use crate::reading::{Step, read_path};
use crate::sides::is_side;
use delaunay_core::point::{HasPosition, Point2};
use delaunay_shapes::FreeFaces;
use half_edge_dcel::{Dcel, MeshViews};
use half_edge_links::FixedVertexHandle;
use std::alloc::{AllocError, Global};
use std::collections::BinaryHeap;

// The vertices that were reached are marked, and there is a step for each. The leads go on from
// these.
#[derive(Drop)]
struct WaySearch {
    marks: Vec<bool>,
    steps: Vec<Step>,
    leads: BinaryHeap<Lead>,
}

impl WaySearch {
    // Adds a lead.
    fn add(&mut self, lead: Lead) -> Result<(), AllocError>
        ensures marks { self.new.marks ≡ self.old.marks }
        ensures steps { self.new.steps ≡ self.old.steps }
        ensures lead { OnOk result (IsPermutation (lead ∷ heap_items self.old.leads)
            (heap_items self.new.leads)) }
    {
        self.leads.push(lead)?;
        Ok(())
    }

    // Takes the best lead to a vertex that is not marked.
    fn next(&mut self) -> Option<Lead>
        requires { (x : Lead) → Contains (heap_items self.old.leads) x →
            x.vertex < length self.old.marks.items }
        ensures marks { self.new.marks ≡ self.old.marks }
        ensures steps { self.new.steps ≡ self.old.steps }
        ensures takes { MatchOption result ((x : Lead) → Contains (heap_items self.old.leads) x →
            IsMarked self.old.marks.items x.vertex)
            (λ x. Takes self.old.marks.items (heap_items self.old.leads) x
            (heap_items self.new.leads)) }
    {
        while let Some(lead) = self.leads.pop() {
            if !self.marks[lead.vertex as usize] {
                return Some(lead);
            }
        }
        None
    }

    // Marks the vertex of a lead.
    fn reach(&mut self, lead: Lead) -> Result<(), AllocError>
        requires { lead.vertex < length self.old.marks.items }
        ensures marks { OnOk result (self.new.marks.items ≡
            slice_set self.old.marks.items lead.vertex true) }
        ensures steps { OnOk result (self.new.steps.items ≡ self.old.steps.items
            ++ (record { vertex = lead.vertex; before = lead.before }) ∷ []) }
        ensures leads { self.new.leads ≡ self.old.leads }
    {
        self.steps.push(Step {
            vertex: lead.vertex,
            before: lead.before,
        })?;
        self.marks[lead.vertex as usize] = true;
        Ok(())
    }

    // Adds a lead to each vertex that a side of a free face joins to this one, whose step is the
    // last. So far the way is this long.
    fn spread<V: HasPosition, DE, UE, F, G: FreeFaces>(
        &mut self,
        dcel: &Dcel<V, DE, UE, F>,
        vertex: FixedVertexHandle,
        so_far: u64,
        free: &G,
        goal: Point2<V::Scalar>,
    ) -> Result<(), AllocError>
        requires kept { IsTriangulated V.place (state_of dcel.now) }
        requires exists { vertex < length dcel.now.vertices }
        ensures marks { self.new.marks ≡ self.old.marks }
        ensures steps { self.new.steps ≡ self.old.steps }
        ensures leads { OnOk result (Spreads (triangulation_of V.place (state_of dcel.now))
            (by_place (G.free free.now)) vertex (length self.old.steps.items)
            (heap_items self.old.leads) (heap_items self.new.leads)) }
    {
        let before = self.steps.len();
        let here = dcel.vertex(vertex).data().position();
        for edge in dcel.vertex(vertex).out_edges() {
            let side = dcel.directed_edge(edge.fix());
            if is_side(side, free) {
                let to = side.to();
                let there = to.data().position();
                let length = so_far.saturating_add(distance(here, there));
                self.add(Lead::new(to.index(), before, length, distance(there, goal)))?;
            }
        }
        Ok(())
    }
}

// Whether a vertex is one of three.
fn is_among(vertices: &[FixedVertexHandle; 3], vertex: u32) -> bool
    ensures { IsTrue result ↔ Contains vertices.now vertex }
{
    let [first, second, third] = *vertices;
    first.index() == vertex || second.index() == vertex || third.index() == vertex
}

// A search that is to begin with these vertices.
fn begin<V: HasPosition, DE, UE, F>(
    dcel: &Dcel<V, DE, UE, F>,
    last: &[FixedVertexHandle; 3],
    goal: Point2<V::Scalar>,
    start: Point2<V::Scalar>,
    alloc: Global,
) -> Result<WaySearch, AllocError>
    requires { All (λ v. v < length dcel.now.vertices) last.now }
    ensures marks { IfOk result (λ s. s.marks.items ≡
        replicate (length dcel.now.vertices) false) }
    ensures steps { IfOk result (λ s. s.steps.items ≡ []) }
    ensures leads { IfOk result (λ s. Begins last.now 3 (heap_items s.leads)) }
{
    let mut search = WaySearch {
        marks: Vec::from_elem(alloc, false, dcel.num_vertices())?,
        steps: Vec::new(alloc),
        leads: BinaryHeap::new(alloc),
    };
    for vertex in last {
        let there = dcel.vertex(*vertex).data().position();
        search.add(Lead::new(
            vertex.index(),
            0,
            distance(start, there),
            distance(there, goal),
        ))?;
    }
    Ok(search)
}

/// A path of vertices along sides of free faces, from one of the first vertices to one of the last
/// ones. Of several it takes a short one, as it looks from `start` past the last ones to `goal`.
pub(crate) fn find_path<V: HasPosition, DE, UE, F, G: FreeFaces>(
    dcel: &Dcel<V, DE, UE, F>,
    free: &G,
    first: &[FixedVertexHandle; 3],
    last: &[FixedVertexHandle; 3],
    goal: Point2<V::Scalar>,
    start: Point2<V::Scalar>,
    alloc: Global,
) -> Result<Option<Vec<u32>>, AllocError>
    requires kept { IsTriangulated V.place (state_of dcel.now) }
    requires last { All (λ v. v < length dcel.now.vertices) last.now }
    ensures { let t = triangulation_of V.place (state_of dcel.now) in
        let free = by_place (G.free free.now) in
        IfOk result (λ found. MatchOption found (AreApart t free first.now last.now)
        (λ vs. LeadsOver t free first.now last.now vs.items)) }
{
    let mut search = begin(dcel, last, goal, start, alloc)?;
    while let Some(lead) = search.next() {
        if is_among(first, lead.vertex) {
            let step = Step {
                vertex: lead.vertex,
                before: lead.before,
            };
            let path = read_path(&search.steps, step, alloc)?;
            return Ok(Some(path));
        }
        search.reach(lead)?;
        let vertex = FixedVertexHandle::from_index(lead.vertex);
        search.spread(dcel, vertex, lead.length, free, goal)?;
    }
    Ok(None)
}
