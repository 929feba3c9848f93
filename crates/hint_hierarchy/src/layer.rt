//! One layer of a hierarchy: a plain triangulation of positions, with the stars of its vertices.
ghost use Rattle.std.specs.Prelude.{◌≡◌, ◌⊎◌, [], All, IfOk, IsTrue, false, true};
ghost use Rattle.{delaunay_core.specs.place_of, plane.specs.IsAtMost, plane.specs.IsAtMostWith};
ghost use Rattle.hint_hierarchy.specs.Bloom.{HaveBits, may_have};
ghost use Rattle.hint_hierarchy.specs.Layers.{IsPositionOf, positions};

use crate::bloom::BloomFilter;
use crate::stars::Stars;
use delaunay_core::HintGenerator;
use delaunay_core::math::PlaneTests;
use delaunay_core::point::{Point2, SpadeNum};
use delaunay_interface::{DelaunayTriangulation, Triangulation};
use half_edge_links::FixedVertexHandle;
use std::alloc::{AllocError, Global};
use std::marker::Model;

/// For how many positions there is room in a filter beyond twice those of the layer.
const LEAST_ROOM: u32 = 32;

/// A plain triangulation of some vertices' positions, and the star of each vertex for searches. The
/// filter has each of the positions, so that most others are told from them without a search.
#[derive(Drop)]
pub(crate) struct Layer<S: SpadeNum> {
    triangulation: DelaunayTriangulation<Point2<S>>,
    stars: Stars,
    filter: BloomFilter,
    alloc: Global,
}

impl<S: SpadeNum> Model for Layer<S> {
    ghost use Rattle.std.specs.Prelude.{List};
    ghost use Rattle.{delaunay_core.specs.Point2, hint_hierarchy.specs.Bloom.HaveBits};

    ghost Value = { List (Point2 S) };

    ghost view = { λ l. l.triangulation.vertices };

    ghost invariant = { λ l. HaveBits S.whole l.filter l.triangulation.vertices };
}

// A filter of the positions of all vertices, with room for as many more.
fn filter_of<S: SpadeNum>(
    triangulation: &DelaunayTriangulation<Point2<S>>,
    alloc: Global,
) -> Result<BloomFilter, AllocError>
    ensures { IfOk result (λ f. HaveBits S.whole f triangulation.now.vertices) }
{
    let count = triangulation.num_vertices() as u32;
    let room = count.saturating_mul(2).saturating_add(LEAST_ROOM);
    let mut filter = BloomFilter::with_room(room, alloc);
    for index in 0..count {
        let vertex = triangulation.vertex(FixedVertexHandle::from_index(index));
        filter.add(*vertex.data())?;
    }
    Ok(filter)
}

// Puts a larger filter in place of one that is full.
fn make_room<S: SpadeNum>(
    filter: &mut BloomFilter,
    triangulation: &DelaunayTriangulation<Point2<S>>,
    alloc: Global,
) -> Result<(), AllocError>
    requires { HaveBits S.whole filter.old triangulation.now.vertices }
    ensures { HaveBits S.whole filter.new triangulation.now.vertices }
{
    if filter.is_full() {
        *filter = filter_of(triangulation, alloc)?;
    }
    Ok(())
}

// Adds a position to the filter of a triangulation; whether there was memory for it.
fn add_to_filter<S: SpadeNum>(
    filter: &mut BloomFilter,
    triangulation: &DelaunayTriangulation<Point2<S>>,
    position: Point2<S>,
    alloc: Global,
) -> bool
    requires { HaveBits S.whole filter.old triangulation.now.vertices }
    ensures all { HaveBits S.whole filter.new triangulation.now.vertices }
    ensures added { may_have filter.new (place_of S.whole position) ≡ true }
{
    let has_room = make_room(filter, triangulation, alloc).is_ok();
    filter.add(position).is_ok() && has_room
}

impl<S: SpadeNum> Layer<S> {
    // A layer with no vertex.
    pub(crate) fn new(alloc: Global) -> Self
        ensures { positions S.whole result ≡ [] }
    {
        Layer {
            triangulation: DelaunayTriangulation::new(alloc),
            stars: Stars::new(alloc),
            filter: BloomFilter::new(alloc),
            alloc,
        }
    }

    // Whether there is one vertex, or none.
    pub(crate) fn is_idle(&self) -> bool {
        self.triangulation.num_vertices() < 2
    }

    // Inserts a position; whether no vertex has had it, and there was memory for it.
    pub(crate) fn insert<P: PlaneTests<S>>(&mut self, position: Point2<S>, tests: &P) -> bool
        requires sites { All (P.sites tests.now) (positions S.whole self.old) }
        requires site { P.sites tests.now (place_of S.whole position) }
        ensures { IsAtMostWith (IsPositionOf S.whole self.old) (IsPositionOf S.whole self.new)
            (place_of S.whole position) }
    {
        if !add_to_filter(&mut self.filter, &self.triangulation, position, self.alloc) {
            return false;
        }
        match self.triangulation.insert(position, tests) {
            Ok(vertex) => self.stars.take_up(&self.triangulation, vertex),
            Err(_) => false,
        }
    }

    // The vertices whose neighbours may be others when one is removed: the vertex, since the last
    // one takes its index, and its neighbours.
    fn changed_without(
        &self,
        vertex: FixedVertexHandle,
    ) -> Result<Vec<FixedVertexHandle>, AllocError> {
        let mut changed = Vec::new(self.alloc);
        changed.push(vertex)?;
        if let Some(vertex) = self.triangulation.get_vertex(vertex) {
            for edge in vertex.out_edges() {
                changed.push(edge.to().fix())?;
            }
        }
        Ok(changed)
    }

    // Removes a vertex; whether there was one, and memory for it.
    pub(crate) fn remove<P: PlaneTests<S>>(&mut self, index: u32, tests: &P) -> bool
        requires { All (P.sites tests.now) (positions S.whole self.old) }
        ensures { IsAtMost (IsPositionOf S.whole self.old) (IsPositionOf S.whole self.new) }
    {
        if index as usize >= self.triangulation.num_vertices() {
            return false;
        }
        let vertex = FixedVertexHandle::from_index(index);
        let Ok(changed) = self.changed_without(vertex) else {
            return false;
        };
        let removed = self.triangulation.remove(vertex, tests).is_ok();
        self.stars
            .renew(&self.triangulation, vertex, changed.as_slice());
        removed
    }

    // The vertex that is nearest to a position, by a walk from the vertex `start`. The layer keeps
    // it as the last that was used.
    pub(crate) fn nearest_from<P: PlaneTests<S>>(
        &self,
        start: u32,
        position: Point2<S>,
        tests: &P,
    ) -> u32
        requires sites { All (P.sites tests.now) (positions S.whole self.now) }
        requires covered { P.covered tests.now (place_of S.whole position) }
    {
        let whole = Point2::new(position.x.to_i64(), position.y.to_i64());
        let (near, is_nearest) = self.stars.near(start, whole);
        let used = FixedVertexHandle::from_index(near);
        HintGenerator::<S>::notify_vertex_lookup(self.triangulation.hint_generator(), used);
        if is_nearest {
            return near;
        }
        match self.triangulation.nearest_neighbor(position, tests) {
            Some(vertex) => vertex.fix().index(),
            None => 0,
        }
    }

    // Whether a vertex may have this position.
    pub(crate) fn may_have(&self, position: Point2<S>) -> bool
        ensures { result ≡ false →
            ¬ IsPositionOf S.whole self.now (place_of S.whole position) }
    {
        self.filter.may_have(position)
    }

    // Whether no vertex has this position.
    pub(crate) fn is_vacant<P: PlaneTests<S>>(&self, position: Point2<S>, tests: &P) -> bool
        requires sites { All (P.sites tests.now) (positions S.whole self.now) }
        requires covered { P.covered tests.now (place_of S.whole position) }
        ensures { IsTrue result → ¬ IsPositionOf S.whole self.now (place_of S.whole position) }
    {
        self.triangulation.locate_vertex(position, tests).is_none()
    }

    // The position of the first vertex, or another where there is none.
    pub(crate) fn first_position(&self, other: Point2<S>) -> Point2<S>
        ensures { IsPositionOf S.whole self.now (place_of S.whole result) ⊎
            (place_of S.whole result ≡ place_of S.whole other) }
    {
        match self
            .triangulation
            .get_vertex(FixedVertexHandle::from_index(0))
        {
            Some(vertex) => *vertex.data(),
            None => other,
        }
    }

    // A copy, with the same positions.
    pub(crate) fn try_clone(&self) -> Result<Self, AllocError>
        ensures { IfOk result (λ l. positions S.whole l ≡ positions S.whole self.now) }
    {
        let triangulation = self.triangulation.try_clone()?;
        let stars = self.stars.clone()?;
        let filter = filter_of(&triangulation, self.alloc)?;
        Ok(Layer {
            triangulation,
            stars,
            filter,
            alloc: self.alloc,
        })
    }
}
