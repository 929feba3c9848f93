//! Which vertex the generator of last used vertices gives after what it was told.

use delaunay_core::math::validate_vertex;
use delaunay_core::point::Point2;
use delaunay_core::{HintGenerator, LastUsedVertexHintGenerator};
use exact_predicates::ExactTests;
use half_edge_links::FixedVertexHandle;
use std::alloc::Global;

pub fn new_generator(alloc: Global) -> LastUsedVertexHintGenerator {
    HintGenerator::<i64>::new(alloc)
}

/// The index of the vertex that is given for a point in range.
pub fn hint(generator: &LastUsedVertexHintGenerator, point: Point2<i64>) -> Option<u32> {
    if validate_vertex(&point).is_err() {
        return None;
    }
    Some(generator.get_hint(point, &ExactTests).index())
}

/// Tells of a vertex that was appended at a point in range, and whether it is one.
pub fn insert(generator: &mut LastUsedVertexHintGenerator, index: u32, point: Point2<i64>) -> bool {
    if validate_vertex(&point).is_err() {
        return false;
    }
    generator.notify_vertex_inserted(FixedVertexHandle::from_index(index), point, &ExactTests);
    true
}

/// Tells that the last vertex went, which was at a point in range, and whether it is one.
pub fn remove(generator: &mut LastUsedVertexHintGenerator, index: u32, point: Point2<i64>) -> bool {
    if validate_vertex(&point).is_err() {
        return false;
    }
    let vertex = FixedVertexHandle::from_index(index);
    generator.notify_vertex_removed(None, vertex, point, &ExactTests);
    true
}

pub fn look_up(generator: &LastUsedVertexHintGenerator, index: u32) {
    HintGenerator::<i64>::notify_vertex_lookup(generator, FixedVertexHandle::from_index(index));
}

/// What a duplicate gives after the first looked up another vertex, and what the first gives then.
pub fn duplicate(first: &LastUsedVertexHintGenerator, index: u32) -> [Option<u32>; 2] {
    let second = HintGenerator::<i64>::duplicate(first);
    look_up(first, index);
    let origin = Point2::new(0, 0);
    [hint(&second, origin), hint(first, origin)]
}

/// What one gives that is made for a triangulation without vertices.
pub fn initialized(alloc: Global) -> Option<u32> {
    let generator: LastUsedVertexHintGenerator = HintGenerator::<
        i64,
    >::initialize_from_triangulation(alloc, &[], &ExactTests);
    hint(&generator, Point2::new(0, 0))
}
