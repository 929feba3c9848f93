//! The order in which vertices are inserted.
ghost use Rattle.std.specs.Prelude.{◌≡◌, ◌<◌, length, map, Some, slice_get, IfOk, MatchOption, All};
ghost use Rattle.plane.specs.{InRange};
ghost use Rattle.delaunay_extensions.specs.Order.{entry_of, IsFirstOutside, IsListed};

use crate::curve::order_key;
use delaunay_core::math::validate_vertex;
use delaunay_core::point::{HasPosition, SpadeNum};
use std::alloc::AllocError;

/// A vertex with its place in the list and the key that it is sorted by.
#[derive(Drop)]
pub(crate) struct Keyed<V> {
    pub(crate) key: u64,
    pub(crate) place: usize,
    pub(crate) vertex: V,
}

/// The least place with a vertex that is out of range, if there is one.
pub(crate) fn first_too_large<V: HasPosition>(vertices: &[V]) -> Option<usize>
    ensures { MatchOption result (All (λ v. InRange (V.place v)) vertices.now)
        (IsFirstOutside V.place vertices.now) }
{
    for place in 0..vertices.len() {
        if validate_vertex(&vertices[place]).is_err() {
            return Some(place);
        }
    }
    None
}

// Whether all positions are on one line, where they are in range. Nothing but time rests on it.
fn are_on_one_line<V: HasPosition>(vertices: &[V]) -> bool {
    let mut start = (0, 0);
    let mut way: (i64, i64) = (0, 0);
    for place in 0..vertices.len() {
        let position = vertices[place].position();
        let (x, y) = (position.x.to_i64(), position.y.to_i64());
        if place == 0 {
            start = (x, y);
        }
        let (x, y) = (x.wrapping_sub(start.0), y.wrapping_sub(start.1));
        if way.0.wrapping_mul(y) != way.1.wrapping_mul(x) {
            return false;
        }
        if way == (0, 0) {
            way = (x, y);
        }
    }
    true
}

/// The vertices along the curve, those of one position by rising place: in rounds where they are
/// not all on one line. It gives `AllocError` where memory was refused.
pub(crate) fn along_curve<V: HasPosition + Drop>(
    vertices: Vec<V>,
) -> Result<Vec<Keyed<V>>, AllocError>
    ensures { IfOk result
        (λ keyed. IsListed V.place vertices.items (map entry_of keyed.items)) }
{
    let is_line = are_on_one_line(vertices.as_slice());
    let mut keyed = Vec::with_capacity(*vertices.allocator(), vertices.len())?;
    for vertex in vertices {
        let position = vertex.position();
        let key = order_key(position.x.to_i64(), position.y.to_i64(), is_line);
        let place = keyed.len();
        keyed.push_reserved(Keyed { key, place, vertex });
    }
    keyed.sort_by_key(|entry| entry.key)?;
    Ok(keyed)
}
