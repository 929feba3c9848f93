//! Data for new edges and faces.
ghost use Rattle.std.specs.Prelude.{◌≡◌, ◌+◌, ◌<◌, ◌≤◌, length, vec_len, vec_capacity};
ghost use Rattle.half_edge_dcel.specs.Growth.{Grows, MovesItem};

use std::mem::replace;

// Pushes `count` default values, for which there is room.
pub(crate) fn push_defaults<T: Default>(items: &mut Vec<T>, count: usize)
    requires { vec_len items.old + count ≤ vec_capacity items.old }
    ensures grows { Grows T.is_default items.old.items items.new.items count }
    ensures capacity { vec_capacity items.new ≡ vec_capacity items.old }
{
    for _ in 0..count {
        items.push_reserved(T::default());
    }
}

// Moves an item to the end, with a default value in its place, and pushes `count` default values
// after it.
pub(crate) fn move_item<T: Default>(items: &mut Vec<T>, index: usize, count: usize)
    requires within { index < vec_len items.old }
    requires room { vec_len items.old + 1 + count ≤ vec_capacity items.old }
    ensures moves { MovesItem T.is_default items.old.items items.new.items index count }
    ensures len { length items.new.items ≡ length items.old.items + 1 + count }
    ensures capacity { vec_capacity items.new ≡ vec_capacity items.old }
{
    let kept = replace(&mut items[index], T::default());
    items.push_reserved(kept);
    push_defaults(items, count);
}
