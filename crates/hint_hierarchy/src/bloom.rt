//! A Bloom filter of positions with one hash function: a list of bits, to one of which each
//! position is mapped. A position whose bit is not set was never added, which takes no search.
ghost use Rattle.std.specs.Prelude.{◌≡◌, ◌<◌, [], true};
ghost use Rattle.{delaunay_core.specs.place_of, plane.specs.Point};
ghost use Rattle.hint_hierarchy.specs.Bloom.{bit_of, may_have};

use delaunay_core::point::{Point2, SpadeNum};
use delaunay_shapes::Marks;
use std::alloc::{AllocError, Global};
use std::marker::Model;

/// How many bits there are for each position that there is room for.
const BITS_EACH: u32 = 32;

/// The bits of positions. Where memory was refused there are none, and any position may be in it.
#[derive(Drop)]
pub(crate) struct BloomFilter {
    bits: Marks,
    count: u32,
    // How many positions more are to be added at most.
    room: u32,
    alloc: Global,
}

impl Model for BloomFilter {
    ghost use Rattle.std.specs.Prelude.{◌≡◌, List, Bool, length};

    ghost Value = { List Bool };

    ghost view = { λ f. f.bits };

    ghost invariant = { λ f. f.count ≡ length f.bits };
}

// The place of a position's bit among so many: multiplicative hashing.
#[inline(always)]
fn place_of_bit<S: SpadeNum>(position: Point2<S>, count: u32) -> u32
    ensures place { result ≡ bit_of count (place_of S.whole position) }
    ensures within { 0 < count → result < count }
{
    let x = position.x.to_i64().cast_unsigned();
    let y = position.y.to_i64().cast_unsigned();
    let mixed = x
        .wrapping_mul(11_400_714_819_323_198_485)
        .wrapping_add(y.wrapping_mul(14_029_467_366_897_019_727));
    let hash = mixed >> 32;
    (hash * u64::from(count) >> 32) as u32
}

impl BloomFilter {
    /// One with no bits, in no memory.
    pub(crate) fn new(alloc: Global) -> Self
        ensures { result ≡ [] }
    {
        BloomFilter {
            bits: Marks::new(0, alloc),
            count: 0,
            room: 0,
            alloc,
        }
    }

    /// One to which nothing was added, with room for so many positions.
    pub(crate) fn with_room(room: u32, alloc: Global) -> Self {
        let count = room.saturating_mul(BITS_EACH);
        BloomFilter {
            bits: Marks::new(count as usize, alloc),
            count,
            room,
            alloc,
        }
    }

    /// Whether a larger one is to take its place before more is added.
    pub(crate) fn is_full(&self) -> bool {
        self.room == 0
    }

    /// Whether a position may have been added.
    pub(crate) fn may_have<S: SpadeNum>(&self, position: Point2<S>) -> bool
        ensures { result ≡ may_have self.now (place_of S.whole position) }
    {
        self.count == 0 || self.bits.is_marked(place_of_bit(position, self.count))
    }

    /// Adds a position. Where memory is refused all bits are given up.
    pub(crate) fn add<S: SpadeNum>(&mut self, position: Point2<S>) -> Result<(), AllocError>
        ensures has { may_have self.new (place_of S.whole position) ≡ true }
        ensures others { (p : Point) → may_have self.old p ≡ true → may_have self.new p ≡ true }
    {
        self.room = self.room.saturating_sub(1);
        if self.count == 0 {
            return Ok(());
        }
        let marked = self.bits.mark(place_of_bit(position, self.count));
        if marked.is_err() {
            *self = BloomFilter::new(self.alloc);
        }
        marked
    }
}
