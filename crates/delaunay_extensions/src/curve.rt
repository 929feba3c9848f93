//! Where a point is on a Hilbert curve.
ghost use Rattle.std.specs.Prelude.{◌≡◌, ◌<◌};
ghost use Rattle.delaunay_extensions.specs.Curve.{doubled_by, joined_at, key_at, order_key};
ghost use Rattle.delaunay_extensions.specs.Curve.{round_key, round_of, spread_of, turned_by_twice};
ghost use Rattle.delaunay_extensions.specs.Curve.{turned_by_two};

/// Added to a coordinate in range it gives a number from 0 to 2^30.
const SHIFT: i64 = 1 << 29;

/// The bits of a shifted coordinate, and one more: the curve has as many levels as bits are set.
const LEVELS: u64 = 0xffff_ffff;

// How the curve is turned below its levels, a level a bit: which coordinates of a quarter are taken
// straight and which crossed, and what is added to them.
#[derive(Clone, Copy, Drop)]
struct Turns {
    straight: u64,
    crossed: u64,
    x: u64,
    y: u64,
}

// How each two levels turn it, for a point with these coordinates.
#[tactic(auto, unfolding(crate::specs::Curve::turned_by_two))]
fn turns_of_two(x: u64, y: u64) -> Turns
    ensures { result ≡ turned_by_two x y }
{
    let differ = x ^ y;
    let agree = LEVELS ^ differ;
    let neither = LEVELS ^ (x | y);
    let right = x & (LEVELS ^ y);
    Turns {
        straight: differ | (agree >> 1),
        crossed: (differ >> 1) ^ differ,
        x: ((neither >> 1) ^ (agree & (right >> 1))) ^ neither,
        y: ((differ & (neither >> 1)) ^ (right >> 1)) ^ right,
    }
}

// How twice as many levels turn it: so many, below as many others.
#[tactic(auto, unfolding(crate::specs::Curve::turned_by_twice))]
fn turns_of_twice(turns: Turns, levels: u32) -> Turns
    requires { levels < 64 }
    ensures { result ≡ turned_by_twice turns levels }
{
    let straight = turns.straight >> levels;
    let crossed = turns.crossed >> levels;
    let x = turns.x >> levels;
    let y = turns.y >> levels;
    Turns {
        straight: (turns.straight & straight) ^ (turns.crossed & crossed),
        crossed: (turns.straight & crossed) ^ (turns.crossed & (straight ^ crossed)),
        x: turns.x ^ ((turns.straight & x) ^ (turns.crossed & y)),
        y: turns.y ^ ((turns.crossed & x) ^ ((turns.straight ^ turns.crossed) & y)),
    }
}

// Bits, and these again some places higher, as far as a mask lets them through.
#[tactic(auto, unfolding(crate::specs::Curve::doubled_by))]
fn doubled(bits: u64, places: u32, mask: u64) -> u64
    requires { places < 64 }
    ensures { result ≡ doubled_by bits places mask }
{
    (bits | (bits << places)) & mask
}

// The lower 32 bits, each with a clear bit above it.
#[tactic(auto, unfolding(crate::specs::Curve::spread_of))]
fn spread_bits(bits: u64) -> u64
    ensures { result ≡ spread_of bits }
{
    let halves = doubled(bits, 16, 0x0000_ffff_0000_ffff);
    let bytes = doubled(halves, 8, 0x00ff_00ff_00ff_00ff);
    let nibbles = doubled(bytes, 4, 0x0f0f_0f0f_0f0f_0f0f);
    let pairs = doubled(nibbles, 2, 0x3333_3333_3333_3333);
    doubled(pairs, 1, 0x5555_5555_5555_5555)
}

// What a point's number is made of: in which halves of the squares round it, level by level, and
// how the curve is turned there.
#[tactic(auto, unfolding(crate::specs::Curve::joined_at))]
fn key_from(x: u64, y: u64, turns: Turns) -> u64
    ensures { result ≡ joined_at x y turns }
{
    let right = turns.x ^ (turns.x >> 1);
    let upper = turns.y ^ (turns.y >> 1);
    let low = x ^ y;
    let high = upper | (LEVELS ^ (low | right));
    (spread_bits(high) << 1) | spread_bits(low)
}

// How many points of the square of all points a Hilbert curve visits before this one. Points that
// are near on the curve are near in the plane.
#[tactic(auto, unfolding(crate::specs::Curve::key_at))]
fn curve_key(x: i64, y: i64) -> u64
    ensures { result ≡ key_at x y }
{
    let x = x.wrapping_add(SHIFT).unsigned_abs();
    let y = y.wrapping_add(SHIFT).unsigned_abs();
    let four = turns_of_twice(turns_of_two(x, y), 2);
    let sixteen = turns_of_twice(turns_of_twice(four, 4), 8);
    key_from(x, y, turns_of_twice(sixteen, 16))
}

// The round of a number on the curve, chosen by a hash: the last one, 7, of about seven numbers in
// eight, the one before it of seven in eight of the others, and so on.
#[tactic(auto, unfolding(crate::specs::Curve::round_of))]
fn round_of(key: u64) -> u64
    ensures { result ≡ round_of key }
{
    let thirds = key.wrapping_mul(0x9e37_79b9_7f4a_7c15).leading_zeros() / 3;
    u64::from(7 - thirds.min(7))
}

// A number on the curve below the number of its round.
#[tactic(auto, unfolding(crate::specs::Curve::round_key))]
fn round_key(key: u64) -> u64
    ensures { result ≡ round_key key }
{
    (round_of(key) << 61) | (key >> 1)
}

/// The number by which points are ordered: along the curve, in rounds of about eight times as many
/// points each where they are not all on one line. The points of the rounds before are all over the
/// plane, so that those of a round make small faces from the beginning, which takes fewer flips.
#[tactic(auto, unfolding(crate::specs::Curve::order_key))]
pub(crate) fn order_key(x: i64, y: i64, is_line: bool) -> u64
    ensures { result ≡ order_key is_line x y }
{
    let key = curve_key(x, y);
    if is_line { key } else { round_key(key) }
}
