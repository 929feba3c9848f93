//! Whether the disk of a circle stays within some sides.
ghost use Rattle.std.specs.Prelude.{◌≡◌, ◌↔◌, ◌<◌, ◌≤◌, ◌+◌, ◌*◌, ◌+ℤ◌, ◌-ℤ◌, ◌*ℤ◌, ◌<ℤ◌};
ghost use Rattle.std.specs.Prelude.{IsTrue, pos, unsigned_abs};
ghost use Rattle.plane.specs.{InRange, IsCoordinate, turn_at, TurnsLeft, whole as fraction};
ghost use Rattle.{delaunay_core.specs.place_of, exact_predicates.specs.Angles.dot_at};
ghost use Rattle.exact_predicates.specs.Disks.{IsClear, TellsClear, TellsDisk};

use crate::{difference, dot_at, turn_at};
use delaunay_core::point::{Point2, SpadeNum};

/// The sides of a rectangle along the axes, each by its `x` or `y`. A side that is `None` is
/// nowhere.
#[derive(Clone, Copy, Debug)]
pub struct Sides {
    pub left: Option<i32>,
    pub bottom: Option<i32>,
    pub right: Option<i32>,
    pub top: Option<i32>,
}

// The centre of a circle: the way to it from a point of the circle is x / scale and y / scale.
#[derive(Clone, Copy)]
struct Centre {
    x: i128,
    y: i128,
    scale: i64,
}

// A number: high times 2 to the 96th, and low, which is less than that.
#[derive(Clone, Copy)]
struct Wide {
    high: u128,
    low: u128,
}

// 2 to the 48th.
const HALF: u128 = 281474976710656;

// A product of numbers of 64 bits.
fn long_product(a: i64, b: i64) -> i128
    requires a { unsigned_abs a ≤ 4294967296 }
    requires b { unsigned_abs b ≤ 4611686018427387904 }
    ensures value { result ≡ a *ℤ b }
    ensures bound { unsigned_abs result ≤ 19807040628566084398385987584 }
{
    i128::from(a) * i128::from(b)
}

// What two products differ by.
fn across(a: i64, b: i64, c: i64, d: i64) -> i128
    requires a { unsigned_abs a ≤ 4294967296 }
    requires b { unsigned_abs b ≤ 4611686018427387904 }
    requires c { unsigned_abs c ≤ 4294967296 }
    requires d { unsigned_abs d ≤ 4611686018427387904 }
    ensures value { result ≡ a *ℤ b -ℤ c *ℤ d }
    ensures bound { unsigned_abs result ≤ 39614081257132168796771975168 }
{
    long_product(a, b) - long_product(c, d)
}

// A sum that stays in 96 bits.
fn sum(a: i128, b: i128) -> i128
    requires a { unsigned_abs a ≤ 39614081257132168796771975168 }
    requires b { unsigned_abs b ≤ 19807040628566084398385987584 }
    ensures value { result ≡ a +ℤ b }
    ensures bound { unsigned_abs result < 79228162514264337593543950336 }
{
    a + b
}

// The way round.
fn turned_round(a: i128) -> i128
    requires { unsigned_abs a ≤ 39614081257132168796771975168 }
    ensures value { result ≡ pos 0 -ℤ a }
    ensures bound { unsigned_abs result ≤ 39614081257132168796771975168 }
{
    -a
}

// The centre of the circle through three points, by the way from the first.
fn centre_of<S: SpadeNum>(a: Point2<S>, b: Point2<S>, c: Point2<S>) -> Centre
    requires a { InRange (place_of S.whole a) }
    requires b { InRange (place_of S.whole b) }
    requires c { InRange (place_of S.whole c) }
    ensures x { result.x ≡ (S.whole c.y -ℤ S.whole a.y) *ℤ
        dot_at (place_of S.whole a) (place_of S.whole b) (place_of S.whole b) -ℤ
        (S.whole b.y -ℤ S.whole a.y) *ℤ
        dot_at (place_of S.whole a) (place_of S.whole c) (place_of S.whole c) }
    ensures y { result.y ≡ (S.whole b.x -ℤ S.whole a.x) *ℤ
        dot_at (place_of S.whole a) (place_of S.whole c) (place_of S.whole c) -ℤ
        (S.whole c.x -ℤ S.whole a.x) *ℤ
        dot_at (place_of S.whole a) (place_of S.whole b) (place_of S.whole b) }
    ensures scale { result.scale ≡ pos 2 *ℤ
        turn_at (place_of S.whole a) (place_of S.whole b) (place_of S.whole c) }
    ensures x_bound { unsigned_abs result.x ≤ 39614081257132168796771975168 }
    ensures y_bound { unsigned_abs result.y ≤ 39614081257132168796771975168 }
    ensures scale_bound { unsigned_abs result.scale ≤ 4611686018427387904 }
{
    let (u, v) = (dot_at(a, b, b), dot_at(a, c, c));
    Centre {
        x: across(difference(a.y, c.y), u, difference(a.y, b.y), v),
        y: across(difference(a.x, b.x), v, difference(a.x, c.x), u),
        scale: 2 * turn_at(a, b, c),
    }
}

// The sum of two squares.
fn squares(x: u128, y: u128) -> Wide
    requires x { x < 79228162514264337593543950336 }
    requires y { y < 79228162514264337593543950336 }
    ensures value { result.high * 79228162514264337593543950336 + result.low ≡ x * x + y * y }
    ensures low { result.low < 79228162514264337593543950336 }
{
    let (a, b) = (x / HALF, x % HALF);
    let (c, d) = (y / HALF, y % HALF);
    let last = b * b + d * d;
    let middle = 2 * (a * b + c * d) + last / HALF;
    Wide {
        high: a * a + c * c + middle / HALF,
        low: middle % HALF * HALF + last % HALF,
    }
}

// Whether the way (x, y) is at most so long.
fn is_at_most(x: u128, y: u128, length: u128) -> bool
    requires x { x < 79228162514264337593543950336 }
    requires y { y < 79228162514264337593543950336 }
    requires length { length < 79228162514264337593543950336 }
    ensures { IsTrue result ↔ (x * x + y * y ≤ length * length) }
{
    if x + y <= length {
        return true;
    }
    let (vector, whole) = (squares(x, y), squares(length, 0));
    vector.high < whole.high || vector.high == whole.high && vector.low <= whole.low
}

impl Centre {
    // Whether a disk with this centre has nothing beyond a side: `along` is the way to the centre
    // in x or y, and `inner` that from the side to where it begins, both positive inwards.
    fn is_clear(&self, along: i128, inner: i64) -> bool
        requires x { unsigned_abs self.now.x ≤ 39614081257132168796771975168 }
        requires y { unsigned_abs self.now.y ≤ 39614081257132168796771975168 }
        requires scale { unsigned_abs self.now.scale ≤ 4611686018427387904 }
        requires along { unsigned_abs along ≤ 39614081257132168796771975168 }
        requires inner { unsigned_abs inner ≤ 4294967296 }
        ensures { IsTrue result ↔ IsClear self.now.x self.now.y
            (along +ℤ inner *ℤ self.now.scale) }
    {
        let reach = sum(along, long_product(inner, self.scale));
        reach >= 0
            && is_at_most(
                self.x.unsigned_abs(),
                self.y.unsigned_abs(),
                reach.unsigned_abs(),
            )
    }

    // The same of a side below a coordinate of the point that the way begins at.
    fn clears_lower(&self, along: i128, from: i64, side: Option<i32>) -> bool
        requires x { unsigned_abs self.now.x ≤ 39614081257132168796771975168 }
        requires y { unsigned_abs self.now.y ≤ 39614081257132168796771975168 }
        requires scale { unsigned_abs self.now.scale ≤ 4611686018427387904 }
        requires along { unsigned_abs along ≤ 39614081257132168796771975168 }
        requires from { IsCoordinate from }
        ensures { TellsClear self.now.x self.now.y
            (λ n. along +ℤ (from -ℤ n) *ℤ self.now.scale) side result }
    {
        match side {
            Some(at) => self.is_clear(along, from - i64::from(at)),
            None => true,
        }
    }

    // The same of a side above it, with the way turned round.
    fn clears_upper(&self, along: i128, from: i64, side: Option<i32>) -> bool
        requires x { unsigned_abs self.now.x ≤ 39614081257132168796771975168 }
        requires y { unsigned_abs self.now.y ≤ 39614081257132168796771975168 }
        requires scale { unsigned_abs self.now.scale ≤ 4611686018427387904 }
        requires along { unsigned_abs along ≤ 39614081257132168796771975168 }
        requires from { IsCoordinate from }
        ensures { TellsClear self.now.x self.now.y
            (λ n. along +ℤ (n -ℤ from) *ℤ self.now.scale) side result }
    {
        match side {
            Some(at) => self.is_clear(along, i64::from(at) - from),
            None => true,
        }
    }
}

/// Whether the closed disk of the circle through three points, counterclockwise, stays within some
/// sides.
///
/// ```
/// let sides = Sides { left: Some(0), bottom: None, right: None, top: None };
/// let (a, b, c) = (Point2::new(0, 0), Point2::new(4, 0), Point2::new(0, 4));
/// let stays = is_disk_within(a, b, c, &sides); // false: the disk reaches to -0.83
/// ```
pub fn is_disk_within<S: SpadeNum>(a: Point2<S>, b: Point2<S>, c: Point2<S>, sides: &Sides) -> bool
    requires a { InRange (place_of S.whole a) }
    requires b { InRange (place_of S.whole b) }
    requires c { InRange (place_of S.whole c) }
    requires left_turn { TurnsLeft (fraction (place_of S.whole a))
        (fraction (place_of S.whole b)) (fraction (place_of S.whole c)) }
    ensures { TellsDisk sides.now (place_of S.whole a) (place_of S.whole b) (place_of S.whole c)
        result }
{
    let centre = centre_of(a, b, c);
    let (x, y) = (a.x.to_i64(), a.y.to_i64());
    if !centre.clears_lower(centre.x, x, sides.left) {
        return false;
    }
    if !centre.clears_upper(turned_round(centre.x), x, sides.right) {
        return false;
    }
    if !centre.clears_lower(centre.y, y, sides.bottom) {
        return false;
    }
    centre.clears_upper(turned_round(centre.y), y, sides.top)
}
