//! Points of whole numbers, and values that have a position.
ghost use Rattle.std.specs.Prelude.{◌≡◌, ◌≤◌, ◌∷◌, [], ℤ, pos, ◌-ℤ◌, ◌*ℤ◌, refl, unsigned_abs};
ghost use Rattle.std.specs.Ordering.{int_cmp, int_eq, as_partial_cmp};
ghost use Rattle.plane.specs.{gap, InRange, IsCoordinate, Point, whole as fraction};
ghost use Rattle.delaunay_core.specs.Place.{place_of};

/// A signed whole number that is read as an `i64`.
pub trait SpadeNum: Copy + PartialOrd + Drop {
    ghost whole: { Self → ℤ };

    /// The same number.
    fn to_i64(self) -> i64
        ensures { result ≡ whole self };

    // Two numbers that are read alike are one.
    ghost injective: { (a b : Self) → whole a ≡ whole b → a ≡ b };

    ghost clone_is_equal: { (a b : Self) → Self.Clone.is_clone a b → b ≡ a };

    ghost same_equality: { (a b : Self) → Self.PartialEq.eq a b ≡ int_eq (whole a) (whole b) };

    ghost same_order: { (a b : Self) →
        Self.PartialOrd.partial_cmp a b ≡ as_partial_cmp int_cmp (whole a) (whole b) };
}

impl SpadeNum for i8 {
    ghost whole = { λ z. z };

    ghost injective = { λ a b e. e };

    ghost clone_is_equal = { λ a b e. e };

    ghost same_equality = { λ a b. refl };

    ghost same_order = { λ a b. refl };

    fn to_i64(self) -> i64 {
        i64::from(self)
    }
}

impl SpadeNum for i16 {
    ghost whole = { λ z. z };

    ghost injective = { λ a b e. e };

    ghost clone_is_equal = { λ a b e. e };

    ghost same_equality = { λ a b. refl };

    ghost same_order = { λ a b. refl };

    fn to_i64(self) -> i64 {
        i64::from(self)
    }
}

impl SpadeNum for i32 {
    ghost whole = { λ z. z };

    ghost injective = { λ a b e. e };

    ghost clone_is_equal = { λ a b e. e };

    ghost same_equality = { λ a b. refl };

    ghost same_order = { λ a b. refl };

    fn to_i64(self) -> i64 {
        i64::from(self)
    }
}

impl SpadeNum for i64 {
    ghost whole = { λ z. z };

    ghost injective = { λ a b e. e };

    ghost clone_is_equal = { λ a b e. e };

    ghost same_equality = { λ a b. refl };

    ghost same_order = { λ a b. refl };

    fn to_i64(self) -> i64 {
        self
    }
}

/// A point of the plane. Points are ordered by `x`, then by `y`.
///
/// ```
/// let corner = Point2::new(3, 4);
/// let distance = corner.distance_2(Point2::new(0, 0)); // 25, the square of 5
/// let (x, y) = <(i64, i64)>::from(corner);
/// ```
#[derive(Clone, Copy, Debug, PartialEq, Eq, PartialOrd, Ord, Hash, Default)]
pub struct Point2<S> {
    pub x: S,
    pub y: S,
}

impl<S> Point2<S> {
    /// The point with these coordinates.
    pub const fn new(x: S, y: S) -> Self
        ensures x { result.x ≡ x }
        ensures y { result.y ≡ y }
    {
        Point2 { x, y }
    }
}

impl<S: SpadeNum> Point2<S> {
    /// The squared distance of two points in range.
    pub fn distance_2(&self, other: Self) -> i64
        requires in_range { InRange (place_of S.whole self.now) }
        requires other_in_range { InRange (place_of S.whole other) }
        ensures { result ≡ gap (fraction (place_of S.whole self.now))
            (fraction (place_of S.whole other)) }
    {
        let (x, y) = (difference(self.x, other.x), difference(self.y, other.y));
        x * x + y * y
    }
}

// The way from one coordinate to another.
pub(crate) fn difference<S: SpadeNum>(from: S, to: S) -> i64
    requires from { IsCoordinate (S.whole from) }
    requires to { IsCoordinate (S.whole to) }
    ensures value { result ≡ S.whole to *ℤ pos 1 -ℤ S.whole from *ℤ pos 1 }
    ensures bound { unsigned_abs result ≤ 1073741824 }
{
    to.to_i64() - from.to_i64()
}

impl<S: SpadeNum> From<[S; 2]> for Point2<S> {
    ghost from_gives = { λ a p. a ≡ p.x ∷ p.y ∷ [] };

    fn from(source: [S; 2]) -> Self {
        Point2::new(source[0], source[1])
    }
}

impl<S: SpadeNum> From<Point2<S>> for [S; 2] {
    ghost from_gives = { λ p a. a ≡ p.x ∷ p.y ∷ [] };

    fn from(point: Point2<S>) -> [S; 2] {
        [point.x, point.y]
    }
}

impl<S: SpadeNum> From<(S, S)> for Point2<S> {
    ghost from_gives = { λ a p. a ≡ (p.x, p.y) };

    fn from(source: (S, S)) -> Self {
        Point2::new(source.0, source.1)
    }
}

impl<S: SpadeNum> From<Point2<S>> for (S, S) {
    ghost from_gives = { λ p a. a ≡ (p.x, p.y) };

    fn from(point: Point2<S>) -> (S, S) {
        (point.x, point.y)
    }
}

/// A value with a position, which is a function of the value.
///
/// ```
/// impl HasPosition for Station {
///     type Scalar = i64;
///
///     ghost place = { λ s. ⟦<Point2<i64> as HasPosition>⟧.place s.place };
///
///     fn position(&self) -> Point2<i64> {
///         self.place
///     }
/// }
/// ```
pub trait HasPosition {
    /// The type of the coordinates of the position.
    type Scalar: SpadeNum;

    ghost place: { Self → Point };

    /// The position of the value.
    fn position(&self) -> Point2<Self::Scalar>
        ensures { place_of Self.Scalar.whole result ≡ place self.now };
}

impl<S: SpadeNum> HasPosition for Point2<S> {
    type Scalar = S;

    ghost place = { place_of S.whole };

    fn position(&self) -> Point2<S> {
        *self
    }
}
