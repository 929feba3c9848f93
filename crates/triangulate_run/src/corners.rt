//! Faces by the indexes of their corners.
ghost use Rattle.std.specs.Prelude.{◌≡◌};
ghost use Rattle.triangulate_run.specs.Corners.{least_first};

/// A face by the indexes of its vertices, in left-turning order, the least index first.
#[derive(Clone, Copy, Debug, PartialEq, Eq, PartialOrd, Ord)]
pub struct Corners {
    pub first: u64,
    pub second: u64,
    pub third: u64,
}

/// The corners from the least index on, in the same turning order.
pub(crate) fn from_least(a: u64, b: u64, c: u64) -> Corners
    ensures { result ≡ least_first a b c }
{
    let (first, second, third) = if a < b && a < c {
        (a, b, c)
    } else if b < c {
        (b, c, a)
    } else {
        (c, a, b)
    };
    Corners {
        first,
        second,
        third,
    }
}
