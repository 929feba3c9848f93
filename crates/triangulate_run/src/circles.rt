//! A table of left-turning triples, read by the indexes of points.
ghost use Rattle.std.specs.Prelude.{◌≡◌, MatchOption, Some, None};
ghost use Rattle.triangulate_run.specs.Table.{circle_in};

/// Left-turning triples on one circle, and a mark for each point inside it; or triples with a point
/// that is no site, whose circles are never asked for, and no mark.
pub(crate) struct Circle {
    /// Four triples; where there are fewer, one stands more than once.
    pub triples: [[usize; 3]; 4],
    /// By the index of the point.
    pub inside: [bool; 9],
}

/// The circle in whose triples the indexes are, or a rotation of them. It is one where they turn
/// left.
pub(crate) fn circle_of(circles: &[Circle], i: usize, j: usize, k: usize) -> Option<&Circle>
    ensures { MatchOption result (circle_in circles.now i j k ≡ None)
        (λ c. circle_in circles.now i j k ≡ Some c.now) }
{
    let rotations = [[i, j, k], [j, k, i], [k, i, j]];
    for circle in circles {
        for triple in rotations.as_slice() {
            if circle.triples.as_slice().contains(triple) {
                return Some(circle);
            }
        }
    }
    None
}
