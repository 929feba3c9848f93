//! Points of a sheet, and where they stand in its list.
ghost use Rattle.std.specs.Prelude.{MatchOption};
ghost use Rattle.delaunay_core.specs.{place_of};
ghost use Rattle.triangulate_run.specs.Points.{HoldsAt, IsListed, IsListedSite, IsSiteAt};

use delaunay_core::point::Point2;

/// A point at which the program may ask its tests.
#[derive(Clone, Copy, Debug, PartialEq, Eq)]
pub struct SheetPoint {
    /// Where it is.
    pub position: Point2<i64>,
    /// Whether a vertex may stand there.
    pub site: bool,
}

/// The index of a point in the list, if it is there.
pub fn index_of(points: &[SheetPoint], point: Point2<i64>) -> Option<usize>
    ensures { MatchOption result (¬ IsListed points.now (place_of (λ z. z) point))
        (λ i. HoldsAt points.now i (place_of (λ z. z) point)) }
{
    for (i, listed) in points.iter().enumerate() {
        if listed.position == point {
            return Some(i);
        }
    }
    None
}

/// The index of a site in the list, if it is there.
pub fn site_index_of(points: &[SheetPoint], point: Point2<i64>) -> Option<usize>
    ensures { MatchOption result (¬ IsListedSite points.now (place_of (λ z. z) point))
        (λ i. IsSiteAt points.now i (place_of (λ z. z) point)) }
{
    for (i, listed) in points.iter().enumerate() {
        if listed.site && listed.position == point {
            return Some(i);
        }
    }
    None
}
