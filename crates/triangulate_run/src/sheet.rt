//! The sheets of points that the program knows, with their answers.
ghost use Rattle.std.specs.Prelude.{◌≡◌, ◌↔◌, [], ◌∷◌};
ghost use Rattle.std.specs.Prelude.{true, All, IfSome, IfNone, IsTrue, map, string_bytes};
ghost use Rattle.plane.specs.{InsideCircle, side, TurnsLeft, whole};
ghost use Rattle.{triangulate_run.specs.Points.place, triangulate_run.specs.Stage.position};
ghost use Rattle.triangulate_run.specs.{declared.sheet.Sheet.Sheet, Range.covered_in_range};
ghost use Rattle.triangulate_run.specs.Sheet.{circles_of, IsCovered, IsSite, letter_of, points_of};

use crate::circles::{Circle, circle_of};
use crate::points::{SheetPoint, index_of, site_index_of};
use crate::table::{
    B_POINTS, G_POINTS, GRID_CIRCLES, L_CIRCLES, L_POINTS, R_POINTS, X_CIRCLES, X_POINTS,
};
use delaunay_core::line_side_info::LineSideInfo;
use delaunay_core::math::PlaneTests;
use delaunay_core::point::Point2;

/// A sheet of points, by its letter. As tests it covers its points, and its answers stand in
/// tables.
#[derive(Clone, Copy, Debug, PartialEq, Eq)]
pub enum Sheet {
    /// Three rows of three points, 1 apart, round (0, 0).
    G,
    /// The points of `G`, 2^29 apart, which is as far as coordinates reach.
    B,
    /// A hundred points on one line, 1 apart.
    R,
    /// Five sites, and two points that are none on the line through two of them.
    L,
    /// Five sites on two lines that cross, and four points on the lines that are none.
    X,
}

/// The sheet that the words after the program's name ask for: there is one word, and it is the
/// sheet's capital letter. For all other words it gives `None`.
pub fn sheet_named(words: &[String]) -> Option<Sheet>
    ensures found { IfSome result (λ sheet. map string_bytes words.now ≡ letter_of sheet ∷ []) }
    ensures none { IfNone result ((sheet : Sheet) →
        ¬ (map string_bytes words.now ≡ letter_of sheet ∷ [])) }
{
    let [word] = words else {
        return None;
    };
    letter_named(word.as_str())
}

/// The sheet whose letter is the word.
pub fn letter_named(word: &str) -> Option<Sheet>
    ensures found { IfSome result (λ sheet. word.now ≡ letter_of sheet) }
    ensures none { IfNone result ((sheet : Sheet) → ¬ (word.now ≡ letter_of sheet)) }
{
    match word {
        "G" => Some(Sheet::G),
        "B" => Some(Sheet::B),
        "R" => Some(Sheet::R),
        "L" => Some(Sheet::L),
        "X" => Some(Sheet::X),
        _ => None,
    }
}

impl Sheet {
    /// All points of the sheet.
    #[tactic(auto, unfolding(crate::specs::Sheet::points_of))]
    pub fn points(self) -> &'static [SheetPoint]
        ensures list { result.now ≡ points_of self }
        ensures covered { All (λ s. IsCovered self (place s)) result.now }
        ensures sites { All (λ s. s.site ≡ true → IsSite self (place s)) result.now }
    {
        match self {
            Sheet::G => &G_POINTS,
            Sheet::B => &B_POINTS,
            Sheet::R => &R_POINTS,
            Sheet::L => &L_POINTS,
            Sheet::X => &X_POINTS,
        }
    }

    /// Its circles, which hold the indexes of its points.
    #[tactic(auto, unfolding(crate::specs::Sheet::circles_of))]
    fn circles(self) -> &'static [Circle]
        ensures { result.now ≡ circles_of self }
    {
        match self {
            Sheet::G | Sheet::B => &GRID_CIRCLES,
            Sheet::R => &[],
            Sheet::L => &L_CIRCLES,
            Sheet::X => &X_CIRCLES,
        }
    }
}

impl PlaneTests<i64> for Sheet {
    ghost covered = { IsCovered };

    ghost sites = { IsSite };

    ghost sites_are_covered = { λ s p h. (h.0, h.1.0) };

    ghost covered_are_in_range = { covered_in_range };

    fn side(&self, from: Point2<i64>, to: Point2<i64>, point: Point2<i64>) -> LineSideInfo
        requires from_covered { IsCovered self.now (position from) }
        requires to_covered { IsCovered self.now (position to) }
        requires point_covered { IsCovered self.now (position point) }
        ensures { result ≡ side (whole (position from)) (whole (position to))
            (whole (position point)) }
    {
        let points = self.points();
        let circles = self.circles();
        let i = index_of(points, from).unwrap();
        let j = index_of(points, to).unwrap();
        let k = index_of(points, point).unwrap();
        if circle_of(circles, i, j, k).is_some() {
            LineSideInfo::left()
        } else if circle_of(circles, i, k, j).is_some() {
            LineSideInfo::right()
        } else {
            LineSideInfo::on_line()
        }
    }

    fn is_in_circle(
        &self,
        v1: Point2<i64>,
        v2: Point2<i64>,
        v3: Point2<i64>,
        point: Point2<i64>,
    ) -> bool
        requires v1_site { IsSite self.now (position v1) }
        requires v2_site { IsSite self.now (position v2) }
        requires v3_site { IsSite self.now (position v3) }
        requires point_site { IsSite self.now (position point) }
        requires left_turn { TurnsLeft (whole (position v1)) (whole (position v2))
            (whole (position v3)) }
        ensures { IsTrue result ↔ InsideCircle (whole (position v1)) (whole (position v2))
            (whole (position v3)) (whole (position point)) }
    {
        let points = self.points();
        let circles = self.circles();
        let i = site_index_of(points, v1).unwrap();
        let j = site_index_of(points, v2).unwrap();
        let k = site_index_of(points, v3).unwrap();
        let l = site_index_of(points, point).unwrap();
        match circle_of(circles, i, j, k) {
            Some(circle) => *circle.inside.get(l).unwrap_or(&false),
            None => false,
        }
    }
}
