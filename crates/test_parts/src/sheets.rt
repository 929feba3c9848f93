//! What the sheets hold, how they are named, and how faults are told.
ghost use Rattle.std.specs.Prelude.{◌≡◌, true, All};
ghost use Rattle.triangulate_run.specs.{place};

use delaunay_core::math::PlaneTests;
use delaunay_core::point::Point2;
use std::alloc::{AllocError, Global};
use triangulate_run::fault::{RunError, USAGE, fault_text, status_of};
use triangulate_run::points::{SheetPoint, index_of, site_index_of};
use triangulate_run::sheet::{Sheet, sheet_named};

/// The number of left-turning triples of the points, and, over these, of sites inside their
/// circles.
fn counts<P: PlaneTests<i64>>(tests: &P, points: &[SheetPoint]) -> (u64, u64)
    requires covered { All (λ s. P.covered tests.now (place s)) points.now }
    requires sites { All (λ s. s.site ≡ true → P.sites tests.now (place s)) points.now }
{
    let mut left = 0u64;
    let mut inside = 0u64;
    for a in points {
        for b in points {
            for c in points {
                if !tests
                    .side(a.position, b.position, c.position)
                    .is_on_left_side()
                {
                    continue;
                }
                left = left.wrapping_add(1);
                for d in points {
                    if a.site
                        && b.site
                        && c.site
                        && d.site
                        && tests.is_in_circle(a.position, b.position, c.position, d.position)
                    {
                        inside = inside.wrapping_add(1);
                    }
                }
            }
        }
    }
    (left, inside)
}

// 76 triples turn left. Four triples each have 2, 2, 2, 2, 5, 1, 4, 4, 4 and 4 points inside; of
// those whose circle carries no further point, four have 1, four have 4, eight have 2 and four have
// 3. Each has three rotations.
fn each_rotation_of_a_listed_triple_turns_left(sheet: Sheet) -> bool {
    let inside = 4 * (2 + 2 + 2 + 2 + 5 + 1 + 4 + 4 + 4 + 4) + 4 + 4 * 4 + 8 * 2 + 4 * 3;
    counts(&sheet, sheet.points()) == (76 * 3, inside * 3)
}

// Of 35 triples of L, 4 are on a line, and of 84 triples of X, 20 are. The sites inside the circles
// of ten and nine triples of sites are counted.
fn sheets_with_points_that_are_no_sites_turn_as_listed() -> bool {
    let inside = (1 + 2 + 1 + 1 + 2 + 1, 2 + 2 + 1 + 1 + 1);
    counts(&Sheet::L, Sheet::L.points()) == ((35 - 4) * 3, inside.0 * 3)
        && counts(&Sheet::X, Sheet::X.points()) == ((84 - 20) * 3, inside.1 * 3)
}

fn points_that_are_no_sites_are_found_as_such() -> bool {
    let (l, x) = (Sheet::L.points(), Sheet::X.points());
    let found = (
        (l.len(), x.len()),
        (
            index_of(l, Point2::new(40, 0)),
            site_index_of(l, Point2::new(40, 0)),
            site_index_of(l, Point2::new(30, 0)),
        ),
        (
            index_of(x, Point2::new(0, 0)),
            site_index_of(x, Point2::new(0, 0)),
            site_index_of(x, Point2::new(1, 1)),
        ),
    );
    found == ((7, 9), (Some(6), None, Some(4)), (Some(6), None, Some(4)))
}

fn points_are_found() -> bool {
    let points = Sheet::G.points();
    let found = (
        points.len(),
        index_of(points, Point2::new(0, 0)),
        site_index_of(points, Point2::new(1, 1)),
        index_of(points, Point2::new(2, 0)),
        site_index_of(points, Point2::new(5, 5)),
    );
    found == (9, Some(4), Some(8), None, None)
}

fn a_row_has_a_hundred_sites() -> bool {
    let points = Sheet::R.points();
    let found = (
        points.len(),
        site_index_of(points, Point2::new(-50, 0)),
        site_index_of(points, Point2::new(49, 0)),
        index_of(points, Point2::new(50, 0)),
        index_of(points, Point2::new(0, 1)),
    );
    found == (100, Some(0), Some(99), None, None)
}

/// The words as a program has them after its name.
fn owned(alloc: Global, words: &[&str]) -> Result<Vec<String>, AllocError> {
    let mut owned = Vec::new(alloc);
    for word in words {
        owned.push(String::from_str(alloc, word)?)?;
    }
    Ok(owned)
}

/// Whether the words after the program's name ask for just this sheet.
fn is_named(alloc: Global, words: &[&str], sheet: Option<Sheet>) -> bool {
    match owned(alloc, words) {
        Ok(owned) => sheet_named(&owned) == sheet,
        Err(_) => false,
    }
}

fn a_sheet_is_named_by_one_letter(alloc: Global) -> bool {
    for (words, sheet) in [
        (["G"].as_slice(), Some(Sheet::G)),
        (["B"].as_slice(), Some(Sheet::B)),
        (["R"].as_slice(), Some(Sheet::R)),
        (["L"].as_slice(), Some(Sheet::L)),
        (["X"].as_slice(), Some(Sheet::X)),
        ([].as_slice(), None),
        ([""].as_slice(), None),
        (["g"].as_slice(), None),
        (["Q"].as_slice(), None),
        (["GG"].as_slice(), None),
        (["G", "G"].as_slice(), None),
    ] {
        if !is_named(alloc, words, sheet) {
            return false;
        }
    }
    true
}

fn a_run_has_a_status_and_a_fault_a_text() -> bool {
    let statuses = (
        status_of(&Ok(())),
        status_of(&Err(RunError::Read)),
        status_of(&Err(RunError::Write)),
    );
    let texts = (
        fault_text(&RunError::Read),
        fault_text(&RunError::Write),
        USAGE,
    );
    statuses == (0, 1, 1)
        && texts
            == (
                "triangulate: read failed",
                "triangulate: write failed",
                "usage: triangulate G|B|R|L|X",
            )
}

/// What is to hold of the sheets, their names and the faults, and whether it does.
pub(crate) fn checks(alloc: Global) -> [(&'static str, bool); 8] {
    [
        (
            "each rotation of a listed triple of G turns left",
            each_rotation_of_a_listed_triple_turns_left(Sheet::G),
        ),
        (
            "each rotation of a listed triple of B turns left",
            each_rotation_of_a_listed_triple_turns_left(Sheet::B),
        ),
        (
            "sheets with points that are no sites turn as listed",
            sheets_with_points_that_are_no_sites_turn_as_listed(),
        ),
        (
            "points that are no sites are found as such",
            points_that_are_no_sites_are_found_as_such(),
        ),
        ("points are found", points_are_found()),
        ("a row has a hundred sites", a_row_has_a_hundred_sites()),
        (
            "a sheet is named by one letter",
            a_sheet_is_named_by_one_letter(alloc),
        ),
        (
            "a run has a status, and a fault a text",
            a_run_has_a_status_and_a_fault_a_text(),
        ),
    ]
}
