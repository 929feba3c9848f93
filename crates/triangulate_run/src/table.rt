//! The tables of the sheets: their points, and by circle the left-turning triples, with the points
//! inside each.

use crate::circles::Circle;
use crate::points::SheetPoint;
use delaunay_core::point::Point2;

macro_rules! site {
    ($x:expr, $y:expr) => {
        SheetPoint {
            position: Point2 { x: $x, y: $y },
            site: true,
        }
    };
}

// A point at which no vertex may be.
macro_rules! covered {
    ($x:expr, $y:expr) => {
        SheetPoint {
            position: Point2 { x: $x, y: $y },
            site: false,
        }
    };
}

// Three rows of three sites, whose coordinates are these.
macro_rules! grid {
    ($low:expr, $middle:expr, $high:expr) => {
        [
            site!($low, $low),
            site!($middle, $low),
            site!($high, $low),
            site!($low, $middle),
            site!($middle, $middle),
            site!($high, $middle),
            site!($low, $high),
            site!($middle, $high),
            site!($high, $high),
        ]
    };
}

// Sites on the line y = 0.
macro_rules! row {
    ($($x:expr),*) => {
        [$(site!($x, 0)),*]
    };
}

// The triples of a circle, and the points inside it.
macro_rules! circle {
    ($triples:expr; $($p:expr),*) => {
        Circle {
            triples: $triples,
            inside: [
                $($p == 0 ||)* false,
                $($p == 1 ||)* false,
                $($p == 2 ||)* false,
                $($p == 3 ||)* false,
                $($p == 4 ||)* false,
                $($p == 5 ||)* false,
                $($p == 6 ||)* false,
                $($p == 7 ||)* false,
                $($p == 8 ||)* false,
            ],
        }
    };
}

pub(crate) const G_POINTS: [SheetPoint; 9] = grid!(-1, 0, 1);

pub(crate) const B_POINTS: [SheetPoint; 9] = grid!(-536870912, 0, 536870912);

// Of the grid, however far apart its points are. By their indexes they stand so:
//
//     6 7 8
//     3 4 5
//     0 1 2
pub(crate) const GRID_CIRCLES: [Circle; 34] = [
    circle!([[0, 1, 4], [0, 1, 3], [0, 4, 3], [1, 4, 3]];),
    circle!([[1, 2, 5], [1, 2, 4], [1, 5, 4], [2, 5, 4]];),
    circle!([[3, 4, 7], [3, 4, 6], [3, 7, 6], [4, 7, 6]];),
    circle!([[4, 5, 8], [4, 5, 7], [4, 8, 7], [5, 8, 7]];),
    circle!([[0, 1, 7], [0, 1, 6], [0, 7, 6], [1, 7, 6]]; 3, 4),
    circle!([[1, 2, 8], [1, 2, 7], [1, 8, 7], [2, 8, 7]]; 4, 5),
    circle!([[0, 2, 5], [0, 2, 3], [0, 5, 3], [2, 5, 3]]; 1, 4),
    circle!([[3, 5, 8], [3, 5, 6], [3, 8, 6], [5, 8, 6]]; 4, 7),
    circle!([[0, 2, 8], [0, 2, 6], [0, 8, 6], [2, 8, 6]]; 1, 3, 4, 5, 7),
    circle!([[1, 5, 7], [1, 5, 3], [1, 7, 3], [5, 7, 3]]; 4),
    circle!([[0, 2, 4]; 4]; 1),
    circle!([[2, 8, 4]; 4]; 5),
    circle!([[8, 6, 4]; 4]; 7),
    circle!([[6, 0, 4]; 4]; 3),
    circle!([[0, 2, 7]; 4]; 1, 3, 4, 5),
    circle!([[2, 8, 3]; 4]; 1, 4, 5, 7),
    circle!([[8, 6, 1]; 4]; 3, 4, 5, 7),
    circle!([[6, 0, 5]; 4]; 1, 3, 4, 7),
    circle!([[0, 1, 5], [0, 1, 8], [0, 5, 8], [1, 5, 8]]; 3, 4, 6, 7),
    circle!([[2, 5, 7], [2, 5, 6], [2, 7, 6], [5, 7, 6]]; 0, 1, 3, 4),
    circle!([[8, 7, 3], [8, 7, 0], [8, 3, 0], [7, 3, 0]]; 1, 2, 4, 5),
    circle!([[6, 3, 1], [6, 3, 2], [6, 1, 2], [3, 1, 2]]; 4, 5, 7, 8),
    circle!([[3, 4, 8]; 4]; 6, 7),
    circle!([[1, 4, 6]; 4]; 0, 3),
    circle!([[5, 4, 0]; 4]; 1, 2),
    circle!([[7, 4, 2]; 4]; 5, 8),
    circle!([[6, 4, 5]; 4]; 7, 8),
    circle!([[0, 4, 7]; 4]; 3, 6),
    circle!([[2, 4, 3]; 4]; 0, 1),
    circle!([[8, 4, 1]; 4]; 2, 5),
    circle!([[0, 5, 7]; 4]; 1, 3, 4),
    circle!([[2, 7, 3]; 4]; 1, 4, 5),
    circle!([[8, 3, 1]; 4]; 4, 5, 7),
    circle!([[6, 1, 5]; 4]; 3, 4, 7),
];

pub(crate) const R_POINTS: [SheetPoint; 100] = row![
    -50, -49, -48, -47, -46, -45, -44, -43, -42, -41, -40, -39, -38, -37, -36, -35, -34, -33, -32,
    -31, -30, -29, -28, -27, -26, -25, -24, -23, -22, -21, -20, -19, -18, -17, -16, -15, -14, -13,
    -12, -11, -10, -9, -8, -7, -6, -5, -4, -3, -2, -1, 0, 1, 2, 3, 4, 5, 6, 7, 8, 9, 10, 11, 12,
    13, 14, 15, 16, 17, 18, 19, 20, 21, 22, 23, 24, 25, 26, 27, 28, 29, 30, 31, 32, 33, 34, 35, 36,
    37, 38, 39, 40, 41, 42, 43, 44, 45, 46, 47, 48, 49
];

pub(crate) const L_POINTS: [SheetPoint; 7] = [
    site!(-30, 20),
    site!(0, -20),
    site!(0, 20),
    site!(14, 0),
    site!(30, 0),
    covered!(-30, 0),
    covered!(40, 0),
];

// First each triple of sites, with the sites inside its circle, then the other triples, whose
// circles are never asked for.
pub(crate) const L_CIRCLES: [Circle; 16] = [
    circle!([[0, 1, 2]; 4];),
    circle!([[0, 1, 3]; 4]; 2),
    circle!([[0, 1, 4]; 4]; 2, 3),
    circle!([[0, 3, 2]; 4]; 1),
    circle!([[0, 3, 4]; 4]; 2),
    circle!([[0, 4, 2]; 4]; 1, 3),
    circle!([[1, 3, 2]; 4];),
    circle!([[1, 4, 2]; 4]; 3),
    circle!([[1, 4, 3]; 4];),
    circle!([[2, 3, 4]; 4];),
    circle!([[0, 1, 6], [0, 3, 6], [0, 4, 6], [0, 5, 1]];),
    circle!([[0, 5, 2], [0, 5, 3], [0, 5, 4], [0, 5, 6]];),
    circle!([[0, 6, 2], [1, 2, 5], [1, 3, 5], [1, 4, 5]];),
    circle!([[1, 6, 2], [1, 6, 3], [1, 6, 4], [1, 6, 5]];),
    circle!([[2, 3, 6], [2, 4, 6], [2, 5, 3], [2, 5, 4]];),
    circle!([[2, 5, 6]; 4];),
];

// Two lines that cross at (0, 0).
pub(crate) const X_POINTS: [SheetPoint; 9] = [
    site!(-2, -2),
    site!(2, 2),
    site!(1, -1),
    site!(-1, 1),
    site!(1, 1),
    covered!(-1, -1),
    covered!(0, 0),
    covered!(-3, 3),
    covered!(3, -3),
];

// First each triple of sites, as above.
pub(crate) const X_CIRCLES: [Circle; 23] = [
    circle!([[0, 1, 3]; 4]; 2, 4),
    circle!([[0, 2, 1]; 4]; 3, 4),
    circle!([[0, 2, 3]; 4];),
    circle!([[0, 2, 4]; 4]; 3),
    circle!([[0, 4, 3]; 4]; 2),
    circle!([[1, 3, 2]; 4]; 4),
    circle!([[1, 3, 4]; 4];),
    circle!([[1, 4, 2]; 4];),
    circle!([[2, 4, 3]; 4];),
    circle!([[0, 1, 7], [0, 2, 5], [0, 2, 6], [0, 2, 7]];),
    circle!([[0, 3, 7], [0, 4, 7], [0, 5, 3], [0, 5, 7]];),
    circle!([[0, 6, 3], [0, 6, 7], [0, 8, 1], [0, 8, 2]];),
    circle!([[0, 8, 3], [0, 8, 4], [0, 8, 5], [0, 8, 6]];),
    circle!([[0, 8, 7], [1, 2, 8], [1, 3, 5], [1, 3, 6]];),
    circle!([[1, 3, 8], [1, 4, 8], [1, 5, 2], [1, 5, 8]];),
    circle!([[1, 6, 2], [1, 6, 8], [1, 7, 2], [1, 7, 3]];),
    circle!([[1, 7, 4], [1, 7, 5], [1, 7, 6], [1, 7, 8]];),
    circle!([[2, 3, 5], [2, 4, 5], [2, 4, 6], [2, 4, 7]];),
    circle!([[2, 5, 8], [2, 6, 5], [2, 7, 5], [2, 8, 4]];),
    circle!([[3, 4, 7], [3, 5, 4], [3, 5, 6], [3, 5, 8]];),
    circle!([[3, 6, 4], [3, 7, 5], [3, 8, 4], [4, 5, 8]];),
    circle!([[4, 6, 8], [4, 7, 5], [4, 7, 6], [4, 7, 8]];),
    circle!([[5, 6, 7], [5, 8, 6], [5, 8, 7], [5, 8, 7]];),
];
