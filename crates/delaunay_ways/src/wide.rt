//! Free faces that are wide enough.
ghost use Rattle.std.specs.Prelude.{◌≡◌, ◌↔◌, ◌-◌, ◌<◌, ◌≤◌, ◌*ℤ◌, ◌-ℤ◌, ◌≤ℤ◌, length, IfOk};
ghost use Rattle.std.specs.Prelude.{All, IsTrue, map, slice_index_or, false, unsigned_abs};
ghost use Rattle.plane.specs.{InRange, IsCoordinate, turn_at};
ghost use Rattle.{delaunay_core.specs.place_of, delaunay_shapes.specs.by_place};
ghost use Rattle.delaunay_legalization.specs.{IsTriangulated, state_of, triangulation_of};
ghost use Rattle.delaunay_ways.specs.Widths.{AreWide, IsAway, IsWide, IsWideTriangle};

use crate::corners::{first_corner, second_corner, third_corner};
use delaunay_core::point::{HasPosition, Point2, SpadeNum};
use delaunay_legalization::position_of;
use delaunay_location::HasMesh;
use delaunay_shapes::FreeFaces;
use half_edge_dcel::Dcel;
use half_edge_links::FixedFaceHandle;
use std::alloc::{AllocError, Global};
use std::marker::Model;

// The way from one coordinate to another.
fn difference<S: SpadeNum>(from: S, to: S) -> i64
    requires from { IsCoordinate (S.whole from) }
    requires to { IsCoordinate (S.whole to) }
    ensures value { result ≡ S.whole to -ℤ S.whole from }
    ensures bound { unsigned_abs result ≤ 1073741824 }
{
    to.to_i64() - from.to_i64()
}

// The product of two differences.
fn product(a: i64, b: i64) -> i64
    requires a { unsigned_abs a ≤ 1073741824 }
    requires b { unsigned_abs b ≤ 1073741824 }
    ensures value { result ≡ a *ℤ b }
    ensures bound { unsigned_abs result ≤ 1152921504606846976 }
{
    a * b
}

// Twice the signed area of a triangle.
fn turn_at<S: SpadeNum>(q: Point2<S>, u: Point2<S>, v: Point2<S>) -> i64
    requires q { InRange (place_of S.whole q) }
    requires u { InRange (place_of S.whole u) }
    requires v { InRange (place_of S.whole v) }
    ensures { result ≡ turn_at (place_of S.whole q) (place_of S.whole u) (place_of S.whole v) }
{
    product(difference(q.x, u.x), difference(q.y, v.y))
        - product(difference(q.y, u.y), difference(q.x, v.x))
}

// A product in full.
fn wide_product(a: i64, b: i64) -> i128
    ensures { result ≡ a *ℤ b }
{
    i128::from(a) * i128::from(b)
}

// Whether a product is at most a square.
fn is_at_most(a: i64, b: i64, root: i64) -> bool
    ensures { IsTrue result ↔ ((a *ℤ b) ≤ℤ (root *ℤ root)) }
{
    wide_product(a, b) <= wide_product(root, root)
}

// Whether a point is as far as the root of `width_2` from the line through two others, or farther.
fn is_away<S: SpadeNum>(a: Point2<S>, b: Point2<S>, c: Point2<S>, width_2: i64) -> bool
    requires a { InRange (place_of S.whole a) }
    requires b { InRange (place_of S.whole b) }
    requires c { InRange (place_of S.whole c) }
    ensures { IsTrue result ↔ IsAway width_2 (place_of S.whole a) (place_of S.whole b)
        (place_of S.whole c) }
{
    is_at_most(width_2, a.distance_2(b), turn_at(a, b, c))
}

// Whether each height of a triangle is as long as the root of `width_2`, or longer.
fn is_wide_triangle<S: SpadeNum>(a: Point2<S>, b: Point2<S>, c: Point2<S>, width_2: i64) -> bool
    requires a { InRange (place_of S.whole a) }
    requires b { InRange (place_of S.whole b) }
    requires c { InRange (place_of S.whole c) }
    ensures { IsTrue result ↔ IsWideTriangle width_2 (place_of S.whole a) (place_of S.whole b)
        (place_of S.whole c) }
{
    if !is_away(a, b, c, width_2) {
        return false;
    }
    if !is_away(b, c, a, width_2) {
        return false;
    }
    is_away(c, a, b, width_2)
}

// Whether each height of an inner face is as long as the root of `width_2`, or longer.
fn is_wide<V: HasPosition, DE, UE, F>(
    dcel: &Dcel<V, DE, UE, F>,
    face: FixedFaceHandle,
    width_2: i64,
) -> bool
    requires kept { IsTriangulated V.place (state_of dcel.now) }
    requires in_range { All InRange (map V.place dcel.now.vertices) }
    requires inner { (0 < face) × (face ≤ length dcel.now.faces) }
    ensures { IsTrue result ↔ IsWide (triangulation_of V.place (state_of dcel.now)) width_2
        (face - 1) }
{
    let a = position_of(dcel, first_corner(dcel, face));
    let b = position_of(dcel, second_corner(dcel, face));
    let c = position_of(dcel, third_corner(dcel, face));
    is_wide_triangle(a, b, c, width_2)
}

// Whether an inner face is free, and wide.
fn is_wide_free<V: HasPosition, DE, UE, F, G: FreeFaces>(
    dcel: &Dcel<V, DE, UE, F>,
    face: FixedFaceHandle,
    free: &G,
    width_2: i64,
) -> bool
    requires kept { IsTriangulated V.place (state_of dcel.now) }
    requires in_range { All InRange (map V.place dcel.now.vertices) }
    requires inner { (0 < face) × (face ≤ length dcel.now.faces) }
    ensures { IsTrue result ↔ (IsTrue (G.free free.now face)
        × IsWide (triangulation_of V.place (state_of dcel.now)) width_2 (face - 1)) }
{
    if !free.is_free(face) {
        return false;
    }
    is_wide(dcel, face, width_2)
}

// For each face whether it is an inner one, free and wide.
fn list_wide<V: HasPosition, DE, UE, F, G: FreeFaces>(
    dcel: &Dcel<V, DE, UE, F>,
    free: &G,
    width_2: i64,
    alloc: Global,
) -> Result<Vec<bool>, AllocError>
    requires kept { IsTriangulated V.place (state_of dcel.now) }
    requires in_range { All InRange (map V.place dcel.now.vertices) }
    ensures { IfOk result (λ wide. AreWide (triangulation_of V.place (state_of dcel.now))
        (by_place (G.free free.now)) width_2
        (by_place (λ n. slice_index_or wide.items n false))) }
{
    let mut wide = Vec::new(alloc);
    wide.push(false)?;
    for index in 1..dcel.num_faces() {
        let face = FixedFaceHandle::from_index(index as u32);
        let is_wide = is_wide_free(dcel, face, free, width_2);
        wide.push(is_wide)?;
    }
    Ok(wide)
}

/// The free faces that are wide enough for a disc: those of which each height is as long as its
/// diameter, or longer. So is each side then.
#[derive(Drop)]
pub struct WideFaces {
    free: Vec<bool>,
}

impl Model for WideFaces {
    ghost use Rattle.std.specs.Prelude.{List, Bool};

    ghost Value = { List Bool };

    ghost view = { λ w. w.free.items };
}

impl WideFaces {
    /// The faces of `free` of which each height is as long as the root of `width_2`, the squared
    /// diameter of a disc, or longer. This is found by squared lengths in whole numbers. It holds
    /// for the triangulation as it is; after an edit it has to be made anew.
    ///
    /// Each corner of such a face is at least one diameter away from the opposite side. So a disc
    /// whose centre goes straight from the middle of one side to the middle of another covers no
    /// corner of the face, and goes over no point of the third side. That is all: a way of
    /// `find_way` through wide faces still goes along sides and past corners, also where two wide
    /// faces have only a corner in common. It says which faces come one after the other, and not
    /// where the centre of the disc may be. And a face that is not wide may let the disc pass where
    /// no wall is near.
    ///
    /// ```
    /// let wide = WideFaces::new(&hall, &floor, 9, rt.alloc())?;
    /// let way = find_way(&hall, guard, door, &wide, &ExactTests, rt.alloc())?;
    /// ```
    pub fn new<T: HasMesh<V, DE, UE, F>, V: HasPosition, DE, UE, F, G: FreeFaces>(
        triangulation: &T,
        free: &G,
        width_2: i64,
        alloc: Global,
    ) -> Result<WideFaces, AllocError>
        ensures { IfOk result (λ wide. AreWide
            (triangulation_of V.place (T.mesh_state triangulation.now)) (by_place (G.free free.now))
            width_2 (by_place (λ n. slice_index_or wide n false))) }
    {
        let dcel = triangulation.mesh();
        let free = list_wide(dcel, free, width_2, alloc)?;
        Ok(WideFaces { free })
    }
}

impl FreeFaces for WideFaces {
    ghost use Rattle.std.specs.Prelude.{slice_index_or, false};

    ghost free = { λ wide face. slice_index_or wide face false };

    fn is_free(&self, face: FixedFaceHandle) -> bool {
        self.free
            .get(face.index() as usize)
            .copied()
            .unwrap_or(false)
    }
}
