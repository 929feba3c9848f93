//! A vertex of a layer with its neighbours, in one place.
ghost use Rattle.std.specs.Prelude.{◌≡◌};
ghost use Rattle.{delaunay_core.specs.place_of, plane.specs.InRange, plane.specs.IsCoordinate};

use delaunay_core::math::MAX_ALLOWED_VALUE;
use delaunay_core::point::{Point2, SpadeNum};
use half_edge_dcel::VertexHandle;
use half_edge_links::FixedVertexHandle;

/// How many neighbours are kept with a vertex. About one vertex in a hundred has more.
const KEPT: usize = 9;

/// A vertex of a layer, and where it is. Its coordinates are in range, so they fit.
#[derive(Clone, Copy)]
pub(crate) struct PlacedVertex {
    vertex: u32,
    x: i32,
    y: i32,
    ghost x_in_range: { IsCoordinate x },
    ghost y_in_range: { IsCoordinate y },
}

/// A vertex, and the square of its distance from a position.
#[derive(Clone, Copy)]
pub(crate) struct Candidate {
    pub(crate) vertex: u32,
    pub(crate) distance_2: i64,
}

/// A vertex and its neighbours, counterclockwise. Where it has more than are kept, the others are
/// only counted. It takes 128 bytes, two lines of a cache.
#[derive(Clone, Copy)]
pub(crate) struct Star {
    degree: usize,
    pub(crate) centre: PlacedVertex,
    ends: [PlacedVertex; KEPT],
}

// A coordinate in range, or the nearest that is.
fn narrow(coordinate: i64) -> i32
    ensures in_range { IsCoordinate result }
    ensures same { IsCoordinate coordinate → result ≡ coordinate }
{
    coordinate.clamp(-MAX_ALLOWED_VALUE, MAX_ALLOWED_VALUE) as i32
}

impl PlacedVertex {
    // A vertex of a layer.
    fn of<S: SpadeNum>(vertex: &VertexHandle<'_, Point2<S>, (), (), ()>) -> Self {
        let position = vertex.data();
        PlacedVertex {
            vertex: vertex.fix().index(),
            x: narrow(position.x.to_i64()),
            y: narrow(position.y.to_i64()),
        }
    }

    // The square of the distance from a position in range.
    #[inline(always)]
    fn distance_2(&self, position: Point2<i64>) -> i64
        requires { InRange (place_of (λ z. z) position) }
    {
        let dx = i64::from(self.x) - position.x;
        let dy = i64::from(self.y) - position.y;
        dx * dx + dy * dy
    }
}

impl Star {
    // Adds a neighbour, which comes last.
    fn push(&mut self, end: PlacedVertex) {
        if self.degree < KEPT {
            self.ends[self.degree] = end;
        }
        self.degree = self.degree.saturating_add(1);
    }

    // The neighbours that are kept.
    #[inline(always)]
    fn kept(&self) -> &[PlacedVertex] {
        &self.ends[..KEPT.min(self.degree)]
    }

    /// The star of a vertex.
    pub(crate) fn of<S: SpadeNum>(vertex: &VertexHandle<'_, Point2<S>, (), (), ()>) -> Self {
        let centre = PlacedVertex::of(vertex);
        let mut star = Star {
            degree: 0,
            centre,
            ends: [centre; KEPT],
        };
        for edge in vertex.out_edges() {
            star.push(PlacedVertex::of(&edge.to()));
        }
        star
    }

    /// Whether all neighbours are kept.
    pub(crate) fn keeps_all(&self) -> bool {
        self.degree <= KEPT
    }

    /// Puts a new neighbour in place of those that come between two others; whether both were found
    /// and all neighbours are kept, before and after. If not, the star is to be made anew.
    pub(crate) fn put_between(
        &mut self,
        before: FixedVertexHandle,
        new: PlacedVertex,
        after: FixedVertexHandle,
    ) -> bool {
        let former = *self;
        self.degree = 0;
        self.push(new);
        let mut is_past = false;
        for end in former.kept().iter().chain(former.kept().iter()) {
            is_past = is_past || end.vertex == after.index();
            if is_past {
                self.push(*end);
                if end.vertex == before.index() {
                    return former.keeps_all() && self.keeps_all();
                }
            }
        }
        false
    }

    /// Gives a neighbour that is kept another index.
    pub(crate) fn rename(&mut self, former: FixedVertexHandle, vertex: FixedVertexHandle) {
        for i in 0..KEPT {
            if self.ends[i].vertex == former.index() {
                self.ends[i].vertex = vertex.index();
            }
        }
    }

    /// The vertex itself, as a candidate.
    pub(crate) fn candidate(&self, position: Point2<i64>) -> Candidate
        requires { InRange (place_of (λ z. z) position) }
    {
        Candidate {
            vertex: self.centre.vertex,
            distance_2: self.centre.distance_2(position),
        }
    }

    /// The nearest of the neighbours that are kept, or another candidate if none is nearer.
    #[inline(always)]
    pub(crate) fn nearest_or(&self, other: Candidate, position: Point2<i64>) -> Candidate
        requires { InRange (place_of (λ z. z) position) }
    {
        let mut nearest = other;
        for end in self.kept() {
            let distance_2 = end.distance_2(position);
            if distance_2 < nearest.distance_2 {
                nearest = Candidate {
                    vertex: end.vertex,
                    distance_2,
                };
            }
        }
        nearest
    }
}
