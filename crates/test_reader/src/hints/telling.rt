//! Telling a hint generator or not.
ghost use Rattle.std.specs.Prelude.{◌≡◌, Some};
ghost use Rattle.plane.specs.{IsAtMost, IsAtMostWith, IsAtMostWithout, Point};
ghost use Rattle.delaunay_core.specs.{place_if, place_of};

use delaunay_core::HintGenerator;
use delaunay_core::math::PlaneTests;
use delaunay_core::point::{Point2, SpadeNum};
use half_edge_links::FixedVertexHandle;

/// Tells a generator of a vertex that was appended, where it is to be told.
pub fn tell_inserted<S: SpadeNum, L: HintGenerator<S>, P: PlaneTests<S>>(
    generator: &mut L,
    is_told: bool,
    vertex: FixedVertexHandle,
    position: Point2<S>,
    tests: &P,
)
    requires held { IsAtMost (P.sites tests.now) (L.holds generator.old) }
    requires site { P.sites tests.now (place_of S.whole position) }
    ensures { IsAtMostWith (L.holds generator.old) (L.holds generator.new)
        (place_of S.whole position) }
{
    if is_told {
        generator.notify_vertex_inserted(vertex, position, tests);
    }
}
