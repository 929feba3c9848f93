//! One edit.
ghost use Rattle.std.specs.Prelude.{◌≡◌, ◌↔◌, map, IsTrue};
ghost use Rattle.plane.specs.{InRange};
ghost use Rattle.{delaunay_core.specs.place_of, delaunay_journal.specs.Journal.Gives};
ghost use Rattle.delaunay_edit.specs.{AreSites, IsDelaunay};
ghost use Rattle.delaunay_journal.specs.declared.edit.Edit.TheVariants.{Insert, Remove, Replace};

use crate::{Edit, Outcome, PairEdit, Refusal, Replayable};
use delaunay_core::math::PlaneTests;
use delaunay_core::point::{HasPosition, Point2, SpadeNum};
use delaunay_interface::Triangulation;
use half_edge_links::FixedVertexHandle;

// Whether two points are one.
fn is_same<S: SpadeNum>(first: Point2<S>, second: Point2<S>) -> bool
    ensures { IsTrue result ↔ (place_of S.whole first ≡ place_of S.whole second) }
{
    first.x.to_i64() == second.x.to_i64() && first.y.to_i64() == second.y.to_i64()
}

fn insert<T: Replayable, P: PlaneTests<<T::Vertex as HasPosition>::Scalar>>(
    points: &mut T,
    value: T::Vertex,
    tests: &P,
) -> Outcome<T::Vertex>
    requires sites { AreSites T.Vertex.place (P.sites tests.now) (T.state points.old).vertices }
    requires new_site { InRange (T.Vertex.place value) → P.sites tests.now (T.Vertex.place value) }
    ensures gives { Gives T.Vertex.place T.Constraints.constraints T.marking (Insert value) result
        (T.state points.old) (T.state points.new) }
    ensures sites { AreSites T.Vertex.place (P.sites tests.now) (T.state points.new).vertices }
    ensures headline { IsDelaunay T.Vertex.place T.Constraints.constraints (T.state points.new) }
{
    match points.insert(value, tests) {
        Ok(vertex) => Outcome::Inserted(vertex),
        Err(error) => Outcome::Refused(Refusal::Insertion(error)),
    }
}

fn remove<T: Replayable, P: PlaneTests<<T::Vertex as HasPosition>::Scalar>>(
    points: &mut T,
    vertex: FixedVertexHandle,
    tests: &P,
) -> Outcome<T::Vertex>
    requires sites { AreSites T.Vertex.place (P.sites tests.now) (T.state points.old).vertices }
    ensures gives { Gives T.Vertex.place T.Constraints.constraints T.marking (Remove vertex) result
        (T.state points.old) (T.state points.new) }
    ensures sites { AreSites T.Vertex.place (P.sites tests.now) (T.state points.new).vertices }
    ensures headline { IsDelaunay T.Vertex.place T.Constraints.constraints (T.state points.new) }
{
    points.recall_invariant();
    if vertex.index() as usize >= points.num_vertices() {
        return Outcome::Refused(Refusal::NoVertex);
    }
    match points.remove(vertex, tests) {
        Ok(value) => Outcome::Removed(value),
        Err(_) => Outcome::Refused(Refusal::OutOfMemory),
    }
}

fn replace<T: Replayable>(
    points: &mut T,
    vertex: FixedVertexHandle,
    value: T::Vertex,
) -> Outcome<T::Vertex>
    ensures gives { Gives T.Vertex.place T.Constraints.constraints T.marking (Replace vertex value)
        result (T.state points.old) (T.state points.new) }
    ensures places { map T.Vertex.place (T.state points.new).vertices ≡
        map T.Vertex.place (T.state points.old).vertices }
    ensures headline { IsDelaunay T.Vertex.place T.Constraints.constraints (T.state points.new) }
{
    points.recall_invariant();
    if vertex.index() as usize >= points.num_vertices() {
        return Outcome::Refused(Refusal::NoVertex);
    }
    let here = points.vertex_position(points.vertex(vertex));
    if !is_same(here, value.position()) {
        return Outcome::Refused(Refusal::OtherPosition);
    }
    Outcome::Replaced(points.replace_vertex(vertex, value))
}

/// Makes an edit, or tells why it is refused, and changes nothing then. Whether it may be made is
/// looked at on the way, so nothing is to be asked before.
///
/// ```
/// match make_edit(&mut site, Edit::AddConstraint(from, to), &ExactTests) {
///     Outcome::Added(_) => println!(rt; "a constraint")?,
///     Outcome::Refused(why) => println!(rt; "no constraint: {why:?}")?,
///     _ => println!(rt; "another edit")?,
/// }
/// ```
pub fn make_edit<T: Replayable, P: PlaneTests<<T::Vertex as HasPosition>::Scalar>>(
    points: &mut T,
    edit: Edit<T::Vertex>,
    tests: &P,
) -> Outcome<T::Vertex>
    requires sites { AreSites T.Vertex.place (P.sites tests.now) (T.state points.old).vertices }
    requires new_site { (v : T.Vertex) → edit ≡ Insert v → InRange (T.Vertex.place v) →
        P.sites tests.now (T.Vertex.place v) }
    ensures gives { Gives T.Vertex.place T.Constraints.constraints T.marking edit result
        (T.state points.old) (T.state points.new) }
    ensures sites { AreSites T.Vertex.place (P.sites tests.now) (T.state points.new).vertices }
    ensures headline { IsDelaunay T.Vertex.place T.Constraints.constraints (T.state points.new) }
{
    match edit {
        Edit::Insert(value) => insert(points, value, tests),
        Edit::Remove(vertex) => remove(points, vertex, tests),
        Edit::Replace(vertex, value) => replace(points, vertex, value),
        Edit::Clear => {
            points.clear();
            Outcome::Cleared
        }
        Edit::AddConstraint(from, to) => points.change_pair(PairEdit::Join(from, to), tests),
        Edit::ReleaseConstraint(from, to) => points.change_pair(PairEdit::Release(from, to), tests),
    }
}
