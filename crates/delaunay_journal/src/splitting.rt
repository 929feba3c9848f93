//! Segments that become constraints, and split those that they cross.
ghost use Rattle.std.specs.Prelude.{◌≡◌, ◌≢◌, ◌+◌, ◌≤◌, ◌++◌, [], ◌∷◌, ℕ, List};
ghost use Rattle.std.specs.Prelude.{vec_capacity, vec_len, IfOk, IsErrOf, MatchOption, OnErr, OnOk};
ghost use Rattle.delaunay_legalization.specs.{points_and_constraints_by};
ghost use Rattle.{delaunay_edit.specs.IsDelaunay, plane.specs.InRange, plane.specs.Point};
ghost use Rattle.delaunay_journal.specs.Splits.{Frees, LeadsBy, Splits};
ghost use Rattle.delaunay_journal.specs.declared.error.SplitError.TheVariants.{TooManySteps};

use crate::crossing::crossing;
use crate::{Outcome, PairEdit, Refusal, Replayable, SplitError};
use delaunay_core::math::{PlaneTests, validate_vertex};
use delaunay_core::point::{HasPosition, Point2, SpadeNum};
use delaunay_interface::Triangulation;
use delaunay_legalization::Embedding;
use delaunay_location::ConflictingEdgesIterator;
use half_edge_links::FixedVertexHandle;

/// The vertices at the ends of a segment.
pub type Ends = (FixedVertexHandle, FixedVertexHandle);

// The position of a vertex, if there is one with this handle.
fn position_of<T: Triangulation>(site: &T, vertex: FixedVertexHandle) -> Option<Point2<i64>> {
    let position = site.get_vertex(vertex)?.data().position();
    Some(Point2::new(position.x.to_i64(), position.y.to_i64()))
}

// The last segment of a list.
fn last_of(segments: &[Ends]) -> Option<Ends>
    ensures { MatchOption result (segments.now ≡ [])
        (λ s. (rest : List (ℕ × ℕ)) × (segments.now ≡ rest ++ s ∷ [])) }
{
    segments.last().copied()
}

// The first constraint that a segment crosses.
fn first_crossed<T: Triangulation, P: PlaneTests<<T::Vertex as HasPosition>::Scalar>>(
    site: &T,
    segment: Ends,
    tests: &P,
) -> Option<Ends>
    requires sites { (p : Point) → InRange p → P.sites tests.now p }
{
    let (from, to) = segment;
    let count = site.num_vertices();
    if from.index() as usize >= count || to.index() as usize >= count {
        return None;
    }
    let dcel = site.s();
    let embedding = Embedding { dcel, tests };
    let mut crossed = ConflictingEdgesIterator::<T::Constraints, _, _, _, _, _>::between_vertices(
        &embedding, from, to,
    );
    let edge = crossed.next()?;
    Some((edge.from().fix(), edge.to().fix()))
}

// The whole-number point nearest to where two segments between vertices cross.
fn crossing_of<T: Triangulation>(site: &T, segment: &Ends, crossed: &Ends) -> Option<Point2<i64>> {
    crossing(
        position_of(site, segment.0)?,
        position_of(site, segment.1)?,
        position_of(site, crossed.0)?,
        position_of(site, crossed.1)?,
    )
}

// The vertex at a position: the one that is there, or a new one that is made for it.
fn vertex_at<
    T: Triangulation,
    P: PlaneTests<<T::Vertex as HasPosition>::Scalar>,
    C: Fn(Point2<i64>) -> T::Vertex,
>(
    site: &mut T,
    position: Point2<i64>,
    tests: &P,
    make_vertex: &C,
) -> Result<FixedVertexHandle, Refusal>
    requires callable { C.IsAlwaysCallable make_vertex.now }
    requires sites { (p : Point) → InRange p → P.sites tests.now p }
    ensures splits { (segments : List (ℕ × ℕ)) →
        Splits (λ v. (p : _) × C.post make_vertex.now p v)
        (points_and_constraints_by T.Constraints.constraints (T.state site.old))
        (points_and_constraints_by T.Constraints.constraints (T.state site.new))
        segments segments }
    ensures headline { IsDelaunay T.Vertex.place T.Constraints.constraints (T.state site.new) }
{
    site.recall_invariant();
    let vertex = make_vertex(position);
    if let Err(error) = validate_vertex(&vertex) {
        return Err(Refusal::Insertion(error));
    }
    if let Some(there) = site.locate_vertex(vertex.position(), tests) {
        return Ok(there.fix());
    }
    match site.insert(vertex, tests) {
        Ok(vertex) => Ok(vertex),
        Err(error) => Err(Refusal::Insertion(error)),
    }
}

// Takes out a constraint that is to go by a vertex, and tells it, unless it ends there or was split
// by the vertex.
fn release<T: Replayable, P: PlaneTests<<T::Vertex as HasPosition>::Scalar>>(
    site: &mut T,
    crossed: Ends,
    vertex: FixedVertexHandle,
    tests: &P,
) -> Result<Option<Ends>, Refusal>
    requires sites { (p : Point) → InRange p → P.sites tests.now p }
    ensures frees { IfOk result (λ freed. Frees T.Vertex.place freed
        (points_and_constraints_by T.Constraints.constraints (T.state site.old))
        (points_and_constraints_by T.Constraints.constraints (T.state site.new))) }
    ensures err { OnErr result (T.state site.new ≡ T.state site.old) }
    ensures headline { IsDelaunay T.Vertex.place T.Constraints.constraints (T.state site.new) }
{
    site.recall_invariant();
    let (start, end) = crossed;
    if vertex == start || vertex == end {
        return Ok(None);
    }
    match site.change_pair(PairEdit::Release(start, end), tests) {
        Outcome::Released => Ok(Some((start, end))),
        Outcome::Refused(Refusal::NotConstrained) => Ok(None),
        Outcome::Refused(refusal) => Err(refusal),
        _ => unreachable!(),
    }
}

// Leads the last segment by a vertex, and a constraint that it crosses, if that was released.
fn lead_by(segments: &mut Vec<Ends>, vertex: FixedVertexHandle, released: Option<Ends>)
    requires room { vec_len segments.old + 3 ≤ vec_capacity segments.old }
    ensures { LeadsBy vertex released segments.old.items segments.new.items }
{
    let Some((from, to)) = segments.pop() else {
        return;
    };
    if let Some((start, end)) = released {
        segments.push_reserved((start, vertex));
        segments.push_reserved((vertex, end));
    }
    segments.push_reserved((vertex, to));
    segments.push_reserved((from, vertex));
}

// Leads the last segment, which is crossed, and the first constraint that crosses it by the
// whole-number point nearest to the crossing.
fn split<
    T: Replayable,
    P: PlaneTests<<T::Vertex as HasPosition>::Scalar>,
    C: Fn(Point2<i64>) -> T::Vertex,
>(
    site: &mut T,
    segments: &mut Vec<Ends>,
    segment: Ends,
    tests: &P,
    make_vertex: &C,
) -> Result<(), Refusal>
    requires callable { C.IsAlwaysCallable make_vertex.now }
    requires sites { (p : Point) → InRange p → P.sites tests.now p }
    requires last { (rest : List (ℕ × ℕ)) × (segments.old.items ≡ rest ++ segment ∷ []) }
    ensures splits { Splits (λ v. (p : _) × C.post make_vertex.now p v)
        (points_and_constraints_by T.Constraints.constraints (T.state site.old))
        (points_and_constraints_by T.Constraints.constraints (T.state site.new))
        segments.old.items segments.new.items }
    ensures headline { IsDelaunay T.Vertex.place T.Constraints.constraints (T.state site.new) }
{
    site.recall_invariant();
    if segments.reserve(3).is_err() {
        return Err(Refusal::OutOfMemory);
    }
    let Some((start, end)) = first_crossed(site, segment, tests) else {
        return Err(Refusal::Conflict);
    };
    let Some(position) = crossing_of(site, &segment, &(start, end)) else {
        return Err(Refusal::Conflict);
    };
    let vertex = vertex_at(site, position, tests, make_vertex)?;
    let released = release(site, (start, end), vertex, tests)?;
    lead_by(segments, vertex, released);
    Ok(())
}

// Makes constraints of the last segment, or splits it.
fn join_or_split<
    T: Replayable,
    P: PlaneTests<<T::Vertex as HasPosition>::Scalar>,
    C: Fn(Point2<i64>) -> T::Vertex,
>(
    site: &mut T,
    segments: &mut Vec<Ends>,
    segment: Ends,
    tests: &P,
    make_vertex: &C,
) -> Result<(), Refusal>
    requires callable { C.IsAlwaysCallable make_vertex.now }
    requires sites { (p : Point) → InRange p → P.sites tests.now p }
    requires last { (rest : List (ℕ × ℕ)) × (segments.old.items ≡ rest ++ segment ∷ []) }
    ensures splits { Splits (λ v. (p : _) × C.post make_vertex.now p v)
        (points_and_constraints_by T.Constraints.constraints (T.state site.old))
        (points_and_constraints_by T.Constraints.constraints (T.state site.new))
        segments.old.items segments.new.items }
    ensures headline { IsDelaunay T.Vertex.place T.Constraints.constraints (T.state site.new) }
{
    site.recall_invariant();
    match site.change_pair(PairEdit::Join(segment.0, segment.1), tests) {
        Outcome::Added(_) => {
            segments.pop();
            Ok(())
        }
        Outcome::Refused(Refusal::Conflict) => split(site, segments, segment, tests, make_vertex),
        Outcome::Refused(refusal) => Err(refusal),
        _ => unreachable!(),
    }
}

/// Makes constraints of the segments between vertices of a list, the last one first, and takes them
/// out of it. Where a segment crosses a constraint, both go by the whole-number point nearest to
/// the crossing: the vertex that is there, or one that `make_vertex` makes for it, with that
/// position. The crossed constraint is taken out and, like the parts of the segment, joined anew,
/// which may lead to further crossings and splits: at most `steps` joins and splits are made.
///
/// What a path of constraints and segments of the list connected is connected after it. So where
/// the list is empty afterwards, a path of constraints joins the ends of each segment and of each
/// constraint that was there before. All vertices keep their handles; the new ones come behind
/// them.
///
/// It gives `TooManySteps` where segments are left in the list after so many steps. It gives
/// `Refused` where a step was refused: `NoVertex` where a segment ends at no vertex,
/// `NoConstraints` of a triangulation of the type without constraints, `Insertion` where the vertex
/// at a crossing was refused, and `OutOfMemory`. The steps before it stand then, the segments that
/// are still to be joined are in the list, and the call may be made again.
///
/// ```
/// let mut segments = Vec::new(rt.alloc());
/// segments.push((first, second))?;
/// segments.push((third, fourth))?;
/// let make_vertex = |position| position;
/// add_constraints_and_split(&mut site, &mut segments, 1000, &ExactTests, &make_vertex)?;
/// ```
pub fn add_constraints_and_split<
    T: Replayable,
    P: PlaneTests<<T::Vertex as HasPosition>::Scalar>,
    C: Fn(Point2<i64>) -> T::Vertex,
>(
    site: &mut T,
    segments: &mut Vec<Ends>,
    steps: usize,
    tests: &P,
    make_vertex: &C,
) -> Result<(), SplitError>
    requires callable { C.IsAlwaysCallable make_vertex.now }
    requires sites { (p : Point) → InRange p → P.sites tests.now p }
    ensures splits { Splits (λ v. (p : _) × C.post make_vertex.now p v)
        (points_and_constraints_by T.Constraints.constraints (T.state site.old))
        (points_and_constraints_by T.Constraints.constraints (T.state site.new))
        segments.old.items segments.new.items }
    ensures all { OnOk result (segments.new.items ≡ []) }
    ensures steps { IsErrOf result TooManySteps → segments.new.items ≢ [] }
    ensures headline { IsDelaunay T.Vertex.place T.Constraints.constraints (T.state site.new) }
{
    site.recall_invariant();
    for _ in 0..steps {
        let Some(segment) = last_of(segments.as_slice()) else {
            return Ok(());
        };
        if let Err(refusal) = join_or_split(site, segments, segment, tests, make_vertex) {
            return Err(SplitError::Refused(refusal));
        }
    }
    if segments.is_empty() {
        Ok(())
    } else {
        Err(SplitError::TooManySteps)
    }
}
