//! The paths of constraints that segments became which cross others.
use crate::areas::{scalar_product, turned_area};
use delaunay_core::point::Point2;
use delaunay_interface::Triangulation;
use delaunay_legalization::ConstraintMarker;
use delaunay_location::{Intersection, LineIntersectionIterator};
use drawing_faces::{Lead, VertexPair};
use exact_predicates::ExactTests;
use half_edge_links::FixedVertexHandle;
use std::alloc::{AllocError, Global};

/// That a segment between two vertices goes by a third, by the number of its split.
#[derive(Clone, Copy, PartialEq, Eq, PartialOrd, Ord)]
pub struct Turn {
    from: u32,
    to: u32,
    split: usize,
    by: u32,
}

/// Adds the turns of a segment in both directions.
fn add_turns(
    turns: &mut Vec<Turn>,
    ends: VertexPair,
    by: FixedVertexHandle,
    split: usize,
) -> Result<(), AllocError> {
    let (from, to, by) = (ends.0.index(), ends.1.index(), by.index());
    if by == from || by == to {
        return Ok(());
    }
    for (from, to) in [(from, to), (to, from)] {
        turns.push(Turn {
            from,
            to,
            split,
            by,
        })?;
    }
    Ok(())
}

/// All turns of segments that were led, in order.
pub fn turns_of(leads: &[Lead], alloc: Global) -> Result<Vec<Turn>, AllocError> {
    let mut turns = Vec::new(alloc);
    for (split, lead) in leads.iter().enumerate() {
        add_turns(&mut turns, lead.ends, lead.by, split)?;
        if let Some(ends) = lead.crossed {
            add_turns(&mut turns, ends, lead.by, split)?;
        }
    }
    turns.sort()?;
    Ok(turns)
}

/// The vertex by which a segment goes since it was split last.
fn last_turn(turns: &[Turn], from: u32, to: u32) -> Option<u32> {
    let behind = Turn {
        from,
        to,
        split: usize::MAX,
        by: u32::MAX,
    };
    let index = match turns.binary_search(&behind) {
        Ok(index) | Err(index) => index,
    };
    let turn = turns.get(index.checked_sub(1)?)?;
    if turn.from == from && turn.to == to {
        Some(turn.by)
    } else {
        None
    }
}

/// A vertex on a straight way, and whether a constraint leads to it from the one before.
#[derive(Clone, Copy)]
struct Passed {
    vertex: u32,
    is_joined: bool,
}

/// The vertices on the straight way from one vertex to another, from the first to the last.
fn passed_between<T: Triangulation<Vertex = Point2<i32>>>(
    triangulation: &T,
    from: u32,
    to: u32,
    alloc: Global,
) -> Result<Vec<Passed>, AllocError> {
    triangulation.recall_invariant();
    let mut passed = Vec::new(alloc);
    let count = triangulation.num_vertices();
    if from as usize >= count || to as usize >= count {
        return Ok(passed);
    }
    let (from, to) = (
        FixedVertexHandle::from_index(from),
        FixedVertexHandle::from_index(to),
    );
    let mut is_joined = false;
    for met in LineIntersectionIterator::new_from_handles(triangulation, from, to, &ExactTests) {
        match met {
            Intersection::EdgeOverlap(edge) => {
                is_joined = T::Constraints::is_constraint_edge(edge.as_undirected().data());
            }
            Intersection::EdgeIntersection(_) => is_joined = false,
            Intersection::VertexIntersection(vertex) => {
                let vertex = vertex.fix().index();
                passed.push(Passed { vertex, is_joined })?;
                is_joined = false;
            }
        }
    }
    Ok(passed)
}

/// Whether constraints join each vertex to the one before.
fn are_joined(passed: &[Passed]) -> bool {
    let behind = passed.get(1..).unwrap_or(&[]);
    !behind.is_empty() && behind.iter().all(|one| one.is_joined)
}

/// Adds the parts of a segment between the vertices on it to those that are to be followed, the
/// first of them last.
fn add_parts(passed: &[Passed], due: &mut Vec<[u32; 2]>) -> Result<(), AllocError> {
    for i in (1..passed.len()).rev() {
        if let (Some(one), Some(next)) = (passed.get(i.saturating_sub(1)), passed.get(i)) {
            due.push([one.vertex, next.vertex])?;
        }
    }
    Ok(())
}

/// Follows a segment: what constraints join goes to the path, and its parts are to be followed
/// where it was split. It goes to the path straight where no constraints are known.
fn follow<T: Triangulation<Vertex = Point2<i32>>>(
    triangulation: &T,
    turns: &[Turn],
    [from, to]: [u32; 2],
    path: &mut Vec<u32>,
    due: &mut Vec<[u32; 2]>,
    alloc: Global,
) -> Result<(), AllocError> {
    let passed = passed_between(triangulation, from, to, alloc)?;
    if are_joined(passed.as_slice()) {
        for one in passed.iter().skip(1) {
            path.push(one.vertex)?;
        }
    } else if let Some(by) = last_turn(turns, from, to) {
        due.push([by, to])?;
        due.push([from, by])?;
    } else if passed.len() > 2 {
        add_parts(passed.as_slice(), due)?;
    } else {
        path.push(to)?;
    }
    Ok(())
}

/// The path of constraints that a segment between two vertices became, by its vertices.
pub fn path_between<T: Triangulation<Vertex = Point2<i32>>>(
    triangulation: &T,
    turns: &[Turn],
    ends: [u32; 2],
    alloc: Global,
) -> Result<Vec<u32>, AllocError> {
    let [from, _] = ends;
    let mut path = Vec::new(alloc);
    let mut due = Vec::new(alloc);
    path.push(from)?;
    due.push(ends)?;
    // each turn leads to two parts, and each part to a path
    for _ in 0..turns.len().saturating_mul(4).saturating_add(1 << 20) {
        let Some(part) = due.pop() else {
            break;
        };
        follow(triangulation, turns, part, &mut path, &mut due, alloc)?;
    }
    Ok(path)
}

/// A quotient of whole numbers, and then its root, each rounded up.
fn root_of_quotient(number: u128, by: u128) -> u128 {
    if by == 0 {
        return 0;
    }
    let quotient = number.div_ceil(by);
    let root = quotient.isqrt();
    if root.saturating_mul(root) < quotient {
        root.saturating_add(1)
    } else {
        root
    }
}

/// How far a point is from a segment, in thousandths of a unit, rounded up.
pub fn thousandths_from(from: Point2<i32>, to: Point2<i32>, point: Point2<i32>) -> u64 {
    let whole = scalar_product(from, to, to);
    let part = scalar_product(from, to, point);
    let (square, by) = if part <= 0 {
        (
            u128::from(scalar_product(from, point, point).unsigned_abs()),
            1,
        )
    } else if part >= whole {
        (
            u128::from(scalar_product(to, point, point).unsigned_abs()),
            1,
        )
    } else {
        let off = u128::from(turned_area(from, to, point).unsigned_abs());
        (off.saturating_mul(off), u128::from(whole.unsigned_abs()))
    };
    let root = root_of_quotient(square.saturating_mul(1_000_000), by);
    u64::try_from(root).unwrap_or(u64::MAX)
}
