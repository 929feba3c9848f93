//! Lists of edits, which are made on a triangulation one after another.

use crate::vertices::TaggedVertex;
use delaunay_core::point::Point2;
use delaunay_journal::{Edit, Outcome, Replayable, replay};
use exact_predicates::ExactTests;
use half_edge_links::FixedVertexHandle;
use std::alloc::AllocError;
use std::io;
use test_reader::{Call, index};

/// A list of edits.
pub type Edits = Vec<Edit<TaggedVertex>>;

fn vertex(number: i64) -> FixedVertexHandle {
    FixedVertexHandle::from_index(index(number))
}

fn value(x: i64, y: i64) -> TaggedVertex {
    TaggedVertex {
        position: Point2::new(x, y),
        tag: 0,
    }
}

/// The edit that a line names, by `list_` and its name: nothing where the name is that of none.
pub fn edit_of(call: &Call<'_>) -> Option<Edit<TaggedVertex>> {
    let [first, second, third, ..] = call.numbers;
    match call.name {
        "list_insert" => Some(Edit::Insert(value(first, second))),
        "list_remove" => Some(Edit::Remove(vertex(first))),
        "list_replace" => Some(Edit::Replace(vertex(first), value(second, third))),
        "list_clear" => Some(Edit::Clear),
        "list_add" => Some(Edit::AddConstraint(vertex(first), vertex(second))),
        "list_release" => Some(Edit::ReleaseConstraint(vertex(first), vertex(second))),
        _ => None,
    }
}

/// What each edit of a list gave.
pub type Outcomes = Result<Vec<Outcome<TaggedVertex>>, AllocError>;

/// Makes the edits of a list.
pub fn replay_all<T: Replayable<Vertex = TaggedVertex>>(points: &mut T, edits: Edits) -> Outcomes {
    replay(points, edits, &ExactTests)
}

/// Prints what each edit gave.
pub fn tell_outcomes(rt: &impl Print, call: &Call<'_>, outcomes: Outcomes) -> io::Result<()> {
    let Ok(outcomes) = outcomes else {
        return call.tell(rt, &outcomes);
    };
    call.tell(rt, &outcomes.len())?;
    for outcome in outcomes {
        println!(rt; "{outcome:?}")?;
    }
    Ok(())
}
