//! Edits as values, and what they give.

use delaunay_core::math::InsertionError;
use half_edge_links::FixedVertexHandle;

/// An edit of a triangulation. Its handles are those of the state that it is made on. A
/// triangulation without constraints refuses the last two.
#[derive(Debug, Drop)]
pub enum Edit<V> {
    /// Inserts a vertex.
    Insert(V),
    /// Removes a vertex.
    Remove(FixedVertexHandle),
    /// Exchanges a vertex for one of the same position.
    Replace(FixedVertexHandle, V),
    /// Removes each vertex.
    Clear,
    /// Joins two vertices by constraints.
    AddConstraint(FixedVertexHandle, FixedVertexHandle),
    /// Takes from the edge between two vertices that it is a constraint.
    ReleaseConstraint(FixedVertexHandle, FixedVertexHandle),
}

/// An edit of the constraints between two vertices.
#[derive(Debug, Drop)]
pub enum PairEdit {
    /// Joins them by constraints.
    Join(FixedVertexHandle, FixedVertexHandle),
    /// Takes from the edge between them that it is a constraint.
    Release(FixedVertexHandle, FixedVertexHandle),
}

/// Why an edit was not made. It changed nothing then.
#[derive(Clone, Copy, Debug, PartialEq, Eq, Drop)]
pub enum Refusal {
    /// The vertex was not inserted, for want of memory too.
    Insertion(InsertionError),
    /// There is no vertex with that handle. A release gives `NotConstrained` then.
    NoVertex,
    /// The vertex that is to be replaced is elsewhere.
    OtherPosition,
    /// The triangulation is of the type without constraints.
    NoConstraints,
    /// A constraint crosses the segment.
    Conflict,
    /// No constraint joins the two vertices, of which one may not be there.
    NotConstrained,
    /// Memory was refused to an edit that is no insertion.
    OutOfMemory,
}

/// What an edit gave.
#[derive(Debug, Drop)]
pub enum Outcome<V> {
    /// The handle of the vertex that was inserted.
    Inserted(FixedVertexHandle),
    /// The vertex that was removed.
    Removed(V),
    /// The vertex that was there before.
    Replaced(V),
    /// Nothing is left.
    Cleared,
    /// Whether an edge that was none became a constraint.
    Added(bool),
    /// The edge is no constraint now.
    Released,
    /// Nothing was changed.
    Refused(Refusal),
}
