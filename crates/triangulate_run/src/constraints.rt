//! Constraints that are added and released.
ghost use Rattle.std.specs.Prelude.{◌≡◌, ◌<◌, false, length, All};
ghost use Rattle.delaunay_edit.specs.{constraint_edges, none};
ghost use Rattle.triangulate_run.specs.{Answer.MayJoin, Answer.MayRelease, Watched.has_failed};
ghost use Rattle.triangulate_run.specs.Engine.{ends_in, HasSites, stage_by};
ghost use Rattle.triangulate_run.specs.{Output.Puts, Output.PutsSome, Reply.path_text};

use crate::engine::{Constrained, Plain};
use crate::line::put_ends;
use crate::output::Fragment::Text;
use crate::output::{Held, Written, put_fragments};
use crate::reply::{Reply, put_reply};
use crate::watched::Watched;
use delaunay_core::HintGenerator;
use delaunay_core::math::{InsertionError, PlaneTests};
use delaunay_interface::Triangulation;
use half_edge_links::{FixedDirectedEdgeHandle, FixedVertexHandle};
use std::io::Write;

/// Adds the path between two vertices, and puts its edges behind what is held.
pub(crate) fn constrain<L: HintGenerator<i64>, P: PlaneTests<i64>, W: Write>(
    triangulation: &mut Constrained<L>,
    tests: &P,
    from: FixedVertexHandle,
    to: FixedVertexHandle,
    writer: &mut Watched<W>,
    held: &mut Held,
) -> Written
    requires from_in { from < length triangulation.old.vertices }
    requires to_in { to < length triangulation.old.vertices }
    requires sites { HasSites (P.sites tests.now) (stage_by constraint_edges triangulation.old) }
    requires works { has_failed writer.old ≡ false }
    ensures sites { HasSites (P.sites tests.now) (stage_by constraint_edges triangulation.new) }
    ensures answered { PutsSome W.contents writer.old writer.new held.old.items held.new.items
        result (λ text. MayJoin (stage_by constraint_edges triangulation.old) from to text
        (stage_by constraint_edges triangulation.new)) }
{
    match triangulation.try_add_constraint(from, to, tests) {
        Ok(edges) => {
            if edges.is_empty() {
                return put_reply(writer, held, &Reply::NoPath);
            }
            triangulation.recall_invariant();
            put_path(triangulation, edges.as_slice(), writer, held)
        }
        Err(_) => put_reply(writer, held, &Reply::Refused(InsertionError::OutOfMemory)),
    }
}

/// Puts the edges of a path.
fn put_path<L: HintGenerator<i64>, W: Write>(
    triangulation: &Constrained<L>,
    path: &[FixedDirectedEdgeHandle],
    writer: &mut Watched<W>,
    held: &mut Held,
) -> Written
    requires within { All (λ h. h < length triangulation.now.directed) path.now }
    requires works { has_failed writer.old ≡ false }
    ensures { Puts W.contents writer.old writer.new held.old.items held.new.items result
        (path_text (ends_in triangulation.now.mesh path.now)) }
{
    put_fragments(writer, held, &[Text("edges")])?;
    for edge in path {
        let edge = triangulation.directed_edge(*edge);
        put_ends(writer, held, "", " ", "-", edge)?;
    }
    put_fragments(writer, held, &[Text("\n")])
}

/// Releases the constraint between two vertices.
pub(crate) fn release<L: HintGenerator<i64>, P: PlaneTests<i64>>(
    triangulation: &mut Constrained<L>,
    tests: &P,
    from: FixedVertexHandle,
    to: FixedVertexHandle,
) -> Reply
    requires from_in { from < length triangulation.old.vertices }
    requires to_in { to < length triangulation.old.vertices }
    requires sites { HasSites (P.sites tests.now) (stage_by constraint_edges triangulation.old) }
    ensures sites { HasSites (P.sites tests.now) (stage_by constraint_edges triangulation.new) }
    ensures reply { MayRelease (stage_by constraint_edges triangulation.old) from to result
        (stage_by constraint_edges triangulation.new) }
{
    triangulation.recall_invariant();
    let Some(edge) = triangulation.get_edge_from_neighbors(from, to) else {
        return Reply::NoEdge;
    };
    let edge = edge.fix().as_undirected();
    match triangulation.remove_constraint_edge(edge, tests) {
        Ok(true) => Reply::Released,
        Ok(false) => Reply::NotConstrained,
        Err(_) => Reply::Refused(InsertionError::OutOfMemory),
    }
}

/// The same without constraints.
pub(crate) fn release_free<L: HintGenerator<i64>>(
    triangulation: &Plain<L>,
    from: FixedVertexHandle,
    to: FixedVertexHandle,
) -> Reply
    requires from_in { from < length triangulation.now.vertices }
    requires to_in { to < length triangulation.now.vertices }
    ensures { let s = stage_by none triangulation.now in MayRelease s from to result s }
{
    triangulation.recall_invariant();
    match triangulation.get_edge_from_neighbors(from, to) {
        Some(_) => Reply::NotConstrained,
        None => Reply::NoEdge,
    }
}
