//! Which of the four edges round a turned edge are left to test.
ghost use Rattle.std.specs.Prelude.{◌≡◌, ◌<◌, ◌≤◌, length};
ghost use Rattle.delaunay_legalization.specs.{Legal.AreEdges, Pushing.GainsAmong, Sides.GainsSides};

use crate::{EdgeSet, push_side};
use half_edge_dcel::{Dcel, MeshViews};
use half_edge_links::FixedDirectedEdgeHandle;

/// Which of them may fail then.
#[derive(Clone, Copy)]
pub enum Sides<'a> {
    /// Each.
    Round,
    /// Those that are listed here.
    Among(&'a EdgeSet),
}

// Puts an edge into a work list where it is among these edges, unless it is there.
fn push_among<V, DE, UE, F>(
    dcel: &Dcel<V, DE, UE, F>,
    edge: FixedDirectedEdgeHandle,
    among: &EdgeSet,
    work: &mut EdgeSet,
)
    requires within { edge < length dcel.now.directed }
    requires edges { AreEdges dcel.now.mesh work.old.items }
    requires room { length dcel.now.undirected ≤ work.old.room }
    ensures gains { GainsAmong among.now.items edge work.old.items work.new.items }
    ensures edges { AreEdges dcel.now.mesh work.new.items }
    ensures capacity { work.new.room ≡ work.old.room }
{
    if among.contains(edge.as_undirected()) {
        push_side(dcel, edge, work);
    }
}

/// Puts the edges round an edge that may fail once it is turned into a work list, unless they are
/// there. The list has room for each edge of the mesh.
pub fn push_sides<V, DE, UE, F>(
    dcel: &Dcel<V, DE, UE, F>,
    edge: FixedDirectedEdgeHandle,
    sides: &Sides,
    work: &mut EdgeSet,
)
    requires within { edge < length dcel.now.directed }
    requires edges { AreEdges dcel.now.mesh work.old.items }
    requires room { length dcel.now.undirected ≤ work.old.room }
    ensures gains { GainsSides sides.now dcel.now.mesh edge work.old.items work.new.items }
    ensures edges { AreEdges dcel.now.mesh work.new.items }
    ensures capacity { work.new.room ≡ work.old.room }
{
    let edge = dcel.directed_edge(edge);
    let twin = edge.rev();
    let next = edge.next().fix();
    let prev = edge.prev().fix();
    let twin_next = twin.next().fix();
    let twin_prev = twin.prev().fix();
    match *sides {
        Sides::Round => {
            push_side(dcel, next, work);
            push_side(dcel, prev, work);
            push_side(dcel, twin_next, work);
            push_side(dcel, twin_prev, work);
        }
        Sides::Among(among) => {
            push_among(dcel, next, among, work);
            push_among(dcel, prev, among, work);
            push_among(dcel, twin_next, among, work);
            push_among(dcel, twin_prev, among, work);
        }
    }
}
