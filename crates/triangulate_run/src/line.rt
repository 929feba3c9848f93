//! What the way from one point to another meets.
ghost use Rattle.std.specs.Prelude.{◌≡◌, ◌++◌, List, false};
ghost use Rattle.std.specs.List.{flat_map};
ghost use Rattle.{half_edge_links.specs.origin, half_edge_links.specs.rev, plane.specs.Item};
ghost use Rattle.delaunay_legalization.specs.{triangulation_of};
ghost use Rattle.delaunay_location.specs.{AreLeft, IsReady, item_in};
ghost use Rattle.triangulate_run.specs.{Answer.MayWalk, Output.Puts, Output.PutsSome};
ghost use Rattle.triangulate_run.specs.{Engine.IsStageReady, Engine.stage_by, Watched.has_failed};
ghost use Rattle.triangulate_run.specs.Reply.{edge_text, item_text, next_text};
ghost use Rattle.triangulate_run.specs.Stage.{position};

use crate::output::Fragment::{Index, Text};
use crate::output::{Held, Written, put_fragments};
use crate::points::{SheetPoint, index_of};
use crate::reply::{Reply, put_reply};
use crate::watched::Watched;
use delaunay_core::HintGenerator;
use delaunay_core::math::PlaneTests;
use delaunay_core::point::Point2;
use delaunay_edit::EdgeData;
use delaunay_interface::TriangulationCore;
use delaunay_location::{Intersection, LineIntersectionIterator};
use half_edge_dcel::DirectedEdgeHandle;
use std::io::Write;

/// Puts what the way from one point of the list to another meets, in order, behind what is held.
pub(crate) fn put_line<L: HintGenerator<i64>, UE, M: EdgeData<UE>, P: PlaneTests<i64>, W: Write>(
    triangulation: &TriangulationCore<Point2<i64>, (), UE, (), L, M>,
    tests: &P,
    points: &[SheetPoint],
    from: Point2<i64>,
    to: Point2<i64>,
    writer: &mut Watched<W>,
    held: &mut Held,
) -> Written
    requires ready { IsStageReady (P.covered tests.now) (P.sites tests.now) points.now
        (stage_by M.constraints triangulation.now) }
    requires works { has_failed writer.old ≡ false }
    ensures { PutsSome W.contents writer.old writer.new held.old.items held.new.items result
        (MayWalk points.now (triangulation_of position triangulation.now) (position from)
        (position to)) }
{
    if index_of(points, from).is_none() || index_of(points, to).is_none() {
        return put_reply(writer, held, &Reply::UnknownPoint);
    }
    let mut line = LineIntersectionIterator::new(triangulation, from, to, tests);
    let Some(first) = line.next() else {
        return put_fragments(writer, held, &[Text("nothing\n")]);
    };
    put_item(writer, held, "", &first)?;
    put_items(writer, held, &mut line)?;
    put_fragments(writer, held, &[Text("\n")])
}

/// Puts the items of a line, with a space before each.
fn put_items<DE, UE, F, P: PlaneTests<i64>, W: Write>(
    writer: &mut Watched<W>,
    held: &mut Held,
    line: &mut LineIntersectionIterator<'_, Point2<i64>, DE, UE, F, P>,
) -> Written
    requires ready { IsReady position (λ z. z) P.sites P.covered line.old }
    requires works { has_failed writer.old ≡ false }
    ensures { (items : List Item) → AreLeft position (λ z. z) line.old items
        → Puts W.contents writer.old writer.new held.old.items held.new.items result
        (flat_map next_text items) }
{
    while let Some(item) = line.next() {
        put_item(writer, held, " ", &item)?;
    }
    Ok(())
}

/// Puts a text, and behind it an item.
fn put_item<DE, UE, F, W: Write>(
    writer: &mut Watched<W>,
    held: &mut Held,
    before: &str,
    item: &Intersection<'_, Point2<i64>, DE, UE, F>,
) -> Written
    requires works { has_failed writer.old ≡ false }
    ensures { Puts W.contents writer.old writer.new held.old.items held.new.items result
        (before.now ++ item_text (item_in item.now)) }
{
    match item {
        Intersection::VertexIntersection(vertex) => {
            let met = [Text(before), Text("v "), Index(u64::from(vertex.index()))];
            put_fragments(writer, held, &met)
        }
        Intersection::EdgeIntersection(edge) => put_ends(writer, held, before, "e ", ">", *edge),
        Intersection::EdgeOverlap(edge) => put_ends(writer, held, before, "o ", ">", *edge),
    }
}

/// Puts two texts, and behind them the ends of an edge in its direction, with a text between them.
pub(crate) fn put_ends<'x, DE, UE, F, W: Write>(
    writer: &mut Watched<W>,
    held: &mut Held,
    before: &'x str,
    name: &'x str,
    between: &'x str,
    edge: DirectedEdgeHandle<'_, Point2<i64>, DE, UE, F>,
) -> Written
    requires works { has_failed writer.old ≡ false }
    ensures { let m = edge.entry.dcel.now.mesh in
        Puts W.contents writer.old writer.new held.old.items held.new.items result
        (before.now ++ edge_text name.now between.now (origin m edge.entry.index)
        (origin m (rev edge.entry.index))) }
{
    let (i, j) = (u64::from(edge.from().index()), u64::from(edge.to().index()));
    let text = [Text(before), Text(name), Index(i), Text(between), Index(j)];
    put_fragments(writer, held, &text)
}
