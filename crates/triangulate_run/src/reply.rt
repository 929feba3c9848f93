//! The replies of the program, and how they are written.
ghost use Rattle.std.specs.Prelude.{◌≡◌, ◌++◌, codes, false};
ghost use Rattle.std.specs.List.{flat_map};
ghost use Rattle.triangulate_run.specs.{declared.reply.Reply.TheVariants.Refused, Output.Puts};
ghost use Rattle.triangulate_run.specs.{Reply.corners_text, Reply.reply_text, Watched.has_failed};

use crate::corners::Corners;
use crate::output::Fragment::{Index, Signed, Text};
use crate::output::{Held, Written, put_fragments};
use crate::watched::Watched;
use delaunay_core::math::InsertionError;
use std::io::Write;

/// What the program answers to a line. Vertices stand by their indexes.
#[derive(Drop)]
pub enum Reply {
    /// The line is no command.
    BadLine,
    /// The point is not in the list, or, of a vertex to insert, is there and no site.
    UnknownPoint,
    /// An edit was refused, or the list of faces.
    Refused(InsertionError),
    /// The vertex that was inserted, or that is there.
    Vertex(u64),
    /// The edge that carries the point, the lesser index first.
    Edge(u64, u64),
    /// The face that has the point inside.
    Face(Corners),
    /// The point is outside of the hull.
    Outside,
    /// There is no vertex, or one elsewhere.
    NoTriangulation,
    /// The squared distance to the nearest vertex.
    Distance(i64),
    /// There is no vertex to be near.
    NoNeighbor,
    /// The vertex that went was here.
    Removed(i64, i64),
    /// No vertex has the index.
    NoVertex,
    /// The constraint is an edge like any other now.
    Released,
    /// The edge is no constraint.
    NotConstrained,
    /// No edge joins the vertices.
    NoEdge,
    /// Nothing is joined: a constraint is in the way, or the two vertices are one.
    NoPath,
    /// How many vertices, undirected edges, inner faces and constraints there are.
    Counts(u64, u64, u64, u64),
    /// All faces, sorted.
    Faces(Vec<Corners>),
}

/// Puts the reply behind what is held, each line of it with its newline.
pub(crate) fn put_reply<W: Write>(
    writer: &mut Watched<W>,
    held: &mut Held,
    reply: &Reply,
) -> Written
    requires works { has_failed writer.old ≡ false }
    ensures { Puts W.contents writer.old writer.new held.old.items held.new.items
        result (reply_text reply.now) }
{
    let (space, end) = (Text(" "), Text("\n"));
    match reply {
        Reply::BadLine => put_fragments(writer, held, &[Text("bad line\n")]),
        Reply::UnknownPoint => put_fragments(writer, held, &[Text("unknown point\n")]),
        Reply::Refused(error) => put_refusal(writer, held, *error),
        Reply::Vertex(i) => put_fragments(writer, held, &[Text("vertex "), Index(*i), end]),
        Reply::Edge(i, j) => {
            let line = [Text("edge "), Index(*i), Text("-"), Index(*j), end];
            put_fragments(writer, held, &line)
        }
        Reply::Face(corners) => put_face(writer, held, "face ", *corners),
        Reply::Outside => put_fragments(writer, held, &[Text("outside\n")]),
        Reply::NoTriangulation => put_fragments(writer, held, &[Text("no triangulation\n")]),
        Reply::Distance(d) => put_fragments(writer, held, &[Text("distance "), Signed(*d), end]),
        Reply::NoNeighbor => put_fragments(writer, held, &[Text("none\n")]),
        Reply::Removed(x, y) => {
            let line = [Text("removed "), Signed(*x), space, Signed(*y), end];
            put_fragments(writer, held, &line)
        }
        Reply::NoVertex => put_fragments(writer, held, &[Text("no vertex\n")]),
        Reply::Released => put_fragments(writer, held, &[Text("released\n")]),
        Reply::NotConstrained => put_fragments(writer, held, &[Text("not constrained\n")]),
        Reply::NoEdge => put_fragments(writer, held, &[Text("no edge\n")]),
        Reply::NoPath => put_fragments(writer, held, &[Text("none\n")]),
        Reply::Counts(v, e, f, c) => {
            let (v, e, f, c) = (Index(*v), Index(*e), Index(*f), Index(*c));
            put_fragments(writer, held, &[v, space, e, space, f, space, c, end])
        }
        Reply::Faces(faces) => put_faces(writer, held, faces.as_slice()),
    }
}

fn put_refusal<W: Write>(writer: &mut Watched<W>, held: &mut Held, error: InsertionError) -> Written
    requires works { has_failed writer.old ≡ false }
    ensures { Puts W.contents writer.old writer.new held.old.items held.new.items
        result (reply_text (Refused error)) }
{
    let name = match error {
        InsertionError::TooLarge => "TooLarge",
        InsertionError::OutOfMemory => "OutOfMemory",
        InsertionError::OutOfIndexes => "OutOfIndexes",
    };
    put_fragments(writer, held, &[Text("refused "), Text(name), Text("\n")])
}

/// Puts a text, and behind it the corners of a face and the end of the line.
fn put_face<W: Write>(
    writer: &mut Watched<W>,
    held: &mut Held,
    before: &str,
    corners: Corners,
) -> Written
    requires works { has_failed writer.old ≡ false }
    ensures { Puts W.contents writer.old writer.new held.old.items held.new.items
        result (before.now ++ corners_text corners) }
{
    let (a, b, c) = (
        Index(corners.first),
        Index(corners.second),
        Index(corners.third),
    );
    let space = Text(" ");
    put_fragments(
        writer,
        held,
        &[Text(before), a, space, b, space, c, Text("\n")],
    )
}

fn put_faces<W: Write>(writer: &mut Watched<W>, held: &mut Held, faces: &[Corners]) -> Written
    requires works { has_failed writer.old ≡ false }
    ensures { Puts W.contents writer.old writer.new held.old.items held.new.items
        result (flat_map corners_text faces.now ++ codes "end\n") }
{
    for corners in faces {
        put_face(writer, held, "", *corners)?;
    }
    put_fragments(writer, held, &[Text("end\n")])
}
