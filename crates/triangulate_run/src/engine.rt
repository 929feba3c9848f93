//! The answers of a triangulation to commands.
ghost use Rattle.std.specs.Prelude.{◌≡◌, false, MatchOption};
ghost use Rattle.triangulate_run.specs.Answer.{AreVertices, IsReplied, MayAnswer, MayCount};
ghost use Rattle.triangulate_run.specs.Answer.{MayJoin, MayMeasure, MayRelease, MayReply, MayWalk};
ghost use Rattle.triangulate_run.specs.{Answer.point_at, Stage.Fits, Stage.position};
ghost use Rattle.triangulate_run.specs.{Engine.IsEngineReady, Engine.stage_of, Watched.has_failed};
ghost use Rattle.triangulate_run.specs.Output.{PutsSome};

use crate::command::{Command, Coordinates};
use crate::constraints::{constrain, release, release_free};
use crate::line::put_line;
use crate::nearest::{distance_reply, nearest_of_all, nearest_of_plain};
use crate::output::{Held, Written};
use crate::points::{SheetPoint, index_of};
use crate::reply::{Reply, put_reply};
use crate::shared::{count_reply, faces, insert, locate, remove, vertices_at};
use crate::watched::Watched;
use delaunay_core::HintGenerator;
use delaunay_core::math::{InsertionError, PlaneTests};
use delaunay_core::point::Point2;
use delaunay_interface::{ConstrainedDelaunayTriangulation, DelaunayTriangulation, Triangulation};
use half_edge_links::FixedVertexHandle;
use std::alloc::Global;
use std::io::Write;
use std::mem::replace;

/// Vertices that are points and carry no further data.
pub(crate) type Plain<L> = DelaunayTriangulation<Point2<i64>, (), (), (), L>;

/// The same with constraints.
pub(crate) type Constrained<L> = ConstrainedDelaunayTriangulation<Point2<i64>, (), (), (), L>;

/// A plain triangulation up to the first constraint, and then one with constraints.
#[derive(Drop)]
pub(crate) enum Either<L: HintGenerator<i64>> {
    Plain(Plain<L>),
    Constrained(Constrained<L>),
}

// A call on a triangulation of either type.
macro_rules! on_either {
    ($either:expr, $triangulation:ident => $call:expr) => {
        match $either {
            Either::Plain($triangulation) => $call,
            Either::Constrained($triangulation) => $call,
        }
    };
}

/// A triangulation that answers commands, with the tests and the points that it may be asked about.
#[derive(Drop)]
pub(crate) struct PointEngine<'a, P, L: HintGenerator<i64>> {
    pub(crate) triangulation: Either<L>,
    pub(crate) tests: &'a P,
    pub(crate) points: &'a [SheetPoint],
    pub(crate) alloc: Global,
}

impl<'a, P: PlaneTests<i64>, L: HintGenerator<i64>> PointEngine<'a, P, L> {
    /// Does what a command asks for, and puts what there is to tell behind what is held.
    pub(crate) fn answer<W: Write>(
        &mut self,
        command: Command,
        writer: &mut Watched<W>,
        held: &mut Held,
    ) -> Written
        requires ready { IsEngineReady P.covered P.sites self.old }
        requires works { has_failed writer.old ≡ false }
        ensures ready { IsEngineReady P.covered P.sites self.new }
        ensures points { self.new.points ≡ self.old.points }
        ensures fits { Fits (stage_of self.new.triangulation) }
        ensures answered { PutsSome W.contents writer.old writer.new held.old.items held.new.items
            result (λ text. MayAnswer self.old.points.now (stage_of self.old.triangulation) command
            text (stage_of self.new.triangulation)) }
    {
        let answered = match command {
            Command::Constrain(from, to) => self.constrain(from, to, writer, held),
            Command::Line(from, to) => self.line(from, to, writer, held),
            _ => {
                let reply = self.reply_to(command);
                put_reply(writer, held, &reply)
            }
        };
        self.recall_invariant();
        answered
    }

    /// What holds of each triangulation between commands.
    pub(crate) fn recall_invariant(&self)
        ensures { Fits (stage_of self.now.triangulation) }
    {
        on_either!(&self.triangulation, it => it.recall_invariant())
    }

    /// Does what a command asks for whose reply is one line or the list of faces.
    fn reply_to(&mut self, command: Command) -> Reply
        requires ready { IsEngineReady P.covered P.sites self.old }
        requires other { IsReplied command }
        ensures ready { IsEngineReady P.covered P.sites self.new }
        ensures points { self.new.points ≡ self.old.points }
        ensures reply { MayReply self.old.points.now (stage_of self.old.triangulation) command
            result (stage_of self.new.triangulation) }
    {
        match command {
            Command::Insert(Coordinates { x, y }) => on_either!(&mut self.triangulation, it => {
                insert(it, self.tests, self.points, Point2 { x, y })
            }),
            Command::Remove(index) => {
                on_either!(&mut self.triangulation, it => remove(it, self.tests, index))
            }
            Command::Release(from, to) => self.release(from, to),
            Command::Locate(Coordinates { x, y }) => on_either!(&self.triangulation, it => {
                locate(it, self.tests, self.points, Point2 { x, y })
            }),
            Command::Nearest(Coordinates { x, y }) => self.nearest(Point2 { x, y }),
            Command::Counts => self.counts(),
            Command::Faces => on_either!(&self.triangulation, it => faces(it, self.alloc)),
            Command::Constrain(_, _) | Command::Line(_, _) => Reply::BadLine,
        }
    }

    fn nearest(&self, point: Point2<i64>) -> Reply
        requires ready { IsEngineReady P.covered P.sites self.now }
        ensures { MayMeasure self.now.points.now (stage_of self.now.triangulation).triangulation
            (position point) result }
    {
        if index_of(self.points, point).is_none() {
            return Reply::UnknownPoint;
        }
        match &self.triangulation {
            Either::Plain(plain) => distance_reply(nearest_of_plain(plain, self.tests, point)),
            Either::Constrained(constrained) => distance_reply(nearest_of_all(constrained, point)),
        }
    }

    fn counts(&self) -> Reply
        ensures reply { MayCount (stage_of self.now.triangulation) result }
    {
        match &self.triangulation {
            Either::Plain(plain) => count_reply(plain, 0),
            Either::Constrained(constrained) => {
                constrained.recall_invariant();
                count_reply(constrained, constrained.num_constraints() as u64)
            }
        }
    }

    fn release(&mut self, from: u64, to: u64) -> Reply
        requires ready { IsEngineReady P.covered P.sites self.old }
        ensures ready { IsEngineReady P.covered P.sites self.new }
        ensures points { self.new.points ≡ self.old.points }
        ensures reply { MayRelease (stage_of self.old.triangulation) from to result
            (stage_of self.new.triangulation) }
    {
        let Some((from, to)) = self.vertices_at(from, to) else {
            return Reply::NoVertex;
        };
        match &mut self.triangulation {
            Either::Plain(plain) => release_free(plain, from, to),
            Either::Constrained(constrained) => release(constrained, self.tests, from, to),
        }
    }

    fn constrain<W: Write>(
        &mut self,
        from: u64,
        to: u64,
        writer: &mut Watched<W>,
        held: &mut Held,
    ) -> Written
        requires ready { IsEngineReady P.covered P.sites self.old }
        requires works { has_failed writer.old ≡ false }
        ensures ready { IsEngineReady P.covered P.sites self.new }
        ensures points { self.new.points ≡ self.old.points }
        ensures answered { PutsSome W.contents writer.old writer.new held.old.items held.new.items
            result (λ text. MayJoin (stage_of self.old.triangulation) from to text
            (stage_of self.new.triangulation)) }
    {
        let Some((from, to)) = self.vertices_at(from, to) else {
            return put_reply(writer, held, &Reply::NoVertex);
        };
        self.take_constraints();
        match &mut self.triangulation {
            Either::Plain(_) => {
                put_reply(writer, held, &Reply::Refused(InsertionError::OutOfMemory))
            }
            Either::Constrained(constrained) => {
                constrain(constrained, self.tests, from, to, writer, held)
            }
        }
    }

    fn line<W: Write>(
        &self,
        from: Coordinates,
        to: Coordinates,
        writer: &mut Watched<W>,
        held: &mut Held,
    ) -> Written
        requires ready { IsEngineReady P.covered P.sites self.now }
        requires works { has_failed writer.old ≡ false }
        ensures answered { PutsSome W.contents writer.old writer.new held.old.items held.new.items
            result (MayWalk self.now.points.now (stage_of self.now.triangulation).triangulation
            (position (point_at from)) (position (point_at to))) }
    {
        let (from, to) = (
            Point2 {
                x: from.x,
                y: from.y,
            },
            Point2 { x: to.x, y: to.y },
        );
        on_either!(&self.triangulation, it => {
            put_line(it, self.tests, self.points, from, to, writer, held)
        })
    }

    /// The vertices of two indexes, if both are there.
    fn vertices_at(&self, from: u64, to: u64) -> Option<(FixedVertexHandle, FixedVertexHandle)>
        ensures { MatchOption result (¬ AreVertices (stage_of self.now.triangulation) from to)
            (λ p. (p.0 ≡ from) × (p.1 ≡ to)
            × AreVertices (stage_of self.now.triangulation) from to) }
    {
        on_either!(&self.triangulation, it => vertices_at(it, from, to))
    }

    /// Makes the triangulation one with constraints, where it is none and memory is not refused.
    fn take_constraints(&mut self)
        ensures rest { self.new.points ≡ self.old.points }
        ensures tests { self.new.tests ≡ self.old.tests }
        ensures stage { stage_of self.new.triangulation ≡ stage_of self.old.triangulation }
    {
        let empty = Either::Plain(Plain::new(self.alloc));
        self.triangulation = match replace(&mut self.triangulation, empty) {
            Either::Plain(plain) => match Constrained::from_delaunay(plain) {
                Ok(constrained) => Either::Constrained(constrained),
                Err(plain) => Either::Plain(plain),
            },
            constrained => constrained,
        };
    }
}
