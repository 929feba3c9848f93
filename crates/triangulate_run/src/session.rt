//! Lines in, replies out.
ghost use Rattle.std.specs.Prelude.{◌≡◌, true, false, All};
ghost use Rattle.triangulate_run.specs.{Engine.IsEngineReady, Engine.stage_of, Watched.has_failed};
ghost use Rattle.triangulate_run.specs.Output.{Writes, WritesSome};
ghost use Rattle.triangulate_run.specs.{Points.place, Run.Answers, Run.bad_line, Run.Ran};
ghost use Rattle.triangulate_run.specs.Stage.{first_stage, Fits};

use crate::engine::{Either, Plain, PointEngine};
use crate::fault::RunError;
use crate::grammar::{MAX_LINE, parse};
use crate::output::{Held, Written, write_all};
use crate::points::SheetPoint;
use crate::watched::{Failed, Watched};
use arrayvec::ArrayVec;
use delaunay_core::HintGenerator;
use delaunay_core::math::PlaneTests;
use delaunay_interface::Triangulation;
use std::alloc::Global;
use std::io::{Read, Write};

/// How many bytes of a line are kept: one more than a command has, so that of a longer line enough
/// is kept to be none.
const LINE_ROOM: usize = MAX_LINE + 1;

/// Answers a line that spells no command, and has the writer pass the answer on.
fn refuse<W: Write>(writer: &mut Watched<W>) -> Written
    requires works { has_failed writer.old ≡ false }
    ensures { Writes W.contents writer.old writer.new result bad_line }
{
    write_all(writer, b"bad line\n")?;
    writer.flush()
}

/// Answers a line, and has the writer pass the answer on.
fn answer<P: PlaneTests<i64>, L: HintGenerator<i64>, W: Write>(
    engine: &mut PointEngine<'_, P, L>,
    line: &[u8],
    writer: &mut Watched<W>,
) -> Written
    requires ready { IsEngineReady P.covered P.sites engine.old }
    requires works { has_failed writer.old ≡ false }
    ensures ready { IsEngineReady P.covered P.sites engine.new }
    ensures points { engine.new.points ≡ engine.old.points }
    ensures fits { Fits (stage_of engine.new.triangulation) }
    ensures answered { WritesSome W.contents writer.old writer.new result
        (λ text. Answers engine.old.points.now (stage_of engine.old.triangulation) line.now text
        (stage_of engine.new.triangulation)) }
{
    let Some(command) = parse(line) else {
        engine.recall_invariant();
        return refuse(writer);
    };
    let mut held = Held::new();
    engine.answer(command, writer, &mut held)?;
    write_all(writer, held.as_slice())?;
    writer.flush()
}

/// Has the engine answer each line of the reader to the writer, before more is read.
fn answer_lines<P: PlaneTests<i64>, L: HintGenerator<i64>, R: Read, W: Write>(
    engine: &mut PointEngine<'_, P, L>,
    reader: &mut Watched<R>,
    writer: &mut Watched<W>,
) -> Result<(), RunError>
    requires ready { IsEngineReady P.covered P.sites engine.old }
    requires first { stage_of engine.old.triangulation ≡ first_stage }
    requires reader_works { has_failed reader.old ≡ false }
    requires writer_works { has_failed writer.old ≡ false }
    ensures { Ran engine.old.points.now R.remaining W.contents reader.old reader.new writer.old
        writer.new result }
{
    let mut line: ArrayVec<u8, LINE_ROOM> = ArrayVec::new();
    loop {
        let mut byte = [0u8; 1];
        match reader.read(&mut byte) {
            Ok(0) if line.is_empty() => return Ok(()),
            Ok(0) => match refuse(writer) {
                Ok(()) => return Ok(()),
                Err(Failed) => return Err(RunError::Write),
            },
            Ok(_) if byte[0] == b'\n' => match answer(engine, line.as_slice(), writer) {
                Ok(()) => line.clear(),
                Err(Failed) => return Err(RunError::Write),
            },
            Ok(_) => {
                let _ = line.try_push(byte[0]);
            }
            Err(Failed) => return Err(RunError::Read),
        }
    }
}

/// Answers each line of the reader to the writer, and passes the answer on before more is read.
///
/// The tests cover each of `points`, and have it as a site where it says so; vertices are inserted
/// at these sites alone.
///
/// # Errors
///
/// `Read` where the reader failed: all complete lines that it gave are answered. `Write` where the
/// writer failed: what it took is a beginning of the answers.
pub fn run<L: HintGenerator<i64>, P: PlaneTests<i64>, R: Read, W: Write>(
    alloc: Global,
    tests: &P,
    points: &[SheetPoint],
    reader: &mut Watched<R>,
    writer: &mut Watched<W>,
) -> Result<(), RunError>
    requires covered { All (λ s. P.covered tests.now (place s)) points.now }
    requires sites { All (λ s. s.site ≡ true → P.sites tests.now (place s)) points.now }
    requires reader_works { has_failed reader.old ≡ false }
    requires writer_works { has_failed writer.old ≡ false }
    ensures { Ran points.now R.remaining W.contents reader.old reader.new writer.old writer.new
        result }
{
    let mut engine: PointEngine<'_, P, L> = PointEngine {
        triangulation: Either::Plain(Plain::new(alloc)),
        tests,
        points,
        alloc,
    };
    answer_lines(&mut engine, reader, writer)
}
