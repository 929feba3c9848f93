//! `mesh` reads points and segments, and writes their constrained Delaunay triangulation, or tells
//! what is asked of it.
#![tactic(auto)]

mod areas;
mod building;
mod crossings;
mod disjoint;
mod heights;
mod kept;
mod locations;
mod nearest;
mod overlaps;
mod paths;
mod polygons;
mod splitting;
mod way;
mod ways;
mod wide;

use crate::building::{
    DrawnLists, needs_polygons, split_crossing, tell_drawn, triangulate_with_room,
    write_triangulated,
};
use crate::kept::KeptFaces;
use crate::locations::tell_locations;
use crate::nearest::tell_nearest;
use crate::overlaps::tell_overlaps;
use crate::paths::Turn;
use crate::polygons::polygon_lists;
use crate::splitting::SplitMesh;
use crate::way::tell_way;
use crate::ways::tell_way_between;
use anyhow::bail;
use delaunay_core::point::Point2;
use delaunay_interface::Triangulation;
use mesh_io::{KeepRule, Question, Scene, Task, command, read_scene, task_of, tell_step};
use std::process::ExitCode;

/// Answers a question of the triangulation with its constraints, for the faces that are kept.
fn answer_question<T: Triangulation<Vertex = Point2<i32>>>(
    rt: &HostRuntime,
    task: &Task<'_>,
    question: Question<'_>,
    scene: &Scene,
    triangulation: &T,
    drawn: &DrawnLists<'_>,
) -> anyhow::Result<()> {
    if let Question::Nearest(_) = question {
        return Ok(());
    }
    if let Question::Overlaps = question {
        return tell_overlaps(rt, task.is_quiet, scene, drawn);
    }
    if let Question::Way(_) = question {
        return tell_way_between(rt, task, scene, triangulation, drawn);
    }
    let kept = KeptFaces::of(task, drawn, rt.alloc())?;
    if let Question::Line(_) = question {
        return tell_way(rt, scene, triangulation, &kept);
    }
    tell_locations(rt, scene, triangulation, &kept)
}

/// Tells what is to be told of a triangulation, answers the question, and writes the mesh: where
/// there is a question, to a file alone.
fn tell_and_write<T: Triangulation<Vertex = Point2<i32>>>(
    rt: &HostRuntime,
    task: &Task<'_>,
    scene: &Scene,
    triangulation: &T,
    drawn: &DrawnLists<'_>,
) -> anyhow::Result<()> {
    tell_drawn(rt, task, scene, triangulation, drawn)?;
    if let Some(question) = task.question {
        answer_question(rt, task, question, scene, triangulation, drawn)?;
        if task.output.is_none() {
            return Ok(());
        }
    }
    tell_step(rt, task, scene.scaled.points.len(), "writing");
    write_triangulated(rt, task, scene, triangulation, drawn)
}

/// Keeps the faces in polygons, where that is asked for, and tells and writes what is asked for.
fn keep_and_write<T: Triangulation<Vertex = Point2<i32>>>(
    rt: &HostRuntime,
    task: &Task<'_>,
    scene: &Scene,
    triangulation: &T,
    drawn: &DrawnLists<'_>,
    turns: &[Turn],
) -> anyhow::Result<()> {
    if !needs_polygons(task, scene) {
        return tell_and_write(rt, task, scene, triangulation, drawn);
    }
    let alloc = rt.alloc();
    let (indexes, added, constraints) = (drawn.indexes, drawn.added, drawn.constraints);
    let lists = polygon_lists(scene, triangulation, indexes, turns, drawn.faces, alloc)?;
    if task.keep != KeepRule::Inside {
        let polygons = lists.lists(&scene.records);
        let drawn = DrawnLists::with_polygons(indexes, added, drawn.faces, polygons, constraints);
        return tell_and_write(rt, task, scene, triangulation, &drawn);
    }
    let (faces, lists) = lists.within(drawn.faces, alloc)?;
    let polygons = lists.lists(&scene.records);
    let drawn = DrawnLists::with_polygons(indexes, added, faces.as_slice(), polygons, constraints);
    tell_and_write(rt, task, scene, triangulation, &drawn)
}

/// The faces that are kept, and by which vertices segments go: those after a split, if there was
/// one.
fn kept_lists<'a>(
    faces: &'a [[u32; 3]],
    split: &'a Option<SplitMesh>,
) -> (&'a [[u32; 3]], &'a [Turn]) {
    match split {
        Some(split) => (split.faces.as_slice(), split.turns.as_slice()),
        None => (faces, [].as_slice()),
    }
}

/// Triangulates a drawing, and tells and writes what is asked for.
fn build_and_write(rt: &HostRuntime, task: &Task<'_>, scene: &mut Scene) -> anyhow::Result<()> {
    tell_step(rt, task, scene.scaled.points.len(), "triangulating");
    let mut drawn = triangulate_with_room(task, scene, rt.alloc())?;
    let split = split_crossing(
        rt,
        task,
        scene,
        &mut drawn.triangulation,
        &mut drawn.vertices,
        drawn.added.as_slice(),
    )?;
    let (faces, turns) = kept_lists(drawn.faces.as_slice(), &split);
    let lists = DrawnLists {
        indexes: drawn.vertices.as_slice(),
        added: drawn.added.as_slice(),
        faces,
        polygons: None,
        constraints: drawn.triangulation.num_constraints(),
    };
    keep_and_write(rt, task, scene, &drawn.triangulation, &lists, turns)
}

/// Does what a task asks for. Which point is nearest does not depend on the segments.
fn carry_out(rt: &HostRuntime, task: &Task<'_>) -> anyhow::Result<()> {
    if task.form.is_none() {
        let name = task.output.unwrap_or("");
        bail!("{name}: no form that is written has this ending: name a form with --to");
    }
    let mut scene = read_scene(rt, task)?;
    if let Some(Question::Nearest(_)) = task.question {
        tell_nearest(rt, &scene)?;
        if task.output.is_none() {
            return Ok(());
        }
    }
    build_and_write(rt, task, &mut scene)
}

/// Tells what is wrong with the command line, or what it asks to be told of it. Only what is asked
/// for has to be written.
fn tell_words(rt: &HostRuntime, error: &clap::Error) -> anyhow::Result<ExitCode> {
    let code = error.exit_code();
    match error.print(rt) {
        Err(fault) if code == 0 => Err(fault.into()),
        _ => Ok(ExitCode::from(code as u8)),
    }
}

/// Tells what went wrong, if something did.
fn tell_outcome(rt: &impl Eprint, outcome: &anyhow::Result<()>) -> anyhow::Result<ExitCode> {
    match outcome {
        Ok(()) => Ok(ExitCode::SUCCESS),
        Err(error) => {
            let _ = eprintln!(rt; "mesh: {error:#}");
            Ok(ExitCode::from(1))
        }
    }
}

/// Does what the words of a command line ask for.
fn run_words(rt: &HostRuntime, words: &[String]) -> anyhow::Result<ExitCode> {
    match command(rt.alloc())?.try_get_matches_from(words) {
        Ok(matches) => tell_outcome(rt, &carry_out(rt, &task_of(&matches))),
        Err(error) => tell_words(rt, &error),
    }
}

fn main(rt: HostRuntime) -> anyhow::Result<ExitCode> {
    let words: Vec<String> = std::env::args(&rt)?.collect(rt.alloc())?;
    run_words(&rt, words.as_slice())
}
