//! Where a mesh is written to.
use crate::Task;
use anyhow::Context;
use mesh_files::{Form, MeshText};
use std::alloc::Global;
use std::fs::File;
use std::io::{BufWriter, Write};
use std::{fs, io};

/// Writes a mesh, to its end.
fn write_to<W: Write>(
    task: &Task<'_>,
    text: &MeshText<'_>,
    writer: &mut W,
    alloc: Global,
) -> io::Result<()> {
    text.write(task.form.unwrap_or(Form::Obj), writer, alloc)?;
    writer.flush()
}

/// Writes a mesh through a buffer; `name` is that of what it is written to.
fn write_whole<W: Write + Drop>(
    task: &Task<'_>,
    text: &MeshText<'_>,
    writer: W,
    name: &str,
    alloc: Global,
) -> anyhow::Result<()> {
    let mut writer = BufWriter::new(alloc, writer)?;
    write_to(task, text, &mut writer, alloc).context(format_args!("{name}"))
}

/// Writes a mesh to a file, and puts that into the place of another.
fn write_and_rename(
    rt: &HostRuntime,
    task: &Task<'_>,
    text: &MeshText<'_>,
    file: File,
    beside: &str,
    path: &str,
) -> anyhow::Result<()> {
    if let Ok(metadata) = fs::metadata(rt, path) {
        let _ = fs::set_permissions(rt, beside, metadata.permissions());
    }
    write_whole(task, text, file, beside, rt.alloc())?;
    fs::rename(rt, beside, path).context(format_args!("{path}"))
}

/// Creates a file.
fn create(rt: &HostRuntime, path: &str) -> anyhow::Result<File> {
    fs::create(rt, path).context(format_args!("{path}"))
}

/// Writes a mesh to a file beside the one that is asked for, which then takes its place. Where it
/// does not come to that, nothing is left of it.
fn write_beside(
    rt: &HostRuntime,
    task: &Task<'_>,
    text: &MeshText<'_>,
    beside: &str,
    path: &str,
) -> anyhow::Result<()> {
    let file = create(rt, beside)?;
    let outcome = write_and_rename(rt, task, text, file, beside, path);
    if outcome.is_err() {
        let _ = fs::remove_file(rt, beside);
    }
    outcome
}

/// Whether a path is that of a device or a pipe, whose place no file may take.
fn is_stream(rt: &HostRuntime, path: &str) -> bool {
    match fs::metadata(rt, path) {
        Ok(metadata) => !metadata.is_file() && !metadata.is_dir(),
        Err(_) => false,
    }
}

/// Writes a mesh to the file of this name, which is no link.
fn write_at(
    rt: &HostRuntime,
    task: &Task<'_>,
    text: &MeshText<'_>,
    path: &str,
) -> anyhow::Result<()> {
    let beside = format!(in rt.alloc(); "{path}.part")?;
    write_beside(rt, task, text, beside.as_str(), path)
}

/// Writes a mesh to the file of this name, or to the one that a link of this name leads to.
fn write_file(
    rt: &HostRuntime,
    task: &Task<'_>,
    text: &MeshText<'_>,
    path: &str,
) -> anyhow::Result<()> {
    if is_stream(rt, path) {
        return write_whole(task, text, create(rt, path)?, path, rt.alloc());
    }
    if let Ok(real) = fs::canonicalize(rt, path) {
        return write_at(rt, task, text, real.as_path().to_str().unwrap_or(path));
    }
    write_at(rt, task, text, path)
}

/// Writes a mesh to standard output, or to the file that is asked for.
pub fn write_mesh(rt: &HostRuntime, task: &Task<'_>, text: &MeshText<'_>) -> anyhow::Result<()> {
    match task.output {
        Some(path) => write_file(rt, task, text, path),
        None => write_whole(task, text, io::writer(rt), "standard output", rt.alloc()),
    }
}
