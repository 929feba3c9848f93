//! The program over standard input and output.
#![tactic(auto)]

use delaunay_core::LastUsedVertexHintGenerator;
use std::env::FillError;
use std::io;
use std::io::{BufReader, Input, Read};
use std::process::ExitCode;
use std::rt::Env;
use triangulate_run::fault::{RunError, USAGE, fault_text, status_of};
use triangulate_run::session::run;
use triangulate_run::sheet::{Sheet, letter_named};
use triangulate_run::watched::Watched;

/// The status where the arguments name no sheet.
const WRONG_ARGUMENTS: u8 = 2;

/// The sheet that the arguments name: there is one behind the program's name, and it is a sheet's
/// letter. None is longer, so that the arguments are read without memory of the heap.
fn sheet_of(rt: &impl Env) -> Option<Sheet> {
    let mut letter = [0u8; 1];
    rt.arg(1, &mut letter).ok()?;
    match rt.arg(2, &mut [0u8; 1]) {
        Err(FillError::NotPresent) => letter_named(str::from_utf8(&letter).ok()?),
        _ => None,
    }
}

/// Answers what the reader gives on standard output.
fn answer_all<R: Read + Drop>(
    rt: &(impl Print + AllocGlobal),
    sheet: Sheet,
    reader: R,
) -> Result<(), RunError> {
    let mut reader = Watched::new(reader);
    let mut writer = Watched::new(io::writer(rt));
    run::<LastUsedVertexHintGenerator, _, _, _>(
        rt.alloc(),
        &sheet,
        sheet.points(),
        &mut reader,
        &mut writer,
    )
}

/// Does what the arguments ask for, tells of a fault on standard error, and gives the exit status.
/// Where there is no memory for a buffer, each byte is read by a call of its own.
fn main(rt: HostRuntime) -> ExitCode {
    let Some(sheet) = sheet_of(&rt) else {
        let _ = rt.eprintln(USAGE);
        return ExitCode::from(WRONG_ARGUMENTS);
    };
    let outcome = match BufReader::new(rt.alloc(), rt.reader()) {
        Ok(reader) => answer_all(&rt, sheet, reader),
        Err(_) => answer_all(&rt, sheet, rt.reader()),
    };
    if let Err(fault) = &outcome {
        let _ = rt.eprintln(fault_text(fault));
    }
    ExitCode::from(status_of(&outcome))
}
