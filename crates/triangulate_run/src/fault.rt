//! How a run ends, for the program's status and standard error.
ghost use Rattle.std.specs.Prelude.{◌≡◌, MatchResult};
ghost use Rattle.triangulate_run.specs.Fault.{fault_text_of};

/// Why a run ended before the end of its input.
#[derive(Clone, Copy, Debug, PartialEq, Eq)]
pub enum RunError {
    /// The reader failed.
    Read,
    /// The writer failed.
    Write,
}

/// What stands on standard error where the arguments name no sheet.
pub const USAGE: &str = "usage: triangulate G|B|R|L|X";

/// The exit status of a run: 0 where it came to the end of its input, and 1 after a fault.
pub fn status_of(outcome: &Result<(), RunError>) -> u8
    ensures { MatchResult outcome.now (λ _. result ≡ 0) (λ _. result ≡ 1) }
{
    u8::from(outcome.is_err())
}

/// What stands on standard error after a fault.
pub fn fault_text(fault: &RunError) -> &'static str
    ensures { result.now ≡ fault_text_of fault.now }
{
    match fault {
        RunError::Read => "triangulate: read failed",
        RunError::Write => "triangulate: write failed",
    }
}
