//! The exit status.
ghost use Rattle.std.specs.Prelude.{◌≡◌};
ghost use Rattle.clap.specs.Words.{kind_of};
ghost use Rattle.tql_main.specs.Status.{IsExitStatus, status_of_line, status_of_journal};

use clap::Error;
use clap::error::ErrorKind;
use tql_run::runner::{Fault, Summary};

/// Returns the exit status after a run: 0 if no statement was refused, 1 if some statement was, and 3 if the run
/// stopped because a device failed or memory ran out.
pub fn exit_status(outcome: &Result<Summary, Fault>) -> u8
    ensures { IsExitStatus outcome.now result }
{
    match outcome {
        Ok(summary) if summary.refused == 0 => 0,
        Ok(_) => 1,
        Err(_) => 3,
    }
}

/// Returns the exit status of a command line that starts no run: 0 after help or version, 2 if the line is wrong, and 3
/// if memory ran out.
pub fn line_status(error: &Error) -> u8
    ensures { result ≡ status_of_line (kind_of error.now) }
{
    match error.kind() {
        ErrorKind::DisplayHelp | ErrorKind::DisplayVersion => 0,
        ErrorKind::OutOfMemory => 3,
        _ => 2,
    }
}

/// Returns the exit status of `--verify` of a file that was read: 1 if it is no journal, or lacks the line that was
/// looked up, and 0 otherwise.
pub fn verify_status(is_damaged: bool, lacks_line: bool) -> u8
    ensures { result ≡ status_of_journal is_damaged lacks_line }
{
    if is_damaged || lacks_line { 1 } else { 0 }
}
