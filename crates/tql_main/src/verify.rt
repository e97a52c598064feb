//! The test of a journal that is not run.
use crate::journal::say_fault;
use crate::status::{exit_status, verify_status};
use std::{io, str};
use tql_journal::found::{Found, Rest};
use tql_journal_file::fault::{Damage, JournalFault};
use tql_journal_file::reading::found_in;
use tql_run::runner::Fault;
use tql_shell::shown::Shown;

/// Prints the size of a journal and its last line. An empty file has none.
fn print_size(rt: &impl Print, found: &Found) -> io::Result<()> {
    let (statements, end) = (found.statements, found.end);
    println!(rt; "{statements} statements, {end} bytes")?;
    let line = match &found.last {
        Some(digits) => str::from_utf8(digits.as_slice()).unwrap_or(""),
        None => "tql journal 1",
    };
    if end == 0 {
        Ok(())
    } else {
        println!(rt; "-- {line}")
    }
}

/// Reports what follows a journal in its file, and a line that it does not have.
fn say_lacks(rt: &impl Eprint, path: &str, lost: Option<&str>, found: &Found) {
    let path = Shown(path);
    let torn = found.size.saturating_sub(found.end);
    if torn != 0 {
        let _ = eprintln!(rt;
            "tql: journal {path}: its last {torn} bytes are of a statement never answered"
        );
    }
    if let Some(line) = lost {
        let _ = eprintln!(rt; "tql: journal {path} has no line {line}");
    }
}

/// Reports what was found in a file, and returns the exit status.
fn tell(rt: &HostRuntime, path: &str, line: Option<&str>, found: &Found) -> u8 {
    let lost = if found.has_line { None } else { line };
    if found.rest == Rest::Damaged {
        say_fault(rt, path, &JournalFault::Damaged(Damage::of(found)));
        return verify_status(true, lost.is_some());
    }
    say_lacks(rt, path, lost, found);
    if lost.is_none() && print_size(rt, found).is_err() {
        let _ = eprintln!(rt; "tql: cannot write the standard output");
        return exit_status(&Err(Fault::Write));
    }
    verify_status(false, lost.is_some())
}

/// Tests a journal, looks up a line in it, prints its last line, and returns the exit status.
pub(crate) fn verify(rt: &HostRuntime, path: &str, line: Option<&str>) -> u8 {
    match found_in(rt, path, line.unwrap_or("")) {
        Ok(found) => tell(rt, path, line, &found),
        Err(fault) => {
            say_fault(rt, path, &fault);
            exit_status(&Err(Fault::Read))
        }
    }
}
