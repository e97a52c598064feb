//! The cases: scripts as data, each with its expected outputs. The program runs every case of the folders in `cases/`
//! and prints a line for each: its name and `ok`, or where it first differs from the expected output.
//!
//! It exits with 0 if no case differs, and with 1 otherwise.
#![tactic(auto)]

mod case;
mod compare;
mod complaints;
mod folder;
mod growths;
mod neighbours;
mod runs;
mod short;
mod steps;

use crate::case::is_right;
use crate::folder::{case_names, names_in};
use std::io;
use std::process::ExitCode;

/// The folder whose subfolders contain the cases.
const CASES: &str = "cases";

/// Prints the result of a case, and returns whether it passed.
fn report(
    rt: &impl Print,
    folder: &str,
    case: &str,
    outcome: io::Result<bool>,
    fault: &str,
) -> io::Result<bool> {
    match &outcome {
        Ok(true) => println!(rt; "{folder}/{case} ok")?,
        Ok(false) => println!(rt; "{folder}/{case} {fault}")?,
        Err(error) => println!(rt; "{folder}/{case} cannot be run: {error}")?,
    }
    Ok(matches!(&outcome, Ok(true)))
}

/// Runs a case in the folder at a path, prints its result, and returns whether it passed. Counts the failed
/// allocations.
fn run_case(
    rt: &HostRuntime,
    folder: &str,
    path: &str,
    case: &str,
    refused: &mut u64,
) -> io::Result<bool> {
    let mut fault = String::new(rt.alloc());
    let outcome = is_right(rt, path, case, refused, &mut fault);
    report(rt, folder, case, outcome, fault.as_str())
}

/// Runs the cases of these names, and returns whether all passed. Counts the failed allocations.
fn run_cases(
    rt: &HostRuntime,
    folder: &str,
    path: &str,
    cases: &[&str],
    refused: &mut u64,
) -> io::Result<bool> {
    let mut are_well = true;
    for case in cases {
        are_well &= run_case(rt, folder, path, case, refused)?;
    }
    Ok(are_well)
}

/// Runs the cases of a folder, in the order of their names, and returns whether all passed. Counts the failed
/// allocations.
fn run_folder(rt: &HostRuntime, folder: &str, refused: &mut u64) -> io::Result<bool> {
    let path = format!(in rt.alloc(); "{CASES}/{folder}")?;
    let files = names_in(rt, path.as_str())?;
    let cases = case_names(rt.alloc(), &files)?;
    run_cases(rt, folder, path.as_str(), &cases, refused)
}

/// Runs all cases, folder by folder, and returns whether all passed. The number of failed allocations is written to the
/// standard error, which no gate compares.
fn run_all(rt: &HostRuntime) -> io::Result<bool> {
    let mut are_well = true;
    let mut refused = 0u64;
    for folder in names_in(rt, CASES)?.iter() {
        are_well &= run_folder(rt, folder.as_str(), &mut refused)?;
    }
    let _ = eprintln!(rt; "{refused} growths were refused");
    Ok(are_well)
}

fn main(rt: HostRuntime) -> io::Result<ExitCode> {
    let are_well = run_all(&rt)?;
    Ok(ExitCode::from(u8::from(!are_well)))
}
