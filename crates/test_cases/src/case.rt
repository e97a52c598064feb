//! A case: a script `NAME.sql` and its expected outputs. `NAME.out` has the output of a run, `NAME.check.out` that of a
//! check, `NAME.marks` that of a check with neighbours, and `NAME.err` the diagnostics of its refused statements.
use crate::compare::is_expected;
use crate::complaints::{are_answered_alike, are_told};
use crate::growths::{is_right_by_growths, is_right_in_turn};
use crate::neighbours::marks;
use crate::runs::{Answering, Granted, Outcome, answer, run_over_lists};
use crate::short::written_out;
use crate::steps::is_bounded;
use std::alloc::{AllocError, Global};
use std::fs;
use std::io::{self, ErrorKind};

/// The directives in the first line of a script, after `-- cases:`.
#[derive(Clone, Copy)]
struct Directives {
    /// The script is given only as a whole, and not also in pieces of 1, 2, 3 and 7 bytes.
    is_whole: bool,
    /// Each allocation of the run is made to fail, in order, each in runs of its own.
    by_growths: bool,
    /// Each allocation of each statement is made to fail, in order, all on one engine.
    in_turn: bool,
    /// The script and its expected outputs are in the short form.
    is_short: bool,
    /// The maximal number of allocations in the last statement of the run.
    most_growths: Option<u64>,
}

/// Returns the words of the first line after `-- cases:`, if it begins so.
fn asked(script: &[u8]) -> &str {
    let end = script.iter().position(|byte| *byte == b'\n');
    let line = script.get(..end.unwrap_or(0)).unwrap_or(b"");
    let text = str::from_utf8(line).unwrap_or("");
    text.strip_prefix("-- cases:").unwrap_or("")
}

/// Parses the number N of a word `growths<=N`.
fn bound_in(word: &str) -> io::Result<u64> {
    let bound = word.strip_prefix("growths<=").unwrap_or("");
    let number = bound.parse();
    number.map_err(|_| io::Error::from(ErrorKind::InvalidInput))
}

/// Parses the directives in the first line of a script.
fn directives_in(script: &[u8]) -> io::Result<Directives> {
    let mut found = Directives {
        is_whole: false,
        by_growths: false,
        in_turn: false,
        is_short: false,
        most_growths: None,
    };
    for word in asked(script).split_ascii_whitespace() {
        match word {
            "whole" => found.is_whole = true,
            "growths" => found.by_growths = true,
            "in-turn" => found.in_turn = true,
            "short" => found.is_short = true,
            _ => found.most_growths = Some(bound_in(word)?),
        }
    }
    Ok(found)
}

/// Reads the bytes of a file; None if it does not exist.
fn bytes_of(rt: &HostRuntime, base: &str, ending: &str) -> io::Result<Option<Vec<u8>>> {
    let path = format!(in rt.alloc(); "{base}{ending}")?;
    match fs::read(rt, path.as_str()) {
        Ok(bytes) => Ok(Some(bytes)),
        Err(error) if error.kind() == ErrorKind::NotFound => Ok(None),
        Err(error) => Err(error),
    }
}

/// Whether a run ended well and its output is the expected one. If not, writes the fault.
fn is_well(outcome: &Outcome, listed: &[u8], fault: &mut String) -> io::Result<bool> {
    if !outcome.ended_well() {
        fault.push_str("does not end well")?;
        return Ok(false);
    }
    Ok(is_expected(fault, listed, &outcome.text)?)
}

/// Whether the output of a script, given in pieces of `size` bytes, is the expected one. If not, writes the fault.
fn is_answered(
    alloc: Global,
    answering: Answering,
    script: &[u8],
    size: usize,
    listed: &[u8],
    fault: &mut String,
) -> io::Result<bool> {
    let outcome = answer(alloc, answering, script, size, Granted::All)?;
    is_well(&outcome, listed, fault)
}

/// Does the same for a script that is run whole by an engine that keeps its periods in lists.
fn is_answered_over_lists(
    alloc: Global,
    script: &[u8],
    listed: &[u8],
    fault: &mut String,
) -> io::Result<bool> {
    let outcome = run_over_lists(alloc, script)?;
    let is_right = is_well(&outcome, listed, fault)?;
    if !is_right {
        fault.push_str(", over lists of periods")?;
    }
    Ok(is_right)
}

/// Does the same for pieces of each size.
fn is_answered_in_pieces(
    alloc: Global,
    answering: Answering,
    script: &[u8],
    listed: &[u8],
    fault: &mut String,
) -> io::Result<bool> {
    for size in [1, 2, 3, 7] {
        if !is_answered(alloc, answering, script, size, listed, fault)? {
            write!(fault, ", in pieces of {size} bytes")?;
            return Ok(false);
        }
    }
    Ok(true)
}

/// Whether the output of a run of a script is the expected one in the ways of its directives that only a run has. If
/// not, writes the fault.
fn is_run_right(
    alloc: Global,
    script: &Script,
    listed: &[u8],
    refused: &mut u64,
    fault: &mut String,
) -> io::Result<bool> {
    let directives = script.directives;
    let bytes = &script.bytes;
    if !directives.is_short && !is_answered_over_lists(alloc, bytes, listed, fault)? {
        return Ok(false);
    }
    if directives.in_turn && !is_right_in_turn(alloc, bytes, listed, refused, fault)? {
        return Ok(false);
    }
    match directives.most_growths {
        Some(most) => is_bounded(alloc, bytes, listed, most, fault),
        None => Ok(true),
    }
}

/// Whether the output of a script is the expected one, as a whole and in the ways of its directives. If not, writes the
/// fault.
fn is_text_right(
    alloc: Global,
    answering: Answering,
    script: &Script,
    listed: &[u8],
    refused: &mut u64,
    fault: &mut String,
) -> io::Result<bool> {
    let directives = script.directives;
    let bytes = &script.bytes;
    Ok(
        is_answered(alloc, answering, bytes, usize::MAX, listed, fault)?
            && (directives.is_whole
                || is_answered_in_pieces(alloc, answering, bytes, listed, fault)?)
            && (!directives.by_growths
                || is_right_by_growths(alloc, answering, bytes, listed, refused, fault)?)
            && (answering == Answering::Check
                || is_run_right(alloc, script, listed, refused, fault)?),
    )
}

/// Whether the diagnostics of a script are the expected ones, and writing them changes no reply. If not, writes the
/// fault.
fn are_complaints_right(
    alloc: Global,
    script: &Script,
    listed: &[u8],
    fault: &mut String,
) -> io::Result<bool> {
    Ok(
        are_told(alloc, &script.bytes, listed, fault)?
            && (!script.directives.by_growths || are_answered_alike(alloc, &script.bytes, fault)?),
    )
}

/// Whether the marks of a script are the expected ones. If not, writes where they differ.
fn are_marks_right(
    alloc: Global,
    script: &Script,
    listed: &[u8],
    fault: &mut String,
) -> io::Result<bool> {
    let marks = marks(alloc, str::from_utf8(&script.bytes).unwrap_or("?"))?;
    Ok(is_expected(fault, listed, marks.as_bytes())?)
}

/// An output that is compared with an expected one.
#[derive(Clone, Copy)]
enum Listing {
    /// The output of a run or a check.
    Text(Answering),
    /// The diagnostics of the refused statements of a run.
    Complaints,
    /// The marks that say which neighbours of its statements are statements.
    Marks,
}

/// The outputs, and the endings of the names of their files.
static LISTINGS: [(Listing, &str); 4] = [
    (Listing::Text(Answering::Run), ".out"),
    (Listing::Complaints, ".err"),
    (Listing::Text(Answering::Check), ".check.out"),
    (Listing::Marks, ".marks"),
];

/// A script, and the directives in its first line.
#[derive(Drop)]
struct Script {
    bytes: Vec<u8>,
    directives: Directives,
}

/// Returns a script or an expected output, expanded if it is in the short form.
fn spelled(alloc: Global, directives: Directives, bytes: Vec<u8>) -> Result<Vec<u8>, AllocError> {
    if directives.is_short {
        written_out(alloc, &bytes)
    } else {
        Ok(bytes)
    }
}

/// Reads the script of a case, which must exist.
fn script_of(rt: &HostRuntime, base: &str) -> io::Result<Script> {
    let path = format!(in rt.alloc(); "{base}.sql")?;
    let bytes = fs::read(rt, path.as_str())?;
    let directives = directives_in(&bytes)?;
    let bytes = spelled(rt.alloc(), directives, bytes)?;
    Ok(Script { bytes, directives })
}

/// Whether an output of a script is the expected one. If not, writes the fault.
fn is_listed(
    alloc: Global,
    script: &Script,
    listing: Listing,
    listed: &[u8],
    refused: &mut u64,
    fault: &mut String,
) -> io::Result<bool> {
    match listing {
        Listing::Text(answering) => is_text_right(alloc, answering, script, listed, refused, fault),
        Listing::Complaints => are_complaints_right(alloc, script, listed, fault),
        Listing::Marks => are_marks_right(alloc, script, listed, fault),
    }
}

/// Whether the output of a script with this ending is the expected one; None if none is expected. Writes the fault.
fn is_met(
    rt: &HostRuntime,
    base: &str,
    script: &Script,
    (listing, ending): (Listing, &str),
    refused: &mut u64,
    fault: &mut String,
) -> io::Result<Option<bool>> {
    let Some(listed) = bytes_of(rt, base, ending)? else {
        return Ok(None);
    };
    let listed = spelled(rt.alloc(), script.directives, listed)?;
    Ok(Some(is_listed(rt.alloc(), script, listing, &listed, refused, fault)?))
}

/// Whether a script has all its expected outputs. If not, writes the fault. Counts the failed allocations.
fn are_all_met(
    rt: &HostRuntime,
    base: &str,
    script: &Script,
    refused: &mut u64,
    fault: &mut String,
) -> io::Result<bool> {
    let mut is_compared = false;
    for &listing in &LISTINGS {
        match is_met(rt, base, script, listing, refused, fault)? {
            None => {}
            Some(true) => is_compared = true,
            Some(false) => {
                write!(fault, " ({})", listing.1)?;
                return Ok(false);
            }
        }
    }
    if !is_compared {
        fault.push_str("has nothing to be compared with")?;
    }
    Ok(is_compared)
}

/// Whether a case has all its expected outputs. If not, writes the fault. Counts the failed allocations.
pub fn is_right(
    rt: &HostRuntime,
    folder: &str,
    name: &str,
    refused: &mut u64,
    fault: &mut String,
) -> io::Result<bool> {
    let base = format!(in rt.alloc(); "{folder}/{name}")?;
    let script = script_of(rt, base.as_str())?;
    are_all_met(rt, base.as_str(), &script, refused, fault)
}
