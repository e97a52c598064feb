//! Statements and their neighbours, which differ by one token: it is left out, doubled, or swapped with the next one.
use crate::runs::{Granted, check_only};
use std::alloc::{AllocError, Global};
use std::io;

/// A change of a statement at one of its tokens.
#[derive(Clone, Copy, PartialEq, Eq, Debug)]
enum Step {
    Kept,
    Without,
    Doubled,
    Swapped,
}

/// Returns the index from which the token at `place` comes after a step at `changed`; None if there is none.
fn place_after(step: Step, place: usize, changed: usize) -> Option<usize> {
    match step {
        Step::Without if place >= changed => place.checked_add(1),
        Step::Doubled if place > changed => place.checked_sub(1),
        Step::Swapped if place == changed => place.checked_add(1),
        Step::Swapped if Some(place) == changed.checked_add(1) => Some(changed),
        _ => Some(place),
    }
}

/// Appends the statement after a step to a script.
fn push_neighbour(
    script: &mut String,
    tokens: &[&str],
    step: Step,
    changed: usize,
) -> Result<(), AllocError> {
    for place in 0..tokens.len().saturating_add(1) {
        if let Some(token) = place_after(step, place, changed).and_then(|from| tokens.get(from)) {
            script.push_str(token)?;
            script.push(' ')?;
        }
    }
    script.push_str(";\n")
}

/// Returns the neighbours of a statement by one step, as a script.
fn neighbours(alloc: Global, tokens: &[&str], step: Step) -> Result<String, AllocError> {
    let count = match step {
        Step::Kept => 1,
        Step::Without | Step::Doubled => tokens.len(),
        Step::Swapped => tokens.len().saturating_sub(1),
    };
    let mut script = String::new(alloc);
    for changed in 0..count {
        push_neighbour(&mut script, tokens, step, changed)?;
    }
    Ok(script)
}

/// Returns the mark for a reply: `x` if the text is a statement, `.` if it is none, and `?` for another reply.
fn mark(reply: &str) -> char {
    match reply {
        "OK" => 'x',
        "REFUSED E10 not a statement" => '.',
        _ => '?',
    }
}

/// Appends a mark for each statement of a script; `-` if it has none.
fn push_marks(alloc: Global, marks: &mut String, script: &str) -> io::Result<()> {
    let text = check_only(alloc, script.as_bytes(), usize::MAX, Granted::All)?.text;
    if text.is_empty() {
        marks.push('-')?;
    }
    for reply in str::from_utf8(&text).unwrap_or("?").lines() {
        marks.push(mark(reply))?;
    }
    Ok(())
}

/// Appends a line with the marks of a statement and of its neighbours by each step.
fn push_line(alloc: Global, marks: &mut String, statement: &str) -> io::Result<()> {
    let tokens: Vec<&str> = statement.split(' ').collect(alloc)?;
    for (before, step) in [
        ("", Step::Kept),
        (" ", Step::Without),
        (" ", Step::Doubled),
        (" ", Step::Swapped),
    ] {
        marks.push_str(before)?;
        let script = neighbours(alloc, tokens.as_slice(), step)?;
        push_marks(alloc, marks, script.as_str())?;
    }
    marks.push('\n')?;
    Ok(())
}

/// Returns the marks of the statements of a script and of their neighbours, a line for each statement. Each line of the
/// script that is no comment is a statement without its `;`, with a blank between each two tokens.
pub fn marks(alloc: Global, script: &str) -> io::Result<String> {
    let mut marks = String::new(alloc);
    for line in script.lines() {
        if !line.starts_with("--") {
            push_line(alloc, &mut marks, line)?;
        }
    }
    Ok(marks)
}
