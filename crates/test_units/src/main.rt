//! Reads the lines of the files in data/, answers each, and prints the number of lines of each file. Before that it
//! prints each line whose answer is not the expected one.
//!
//!     rt try $(for file in data/*; do echo --data $(basename $file)=$file; done)
#![tactic(auto)]

mod answer;
mod calendar;
mod indexes;
mod lexer;
mod line;
mod parts;
mod periods;
mod replies;
mod rows;
mod stop;
mod values;

use crate::answer::{Subject, answer_in_turn};
use crate::line::{is_case, line_of, unmarked};
use std::fs::Files;
use std::{fs, io};

/// The files and their subjects.
static FILES: [(&str, Subject); 7] = [
    ("calendar", Subject::Calendar),
    ("indexes", Subject::Indexes),
    ("lexer", Subject::Lexer),
    ("periods", Subject::Periods),
    ("replies", Subject::Replies),
    ("rows", Subject::Rows),
    ("values", Subject::Values),
];

/// Whether a line, as it is written in a file, has the expected answer. If not, it is printed with its answer.
fn is_right(rt: &(impl Print + AllocGlobal), subject: Subject, written: &str) -> io::Result<bool> {
    let text = unmarked(rt.alloc(), written)?;
    let Some(line) = line_of(text.as_str()) else {
        println!(rt; "no line: {text}")?;
        return Ok(false);
    };
    let answer = answer_in_turn(rt, subject, &line)?;
    if answer.as_str() == line.wanted {
        return Ok(true);
    }
    println!(rt; "{} {} -> {}", line.command, line.input, answer)?;
    Ok(false)
}

/// Answers the lines of a file, and prints their number.
fn check_file(
    rt: &(impl Print + Files + AllocGlobal),
    name: &str,
    subject: Subject,
) -> io::Result<()> {
    let path = format!(in rt.alloc(); "{name}.txt")?;
    let text = fs::read_to_string(rt, &path)?;
    let mut lines = 0u64;
    let mut wrong = 0u64;
    for written in text.lines() {
        if !is_case(written) {
            continue;
        }
        lines = lines.saturating_add(1);
        if !is_right(rt, subject, written)? {
            wrong = wrong.saturating_add(1);
        }
    }
    println!(rt; "{name}: {lines} lines, {wrong} wrong")
}

fn main(rt: HostRuntime) -> io::Result<()> {
    for &(name, subject) in &FILES {
        check_file(&rt, name, subject)?;
    }
    Ok(())
}
