//! The program: `tql [OPTIONS] [SCRIPT]...` runs the scripts in the files SCRIPT, those of `-c TEXT`, and the standard
//! input, on one engine, and writes the replies to the standard output. With `--check` it only checks each statement by
//! the grammar. The refused statements and their lines are reported on the standard error.
//!
//! It exits with 0 if no statement was refused, and after help or the version; with 1 if some statement was refused;
//! with 2 if the command line is wrong; and with 3 if opening, reading or writing failed, or memory ran out before the
//! first statement.
#![tactic(auto)]

mod inputs;
mod journal;
mod output;
mod runner;
mod status;
mod verify;

use crate::inputs::{Job, answer_job, end_lack};
use crate::status::{exit_status, line_status};
use crate::verify::verify;
use clap::Error;
use std::env;
use std::io::{self, ErrorKind, IsTerminal};
use std::process::ExitCode;
use tql_options::joining::joined_words;
use tql_options::options::{Clash, CommandLine, Format, command_line};
use tql_options::seals::is_seal;
use tql_run::runner::Fault;
use tql_shell::shown::{Shown, shown_words};

/// Reports that the word SIZE is not a number of bytes, and returns the exit status.
fn end_size(rt: &impl Eprint, word: &str) -> u8 {
    let word = Shown(word);
    let _ = eprintln!(rt;
        "error: '{word}' is no size for '--memory <SIZE>': digits, then nothing or one of K, M and G"
    );
    2
}

/// Reports that the word FORMAT names no format, and returns the exit status.
fn end_format(rt: &impl Eprint, word: &str) -> u8 {
    let word = Shown(word);
    let _ = eprintln!(rt;
        "error: '{word}' is no format for '--format <FORMAT>': table, box, csv, json or jsonl"
    );
    2
}

/// Reports options that exclude each other, and returns the exit status.
fn end_clash(rt: &impl Eprint, clash: Clash) -> u8 {
    let text = match clash {
        Clash::CheckAndPlans => "'--plans' cannot be used with '--check', which runs no query",
        Clash::CheckAndJournal => "'--journal' cannot be used with '--check', which runs nothing",
        Clash::VerifyAndRun =>
            "'--verify' runs nothing: beside it stands no '--check', '--plans', '--journal', '-c' or '-i'",
    };
    let _ = eprintln!(rt; "error: {text}");
    2
}

/// Reports that a word is no line of a journal, and returns the exit status.
fn end_digits(rt: &impl Eprint, word: &str) -> u8 {
    let word = Shown(word);
    let _ = eprintln!(rt;
        "error: '{word}' is no line for '--verify <FILE> [LINE]': 64 digits, 0 to 9 and a to f, and no more words"
    );
    2
}

/// Tests a journal, and looks for the line in it that the words SCRIPT name.
fn verify_options(rt: &HostRuntime, options: &CommandLine<'_>, path: &str) -> u8 {
    match options.scripts.as_slice() {
        [] => verify(rt, path, None),
        [line] if is_seal(line) => verify(rt, path, Some(line)),
        [.., word] => end_digits(rt, word),
    }
}

/// Runs or checks the inputs that the options name, within this number of bytes of memory and with replies in a format,
/// and returns the exit status.
fn run_within(rt: &HostRuntime, options: &CommandLine<'_>, most: usize, format: Format) -> u8 {
    match options.inputs(rt.alloc()) {
        Ok(inputs) => answer_job(&Job {
            rt,
            check: options.check,
            plans: options.plans,
            echo: options.echo,
            titles: options.titles,
            quiet: options.quiet,
            journal: options.journal,
            bail: options.bail,
            inputs: inputs.as_slice(),
            most,
            format,
        }),
        Err(_) => end_lack(rt),
    }
}

/// Runs or checks the inputs that the options name, and returns the exit status.
fn run_options(rt: &HostRuntime, options: &CommandLine<'_>) -> u8 {
    if let Some(clash) = options.clash() {
        return end_clash(rt, clash);
    }
    if let Some(path) = options.verify {
        return verify_options(rt, options, path);
    }
    match (
        options.most_bytes(),
        options.reply_format(rt.stdout().is_terminal()),
    ) {
        (Some(most), Some(format)) => run_within(rt, options, most, format),
        (None, _) => end_size(rt, options.memory.unwrap_or("")),
        (Some(_), None) => end_format(rt, options.format.unwrap_or("")),
    }
}

/// Prints the message of a command line that starts no run: help and the version to the standard output, and a fault
/// to the standard error.
fn print_line(rt: &(impl Print + Eprint), error: &Error) -> u8 {
    let status = line_status(error);
    if error.print(rt).is_err() && status == 0 {
        let _ = eprintln!(rt; "tql: cannot write the standard output");
        return exit_status(&Err(Fault::Write));
    }
    status
}

/// Reports a command line that starts no run, and returns the exit status. An error may repeat a word, so it is made
/// from the words with their control characters replaced.
fn end_line(rt: &HostRuntime, words: &[String], error: &Error) -> u8 {
    let status = line_status(error);
    if status != 2 {
        return if status == 3 {
            end_lack(rt)
        } else {
            print_line(rt, error)
        };
    }
    let Ok(texts) = shown_words(rt.alloc(), words) else {
        return end_lack(rt);
    };
    match command_line(rt.alloc(), &texts) {
        Ok(_) => status,
        Err(error) => print_line(rt, &error),
    }
}

/// Returns the words of the command line, of which the first is the program's name, each option joined to its value.
fn words(rt: &HostRuntime) -> io::Result<Vec<String>> {
    let words: Vec<String> = env::args(rt)?.collect(rt.alloc())?;
    let joined = joined_words(rt.alloc(), &words)?;
    Ok(joined)
}

/// Reports that the words cannot be read, because memory ran out or a word is not UTF-8, and returns the exit status.
fn end_words(rt: &impl Eprint, error: &io::Error) -> u8 {
    match error.kind() {
        ErrorKind::OutOfMemory => end_lack(rt),
        _ => {
            let _ = eprintln!(rt; "error: the command line is not UTF-8");
            2
        }
    }
}

/// Runs the program, and returns its exit status.
fn run_words(rt: &HostRuntime) -> u8 {
    let words = match words(rt) {
        Ok(words) => words,
        Err(error) => return end_words(rt, &error),
    };
    match command_line(rt.alloc(), &words) {
        Ok(options) => run_options(rt, &options),
        Err(error) => end_line(rt, &words, &error),
    }
}

fn main(rt: HostRuntime) -> ExitCode {
    ExitCode::from(run_words(&rt))
}
