//! The command line.
ghost use Rattle.std.specs.Prelude.{◌≡◌, ◌++◌, false, map, option_map, IfOk, string_bytes};
ghost use Rattle.clap.specs.Words.{FailsBy, app_of, found_of, rows_of, rule_of};
ghost use Rattle.tql_options.specs.CommandLine.{IsLineOf, Reads, faults_in, texts, tql_line, values_of};
ghost use Rattle.tql_options.specs.Described.{rule_told, IsGiven};
ghost use Rattle.tql_options.specs.CommandLine.{bound_of, format_of, input_named, inputs_of, named_format};
ghost use Rattle.tql_options.specs.Clashes.{asks_run, clash_in};
ghost use Rattle.tql_options.specs.declared.options.Input.TheVariants as input;

use crate::sizes::bytes_of;
use clap::{Arg, ArgAction, ArgMatches, Command, Error};
use std::alloc::{AllocError, Global};

/// The program's version, and the logic of the kits that its proofs are for (`rt version`).
static VERSION: &str =
    "0.1.0 (for Rattle kits with logic dac8208d650f15bf; verified if built by `make build`, not if by `make quick`)";

/// What help says below the arguments.
static NOTES: &str =
    "Each statement ends with `;`. Replies go to the standard output; which statements were refused, and why a run
stopped, go to the standard error. The scripts run in their order, then each TEXT, then with -i the standard input.
With --journal what they change is in FILE before its reply leaves; without it nothing is kept when the program ends.
The language is described in docs/LANGUAGE.md of the sources, which `make install` puts into share/doc/tql.

Exit status:
  0  no statement was refused; also after help and version
  1  some statement was refused; with --verify: FILE was changed, or has no such line
  2  the command line is wrong
  3  opening, reading or writing failed, or memory ran out before the first statement";

/// The format of the replies.
#[derive(Clone, Copy, PartialEq, Eq)]
pub enum Format {
    /// Lines of values separated by bars, and a count.
    Table,
    /// Boxes for people.
    Boxed,
    /// Comma-separated values.
    Csv,
    /// JSON, an object a reply.
    Json,
    /// JSON, an object a row.
    Jsonl,
}

/// Options that exclude each other.
#[derive(Clone, Copy, PartialEq, Eq)]
pub enum Clash {
    /// `--check` runs no query, so it has no plans.
    CheckAndPlans,
    /// `--check` changes nothing, so nothing is to be kept.
    CheckAndJournal,
    /// `--verify` runs nothing.
    VerifyAndRun,
}

/// An input of a run.
#[derive(Clone, Copy)]
pub enum Input<'a> {
    /// The standard input.
    Standard,
    /// The file of this name.
    File(&'a str),
    /// A text of the command line.
    Text(&'a str),
}

/// The parsed command line.
#[derive(Drop)]
pub struct CommandLine<'a> {
    /// Whether the scripts are checked, and not run.
    pub check: bool,
    /// Whether the run ends at the first refused statement.
    pub bail: bool,
    /// Whether the standard input is read after the other inputs.
    pub interactive: bool,
    /// Whether no line about refused statements is written to the standard error.
    pub quiet: bool,
    /// Whether the access paths of each query are written to the standard error.
    pub plans: bool,
    /// Whether each statement is written before its reply.
    pub echo: bool,
    /// Whether comments that begin with `--!` are written as titles.
    pub titles: bool,
    /// The word SIZE: the maximal number of bytes in use. Without it there is no bound.
    pub memory: Option<&'a str>,
    /// The word FORMAT: how replies are written.
    pub format: Option<&'a str>,
    /// The file that `--journal` names. It keeps each statement that changes the database.
    pub journal: Option<&'a str>,
    /// The journal that `--verify` names. It is tested, and not run.
    pub verify: Option<&'a str>,
    /// The words TEXT: scripts.
    pub commands: Vec<&'a str>,
    /// The words SCRIPT: the files of scripts.
    pub scripts: Vec<&'a str>,
}

/// Returns the format of this name.
pub fn format_named(word: &str) -> Option<Format>
    ensures { result ≡ named_format word.now }
{
    match word {
        "table" => Some(Format::Table),
        "box" => Some(Format::Boxed),
        "csv" => Some(Format::Csv),
        "json" => Some(Format::Json),
        "jsonl" => Some(Format::Jsonl),
        _ => None,
    }
}

/// Returns the input that a word SCRIPT names.
fn named_input(word: &str) -> Input<'_>
    ensures { result ≡ input_named word.entry }
{
    match word {
        "-" => Input::Standard,
        _ => Input::File(word),
    }
}

/// Adds the inputs that words SCRIPT name.
fn push_scripts<'a>(inputs: &mut Vec<Input<'a>>, words: &[&'a str]) -> Result<(), AllocError>
    ensures { IfOk result (λ _. inputs.new.items ≡ inputs.old.items ++ map input_named words.now) }
{
    for word in words {
        inputs.push(named_input(word))?;
    }
    Ok(())
}

/// Adds the inputs of words TEXT.
fn push_texts<'a>(inputs: &mut Vec<Input<'a>>, words: &[&'a str]) -> Result<(), AllocError>
    ensures { IfOk result (λ _. inputs.new.items ≡ inputs.old.items ++ map input.Text words.now) }
{
    for word in words {
        inputs.push(Input::Text(word))?;
    }
    Ok(())
}

impl<'a> CommandLine<'a> {
    /// Whether an option asks for a run, or for a check of statements.
    fn runs(&self) -> bool
        ensures { result ≡ asks_run self.now }
    {
        self.check
            || self.plans
            || self.interactive
            || self.journal.is_some()
            || !self.commands.is_empty()
    }

    /// Returns which options exclude each other, if some do.
    pub fn clash(&self) -> Option<Clash>
        ensures { result ≡ clash_in self.now }
    {
        if self.verify.is_some() && self.runs() {
            Some(Clash::VerifyAndRun)
        } else if self.check && self.plans {
            Some(Clash::CheckAndPlans)
        } else if self.check && self.journal.is_some() {
            Some(Clash::CheckAndJournal)
        } else {
            None
        }
    }

    /// Returns the maximal number of bytes in use: the word SIZE, or `usize::MAX` without it. None if the word is not a
    /// size.
    pub fn most_bytes(&self) -> Option<usize>
        ensures { result ≡ bound_of (option_map (λ s. s.now) self.now.memory) }
    {
        match self.memory {
            Some(word) => bytes_of(word),
            None => Some(usize::MAX),
        }
    }

    /// Returns the format of the replies, as the word FORMAT names it. Without that word it is boxes at a terminal, and
    /// plain tables elsewhere. None if the word names no format.
    pub fn reply_format(&self, is_terminal: bool) -> Option<Format>
        ensures { result ≡ format_of is_terminal (option_map (λ s. s.now) self.now.format) }
    {
        match self.format {
            None if is_terminal => Some(Format::Boxed),
            None => Some(Format::Table),
            Some(word) => format_named(word),
        }
    }

    /// Returns the inputs in the order in which they are read: the files that the words SCRIPT name, where `-` is the
    /// standard input; then each TEXT; then the standard input if `--interactive` is set or no other input is named.
    /// The only error is a refused allocation.
    pub fn inputs(&self, alloc: Global) -> Result<Vec<Input<'a>>, AllocError>
        ensures { IfOk result
            (λ v. v.items ≡ inputs_of self.now.scripts.items self.now.commands.items self.now.interactive) }
    {
        let mut inputs = Vec::new(alloc);
        push_scripts(&mut inputs, self.scripts.as_slice())?;
        push_texts(&mut inputs, self.commands.as_slice())?;
        if self.interactive || inputs.is_empty() {
            inputs.push(Input::Standard)?;
        }
        Ok(inputs)
    }
}

/// An argument of the command line, and its line of the help.
#[derive(Clone, Copy)]
struct Described<'a> {
    id: &'a str,
    long: Option<&'a str>,
    short: Option<char>,
    action: Option<ArgAction>,
    /// The name of its value, if it takes one after `--`.
    value: Option<&'a str>,
    help: &'a str,
}

/// A flag `--NAME` or an option without a short letter or a value.
const FLAG: Described<'static> = Described {
    id: "",
    long: None,
    short: None,
    action: Some(ArgAction::SetTrue),
    value: None,
    help: "",
};

/// The arguments, in the order of the help.
static ARGUMENTS: [Described<'static>; 13] = [
    Described {
        id: "check",
        long: Some("check"),
        help: "Only check each statement by the grammar",
        ..FLAG
    },
    Described {
        id: "bail",
        long: Some("bail"),
        help: "Stop at the first refused statement",
        ..FLAG
    },
    Described {
        id: "interactive",
        long: Some("interactive"),
        short: Some('i'),
        help: "Read the standard input after each SCRIPT and TEXT",
        ..FLAG
    },
    Described {
        id: "quiet",
        long: Some("quiet"),
        short: Some('q'),
        help: "Write no line to the standard error for a refused statement",
        ..FLAG
    },
    Described {
        id: "plans",
        long: Some("plans"),
        help: "Write the access paths of each query to the standard error",
        ..FLAG
    },
    Described {
        id: "echo",
        long: Some("echo"),
        help: "Write each statement before its reply, in the formats table and box",
        ..FLAG
    },
    Described {
        id: "titles",
        long: Some("titles"),
        help: "Write comments that begin with `--!` as titles, in the formats table and box",
        ..FLAG
    },
    Described {
        id: "memory",
        long: Some("memory"),
        action: None,
        value: Some("SIZE"),
        help: "Refuse what would take more than SIZE bytes of memory; SIZE may end in K, M or G",
        ..FLAG
    },
    Described {
        id: "format",
        long: Some("format"),
        action: None,
        value: Some("FORMAT"),
        help: "Write replies as table, box, csv, json or jsonl; the default is box at a terminal, else table",
        ..FLAG
    },
    Described {
        id: "journal",
        long: Some("journal"),
        action: None,
        value: Some("FILE"),
        help: "Run FILE first, silently, and keep in it each statement that changes the database",
        ..FLAG
    },
    Described {
        id: "verify",
        long: Some("verify"),
        action: None,
        value: Some("FILE"),
        help: "Test the journal FILE and print its last line; a SCRIPT is a line to look for in it",
        ..FLAG
    },
    Described {
        id: "command",
        long: Some("command"),
        short: Some('c'),
        action: Some(ArgAction::Append),
        value: Some("TEXT"),
        help: "Run TEXT as a script; its last statement needs no `;`",
    },
    Described {
        id: "SCRIPT",
        action: Some(ArgAction::Append),
        help: "A file of statements; `-` is the standard input, which is read too where nothing else is named",
        ..FLAG
    },
];

/// Returns a described argument.
fn argument<'a>(alloc: Global, described: Described<'a>) -> Arg<'a>
    ensures rule { rule_of result ≡ rule_told described.entry }
    ensures here { result.global ≡ false }
{
    let arg = Arg::new(alloc, described.id).help(described.help);
    let arg = match described.long {
        Some(long) => arg.long(long),
        None => arg,
    };
    let arg = match described.short {
        Some(short) => arg.short(short),
        None => arg,
    };
    let arg = match described.action {
        Some(action) => arg.action(action),
        None => arg,
    };
    match described.value {
        Some(name) => arg.value_name(name),
        None => arg,
    }
}

/// Adds the described arguments to a command, in their order.
fn with_arguments<'a>(
    alloc: Global,
    mut command: Command<'a>,
    arguments: &[Described<'a>],
) -> Result<Command<'a>, AllocError>
    ensures { IfOk result (λ made. IsGiven (app_of command.entry) arguments.now (app_of made)) }
{
    for described in arguments {
        command = command.arg(argument(alloc, *described))?;
    }
    Ok(command)
}

/// The rules of `tql [OPTIONS] [SCRIPT]...`, with `--help` and `--version`.
fn rules<'a>(alloc: Global) -> Result<Command<'a>, AllocError>
    ensures { IfOk result (λ command. app_of command ≡ tql_line) }
{
    let command = Command::new(alloc, "tql")
        .version(VERSION)
        .about("Runs scripts of SQL over tables in memory that keep every version of their rows")
        .after_help(NOTES);
    with_arguments(alloc, command, &ARGUMENTS)
}

/// Returns the values of an argument, in the order of the words.
fn values<'a>(alloc: Global, matches: &ArgMatches<'a>, id: &str) -> Result<Vec<&'a str>, AllocError>
    ensures { IfOk result (λ v. texts v.items ≡ values_of id.now (rows_of (found_of matches.now))) }
{
    let mut values = Vec::new(alloc);
    if let Some(words) = matches.get_strs(id) {
        values.extend_from_slice(words)?;
    }
    Ok(values)
}

/// Returns the command line of these matches.
fn line_of<'a>(alloc: Global, matches: &ArgMatches<'a>) -> Result<CommandLine<'a>, AllocError>
    ensures { IfOk result (λ line. IsLineOf (rows_of (found_of matches.now)) line) }
{
    let commands = values(alloc, matches, "command")?;
    let scripts = values(alloc, matches, "SCRIPT")?;
    Ok(CommandLine {
        check: matches.get_flag("check"),
        bail: matches.get_flag("bail"),
        interactive: matches.get_flag("interactive"),
        quiet: matches.get_flag("quiet"),
        plans: matches.get_flag("plans"),
        echo: matches.get_flag("echo"),
        titles: matches.get_flag("titles"),
        memory: matches.get_str("memory"),
        format: matches.get_str("format"),
        journal: matches.get_str("journal"),
        verify: matches.get_str("verify"),
        commands,
        scripts,
    })
}

/// Parses the command line `tql [OPTIONS] [SCRIPT]...`, whose first word is the program's name. An error is a request
/// for help or the version, a mistake in the words, or a refused allocation.
pub fn command_line<'a>(alloc: Global, words: &'a [String]) -> Result<CommandLine<'a>, Error>
    ensures reads { IfOk result (λ line. Reads (map string_bytes words.entry.now) line) }
    ensures fails { FailsBy (faults_in (map string_bytes words.entry.now)) result }
{
    let command = rules(alloc)?;
    let matches = command.try_get_matches_from(words)?;
    let line = line_of(alloc, &matches)?;
    Ok(line)
}
