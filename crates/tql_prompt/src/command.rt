//! Commands to a prompt: lines that are no part of the script.
ghost use Rattle.std.specs.Prelude.{◌≡◌, option_map};
ghost use Rattle.std.specs.Str.{str_to_ascii_lowercase};
ghost use Rattle.tql_prompt.specs.Commands.{bare, command_of, cut_of, dotted, order_of, plain, trimmed, unterminated};

/// What a command asks for.
#[derive(Clone, Copy, PartialEq, Eq, Debug)]
pub enum Verb {
    Help,
    Quit,
    Tables,
    Schema,
    Read,
    Format,
    Output,
    Timer,
    Width,
    Echo,
    Plans,
    /// A word that begins with a point and is none of the others.
    Unknown,
}

/// A command: what it asks for, its first word, and the rest of its line.
#[derive(Clone, Copy)]
pub struct Command<'a> {
    pub verb: Verb,
    pub word: &'a str,
    pub argument: &'a str,
}

/// Returns a text without blanks at its ends.
fn without_blanks(text: &str) -> &str
    ensures { result.now ≡ trimmed text.now }
{
    text.trim_ascii()
}

/// Returns a text without the `;` at its end, if it has one.
fn without_semicolon(text: &str) -> &str
    ensures { result.now ≡ unterminated text.now }
{
    match text.strip_suffix(';') {
        Some(front) => front,
        None => text,
    }
}

/// Returns a line without blanks at its ends and without a `;` at its end.
fn bare_line(line: &str) -> &str
    ensures { result.now ≡ bare line.now }
{
    without_blanks(without_semicolon(without_blanks(line)))
}

/// Cuts a text at its first space, into a word and the rest without blanks at its ends.
fn cut(text: &str) -> (&str, &str)
    ensures word { result.0.now ≡ (cut_of text.now).word }
    ensures argument { result.1.now ≡ (cut_of text.now).argument }
{
    match text.split_once(' ') {
        Some((word, rest)) => (word, without_blanks(rest)),
        None => (text, ""),
    }
}

/// Returns what a word asks for that begins with a point.
fn dotted_verb(word: &str) -> Verb
    ensures { result ≡ dotted word.now }
{
    match word {
        ".help" => Verb::Help,
        ".quit" | ".exit" => Verb::Quit,
        ".tables" => Verb::Tables,
        ".schema" => Verb::Schema,
        ".read" => Verb::Read,
        ".format" => Verb::Format,
        ".output" => Verb::Output,
        ".timer" => Verb::Timer,
        ".width" => Verb::Width,
        ".echo" => Verb::Echo,
        ".plans" => Verb::Plans,
        _ => Verb::Unknown,
    }
}

/// Returns what a whole line asks for that does not begin with a point: `help`, `quit` or `exit`, in any case.
fn plain_verb(line: &str) -> Option<Verb>
    ensures { result ≡ plain (str_to_ascii_lowercase line.now) }
{
    if line.eq_ignore_ascii_case("help") {
        Some(Verb::Help)
    } else if line.eq_ignore_ascii_case("quit") || line.eq_ignore_ascii_case("exit") {
        Some(Verb::Quit)
    } else {
        None
    }
}

/// Returns the command that a line is, if it is one: its first byte that is no blank is a point, or it is `help`,
/// `quit` or `exit`. A `;` at the end of the line is no part of it.
pub fn command_in(line: &str) -> Option<Command<'_>>
    ensures { option_map order_of result ≡ command_of line.now }
{
    let line = bare_line(line);
    let (word, argument) = cut(line);
    if line.as_bytes().first() == Some(&b'.') {
        let verb = dotted_verb(word);
        return Some(Command {
            verb,
            word,
            argument,
        });
    }
    let verb = plain_verb(line)?;
    Some(Command {
        verb,
        word: line,
        argument: "",
    })
}
