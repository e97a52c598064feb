//! What the commands of a prompt do besides running statements.
use crate::engine::Engine;
use crate::settings::{Replies, Settings};
use crate::shown::Shown;
use std::alloc::AllocError;
use std::cell::Cell;
use std::fs::File;
use std::io::Write;
use tql_catalog::table_def::TableDef;
use tql_options::options::Format;
use tql_prompt::command::{Command, Verb};
use tql_prompt::values::{switch, width};
use tql_run::responder::Responder;
use tql_schema::schema::{schema_text, table_name};

/// Writes a line about a command.
fn say(rt: &impl Eprint, line: &str) {
    let _ = eprintln!(rt; "{line}");
}

/// Reports that a word is no command.
fn say_unknown(rt: &impl Eprint, word: &str) {
    let word = Shown(word);
    let _ = eprintln!(rt; "there is no command {word}; .help lists them");
}

/// Reports that a command lacks a file.
pub fn say_lacks_file(rt: &impl Eprint, word: &str) {
    let word = Shown(word);
    let _ = eprintln!(rt; "{word} needs a FILE");
}

/// Reports which format is set, and which there are.
pub fn say_format(rt: &impl Eprint, format: Format) {
    let name = match format {
        Format::Table => "table",
        Format::Boxed => "box",
        Format::Csv => "csv",
        Format::Json => "json",
        Format::Jsonl => "jsonl",
    };
    let _ = eprintln!(rt; "the format is {name}; there are table, box, csv, json and jsonl");
}

/// Sets a switch, or reports how it is set.
fn set_switch(rt: &impl Eprint, command: Command<'_>, setting: &Cell<bool>) {
    match switch(command.argument) {
        Some(is_on) => setting.set(is_on),
        None => {
            let word = Shown(command.word);
            let state = if setting.get() { "on" } else { "off" };
            let _ = eprintln!(rt; "{word} is {state}; write {word} on or {word} off");
        }
    }
}

/// Sets the width of the terminal, or reports it.
fn set_width(rt: &impl Eprint, word: &str, settings: &Settings) {
    match width(word) {
        Some(width) => settings.width.set(width),
        None => {
            let width = settings.width.get();
            let _ = eprintln!(rt; "the width is {width}; .width N sets it, N from 20 to 10000");
        }
    }
}

/// Sends replies to a file, or to the terminal again without one.
fn set_output(rt: &HostRuntime, path: &str, settings: &Settings) {
    settings.output.set(None);
    if path.is_empty() {
        return;
    }
    match File::create(rt, path) {
        Ok(file) => settings.output.set(Some(file)),
        Err(error) => {
            let path = Shown(path);
            let _ = eprintln!(rt; "cannot write {path}: {error}");
        }
    }
}

/// Writes a text where replies go, and a line feed. What cannot be written is lost.
fn reply(rt: &HostRuntime, settings: &Settings, text: &str) {
    let mut replies = Replies::new(rt, settings);
    let _ = replies.write_all(text.as_bytes());
    let _ = replies.write_all(b"\n");
}

/// Returns the definitions of all tables. The only error is a refused allocation.
fn definitions<'e>(rt: &HostRuntime, engine: &'e Engine) -> Result<Vec<&'e TableDef>, AllocError> {
    let mut definitions = Vec::new(rt.alloc());
    for place in 0..engine.table_count() {
        if let Some(definition) = engine.table_definition(place) {
            definitions.push(definition)?;
        }
    }
    Ok(definitions)
}

/// Writes the names of the tables.
fn list_tables(rt: &HostRuntime, settings: &Settings, engine: &Engine) -> Result<(), AllocError> {
    let definitions = definitions(rt, engine)?;
    if definitions.is_empty() {
        say(rt, "there are no tables");
    }
    for definition in &definitions {
        let name = table_name(engine.memory(), definition)?;
        reply(rt, settings, name.as_str());
    }
    Ok(())
}

/// Returns a name without the double quotes around it.
fn without_quotes(name: &str) -> &str {
    let name = name.strip_prefix('"').unwrap_or(name);
    name.strip_suffix('"').unwrap_or(name)
}

/// Writes the CREATE TABLE of the table of a name, in any case, or of all without a name.
fn list_schemas(
    rt: &HostRuntime,
    settings: &Settings,
    engine: &Engine,
    name: &str,
) -> Result<(), AllocError> {
    let definitions = definitions(rt, engine)?;
    let name = without_quotes(name);
    let mut is_found = name.is_empty();
    for definition in &definitions {
        if name.is_empty() || definition.name().eq_ignore_ascii_case(name) {
            is_found = true;
            let text = schema_text(engine.memory(), definitions.as_slice(), definition)?;
            reply(rt, settings, text.as_str());
        }
    }
    if !is_found {
        let name = Shown(name);
        let _ = eprintln!(rt; "there is no table {name}");
    }
    Ok(())
}

/// Writes what there is of tables: their names, or the CREATE TABLE of those that an argument names.
fn list(rt: &HostRuntime, command: Command<'_>, settings: &Settings, engine: Option<&Engine>) {
    let outcome = match engine {
        None => {
            say(rt, "there are no tables");
            Ok(())
        }
        Some(engine) if command.verb == Verb::Tables => list_tables(rt, settings, engine),
        Some(engine) => list_schemas(rt, settings, engine, command.argument),
    };
    if outcome.is_err() {
        say(rt, "tql: out of memory");
    }
}

/// Obeys a command that only sets or lists something.
pub fn obey(rt: &HostRuntime, command: Command<'_>, settings: &Settings, engine: Option<&Engine>) {
    match command.verb {
        Verb::Tables | Verb::Schema => list(rt, command, settings, engine),
        Verb::Output => set_output(rt, command.argument, settings),
        Verb::Width => set_width(rt, command.argument, settings),
        Verb::Timer => set_switch(rt, command, &settings.timer),
        Verb::Echo => set_switch(rt, command, &settings.echo),
        Verb::Plans => set_switch(rt, command, &settings.plans),
        _ => say_unknown(rt, command.word),
    }
}
