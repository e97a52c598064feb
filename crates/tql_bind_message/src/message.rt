//! Builds the message of a fault, which quotes the words of the statement.
use crate::literals::{first_fault, push_literal_hint};
use crate::names::push_key;
use crate::slips::{begins_with, is_column_alone, push_group_hint, push_last_hint, push_slip_hint};
use crate::wording::parts;
use std::alloc::AllocError;
use tql_bind_expr::about::{About, Cause};
use tql_catalog::catalog::Catalog;
use tql_catalog::table_def::TableDef;
use tql_detail::detail::Detail;
use tql_detail::place::Place;
use tql_detail::shown::{Words, push_shown};
use tql_memory::Memory;
use tql_near_names::nearest::{Nearest, Part, nearest_part, nearest_table};
use tql_near_names::piece::{has_word, is_quoted_name, last_name, meant, piece};
use tql_value::value::Kind;

/// The maximum number of parts in braces in a wording.
const MOST_PARTS: usize = 8;

/// Returns a type as it is written.
fn type_words(kind: Option<Kind>) -> &'static str {
    match kind {
        Some(Kind::Int) => "INTEGER",
        Some(Kind::Text) => "VARCHAR",
        Some(Kind::Day) => "DATE",
        Some(Kind::Moment) => "TIMESTAMP",
        None => "of no known type",
    }
}

/// Adds the keys of a table.
fn push_keys(words: &mut Words, table: &TableDef) -> Result<(), AllocError> {
    if table.keys().is_empty() {
        return words.push_str("it has no key");
    }
    words.push_str("its keys are ")?;
    let mut before = "";
    for key in table.keys() {
        words.push_str(before)?;
        push_key(words, table, key)?;
        before = ", ";
    }
    Ok(())
}

/// Returns the table of this number, if there is one.
fn table_at(catalog: &Catalog, number: u32) -> Option<&TableDef> {
    match usize::try_from(number) {
        Ok(place) if place < catalog.len() => Some(&catalog.table(place).definition),
        _ => None,
    }
}

/// Adds a number of things, in the singular or the plural.
fn push_count(words: &mut Words, number: u32, thing: &str) -> Result<(), AllocError> {
    let plural = if number == 1 { "" } else { "s" };
    write!(words, "{number} {thing}{plural}")
}

/// Adds the value of a part in braces that is a number or describes a table.
fn push_number(
    words: &mut Words,
    part: &str,
    catalog: &Catalog,
    about: &About,
) -> Result<(), AllocError> {
    match part {
        "values" => push_count(words, about.count, "value"),
        "columns" => push_count(words, about.count, "column"),
        "wanted columns" => push_count(words, about.wanted, "column"),
        "number" => write!(words, "{}", about.count.saturating_add(1)),
        "wanted" => write!(words, "{}", about.wanted),
        _ => match table_at(catalog, about.count) {
            Some(table) if part == "keys" => push_keys(words, table),
            Some(table) => push_shown(words, table.name()),
            None => Ok(()),
        },
    }
}

/// Adds the value of a part in braces.
fn push_part(
    words: &mut Words,
    part: &str,
    text: &str,
    catalog: &Catalog,
    about: &About,
) -> Result<(), AllocError> {
    match part {
        "at" => push_shown(words, piece(text, about.at)),
        "to" => push_shown(words, piece(text, about.to)),
        "also" => push_shown(words, piece(text, about.also)),
        "kind" => words.push_str(type_words(about.kind)),
        "other" => words.push_str(type_words(about.other)),
        _ => push_number(words, part, catalog, about),
    }
}

/// Adds a part of a wording.
fn push_wording(
    words: &mut Words,
    wording: &str,
    text: &str,
    catalog: &Catalog,
    about: &About,
) -> Result<(), AllocError> {
    let mut left = wording;
    for _part in 0..MOST_PARTS {
        let Some((plain, rest)) = left.split_once('{') else {
            break;
        };
        words.push_str(plain)?;
        let Some((part, rest)) = rest.split_once('}') else {
            return Ok(());
        };
        push_part(words, part, text, catalog, about)?;
        left = rest;
    }
    words.push_str(left)
}

/// Returns the name that was probably meant by a written name that does not exist.
fn nearest_name<'a>(
    memory: Memory,
    written: &str,
    text: &str,
    catalog: &'a Catalog,
    cause: Cause,
) -> Result<Option<&'a str>, AllocError> {
    let name = meant(memory, written)?;
    let nearest = match cause {
        Cause::NoTable => nearest_table(name.as_str(), catalog),
        _ if begins_with(text, "CREATE") => Nearest::none(),
        Cause::NoColumn => nearest_part(memory, name.as_str(), Part::Column, text, catalog)?,
        Cause::NoPeriod | Cause::NotOnePeriod => {
            nearest_part(memory, name.as_str(), Part::Period, text, catalog)?
        }
        _ => Nearest::none(),
    };
    Ok(nearest.name())
}

/// Adds a name as it is written in a statement.
fn push_name(words: &mut Words, name: &str) -> Result<(), AllocError> {
    if !is_quoted_name(name) {
        return push_shown(words, name);
    }
    words.push_str("\"")?;
    push_shown(words, name)?;
    words.push_str("\"")
}

/// Adds a question for the name that was probably meant by one that does not exist, if there is a similar one. A column
/// in double quotes may also have been meant as a text.
fn push_name_hint(
    memory: Memory,
    words: &mut Words,
    text: &str,
    catalog: &Catalog,
    about: &About,
) -> Result<(), AllocError> {
    let written = last_name(piece(text, about.at));
    match nearest_name(memory, written, text, catalog, about.cause)? {
        Some(name) => {
            words.push_str("did you mean ")?;
            push_name(words, name)?;
            words.push_str("?")
        }
        None if about.cause == Cause::NoColumn && written.starts_with('"') => {
            words.push_str("write a text in single quotes")
        }
        None => Ok(()),
    }
}

/// Returns what to write instead, or no words: by this part of the wording, and by the tables.
fn hint_for(
    memory: Memory,
    wording: &str,
    text: &str,
    catalog: &Catalog,
    about: &About,
) -> Result<Words, AllocError> {
    let mut hint = String::new(memory);
    push_literal_hint(memory, &mut hint, text, about)?;
    push_slip_hint(memory, &mut hint, text, catalog, about)?;
    if hint.as_str().is_empty() {
        push_wording(&mut hint, wording, text, catalog, about)?;
    }
    if hint.as_str().is_empty() {
        push_name_hint(memory, &mut hint, text, catalog, about)?;
    }
    if hint.as_str().is_empty() {
        push_last_hint(memory, &mut hint, text, catalog, about)?;
    }
    Ok(hint)
}

/// Returns a more exact cause, as the words of the statement show it: a column is also ambiguous if two table
/// references have one name, and a point in time that is not valid is a literal after the name that it is given for.
fn sharpened(text: &str, about: About) -> About {
    let first = piece(text, about.to);
    if about.cause == Cause::Ambiguous && first.eq_ignore_ascii_case(piece(text, about.also)) {
        return About::at(Cause::SameReference, about.to);
    }
    match usize::try_from(about.at) {
        Ok(from) if about.cause == Cause::NoPoint => first_fault(text, from).unwrap_or(about),
        _ => about,
    }
}

/// Returns the table that qualifies an unknown column, if no table reference of the statement has that name. Then the
/// name occurs in the statement only before a dot.
fn unknown_reference<'a>(text: &'a str, about: &About) -> Option<&'a str> {
    if about.cause != Cause::NoColumn {
        return None;
    }
    let (reference, _) = piece(text, about.at).split_once('.')?;
    if reference.starts_with('"') || has_word(text, reference) {
        None
    } else {
        Some(reference)
    }
}

/// Returns a detail of these words, and of this hint unless it is empty.
fn detail_with(words: Words, hint: Words) -> Detail {
    let mut detail = Detail::of(words);
    if !hint.as_str().is_empty() {
        detail.hint = Some(hint);
    }
    detail
}

/// Returns what is wrong and what to write, if the words of the statement show it better than the cause.
fn exact_detail(
    memory: Memory,
    text: &str,
    catalog: &Catalog,
    about: &About,
) -> Result<Option<Detail>, AllocError> {
    let mut words = String::new(memory);
    let mut hint = String::new(memory);
    if let Some(reference) = unknown_reference(text, about) {
        words.push_str("no table reference is named ")?;
        push_shown(&mut words, reference)?;
        let name = meant(memory, reference)?;
        if begins_with(text, "SELECT") && catalog.place_of(name.as_str()).is_some() {
            hint.push_str("join it: write JOIN ")?;
            push_shown(&mut hint, reference)?;
            hint.push_str(" ON and a condition")?;
        }
    } else if about.cause == Cause::LooseColumn && is_column_alone(text, about.at) {
        push_shown(&mut words, piece(text, about.at))?;
        words.push_str(" is not grouped")?;
        push_group_hint(&mut hint, text, about.at)?;
    } else {
        return Ok(None);
    }
    Ok(Some(detail_with(words, hint)))
}

/// Returns what is wrong and what to write.
fn detail_of(
    memory: Memory,
    text: &str,
    catalog: &Catalog,
    about: &About,
) -> Result<Detail, AllocError> {
    if let Some(detail) = exact_detail(memory, text, catalog, about)? {
        return Ok(detail);
    }
    let mut words = String::new(memory);
    let (wrong, says) = parts(about.cause);
    push_wording(&mut words, wrong, text, catalog, about)?;
    let hint = hint_for(memory, says, text, catalog, about)?;
    Ok(detail_with(words, hint))
}

/// Returns the place at an offset of a text, if the offset is known.
fn place_at(text: &str, offset: u32) -> Option<Place> {
    match usize::try_from(offset) {
        Ok(offset) if offset != 0 => {
            let before = text.get(..offset).unwrap_or("");
            Some(Place::behind(before.as_bytes()))
        }
        _ => None,
    }
}

/// Returns the detail of a statement with this first fault: what is wrong, what to write, and the place of the fault,
/// as far as they are known. `text` is the text of the statement, and `catalog` has the tables over which it was
/// refused. None if the cause is not known.
///
/// # Errors
///
/// The only error is a refused allocation.
pub fn message(
    memory: Memory,
    text: &[u8],
    catalog: &Catalog,
    about: About,
) -> Result<Option<Detail>, AllocError> {
    if about.cause == Cause::Unknown {
        return Ok(None);
    }
    let Ok(text) = str::from_utf8(text) else {
        return Ok(None);
    };
    let about = sharpened(text, about);
    let mut detail = detail_of(memory, text, catalog, &about)?;
    detail.place = place_at(text, about.at);
    Ok(Some(detail))
}
