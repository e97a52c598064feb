//! Lines about the comparison and order of values, copies, texts, numbers of tables, and refusals.
use crate::line::Line;
use crate::parts::{count, sides, two, view, write_view};
use crate::stop::Stop;
use std::alloc::AllocError;
use std::cmp::Ordering;
use std::hash::{DefaultHasher, Hasher};
use tql_digest::{absorb, digest_alone};
use tql_memory::Memory;
use tql_value::comparison::{Comparison, compare, order};
use tql_value::refusal::Refusal;
use tql_value::table::TableId;
use tql_value::text::{Text, characters};
use tql_value::truth::Truth;
use tql_value::value::{Kind, Value, View};

static SIGNS: [Comparison; 6] = [
    Comparison::Equal,
    Comparison::NotEqual,
    Comparison::Less,
    Comparison::LessOrEqual,
    Comparison::Greater,
    Comparison::GreaterOrEqual,
];

static REFUSALS: [Refusal; 25] = [
    Refusal::OutOfMemory,
    Refusal::NotAStatement,
    Refusal::NotUtf8,
    Refusal::UnfinishedStatement,
    Refusal::StatementTooLong,
    Refusal::NestedTooDeep,
    Refusal::TooManyColumnsOrTables,
    Refusal::TooManyTablesOrReaders,
    Refusal::TableUnknownOrAlreadyThere,
    Refusal::NameUnknownAmbiguousOrRepeated,
    Refusal::TypesDoNotFit,
    Refusal::FormNotAllowedHere,
    Refusal::TableIsReferenced,
    Refusal::ValueOutOfRange,
    Refusal::PortionNotRising,
    Refusal::NullNotAllowed,
    Refusal::PeriodNotRising,
    Refusal::CheckFailed,
    Refusal::DuplicateKey,
    Refusal::ReferenceNotMet,
    Refusal::NotInThisTransactionState,
    Refusal::MomentNotAllowed,
    Refusal::BeforeTheHorizon,
    Refusal::ReaderNotUsable,
    Refusal::ReadersAreOpen,
];

/// Returns the letter of a truth value: `F`, `U` or `T`.
fn letter(truth: Truth) -> char {
    match truth {
        Truth::False => 'F',
        Truth::Unknown => 'U',
        Truth::True => 'T',
    }
}

/// Writes the result of each comparison of two values, and their order.
fn write_comparison(out: &mut String, text: &str) -> Result<(), Stop> {
    let (a, b) = sides(text)?;
    let (a, b) = (view(a)?, view(b)?);
    for &sign in &SIGNS {
        out.push(letter(compare(sign, a, b)))?;
    }
    out.push_str(match order(a, b) {
        Ordering::Less => " less",
        Ordering::Equal => " equal",
        Ordering::Greater => " greater",
    })?;
    Ok(())
}

fn write_kind(out: &mut String, kind: Option<Kind>) -> Result<(), AllocError> {
    out.push_str(match kind {
        None => "none",
        Some(Kind::Int) => "number",
        Some(Kind::Text) => "text",
        Some(Kind::Day) => "day",
        Some(Kind::Moment) => "moment",
    })
}

/// Writes a value, and a copy of it.
fn write_copies(out: &mut String, memory: Memory, view: View<'_>) -> Result<(), Stop> {
    let value = view.to_value(memory)?;
    write_view(out, value.view())?;
    out.push_str(" and ")?;
    let copy: Value = value.clone()?;
    write_view(out, copy.view())?;
    Ok(())
}

/// Writes the number of characters of a text, and the number of its bytes.
fn write_lengths(out: &mut String, memory: Memory, content: &str) -> Result<(), Stop> {
    let text = Text::from(String::from_str(memory, content)?);
    let characters = characters(text.as_str());
    write!(out, "{} of {} bytes", characters, text.as_str().len())?;
    Ok(())
}

fn write_table(out: &mut String, number: usize) -> Result<(), Stop> {
    match TableId::new(u16::try_from(number).ok().ok_or(Stop::Form)?) {
        Some(table) => write!(out, "{}", table.number())?,
        None => out.push_str("none")?,
    }
    Ok(())
}

/// Returns the refusal with this number.
pub fn refusal(number: &str) -> Result<Refusal, Stop> {
    let number = count(number)?;
    for &refusal in &REFUSALS {
        if refusal.number() as usize == number {
            return Ok(refusal);
        }
    }
    Err(Stop::Form)
}

/// Writes the rank of a refusal in the order of report, its text, and how it is displayed.
fn write_refusal(out: &mut String, refusal: Refusal) -> Result<(), Stop> {
    write!(out, "{} {} = {refusal}", refusal.place(), refusal.text())?;
    Ok(())
}

/// Writes the digest of one value, or of two.
fn write_digest(out: &mut String, text: &str) -> Result<(), Stop> {
    let digest = match text.split_once(" | ") {
        None => digest_alone(view(text)?),
        Some((a, b)) => absorb(absorb(DefaultHasher::new(), view(a)?), view(b)?).finish(),
    };
    write!(out, "{digest}")?;
    Ok(())
}

/// Answers a line about values.
pub fn answer(memory: Memory, line: &Line<'_>, out: &mut String) -> Result<(), Stop> {
    match line.command {
        "compare" => write_comparison(out, line.input),
        "kind" => Ok(write_kind(out, view(line.input)?.kind())?),
        "copies" => write_copies(out, memory, view(line.input)?),
        "lengths" => write_lengths(out, memory, line.input),
        "table" => write_table(out, count(line.input)?),
        "refusal" => write_refusal(out, refusal(line.input)?),
        "earlier" => {
            let (a, b) = two(line.input)?;
            write!(out, "{}", refusal(a)?.earlier(refusal(b)?).number())?;
            Ok(())
        }
        "digest" => write_digest(out, line.input),
        _ => Err(Stop::Form),
    }
}
