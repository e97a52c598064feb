//! Lines about the indexes of periods, each a list of steps.
use crate::line::Line;
use crate::parts::{count, int, period, two};
use crate::stop::Stop;
use std::alloc::AllocError;
use tql_index::index::{Id, IntervalIndex};
use tql_index::span::Span;
use tql_list_index::list_index::ListIndex;
use tql_memory::Memory;
use tql_period::period::Period;
use tql_tree_index::tree_index::TreeIndex;

/// Parses an entry: a period and a number, with `#` between them.
fn entry(text: &str) -> Result<(Period, Id), Stop> {
    let (ends, id) = text.split_once('#').ok_or(Stop::Form)?;
    Ok((period(ends)?, count(id)?))
}

/// Writes numbers in ascending order, and the end of a step's result.
fn write_ids(out: &mut String, mut ids: Vec<Id, Memory>) -> Result<(), AllocError> {
    ids.sort()?;
    for id in &ids {
        write!(out, "{id} ")?;
    }
    out.push(';')
}

/// Parses a group, and returns it with the text after it.
fn grouped(text: &str) -> Result<(i64, &str), Stop> {
    let (group, rest) = two(text)?;
    Ok((int(group)?, rest))
}

/// Parses the span of a period in a group.
fn span(text: &str) -> Result<Span, Stop> {
    let (group, ends) = grouped(text)?;
    Ok(Span::within(group, period(ends)?))
}

/// Adds an entry in a group, or removes one and writes whether it was there.
fn change<I: IntervalIndex>(
    index: &mut I,
    out: &mut String,
    word: &str,
    (group, rest): (i64, &str),
) -> Result<(), Stop> {
    let (period, id) = entry(rest)?;
    let is_removed = match word {
        "add" => return Ok(index.add(period, id)?),
        "put" => return Ok(index.add_span(Span::within(group, period), id)?),
        "remove" => index.remove(period, id),
        _ => index.remove_span(Span::within(group, period), id),
    };
    out.push_str(if is_removed { "yes;" } else { "no;" })?;
    Ok(())
}

/// Returns the numbers of the entries that a step looks up.
fn found<I: IntervalIndex>(index: &I, word: &str, rest: &str) -> Result<Vec<Id, Memory>, Stop> {
    Ok(match word {
        "at" => index.stab(int(rest)?)?,
        "over" => index.overlapping(period(rest)?)?,
        "in" => index.sharing(span(rest)?)?,
        "all" => index.sharing(Span::all(int(rest)?))?,
        "groups" => {
            let (low, high) = grouped(rest)?;
            index.in_groups(low, int(high)?)?
        }
        _ => return Err(Stop::Form),
    })
}

/// Executes a step, and writes its result.
fn make<I: IntervalIndex>(index: &mut I, out: &mut String, step: &str) -> Result<(), Stop> {
    let (word, rest) = two(step)?;
    match word {
        "add" | "remove" => change(index, out, word, (0, rest)),
        "put" | "take" => change(index, out, word, grouped(rest)?),
        _ => Ok(write_ids(out, found(index, word, rest)?)?),
    }
}

/// Executes steps on a new index.
fn run<I: IntervalIndex>(memory: Memory, out: &mut String, steps: &str) -> Result<(), Stop> {
    let mut index = I::new(memory);
    for step in steps.split("; ") {
        make(&mut index, out, step)?;
    }
    Ok(())
}

/// Answers a line about indexes.
pub fn answer(memory: Memory, line: &Line<'_>, out: &mut String) -> Result<(), Stop> {
    match line.command {
        "list" => run::<ListIndex>(memory, out, line.input),
        "tree" => run::<TreeIndex>(memory, out, line.input),
        _ => Err(Stop::Form),
    }
}
