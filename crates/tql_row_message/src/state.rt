//! Details about the state of transactions, the clock, the horizon and readers.
use crate::cells::push_view;
use std::alloc::AllocError;
use tql_detail::detail::Detail;
use tql_detail::shown::{Words, push_shown};
use tql_memory::Memory;
use tql_value::calendar::HIGH;
use tql_value::value::View;

/// Returns a detail of these words alone. None if there is no memory for it.
pub fn plain_detail(memory: Memory, words: &str) -> Option<Detail> {
    let words = String::from_str(memory, words).ok()?;
    Some(Detail::of(words))
}

/// Returns words with a moment after them.
fn with_moment(memory: Memory, words: &str, moment: i64) -> Result<Words, AllocError> {
    let mut words = String::from_str(memory, words)?;
    push_view(&mut words, View::Moment(moment))?;
    Ok(words)
}

/// Returns words with a name after them.
fn with_name(memory: Memory, words: &str, name: &str) -> Result<Words, AllocError> {
    let mut words = String::from_str(memory, words)?;
    push_shown(&mut words, name)?;
    Ok(words)
}

/// Returns the detail of a statement that does not fit the state of the transaction (E40), by whether one is open.
pub fn transaction_detail(memory: Memory, is_open: bool) -> Option<Detail> {
    let (words, hint) = if is_open {
        ("a transaction is open", "end it with COMMIT or ROLLBACK")
    } else {
        ("no transaction is open", "open one with START TRANSACTION")
    };
    let mut detail = plain_detail(memory, words)?;
    detail.advise(hint).ok()?;
    detail.in_transaction = is_open;
    Some(detail)
}

/// Returns the detail of a moment that the clock cannot take (E41), from the clock and the moment of the last commit,
/// in microseconds since 1970-01-01.
pub fn clock_detail(memory: Memory, clock: i64, last: Option<i64>) -> Option<Detail> {
    if HIGH <= clock {
        return plain_detail(memory, "the clock has no moment left");
    }
    let words = with_moment(memory, "the last commit was at ", last?).ok()?;
    let mut detail = Detail::of(words);
    let hint = "write a later moment: a late correction is recorded when it is made";
    detail.advise(hint).ok()?;
    Some(detail)
}

/// Returns the words that say that a moment is before the horizon.
fn early_words(memory: Memory, moment: i64, horizon: i64) -> Result<Words, AllocError> {
    let mut words = with_moment(memory, "", moment)?;
    words.push_str(" is before the horizon, ")?;
    push_view(&mut words, View::Moment(horizon))?;
    Ok(words)
}

/// Returns the detail of a statement with a moment before the horizon (E45), from the horizon and, if known, that
/// moment. Both are in microseconds since 1970-01-01.
pub fn horizon_detail(memory: Memory, horizon: i64, moment: Option<i64>) -> Option<Detail> {
    let words = match moment {
        Some(moment) => early_words(memory, moment, horizon),
        None => with_moment(memory, "the horizon is ", horizon),
    };
    Some(Detail::of(words.ok()?))
}

/// Returns the words that say whether a reader is open.
fn open_words(memory: Memory, name: &str, is_open: bool) -> Result<Words, AllocError> {
    let mut words = with_name(memory, "reader ", name)?;
    words.push_str(if is_open {
        " is already open"
    } else {
        " is not open"
    })?;
    Ok(words)
}

/// Returns the detail of a statement that opens an open reader, uses one that is not open, or reads a table without
/// system versioning in a reader (E46).
pub fn reader_detail(memory: Memory, name: &str, opens: bool, is_open: bool) -> Option<Detail> {
    if is_open && !opens {
        return plain_detail(memory, "READ takes tables WITH SYSTEM VERSIONING only");
    }
    let words = open_words(memory, name, is_open).ok()?;
    Some(Detail::of(words))
}

/// Returns the words for the open readers that prevent a statement.
fn reader_words(memory: Memory, name: &str, others: usize) -> Result<Words, AllocError> {
    let mut words = with_name(memory, "reader ", name)?;
    if others == 0 {
        words.push_str(" is open")?;
    } else {
        write!(&mut words, " and {others} more are open")?;
    }
    Ok(words)
}

/// Returns the detail of a statement that open readers prevent (E47): the name of one, and the number of the others.
pub fn readers_detail(memory: Memory, name: &str, others: usize) -> Option<Detail> {
    let words = reader_words(memory, name, others).ok()?;
    Some(Detail::of(words))
}
