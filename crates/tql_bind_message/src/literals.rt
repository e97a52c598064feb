//! Literals of another form or type than is needed, and what was probably meant. A literal is only offered if it means
//! the same.
use std::alloc::AllocError;
use tql_bind_expr::about::{About, Cause};
use tql_detail::shown::Words;
use tql_memory::Memory;
use tql_near_names::piece::{piece, text_after, text_from};
use tql_value::literal::{read_date, read_timestamp};
use tql_value::value::Kind;

/// Returns the text in the quotes of a literal: of a text, or after DATE or TIMESTAMP.
fn content(literal: &str) -> Option<&str> {
    let (word, rest) = literal.split_once('\'')?;
    let (text, _) = rest.split_once('\'')?;
    let word = word.trim_end();
    let is_literal = word.is_empty()
        || word.eq_ignore_ascii_case("DATE")
        || word.eq_ignore_ascii_case("TIMESTAMP");
    if is_literal { Some(text) } else { None }
}

/// Returns the offset of this word at the end of a text, if it ends so.
fn last_word_start(text: &str, word: &str) -> Option<usize> {
    let start = text.len().checked_sub(word.len())?;
    if text.get(start..)?.eq_ignore_ascii_case(word) {
        Some(start)
    } else {
        None
    }
}

/// Returns the fault of the literal whose text opens at this offset, if it is a DATE or a TIMESTAMP of another form.
fn fault_at(text: &str, place: usize) -> Option<About> {
    let before = text.get(..place)?.strip_suffix(' ')?;
    let inside = content(text.get(place..)?)?;
    let (cause, start) = match last_word_start(before, "TIMESTAMP") {
        Some(start) if read_timestamp(inside).is_none() => (Cause::NoMoment, start),
        Some(_) => return None,
        None if read_date(inside).is_none() => (Cause::NoDay, last_word_start(before, "DATE")?),
        None => return None,
    };
    Some(About::at(cause, u32::try_from(start).ok()?))
}

/// Returns the fault of the first DATE or TIMESTAMP of another form from this offset on.
pub fn first_fault(text: &str, from: usize) -> Option<About> {
    let mut is_open = false;
    for (place, byte) in text.as_bytes().iter().enumerate() {
        if *byte == b'\'' {
            is_open = !is_open;
            if is_open && from <= place {
                if let Some(fault) = fault_at(text, place) {
                    return Some(fault);
                }
            }
        }
    }
    None
}

/// Adds a date as it is written.
fn push_date(words: &mut Words, day: &str) -> Result<(), AllocError> {
    write!(words, "write DATE '{day}'")
}

/// Adds a timestamp as it is written, from its start and its end.
fn push_timestamp(words: &mut Words, start: &str, end: &str) -> Result<(), AllocError> {
    write!(words, "write TIMESTAMP '{start}{end}'")
}

/// Returns the date `YYYY-MM-DD` of a text that has its parts at these positions.
fn date_of_parts(
    memory: Memory,
    text: &str,
    year: usize,
    month: usize,
    day: usize,
) -> Result<Option<Words>, AllocError> {
    if text.len() != 10 {
        return Ok(None);
    }
    let year = text.get(year..year.saturating_add(4)).unwrap_or("");
    let month = text.get(month..month.saturating_add(2)).unwrap_or("");
    let day = text.get(day..day.saturating_add(2)).unwrap_or("");
    let date = format!(in memory; "{year}-{month}-{day}")?;
    if read_date(date.as_str()).is_some() {
        Ok(Some(date))
    } else {
        Ok(None)
    }
}

/// Returns the day of a text that is the midnight at which it begins.
fn midnight_day(text: &str) -> Option<&str> {
    let (day, time) = text.split_once(' ')?;
    if time == "00:00:00" && read_date(day).is_some() {
        Some(day)
    } else {
        None
    }
}

/// Whether a byte is of the form `YYYY-MM-DD` at this position.
fn fits_form(place: usize, byte: u8) -> bool {
    match place {
        4 | 7 => byte == b'-',
        _ => byte.is_ascii_digit(),
    }
}

/// Whether a text has the form `YYYY-MM-DD`.
fn has_day_form(text: &str) -> bool {
    for (place, byte) in text.as_bytes().iter().enumerate() {
        if !fits_form(place, *byte) {
            return false;
        }
    }
    text.len() == 10
}

/// The hint for a day of the right form that is not in the calendar.
const NO_SUCH_DAY: &str = "there is no such day from 0001-01-01 to 9999-12-31";

/// Adds what was probably meant by the text of a DATE of another form.
fn push_meant_date(memory: Memory, words: &mut Words, text: &str) -> Result<(), AllocError> {
    if text.eq_ignore_ascii_case("infinity") {
        return words.push_str("for no end write DATE '9999-12-31'");
    }
    if let Some(day) = midnight_day(text) {
        return push_date(words, day);
    }
    if has_day_form(text) {
        return words.push_str(NO_SUCH_DAY);
    }
    if let Some(date) = date_of_parts(memory, text, 0, 5, 8)? {
        return push_date(words, date.as_str());
    }
    if text.as_bytes().get(2) == Some(&b'.')
        && let Some(date) = date_of_parts(memory, text, 6, 3, 0)?
    {
        push_date(words, date.as_str())?;
        return words.push_str(" if the day comes first");
    }
    let first = format!(in memory; "{text}-01")?;
    if read_date(first.as_str()).is_some() {
        words.push_str("a day is missing: ")?;
        push_date(words, first.as_str())?;
    }
    Ok(())
}

/// Adds what was probably meant by the text of a TIMESTAMP of another form.
fn push_meant_timestamp(memory: Memory, words: &mut Words, text: &str) -> Result<(), AllocError> {
    if read_date(text).is_some() {
        return push_timestamp(words, text, " 00:00:00");
    }
    let (Some(day), Some(time)) = (text.get(..10), text.get(11..)) else {
        return Ok(());
    };
    if has_day_form(day) && read_date(day).is_none() {
        return words.push_str(NO_SUCH_DAY);
    }
    if time.starts_with("24:") {
        return words.push_str("hours are from 00 to 23; midnight is 00:00:00 of the next day");
    }
    let time = time.strip_suffix('Z').unwrap_or(time);
    let whole = format!(in memory; "{day} {time}")?;
    let minutes = format!(in memory; "{day} {time}:00")?;
    if read_timestamp(whole.as_str()).is_some() {
        push_timestamp(words, whole.as_str(), "")
    } else if read_timestamp(minutes.as_str()).is_some() {
        push_timestamp(words, minutes.as_str(), "")
    } else {
        Ok(())
    }
}

/// Whether a text consists of digits.
fn is_number(text: &str) -> bool {
    !text.is_empty() && text.bytes().all(|byte| byte.is_ascii_digit())
}

/// Adds how to write the literal with this text, of type `kind`, as one of type `wanted`.
fn push_as(words: &mut Words, text: &str, kind: Kind, wanted: Kind) -> Result<(), AllocError> {
    let is_text = kind == Kind::Text;
    match wanted {
        Kind::Day if read_date(text).is_some() => push_date(words, text),
        Kind::Day => match midnight_day(text) {
            Some(day) => push_date(words, day),
            None if is_text => words.push_str("write a date as DATE 'YYYY-MM-DD'"),
            None => Ok(()),
        },
        Kind::Moment if read_timestamp(text).is_some() => push_timestamp(words, text, ""),
        Kind::Moment if read_date(text).is_some() => push_timestamp(words, text, " 00:00:00"),
        Kind::Moment if is_text => {
            words.push_str("write a timestamp as TIMESTAMP 'YYYY-MM-DD HH:MM:SS'")
        }
        Kind::Int if is_text && is_number(text) => write!(words, "write {text}, without quotes"),
        _ => Ok(()),
    }
}

/// Returns the day `YYYY-MM-DD` that is written at an offset without quotes.
fn dashed_day(text: &str, offset: u32) -> Option<&str> {
    let day = text_from(text, offset).get(..10)?;
    if read_date(day).is_some() {
        Some(day)
    } else {
        None
    }
}

/// Whether a calculation goes on after the words at an offset.
fn is_calculated(text: &str, offset: u32) -> bool {
    let rest = text_after(text, offset).trim_start();
    rest.starts_with('+') || rest.starts_with('-') || rest.starts_with('*')
}

/// Adds how to write the number at an offset as a literal of type `wanted`.
fn push_number_as(
    words: &mut Words,
    text: &str,
    offset: u32,
    wanted: Kind,
) -> Result<(), AllocError> {
    let number = piece(text, offset);
    match (wanted, dashed_day(text, offset)) {
        (Kind::Day, Some(day)) => {
            write!(words, "{day} is a calculation: ")?;
            push_date(words, day)
        }
        (Kind::Text, None) if is_number(number) && !is_calculated(text, offset) => {
            write!(words, "write '{number}', in single quotes")
        }
        _ => Ok(()),
    }
}

/// Whether the operand at an offset is a literal with quotes.
fn is_literal(text: &str, offset: u32) -> bool {
    content(piece(text, offset)).is_some()
}

/// Adds how to write the operand at an offset, of type `kind`, as one of type `wanted`, if it is a literal.
fn push_operand(
    words: &mut Words,
    text: &str,
    offset: u32,
    kind: Option<Kind>,
    wanted: Option<Kind>,
) -> Result<(), AllocError> {
    let (Some(kind), Some(wanted)) = (kind, wanted) else {
        return Ok(());
    };
    if kind == Kind::Int {
        return push_number_as(words, text, offset, wanted);
    }
    match content(piece(text, offset)) {
        Some(inside) => push_as(words, inside, kind, wanted),
        None => Ok(()),
    }
}

/// Adds the literal that was probably meant, if a literal is at fault and there is one.
pub fn push_literal_hint(
    memory: Memory,
    words: &mut Words,
    text: &str,
    about: &About,
) -> Result<(), AllocError> {
    let inside = content(piece(text, about.at)).unwrap_or("");
    match about.cause {
        Cause::NoDay => push_meant_date(memory, words, inside),
        Cause::NoMoment => push_meant_timestamp(memory, words, inside),
        Cause::CellKind => push_operand(words, text, about.at, about.kind, about.other),
        Cause::KindsDiffer if is_literal(text, about.at) && is_literal(text, about.to) => Ok(()),
        Cause::KindsDiffer => {
            push_operand(words, text, about.at, about.kind, about.other)?;
            if words.as_str().is_empty() {
                push_operand(words, text, about.to, about.other, about.kind)?;
            }
            Ok(())
        }
        Cause::NoNumber if matches!(about.kind, Some(Kind::Day | Kind::Moment)) => {
            words.push_str("there is no arithmetic of days and moments")
        }
        _ => Ok(()),
    }
}
