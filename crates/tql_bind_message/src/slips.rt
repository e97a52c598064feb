//! Names and values at places where they mean nothing, and what to write there.
use crate::names::push_column;
use std::alloc::AllocError;
use tql_bind_expr::about::{About, Cause};
use tql_catalog::catalog::Catalog;
use tql_catalog::table_def::TableDef;
use tql_detail::shown::{Words, push_shown};
use tql_memory::Memory;
use tql_near_names::nearest::{first_table, has_column, only_period};
use tql_near_names::piece::{has_word, is_between_words, piece, text_after};

/// Whether a text is one of these words. The case of letters does not matter.
fn is_one_of(text: &str, words: &str) -> bool {
    for word in words.split(' ') {
        if text.eq_ignore_ascii_case(word) {
            return true;
        }
    }
    false
}

/// Whether a statement begins with this word.
pub fn begins_with(text: &str, word: &str) -> bool {
    match text.trim_start().get(..word.len()) {
        Some(first) => first.eq_ignore_ascii_case(word),
        None => false,
    }
}

/// Returns the part of a statement's text before an offset.
fn text_before(text: &str, offset: u32) -> &str {
    match usize::try_from(offset) {
        Ok(offset) => text.get(..offset).unwrap_or(""),
        Err(_) => "",
    }
}

/// Words that follow a table in FROM. They are reserved, so they are no other names.
const BEHIND_TABLES: &str =
    "AS ON JOIN LEFT RIGHT FULL INNER CROSS WHERE GROUP HAVING ORDER FOR SET VALUES";

/// Whether a character is between words that are written apart.
fn is_blank(character: char) -> bool {
    matches!(character, ' ' | '\t' | '\r' | '\n')
}

/// Returns the part of a word before the first character that is not part of a name.
fn name_at_start(word: &str) -> &str {
    match word.split_once(is_between_words) {
        Some((name, _)) => name,
        None => word,
    }
}

/// Returns the other name that the statement gives to a table of this name.
fn other_name<'a>(text: &'a str, table: &str) -> Option<&'a str> {
    let mut is_next = false;
    for word in text.split(is_blank) {
        if is_next && !word.is_empty() && !word.eq_ignore_ascii_case("AS") {
            let name = name_at_start(word);
            if name.is_empty() || is_one_of(name, BEHIND_TABLES) {
                return None;
            }
            return Some(name);
        }
        is_next = word.eq_ignore_ascii_case(table)
            || (is_next && (word.is_empty() || word.eq_ignore_ascii_case("AS")));
    }
    None
}

/// Whether the select list of a statement has this name after AS.
fn is_output_name(text: &str, name: &str) -> bool {
    let mut before = "";
    for word in text.split(is_between_words) {
        if word.eq_ignore_ascii_case("FROM") {
            return false;
        }
        if before.eq_ignore_ascii_case("AS") && word.eq_ignore_ascii_case(name) {
            return true;
        }
        if !word.is_empty() {
            before = word;
        }
    }
    false
}

/// Returns the application period that a CREATE TABLE declares.
fn declared_period(text: &str) -> Option<&str> {
    let mut first = "";
    let mut second = "";
    for word in text.split(is_between_words) {
        if first.eq_ignore_ascii_case("PERIOD")
            && second.eq_ignore_ascii_case("FOR")
            && !word.is_empty()
            && !word.eq_ignore_ascii_case("SYSTEM_TIME")
        {
            return Some(word);
        }
        if !word.is_empty() {
            first = second;
            second = word;
        }
    }
    None
}

/// Returns the last word of a text that begins a key, a reference or a CHECK.
fn last_element(text: &str) -> &str {
    let mut last = "";
    for word in text.split(is_between_words) {
        if is_one_of(word, "PRIMARY UNIQUE FOREIGN REFERENCES CHECK") {
            last = word;
        }
    }
    last
}

/// Adds how to write a period in a list of CREATE TABLE, if the name that is no column is one.
fn push_period_hint(
    memory: Memory,
    words: &mut Words,
    text: &str,
    catalog: &Catalog,
    about: &About,
) -> Result<(), AllocError> {
    let name = piece(text, about.at);
    let element = last_element(text_before(text, about.at));
    let is_declared = declared_period(text).is_some_and(|other| other.eq_ignore_ascii_case(name));
    let is_parents = match only_period(memory, text, catalog)? {
        Some(other) => other.eq_ignore_ascii_case(name),
        None => false,
    };
    if is_declared && is_one_of(element, "PRIMARY UNIQUE") {
        push_shown(words, name)?;
        words.push_str(" is a period: write ")?;
        push_shown(words, name)?;
        words.push_str(" WITHOUT OVERLAPS")
    } else if (is_declared && is_one_of(element, "FOREIGN"))
        || (is_parents && is_one_of(element, "REFERENCES"))
    {
        push_shown(words, name)?;
        words.push_str(" is a period: write PERIOD ")?;
        push_shown(words, name)
    } else {
        Ok(())
    }
}

/// Adds a word as a text in quotes.
fn push_quoted(words: &mut Words, name: &str) -> Result<(), AllocError> {
    if name.starts_with('"') {
        return words.push_str("write a text in single quotes");
    }
    words.push_str("write '")?;
    push_shown(words, name)?;
    words.push_str("' for a text")
}

/// Adds how to write a table with another name before a column.
fn push_other_name(words: &mut Words, text: &str, name: &str) -> Result<(), AllocError> {
    let Some((table, column)) = name.split_once('.') else {
        return Ok(());
    };
    let Some(other) = other_name(text, table) else {
        return Ok(());
    };
    words.push_str("write ")?;
    push_shown(words, other)?;
    words.push('.')?;
    push_shown(words, column)?;
    words.push_str(": ")?;
    push_shown(words, table)?;
    words.push_str(" has the name ")?;
    push_shown(words, other)?;
    words.push_str(" here")
}

/// Whether an offset is in the rows of an INSERT.
fn is_in_values(text: &str, offset: u32) -> bool {
    begins_with(text, "INSERT") && has_word(text_before(text, offset), "VALUES")
}

/// Adds what to write for a name that is no column, if its place or the name itself says so.
fn push_column_hint(
    memory: Memory,
    words: &mut Words,
    text: &str,
    catalog: &Catalog,
    about: &About,
) -> Result<(), AllocError> {
    let name = piece(text, about.at);
    if is_one_of(
        name,
        "CURRENT_DATE CURRENT_TIME CURRENT_TIMESTAMP LOCALTIME LOCALTIMESTAMP NOW",
    ) {
        words.push_str("there is no clock to read: write DATE '..' or TIMESTAMP '..'")
    } else if is_one_of(name, "TRUE FALSE") {
        words.push_str("there are no truth values: write 1 or 0")
    } else if begins_with(text, "CREATE") {
        push_period_hint(memory, words, text, catalog, about)
    } else if is_in_values(text, about.at) {
        words.push_str("VALUES has no columns: ")?;
        push_quoted(words, name)
    } else if is_output_name(text, name) {
        words.push_str("it names an output column: write that column's expression")
    } else {
        push_other_name(words, text, name)
    }
}

/// Whether the comma at this position separates three digits from those before it, as in `1,000`.
fn splits_number(text: &[u8], place: usize) -> bool {
    let is_before = match place.checked_sub(1) {
        Some(before) => text.get(before).is_some_and(|byte| byte.is_ascii_digit()),
        None => false,
    };
    let start = place.saturating_add(1);
    let end = place.saturating_add(4);
    let is_behind = match text.get(start..end) {
        Some(digits) => digits.iter().all(|byte| byte.is_ascii_digit()),
        None => false,
    };
    let goes_on = text.get(end).is_some_and(|byte| byte.is_ascii_digit());
    is_before && is_behind && !goes_on
}

/// Returns the position of the first comma before the last three digits of a number in a text, outside of quotes.
fn split_place(text: &str) -> Option<usize> {
    let bytes = text.as_bytes();
    let mut is_open = false;
    for (place, byte) in bytes.iter().enumerate() {
        if *byte == b'\'' {
            is_open = !is_open;
        } else if *byte == b',' && !is_open && splits_number(bytes, place) {
            return Some(place);
        }
    }
    None
}

/// Whether a character is no digit.
fn is_no_digit(character: char) -> bool {
    !character.is_ascii_digit()
}

/// Returns the digits before and after the comma of a number in a text, outside of quotes, and the text after them.
fn split_number(text: &str) -> Option<(&str, &str, &str)> {
    let place = split_place(text)?;
    let before = text.get(..place)?;
    let front = match before.rsplit_once(is_no_digit) {
        Some((_, digits)) => digits,
        None => before,
    };
    let start = place.saturating_add(1);
    let end = start.saturating_add(3);
    Some((front, text.get(start..end)?, text.get(end..)?))
}

/// Whether a number goes on after three of its digits with a comma and a digit.
fn goes_on(rest: &str) -> bool {
    match rest.as_bytes() {
        [comma, digit, ..] => *comma == b',' && digit.is_ascii_digit(),
        _ => false,
    }
}

/// Whether a row has a value too many for each generated column of a table.
fn fills_generated(table: &TableDef, about: &About) -> bool {
    let is_whole = match u32::try_from(table.columns().len()) {
        Ok(columns) => columns == about.count,
        Err(_) => false,
    };
    is_whole && about.count == about.wanted.saturating_add(2)
}

/// Adds why a row probably has too many values.
fn push_count_hint(
    memory: Memory,
    words: &mut Words,
    text: &str,
    catalog: &Catalog,
    about: &About,
) -> Result<(), AllocError> {
    if about.count <= about.wanted {
        return Ok(());
    }
    if let Some(table) = first_table(memory, text, catalog)?
        && let Some((start, end)) = table.generated()
        && fills_generated(table, about)
    {
        push_column(words, table, start)?;
        words.push_str(" and ")?;
        push_column(words, table, end)?;
        return words.push_str(" are generated: leave them out");
    }
    match split_number(text) {
        Some((_, _, rest)) if goes_on(rest) => words.push_str("a number has no commas"),
        Some((front, back, _)) => {
            write!(words, "{front},{back} is two values: write {front}{back}")
        }
        None => Ok(()),
    }
}

/// Adds the period whose portion may be changed in place of one of SYSTEM_TIME, if the table has one.
fn push_portion_hint(
    memory: Memory,
    words: &mut Words,
    text: &str,
    catalog: &Catalog,
) -> Result<(), AllocError> {
    let Some(period) = only_period(memory, text, catalog)? else {
        return Ok(());
    };
    words.push_str("what was recorded cannot be changed: name the period ")?;
    push_shown(words, period)
}

/// Adds what to write for a name or a value at a place where it means nothing.
pub fn push_slip_hint(
    memory: Memory,
    words: &mut Words,
    text: &str,
    catalog: &Catalog,
    about: &About,
) -> Result<(), AllocError> {
    match about.cause {
        Cause::NoColumn => push_column_hint(memory, words, text, catalog, about),
        Cause::CellCount => push_count_hint(memory, words, text, catalog, about),
        Cause::PortionOfSystem => push_portion_hint(memory, words, text, catalog),
        Cause::NotOnePeriod | Cause::NoSystemTime => {
            push_other_name(words, text, piece(text, about.at))
        }
        _ => Ok(()),
    }
}

/// Whether a name without its table before it is compared with what precedes this offset.
fn is_compared(text: &str, offset: u32) -> bool {
    let before = text_before(text, offset).trim_end();
    let is_sign = before.ends_with('=') || before.ends_with('>') || before.ends_with('<');
    is_sign && piece(text, offset).split_once('.').is_none()
}

/// Adds the period that a statement declares, or that its only table has.
fn push_period(
    memory: Memory,
    words: &mut Words,
    text: &str,
    catalog: &Catalog,
) -> Result<(), AllocError> {
    let declared = if begins_with(text, "CREATE") {
        declared_period(text)
    } else {
        only_period(memory, text, catalog)?
    };
    match declared {
        Some(period) => {
            words.push_str("the period is ")?;
            push_shown(words, period)
        }
        None => Ok(()),
    }
}

/// Adds what to write for a name that no known name is near.
pub fn push_last_hint(
    memory: Memory,
    words: &mut Words,
    text: &str,
    catalog: &Catalog,
    about: &About,
) -> Result<(), AllocError> {
    match about.cause {
        Cause::NoColumn if is_compared(text, about.at) => push_quoted(words, piece(text, about.at)),
        Cause::NoPeriod | Cause::NotOnePeriod => push_period(memory, words, text, catalog),
        Cause::NoHeading => {
            if has_column(memory, piece(text, about.at), text, catalog)? {
                words.push_str("add it to the select list")?;
            }
            Ok(())
        }
        _ => Ok(()),
    }
}

/// Whether the words at an offset are a column's name and all of an output column.
pub fn is_column_alone(text: &str, offset: u32) -> bool {
    let name = piece(text, offset);
    let is_name = match name.bytes().next() {
        Some(byte) => byte.is_ascii_alphabetic() || byte == b'_' || byte == b'"',
        None => false,
    };
    let is_plain = is_name && name.split_once('(').is_none() && name.split_once('\'').is_none();
    let rest = text_after(text, offset).trim_start();
    let goes_on = rest.starts_with('+') || rest.starts_with('-') || rest.starts_with('*');
    is_plain && !goes_on
}

/// Adds how to group by the output column at an offset.
pub fn push_group_hint(words: &mut Words, text: &str, offset: u32) -> Result<(), AllocError> {
    if has_word(text, "GROUP") {
        return words.push_str("add it to GROUP BY, or leave it out");
    }
    words.push_str("write GROUP BY ")?;
    push_shown(words, piece(text, offset))?;
    words.push_str(", or leave it out")?;
    if has_word(text, "MAX") || has_word(text, "MIN") {
        words.push_str(" (for the row that has the value see RECIPES, The first rows)")?;
    }
    Ok(())
}
