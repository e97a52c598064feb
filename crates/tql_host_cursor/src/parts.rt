//! Parts of an answer.
ghost use Rattle.std.specs.Prelude.{◌≡◌, option_map, is_some};
ghost use Rattle.tql_value.specs.Views.{rows_of};
ghost use Rattle.tql_host_cursor.specs.Parts.{changed, heading_in, is_refused, row_or_none, rows_in, table_of};
ghost use Rattle.tql_host_cursor.specs.Parts.{told_answer, told_at, told_fault, verb_in};

use crate::details::name_at;
use tql_detail::detail::Detail;
use tql_detail::place::Place;
use tql_host_cells::requests::Told;
use tql_host_cells::texts::{narrow, signed};
use tql_memory::Memory;
use tql_result::answer::Answer;
use tql_result::reply::Reply;
use tql_value::value::{ResultTable, Value};

/// Returns the number of rows that a statement changed, -1 if it counts none.
fn changed(count: Option<u64>) -> i64
    ensures { result ≡ changed count }
{
    match count {
        Some(count) => signed(count),
        None => -1,
    }
}

/// Tells an answer: 0 none, 1 done, 2 a table, 3 refused. The number counts rows that changed (-1: not counted) or
/// columns; the length counts rows. Of a refusal the number is the line of the statement.
pub(crate) fn told_answer(line: u64, answer: &Option<Answer>) -> Told
    ensures { result ≡ told_answer line answer.now }
{
    let mut told = Told::nothing();
    match answer {
        Some(Answer::Replied(Reply::Done(_, count))) => {
            told.kind = 1;
            told.number = changed(*count);
        }
        Some(Answer::Replied(Reply::Table(table))) => {
            told.kind = 2;
            told.number = signed(table.headings.len() as u64);
            told.length = table.rows.len() as u64;
        }
        Some(Answer::Replied(Reply::Refused(refusal))) => {
            told.kind = 3;
            told.code = refusal.number();
            told.number = signed(line);
        }
        Some(Answer::Accepted) | None => {}
    }
    told
}

/// Whether an answer is a refusal.
pub(crate) fn is_refused(answer: &Option<Answer>) -> bool
    ensures { result ≡ is_refused answer.now }
{
    matches!(answer, Some(Answer::Replied(Reply::Refused(_))))
}

/// Returns the table of an answer.
fn table_of(answer: &Option<Answer>) -> Option<&ResultTable>
    ensures { option_map (λ t. t.now) result ≡ table_of answer.now }
{
    match answer {
        Some(Answer::Replied(Reply::Table(table))) => Some(table),
        _ => None,
    }
}

/// Returns the rows of an answer; none if it is no table.
pub(crate) fn rows_of(answer: &Option<Answer>) -> &[Vec<Value, Memory>]
    ensures { rows_of result.now ≡ rows_in (table_of answer.now) }
{
    match table_of(answer) {
        Some(table) => table.rows.as_slice(),
        None => &[],
    }
}

/// Whether an answer is a table.
pub(crate) fn is_table(answer: &Option<Answer>) -> bool
    ensures { result ≡ is_some (table_of answer.now) }
{
    table_of(answer).is_some()
}

/// Returns the heading of a column.
pub(crate) fn heading(answer: &Option<Answer>, column: usize) -> Option<&[u8]>
    ensures { option_map (λ t. t.now) result ≡ heading_in column (table_of answer.now) }
{
    match table_of(answer) {
        Some(table) => name_at(table.headings.as_slice(), column),
        None => None,
    }
}

/// Returns the words of what was done, or the number and the text of a refusal.
pub(crate) fn verb(answer: &Option<Answer>) -> Option<&[u8]>
    ensures { option_map (λ t. t.now) result ≡ verb_in answer.now }
{
    match answer {
        Some(Answer::Replied(Reply::Done(verb, _))) => Some(verb.text().as_bytes()),
        Some(Answer::Replied(Reply::Refused(refusal))) => Some(refusal.text().as_bytes()),
        _ => None,
    }
}

/// Tells the line and the character of a place, or the line of the statement if the place is not known.
fn told_at(line: u64, row: u64, place: Option<Place>) -> Told
    ensures { result ≡ told_at line row place }
{
    let mut told = Told::nothing();
    told.kind = 1;
    told.number = signed(line);
    told.length = row;
    if let Some(place) = place {
        told.number = signed(place.line);
        told.code = narrow(place.column);
    }
    told
}

/// Returns a row, 0 if it is not known.
fn row_or_none(row: Option<u64>) -> u64
    ensures { result ≡ row_or_none row }
{
    match row {
        Some(row) => row,
        None => 0,
    }
}

/// Tells the line, the character and the row of a fault, as far as they are known.
pub(crate) fn told_fault(line: u64, detail: &Option<Detail>) -> Told
    ensures { result ≡ told_fault line detail.now }
{
    match detail {
        Some(detail) => told_at(line, row_or_none(detail.row), detail.place),
        None => told_at(line, 0, None),
    }
}
