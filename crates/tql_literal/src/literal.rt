//! The literal of a value: the text that represents it in a statement.
ghost use Rattle.std.specs.Prelude.{◌≡◌, ◌++◌, IfOk, string_bytes};
ghost use Rattle.std.specs.Fmt.{signed_decimal};
ghost use Rattle.tql_spec.specs.Datum.{Day, Moment};
ghost use Rattle.tql_value.specs.Points.{IsDay, IsMoment, IsPrintable};
ghost use Rattle.tql_value.specs.Views.{datum_of_view};
ghost use Rattle.tql_literal.specs.Literals.{literal_text};

use crate::points::{push_day, push_moment};
use crate::quoting::push_quoted;
use itoa::Buffer;
use std::alloc::AllocError;
use tql_memory::Memory;
use tql_value::value::View;

/// Appends an integer to a literal, with `-` before a negative one.
fn push_int(literal: &mut String<Memory>, number: i64) -> Result<(), AllocError>
    ensures { IfOk result
        (λ _. string_bytes literal.new ≡ string_bytes literal.old ++ signed_decimal number) }
{
    let mut buffer = Buffer::new();
    literal.push_str(buffer.format(number))
}

/// Appends the literal of a date to a literal.
fn push_date(literal: &mut String<Memory>, day: i64) -> Result<(), AllocError>
    requires { IsDay day }
    ensures { IfOk result
        (λ _. string_bytes literal.new ≡ string_bytes literal.old ++ literal_text (Day day)) }
{
    literal.push_str("DATE '")?;
    push_day(literal, day)?;
    literal.push_str("'")?;
    Ok(())
}

/// Appends the literal of a timestamp to a literal.
fn push_timestamp(literal: &mut String<Memory>, moment: i64) -> Result<(), AllocError>
    requires { IsMoment moment }
    ensures { IfOk result
        (λ _. string_bytes literal.new ≡ string_bytes literal.old ++ literal_text (Moment moment)) }
{
    literal.push_str("TIMESTAMP '")?;
    push_moment(literal, moment)?;
    literal.push_str("'")?;
    Ok(())
}

/// Appends the literal of a value to a literal.
fn push_literal(literal: &mut String<Memory>, value: View<'_>) -> Result<(), AllocError>
    requires { IsPrintable (datum_of_view value) }
    ensures { IfOk result
        (λ _. string_bytes literal.new ≡ string_bytes literal.old ++ literal_text (datum_of_view value.entry)) }
{
    match value {
        View::Null => literal.push_str("NULL"),
        View::Int(number) => push_int(literal, number),
        View::Text(text) => push_quoted(literal, text),
        View::Day(day) => push_date(literal, day),
        View::Moment(moment) => push_timestamp(literal, moment),
    }
}

/// Returns the literal that represents a value in a statement: `NULL`; `5` and `-5`; `'it''s'`, with each quote
/// doubled; `DATE '2011-01-31'`; `TIMESTAMP '2011-01-31 09:00:00'`, followed in the quotes by a point and six digits
/// unless its microseconds are zero. It is read back as that value (`literals_read_back`). Put a blank, a comma or a
/// parenthesis on both sides: directly after a `-`, the `-` of `-5` would begin a comment. A date or a timestamp
/// outside the years 1 to 9999 has no literal; `is_printable` checks this. The only error is a refused allocation.
pub fn literal(memory: Memory, value: View<'_>) -> Result<String<Memory>, AllocError>
    requires { IsPrintable (datum_of_view value) }
    ensures { IfOk result (λ text. string_bytes text ≡ literal_text (datum_of_view value.entry)) }
{
    let mut text = String::new(memory);
    push_literal(&mut text, value)?;
    Ok(text)
}
