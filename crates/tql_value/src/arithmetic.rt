//! Sums, differences and products, exact or out of range.
ghost use Rattle.std.specs.Prelude.{◌≡◌, option_map};
ghost use Rattle.tql_spec.specs.Datum.{Plus, Minus, Times, Int, calculate};
ghost use Rattle.tql_value.specs.Views.{datum_of_view, outcome};

use crate::value::View;
use thiserror::Error;

/// An error: the exact result leaves 64 bits.
#[derive(Clone, Copy, PartialEq, Eq, Debug, Error)]
#[error("value out of range")]
pub struct Range;

/// Returns the exact sum, or NULL with a NULL operand (ISO/IEC 9075-2:2011, 6.27).
pub fn add<'a>(a: View<'a>, b: View<'a>) -> Result<View<'a>, Range>
    ensures { outcome result ≡ calculate Plus (datum_of_view a.entry) (datum_of_view b.entry) }
{
    match (a, b) {
        (View::Int(x), View::Int(y)) => in_range(x.checked_add(y)),
        _ => Ok(View::Null),
    }
}

/// Returns the exact difference, or NULL with a NULL operand.
pub fn sub<'a>(a: View<'a>, b: View<'a>) -> Result<View<'a>, Range>
    ensures { outcome result ≡ calculate Minus (datum_of_view a.entry) (datum_of_view b.entry) }
{
    match (a, b) {
        (View::Int(x), View::Int(y)) => in_range(x.checked_sub(y)),
        _ => Ok(View::Null),
    }
}

/// Returns the exact product, or NULL with a NULL operand.
pub fn mul<'a>(a: View<'a>, b: View<'a>) -> Result<View<'a>, Range>
    ensures { outcome result ≡ calculate Times (datum_of_view a.entry) (datum_of_view b.entry) }
{
    match (a, b) {
        (View::Int(x), View::Int(y)) => in_range(x.checked_mul(y)),
        _ => Ok(View::Null),
    }
}

/// Returns a number that fits in 64 bits as a value, or `Range` if there is none.
fn in_range<'a>(number: Option<i64>) -> Result<View<'a>, Range>
    ensures { outcome result ≡ option_map Int number }
{
    match number {
        Some(number) => Ok(View::Int(number)),
        None => Err(Range),
    }
}
