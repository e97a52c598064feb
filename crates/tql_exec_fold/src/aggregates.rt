//! The steps of aggregates: one more value in a sum, and the better of two values (ISO/IEC 9075-2:2011, 10.9
//! `<aggregate function>`).
ghost use Rattle.std.specs.Prelude.{◌≡◌, ℕ, ◌^◌, ◌+◌, [], if◌then◌else◌, Some};
ghost use Rattle.tql_value.specs.Views.{datum_of_view, outcome};
ghost use Rattle.tql_spec.specs.Datum.{Int};
ghost use Rattle.tql_exec_fold.specs.Folds.{added, is_better, IsWithin, sum_behind, sum_of, the_better};

use tql_value::arithmetic::Range;
use tql_value::comparison::order;
use tql_value::value::View;

/// Returns the running sum with one more value.
pub(crate) fn with_value(sum: i128, value: View<'_>) -> i128
    requires { IsWithin (2 ^ 63) (Some sum) }
    ensures is { Some result ≡ added (Some sum) (datum_of_view value.entry) }
    ensures within { (n : ℕ) → IsWithin n (Some sum) → IsWithin (n + 1) (Some result) }
{
    match value {
        View::Int(number) => sum + i128::from(number),
        _ => sum,
    }
}

/// Returns the sum of a number of values as a value: `Range` if it overflows 64 bits, NULL if all values were NULL.
pub(crate) fn summed<'a>(values: u64, sum: i128) -> Result<View<'a>, Range>
    ensures { outcome result ≡ sum_behind (sum_of values sum) [] }
{
    if values == 0 {
        return Ok(View::Null);
    }
    match i64::try_from(sum) {
        Ok(number) => Ok(View::Int(number)),
        Err(_) => Err(Range),
    }
}

/// Whether the second of two numbers is the greater or the lesser one.
#[inline]
pub(crate) fn is_number_beaten(greatest: bool, a: i64, b: i64) -> bool
    ensures { result ≡ is_better greatest (Int b) (Int a) }
{
    if greatest { a < b } else { b < a }
}

/// Whether the second of two values is the greater or the lesser one. NULL loses to any value, and of equal values the
/// first is kept.
pub(crate) fn is_beaten(greatest: bool, a: View<'_>, b: View<'_>) -> bool
    ensures { (if result then datum_of_view b.entry else datum_of_view a.entry)
        ≡ the_better greatest (datum_of_view a.entry) (datum_of_view b.entry) }
{
    let order = order(b, a);
    let is_better = if greatest {
        order.is_gt()
    } else {
        order.is_lt()
    };
    !b.is_null() && (a.is_null() || is_better)
}
