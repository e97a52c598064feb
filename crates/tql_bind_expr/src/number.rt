//! Conversion of decimal digits to numbers.
ghost use Rattle.std.specs.Prelude.{◌≡◌, ◌≤◌, ◌+◌, ◌-◌, ◌*◌, ◌^◌, MatchOption, option_map};
ghost use Rattle.tql_spec.specs.Calendar.{number_of};
ghost use Rattle.tql_spec.specs.Datum.{Int};
ghost use Rattle.tql_bind_expr.specs.Numbers.{signed_value};

/// Appends a digit to a number. None if the result does not fit in 64 unsigned bits.
fn with_digit(number: u64, digit: u8) -> Option<u64>
    ensures { MatchOption result (2 ^ 64 ≤ 10 * number + (digit - 48)) (λ n. n ≡ 10 * number + (digit - 48)) }
{
    let value = u64::from(digit.saturating_sub(b'0'));
    number.checked_mul(10)?.checked_add(value)
}

/// Returns the number that the digits spell. None if it does not fit in 64 unsigned bits.
pub fn unsigned(digits: &[u8]) -> Option<u64>
    ensures { MatchOption result (2 ^ 64 ≤ number_of digits.now) (λ n. n ≡ number_of digits.now) }
{
    let mut number = 0u64;
    for digit in digits {
        number = with_digit(number, *digit)?;
    }
    Some(number)
}

/// Returns the number that the digits spell, negated if `negative`. None if it does not fit in 64 signed bits.
pub(crate) fn signed(digits: &[u8], negative: bool) -> Option<i64>
    ensures { option_map Int result ≡ signed_value negative digits.now }
{
    let number = unsigned(digits)?;
    match (i64::try_from(number), negative) {
        (Ok(number), false) => Some(number),
        (Ok(number), true) => Some(-number),
        (Err(_), true) if number == 1 << 63 => Some(i64::MIN),
        (Err(_), _) => None,
    }
}
