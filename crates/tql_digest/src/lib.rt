//! The digest of values: a hash of 64 bits by which rows are found, joined and grouped.
//!
//! Equal values have one digest, and other values may have it too. A single number, day or moment is its own digest.
//! All else is hashed by SipHash-1-3, so that many values of one digest cannot be made with less work than trying them.
//! A digest decides only where a row is looked for: no answer depends on it.
#![tactic(auto)]

ghost use Rattle.std.specs.Prelude.{◌≡◌, [], ◌∷◌};
ghost use Rattle.tql_value.specs.Views.{datum_of_view};
ghost use Rattle.tql_digest.specs.Digest.{absorbed, alone};

use std::hash::{DefaultHasher, Hasher};
use tql_value::value::View;

/// Returns the hash `hasher` with one more value.
#[inline(always)]
pub fn absorb(hasher: DefaultHasher, value: View<'_>) -> DefaultHasher
    ensures { result ≡ absorbed hasher (datum_of_view value.entry) }
{
    let mut hasher = hasher;
    match value {
        View::Null => hasher.write_u8(0),
        View::Int(number) => hasher.write_i64(number),
        View::Text(text) => {
            hasher.write(text.as_bytes());
            hasher.write_u8(255);
        }
        View::Day(day) => hasher.write_i64(day),
        View::Moment(moment) => hasher.write_i64(moment),
    }
    hasher
}

/// Returns the digest of a single value.
#[inline(always)]
pub fn digest_alone(value: View<'_>) -> u64
    ensures { result ≡ alone (datum_of_view value.entry) }
{
    match value {
        View::Int(number) => number.cast_unsigned(),
        View::Day(day) => day.cast_unsigned(),
        View::Moment(moment) => moment.cast_unsigned(),
        View::Null | View::Text(_) => absorb(DefaultHasher::new(), value).finish(),
    }
}
