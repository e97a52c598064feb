//! Sort keys of fixed size (prefix keys). Most comparisons of two values are decided by their ranks alone, without
//! reading the values.
ghost use Rattle.std.specs.Prelude.{◌≡◌, ◌<◌, drop, slice_index, All};
ghost use Rattle.tql_spec.specs.Datum.{Text};
ghost use Rattle.tql_value.specs.Views.{datum_of_view};
ghost use Rattle.tql_exec_sort.specs.Rank.{IsRank, by_rank, by_rest, start_of};

use std::cmp::Ordering;
use tql_value::value::View;

/// The number of bytes of a text that fit in one number of its rank.
const START: usize = 8;

/// The fixed-size sort key of a value. `kind` orders the kinds, NULL first. `number` is in the order of the values of
/// one kind; for a text it is the first eight bytes, and `rest` the next eight. Different values may have the same
/// rank, such as two texts that begin with the same 16 bytes.
#[derive(Clone, Copy)]
pub(crate) struct Rank {
    kind: u8,
    number: i64,
    rest: u64,
}

/// Returns the byte of a text at an index, or 0 past its end.
fn byte_at(text: &[u8], place: usize) -> u8
    ensures { result ≡ slice_index text.now place }
{
    match text.get(place) {
        Some(byte) => *byte,
        None => 0,
    }
}

/// Returns the first eight bytes of a text as one big-endian number. A missing byte counts as 0.
fn start(text: &[u8]) -> u64
    ensures number { result ≡ start_of 8 text.now }
    ensures bytes { All (λ b. b < 256) text.now }
{
    let mut number = 0;
    for place in 0..START {
        number = number * 256 + u64::from(byte_at(text, place));
    }
    number
}

/// Returns the bytes of a text after those that `start` reads.
fn behind(text: &[u8]) -> &[u8]
    ensures { result.now ≡ drop 8 text.now }
{
    &text[text.len().min(START)..]
}

impl Rank {
    /// Returns the rank of a text.
    fn of_text(text: &[u8]) -> Rank
        ensures { IsRank (Text text.now) result }
    {
        Rank {
            kind: 2,
            number: i64::MIN.strict_add_unsigned(start(text)),
            rest: start(behind(text)),
        }
    }

    /// Returns the rank of a value.
    pub(crate) fn of(view: View<'_>) -> Rank
        ensures { IsRank (datum_of_view view.entry) result }
    {
        match view {
            View::Null => Rank {
                kind: 0,
                number: 0,
                rest: 0,
            },
            View::Int(number) => Rank {
                kind: 1,
                number,
                rest: 0,
            },
            View::Text(text) => Rank::of_text(text.as_bytes()),
            View::Day(number) => Rank {
                kind: 3,
                number,
                rest: 0,
            },
            View::Moment(number) => Rank {
                kind: 4,
                number,
                rest: 0,
            },
        }
    }

    /// Compares two ranks by kind, and then by number.
    pub(crate) fn order(self, other: Rank) -> Ordering
        ensures { result ≡ by_rank self other }
    {
        match self.kind.cmp(&other.kind) {
            Ordering::Equal => self.number.cmp(&other.number),
            by_kind => by_kind,
        }
    }

    /// Compares the rest of two ranks, whose kind and number are equal.
    pub(crate) fn order_rest(self, other: Rank) -> Ordering
        ensures { result ≡ by_rest self other }
    {
        self.rest.cmp(&other.rest)
    }
}
