//! Tests of types that do not fit.
ghost use Rattle.std.specs.Prelude.{◌≡◌, ◌||◌, option_map};
ghost use Rattle.tql_spec.specs.Datum.{Ints};
ghost use Rattle.tql_spec.specs.Names as names;
ghost use Rattle.tql_value.specs.Views.{plain_kind};

use tql_value::value::Kind;

/// Whether the type `other` is known and is not `kind`.
pub fn is_other_kind(kind: Kind, other: Option<Kind>) -> bool
    ensures { result ≡ names.is_other_kind (plain_kind kind) (option_map plain_kind other) }
{
    match other {
        None => false,
        Some(other) => other != kind,
    }
}

/// Whether two types are known and differ.
pub fn differ(kind: Option<Kind>, other: Option<Kind>) -> bool
    ensures { result ≡ names.differ (option_map plain_kind kind) (option_map plain_kind other) }
{
    match kind {
        None => false,
        Some(kind) => is_other_kind(kind, other),
    }
}

/// Whether one of two operands is known not to be a number.
pub(crate) fn is_no_number(left: Option<Kind>, right: Option<Kind>) -> bool
    ensures { result ≡ (names.is_other_kind Ints (option_map plain_kind left)
        || names.is_other_kind Ints (option_map plain_kind right)) }
{
    is_other_kind(Kind::Int, left) || is_other_kind(Kind::Int, right)
}
