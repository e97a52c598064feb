//! Tests and properties of the columns of a new table.
ghost use Rattle.std.specs.Prelude.{◌≡◌, ◌||◌, length, map, is_some, Some, None, if◌then◌else◌};
ghost use Rattle.std.specs.List.{list_any, list_all};
ghost use Rattle.tql_spec.specs.Calendar.{number_of};
ghost use Rattle.tql_spec.specs.Creation as spec;
ghost use Rattle.tql_spec.specs.Syntax as tree;
ghost use Rattle.tql_spec.specs.Words.{same_text};
ghost use Rattle.tql_syntax_tree.specs.Statements.{type_of};
ghost use Rattle.tql_value.specs.Views.{plain_kind};
ghost use Rattle.tql_bind_expr.specs.Scopes.{word_of};
ghost use Rattle.tql_bind_draft.specs.Drafts.{column_of, names_in, starts_in, stops_in, kind_in, is_generated_in};

use crate::draft::NewColumn;
use tql_bind_expr::about::{About, Cause};
use tql_bind_expr::number::unsigned;
use tql_bind_expr::texts::is_same_text;
use tql_syntax_tree::statement::{Generated, TypeName};
use tql_value::value::Kind;

/// Whether the column has this name.
fn is_named(column: &NewColumn<'_>, name: &str) -> bool
    ensures { result ≡ same_text name.now (word_of column.now.name) }
{
    is_same_text(name, &column.name.text)
}

/// Returns the number, from 0, of the column of this name.
pub fn number_in(columns: &[NewColumn<'_>], name: &str) -> Option<usize>
    ensures { result ≡ spec.number_in name.now (names_in (map column_of columns.now)) }
{
    columns.iter().position(|column| is_named(column, name))
}

/// Whether a column has this name.
#[tactic(auto, using(crate::proofs::ColumnLaws::known_is))]
pub fn has_column(columns: &[NewColumn<'_>], name: &str) -> bool
    ensures { result ≡ spec.has_name name.now (names_in (map column_of columns.now)) }
{
    number_in(columns, name).is_some()
}

/// Returns the length of a VARCHAR if it is allowed: from 1 to 65,535 characters.
fn length_of(digits: &[u8]) -> Option<u64>
    ensures { result ≡ (if spec.is_length (number_of digits.now) then Some (number_of digits.now) else None) }
{
    let length = unsigned(digits)?;
    if 1 <= length && length <= 65535 {
        Some(length)
    } else {
        None
    }
}

/// Whether the length or the precision of the type is not allowed.
fn has_bad_number(type_name: TypeName<'_>) -> bool
    ensures { result ≡ spec.has_bad_number (type_of type_name.entry) }
{
    match type_name {
        TypeName::Varchar(digits) => length_of(digits.as_bytes()).is_none(),
        TypeName::Timestamp(Some(digits)) => match unsigned(digits.as_bytes()) {
            Some(precision) => 12 < precision,
            None => true,
        },
        TypeName::Integer | TypeName::Date | TypeName::Timestamp(None) => false,
    }
}

/// Returns the kind of a type.
pub fn kind_of(type_name: TypeName<'_>) -> Kind
    ensures { plain_kind result ≡ spec.kind_of_type (type_of type_name.entry) }
{
    match type_name {
        TypeName::Integer => Kind::Int,
        TypeName::Varchar(_) => Kind::Text,
        TypeName::Date => Kind::Day,
        TypeName::Timestamp(_) => Kind::Moment,
    }
}

/// Returns the maximum number of characters of a type, if it has one that is allowed.
pub fn limit_of(type_name: TypeName<'_>) -> Option<u64>
    ensures { result ≡ spec.limit_of_type (type_of type_name.entry) }
{
    match type_name {
        TypeName::Varchar(digits) => length_of(digits.as_bytes()),
        TypeName::Integer | TypeName::Date | TypeName::Timestamp(_) => None,
    }
}

/// Whether the type of some column has a length or a precision that is not allowed.
pub fn has_misfit(columns: &[NewColumn<'_>]) -> bool
    ensures { result ≡ list_any (λ (c : tree.ColumnTree). spec.has_bad_number c.type_name) (map column_of columns.now) }
{
    columns
        .iter()
        .any(|column| has_bad_number(column.type_name))
}

/// Returns the cause and place of the fault that the length or precision of a type is out of range.
pub fn misfit(columns: &[NewColumn<'_>]) -> About {
    for column in columns {
        if has_bad_number(column.type_name) {
            return About::at(Cause::BadLength, column.name.start);
        }
    }
    About::unknown()
}

/// Whether all columns are generated, so that a user can assign none.
pub fn are_all_generated(columns: &[NewColumn<'_>]) -> bool
    ensures { result ≡ list_all (λ (c : tree.ColumnTree). is_some c.generated) (map column_of columns.now) }
{
    columns.iter().all(|column| column.generated.is_some())
}

/// Returns the kind of the column with this number, or integer if there is none.
pub fn kind_at(columns: &[NewColumn<'_>], number: usize) -> Kind
    ensures { plain_kind result ≡ kind_in (map column_of columns.now) number }
{
    match columns.get(number) {
        Some(column) => kind_of(column.type_name),
        None => Kind::Int,
    }
}

/// Whether the column is ROW START.
fn is_row_start(column: &NewColumn<'_>) -> bool
    ensures { result ≡ spec.is_row_start (column_of column.now).generated }
{
    matches!(column.generated, Some(Generated::RowStart))
}

/// Whether the column is ROW END.
fn is_row_end(column: &NewColumn<'_>) -> bool
    ensures { result ≡ spec.is_row_end (column_of column.now).generated }
{
    matches!(column.generated, Some(Generated::RowEnd))
}

/// Returns the number of ROW START columns.
pub fn start_count(columns: &[NewColumn<'_>]) -> usize
    ensures { result ≡ length (starts_in (map column_of columns.now)) }
{
    columns.iter().filter(|column| is_row_start(column)).count()
}

/// Returns the number of ROW END columns.
pub fn end_count(columns: &[NewColumn<'_>]) -> usize
    ensures { result ≡ length (stops_in (map column_of columns.now)) }
{
    columns.iter().filter(|column| is_row_end(column)).count()
}

/// Whether the column with this number exists and is ROW START.
pub fn is_start_at(columns: &[NewColumn<'_>], number: usize) -> bool
    ensures { result ≡ spec.has_number number (starts_in (map column_of columns.now)) }
{
    match columns.get(number) {
        Some(column) => is_row_start(column),
        None => false,
    }
}

/// Whether the column with this number exists and is ROW END.
pub fn is_end_at(columns: &[NewColumn<'_>], number: usize) -> bool
    ensures { result ≡ spec.has_number number (stops_in (map column_of columns.now)) }
{
    match columns.get(number) {
        Some(column) => is_row_end(column),
        None => false,
    }
}

/// Whether the column with this number exists and is generated.
pub fn is_generated_at(columns: &[NewColumn<'_>], number: usize) -> bool
    ensures { result ≡ is_generated_in (map column_of columns.now) number }
{
    is_start_at(columns, number) || is_end_at(columns, number)
}
