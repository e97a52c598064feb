//! Which columns and periods a table may have.
ghost use Rattle.std.specs.Prelude.{◌≡◌, ◌<◌, ◌&&◌, ◌||◌, ◌==◌, ◌++◌, not, length, map, option_map, slice_index_or};
ghost use Rattle.std.specs.Prelude.{string_bytes, false};
ghost use Rattle.tql_spec.specs.Creation.{has_name, repeats, are_ends, application_name};
ghost use Rattle.tql_spec.specs.Datum.{Ints, Moments, same_kind};
ghost use Rattle.tql_value.specs.Views.{plain_kind};
ghost use Rattle.tql_catalog.specs.Columns.{names_in, kinds_in, required_in};
ghost use Rattle.tql_catalog.specs.Defined as defined;
ghost use Rattle.tql_catalog.specs.Definitions.{column_of, system_of, application_of};

use crate::assignable::is_generated;
use crate::definition::{Application, Column, System, are_ends};
use tql_value::value::Kind;

/// Whether a column has this name.
fn has_column(columns: &[Column], name: &str) -> bool
    ensures { result ≡ has_name name.now (names_in columns.now) }
{
    columns.iter().any(|column| column.is_named(name))
}

/// Whether this is the name of the application period.
fn is_period_name(application: Option<&Application>, name: &str) -> bool
    ensures { result ≡ has_name name.now (application_name (option_map (λ a. application_of a.now) application.entry)) }
{
    match application {
        Some(application) => name == application.name.as_str(),
        None => false,
    }
}

/// Whether a column or the application period has this name.
fn is_taken(columns: &[Column], application: Option<&Application>, name: &str) -> bool
    ensures { result ≡ has_name name.now
        (names_in columns.now ++ application_name (option_map (λ a. application_of a.now) application.entry)) }
{
    has_column(columns, name) || is_period_name(application, name)
}

/// Whether a name occurs twice among those of the columns and that of the application period.
fn has_repeated_name(columns: &[Column], application: Option<&Application>) -> bool
    ensures { result ≡ repeats
        (names_in columns.now ++ application_name (option_map (λ a. application_of a.now) application.entry)) }
{
    let mut left = columns;
    while let [column, others @ ..] = left {
        if is_taken(others, application, column.name.as_str()) {
            return true;
        }
        left = others;
    }
    false
}

/// Whether the column holds moments.
fn is_moment(column: &Column) -> bool
    ensures { result ≡ same_kind (plain_kind column.now.kind) Moments }
{
    matches!(column.kind, Kind::Moment)
}

/// Whether there is a column of this number, and it holds moments.
fn is_moment_at(columns: &[Column], number: usize) -> bool
    ensures { result ≡ defined.is_moment_at (kinds_in columns.now) number }
{
    number < columns.len() && is_moment(&columns[number])
}

/// Whether the generated columns, if there are any, are two columns that hold moments.
fn is_system_period(columns: &[Column], system: Option<System>) -> bool
    ensures { result ≡ defined.is_system_period (kinds_in columns.now) (option_map system_of system) }
{
    match system {
        None => true,
        Some(system) => {
            is_moment_at(columns, system.start)
                && is_moment_at(columns, system.end)
                && system.start != system.end
        }
    }
}

/// Whether the column takes no NULL.
fn is_required(column: &Column) -> bool
    ensures { result ≡ (column_of column.now).required }
{
    column.is_required
}

/// Whether there is a column of this number, and it takes no NULL.
fn is_required_at(columns: &[Column], number: usize) -> bool
    ensures { result ≡ defined.is_required_at (required_in columns.now) number }
{
    number < columns.len() && is_required(&columns[number])
}

/// Whether the column of this number can be an end of a period that users write: it exists, takes no NULL, and is not
/// generated.
fn is_end_at(columns: &[Column], system: Option<System>, number: usize) -> bool
    ensures { result ≡ defined.is_end_at (required_in columns.now) (option_map system_of system) number }
{
    is_required_at(columns, number) && !is_generated(system, number)
}

/// Whether the columns of these numbers both hold days, or both hold moments.
fn are_ends_at(columns: &[Column], start: usize, end: usize) -> bool
    requires start { start < length columns.now }
    requires end { end < length columns.now }
    ensures { result ≡ are_ends (slice_index_or (kinds_in columns.now) start Ints)
        (slice_index_or (kinds_in columns.now) end Ints) }
{
    are_ends(columns[start].kind, columns[end].kind)
}

/// Whether the application period, if there is one, has two columns that can be its ends and hold points of one kind.
fn is_application_period(
    columns: &[Column],
    system: Option<System>,
    application: Option<&Application>,
) -> bool
    ensures { result ≡ defined.is_application_period (map column_of columns.now) (option_map system_of system)
        (option_map (λ a. application_of a.now) application.entry) }
{
    match application {
        None => true,
        Some(application) => {
            let start = application.start;
            let end = application.end;
            is_end_at(columns, system, start)
                && is_end_at(columns, system, end)
                && are_ends_at(columns, start, end)
                && start != end
        }
    }
}

/// Whether a table may have these columns and periods. No name may occur twice among those of the columns and that of
/// the application period. The generated columns must be two of the columns, which hold moments. The columns of the
/// application period must be two others, which take no NULL and both hold days, or both hold moments.
pub fn is_definable(
    columns: &[Column],
    system: Option<System>,
    application: Option<&Application>,
) -> bool
    ensures { result ≡ defined.is_definable (map column_of columns.now) (option_map system_of system)
        (option_map (λ a. application_of a.now) application.entry) }
{
    !has_repeated_name(columns, application)
        && is_system_period(columns, system)
        && is_application_period(columns, system, application)
}
