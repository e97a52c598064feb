//! Lookup of names in a scope. A name means every column and every application period of that name, in all table
//! references or only in that of its qualifier. A column name is valid if it means exactly one column and nothing else.
ghost use Rattle.std.specs.Prelude.{◌≡◌, ◌++◌, ◌∷◌, [], map, option_map, IfOk, string_bytes};
ghost use Rattle.tql_spec.specs.Names as names;
ghost use Rattle.tql_spec.specs.Words.{same_text};
ghost use Rattle.tql_catalog.specs.Definitions.{column_of, application_of};
ghost use Rattle.tql_syntax_tree.specs.Expressions.{named_of};
ghost use Rattle.tql_value.specs.Views.{plain_kind};
ghost use Rattle.tql_bind_expr.specs.Columns.{numbered, sole_column};
ghost use Rattle.tql_bind_expr.specs.Scopes.{text_of, known_of, scope_of, thing_of, things_of};

use crate::about::{About, Cause};
use crate::scope::{Known, Thing};
use crate::texts::meant;
use std::alloc::AllocError;
use tql_catalog::definition::{Application, Column};
use tql_memory::Memory;
use tql_syntax_tree::expression::Named;
use tql_value::value::Kind;

/// Returns the byte offset of the name of a column or a period, with its qualifier, in the statement's text.
pub fn start_of(named: Named<'_>) -> u32 {
    match named.qualifier {
        Some(qualifier) => qualifier.start,
        None => named.name.start,
    }
}

/// Whether the qualifier of a name, if any, names this table reference.
pub fn is_meant(qualifier: Option<&str>, known: &Known<'_>) -> bool
    ensures { result ≡ names.is_meant (option_map text_of qualifier.entry) (known_of known.now) }
{
    match qualifier {
        None => true,
        Some(name) => name == known.name,
    }
}

/// Adds the columns of this name in one table reference.
fn columns_named<'a>(
    name: &str,
    known: &Known<'a>,
    found: &mut Vec<Thing<'a>, Memory>,
) -> Result<(), AllocError>
    ensures { IfOk result (λ _. things_of found.new.items
        ≡ things_of found.old.items
        ++ names.columns_named name.now known.now.offset (map column_of known.now.columns.now)) }
{
    let columns: &'a [Column] = known.columns;
    for (index, column) in columns.iter().enumerate() {
        if column.is_named(name) {
            found.push(Thing::Column(known.offset + index, column))?;
        }
    }
    Ok(())
}

/// Returns the type of the column with this index, or INTEGER if there is none.
fn kind_at(columns: &[Column], number: usize) -> Kind
    ensures { plain_kind result ≡ names.kind_at (map column_of columns.now) number }
{
    match columns.get(number) {
        Some(column) => column.kind,
        None => Kind::Int,
    }
}

/// Whether the period has this name.
fn is_called(application: &Application, name: &str) -> bool
    ensures { result ≡ same_text name.now (string_bytes application.now.name) }
{
    name == application.name.as_str()
}

/// Adds the application periods of this name in one table reference.
fn periods_named<'a>(
    name: &str,
    known: &Known<'a>,
    found: &mut Vec<Thing<'a>, Memory>,
) -> Result<(), AllocError>
    ensures { IfOk result (λ _. things_of found.new.items ≡ things_of found.old.items
        ++ names.periods_named name.now known.now.offset (map column_of known.now.columns.now)
        (map application_of known.now.applications.now)) }
{
    let applications: &'a [Application] = known.applications;
    for application in applications {
        if is_called(application, name) {
            let kind = kind_at(known.columns, application.start);
            found.push(Thing::Period(
                known.offset + application.start,
                known.offset + application.end,
                kind,
            ))?;
        }
    }
    Ok(())
}

/// Adds what a name means in one table reference: columns and application periods.
fn things_in<'a>(
    name: &str,
    known: &Known<'a>,
    found: &mut Vec<Thing<'a>, Memory>,
) -> Result<(), AllocError>
    ensures { IfOk result
        (λ _. things_of found.new.items ≡ things_of found.old.items
        ++ names.things_in name.now (known_of known.now)) }
{
    columns_named(name, known, found)?;
    periods_named(name, known, found)
}

/// Returns what a name means in all table references that its qualifier allows.
fn things_called<'a>(
    memory: Memory,
    scope: &[Known<'a>],
    qualifier: Option<&str>,
    name: &str,
) -> Result<Vec<Thing<'a>, Memory>, AllocError>
    ensures { IfOk result
        (λ v. things_of v.items
        ≡ names.things (scope_of scope.now)
        (record { qualifier = option_map text_of qualifier.entry; name = name.now })) }
{
    let mut found = Vec::new(memory);
    for known in scope {
        if is_meant(qualifier, known) {
            things_in(name, known, &mut found)?;
        }
    }
    Ok(found)
}

/// Returns what a name with an optional qualifier means.
pub fn things<'a>(
    memory: Memory,
    scope: &[Known<'a>],
    named: Named<'_>,
) -> Result<Vec<Thing<'a>, Memory>, AllocError>
    ensures { IfOk result (λ v. things_of v.items ≡ names.things (scope_of scope.now) (named_of named.entry)) }
{
    let name = meant(memory, named.name)?;
    match named.qualifier {
        None => things_called(memory, scope, None, name.as_str()),
        Some(qualifier) => {
            let qualifier = meant(memory, qualifier)?;
            things_called(memory, scope, Some(qualifier.as_str()), name.as_str())
        }
    }
}

/// Returns the byte offset of the table reference that has the column with this index.
fn table_start(scope: &[Known<'_>], number: usize) -> u32 {
    let mut start = 0;
    for known in scope {
        if known.offset <= number {
            start = known.start;
        }
    }
    start
}

/// Returns the index of a column, or of the start column of a period.
fn first_number(thing: Thing<'_>) -> usize {
    match thing {
        Thing::Column(number, _) | Thing::Period(number, _, _) => number,
    }
}

/// Returns the cause and place of the fault that a name does not mean exactly one column.
pub fn no_column(scope: &[Known<'_>], start: u32, things: &[Thing<'_>]) -> About {
    match things {
        [] => About::at(Cause::NoColumn, start),
        [first, second, ..] => About {
            also: table_start(scope, first_number(*second)),
            ..About::at(Cause::Ambiguous, start).and(table_start(scope, first_number(*first)))
        },
        [_] => About::at(Cause::PeriodForColumn, start),
    }
}

/// Returns the index and the type of a column. None for a period.
fn as_column(thing: Thing<'_>) -> Option<(usize, Kind)>
    ensures { option_map numbered result ≡ sole_column (thing_of thing.entry ∷ []) }
{
    match thing {
        Thing::Column(number, column) => Some((number, column.kind)),
        Thing::Period(_, _, _) => None,
    }
}

/// Returns the index and the type of the column that a name means. None unless it means exactly one column and nothing
/// else.
pub fn sole_column(found: &[Thing<'_>]) -> Option<(usize, Kind)>
    ensures { option_map numbered result ≡ sole_column (things_of found.now) }
{
    match found {
        [thing] => as_column(*thing),
        _ => None,
    }
}
