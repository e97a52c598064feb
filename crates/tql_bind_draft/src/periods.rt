//! The periods of a new table, by the numbers of their columns.
ghost use Rattle.std.specs.Prelude.{◌≡◌, ◌||◌, IfOk, map, not, option_map};
ghost use Rattle.tql_spec.specs.Creation as spec;
ghost use Rattle.tql_spec.specs.Creation.{has_number, first_of};
ghost use Rattle.tql_spec.specs.Datum.{Moments, same_kind};
ghost use Rattle.tql_spec.specs.Names.{check_each};
ghost use Rattle.tql_spec.specs.Words.{same_text};
ghost use Rattle.tql_catalog.specs.Definitions.{application_of, system_of};
ghost use Rattle.tql_bind_expr.specs.Gathered.{Gathers};
ghost use Rattle.tql_bind_expr.specs.Scopes.{word_of};
ghost use Rattle.tql_bind_draft.specs.Drafts.{column_of, application_part, system_part, names_in, starts_in, stops_in};
ghost use Rattle.tql_bind_draft.specs.Drafts.{kind_in, is_generated_in, application_in, system_in};

use crate::columns::{is_end_at, is_generated_at, is_start_at, kind_at, number_in};
use crate::draft::{NewApplication, NewColumn, NewSystem};
use std::alloc::AllocError;
use tql_bind_expr::about::{About, Cause};
use tql_bind_expr::faults::Faults;
use tql_bind_expr::texts::{Word, is_same_text};
use tql_catalog::definition::{Application, System, are_ends};
use tql_memory::Memory;
use tql_value::refusal::Refusal;
use tql_value::value::Kind;

/// Returns the number of the column of this name. Adds a fault if there is none.
pub fn column_number(columns: &[NewColumn<'_>], name: &Word, faults: &mut Faults) -> usize
    ensures { Gathers (spec.column_number (names_in (map column_of columns.now)) (word_of name.now))
        faults.old faults.new result }
{
    faults.or_first(
        number_in(columns, &name.text),
        About::at(Cause::NoColumn, name.start),
    )
}

/// Whether the columns are neither both of type DATE nor both of type TIMESTAMP.
fn are_no_ends(columns: &[NewColumn<'_>], start: usize, end: usize) -> bool
    ensures { result ≡ not (spec.are_ends (kind_in (map column_of columns.now) start)
        (kind_in (map column_of columns.now) end)) }
{
    !are_ends(kind_at(columns, start), kind_at(columns, end))
}

/// Returns the cause and place of the fault that two columns cannot be the ends of one period.
fn no_ends(
    cause: Cause,
    columns: &[NewColumn<'_>],
    first: &Word,
    last: &Word,
    start: usize,
    end: usize,
) -> About {
    About::at(cause, first.start)
        .and(last.start)
        .kinds(Some(kind_at(columns, start)), Some(kind_at(columns, end)))
}

/// Whether one column is named twice, or one of the two is generated.
fn is_wrong_application(
    columns: &[NewColumn<'_>],
    period: &NewApplication,
    start: usize,
    end: usize,
) -> bool
    ensures { result ≡ (same_text (application_part period.now).start (application_part period.now).end
        || is_generated_in (map column_of columns.now) start || is_generated_in (map column_of columns.now) end) }
{
    is_same_text(&period.start.text, &period.end.text)
        || is_generated_at(columns, start)
        || is_generated_at(columns, end)
}

/// Binds an application period. Adds a fault if a column is unknown or generated, one column is named twice, or the two
/// are neither both of type DATE nor both of type TIMESTAMP. The only error is a refused allocation.
fn application_period(
    memory: Memory,
    columns: &[NewColumn<'_>],
    period: &NewApplication,
    faults: &mut Faults,
) -> Result<Application, AllocError>
    ensures { IfOk result
        (λ a. Gathers (application_in (map column_of columns.now) (application_part period.now))
        faults.old faults.new (application_of a)) }
{
    let start = column_number(columns, &period.start, faults);
    let end = column_number(columns, &period.end, faults);
    faults.refuse_if(
        are_no_ends(columns, start, end),
        Refusal::TypesDoNotFit,
        no_ends(
            Cause::NoEnds,
            columns,
            &period.start,
            &period.end,
            start,
            end,
        ),
    );
    faults.refuse_if(
        is_wrong_application(columns, period, start, end),
        Refusal::FormNotAllowedHere,
        About::at(Cause::WrongEnds, period.start.start).and(period.end.start),
    );
    Ok(Application {
        name: period.name.text.clone()?,
        start,
        end,
    })
}

/// Binds the application periods. Faults: those of each.
pub fn application_periods(
    memory: Memory,
    columns: &[NewColumn<'_>],
    periods: &[NewApplication],
    faults: &mut Faults,
) -> Result<Vec<Application, Memory>, AllocError>
    ensures { IfOk result
        (λ as'. Gathers (check_each (application_in (map column_of columns.now)) (map application_part periods.now))
        faults.old faults.new (map application_of as'.items)) }
{
    let mut applications = Vec::with_capacity(memory, periods.len())?;
    for period in periods {
        applications.push(application_period(memory, columns, period, faults)?)?;
    }
    Ok(applications)
}

/// Returns the first of the application periods, if there is one.
pub fn first_application(
    memory: Memory,
    applications: &[Application],
) -> Result<Option<Application>, AllocError>
    ensures { IfOk result (λ a. option_map application_of a ≡ first_of (map application_of applications.now)) }
{
    match applications.first() {
        Some(first) => Ok(Some(Application {
            name: first.name.clone()?,
            start: first.start,
            end: first.end,
        })),
        None => Ok(None),
    }
}

/// Whether the column with this number is of type TIMESTAMP.
fn is_moment_at(columns: &[NewColumn<'_>], number: usize) -> bool
    ensures { result ≡ same_kind (kind_in (map column_of columns.now) number) Moments }
{
    matches!(kind_at(columns, number), Kind::Moment)
}

/// Whether one of these columns is not of type TIMESTAMP.
fn has_no_moment(columns: &[NewColumn<'_>], start: usize, end: usize) -> bool
    ensures { result ≡ (not (same_kind (kind_in (map column_of columns.now) start) Moments)
        || not (same_kind (kind_in (map column_of columns.now) end) Moments)) }
{
    !is_moment_at(columns, start) || !is_moment_at(columns, end)
}

/// Whether the period does not name a ROW START column and a ROW END column, in that order.
fn is_wrong_system(columns: &[NewColumn<'_>], period: &NewSystem, start: usize, end: usize) -> bool
    ensures { result ≡ (same_text (system_part period.now).start (system_part period.now).end
        || not (has_number start (starts_in (map column_of columns.now)))
        || not (has_number end (stops_in (map column_of columns.now)))) }
{
    is_same_text(&period.start.text, &period.end.text)
        || !is_start_at(columns, start)
        || !is_end_at(columns, end)
}

/// Binds a system period. Adds a fault if a column is unknown, one is not of type TIMESTAMP, or they are not ROW START
/// and ROW END in that order.
fn system_period(columns: &[NewColumn<'_>], period: &NewSystem, faults: &mut Faults) -> System
    ensures { Gathers (system_in (map column_of columns.now) (system_part period.now))
        faults.old faults.new (system_of result) }
{
    let start = column_number(columns, &period.start, faults);
    let end = column_number(columns, &period.end, faults);
    faults.refuse_if(
        has_no_moment(columns, start, end),
        Refusal::TypesDoNotFit,
        no_ends(
            Cause::NoSystemEnds,
            columns,
            &period.start,
            &period.end,
            start,
            end,
        ),
    );
    faults.refuse_if(
        is_wrong_system(columns, period, start, end),
        Refusal::FormNotAllowedHere,
        About::at(Cause::WrongSystemEnds, period.start.start).and(period.end.start),
    );
    System { start, end }
}

/// Binds the system periods. Faults: those of each. The only error is a refused allocation.
pub fn system_periods(
    memory: Memory,
    columns: &[NewColumn<'_>],
    periods: &[NewSystem],
    faults: &mut Faults,
) -> Result<Vec<System, Memory>, AllocError>
    ensures { IfOk result
        (λ ss. Gathers (check_each (system_in (map column_of columns.now)) (map system_part periods.now)) faults.old
        faults.new (map system_of ss.items)) }
{
    let mut systems = Vec::with_capacity(memory, periods.len())?;
    for period in periods {
        systems.push(system_period(columns, period, faults))?;
    }
    Ok(systems)
}

/// Returns the first of the system periods, if there is one.
pub fn first_system(systems: &[System]) -> Option<System>
    ensures { option_map system_of result ≡ first_of (map system_of systems.now) }
{
    match systems.first() {
        Some(first) => Some(*first),
        None => None,
    }
}
