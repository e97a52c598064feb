//! The column lists of keys and references, by the numbers of their columns.
ghost use Rattle.std.specs.Prelude.{◌≡◌, ◌||◌, IfOk, Some, map, option_map};
ghost use Rattle.std.specs.List.{list_any};
ghost use Rattle.tql_spec.specs.Creation as spec;
ghost use Rattle.tql_spec.specs.Creation.{has_number, period_columns, shares_number};
ghost use Rattle.tql_spec.specs.Names.{check_each, refuse_if};
ghost use Rattle.tql_spec.specs.Refusal.{NameUnknownAmbiguousOrRepeated};
ghost use Rattle.tql_spec.specs.Words.{listed};
ghost use Rattle.tql_catalog.specs.Definitions.{application_of};
ghost use Rattle.tql_bind_expr.specs.Gathered.{after, Gathers};
ghost use Rattle.tql_bind_expr.specs.Scopes.{word_of};
ghost use Rattle.tql_bind_draft.specs.Drafts.{column_of, list_part, names_in, names_of_periods, is_generated_in};
ghost use Rattle.tql_bind_draft.specs.Drafts.{columns_in, applications_in, written_of, listed_in};
ghost use Rattle.tql_bind_draft.specs.PeriodNames.{AreNames, names_of_bound};

use crate::columns::is_generated_at;
use crate::draft::{Draft, NewColumn, NewList};
use crate::names::is_period;
use crate::period_names::PeriodNames;
use crate::periods::column_number;
use std::alloc::AllocError;
use tql_bind_expr::about::{About, Cause};
use tql_bind_expr::faults::Faults;
use tql_bind_expr::repeats::{about_repeated, repeated};
use tql_bind_expr::texts::Word;
use tql_catalog::definition::Application;
use tql_memory::Memory;
use tql_value::refusal::Refusal;

/// Returns the numbers of the columns of these names. Adds a fault for each name that no column has.
fn each_number(
    memory: Memory,
    columns: &[NewColumn<'_>],
    names: &[Word],
    faults: &mut Faults,
) -> Result<Vec<usize, Memory>, AllocError>
    ensures { IfOk result
        (λ numbers. Gathers (check_each (spec.column_number (names_in (map column_of columns.now)))
        (map word_of names.now)) faults.old faults.new numbers.items) }
{
    let mut numbers = Vec::with_capacity(memory, names.len())?;
    for name in names {
        numbers.push(column_number(columns, name, faults))?;
    }
    Ok(numbers)
}

/// Adds a fault if a name is repeated. The names are not compared if a known fault is of the same kind, such as an
/// unknown column, or is reported first. Otherwise all are names of a table's at most 64 columns, so any 65 of them
/// contain a repeat.
#[tactic(auto, using(crate::proofs::Gathered::no_more))]
pub fn refuse_repeated(names: &[Word], faults: &mut Faults)
    ensures { Gathers (refuse_if (spec.repeats (map word_of names.now)) NameUnknownAmbiguousOrRepeated)
        faults.old faults.new tt }
{
    let is_known = match faults.least() {
        Some(least) => least.place() <= Refusal::NameUnknownAmbiguousOrRepeated.place(),
        None => false,
    };
    if is_known {
        return;
    }
    let repeated = repeated(names);
    faults.refuse_if(
        repeated.is_some(),
        Refusal::NameUnknownAmbiguousOrRepeated,
        about_repeated(repeated),
    );
}

/// Returns the numbers of the columns of these names. Adds a fault if no column has a name, or a name is repeated.
#[tactic(auto, using(tql_bind_expr::proofs::Gathering::gathering))]
fn column_numbers(
    memory: Memory,
    columns: &[NewColumn<'_>],
    names: &[Word],
    faults: &mut Faults,
) -> Result<Vec<usize, Memory>, AllocError>
    ensures { IfOk result
        (λ numbers. Gathers (spec.column_numbers (names_in (map column_of columns.now)) (map word_of names.now))
        faults.old faults.new numbers.items) }
{
    let numbers = each_number(memory, columns, names, faults)?;
    refuse_repeated(names, faults);
    Ok(numbers)
}

/// Adds a fault if the list names a period that is not an application period of the table.
#[tactic(auto, using(tql_bind_expr::proofs::Gathering::gathering, crate::proofs::ListLaws::one_sought))]
fn seek_period(draft: &Draft<'_>, list: &NewList, faults: &mut Faults)
    requires { AreNames draft.now.names (names_of_periods (applications_in draft.now)) }
    ensures { faults.new ≡ after faults.old
        (check_each (spec.column_number (names_of_periods (applications_in draft.now)))
        (listed (list_part list.now).period)).faults }
{
    if let Some(name) = &list.period {
        faults.refuse_if(
            !is_period(draft, &name.text),
            Refusal::NameUnknownAmbiguousOrRepeated,
            About::at(Cause::NoPeriod, name.start),
        );
    }
}

/// Whether one of these columns is generated.
fn has_generated(columns: &[NewColumn<'_>], numbers: &[usize]) -> bool
    ensures { result ≡ list_any (is_generated_in (map column_of columns.now)) numbers.now }
{
    for number in numbers {
        if is_generated_at(columns, *number) {
            return true;
        }
    }
    false
}

/// Returns the application period that the list names, by the names of all.
pub fn period_called<'a>(
    names: &PeriodNames,
    applications: &'a [Application],
    list: &NewList,
) -> Option<&'a Application>
    requires { AreNames names.now (names_of_bound (map application_of applications.now)) }
    ensures { option_map (λ a. application_of a.now) result
        ≡ spec.period_called (list_part list.now).period (map application_of applications.now) }
{
    match &list.period {
        Some(name) => first_called(names, applications, &name.text),
        None => None,
    }
}

/// Returns the first application period of this name, by the names of all.
fn first_called<'a>(
    names: &PeriodNames,
    applications: &'a [Application],
    name: &str,
) -> Option<&'a Application>
    requires { AreNames names.now (names_of_bound (map application_of applications.now)) }
    ensures { option_map (λ a. application_of a.now) result
        ≡ spec.period_called (Some name.now) (map application_of applications.now) }
{
    match names.place_of(name) {
        Some(place) => applications.get(place),
        None => None,
    }
}

/// Whether the column with this number is a column of the application period.
fn is_of_period(application: Option<&Application>, number: usize) -> bool
    ensures { result ≡ has_number number
        (period_columns (option_map (λ a. application_of a.now) application.entry)) }
{
    match application {
        Some(application) => number == application.start || number == application.end,
        None => false,
    }
}

/// Whether one of these columns is a column of the application period.
fn shares_period(application: Option<&Application>, numbers: &[usize]) -> bool
    ensures { result ≡ shares_number numbers.now
        (period_columns (option_map (λ a. application_of a.now) application.entry)) }
{
    for number in numbers {
        if is_of_period(application, *number) {
            return true;
        }
    }
    false
}

/// Whether one of these columns is generated, or is a column of the application period that the list names.
fn is_wrong_list(
    draft: &Draft<'_>,
    applications: &[Application],
    list: &NewList,
    numbers: &[usize],
) -> bool
    requires { AreNames draft.now.names (names_of_bound (map application_of applications.now)) }
    ensures { result ≡ (list_any (is_generated_in (columns_in draft.now)) numbers.now
        || shares_number numbers.now
        (period_columns (spec.period_called (list_part list.now).period (map application_of applications.now)))) }
{
    has_generated(&draft.columns, numbers)
        || shares_period(period_called(&draft.names, applications, list), numbers)
}

/// Returns the cause and place of the fault that a list has a generated column, or else one of its period.
fn wrong_list(draft: &Draft<'_>, list: &NewList, numbers: &[usize]) -> About {
    for (place, number) in numbers.iter().enumerate() {
        if is_generated_at(&draft.columns, *number) {
            return About::at(Cause::GeneratedInList, list.column_start(place));
        }
    }
    About::at(Cause::PeriodColumnInList, list.column_start(0))
}

/// Returns the numbers of the columns of a list. Adds a fault if a column is unknown or repeated, the list's period is
/// unknown, or a column is generated or one of that period. The only error is a refused allocation.
#[tactic(auto, using(tql_bind_expr::proofs::Gathering::gathering))]
pub fn listed_columns(
    memory: Memory,
    draft: &Draft<'_>,
    applications: &[Application],
    list: &NewList,
    faults: &mut Faults,
) -> Result<Vec<usize, Memory>, AllocError>
    requires names { AreNames draft.now.names (names_of_periods (applications_in draft.now)) }
    requires bound { AreNames draft.now.names (names_of_bound (map application_of applications.now)) }
    ensures { IfOk result
        (λ numbers. Gathers (listed_in (written_of draft.now) (map application_of applications.now)
        (list_part list.now)) faults.old faults.new numbers.items) }
{
    let numbers = column_numbers(memory, &draft.columns, &list.columns, faults)?;
    seek_period(draft, list, faults);
    faults.refuse_if(
        is_wrong_list(draft, applications, list, &numbers),
        Refusal::FormNotAllowedHere,
        wrong_list(draft, list, &numbers),
    );
    Ok(numbers)
}
