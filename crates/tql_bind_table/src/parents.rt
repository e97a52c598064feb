//! The parent table of a reference: its columns, their kinds, and its application period.
ghost use Rattle.std.specs.Prelude.{◌≡◌, ◌||◌, IfOk, map, not, is_some, slice_index_or, option_map};
ghost use Rattle.tql_spec.specs.Creation as spec;
ghost use Rattle.tql_spec.specs.Creation.{names_of, kinds_of, kinds_at, application_name, application_kind};
ghost use Rattle.tql_spec.specs.Creation.{is_declared_key};
ghost use Rattle.tql_spec.specs.Datum.{Ints, same_kind};
ghost use Rattle.tql_spec.specs.Names.{check_each};
ghost use Rattle.tql_spec.specs.Words.{listed};
ghost use Rattle.tql_value.specs.Views.{plain_kind};
ghost use Rattle.tql_catalog.specs.Definitions.{application_of};
ghost use Rattle.tql_bind_expr.specs.Gathered.{after, Gathers};
ghost use Rattle.tql_bind_expr.specs.Scopes.{word_of};
ghost use Rattle.tql_bind_draft.specs.Drafts.{column_of, list_part, reference_part, kinds_in, columns_in, kind_in};
ghost use Rattle.tql_bind_draft.specs.PeriodNames.{AreNames, names_of_bound};
ghost use Rattle.tql_bind_table.specs.KeyLists.{AreTableKeys};
ghost use Rattle.tql_bind_table.specs.NewTables.{has_one_period};

use crate::parent_keys::{ParentKeys, has_key};
use std::alloc::AllocError;
use tql_bind_draft::columns::kind_at;
use tql_bind_draft::draft::{Draft, NewColumn, NewList, NewReference};
use tql_bind_draft::lists::{period_called, refuse_repeated};
use tql_bind_expr::about::{About, Cause};
use tql_bind_expr::faults::Faults;
use tql_bind_expr::texts::{Word, is_same_text};
use tql_catalog::definition::Application;
use tql_catalog::table_def::TableDef;
use tql_memory::Memory;
use tql_value::refusal::Refusal;
use tql_value::value::Kind;

/// Returns the number of the column of this name.
fn column_place(definition: &TableDef, name: &str) -> Option<usize>
    ensures { result ≡ spec.number_in name.now (names_of definition.now) }
{
    definition
        .columns()
        .iter()
        .position(|column| column.is_named(name))
}

/// Returns the numbers of the columns of these names. Adds a fault for each name that no column has.
fn listed_columns(
    memory: Memory,
    definition: &TableDef,
    names: &[Word],
    faults: &mut Faults,
) -> Result<Vec<usize, Memory>, AllocError>
    ensures { IfOk result
        (λ numbers. Gathers (check_each (spec.column_number (names_of definition.now))
        (map word_of names.now)) faults.old faults.new numbers.items) }
{
    let mut numbers = Vec::with_capacity(memory, names.len())?;
    for name in names {
        numbers.push(faults.or_first(
            column_place(definition, name.text.as_str()),
            About::at(Cause::NoColumn, name.start),
        ))?;
    }
    Ok(numbers)
}

/// Returns the numbers of the columns of these names. Adds a fault if no column has a name, or a name is repeated.
#[tactic(auto, using(tql_bind_expr::proofs::Gathering::gathering))]
pub fn parent_columns(
    memory: Memory,
    definition: &TableDef,
    names: &[Word],
    faults: &mut Faults,
) -> Result<Vec<usize, Memory>, AllocError>
    ensures { IfOk result
        (λ numbers. Gathers (spec.column_numbers (names_of definition.now) (map word_of names.now))
        faults.old faults.new numbers.items) }
{
    let numbers = listed_columns(memory, definition, names, faults)?;
    refuse_repeated(names, faults);
    Ok(numbers)
}

/// Whether the application period has this name.
fn is_period_of(definition: &TableDef, name: &str) -> bool
    ensures { result ≡ spec.has_name name.now (application_name definition.now.application) }
{
    match definition.application() {
        Some(application) => is_same_text(name, &application.name),
        None => false,
    }
}

/// Adds a fault if the list names a period that is not the application period of the table.
#[tactic(auto, using(tql_bind_expr::proofs::Gathering::gathering, tql_bind_draft::proofs::ListLaws::one_sought))]
pub fn seek_period(definition: &TableDef, list: &NewList, faults: &mut Faults)
    ensures { faults.new ≡ after faults.old
        (check_each (spec.column_number (application_name definition.now.application))
        (listed (list_part list.now).period)).faults }
{
    if let Some(name) = &list.period {
        faults.refuse_if(
            !is_period_of(definition, &name.text),
            Refusal::NameUnknownAmbiguousOrRepeated,
            About::at(Cause::NoPeriod, name.start),
        );
    }
}

/// Returns the kind of the column with this number, or integer if there is none.
fn column_kind(definition: &TableDef, number: usize) -> Kind
    ensures { plain_kind result ≡ slice_index_or (kinds_of definition.now) number Ints }
{
    match definition.columns().get(number) {
        Some(column) => column.kind,
        None => Kind::Int,
    }
}

/// Whether a column of the new table and a column of its parent have different kinds.
fn is_other_kind(
    columns: &[NewColumn<'_>],
    number: usize,
    definition: &TableDef,
    other: usize,
) -> bool
    ensures { result ≡ not (same_kind (kind_in (map column_of columns.now) number)
        (slice_index_or (kinds_of definition.now) other Ints)) }
{
    kind_at(columns, number) != column_kind(definition, other)
}

/// Whether a column list of the new table and one of its parent differ in length or in a kind.
#[tactic(auto, using(crate::proofs::KindLaws::rest_differs))]
pub fn kinds_differ(
    columns: &[NewColumn<'_>],
    numbers: &[usize],
    definition: &TableDef,
    others: &[usize],
) -> bool
    ensures { result ≡ spec.kinds_differ (kinds_at (kinds_in (map column_of columns.now)) numbers.now)
        (kinds_at (kinds_of definition.now) others.now) }
{
    let mut left = others;
    for number in numbers {
        let [other, more @ ..] = left else {
            return true;
        };
        if is_other_kind(columns, *number, definition, *other) {
            return true;
        }
        left = more;
    }
    !left.is_empty()
}

/// Returns the cause and place of the fault that two column lists differ in length, or else in a type.
pub fn differing(
    draft: &Draft<'_>,
    reference: &NewReference,
    numbers: &[usize],
    definition: &TableDef,
    others: &[usize],
) -> About {
    let child = &reference.child;
    let named = &reference.named;
    if numbers.len() != others.len() {
        return About::at(Cause::ListsDiffer, child.column_start(0))
            .and(named.column_start(0))
            .counts(numbers.len(), others.len());
    }
    for (place, (number, other)) in numbers.iter().zip(others.iter()).enumerate() {
        let kind = kind_at(&draft.columns, *number);
        let there = column_kind(definition, *other);
        if kind != there {
            return About::at(Cause::KindsDiffer, child.column_start(place))
                .and(named.column_start(place))
                .kinds(Some(kind), Some(there));
        }
    }
    About::unknown()
}

/// Returns the byte offset of a word, or 0 if there is none.
fn word_start(word: &Option<Word>) -> u32 {
    match word {
        Some(word) => word.start,
        None => 0,
    }
}

/// Returns the cause and place of the fault that the points of two periods have different types.
pub fn points_of(reference: &NewReference) -> About {
    About::at(Cause::PeriodsDiffer, word_start(&reference.child.period)).and(word_start(
        &reference.named.period,
    ))
}

/// Returns the cause and place of a wrong reference: it names a period on one side only, or else no key of the table
/// with this number.
pub fn wrong_reference(reference: &NewReference, table: usize) -> About {
    if is_half(reference) {
        About::at(Cause::HalfPeriod, reference.child.column_start(0))
    } else {
        About::at(Cause::NoKey, reference.named.column_start(0))
            .and(reference.parent.start)
            .counts(table, 0)
    }
}

/// Whether one of two periods is missing, or their points have different kinds.
fn points_differ(
    columns: &[NewColumn<'_>],
    period: Option<&Application>,
    definition: &TableDef,
) -> bool
    ensures { result ≡ spec.kinds_differ
        (application_kind (kinds_in (map column_of columns.now))
        (option_map (λ a. application_of a.now) period.entry))
        (application_kind (kinds_of definition.now) definition.now.application) }
{
    match (period, definition.application()) {
        (Some(child), Some(parent)) => {
            is_other_kind(columns, child.start, definition, parent.start)
        }
        (None, None) => false,
        _ => true,
    }
}

/// Whether both sides of a reference name a period, and the kinds of their points differ.
pub fn periods_differ(
    draft: &Draft<'_>,
    applications: &[Application],
    reference: &NewReference,
    definition: &TableDef,
) -> bool
    requires { AreNames draft.now.names (names_of_bound (map application_of applications.now)) }
    ensures { result ≡ spec.periods_differ
        (application_kind (kinds_in (columns_in draft.now))
        (spec.period_called (reference_part reference.now).child.period (map application_of applications.now)))
        (application_kind (kinds_of definition.now) definition.now.application)
        (reference_part reference.now).child.period (reference_part reference.now).named.period }
{
    match (&reference.child.period, &reference.named.period) {
        (Some(_), Some(_)) => points_differ(
            &draft.columns,
            period_called(&draft.names, applications, &reference.child),
            definition,
        ),
        _ => false,
    }
}

/// Whether exactly one side of a reference names a period.
fn is_half(reference: &NewReference) -> bool
    ensures { result ≡ has_one_period (reference_part reference.now) }
{
    match (&reference.child.period, &reference.named.period) {
        (Some(_), Some(_)) | (None, None) => false,
        _ => true,
    }
}

/// Whether exactly one side of a reference names a period, or its columns are no key of its parent.
pub fn is_wrong_reference(
    reference: &NewReference,
    parent: &ParentKeys<'_>,
    numbers: &[usize],
) -> bool
    requires { AreTableKeys parent.now }
    ensures { result ≡ (has_one_period (reference_part reference.now) || not (is_declared_key
        parent.now.definition.now (is_some (reference_part reference.now).named.period) numbers.now)) }
{
    is_half(reference) || !has_key(parent, reference.named.period.is_some(), numbers)
}
