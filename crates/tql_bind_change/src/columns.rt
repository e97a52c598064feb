//! Lookup of columns by name and by number.
ghost use Rattle.std.specs.Prelude.{◌≡◌, IfOk, map, slice_index_or};
ghost use Rattle.std.specs.List.{list_any};
ghost use Rattle.tql_spec.specs.Binding as binding;
ghost use Rattle.tql_spec.specs.Creation as creation;
ghost use Rattle.tql_spec.specs.Creation.{names_of, kinds_of};
ghost use Rattle.tql_spec.specs.Datum.{Ints};
ghost use Rattle.tql_spec.specs.Names.{check_each, refuse_if};
ghost use Rattle.tql_spec.specs.Refusal.{NameUnknownAmbiguousOrRepeated};
ghost use Rattle.tql_syntax_tree.specs.Expressions.{name_of};
ghost use Rattle.tql_value.specs.Views.{plain_kind};
ghost use Rattle.tql_bind_expr.specs.Gathered.{Gathers};
ghost use Rattle.tql_bind_expr.specs.Scopes.{word_of};

use std::alloc::AllocError;
use tql_bind_expr::about::{About, Cause};
use tql_bind_expr::faults::Faults;
use tql_bind_expr::repeats::{about_repeated, repeated};
use tql_bind_expr::texts::{Word, meant_word};
use tql_catalog::table_def::TableDef;
use tql_memory::Memory;
use tql_syntax_tree::expression::Name;
use tql_value::refusal::Refusal;
use tql_value::value::Kind;

/// Returns the number of the column of this name.
fn column_place(definition: &TableDef, name: &str) -> Option<usize>
    ensures { result ≡ creation.number_in name.now (names_of definition.now) }
{
    definition
        .columns()
        .iter()
        .position(|column| column.is_named(name))
}

/// Returns the number of the column of this name. Adds a fault if there is none.
pub(crate) fn column_number(definition: &TableDef, name: &Word, faults: &mut Faults) -> usize
    ensures { Gathers (creation.column_number (names_of definition.now) (word_of name.now))
        faults.old faults.new result }
{
    faults.or_first(
        column_place(definition, &name.text),
        About::at(Cause::NoColumn, name.start),
    )
}

/// Returns the number of the column that a name means. Adds a fault if there is none.
pub(crate) fn named_column(
    memory: Memory,
    definition: &TableDef,
    name: Name<'_>,
    faults: &mut Faults,
) -> Result<usize, AllocError>
    ensures { IfOk result
        (λ number. Gathers (creation.column_number (names_of definition.now) (name_of name.entry))
        faults.old faults.new number) }
{
    let word = meant_word(memory, name)?;
    Ok(column_number(definition, &word, faults))
}

/// Decodes names.
fn meant_names(memory: Memory, names: &[Name<'_>]) -> Result<Vec<Word, Memory>, AllocError>
    ensures { IfOk result (λ texts. map word_of texts.items ≡ map name_of names.now) }
{
    let mut texts = Vec::with_capacity(memory, names.len())?;
    for name in names {
        texts.push(meant_word(memory, *name)?)?;
    }
    Ok(texts)
}

/// Returns the numbers of the columns of these names. Adds a fault for each name that no column has.
fn listed_columns(
    memory: Memory,
    definition: &TableDef,
    names: &[Word],
    faults: &mut Faults,
) -> Result<Vec<usize, Memory>, AllocError>
    ensures { IfOk result
        (λ numbers. Gathers (check_each (creation.column_number (names_of definition.now))
        (map word_of names.now)) faults.old faults.new numbers.items) }
{
    let mut numbers = Vec::with_capacity(memory, names.len())?;
    for name in names {
        numbers.push(column_number(definition, name, faults))?;
    }
    Ok(numbers)
}

/// Adds a fault if a name is repeated. The names are not compared if a known fault is of the same kind, such as an
/// unknown column, or is reported first. Otherwise all are names of a table's at most 64 columns, so any 65 of them
/// contain a repeat.
#[tactic(auto, using(crate::proofs::ColumnLaws::no_more))]
fn refuse_repeated(names: &[Word], faults: &mut Faults)
    ensures { Gathers (refuse_if (creation.repeats (map word_of names.now)) NameUnknownAmbiguousOrRepeated)
        faults.old faults.new tt }
{
    let is_known = match faults.least() {
        Some(least) => least.place() <= Refusal::NameUnknownAmbiguousOrRepeated.place(),
        None => false,
    };
    if is_known {
        return;
    }
    let repeated = repeated(names);
    faults.refuse_if(
        repeated.is_some(),
        Refusal::NameUnknownAmbiguousOrRepeated,
        about_repeated(repeated),
    );
}

/// Returns the numbers of the columns of these names. Adds a fault if no column has a name, or a name is repeated.
#[tactic(auto, using(tql_bind_expr::proofs::Gathering::gathering))]
fn column_numbers(
    memory: Memory,
    definition: &TableDef,
    names: &[Word],
    faults: &mut Faults,
) -> Result<Vec<usize, Memory>, AllocError>
    ensures { IfOk result
        (λ numbers. Gathers (creation.column_numbers (names_of definition.now) (map word_of names.now))
        faults.old faults.new numbers.items) }
{
    let numbers = listed_columns(memory, definition, names, faults)?;
    refuse_repeated(names, faults);
    Ok(numbers)
}

/// Whether one of the columns is generated.
fn has_generated(definition: &TableDef, numbers: &[usize]) -> bool
    ensures { result ≡ list_any (binding.is_generated definition.now) numbers.now }
{
    for number in numbers {
        if definition.is_generated(*number) {
            return true;
        }
    }
    false
}

/// Returns the cause and place of the fault that a list has a generated column.
fn generated_in(definition: &TableDef, names: &[Word], numbers: &[usize]) -> About {
    for (name, number) in names.iter().zip(numbers.iter()) {
        if definition.is_generated(*number) {
            return About::at(Cause::GeneratedAssigned, name.start);
        }
    }
    About::unknown()
}

/// Returns the numbers of the columns of these names, for assignment. Adds a fault if no column has a name, a name is
/// repeated, or a column is generated.
#[tactic(auto, using(tql_bind_expr::proofs::Gathering::gathering))]
pub fn assigned_columns(
    memory: Memory,
    definition: &TableDef,
    names: &[Word],
    faults: &mut Faults,
) -> Result<Vec<usize, Memory>, AllocError>
    ensures { IfOk result
        (λ numbers. Gathers (binding.assigned_columns definition.now (map word_of names.now))
        faults.old faults.new numbers.items) }
{
    let numbers = column_numbers(memory, definition, names, faults)?;
    faults.refuse_if(
        has_generated(definition, &numbers),
        Refusal::FormNotAllowedHere,
        generated_in(definition, names, &numbers),
    );
    Ok(numbers)
}

/// Returns the numbers of the columns that an INSERT fills: those of its list, or without a list all that are not
/// generated. Faults: those of `assigned_columns`.
#[tactic(auto, using(tql_bind_expr::proofs::Gathering::gathering))]
pub fn insert_columns(
    memory: Memory,
    definition: &TableDef,
    names: &[Name<'_>],
    faults: &mut Faults,
) -> Result<Vec<usize, Memory>, AllocError>
    ensures { IfOk result
        (λ numbers. Gathers (binding.insert_columns definition.now (map name_of names.now))
        faults.old faults.new numbers.items) }
{
    if names.is_empty() {
        return Ok(Vec::from_slice(memory, definition.assignable())?);
    }
    let texts = meant_names(memory, names)?;
    assigned_columns(memory, definition, &texts, faults)
}

/// Returns the kind of the column with this number, or integer if there is none.
pub(crate) fn column_kind(definition: &TableDef, number: usize) -> Kind
    ensures { plain_kind result ≡ slice_index_or (kinds_of definition.now) number Ints }
{
    match definition.columns().get(number) {
        Some(column) => column.kind,
        None => Kind::Int,
    }
}

/// Returns the kinds of the columns with these numbers.
pub fn kinds_for(
    memory: Memory,
    definition: &TableDef,
    numbers: &[usize],
) -> Result<Vec<Kind, Memory>, AllocError>
    ensures { IfOk result (λ kinds. map plain_kind kinds.items ≡ binding.kinds_for definition.now numbers.now) }
{
    let mut kinds = Vec::with_capacity(memory, numbers.len())?;
    for number in numbers {
        kinds.push(column_kind(definition, *number))?;
    }
    Ok(kinds)
}
