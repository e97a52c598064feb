//! FOR PORTION OF.
ghost use Rattle.std.specs.Prelude.{◌≡◌, IfOk, Some, option_map};
ghost use Rattle.std.specs.List.{list_any};
ghost use Rattle.tql_spec.specs.Binding as binding;
ghost use Rattle.tql_spec.specs.Creation as creation;
ghost use Rattle.tql_period.specs.Points.{points_of};
ghost use Rattle.tql_syntax_tree.specs.Expressions.{name_of};
ghost use Rattle.tql_syntax_tree.specs.Statements.{point_of, portion_of};
ghost use Rattle.tql_value.specs.Views.{plain_kind};
ghost use Rattle.tql_bind_expr.specs.Gathered.{Gathers};
ghost use Rattle.tql_bind_change.specs.Portions.{kind_at, differs};

use std::alloc::AllocError;
use tql_bind_expr::about::{About, Cause};
use tql_bind_expr::faults::Faults;
use tql_bind_expr::kinds::differ;
use tql_bind_expr::texts::{is_same_text, meant, unquoted};
use tql_catalog::table_def::TableDef;
use tql_memory::Memory;
use tql_period::period::Period;
use tql_syntax_tree::expression::Name;
use tql_syntax_tree::statement::{PointTree, PortionTree, SetTree};
use tql_value::literal::{read_date, read_timestamp};
use tql_value::refusal::Refusal;
use tql_value::value::Kind;

/// Returns the kind of a point.
fn point_kind(point: PointTree<'_>) -> Kind
    ensures { plain_kind result ≡ binding.point_kind (point_of point.entry) }
{
    match point {
        PointTree::Date(_) => Kind::Day,
        PointTree::Moment(_) => Kind::Moment,
    }
}

/// Returns the point that a literal gives, in days or in microseconds since 1970-01-01. None if it is not valid.
fn read_point(memory: Memory, point: PointTree<'_>) -> Result<Option<i64>, AllocError>
    ensures { IfOk result (λ read. read ≡ binding.read_point (point_of point.entry)) }
{
    match point {
        PointTree::Date(quoted) => {
            let text = unquoted(memory, quoted)?;
            Ok(read_date(&text))
        }
        PointTree::Moment(quoted) => {
            let text = unquoted(memory, quoted)?;
            Ok(read_timestamp(&text))
        }
    }
}

/// Returns the kind of the points in the column with this number, or DATE if there is none.
fn points_kind(definition: &TableDef, number: usize) -> Kind
    ensures { plain_kind result ≡ kind_at definition.now number }
{
    match definition.columns().get(number) {
        Some(column) => column.kind,
        None => Kind::Day,
    }
}

/// Returns the kind of the points of the table's application period, if any. Adds a fault unless it has this name.
#[tactic(auto, using(tql_bind_expr::proofs::Gathering::gathering))]
fn period_kind(
    memory: Memory,
    definition: &TableDef,
    name: Name<'_>,
    faults: &mut Faults,
) -> Result<Option<Kind>, AllocError>
    ensures { IfOk result
        (λ kind. Gathers (binding.period_kind definition.now definition.now.application (name_of name.entry))
        faults.old faults.new (option_map plain_kind kind)) }
{
    let Some(application) = definition.application() else {
        faults.refuse_if(
            true,
            Refusal::NameUnknownAmbiguousOrRepeated,
            About::at(Cause::NoPeriod, name.start),
        );
        return Ok(None);
    };
    let start = name.start;
    let name = meant(memory, name)?;
    faults.refuse_if(
        !is_same_text(&name, &application.name),
        Refusal::NameUnknownAmbiguousOrRepeated,
        About::at(Cause::NoPeriod, start),
    );
    Ok(Some(points_kind(definition, application.start)))
}

/// Returns the kind of the points of the period that a portion names, if known. Adds a fault if it is SYSTEM_TIME,
/// whose points are moments, or is no application period of the table.
#[tactic(auto, using(tql_bind_expr::proofs::Gathering::gathering))]
fn portion_period(
    memory: Memory,
    definition: &TableDef,
    period: Option<Name<'_>>,
    faults: &mut Faults,
) -> Result<Option<Kind>, AllocError>
    ensures { IfOk result
        (λ kind. Gathers (binding.portion_period definition.now (option_map name_of period.entry))
        faults.old faults.new (option_map plain_kind kind)) }
{
    match period {
        Some(name) => period_kind(memory, definition, name, faults),
        None => {
            faults.refuse_if(
                true,
                Refusal::FormNotAllowedHere,
                About::at(Cause::PortionOfSystem, 0),
            );
            if definition.is_versioned() {
                Ok(Some(Kind::Moment))
            } else {
                Ok(None)
            }
        }
    }
}

/// Whether the kind is known and a point of the portion is of another.
fn is_other_point(kind: Option<Kind>, portion: PortionTree<'_>) -> bool
    ensures { result ≡ differs (option_map plain_kind kind) (portion_of portion.entry) }
{
    differ(kind, Some(point_kind(portion.from))) || differ(kind, Some(point_kind(portion.to)))
}

/// Returns the portion between two points. Adds a fault if one is missing, or the first is not before the second.
#[tactic(auto, using(tql_bind_expr::proofs::Gathering::gathering))]
fn rising(start: u32, from: Option<i64>, to: Option<i64>, faults: &mut Faults) -> Option<Period>
    ensures { Gathers (binding.rising from to) faults.old faults.new (option_map points_of result) }
{
    let (Some(from), Some(to)) = (from, to) else {
        faults.refuse_if(
            true,
            Refusal::ValueOutOfRange,
            About::at(Cause::NoPoint, start),
        );
        return None;
    };
    let portion = Period::new(from, to);
    faults.refuse_if(
        portion.is_none(),
        Refusal::PortionNotRising,
        About::at(Cause::PortionNotRising, start),
    );
    portion
}

/// Returns the byte offset of a name.
fn name_start(name: Name<'_>) -> u32 {
    name.start
}

/// Binds a portion.
fn named_portion(
    memory: Memory,
    definition: &TableDef,
    portion: PortionTree<'_>,
    faults: &mut Faults,
) -> Result<Option<Period>, AllocError>
    ensures { IfOk result
        (λ period. Gathers (binding.portion definition.now (Some (portion_of portion.entry)))
        faults.old faults.new (option_map points_of period)) }
{
    let kind = portion_period(memory, definition, portion.period, faults)?;
    let start = portion.period.map_or(0, name_start);
    faults.refuse_if(
        is_other_point(kind, portion),
        Refusal::TypesDoNotFit,
        About::at(Cause::PortionKind, start).kinds(kind, None),
    );
    let from = read_point(memory, portion.from)?;
    let to = read_point(memory, portion.to)?;
    Ok(rising(start, from, to, faults))
}

/// Binds the portion of a change, if one is written. Faults: its period is SYSTEM_TIME, or no application period of the
/// table; a point is of another kind than the period's, or is not valid; the first point is not before the second.
pub fn portion(
    memory: Memory,
    definition: &TableDef,
    portion: Option<PortionTree<'_>>,
    faults: &mut Faults,
) -> Result<Option<Period>, AllocError>
    ensures { IfOk result
        (λ period. Gathers (binding.portion definition.now (option_map portion_of portion.entry))
        faults.old faults.new (option_map points_of period)) }
{
    match portion {
        Some(portion) => named_portion(memory, definition, portion, faults),
        None => Ok(None),
    }
}

/// Whether the column with this number belongs to the table's application period.
fn is_of_period(definition: &TableDef, number: usize) -> bool
    ensures { result ≡ creation.has_number number (creation.period_columns definition.now.application) }
{
    match definition.application() {
        Some(application) => number == application.start || number == application.end,
        None => false,
    }
}

/// Returns the byte offset of the assignment at this position of SET.
fn set_start(first: &SetTree<'_>, more: &[SetTree<'_>], index: usize) -> u32 {
    let Some(index) = index.checked_sub(1) else {
        return first.column.start;
    };
    match more.get(index) {
        Some(set) => set.column.start,
        None => 0,
    }
}

/// Returns the cause and place of the fault that an UPDATE of a portion sets a column of the period. `numbers` are the
/// columns that are set.
pub(crate) fn period_assigned(
    definition: &TableDef,
    first: &SetTree<'_>,
    more: &[SetTree<'_>],
    numbers: &[usize],
) -> About {
    for (index, number) in numbers.iter().enumerate() {
        if is_of_period(definition, *number) {
            return About::at(Cause::PeriodAssigned, set_start(first, more, index));
        }
    }
    About::unknown()
}

/// Whether a change of a portion sets a column of the period.
pub fn sets_period(
    definition: &TableDef,
    portion: Option<PortionTree<'_>>,
    numbers: &[usize],
) -> bool
    ensures { result ≡ binding.sets_period definition.now (option_map portion_of portion.entry) numbers.now }
{
    portion.is_some()
        && numbers
            .iter()
            .any(|number| is_of_period(definition, *number))
}
