//! Binding of periods as operands: by name, as SYSTEM_TIME, or from two expressions.
ghost use Rattle.std.specs.Prelude.{◌≡◌, ◌∷◌, [], ◌++◌, ◌||◌, IfOk, option_map};
ghost use Rattle.tql_spec.specs.Names as names;
ghost use Rattle.tql_spec.specs.Syntax as tree;
ghost use Rattle.tql_expr.specs.Meaning.{Stays};
ghost use Rattle.tql_syntax_tree.specs.Conditions.{marked_of, operand_of};
ghost use Rattle.tql_syntax_tree.specs.Expressions.{name_of, named_of, expr_of};
ghost use Rattle.tql_value.specs.Views.{plain_kind};
ghost use Rattle.tql_catalog.specs.Definitions.{system_of};
ghost use Rattle.tql_bind_expr.specs.Gathered.{Gathers};
ghost use Rattle.tql_bind_expr.specs.Scopes.{text_of, known_of, scope_of, thing_of, things_of};
ghost use Rattle.tql_bind_cond.specs.Ends.{ends_of, HasEnds, periods_of, period_of, sole_period};

use std::alloc::AllocError;
use tql_bind_expr::about::{About, Cause};
use tql_bind_expr::expressions::sum;
use tql_bind_expr::faults::Faults;
use tql_bind_expr::kinds::differ;
use tql_bind_expr::names::{is_meant, start_of, things};
use tql_bind_expr::scope::{Known, Thing};
use tql_bind_expr::texts::meant;
use tql_catalog::definition::System;
use tql_expr::terms::{ExprId, Terms};
use tql_memory::Memory;
use tql_syntax_tree::condition::{Marked, Operand};
use tql_syntax_tree::expression::{Expr, Name, Named};
use tql_value::refusal::Refusal;
use tql_value::value::{Kind, Value};

/// The start and the end of a period in the arena of its statement, with their type if that is known. `at` is the byte
/// offset of the period in the statement's text, or 0.
#[derive(Clone, Copy)]
pub struct Ends {
    pub start: ExprId,
    pub end: ExprId,
    pub kind: Option<Kind>,
    pub at: u32,
}

/// Returns the placeholder for a period that was not found.
fn no_ends(terms: &mut Terms) -> Result<Ends, AllocError>
    ensures bound { IfOk result (λ x. ends_of terms.new x ≡ names.no_ends) }
    ensures stays { Stays terms.old terms.new }
    ensures held { IfOk result (λ x. HasEnds terms.new x) }
{
    let null = terms.push_literal(Value::Null)?;
    Ok(Ends {
        start: null,
        end: null,
        kind: None,
        at: 0,
    })
}

/// Adds the period of these two columns.
pub(crate) fn ends_at(
    start: usize,
    end: usize,
    kind: Kind,
    at: u32,
    terms: &mut Terms,
) -> Result<Ends, AllocError>
    ensures bound { IfOk result (λ x. ends_of terms.new x ≡ names.ends_at start end (plain_kind kind)) }
    ensures stays { Stays terms.old terms.new }
    ensures held { IfOk result (λ x. HasEnds terms.new x) }
{
    let start = terms.push_column(start)?;
    let end = terms.push_column(end)?;
    Ok(Ends {
        start,
        end,
        kind: Some(kind),
        at,
    })
}

/// Returns the columns of a period and the type of its points. None for a column.
fn as_period(thing: Thing<'_>) -> Option<(usize, usize, Kind)>
    ensures { option_map period_of result ≡ sole_period (thing_of thing.entry ∷ []) }
{
    match thing {
        Thing::Column(_, _) => None,
        Thing::Period(start, end, kind) => Some((start, end, kind)),
    }
}

/// Returns the columns of the period that a name means. None unless it means exactly one period and nothing else.
fn sole_period(found: &[Thing<'_>]) -> Option<(usize, usize, Kind)>
    ensures { option_map period_of result ≡ sole_period (things_of found.now) }
{
    match found {
        [thing] => as_period(*thing),
        _ => None,
    }
}

/// Looks up a name as a period. None unless it means exactly one period and nothing else.
pub(crate) fn named_period(
    memory: Memory,
    scope: &[Known<'_>],
    named: Named<'_>,
) -> Result<Option<(usize, usize, Kind)>, AllocError>
    ensures { IfOk result
        (λ p. option_map period_of p ≡ sole_period (names.things (scope_of scope.now) (named_of named.entry))) }
{
    let found = things(memory, scope, named)?;
    Ok(sole_period(&found))
}

/// Binds a period by its name.
#[tactic(auto, using(tql_bind_expr::proofs::Gathering::gathering))]
fn one_period(
    memory: Memory,
    scope: &[Known<'_>],
    named: Named<'_>,
    terms: &mut Terms,
    faults: &mut Faults,
) -> Result<Ends, AllocError>
    ensures bound { IfOk result
        (λ x. Gathers (names.one_period (names.things (scope_of scope.now) (named_of named.entry))) faults.old
        faults.new (ends_of terms.new x)) }
    ensures stays { Stays terms.old terms.new }
    ensures held { IfOk result (λ x. HasEnds terms.new x) }
{
    let found = named_period(memory, scope, named)?;
    match found {
        Some((start, end, kind)) => ends_at(start, end, kind, start_of(named), terms),
        None => {
            faults.refuse_if(
                true,
                Refusal::NameUnknownAmbiguousOrRepeated,
                About::at(Cause::NotOnePeriod, start_of(named)),
            );
            no_ends(terms)
        }
    }
}

/// Adds the system period of a table reference, if it has one.
fn system_period(known: &Known<'_>, found: &mut Vec<System, Memory>) -> Result<(), AllocError>
    ensures { IfOk result (λ _. periods_of found.new.items ≡ periods_of found.old.items
        ++ names.system_ends (known_of known.now) (option_map system_of known.now.system)) }
{
    if let Some(system) = known.system {
        found.push(System {
            start: known.offset + system.start,
            end: known.offset + system.end,
        })?;
    }
    Ok(())
}

/// Returns the system periods of the table references that the qualifier allows.
fn system_periods(
    memory: Memory,
    scope: &[Known<'_>],
    qualifier: Option<&str>,
) -> Result<Vec<System, Memory>, AllocError>
    ensures { IfOk result
        (λ v. periods_of v.items ≡ names.system_periods (scope_of scope.now) (option_map text_of qualifier.entry)) }
{
    let mut found = Vec::new(memory);
    for known in scope {
        if is_meant(qualifier, known) {
            system_period(known, &mut found)?;
        }
    }
    Ok(found)
}

/// Returns the system periods of the table references that the optional qualifier allows.
fn system_periods_of(
    memory: Memory,
    scope: &[Known<'_>],
    qualifier: Option<Name<'_>>,
) -> Result<Vec<System, Memory>, AllocError>
    ensures { IfOk result
        (λ v. periods_of v.items ≡ names.system_periods (scope_of scope.now) (option_map name_of qualifier.entry)) }
{
    match qualifier {
        None => system_periods(memory, scope, None),
        Some(name) => {
            let name = meant(memory, name)?;
            system_periods(memory, scope, Some(name.as_str()))
        }
    }
}

/// Returns what the fault of SYSTEM_TIME is about, if it is a period of no table reference, or of several.
fn no_system_time(at: u32, found: &[System]) -> About {
    match found {
        [] => About::at(Cause::NoSystemTime, at),
        _ => About::at(Cause::AmbiguousSystemTime, at),
    }
}

/// Adds the system period, if there is exactly one.
#[tactic(auto, using(tql_bind_expr::proofs::Gathering::gathering))]
fn only_one(
    at: u32,
    found: &[System],
    terms: &mut Terms,
    faults: &mut Faults,
) -> Result<Ends, AllocError>
    ensures bound { IfOk result
        (λ x. Gathers (names.only_one (periods_of found.now)) faults.old faults.new (ends_of terms.new x)) }
    ensures stays { Stays terms.old terms.new }
    ensures held { IfOk result (λ x. HasEnds terms.new x) }
{
    match found {
        [system] => ends_at(system.start, system.end, Kind::Moment, at, terms),
        _ => {
            faults.refuse_if(
                true,
                Refusal::NameUnknownAmbiguousOrRepeated,
                no_system_time(at, found),
            );
            no_ends(terms)
        }
    }
}

/// Returns the byte offset of a qualifier, or 0 if there is none.
fn qualifier_start(qualifier: Option<Name<'_>>) -> u32 {
    match qualifier {
        Some(name) => name.start,
        None => 0,
    }
}

/// Binds SYSTEM_TIME, with or without a qualifier.
fn system_time(
    memory: Memory,
    scope: &[Known<'_>],
    qualifier: Option<Name<'_>>,
    terms: &mut Terms,
    faults: &mut Faults,
) -> Result<Ends, AllocError>
    ensures bound { IfOk result
        (λ x. Gathers (names.marked (scope_of scope.now) (tree.SystemTime (option_map name_of qualifier.entry)))
        faults.old faults.new (ends_of terms.new x)) }
    ensures stays { Stays terms.old terms.new }
    ensures held { IfOk result (λ x. HasEnds terms.new x) }
{
    let found = system_periods_of(memory, scope, qualifier)?;
    only_one(qualifier_start(qualifier), &found, terms, faults)
}

/// Whether a type is known and is neither DATE nor TIMESTAMP.
fn is_no_point(kind: Option<Kind>) -> bool
    ensures { result ≡ names.is_no_point (option_map plain_kind kind) }
{
    match kind {
        None | Some(Kind::Day | Kind::Moment) => false,
        Some(Kind::Int | Kind::Text) => true,
    }
}

/// Whether two types cannot be those of the start and the end of one period.
fn are_no_ends(start: Option<Kind>, end: Option<Kind>) -> bool
    ensures { result ≡ (names.is_no_point (option_map plain_kind start)
        || names.is_no_point (option_map plain_kind end)
        || names.differ (option_map plain_kind start) (option_map plain_kind end)) }
{
    is_no_point(start) || is_no_point(end) || differ(start, end)
}

/// Binds the period from one expression to another.
fn from_ends(
    memory: Memory,
    scope: &[Known<'_>],
    start: &Expr<'_>,
    end: &Expr<'_>,
    terms: &mut Terms,
    faults: &mut Faults,
) -> Result<Ends, AllocError>
    ensures bound { IfOk result
        (λ x. Gathers (names.marked (scope_of scope.now) (tree.FromEnds (expr_of start.now) (expr_of end.now)))
        faults.old faults.new (ends_of terms.new x)) }
    ensures stays { Stays terms.old terms.new }
    ensures held { IfOk result (λ x. HasEnds terms.new x) }
{
    let start = sum(memory, scope, start, terms, faults)?;
    let end = sum(memory, scope, end, terms, faults)?;
    faults.refuse_if(
        are_no_ends(start.kind, end.kind),
        Refusal::TypesDoNotFit,
        About::at(Cause::NoEnds, start.start)
            .and(end.start)
            .kinds(start.kind, end.kind),
    );
    Ok(Ends {
        start: start.expr,
        end: end.expr,
        kind: start.kind,
        at: start.start,
    })
}

/// Binds PERIOD (..) or SYSTEM_TIME.
pub(crate) fn marked(
    memory: Memory,
    scope: &[Known<'_>],
    marked: &Marked<'_>,
    terms: &mut Terms,
    faults: &mut Faults,
) -> Result<Ends, AllocError>
    ensures bound { IfOk result
        (λ x. Gathers (names.marked (scope_of scope.now) (marked_of marked.now)) faults.old
        faults.new (ends_of terms.new x)) }
    ensures stays { Stays terms.old terms.new }
    ensures held { IfOk result (λ x. HasEnds terms.new x) }
{
    match marked {
        Marked::FromEnds(start, end) => from_ends(memory, scope, start, end, terms, faults),
        Marked::SystemTime(qualifier) => system_time(memory, scope, *qualifier, terms, faults),
    }
}

/// Binds a period as an operand.
pub(crate) fn operand(
    memory: Memory,
    scope: &[Known<'_>],
    operand: &Operand<'_>,
    terms: &mut Terms,
    faults: &mut Faults,
) -> Result<Ends, AllocError>
    ensures bound { IfOk result
        (λ x. Gathers (names.operand (scope_of scope.now) (operand_of operand.now)) faults.old
        faults.new (ends_of terms.new x)) }
    ensures stays { Stays terms.old terms.new }
    ensures held { IfOk result (λ x. HasEnds terms.new x) }
{
    match operand {
        Operand::ByMark(mark) => marked(memory, scope, mark, terms, faults),
        Operand::ByName(named) => one_period(memory, scope, *named, terms, faults),
    }
}
