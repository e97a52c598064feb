//! Binding of literals and of column names.
ghost use Rattle.std.specs.Prelude.{◌≡◌, IfOk, option_map, Some, true};
ghost use Rattle.tql_spec.specs.Calendar as calendar;
ghost use Rattle.tql_spec.specs.Datum as datum;
ghost use Rattle.tql_spec.specs.Expression as bound;
ghost use Rattle.tql_spec.specs.FirstToken.{content};
ghost use Rattle.tql_spec.specs.Names as names;
ghost use Rattle.tql_spec.specs.Refusal.{ValueOutOfRange};
ghost use Rattle.tql_expr.specs.Meaning.{HasExpr, Stays};
ghost use Rattle.tql_syntax_tree.specs.Expressions.{named_of};
ghost use Rattle.tql_value.specs.Points.{IsPrintable};
ghost use Rattle.tql_value.specs.Views.{plain_kind, datum_of_value};
ghost use Rattle.tql_bind_expr.specs.Gathered.{Gathers};
ghost use Rattle.tql_bind_expr.specs.Bounds.{typed_of, literal_of};
ghost use Rattle.tql_bind_expr.specs.Numbers.{number_literal};
ghost use Rattle.tql_bind_expr.specs.Scopes.{scope_of, things_of};

use crate::about::{About, Cause};
use crate::faults::Faults;
use crate::names::{no_column, sole_column, things};
use crate::number::signed;
use crate::scope::{Known, Thing, Typed};
use crate::texts::unquoted;
use std::alloc::AllocError;
use tql_expr::terms::Terms;
use tql_memory::Memory;
use tql_syntax_tree::expression::Named;
use tql_value::literal::{read_date, read_timestamp};
use tql_value::refusal::Refusal;
use tql_value::text::Text;
use tql_value::value::{Kind, Value};

/// Adds a literal of this type.
fn literal(
    start: u32,
    terms: &mut Terms,
    value: Value,
    kind: Option<Kind>,
) -> Result<Typed, AllocError>
    requires { IsPrintable (datum_of_value value) }
    ensures bound { IfOk result
        (λ t. typed_of terms.new t ≡ literal_of (datum_of_value value) (option_map plain_kind kind)) }
    ensures stays { Stays terms.old terms.new }
    ensures held { IfOk result (λ t. HasExpr terms.new t.expr) }
{
    let expr = terms.push_literal(value)?;
    Ok(Typed { expr, kind, start })
}

/// Adds NULL, whose type is unknown.
pub(crate) fn null(start: u32, terms: &mut Terms) -> Result<Typed, AllocError>
    ensures bound { IfOk result (λ t. typed_of terms.new t ≡ names.nothing) }
    ensures stays { Stays terms.old terms.new }
    ensures held { IfOk result (λ t. HasExpr terms.new t.expr) }
{
    literal(start, terms, Value::Null, None)
}

/// Adds the column with this index.
fn column_at(start: u32, terms: &mut Terms, number: usize, kind: Kind) -> Result<Typed, AllocError>
    ensures bound { IfOk result (λ t. typed_of terms.new t ≡ names.typed (bound.Column number) (plain_kind kind)) }
    ensures stays { Stays terms.old terms.new }
    ensures held { IfOk result (λ t. HasExpr terms.new t.expr) }
{
    let expr = terms.push_column(number)?;
    Ok(Typed {
        expr,
        kind: Some(kind),
        start,
    })
}

/// Binds a name that means `things`. Adds a fault unless it means exactly one column.
fn one_column(
    scope: &[Known<'_>],
    start: u32,
    things: &[Thing<'_>],
    terms: &mut Terms,
    faults: &mut Faults,
) -> Result<Typed, AllocError>
    ensures bound { IfOk result
        (λ t. Gathers (names.one_column (things_of things.now)) faults.old faults.new (typed_of terms.new t)) }
    ensures stays { Stays terms.old terms.new }
    ensures held { IfOk result (λ t. HasExpr terms.new t.expr) }
{
    match sole_column(things) {
        Some((number, kind)) => column_at(start, terms, number, kind),
        None => {
            faults.refuse_if(
                true,
                Refusal::NameUnknownAmbiguousOrRepeated,
                no_column(scope, start, things),
            );
            null(start, terms)
        }
    }
}

/// Binds the name of a column.
pub(crate) fn column(
    memory: Memory,
    scope: &[Known<'_>],
    start: u32,
    named: Named<'_>,
    terms: &mut Terms,
    faults: &mut Faults,
) -> Result<Typed, AllocError>
    ensures bound { IfOk result
        (λ t. Gathers (names.one_column (names.things (scope_of scope.now) (named_of named.entry))) faults.old
        faults.new (typed_of terms.new t)) }
    ensures stays { Stays terms.old terms.new }
    ensures held { IfOk result (λ t. HasExpr terms.new t.expr) }
{
    let found = things(memory, scope, named)?;
    one_column(scope, start, &found, terms, faults)
}

/// Returns why a literal of this type cannot be read.
fn unreadable(kind: Kind) -> Cause {
    match kind {
        Kind::Day => Cause::NoDay,
        Kind::Moment => Cause::NoMoment,
        Kind::Int | Kind::Text => Cause::NumberTooLarge,
    }
}

/// Adds the fault of a literal that cannot be read, and returns NULL of its type as a placeholder.
#[tactic(auto, using(crate::proofs::Gathering::gathering))]
fn out_of_range(
    start: u32,
    kind: Kind,
    terms: &mut Terms,
    faults: &mut Faults,
) -> Result<Typed, AllocError>
    ensures bound { IfOk result
        (λ t. Gathers (names.unless true ValueOutOfRange (literal_of datum.Null (Some (plain_kind kind)))) faults.old
        faults.new (typed_of terms.new t)) }
    ensures stays { Stays terms.old terms.new }
    ensures held { IfOk result (λ t. HasExpr terms.new t.expr) }
{
    faults.refuse_if(
        true,
        Refusal::ValueOutOfRange,
        About::at(unreadable(kind), start),
    );
    literal(start, terms, Value::Null, Some(kind))
}

/// Binds a number, with or without `-` before it.
#[tactic(auto, using(crate::proofs::Gathering::gathering))]
pub(crate) fn number(
    start: u32,
    is_negative: bool,
    digits: &str,
    terms: &mut Terms,
    faults: &mut Faults,
) -> Result<Typed, AllocError>
    ensures bound { IfOk result
        (λ t. Gathers (number_literal is_negative digits.now) faults.old faults.new (typed_of terms.new t)) }
    ensures stays { Stays terms.old terms.new }
    ensures held { IfOk result (λ t. HasExpr terms.new t.expr) }
{
    match signed(digits.as_bytes(), is_negative) {
        Some(number) => literal(start, terms, Value::Int(number), Some(Kind::Int)),
        None => out_of_range(start, Kind::Int, terms, faults),
    }
}

/// Binds a character string literal.
pub(crate) fn text(
    memory: Memory,
    start: u32,
    quoted: &str,
    terms: &mut Terms,
) -> Result<Typed, AllocError>
    ensures bound { IfOk result
        (λ t. typed_of terms.new t ≡ names.typed (bound.Literal (datum.Text (content 39 quoted.now))) datum.Texts) }
    ensures stays { Stays terms.old terms.new }
    ensures held { IfOk result (λ t. HasExpr terms.new t.expr) }
{
    let text = Text::from(unquoted(memory, quoted)?);
    literal(start, terms, Value::Text(text), Some(Kind::Text))
}

/// Binds a DATE literal.
#[tactic(auto, using(crate::proofs::Gathering::gathering))]
pub(crate) fn date(
    memory: Memory,
    start: u32,
    quoted: &str,
    terms: &mut Terms,
    faults: &mut Faults,
) -> Result<Typed, AllocError>
    ensures bound { IfOk result
        (λ t. Gathers (names.literal datum.Days datum.Day (calendar.read_date (content 39 quoted.now))) faults.old
        faults.new (typed_of terms.new t)) }
    ensures stays { Stays terms.old terms.new }
    ensures held { IfOk result (λ t. HasExpr terms.new t.expr) }
{
    let text = unquoted(memory, quoted)?;
    match read_date(&text) {
        Some(day) => literal(start, terms, Value::Day(day), Some(Kind::Day)),
        None => out_of_range(start, Kind::Day, terms, faults),
    }
}

/// Binds a TIMESTAMP literal.
#[tactic(auto, using(crate::proofs::Gathering::gathering))]
pub(crate) fn timestamp(
    memory: Memory,
    start: u32,
    quoted: &str,
    terms: &mut Terms,
    faults: &mut Faults,
) -> Result<Typed, AllocError>
    ensures bound { IfOk result
        (λ t. Gathers (names.literal datum.Moments datum.Moment (calendar.read_timestamp (content 39 quoted.now)))
        faults.old faults.new (typed_of terms.new t)) }
    ensures stays { Stays terms.old terms.new }
    ensures held { IfOk result (λ t. HasExpr terms.new t.expr) }
{
    let text = unquoted(memory, quoted)?;
    match read_timestamp(&text) {
        Some(moment) => literal(start, terms, Value::Moment(moment), Some(Kind::Moment)),
        None => out_of_range(start, Kind::Moment, terms, faults),
    }
}
