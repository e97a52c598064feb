//! The access path that conjuncts, or a portion, give for a table's application period.
ghost use Rattle.std.specs.Prelude.{◌≡◌, All, map};
ghost use Rattle.tql_catalog.specs.Defined.{IsDefinition};
ghost use Rattle.tql_expr.specs.Meaning.{cond, HasCond};
ghost use Rattle.tql_period.specs.Points.{points_of};
ghost use Rattle.tql_plan_laws.specs.Constants.{point_in, stretch_in};
ghost use Rattle.tql_plan_access.specs.Access.{period_given, sought_between, sought_in};
ghost use Rattle.tql_plan_access.specs.Said.{IsPortionBy, IsSaidBy};

use crate::access::Manner;
use tql_catalog::table_def::TableDef;
use tql_expr::terms::{CondId, Terms};
use tql_period::period::Period;

/// Returns the lookup that the conjuncts give for the period between these columns, which are stored at the numbers
/// `stored`. A point takes precedence over a period.
fn manner_between(
    terms: &Terms,
    conjuncts: &[CondId],
    columns: (usize, usize),
    stored: (usize, usize),
) -> Manner
    requires { All (HasCond terms.now) conjuncts.now }
    ensures { sought_in result ≡ sought_between stored
        (point_in columns.0 columns.1 (map (cond terms.now) conjuncts.now))
        (stretch_in columns.0 columns.1 (map (cond terms.now) conjuncts.now)) }
{
    if let Some(point) = terms.point(conjuncts, columns) {
        return Manner::Point(stored.0, stored.1, point);
    }
    match terms.stretch(conjuncts, columns) {
        Some(stretch) => Manner::Stretch(stored.0, stored.1, stretch),
        None => Manner::Whole,
    }
}

/// Returns the lookup that the conjuncts give for the table's application period.
fn said_manner(definition: &TableDef, terms: &Terms, conjuncts: &[CondId]) -> Manner
    requires { All (HasCond terms.now) conjuncts.now }
    ensures { IsSaidBy definition.now (map (cond terms.now) conjuncts.now) definition.now.application
        (sought_in result) }
{
    match (definition.application(), definition.sought_period()) {
        (Some(application), Some(stored)) => {
            let columns = (application.start, application.end);
            manner_between(terms, conjuncts, columns, stored)
        }
        _ => Manner::Whole,
    }
}

/// Returns the same for current rows; for other versions all rows are looked at.
pub(crate) fn current_manner(
    definition: &TableDef,
    terms: &Terms,
    conjuncts: &[CondId],
    is_current: bool,
) -> Manner
    requires { All (HasCond terms.now) conjuncts.now }
    ensures { IsSaidBy definition.now (map (cond terms.now) conjuncts.now)
        (period_given definition.now is_current) (sought_in result) }
{
    if is_current {
        said_manner(definition, terms, conjuncts)
    } else {
        Manner::Whole
    }
}

/// Returns the lookup of the rows that share a point with a portion.
pub(crate) fn portion_manner(definition: &TableDef, portion: Period) -> Manner
    ensures said { IsPortionBy definition.now (points_of portion) definition.now.application (sought_in result) }
    ensures right { IsDefinition definition.now }
{
    match (definition.application(), definition.sought_period()) {
        (Some(_), Some((start, end))) => Manner::Stretch(start, end, portion),
        _ => Manner::Whole,
    }
}
