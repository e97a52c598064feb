//! The moment for which a statement is refused as before the horizon.
use tql_bound::bound::Bound;
use tql_bound::query::{BoundQuery, Chain};
use tql_value::when::When;

/// Returns the moment if it is before the horizon.
fn early(moment: i64, horizon: i64) -> Option<i64> {
    if moment < horizon { Some(moment) } else { None }
}

/// Returns the moment at which a table reference reads, or the start of its range, if it is before the horizon.
fn early_when(when: When, horizon: i64) -> Option<i64> {
    match when {
        When::Now => None,
        When::AsOf(moment) => early(moment, horizon),
        When::FromTo(start, _) => early(start, horizon),
        When::Between(start, _) => early(start, horizon),
    }
}

/// Returns the first moment before the horizon that a chain of joins asks for.
fn early_in_chain(chain: &Chain, horizon: i64) -> Option<i64> {
    if let Some(moment) = early_when(chain.first.when, horizon) {
        return Some(moment);
    }
    for join in &chain.joins {
        if let Some(moment) = early_when(join.reference.when, horizon) {
            return Some(moment);
        }
    }
    None
}

/// Returns the first moment before the horizon that a query asks for.
fn early_in_query(query: &BoundQuery, horizon: i64) -> Option<i64> {
    for chain in &query.chains {
        if let Some(moment) = early_in_chain(chain, horizon) {
            return Some(moment);
        }
    }
    None
}

/// Returns the first moment before the horizon that a statement names: in FOR SYSTEM_TIME of its query, or in PRUNE
/// HISTORY. Of a range, only the start counts. All moments are in microseconds since 1970-01-01.
pub fn early_moment(bound: &Bound, horizon: i64) -> Option<i64> {
    match bound {
        Bound::AnswerQuery(query) => early_in_query(query, horizon),
        Bound::InsertFrom(insertion) => early_in_query(&insertion.query, horizon),
        Bound::Read(reading) => early_in_query(&reading.query, horizon),
        Bound::Prune(moment) => early(*moment, horizon),
        _ => None,
    }
}
