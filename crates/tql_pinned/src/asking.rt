//! Reads of the store at a pin: the query to run on the current store, and how its result is shown.
ghost use Rattle.std.specs.Prelude.{◌≡◌, IfOk, map};
ghost use Rattle.tql_pinned.specs.Asked.{AsksAt, answer_capped};
ghost use Rattle.tql_value.specs.declared.when.When.TheVariants as when;

use std::alloc::AllocError;
use tql_memory::Memory;
use tql_value::when::When;
use tql_versions::version::{HIGH, Version};

/// Returns the store query for the rows that were current at a pin.
fn current_at(pin: i64) -> When
    ensures { AsksAt pin when.Now result }
{
    if pin < HIGH {
        When::AsOf(pin)
    } else {
        When::Now
    }
}

/// Returns the store query for the versions at a moment, as known at a pin.
fn moment_at(pin: i64, moment: i64) -> When
    ensures { AsksAt pin (when.AsOf moment) result }
{
    if moment < HIGH && pin < moment {
        When::AsOf(pin)
    } else {
        When::AsOf(moment)
    }
}

/// Returns the store query for a range without its end, as known at a pin. If a non-empty range begins after the pin,
/// it selects the versions current at the pin, which had no end then.
fn range_at(pin: i64, start: i64, end: i64) -> When
    ensures { AsksAt pin (when.FromTo start end) result }
{
    if pin < start {
        if start < end && start < HIGH {
            When::AsOf(pin)
        } else {
            When::FromTo(start, end)
        }
    } else if pin < end {
        When::Between(start, pin)
    } else {
        When::FromTo(start, end)
    }
}

/// Returns the store query for a range with its end, as known at a pin. If a non-empty range begins after the pin, it
/// selects the versions current at the pin, which had no end then.
fn span_at(pin: i64, start: i64, end: i64) -> When
    ensures { AsksAt pin (when.Between start end) result }
{
    if pin < start {
        if start <= end && start < HIGH {
            When::AsOf(pin)
        } else {
            When::Between(start, end)
        }
    } else if pin < end {
        When::Between(start, pin)
    } else {
        When::Between(start, end)
    }
}

/// Returns the store query that selects the versions which `when` selects from the store shown at a pin.
pub fn question_at(pin: i64, when: When) -> When
    ensures { AsksAt pin when result }
{
    match when {
        When::Now => current_at(pin),
        When::AsOf(moment) => moment_at(pin, moment),
        When::FromTo(start, end) => range_at(pin, start, end),
        When::Between(start, end) => span_at(pin, start, end),
    }
}

/// Returns a version as it was at a pin; its row is borrowed from the store.
fn version_at<'a>(pin: i64, version: &Version<'a>) -> Version<'a>
    ensures { result ≡ answer_capped pin version.now }
{
    Version {
        id: version.id,
        kept: version.kept,
        ends_later: version.ends_later || pin < version.kept.end,
    }
}

/// Returns the versions as they were at a pin.
pub fn versions_at<'a>(
    memory: Memory,
    pin: i64,
    found: &[Version<'a>],
) -> Result<Vec<Version<'a>, Memory>, AllocError>
    ensures { IfOk result (λ shown. shown.items ≡ map (answer_capped pin) found.now) }
{
    let mut shown = Vec::with_capacity(memory, found.len())?;
    for version in found {
        shown.push(version_at(pin, version))?;
    }
    Ok(shown)
}
