//! Which versions a query selects, how they are shown, and the period of the closed ones that it selects.
ghost use Rattle.std.specs.Prelude.{◌≡◌, ◌++◌, [], ◌∷◌, ◌+ℤ◌, ◌<ℤ◌, pos, IfOk, IfSome, OnOk, Some, map, option_map};
ghost use Rattle.std.specs.Int.{int_min};
ghost use Rattle.tql_spec.specs.Calendar.{high};
ghost use Rattle.tql_spec.specs.Period.{share_a_point};
ghost use Rattle.tql_period.specs.Points.{points_of};
ghost use Rattle.tql_versions.specs.Readings.{asked, is_answer, version_shown, answer_of, answers_from, meets, sought};
ghost use Rattle.tql_versions.specs.Readings.{where_open};
ghost use Rattle.tql_versions.specs.Views.{version_of, versions_of};

use crate::kept::{Kept, is_alive, is_open};
use crate::version::{HIGH, Version};
use std::alloc::AllocError;
use tql_memory::Memory;
use tql_period::period::Period;
use tql_value::when::When;

/// A period that shares a point with no closed version.
const NEVER: Period = Period {
    start: HIGH,
    end: HIGH + 1,
};

/// Whether `when` selects a version.
pub fn asks(when: When, version: &Kept) -> bool
    ensures { result ≡ asked when (version_of version.now) }
{
    match when {
        When::Now => version.end == HIGH,
        When::AsOf(t) => version.start <= t && t < version.end,
        When::FromTo(a, b) => a < b && (version.start < b && a < version.end),
        When::Between(a, b) => a <= b && (version.start <= b && a < version.end),
    }
}

/// Whether a version is non-empty and selected by `when`.
fn answers_to(when: When, version: &Kept) -> bool
    ensures { result ≡ is_answer when (version_of version.now) }
{
    is_alive(version) && asks(when, version)
}

/// Returns the version as a reading shows it.
pub fn shown(id: usize, version: &Kept) -> Version<'_>
    ensures version { version_shown result ≡ version_of version.now }
    ensures id { result.id ≡ id }
{
    Version {
        id,
        kept: version,
        ends_later: false,
    }
}

/// Returns the version under an id, if it is non-empty and not closed. Allocates no memory.
pub fn if_open(id: usize, version: &Kept) -> Option<Version<'_>>
    ensures version { option_map version_shown result ≡ where_open (Some (version_of version.now)) }
    ensures id { IfSome result (λ v. v.id ≡ id) }
{
    if is_alive(version) && is_open(version) {
        Some(shown(id, version))
    } else {
        None
    }
}

/// Adds a version to the result, if it is selected.
fn push_asked<'a>(
    found: &mut Vec<Version<'a>, Memory>,
    id: usize,
    version: &'a Kept,
    when: When,
) -> Result<(), AllocError>
    ensures { OnOk result (map answer_of found.new.items
        ≡ map answer_of found.old.items ++ answers_from id when (version_of version.now ∷ [])) }
{
    if answers_to(when, version) {
        found.push(shown(id, version))?;
    }
    Ok(())
}

/// Returns an empty result list, with room for all `count` versions if the current rows are requested.
fn room_for<'a>(
    memory: Memory,
    count: usize,
    when: When,
) -> Result<Vec<Version<'a>, Memory>, AllocError>
    ensures { IfOk result (λ found. found.items ≡ []) }
{
    match when {
        When::Now => Vec::with_capacity(memory, count),
        _ => Ok(Vec::new(memory)),
    }
}

/// Returns the selected versions of a list; the id of each is its position.
pub fn answers_in(
    memory: Memory,
    versions: &[Kept],
    when: When,
) -> Result<Vec<Version<'_>, Memory>, AllocError>
    ensures { IfOk result (λ found. map answer_of found.items ≡ answers_from 0 when (versions_of versions.now)) }
{
    let mut found = room_for(memory, versions.len(), when)?;
    for (id, version) in versions.iter().enumerate() {
        push_asked(&mut found, id, version, when)?;
    }
    Ok(found)
}

/// Returns the period between two ends; if they do not rise, one that no closed version shares a point with.
fn moments_between(a: i64, b: i64) -> Period
    ensures { (x : _) → x.end <ℤ high → share_a_point x (points_of result) ≡ meets a b x }
{
    match Period::new(a, b) {
        Some(period) => period,
        None => NEVER,
    }
}

/// Returns the period between two ends, the upper one included, but nothing beyond the highest moment.
fn moments_through(a: i64, b: i64) -> Period
    ensures { (x : _) → x.end <ℤ high → share_a_point x (points_of result) ≡ meets a (int_min b high +ℤ pos 1) x }
{
    moments_between(a, b.min(HIGH) + 1)
}

/// Returns a period that shares a point with exactly the closed versions that `when` selects.
pub fn moments_asked(when: When) -> Period
    ensures { (x : _) → x.start <ℤ x.end → x.end <ℤ high → share_a_point x (points_of result) ≡ sought when x }
{
    match when {
        When::Now => NEVER,
        When::AsOf(t) => moments_through(t, t),
        When::FromTo(a, b) => moments_between(a, b),
        When::Between(a, b) => moments_through(a, b),
    }
}
