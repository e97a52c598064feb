//! Changes, commits and rollbacks on a plain list of versions.
ghost use Rattle.std.specs.Prelude.{◌≡◌, ◌≤◌, ◌<◌, ◌+◌, ◌++◌, [], All, IfOk, OnOk, map, length};
ghost use Rattle.std.specs.Prelude.{false, true, if◌then◌else◌, vec_len, vec_capacity, ◌<ℤ◌};
ghost use Rattle.tql_spec.specs.Calendar.{high};
ghost use Rattle.tql_period.specs.Points.{points_of};
ghost use Rattle.tql_versions.specs.Changes.{alive, is_current, closing, fresh, ended, moved_out, emptied, taken};
ghost use Rattle.tql_versions.specs.Marks.{below, from};
ghost use Rattle.tql_versions.specs.Readings.{period_of};
ghost use Rattle.tql_versions.specs.Views.{version_of, versions_of};

use crate::version::HIGH;
use std::alloc::AllocError;
use std::mem;
use tql_memory::Memory;
use tql_period::period::Period;
use tql_row::row::Row;

/// A stored version.
#[derive(Drop)]
pub struct Kept {
    /// Its cells, without the generated columns.
    pub row: Row,
    /// Start of its period, in microseconds since 1970-01-01.
    pub start: i64,
    /// End of its period (exclusive); `HIGH` while the version is not closed.
    pub end: i64,
}

/// Whether a version is non-empty, that is, starts before it ends.
pub fn is_alive(version: &Kept) -> bool
    ensures { result ≡ alive (version_of version.now) }
{
    version.start < version.end
}

/// Whether a version is not closed.
pub fn is_open(version: &Kept) -> bool
    ensures { result ≡ is_current (version_of version.now) }
{
    version.end == HIGH
}

/// Closes a version.
fn end_at(version: &mut Kept, moment: i64)
    ensures { version_of version.new ≡ ended moment (version_of version.old) }
{
    version.end = moment;
}

/// Takes a version out of its position and leaves an empty one there, which starts and ends at the moment.
fn take_version(version: &mut Kept, memory: Memory, moment: i64) -> Kept
    ensures taken { version_of result ≡ version_of version.old }
    ensures left { version_of version.new ≡ moved_out moment }
{
    mem::replace(
        version,
        Kept {
            row: Row::empty(memory),
            start: moment,
            end: moment,
        },
    )
}

/// Sets the end of the versions at these positions: the open transaction's moment closes them, `HIGH` reopens them.
fn end_each(versions: &mut [Kept], places: &[usize], moment: i64)
    requires { All (λ i. i < length versions.old) places.now }
    ensures ends { versions_of versions.new ≡ closing moment places.now (versions_of versions.old) }
    ensures len { length versions.new ≡ length versions.old }
{
    for place in places {
        end_at(&mut versions[*place], moment);
    }
}

/// Reopens the versions at these positions.
pub fn reopen_each(versions: &mut [Kept], places: &[usize])
    requires { All (λ i. i < length versions.old) places.now }
    ensures opens { versions_of versions.new ≡ closing high places.now (versions_of versions.old) }
    ensures len { length versions.new ≡ length versions.old }
{
    end_each(versions, places, HIGH);
}

/// Adds a version for each row, beginning at the moment. Allocates no memory.
fn add_each(versions: &mut Vec<Kept, Memory>, added: Vec<Row, Memory>, moment: i64)
    requires { vec_len versions.old + vec_len added ≤ vec_capacity versions.old }
    ensures { versions_of versions.new.items ≡ versions_of versions.old.items
        ++ map (fresh moment) added.entry.items }
{
    for row in added {
        versions.push_reserved(Kept {
            row,
            start: moment,
            end: HIGH,
        });
    }
}

/// Closes the versions at these positions at the moment and adds the rows. Allocates no memory.
pub fn replace(
    versions: &mut Vec<Kept, Memory>,
    removed: &[usize],
    added: Vec<Row, Memory>,
    moment: i64,
)
    requires within { All (λ i. i < length versions.old.items) removed.now }
    requires room { vec_len versions.old + vec_len added ≤ vec_capacity versions.old }
    ensures { versions_of versions.new.items ≡ closing moment removed.now (versions_of versions.old.items)
        ++ map (fresh moment) added.entry.items }
{
    end_each(versions, removed, moment);
    add_each(versions, added, moment);
}

/// Returns the number of positions below `base`.
#[tactic(auto, using(crate::proofs::Marking::below_more))]
fn count_below(places: &[usize], base: usize) -> usize
    ensures { result ≡ length (below base places.now) }
{
    let mut count = 0;
    for place in places {
        if *place < base {
            count += 1;
        }
    }
    count
}

/// Makes room for more positions. An empty list gets room for just these: it has nothing to copy.
fn reserve_places(list: &mut Vec<usize, Memory>, more: usize) -> Result<(), AllocError>
    ensures items { list.new.items ≡ list.old.items }
    ensures len { vec_len list.new ≡ vec_len list.old }
    ensures ok { OnOk result (vec_len list.new + more ≤ vec_capacity list.new) }
{
    if list.is_empty() {
        list.reserve_exact(more)
    } else {
        list.reserve(more)
    }
}

/// Makes room to record the positions: those below `base` as ended, the others as dead. Returns the number of those
/// below.
#[tactic(auto, using(crate::proofs::Marking::marks_split))]
pub fn reserve_marks(
    ended: &mut Vec<usize, Memory>,
    dead: &mut Vec<usize, Memory>,
    places: &[usize],
    base: usize,
) -> Result<usize, AllocError>
    ensures ended_items { ended.new.items ≡ ended.old.items }
    ensures ended_len { vec_len ended.new ≡ vec_len ended.old }
    ensures dead_items { dead.new.items ≡ dead.old.items }
    ensures dead_len { vec_len dead.new ≡ vec_len dead.old }
    ensures count { IfOk result (λ count. count ≡ length (below base places.now)) }
    ensures ended { OnOk result (vec_len ended.new + length (below base places.now) ≤ vec_capacity ended.new) }
    ensures dead { OnOk result (vec_len dead.new + length (from base places.now) ≤ vec_capacity dead.new) }
{
    let count = count_below(places, base);
    reserve_places(ended, count)?;
    reserve_places(dead, places.len() - count)?;
    Ok(count)
}

/// Records the positions: those below `base` as ended, the others as dead. Allocates no memory.
#[tactic(auto, using(crate::proofs::Marking::below_more, crate::proofs::Marking::from_more))]
pub fn mark_each(
    ended: &mut Vec<usize, Memory>,
    dead: &mut Vec<usize, Memory>,
    places: &[usize],
    base: usize,
)
    requires ended { vec_len ended.old + length (below base places.now) ≤ vec_capacity ended.old }
    requires dead { vec_len dead.old + length (from base places.now) ≤ vec_capacity dead.old }
    ensures ended { ended.new.items ≡ ended.old.items ++ below base places.now }
    ensures dead { dead.new.items ≡ dead.old.items ++ from base places.now }
{
    for place in places {
        if *place < base {
            ended.push_reserved(*place);
        } else {
            dead.push_reserved(*place);
        }
    }
}

/// Moves the versions at these positions, in order, to the end of the closed ones. Allocates no memory.
fn retire(
    versions: &mut [Kept],
    closed: &mut Vec<Kept, Memory>,
    places: &[usize],
    memory: Memory,
    moment: i64,
)
    requires within { All (λ i. i < length versions.old) places.now }
    requires room { vec_len closed.old + length places.now ≤ vec_capacity closed.old }
    ensures left { versions_of versions.new ≡ emptied moment places.now (versions_of versions.old) }
    ensures len { length versions.new ≡ length versions.old }
    ensures taken { versions_of closed.new.items ≡ versions_of closed.old.items
        ++ taken moment places.now (versions_of versions.old) }
{
    for place in places {
        let version = take_version(&mut versions[*place], memory, moment);
        closed.push_reserved(version);
    }
}

/// Moves them if the table keeps its history, and changes nothing otherwise. Allocates no memory.
pub fn retire_kept(
    keeps: bool,
    versions: &mut [Kept],
    closed: &mut Vec<Kept, Memory>,
    places: &[usize],
    memory: Memory,
    moment: i64,
)
    requires within { All (λ i. i < length versions.old) places.now }
    requires room { keeps ≡ true → vec_len closed.old + length places.now ≤ vec_capacity closed.old }
    ensures left { versions_of versions.new
        ≡ (if keeps then emptied moment places.now (versions_of versions.old) else versions_of versions.old) }
    ensures len { length versions.new ≡ length versions.old }
    ensures taken { versions_of closed.new.items ≡ versions_of closed.old.items
        ++ (if keeps then taken moment places.now (versions_of versions.old) else []) }
{
    if keeps {
        retire(versions, closed, places, memory, moment);
    }
}

/// Makes room for more versions. A full list doubles, or grows by an eighth if there is no memory for that.
pub fn reserve_versions(versions: &mut Vec<Kept, Memory>, more: usize) -> Result<(), AllocError>
    ensures items { versions.new.items ≡ versions.old.items }
    ensures len { vec_len versions.new ≡ vec_len versions.old }
    ensures grows { vec_capacity versions.old ≤ vec_capacity versions.new }
    ensures ok { OnOk result (vec_len versions.new + more ≤ vec_capacity versions.new) }
{
    if versions.reserve(more).is_ok() {
        return Ok(());
    }
    versions.reserve_exact(more.max(versions.len() / 8))
}

/// Reserves room for more closed versions, if the table keeps its history.
pub fn reserve_kept(
    keeps: bool,
    closed: &mut Vec<Kept, Memory>,
    more: usize,
) -> Result<(), AllocError>
    ensures items { closed.new.items ≡ closed.old.items }
    ensures len { vec_len closed.new ≡ vec_len closed.old }
    ensures grows { vec_capacity closed.old ≤ vec_capacity closed.new }
    ensures ok { OnOk result (keeps ≡ true → vec_len closed.new + more ≤ vec_capacity closed.new) }
    ensures none { keeps ≡ false → vec_capacity closed.new ≡ vec_capacity closed.old }
{
    if !keeps {
        return Ok(());
    }
    reserve_versions(closed, more)
}

/// Returns the period of a version that is closed at the moment.
pub fn span(version: &Kept, moment: i64) -> Period
    requires { (version_of version.now).row.start <ℤ moment }
    ensures { points_of result ≡ (record { start = (version_of version.now).row.start; end = moment }) }
{
    Period {
        start: version.start,
        end: moment,
    }
}

/// Returns the period of a version.
pub fn span_of(version: &Kept) -> Period
    requires { (version_of version.now).row.start <ℤ (version_of version.now).end }
    ensures { points_of result ≡ period_of (version_of version.now) }
{
    Period {
        start: version.start,
        end: version.end,
    }
}
