//! GROUP BY, HAVING and the select list of a grouped query, as a sink: each row is folded into the accumulators of its
//! group when it is handed over, so no list of the rows is kept. A group keeps its cells in the grouping columns, the
//! number of its rows, and one accumulator for each aggregate of HAVING and the items that has an operand.
ghost use Rattle.std.specs.Prelude.{◌≡◌, ◌<◌, ◌∷◌, [], All, IfErr, IfOk, IsTrue, length, List, map, MatchResult, OnOk};
ghost use Rattle.std.specs.Prelude.{slice_get, slice_index_or, Some};
ghost use Rattle.tql_spec.specs.Datum.{Row};
ghost use Rattle.tql_value.specs.Views.{row_of, rows_of};
ghost use Rattle.tql_spec.specs.Query.{cells_at};
ghost use Rattle.tql_expr.specs.Meaning.{HasOperand};
ghost use Rattle.tql_exec_join.specs.Tuples.{tuple_row};
ghost use Rattle.tql_exec_fold.specs.Folded.{HaveFolded};
ghost use Rattle.tql_exec_group.specs.Begun.{Begins, Enters, IsPart, TakesAt};
ghost use Rattle.tql_exec_group.specs.Counted.{CountsAt};
ghost use Rattle.tql_exec_group.specs.Places.{ArePlaces};
ghost use Rattle.tql_exec_numbered.specs.Numbered.{with_row};
ghost use Rattle.tql_exec_group.specs.Operands.{operands_prop as is_prop};

use crate::direct::{Source, add_direct, sources_of};
use crate::on_group::{Found, Group, Results, add_shown, find_results};
use crate::places::places_of;
use crate::steps::{Steps, steps_of};
use std::alloc::AllocError;
use tql_exec_fold::fold::Accumulator;
use tql_exec_join::sink::Sink;
use tql_exec_join::tuple::Tuple;
use tql_exec_numbered::numbered::Numbered;
use tql_expr::columns::Columns;
use tql_expr::terms::{Aggregate, CondId, ExprId, Terms};
use tql_memory::Memory;
use tql_value::refusal::Refusal;
use tql_value::value::Value;

/// What is asked of the groups of a query: the columns of GROUP BY, HAVING and the items. Without columns all rows are
/// one group, also of no rows.
pub struct Grouping<'q> {
    memory: Memory,
    terms: &'q Terms,
    columns: &'q [usize],
    having: &'q [CondId],
    items: &'q [ExprId],
    /// The index of each column among the grouping columns.
    places: Vec<Option<usize>, Memory>,
    steps: Steps,
    /// Where the first items stand in a group, up to one whose value is to be calculated.
    sources: Vec<Source, Memory>,
    ghost placed: { ArePlaces columns.now places.items },
    ghost there: { All (HasOperand terms.now) steps.aggregates.items } by { is_prop terms.now steps.aggregates.items },
}

impl Drop for Grouping<'_> {
    fn drop(self) {
        let Grouping {
            memory: _,
            terms: _,
            columns: _,
            having: _,
            items: _,
            places,
            steps,
            sources,
        } = self;
        drop(places);
        drop(steps);
        drop(sources);
    }
}

/// The groups of the rows so far, in the order of their first rows.
pub struct Groups {
    /// The cells of each group in the grouping columns; nothing if there are no grouping columns.
    keys: Numbered,
    /// The number of rows of each group, for COUNT(*). It stays at the greatest one of 64 bits.
    counts: Vec<u64, Memory>,
    /// The accumulators of all groups, one group after another, with one for each aggregate of an operand.
    folds: Vec<Accumulator, Memory>,
}

impl Drop for Groups {
    fn drop(self) {
        let Groups {
            keys,
            counts,
            folds,
        } = self;
        drop(keys);
        drop(counts);
        drop(folds);
    }
}

/// Counts one more row of the group with a number.
fn count_at(counts: &mut Vec<u64, Memory>, number: usize)
    ensures { CountsAt number counts.old.items counts.new.items }
{
    if number < counts.len() {
        counts[number] = counts[number].saturating_add(1);
    }
}

/// Returns the number of rows of the group with a number.
fn count_of(counts: &[u64], number: usize) -> u64
    ensures { result ≡ slice_index_or counts.now number 0 }
{
    match counts.get(number) {
        Some(count) => *count,
        None => 0,
    }
}

/// Has the accumulators of the group with a number take one more row. The only error is a refused allocation.
fn take_at(
    memory: Memory,
    terms: &Terms,
    aggregates: &[Aggregate],
    number: usize,
    folds: &mut Vec<Accumulator, Memory>,
    row: &Tuple<'_>,
) -> Result<(), Refusal>
    requires { All (HasOperand terms.now) aggregates.now }
    ensures { MatchResult result
        (λ _. TakesAt terms.now aggregates.now number folds.old.items folds.new.items (tuple_row row.now))
        (λ e. e ≡ Refusal.OutOfMemory) }
{
    let mut at = number.saturating_mul(aggregates.len());
    for which in aggregates {
        if folds.len() <= at {
            return Ok(());
        }
        folds[at].take(memory, terms, *which, row)?;
        at += 1;
    }
    Ok(())
}

/// Returns the accumulators of the group with a number, of which there are `width`.
fn folds_at(state: &Groups, number: usize, width: usize) -> &[Accumulator]
    ensures { IsPart number width result.now state.now.folds.items }
{
    let folds = state.folds.as_slice();
    let start = number.saturating_mul(width);
    let end = start.saturating_add(width);
    if folds.len() < end {
        return &[];
    }
    &folds[start..end]
}

/// Adds accumulators of no rows, one for each aggregate. The only error is a refused allocation.
fn begin_group(
    aggregates: &[Aggregate],
    folds: &mut Vec<Accumulator, Memory>,
) -> Result<(), AllocError>
    ensures { OnOk result (Begins aggregates.now folds.old.items folds.new.items) }
{
    for _which in aggregates {
        folds.push(Accumulator::new())?;
    }
    Ok(())
}

/// Returns the number of the group of a row, which is a new one behind the others if none has its cells. A row of a
/// known group makes no allocation if it is grouped by at most three columns. The only error is a refused allocation.
fn number_of(
    memory: Memory,
    keys: &mut Numbered,
    columns: &[usize],
    row: &Tuple<'_>,
) -> Result<usize, Refusal>
    ensures keys { OnOk result (keys.new ≡ with_row keys.old (cells_at columns.now (tuple_row row.now))) }
    ensures number { IfOk result (λ n. slice_get keys.new n ≡ Some (cells_at columns.now (tuple_row row.now))) }
    ensures memory { IfErr result (λ e. e ≡ Refusal.OutOfMemory) }
{
    match columns {
        [a] => keys.put(&[row.column(*a)]),
        [a, b] => keys.put(&[row.column(*a), row.column(*b)]),
        [a, b, c] => keys.put(&[row.column(*a), row.column(*b), row.column(*c)]),
        _ => put_all(memory, keys, columns, row),
    }
}

/// Returns the number of the group of a row, with any number of grouping columns.
fn put_all(
    memory: Memory,
    keys: &mut Numbered,
    columns: &[usize],
    row: &Tuple<'_>,
) -> Result<usize, Refusal>
    ensures keys { OnOk result (keys.new ≡ with_row keys.old (cells_at columns.now (tuple_row row.now))) }
    ensures number { IfOk result (λ n. slice_get keys.new n ≡ Some (cells_at columns.now (tuple_row row.now))) }
    ensures memory { IfErr result (λ e. e ≡ Refusal.OutOfMemory) }
{
    let mut cells = Vec::with_capacity(memory, columns.len())?;
    for column in columns {
        cells.push(row.column(*column))?;
    }
    keys.put(&cells)
}

/// Returns the number of the group of a row, which is begun if none has its cells. The only error is a refused
/// allocation.
fn enter(
    memory: Memory,
    columns: &[usize],
    aggregates: &[Aggregate],
    state: &mut Groups,
    row: &Tuple<'_>,
) -> Result<usize, Refusal>
    ensures { MatchResult result
        (λ n. Enters columns.now aggregates.now state.old state.new (tuple_row row.now) n)
        (λ e. e ≡ Refusal.OutOfMemory) }
{
    let groups = state.keys.len();
    let number = number_of(memory, &mut state.keys, columns, row)?;
    if number != groups {
        return Ok(number);
    }
    state.counts.push(0)?;
    begin_group(aggregates, &mut state.folds)?;
    Ok(number)
}

/// Returns the key with a number; the only one of no columns is not among them.
fn key_of(keys: &Numbered, number: usize) -> &[Value]
    ensures { row_of result.now ≡ slice_index_or keys.now number [] }
{
    if number < keys.len() {
        keys.row(number)
    } else {
        &[]
    }
}

impl Sink for Grouping<'_> {
    type State = Groups;

    ghost use Rattle.tql_exec_group.specs.Grouped.{HasGrouped};

    ghost knows = { λ g s rows. HasGrouped g.terms.now g.columns.now g.steps.aggregates.items s rows };

    ghost gives = { λ g row. Some [] };

    fn take(&self, state: &mut Groups, row: &Tuple<'_>) -> Result<(), Refusal> {
        let aggregates = self.steps.aggregates.as_slice();
        if self.columns.is_empty() {
            count_at(&mut state.counts, 0);
            return take_at(
                self.memory,
                self.terms,
                aggregates,
                0,
                &mut state.folds,
                row,
            );
        }
        let number = enter(self.memory, self.columns, aggregates, state, row)?;
        count_at(&mut state.counts, number);
        take_at(
            self.memory,
            self.terms,
            aggregates,
            number,
            &mut state.folds,
            row,
        )
    }
}

impl<'q> Grouping<'q> {
    ghost use Rattle.tql_spec.specs.Query.{scopes};
    ghost use Rattle.tql_spec.specs.QueryLaws.{NamesGroups, shown};
    ghost use Rattle.tql_expr.specs.Evaluated.{Evaluated, behind};
    ghost use Rattle.tql_expr.specs.Meaning.{cond, expr, HasCond, HasExpr};
    ghost use Rattle.tql_exec_group.specs.Counted.{kept_count};
    ghost use Rattle.tql_exec_group.specs.Grouped.{keys_of, kept_keys, scope_at, HasGrouped, IsGroupingOf};
    ghost use Rattle.tql_exec_group.specs.Grouped.{shows, IsDirect, IsReady, NamesKeys};
    ghost use Rattle.tql_exec_group.specs.Results.{IsKeyOf};

    /// Returns the sink of a grouped query. Its nodes and the indexes of its columns are collected once. The only error
    /// is a refused allocation.
    pub fn new(
        memory: Memory,
        terms: &'q Terms,
        columns: &'q [usize],
        having: &'q [CondId],
        items: &'q [ExprId],
    ) -> Result<Grouping<'q>, AllocError>
        requires having { All (HasCond terms.now) having.now }
        requires items { All (HasExpr terms.now) items.now }
        ensures is { IfOk result (IsGroupingOf terms.now columns.now having.now items.now) }
        ensures ready { IfOk result IsReady }
    {
        let places = places_of(memory, columns)?;
        let steps = steps_of(memory, terms, having, items)?;
        let sources = sources_of(memory, terms, &places, items)?;
        Ok(Grouping {
            memory,
            terms,
            columns,
            having,
            items,
            places,
            steps,
            sources,
        })
    }

    /// Returns the groups of no rows: one if there are no grouping columns, else none. The only error is a refused
    /// allocation.
    pub fn begin(&self) -> Result<Groups, Refusal>
        ensures { MatchResult result
            (λ s. HasGrouped self.now.terms.now self.now.columns.now self.now.steps.aggregates.items s [])
            (λ e. e ≡ Refusal.OutOfMemory) }
    {
        let keys = Numbered::new(self.memory);
        let mut counts = Vec::new(self.memory);
        let mut folds = Vec::new(self.memory);
        if !self.columns.is_empty() {
            return Ok(Groups {
                keys,
                counts,
                folds,
            });
        }
        counts.push(0)?;
        begin_group(&self.steps.aggregates, &mut folds)?;
        Ok(Groups {
            keys,
            counts,
            folds,
        })
    }

    /// Whether all items stand in a group as they are, and there is no HAVING.
    fn is_direct(&self) -> bool
        ensures { IsTrue result → IsDirect self.now }
    {
        self.having.is_empty() && self.sources.len() == self.items.len()
    }

    /// Adds the values of the items on a group if it passes HAVING. Refused if an evaluation that is reached is out of
    /// range, or if an allocation is refused.
    fn add_group<'a>(
        &'a self,
        key: &'a [Value],
        count: u64,
        folds: &'a [Accumulator],
        found: &mut Vec<Found<'a>, Memory>,
        made: &mut Vec<Vec<Value, Memory>, Memory>,
    ) -> Result<(), Refusal>
        requires ready { IsReady self.now }
        requires named { NamesKeys self.now }
        ensures { (rows : List Row) (row : Row) → count ≡ kept_count (length rows)
            → HaveFolded self.now.terms.now self.now.steps.aggregates.items folds.now rows
            → IsKeyOf self.now.columns.now (row_of key.now) row
            → Evaluated (λ _. rows_of made.new.items) (behind (rows_of made.old.items)
            (shows self.now (record { row = row; group = rows } ∷ []))) result }
    {
        if self.is_direct() {
            return add_direct(self.memory, key, count, &self.sources, made);
        }
        let group = Group {
            columns: self.columns,
            places: &self.places,
            key,
            count,
            folds,
        };
        find_results(self.terms, &self.steps, group, found)?;
        let results = Results {
            from: self.steps.from,
            found: found.as_slice(),
        };
        add_shown(self.memory, results, self.having, self.items, made)
    }

    /// Adds the values of the items on the group with a number if it passes HAVING. Refused as in `add_group`.
    fn add_numbered<'a>(
        &'a self,
        state: &'a Groups,
        number: usize,
        found: &mut Vec<Found<'a>, Memory>,
        made: &mut Vec<Vec<Value, Memory>, Memory>,
    ) -> Result<(), Refusal>
        requires ready { IsReady self.now }
        requires named { NamesKeys self.now }
        ensures { (rows : List Row)
            → HasGrouped self.now.terms.now self.now.columns.now self.now.steps.aggregates.items state.now rows
            → number < length (keys_of self.now.columns.now rows)
            → Evaluated (λ _. rows_of made.new.items) (behind (rows_of made.old.items)
            (shows self.now (scope_at self.now.columns.now rows number ∷ []))) result }
    {
        let key = key_of(&state.keys, number);
        let width = self.steps.aggregates.len();
        let count = count_of(state.counts.as_slice(), number);
        let folds = folds_at(state, number, width);
        self.add_group(key, count, folds, found, made)
    }

    /// Returns the number of groups. Without grouping columns there is one, and no key is kept.
    fn count(&self, keys: &Numbered) -> usize
        ensures { (rows : List Row) → keys.now ≡ kept_keys self.now.columns.now rows
            → result ≡ length (keys_of self.now.columns.now rows) }
    {
        if self.columns.is_empty() {
            1
        } else {
            keys.len()
        }
    }

    /// Returns the values of the items for each group that passes HAVING, in the order of the groups' first rows.
    /// Refused if an evaluation that is reached is out of range, or if an allocation is refused: an aggregate that is
    /// out of range refuses only if HAVING, from the left, or an item of a group that passes reaches it.
    pub fn told<'a>(&'a self, state: &'a Groups) -> Result<Vec<Vec<Value, Memory>, Memory>, Refusal>
        requires ready { IsReady self.now }
        requires named { NamesGroups (Some self.now.columns.now) (map (cond self.now.terms.now) self.now.having.now)
            (map (expr self.now.terms.now) self.now.items.now) }
        ensures { (rows : List Row)
            → HasGrouped self.now.terms.now self.now.columns.now self.now.steps.aggregates.items state.now rows
            → Evaluated (λ v. rows_of v.items)
            (shown (map (cond self.now.terms.now) self.now.having.now)
            (map (expr self.now.terms.now) self.now.items.now)
            (scopes (Some self.now.columns.now) rows)) result }
    {
        let groups = self.count(&state.keys);
        let mut made: Vec<Vec<Value, Memory>, Memory> = Vec::with_capacity(self.memory, groups)?;
        let mut found: Vec<Found<'_>, Memory> = Vec::new(self.memory);
        for number in 0..groups {
            self.add_numbered(state, number, &mut found, &mut made)?;
        }
        Ok(made)
    }
}
