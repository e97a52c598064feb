//! Accumulators: an aggregate over rows that are taken one at a time, none of which is kept.
ghost use Rattle.std.specs.Prelude.{◌≡◌, ◌+◌, ◌<◌, ◌≤◌, ◌^◌, MatchResult, if◌then◌else◌, pos, Some};
ghost use Rattle.tql_spec.specs.Datum as pure;
ghost use Rattle.tql_value.specs.Views.{datum_of_value, datum_of_view};
ghost use Rattle.tql_exec_fold.specs.Folds.{IsWithin, the_better};

use crate::aggregates::{is_beaten, is_number_beaten, summed, with_value};
use tql_exec_join::tuple::Tuple;
use tql_expr::columns::Columns;
use tql_expr::node::{Function, Node};
use tql_expr::terms::{Aggregate, ExprId, Terms};
use tql_memory::Memory;
use tql_value::arithmetic::Range;
use tql_value::refusal::Refusal;
use tql_value::value::{Value, View};

/// The greatest number of rows over which an aggregate has a value: 64 bits, signed, can count them, and 128 bits can
/// sum a value of each.
const MOST: u64 = 0x7fff_ffff_ffff_ffff;

/// An aggregate over the rows so far. The value of each function stands in a field of its own: the count in `values`,
/// the sum in `sum`, and the least or greatest value in `best`.
pub struct Accumulator {
    /// The number of rows, as long as the result is not out of range.
    rows: u64,
    /// The number of rows on which the operand was not NULL, for COUNT and SUM.
    values: u64,
    /// The sum; NULL as long as `values` is 0.
    sum: i128,
    /// The least or the greatest value; NULL as long as all values were NULL.
    best: Value,
    /// Whether the result is out of range, whichever rows follow: the operand was out of range on some row, or there
    /// were more rows than 64 bits can count.
    is_out: bool,
    ghost few: { rows < 2 ^ 63 },
    ghost counted: { values ≤ rows },
    ghost within: { IsWithin rows (Some sum) },
    ghost none: { values ≡ 0 → sum ≡ pos 0 },
}

impl Drop for Accumulator {
    fn drop(self) {
        let Accumulator {
            rows: _,
            values: _,
            sum: _,
            best,
            is_out: _,
        } = self;
        drop(best);
    }
}

/// Returns a count with one more value. NULL is not counted.
fn with_count(values: u64, value: View<'_>) -> u64
    requires { values < 2 ^ 63 }
    ensures { result ≡ (if pure.is_null (datum_of_view value.entry) then values else values + 1) }
{
    if value.is_null() { values } else { values + 1 }
}

/// Replaces the best value so far by one that is better. Any other value is not copied. Numbers, the most common
/// values, are compared directly. The only error is a refused allocation.
fn keep_better(
    memory: Memory,
    greatest: bool,
    best: &mut Value,
    value: View<'_>,
) -> Result<(), Refusal>
    ensures { MatchResult result
        (λ _. datum_of_value best.new
        ≡ the_better greatest (datum_of_value best.old) (datum_of_view value.entry))
        (λ e. e ≡ Refusal.OutOfMemory) }
{
    let is_better = match (&*best, value) {
        (Value::Int(first), View::Int(second)) => is_number_beaten(greatest, *first, second),
        _ => is_beaten(greatest, best.view(), value),
    };
    if !is_better {
        return Ok(());
    }
    *best = value.to_value(memory)?;
    Ok(())
}

impl Accumulator {
    ghost use Rattle.std.specs.Prelude.{◌≡◌, ◌+◌, ◌<◌, ◌^◌, ◌∷◌, [], false, IfErr, IfOk, List, MatchResult};
    ghost use Rattle.tql_spec.specs.Datum as pure;
    ghost use Rattle.tql_spec.specs.Expression as bound;
    ghost use Rattle.tql_value.specs.Views.{datum_of_value, datum_of_view, outcome};
    ghost use Rattle.tql_expr.specs.Meaning.{aggregate as tree_of, HasExpr, HasOperand};
    ghost use Rattle.tql_expr.specs.Trees.{plain_function};
    ghost use Rattle.tql_expr.specs.declared.terms.Aggregate.{Aggregate};
    ghost use Rattle.tql_expr.specs.declared.terms.Aggregate.TheVariants.{Over};
    ghost use Rattle.tql_expr.specs.declared.terms.Terms.{Terms};
    ghost use Rattle.tql_exec_join.specs.Tuples.{tuple_row};
    ghost use Rattle.tql_exec_fold.specs.Folded.{rest_of, HasFolded, Takes};

    /// Returns the accumulator of no rows.
    pub fn new() -> Accumulator
        ensures { (t : Terms) (which : Aggregate) → HasFolded t which result [] }
    {
        Accumulator {
            rows: 0,
            values: 0,
            sum: 0,
            best: Value::Null,
            is_out: false,
        }
    }

    /// Takes the value of the operand on one more row. The only error is a refused allocation.
    #[inline]
    fn add(&mut self, memory: Memory, function: Function, value: View<'_>) -> Result<(), Refusal>
        requires { self.old.rows + 1 < 2 ^ 63 }
        ensures rows { IfOk result (λ _. self.new.rows ≡ self.old.rows + 1) }
        ensures out { self.new.is_out ≡ self.old.is_out }
        ensures folds { IfOk result (λ _. (vs : List pure.Datum)
            → rest_of (plain_function function) self.new (bound.present vs)
            ≡ rest_of (plain_function function) self.old (bound.present (datum_of_view value.entry ∷ vs))) }
        ensures memory { IfErr result (λ e. e ≡ Refusal.OutOfMemory) }
    {
        self.rows += 1;
        match function {
            Function::Count => self.values = with_count(self.values, value),
            Function::Sum => {
                self.sum = with_value(self.sum, value);
                self.values = with_count(self.values, value);
            }
            Function::Min => keep_better(memory, false, &mut self.best, value)?,
            Function::Max => keep_better(memory, true, &mut self.best, value)?,
        }
        Ok(())
    }

    /// Takes one more row, on which the operand is evaluated. Remembers that it is out of range.
    #[inline(never)]
    fn take_evaluated(
        &mut self,
        memory: Memory,
        terms: &Terms,
        function: Function,
        x: ExprId,
        row: &Tuple<'_>,
    ) -> Result<(), Refusal>
        requires there { HasExpr terms.now x }
        requires few { self.old.rows + 1 < 2 ^ 63 }
        requires held { self.old.is_out ≡ false }
        ensures { MatchResult result
            (λ _. Takes terms.now (Over function x) self.old self.new (tuple_row row.now))
            (λ e. e ≡ Refusal.OutOfMemory) }
    {
        match terms.eval(x, row) {
            Ok(value) => self.add(memory, function, value),
            Err(_) => {
                self.is_out = true;
                Ok(())
            }
        }
    }

    /// Takes one more row. The operand is evaluated once; a column, the most common one, is read directly. Remembers
    /// that it is out of range, or that there are more rows than 64 bits can count. The only error is a refused
    /// allocation.
    pub fn take(
        &mut self,
        memory: Memory,
        terms: &Terms,
        which: Aggregate,
        row: &Tuple<'_>,
    ) -> Result<(), Refusal>
        requires { HasOperand terms.now which }
        ensures { MatchResult result
            (λ _. Takes terms.now which self.old self.new (tuple_row row.now)) (λ e. e ≡ Refusal.OutOfMemory) }
    {
        if self.is_out {
            return Ok(());
        }
        if self.rows == MOST {
            self.is_out = true;
            return Ok(());
        }
        let Aggregate::Over(function, x) = which else {
            self.rows += 1;
            return Ok(());
        };
        match terms.node(x.place) {
            Node::Column(column) => self.add(memory, function, row.column(column)),
            _ => self.take_evaluated(memory, terms, function, x, row),
        }
    }

    /// Returns the result of a function over the values so far, or `Range` if a sum overflows 64 bits.
    fn result(&self, function: Function) -> Result<View<'_>, Range>
        ensures { outcome result ≡ rest_of (plain_function function) self.now [] }
    {
        match function {
            Function::Count => Ok(View::Int(self.values as i64)),
            Function::Sum => summed(self.values, self.sum),
            Function::Min | Function::Max => Ok(self.best.view()),
        }
    }

    /// Returns the result of the aggregate over the rows so far, or `Range` if it or, on some row, the operand is out
    /// of range. The result over 2^63 rows or more is out of range. Makes no allocation.
    pub fn told(&self, which: Aggregate) -> Result<View<'_>, Range>
        ensures { (t : Terms) (rows : List pure.Row) (row : pure.Row) → HasFolded t which self.now rows
            → outcome result ≡ bound.eval rows row (tree_of t which) }
    {
        if self.is_out {
            return Err(Range);
        }
        match which {
            Aggregate::Rows => Ok(View::Int(self.rows as i64)),
            Aggregate::Over(function, _) => self.result(function),
        }
    }
}
