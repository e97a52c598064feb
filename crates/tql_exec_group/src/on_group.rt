//! HAVING and the select list on a group, from the cells of its grouping columns, the number of its rows and its
//! aggregates. The nodes are evaluated one after another, each once. A result out of range is kept as such: it refuses
//! the query only if HAVING or an item reaches it.
ghost use Rattle.std.specs.Prelude.{◌≡◌, ◌+◌, ◌<◌, ◌≤◌, ◌^◌, ◌∷◌, [], All, IsTrue, List, map, length, None};
ghost use Rattle.std.specs.Prelude.{OnOk, pos, slice_get, Some};
ghost use Rattle.tql_spec.specs.Datum as pure;
ghost use Rattle.tql_spec.specs.Datum.{exact};
ghost use Rattle.tql_spec.specs.Expression as bound;
ghost use Rattle.tql_spec.specs.Words.{map_all};
ghost use Rattle.tql_value.specs.Views.{datum_of_view, outcome, row_of, rows_of};
ghost use Rattle.tql_expr.specs.Evaluated.{behind, Evaluated};
ghost use Rattle.tql_expr.specs.Meaning.{aggregate as tree_of, calculated, datum_at, judged, tested};
ghost use Rattle.tql_expr.specs.Nodes.{reads_before};
ghost use Rattle.tql_expr.specs.Trees.{plain_operation};
ghost use Rattle.tql_expr.specs.declared.terms.Aggregate.{Aggregate as CodeAggregate};
ghost use Rattle.tql_expr.specs.declared.terms.Terms.{Terms as CodeTerms};
ghost use Rattle.tql_exec_fold.specs.Folded.{HasFolded, HaveFolded};
ghost use Rattle.tql_exec_group.specs.Counted.{kept_count};
ghost use Rattle.tql_exec_group.specs.Places.{key_at, ArePlaces};
ghost use Rattle.tql_exec_group.specs.Results.{AreResults, IsKeyOf};
ghost use Rattle.tql_exec_group.specs.Steps.{aggregate_of, aggregates_in, node_truth};
ghost use Rattle.tql_exec_group.specs.Steps.{node_value, passes_by};
ghost use Rattle.tql_exec_group.specs.Steps.{reads_from, shown_if, truth_in, value_in, AreSteps, LiesIn};
ghost use Rattle.tql_exec_fold.specs.declared.fold.Accumulator.{Accumulator as CodeAccumulator};

use crate::steps::{Steps, aggregate_in};
use std::alloc::AllocError;
use tql_exec_fold::fold::Accumulator;
use tql_expr::node::{Node, Operation};
use tql_expr::row::cell_at;
use tql_expr::terms::{Aggregate, CondId, ExprId, Terms};
use tql_memory::Memory;
use tql_period::predicates::{contains_point, predicate};
use tql_value::arithmetic::{Range, add, mul, sub};
use tql_value::comparison::compare;
use tql_value::refusal::Refusal;
use tql_value::truth::Truth;
use tql_value::value::{Value, View};

/// A group: its cells in the grouping columns, the number of its rows, and the accumulators of its aggregates.
#[derive(Clone, Copy)]
pub(crate) struct Group<'a> {
    pub(crate) columns: &'a [usize],
    /// The index of each column among the grouping columns.
    pub(crate) places: &'a [Option<usize>],
    pub(crate) key: &'a [Value],
    /// The number of rows, which stays at the greatest one of 64 bits.
    pub(crate) count: u64,
    pub(crate) folds: &'a [Accumulator],
    ghost placed: { ArePlaces columns.now places.now },
}

/// The results of a node: the value of an expression, or the truth of a condition.
#[derive(Clone, Copy)]
pub(crate) struct Found<'a> {
    value: Result<View<'a>, Range>,
    truth: Result<Truth, Range>,
}

/// The results of the nodes from a position on.
#[derive(Clone, Copy)]
pub(crate) struct Results<'f, 'a> {
    pub(crate) from: usize,
    pub(crate) found: &'f [Found<'a>],
}

impl<'a> Results<'_, 'a> {
    /// Returns the value of the expression at a position.
    fn value(self, at: usize) -> Result<View<'a>, Range>
        requires above { self.from ≤ at }
        requires below { at < self.from + length self.found.now }
        ensures { outcome result ≡ value_in self.entry.from self.entry.found.now at }
    {
        self.found[at - self.from].value
    }

    /// Returns the truth of the condition at a position.
    fn truth(self, at: usize) -> Result<Truth, Range>
        requires above { self.from ≤ at }
        requires below { at < self.from + length self.found.now }
        ensures { judged result ≡ truth_in self.entry.from self.entry.found.now at }
    {
        self.found[at - self.from].truth
    }
}

/// Returns the result of an operation on two values, each of which may be `Range`.
fn applied<'a>(
    op: Operation,
    a: Result<View<'a>, Range>,
    b: Result<View<'a>, Range>,
) -> Result<View<'a>, Range>
    ensures { outcome result ≡ calculated (plain_operation op) (outcome a.entry) (outcome b.entry) }
{
    let a = a?;
    let b = b?;
    match op {
        Operation::Add => add(a, b),
        Operation::Subtract => sub(a, b),
        Operation::Multiply => mul(a, b),
    }
}

/// Returns the cell of a column, or NULL if it is no grouping column.
fn key_cell<'a>(group: Group<'a>, column: usize) -> View<'a>
    ensures { datum_of_view result ≡ key_at group.entry.columns.now (row_of group.entry.key.now) column }
{
    match group.places.get(column) {
        Some(Some(place)) => cell_at(group.key, *place),
        _ => View::Null,
    }
}

/// Returns a number of rows as the value of COUNT(*), or `Range` if 64 bits, signed, do not hold it.
pub(crate) fn counted<'a>(count: u64) -> Result<View<'a>, Range>
    ensures { outcome result ≡ exact (pos count) }
{
    match i64::try_from(count) {
        Ok(number) => Ok(View::Int(number)),
        Err(_) => Err(Range),
    }
}

/// Returns the value of an expression other than an aggregate of an operand. A condition has none, and counts as NULL.
fn value_of<'a>(
    terms: &'a Terms,
    group: Group<'a>,
    node: Node,
    results: Results<'_, 'a>,
) -> Result<View<'a>, Range>
    requires before { IsTrue
        (reads_before (length terms.now.literals.items) (results.from + length results.found.now) node) }
    requires within { IsTrue (reads_from results.from node) }
    ensures { outcome result ≡ node_value (datum_at terms.now.literals.items)
        (key_at group.entry.columns.now (row_of group.entry.key.now)) (exact (pos group.entry.count))
        (value_in results.entry.from results.entry.found.now) node }
{
    match node {
        Node::Literal(place) => Ok(terms.literal(place)),
        Node::Column(column) => Ok(key_cell(group, column)),
        Node::CountRows => counted(group.count),
        Node::Negate(a) => sub(View::Int(0), results.value(a)?),
        Node::Binary(op, a, b) => applied(op, results.value(a), results.value(b)),
        _ => Ok(View::Null),
    }
}

/// Returns the truth of a condition. An expression has none, and counts as true.
fn truth_of(terms: &Terms, node: Node, results: Results<'_, '_>) -> Result<Truth, Range>
    requires before { IsTrue
        (reads_before (length terms.now.literals.items) (results.from + length results.found.now) node) }
    requires within { IsTrue (reads_from results.from node) }
    ensures { judged result ≡ node_truth (value_in results.entry.from results.entry.found.now)
        (truth_in results.entry.from results.entry.found.now) node }
{
    match node {
        Node::Compare(sign, a, b) => Ok(compare(sign, results.value(a)?, results.value(b)?)),
        Node::IsNull(a) => Ok(Truth::from(results.value(a)?.is_null())),
        Node::Related(which, a, b, c, d) => {
            let x = (results.value(a)?, results.value(b)?);
            let y = (results.value(c)?, results.value(d)?);
            Ok(predicate(which, x, y))
        }
        Node::ContainsPoint(a, b, c) => {
            let x = (results.value(a)?, results.value(b)?);
            Ok(contains_point(x, results.value(c)?))
        }
        Node::Not(c) => Ok(results.truth(c)?.not()),
        Node::And(c, d) => Ok(results.truth(c)?.and(results.truth(d)?)),
        Node::Or(c, d) => Ok(results.truth(c)?.or(results.truth(d)?)),
        _ => Ok(Truth::True),
    }
}

/// Returns the value of an expression, or of an aggregate of an operand, which is the next one.
fn value_on<'a>(
    terms: &'a Terms,
    group: Group<'a>,
    node: Node,
    next: usize,
    results: Results<'_, 'a>,
) -> Result<View<'a>, Range>
    requires before { IsTrue
        (reads_before (length terms.now.literals.items) (results.from + length results.found.now) node) }
    requires within { IsTrue (reads_from results.from node) }
    ensures plain { aggregate_of node ≡ None → outcome result ≡ node_value (datum_at terms.now.literals.items)
        (key_at group.entry.columns.now (row_of group.entry.key.now)) (exact (pos group.entry.count))
        (value_in results.entry.from results.entry.found.now) node }
    ensures told { (which : CodeAggregate) → aggregate_of node ≡ Some which
        → (t : CodeTerms) (rows : List pure.Row) (row : pure.Row) (a : CodeAccumulator)
        → slice_get group.entry.folds.now next ≡ Some a → HasFolded t which a rows
        → outcome result ≡ bound.eval rows row (tree_of t which) }
{
    match aggregate_in(node) {
        Some(which) => match group.folds.get(next) {
            Some(fold) => fold.told(which),
            None => Err(Range),
        },
        None => value_of(terms, group, node, results),
    }
}

/// Returns the index of the next aggregate after a node.
fn after(node: Node, next: usize) -> usize
    requires { next < 2 ^ 63 }
    ensures { result ≡ next + length (aggregates_in (node ∷ [])) }
{
    match node {
        Node::Aggregate(..) => next + 1,
        _ => next,
    }
}

/// Replaces the results of a group by those of all nodes on this group. The only error is a refused allocation.
pub(crate) fn find_results<'a>(
    terms: &'a Terms,
    steps: &Steps,
    group: Group<'a>,
    found: &mut Vec<Found<'a>, Memory>,
) -> Result<(), AllocError>
    requires { AreSteps terms.now steps.now }
    ensures size { OnOk result (length found.new.items ≡ length steps.now.nodes.items) }
    ensures results { OnOk result ((rows : List pure.Row) (row : pure.Row)
        → group.entry.count ≡ kept_count (length rows)
        → HaveFolded terms.now steps.now.aggregates.items group.entry.folds.now rows
        → IsKeyOf group.entry.columns.now (row_of group.entry.key.now) row
        → AreResults terms.now group.entry.columns.now rows row steps.now.from found.new.items) }
{
    found.clear();
    let mut next = 0;
    for node in steps.nodes.iter() {
        let results = Results {
            from: steps.from,
            found: found.as_slice(),
        };
        let one = Found {
            value: value_on(terms, group, *node, next, results),
            truth: truth_of(terms, *node, results),
        };
        next = after(*node, next);
        found.push(one)?;
    }
    Ok(())
}

/// Whether the conjuncts hold. From the left, each is reached only if all before it are TRUE.
fn passes_on(results: Results<'_, '_>, having: &[CondId]) -> Result<bool, Range>
    requires { All (λ c. LiesIn results.from (results.from + length results.found.now) c.place) having.now }
    ensures { tested result ≡ passes_by (truth_in results.entry.from results.entry.found.now)
        (map (λ c. c.place) having.now) }
{
    for cond in having {
        if !results.truth(cond.place)?.is_true() {
            return Ok(false);
        }
    }
    Ok(true)
}

/// Returns the values of the items. Refused if one is out of range, or if an allocation is refused.
fn values_in(
    memory: Memory,
    results: Results<'_, '_>,
    items: &[ExprId],
) -> Result<Vec<Value, Memory>, Refusal>
    requires { All (λ x. LiesIn results.from (results.from + length results.found.now) x.place) items.now }
    ensures { Evaluated (λ values. row_of values.items)
        (map_all (value_in results.entry.from results.entry.found.now) (map (λ x. x.place) items.now)) result }
{
    let mut values = Vec::with_capacity(memory, items.len())?;
    for item in items {
        values.push(results.value(item.place)?.to_value(memory)?)?;
    }
    Ok(values)
}

/// Adds the values of the items if the conjuncts hold. Refused if a result that is reached is out of range, or if an
/// allocation is refused.
pub(crate) fn add_shown(
    memory: Memory,
    results: Results<'_, '_>,
    having: &[CondId],
    items: &[ExprId],
    made: &mut Vec<Vec<Value, Memory>, Memory>,
) -> Result<(), Refusal>
    requires having { All (λ c. LiesIn results.from (results.from + length results.found.now) c.place) having.now }
    requires items { All (λ x. LiesIn results.from (results.from + length results.found.now) x.place) items.now }
    ensures { Evaluated (λ _. rows_of made.new.items) (behind (rows_of made.old.items) (shown_if
        (passes_by (truth_in results.entry.from results.entry.found.now) (map (λ c. c.place) having.now))
        (map_all (value_in results.entry.from results.entry.found.now) (map (λ x. x.place) items.now)))) result }
{
    if passes_on(results, having)? {
        made.push(values_in(memory, results, items)?)?;
    }
    Ok(())
}
