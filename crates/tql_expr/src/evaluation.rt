//! Evaluates expressions and conditions on a row.
ghost use Rattle.std.specs.Prelude.{◌≡◌, ◌<◌, ◌≤◌, ◌-◌, IsTrue, IsOk, All, map};
ghost use Rattle.tql_spec.specs.Datum.{Day, Moment};
ghost use Rattle.tql_spec.specs.Expression as bound;
ghost use Rattle.tql_value.specs.Views.{outcome, plain_comparison};
ghost use Rattle.tql_period.specs.Relations.{plain_relation};
ghost use Rattle.tql_expr.specs.Trees.{expr_of, cond_of, term_in};
ghost use Rattle.tql_expr.specs.Meaning.{trees, size, expr, cond, HasExpr, HasCond, judged, tested};
ghost use Rattle.tql_expr.specs.Sets.{SaysOfPeriods, SaysOfHolding};

use crate::columns::Columns;
use crate::node::Node;
use crate::scalar::{all, any, applied};
use crate::terms::{Aggregate, CondId, ExprId, Terms};
use tql_period::predicates::{Relation, contains_point, predicate};
use tql_value::arithmetic::{Range, sub};
use tql_value::comparison::{Comparison, compare};
use tql_value::truth::Truth;
use tql_value::value::View;

// A long sum is a run of nodes, each of which continues the node just before it. A loop follows the run, so that the
// call depth depends on the parentheses and not on the length of the sum.
impl Terms {
    /// Whether a node continues the node just before it.
    fn continues(&self, at: usize) -> bool
        requires { at < size self.now }
        ensures { IsTrue result → 0 < at }
    {
        match self.node(at) {
            Node::Binary(_, a, _) => a + 1 == at,
            Node::And(c, _) => c + 1 == at,
            Node::Or(c, d) => c + 1 == at || d + 1 == at,
            _ => false,
        }
    }

    /// Returns the first node of the run that ends at `at`.
    fn run_start(&self, at: usize) -> usize
        requires { at < size self.now }
        ensures { result ≤ at }
    {
        let mut start = at;
        while self.continues(start) {
            start -= 1;
        }
        start
    }

    #[cycle(evaluate)]
    fn eval_at<'a, C: Columns>(&'a self, at: usize, columns: &'a C) -> Result<View<'a>, Range>
        requires { at < size self.now }
        ensures { outcome result
            ≡ bound.eval (C.group columns.now) (C.values columns.now) (expr_of (term_in (trees self.now) at)) }
    {
        match self.node(at) {
            Node::Literal(k) => Ok(self.literal(k)),
            Node::Column(k) => Ok(columns.column(k)),
            Node::Negate(a) => sub(View::Int(0), self.eval_at(a, columns)?),
            Node::Binary(op, a, b) => {
                applied(op, self.eval_run(a, columns), self.eval_at(b, columns))
            }
            Node::CountRows => columns.aggregate(self, Aggregate::Rows),
            Node::Aggregate(function, a) => {
                columns.aggregate(self, Aggregate::Over(function, ExprId { place: a }))
            }
            _ => Ok(View::Null),
        }
    }

    /// Returns the value of the node at `at`, given the value of the node before it.
    #[cycle(evaluate)]
    fn eval_next<'a, C: Columns>(
        &'a self,
        at: usize,
        before: Result<View<'a>, Range>,
        columns: &'a C,
    ) -> Result<View<'a>, Range>
        requires within { at < size self.now }
        requires before { outcome before
            ≡ bound.eval (C.group columns.now) (C.values columns.now) (expr_of (term_in (trees self.now) (at - 1))) }
        ensures { outcome result
            ≡ bound.eval (C.group columns.now) (C.values columns.now) (expr_of (term_in (trees self.now) at)) }
    {
        match self.node(at) {
            Node::Binary(op, a, b) if a + 1 == at => applied(op, before, self.eval_at(b, columns)),
            _ => self.eval_at(at, columns),
        }
    }

    #[cycle(evaluate)]
    fn eval_run<'a, C: Columns>(&'a self, at: usize, columns: &'a C) -> Result<View<'a>, Range>
        requires { at < size self.now }
        ensures { outcome result
            ≡ bound.eval (C.group columns.now) (C.values columns.now) (expr_of (term_in (trees self.now) at)) }
    {
        let start = self.run_start(at);
        let mut value = self.eval_at(start, columns);
        for place in start..at {
            value = self.eval_next(place + 1, value, columns);
        }
        value
    }

    /// Returns the value of an operand of a test. A column or a literal, the most common operands, is read directly.
    fn operand<'a, C: Columns>(&'a self, at: usize, columns: &'a C) -> Result<View<'a>, Range>
        requires { at < size self.now }
        ensures { outcome result
            ≡ bound.eval (C.group columns.now) (C.values columns.now) (expr_of (term_in (trees self.now) at)) }
    {
        match self.node(at) {
            Node::Column(k) => Ok(columns.column(k)),
            Node::Literal(k) => Ok(self.literal(k)),
            _ => self.eval_at(at, columns),
        }
    }

    fn compare_at<C: Columns>(
        &self,
        sign: Comparison,
        a: usize,
        b: usize,
        columns: &C,
    ) -> Result<Truth, Range>
        requires first { a < size self.now }
        requires second { b < size self.now }
        ensures { judged result ≡ bound.judge (C.group columns.now) (C.values columns.now)
            (bound.Compare (plain_comparison sign)
            (expr_of (term_in (trees self.now) a)) (expr_of (term_in (trees self.now) b))) }
    {
        let x = self.operand(a, columns)?;
        let y = self.operand(b, columns)?;
        Ok(compare(sign, x, y))
    }

    fn related_at<C: Columns>(
        &self,
        which: Relation,
        x: (usize, usize),
        y: (usize, usize),
        columns: &C,
    ) -> Result<Truth, Range>
        requires from { x.0 < size self.now }
        requires to { x.1 < size self.now }
        requires start { y.0 < size self.now }
        requires end { y.1 < size self.now }
        ensures { judged result ≡ bound.judge (C.group columns.now) (C.values columns.now)
            (bound.Related (plain_relation which)
            (expr_of (term_in (trees self.now) x.0)) (expr_of (term_in (trees self.now) x.1))
            (expr_of (term_in (trees self.now) y.0)) (expr_of (term_in (trees self.now) y.1))) }
    {
        let from = self.operand(x.0, columns)?;
        let to = self.operand(x.1, columns)?;
        let start = self.operand(y.0, columns)?;
        let end = self.operand(y.1, columns)?;
        Ok(predicate(which, (from, to), (start, end)))
    }

    fn contains_at<C: Columns>(
        &self,
        x: (usize, usize),
        point: usize,
        columns: &C,
    ) -> Result<Truth, Range>
        requires from { x.0 < size self.now }
        requires to { x.1 < size self.now }
        requires point { point < size self.now }
        ensures { judged result ≡ bound.judge (C.group columns.now) (C.values columns.now)
            (bound.ContainsPoint (expr_of (term_in (trees self.now) x.0)) (expr_of (term_in (trees self.now) x.1))
            (expr_of (term_in (trees self.now) point))) }
    {
        let from = self.operand(x.0, columns)?;
        let to = self.operand(x.1, columns)?;
        let at = self.operand(point, columns)?;
        Ok(contains_point((from, to), at))
    }

    #[cycle(judge)]
    fn holds_at<C: Columns>(&self, at: usize, columns: &C) -> Result<Truth, Range>
        requires { at < size self.now }
        ensures { judged result
            ≡ bound.judge (C.group columns.now) (C.values columns.now) (cond_of (term_in (trees self.now) at)) }
    {
        match self.node(at) {
            Node::Compare(sign, a, b) => self.compare_at(sign, a, b, columns),
            Node::IsNull(a) => Ok(Truth::from(self.operand(a, columns)?.is_null())),
            Node::Related(which, a, b, c, d) => self.related_at(which, (a, b), (c, d), columns),
            Node::ContainsPoint(a, b, c) => self.contains_at((a, b), c, columns),
            Node::Not(c) => Ok(self.holds_at(c, columns)?.not()),
            Node::And(c, d) => all(self.holds_run(c, columns), self.holds_run(d, columns)),
            Node::Or(c, d) => any(self.holds_run(c, columns), self.holds_run(d, columns)),
            _ => Ok(Truth::True),
        }
    }

    /// Returns the truth of the node at `at`, given the truth of the node before it.
    #[cycle(judge)]
    fn holds_next<C: Columns>(
        &self,
        at: usize,
        before: Result<Truth, Range>,
        columns: &C,
    ) -> Result<Truth, Range>
        requires within { at < size self.now }
        requires before { judged before
            ≡ bound.judge (C.group columns.now) (C.values columns.now) (cond_of (term_in (trees self.now) (at - 1))) }
        ensures { judged result
            ≡ bound.judge (C.group columns.now) (C.values columns.now) (cond_of (term_in (trees self.now) at)) }
    {
        match self.node(at) {
            Node::And(c, d) if c + 1 == at => all(before, self.holds_at(d, columns)),
            Node::Or(c, d) if c + 1 == at => any(before, self.holds_at(d, columns)),
            Node::Or(c, d) if d + 1 == at => any(self.holds_at(c, columns), before),
            _ => self.holds_at(at, columns),
        }
    }

    #[cycle(judge)]
    fn holds_run<C: Columns>(&self, at: usize, columns: &C) -> Result<Truth, Range>
        requires { at < size self.now }
        ensures { judged result
            ≡ bound.judge (C.group columns.now) (C.values columns.now) (cond_of (term_in (trees self.now) at)) }
    {
        let start = self.run_start(at);
        let mut truth = self.holds_at(start, columns);
        for place in start..at {
            truth = self.holds_next(place + 1, truth, columns);
        }
        truth
    }

    /// Returns the truth of a condition. A comparison, the most common condition, is evaluated directly.
    fn judged_at<C: Columns>(&self, at: usize, columns: &C) -> Result<Truth, Range>
        requires { at < size self.now }
        ensures { judged result
            ≡ bound.judge (C.group columns.now) (C.values columns.now) (cond_of (term_in (trees self.now) at)) }
    {
        match self.node(at) {
            Node::Compare(sign, a, b) => self.compare_at(sign, a, b, columns),
            _ => self.holds_at(at, columns),
        }
    }

    /// Returns the value of an expression, or `Range` if an evaluation inside leaves 64 bits.
    pub fn eval<'a, C: Columns>(&'a self, x: ExprId, columns: &'a C) -> Result<View<'a>, Range>
        requires { HasExpr self.now x }
        ensures { outcome result
            ≡ bound.eval (C.group columns.now) (C.values columns.now) (expr self.now x) }
    {
        self.operand(x.place, columns)
    }

    /// Returns the truth of a condition, or `Range` if an evaluation inside leaves 64 bits; everything inside is
    /// evaluated. A condition without arithmetic and aggregates never returns `Range`.
    pub fn holds<C: Columns>(&self, c: CondId, columns: &C) -> Result<Truth, Range>
        requires { HasCond self.now c }
        ensures truth { judged result
            ≡ bound.judge (C.group columns.now) (C.values columns.now) (cond self.now c) }
        ensures safe { IsTrue (bound.is_safe (cond self.now c)) → IsOk result }

        // What the condition says about periods as sets of points, for days and for moments.
        ensures days { SaysOfPeriods Day (C.group columns.now) (C.values columns.now)
            (cond self.now c) (judged result) }
        ensures moments { SaysOfPeriods Moment (C.group columns.now) (C.values columns.now)
            (cond self.now c) (judged result) }
        ensures day { SaysOfHolding Day (C.group columns.now) (C.values columns.now) (cond self.now c) (judged result) }
        ensures moment { SaysOfHolding Moment (C.group columns.now) (C.values columns.now)
            (cond self.now c) (judged result) }
    {
        tql_spec::safe_conditions();
        tql_spec::predicates_on_points();
        self.judged_at(c.place, columns)
    }

    /// Whether a row passes a list of conjuncts. From the left, each is evaluated only if all before it were TRUE.
    pub fn passes<C: Columns>(&self, conjuncts: &[CondId], columns: &C) -> Result<bool, Range>
        requires { All (HasCond self.now) conjuncts.now }
        ensures { tested result
            ≡ bound.passes (C.group columns.now) (C.values columns.now) (map (cond self.now) conjuncts.now) }
    {
        for conjunct in conjuncts {
            if !self.holds(*conjunct, columns)?.is_true() {
                return Ok(false);
            }
        }
        Ok(true)
    }
}
