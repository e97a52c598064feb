//! Binding of expressions: from the syntax tree to typed nodes in the arena of a statement. Each function follows the
//! definition of `Names` in `tql_spec` that its contract names. It binds the same parts in the same order, with the
//! same placeholder after a fault. The operands of a sum or a product are bound in one loop, so the recursion is only
//! as deep as the parentheses.
ghost use Rattle.std.specs.Prelude.{◌≡◌, IfOk, option_map};
ghost use Rattle.tql_spec.specs.Names as names;
ghost use Rattle.tql_spec.specs.Datum as datum;
ghost use Rattle.tql_spec.specs.Expression as bound;
ghost use Rattle.tql_expr.specs.Meaning.{HasExpr, Stays};
ghost use Rattle.tql_syntax_tree.specs.Expressions.{digits_of, function_of, expr_of, term_of, signed_of, primary_of};
ghost use Rattle.tql_value.specs.Views.{plain_kind};
ghost use Rattle.tql_bind_expr.specs.Gathered.{Gathers};
ghost use Rattle.tql_bind_expr.specs.Bounds.{typed_of, digits_in, is_no_sum, aggregate_kind};
ghost use Rattle.tql_bind_expr.specs.Scopes.{scope_of};

use crate::about::{About, Cause};
use crate::chain::Chain;
use crate::faults::Faults;
use crate::kinds::is_other_kind;
use crate::literals::{column, date, number, text, timestamp};
use crate::scope::{Known, Typed};
use crate::signs::{function, operation};
use std::alloc::AllocError;
use tql_expr::node::Operation;
use tql_expr::terms::Terms;
use tql_memory::Memory;
use tql_syntax_tree::expression::{Expr, Function, Primary, Sign, Signed, Term};
use tql_value::refusal::Refusal;
use tql_value::value::Kind;

/// Returns the cause and place of the fault that an operand is not a number.
fn no_number(operand: Typed) -> About {
    About::at(Cause::NoNumber, operand.start).kinds(operand.kind, None)
}

/// Binds `-` before anything but a number literal.
#[tactic(auto, using(crate::proofs::Gathering::gathering))]
fn negation(
    start: u32,
    operand: Typed,
    terms: &mut Terms,
    faults: &mut Faults,
) -> Result<Typed, AllocError>
    requires { HasExpr terms.old operand.expr }
    ensures bound { IfOk result
        (λ t. Gathers (names.negation (typed_of terms.old operand)) faults.old faults.new (typed_of terms.new t)) }
    ensures stays { Stays terms.old terms.new }
    ensures held { IfOk result (λ t. HasExpr terms.new t.expr) }
{
    faults.refuse_if(
        is_other_kind(Kind::Int, operand.kind),
        Refusal::TypesDoNotFit,
        no_number(operand),
    );
    let expr = terms.push_negate(operand.expr)?;
    Ok(Typed {
        expr,
        kind: Some(Kind::Int),
        start,
    })
}

/// Whether the aggregate is SUM over an operand that is known not to be a number.
fn is_no_sum(aggregate: Function, kind: Option<Kind>) -> bool
    ensures { result ≡ is_no_sum (function_of aggregate) (option_map plain_kind kind) }
{
    match aggregate {
        Function::Sum => is_other_kind(Kind::Int, kind),
        Function::Count | Function::Min | Function::Max => false,
    }
}

/// Returns the type of an aggregate over an operand of this type.
fn aggregate_kind(aggregate: Function, kind: Option<Kind>) -> Option<Kind>
    ensures { option_map plain_kind result ≡ aggregate_kind (function_of aggregate) (option_map plain_kind kind) }
{
    match aggregate {
        Function::Count | Function::Sum => Some(Kind::Int),
        Function::Min | Function::Max => kind,
    }
}

/// Binds an aggregate over a bound operand.
#[tactic(auto, using(crate::proofs::Gathering::gathering))]
fn aggregate(
    start: u32,
    aggregate: Function,
    operand: Typed,
    terms: &mut Terms,
    faults: &mut Faults,
) -> Result<Typed, AllocError>
    requires { HasExpr terms.old operand.expr }
    ensures bound { IfOk result
        (λ t. Gathers (names.aggregate (function_of aggregate) (typed_of terms.old operand)) faults.old
        faults.new (typed_of terms.new t)) }
    ensures stays { Stays terms.old terms.new }
    ensures held { IfOk result (λ t. HasExpr terms.new t.expr) }
{
    faults.see_aggregate(start);
    faults.refuse_if(
        is_no_sum(aggregate, operand.kind),
        Refusal::TypesDoNotFit,
        no_number(operand),
    );
    let expr = terms.push_aggregate(function(aggregate), operand.expr)?;
    Ok(Typed {
        expr,
        kind: aggregate_kind(aggregate, operand.kind),
        start,
    })
}

/// Binds `COUNT(*)`.
fn row_count(start: u32, terms: &mut Terms) -> Result<Typed, AllocError>
    ensures bound { IfOk result (λ t. typed_of terms.new t ≡ names.typed bound.CountRows datum.Ints) }
    ensures stays { Stays terms.old terms.new }
    ensures held { IfOk result (λ t. HasExpr terms.new t.expr) }
{
    let expr = terms.push_count_rows()?;
    Ok(Typed {
        expr,
        kind: Some(Kind::Int),
        start,
    })
}

/// Returns the digits of a number literal. None for any other primary.
fn digits_of<'a>(primary: &Primary<'a>) -> Option<&'a str>
    ensures { option_map digits_of result ≡ digits_in (primary_of primary.now) }
{
    match primary {
        Primary::Number(digits) => Some(*digits),
        Primary::Text(_)
        | Primary::Date(_)
        | Primary::Timestamp(_)
        | Primary::Column(_)
        | Primary::Enclosed(_)
        | Primary::CountStar
        | Primary::Over(_, _) => None,
    }
}

/// Binds an expression.
#[cycle(expressions)]
#[tactic(auto, using(crate::proofs::Gathering::gathering))]
pub fn sum(
    memory: Memory,
    scope: &[Known<'_>],
    sum: &Expr<'_>,
    terms: &mut Terms,
    faults: &mut Faults,
) -> Result<Typed, AllocError>
    ensures bound { IfOk result
        (λ t. Gathers (names.expr (scope_of scope.now) (expr_of sum.now)) faults.old
        faults.new (typed_of terms.new t)) }
    ensures stays { Stays terms.old terms.new }
    ensures held { IfOk result (λ t. HasExpr terms.new t.expr) }
{
    let first = product(memory, scope, &sum.first, terms, faults)?;
    if sum.more.is_empty() {
        return Ok(first);
    }
    let mut chain = Chain::new(memory, first);
    for added in &sum.more {
        let right = product(memory, scope, &added.term, terms, faults)?;
        chain.add(operation(added.is_minus), right, faults)?;
    }
    chain.push(terms)
}

/// Binds a product.
#[cycle(expressions)]
#[tactic(auto, using(crate::proofs::Gathering::gathering))]
fn product(
    memory: Memory,
    scope: &[Known<'_>],
    product: &Term<'_>,
    terms: &mut Terms,
    faults: &mut Faults,
) -> Result<Typed, AllocError>
    ensures bound { IfOk result
        (λ t. Gathers (names.product (scope_of scope.now) (term_of product.now)) faults.old
        faults.new (typed_of terms.new t)) }
    ensures stays { Stays terms.old terms.new }
    ensures held { IfOk result (λ t. HasExpr terms.new t.expr) }
{
    let first = signed(memory, scope, &product.first, terms, faults)?;
    if product.more.is_empty() {
        return Ok(first);
    }
    let mut chain = Chain::new(memory, first);
    for factor in &product.more {
        let right = signed(memory, scope, factor, terms, faults)?;
        chain.add(Operation::Multiply, right, faults)?;
    }
    chain.push(terms)
}

/// Binds a primary with its sign.
#[cycle(expressions)]
#[tactic(auto, using(crate::proofs::Gathering::gathering))]
fn signed(
    memory: Memory,
    scope: &[Known<'_>],
    signed: &Signed<'_>,
    terms: &mut Terms,
    faults: &mut Faults,
) -> Result<Typed, AllocError>
    ensures bound { IfOk result
        (λ t. Gathers (names.signed (scope_of scope.now) (signed_of signed.now)) faults.old
        faults.new (typed_of terms.new t)) }
    ensures stays { Stays terms.old terms.new }
    ensures held { IfOk result (λ t. HasExpr terms.new t.expr) }
{
    let start = signed.start;
    match signed.sign {
        Sign::None => primary(memory, scope, start, &signed.primary, terms, faults),
        Sign::Plus => {
            let operand = primary(memory, scope, start, &signed.primary, terms, faults)?;
            faults.refuse_if(
                is_other_kind(Kind::Int, operand.kind),
                Refusal::TypesDoNotFit,
                no_number(operand),
            );
            Ok(operand)
        }
        Sign::Minus => match digits_of(&signed.primary) {
            Some(digits) => number(start, true, digits, terms, faults),
            None => {
                let operand = primary(memory, scope, start, &signed.primary, terms, faults)?;
                negation(start, operand, terms, faults)
            }
        },
    }
}

/// Binds a literal, a column, an expression in parentheses or an aggregate.
#[cycle(expressions)]
#[tactic(auto, using(crate::proofs::Gathering::gathering))]
fn primary(
    memory: Memory,
    scope: &[Known<'_>],
    start: u32,
    primary: &Primary<'_>,
    terms: &mut Terms,
    faults: &mut Faults,
) -> Result<Typed, AllocError>
    ensures bound { IfOk result
        (λ t. Gathers (names.primary (scope_of scope.now) (primary_of primary.now)) faults.old
        faults.new (typed_of terms.new t)) }
    ensures stays { Stays terms.old terms.new }
    ensures held { IfOk result (λ t. HasExpr terms.new t.expr) }
{
    match primary {
        Primary::Number(digits) => number(start, false, digits, terms, faults),
        Primary::Text(quoted) => text(memory, start, quoted, terms),
        Primary::Date(quoted) => date(memory, start, quoted, terms, faults),
        Primary::Timestamp(quoted) => timestamp(memory, start, quoted, terms, faults),
        Primary::Column(named) => column(memory, scope, start, *named, terms, faults),
        Primary::Enclosed(inner) => sum(memory, scope, inner, terms, faults),
        Primary::CountStar => {
            faults.see_aggregate(start);
            row_count(start, terms)
        }
        Primary::Over(function, inner) => {
            let operand = sum(memory, scope, inner, terms, faults)?;
            aggregate(start, *function, operand, terms, faults)
        }
    }
}
