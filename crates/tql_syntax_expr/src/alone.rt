//! Expressions that are one number, one text or one column without a qualifier. Most expressions of scripts are, so
//! they are read at once, and not level by level.
ghost use Rattle.std.specs.Prelude.{◌≡◌, ℕ, IfOk};
ghost use Rattle.tql_spec.specs.Syntax.{Unsigned};
ghost use Rattle.tql_syntax_grammar.specs.ReadingExpressions.{expr_at, sum_over};
ghost use Rattle.tql_syntax_expr.specs.Alone.{alone};
ghost use Rattle.tql_syntax_expr.specs.Parsing.{Takes};
ghost use Rattle.tql_syntax_tree.specs.Expressions.{boxed_expr_of, primary_of, signed_of};

use crate::cursor::Cursor;
use std::alloc::AllocError;
use tql_memory::Memory;
use tql_syntax_tree::expression::{Expr, Named, Primary, Sign, Signed, Term, boxed_expr};

/// Parses the operand that is the next expression, if it is one token.
fn operand<'a>(tokens: &mut Cursor<'_, 'a>) -> Option<Primary<'a>>
    ensures { (depth : ℕ) → Takes
        (λ p. alone (Unsigned (primary_of p))) (sum_over (expr_at depth)) tokens.old result tokens.new }
{
    if tokens.goes_on_second() {
        return None;
    }
    if let Some(digits) = tokens.eat_number() {
        return Some(Primary::Number(digits));
    }
    if let Some(text) = tokens.eat_quote() {
        return Some(Primary::Text(text));
    }
    match tokens.eat_name() {
        Some(name) => Some(Primary::Column(Named {
            qualifier: None,
            name,
        })),
        None => None,
    }
}

/// Parses the operand that is the next expression, if it is one token.
pub(crate) fn signed_alone<'a>(tokens: &mut Cursor<'_, 'a>) -> Option<Signed<'a>>
    ensures { (depth : ℕ) → Takes
        (λ s. alone (signed_of s)) (sum_over (expr_at depth)) tokens.old result tokens.new }
{
    let start = tokens.start();
    match operand(tokens) {
        Some(primary) => Some(Signed {
            sign: Sign::None,
            primary,
            start,
        }),
        None => None,
    }
}

/// Boxes the expression that is this operand alone. The only error is a failed allocation.
pub(crate) fn boxed_alone<'a>(
    memory: Memory,
    operand: Signed<'a>,
) -> Result<Box<Expr<'a>, Memory>, AllocError>
    ensures { IfOk result (λ b. boxed_expr_of b ≡ alone (signed_of operand.entry)) }
{
    let first = Term {
        first: operand,
        more: Vec::new(memory),
    };
    boxed_expr(
        memory,
        Expr {
            first,
            more: Vec::new(memory),
        },
    )
}
