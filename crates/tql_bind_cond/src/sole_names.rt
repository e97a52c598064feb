//! Expressions that are nothing but a name.
ghost use Rattle.std.specs.Prelude.{◌≡◌, option_map};
ghost use Rattle.tql_spec.specs.Names as names;
ghost use Rattle.tql_syntax_tree.specs.Expressions.{named_of, expr_of, term_of, signed_of, primary_of};
ghost use Rattle.tql_bind_cond.specs.SoleNames.{name_at, name_in, sole_factor};

use tql_syntax_tree::expression::{Expr, Named, Primary, Sign, Signed, Term};

/// Returns the name that a primary is, if it is one.
fn name_at<'a>(primary: &Primary<'a>) -> Option<Named<'a>>
    ensures { option_map named_of result ≡ name_at (primary_of primary.now) }
{
    match primary {
        Primary::Column(named) => Some(*named),
        Primary::Number(_)
        | Primary::Text(_)
        | Primary::Date(_)
        | Primary::Timestamp(_)
        | Primary::Enclosed(_)
        | Primary::CountStar
        | Primary::Over(_, _) => None,
    }
}

/// Returns the name that a signed primary is, if it is one and has no sign.
fn name_in<'a>(signed: &Signed<'a>) -> Option<Named<'a>>
    ensures { option_map named_of result ≡ name_in (signed_of signed.now) }
{
    match signed.sign {
        Sign::None => name_at(&signed.primary),
        Sign::Plus | Sign::Minus => None,
    }
}

/// Returns the name that a product is, if it is one and nothing else.
fn sole_factor<'a>(product: &Term<'a>) -> Option<Named<'a>>
    ensures { option_map named_of result ≡ sole_factor (term_of product.now) }
{
    if product.more.is_empty() {
        name_in(&product.first)
    } else {
        None
    }
}

/// Returns the name that an expression is, if it is one and nothing else.
pub fn sole_name<'a>(expr: &Expr<'a>) -> Option<Named<'a>>
    ensures { option_map named_of result ≡ names.sole_name (expr_of expr.now) }
{
    if expr.more.is_empty() {
        sole_factor(&expr.first)
    } else {
        None
    }
}
