//! The rows on which expressions are evaluated.
ghost use Rattle.std.specs.Prelude.{◌≡◌, ◌<◌, ◌^◌, List, [], length, slice_index_or};
ghost use Rattle.tql_spec.specs.Datum as pure;
ghost use Rattle.tql_spec.specs.Expression as bound;
ghost use Rattle.tql_value.specs.Views.{datum_of_view, outcome};
ghost use Rattle.tql_expr.specs.Meaning.{HasOperand, aggregate as tree_of};

use crate::node::Function;
use crate::terms::{Aggregate, Terms};
use tql_value::arithmetic::Range;
use tql_value::value::View;

/// A row on which expressions are evaluated: its values by column number, and the aggregates of its group.
pub trait Columns {
    /// The values, column by column.
    ghost values: { Self → pure.Row };

    /// The rows of the row's group, over which aggregates are computed; no rows if there is no group.
    ghost group: { Self → List pure.Row };

    /// Returns the number of columns, if that fits in 64 bits.
    fn width(&self) -> usize
        ensures { length (values self.now) < 2 ^ 64 → result ≡ length (values self.now) };

    /// Returns the value of a column, or NULL past the last one.
    fn column(&self, place: usize) -> View<'_>
        ensures { datum_of_view result ≡ slice_index_or (values self.now) place pure.Null };

    /// Returns the value of an aggregate over the rows of the group, or `Range` if a number inside leaves 64 bits.
    fn aggregate<'a>(&'a self, terms: &'a Terms, which: Aggregate) -> Result<View<'a>, Range>
        requires { HasOperand terms.now which }
        ensures { outcome result ≡ bound.eval (group self.now) (values self.now) (tree_of terms.now which) };
}

/// Returns the value of an aggregate over no rows: 0 if it counts, else NULL (ISO/IEC 9075-2:2011, 10.9
/// `<aggregate function>`). Never returns `Range`.
pub fn over_no_rows<'a>(terms: &Terms, which: Aggregate) -> Result<View<'a>, Range>
    requires { HasOperand terms.now which }
    ensures { (row : pure.Row) → outcome result ≡ bound.eval [] row (tree_of terms.now which) }
{
    match which {
        Aggregate::Rows | Aggregate::Over(Function::Count, _) => Ok(View::Int(0)),
        Aggregate::Over(..) => Ok(View::Null),
    }
}
