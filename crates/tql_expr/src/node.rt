//! The kinds of nodes.
use tql_period::predicates::Relation;
use tql_value::comparison::Comparison;

/// The arithmetic operations.
#[derive(Clone, Copy, PartialEq, Eq, Debug)]
pub enum Operation {
    /// `+`
    Add,
    /// `-`
    Subtract,
    /// `*`
    Multiply,
}

/// The aggregates over an expression.
#[derive(Clone, Copy, PartialEq, Eq, Debug)]
pub enum Function {
    /// The number of values that are not NULL.
    Count,
    /// The exact sum.
    Sum,
    /// The least value.
    Min,
    /// The greatest value.
    Max,
}

/// A node of an expression or of a condition. It refers to its operands by their positions among the nodes.
#[derive(Clone, Copy, PartialEq, Eq, Debug)]
pub enum Node {
    /// A value, by its position among the literals.
    Literal(usize),
    /// A column, by its number.
    Column(usize),
    /// `-x`
    Negate(usize),
    /// `x + y`, `x - y`, `x * y`
    Binary(Operation, usize, usize),
    /// `COUNT(*)`
    CountRows,
    /// `SUM(x)` and the other aggregates over an expression
    Aggregate(Function, usize),
    /// `x = y` and the other comparisons
    Compare(Comparison, usize, usize),
    /// `x IS NULL`
    IsNull(usize),
    /// A predicate on the periods from the first operand to the second, and from the third to the fourth.
    Related(Relation, usize, usize, usize, usize),
    /// CONTAINS for the period from the first operand to the second, with the third as the point.
    ContainsPoint(usize, usize, usize),
    /// `NOT c`
    Not(usize),
    /// `c AND d`
    And(usize, usize),
    /// `c OR d`
    Or(usize, usize),
}
