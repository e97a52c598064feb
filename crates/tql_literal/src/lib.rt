//! Values as SQL literals, and dates and timestamps as texts, for hosts that build statements.
#![tactic(auto)]

ghost use Rattle.tql_literal.specs.ReadBack.{LiteralsReadBack, PointsReadBack};

pub mod literal;
pub mod points;
mod quoting;

/// The literal of a value is read as that value. The tokens of the literal are read from its text before any byte that
/// does not continue it, for example a blank, a comma or a parenthesis. The grammar reads the tokens as a cell of
/// VALUES or SET. In any scope, that cell is bound to the value without a fault.
pub fn literals_read_back()
    ensures { LiteralsReadBack }
{}

/// The text of a date is read as that date, and the text of a timestamp as that timestamp.
pub fn points_read_back()
    ensures { PointsReadBack }
{}
