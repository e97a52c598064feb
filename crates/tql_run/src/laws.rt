//! Laws about how a script is split into statements.
ghost use Rattle.tql_run.specs.Cuts.{ScriptsAreCut, PiecesBegin};

/// The pieces of a script, with a `;` after each finished one, make up the script. A `;` inside a piece is part of a
/// quoted text, a quoted name or a comment. No other list of pieces has these properties.
pub fn scripts_are_cut()
    ensures { ScriptsAreCut }
{}

/// A piece begins at its first byte that is neither blank nor in a comment. A piece without one is no statement.
pub fn pieces_begin()
    ensures { PiecesBegin }
{}
