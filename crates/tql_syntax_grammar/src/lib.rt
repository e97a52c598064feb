//! Pure reading functions, and the laws that they agree with the grammar. Nothing here refers to code. The reading
//! functions compute a tree from tokens, and the sense of a piece of a script from its bytes.
#![tactic(auto)]

ghost use Rattle.tql_spec.specs.Grammar.{SpellsOnce};
ghost use Rattle.tql_spec.specs.Meaning.{SensesAreOne, RunsAgree};
ghost use Rattle.tql_spec.specs.ReaderLaws.{ReadsAgree};
ghost use Rattle.tql_syntax_grammar.specs.Laws.{ReadsTheGrammar};
ghost use Rattle.tql_syntax_grammar.specs.ReadingRuns.{ReadsTheTokens, ReadsTheSense, ReadsTheRun};
ghost use Rattle.tql_syntax_grammar.specs.Texts.{HasOneStatement};

use tql_spec::pinned_readers;

/// The reading functions return a statement exactly where the grammar says that the tokens spell it.
pub fn reading_is_the_grammar()
    ensures { ReadsTheGrammar }
{}

/// A token list spells at most one statement.
pub fn one_tree()
    ensures { SpellsOnce }
{}

/// A text spells at most one statement.
pub fn one_statement()
    ensures { HasOneStatement }
{}

/// A piece of a script has at most one sense: a statement, or its first fault.
pub fn one_sense()
    ensures { SensesAreOne }
{}

/// Two runs from the same state over the same pieces have the same replies and the same final state, if neither runs
/// out of memory.
pub fn one_meaning()
    ensures { RunsAgree }
{}

/// If two runs agree up to the opening of a reader, replies included, a READ has the same reply in both. This holds
/// unless one of the replies is a refusal for the horizon or the reader.
pub fn one_reading()
    ensures { ReadsAgree }
{
    pinned_readers();
}

/// The reading functions return the tokens of a text and the sense of a piece, so each piece has a sense.
pub fn each_sense()
    ensures tokens { ReadsTheTokens }
    ensures sense { ReadsTheSense }
{}

/// The reading functions compute a run of each script, so each script has a meaning.
pub fn each_meaning()
    ensures { ReadsTheRun }
{}
