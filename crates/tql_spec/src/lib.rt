//! The definitions that the table engine is verified against, and the laws about them.
#![tactic(auto)]

ghost use Rattle.std.specs.Prelude.{ℕ, List};
ghost use Rattle.tql_spec.specs.Datum.{Day, Moment};
ghost use Rattle.tql_spec.specs.Period.{FormulasAreSets, PartsAreSets, Period, PointFormulaIsSet};
ghost use Rattle.tql_spec.specs.ChangeLaws.{ChangesKeepNoOrder, ChangesByParts, InsertsKeepNoOrder};
ghost use Rattle.tql_spec.specs.QueryLaws.{JoinsKeepNoOrder, GroupsKeepNoOrder, DistinctKeepsNoOrder, OrderIsOne};
ghost use Rattle.tql_spec.specs.QueryLaws.{AnswersKeepNoOrder};
ghost use Rattle.tql_spec.specs.Expression.{SafeConditionsAreJudged};
ghost use Rattle.tql_spec.specs.Constraint.{KeyTestIsRight, ReferenceTestIsRight};
ghost use Rattle.tql_spec.specs.Run.{RefusalsKeepState, RunsKeepConstraints};
ghost use Rattle.tql_spec.specs.Lines.{StatementsInPlace};
ghost use Rattle.tql_spec.specs.Token.{HasOneTokenList};
ghost use Rattle.tql_spec.specs.Spans.{ReadsBySpans, SteadyRangesAgree};
ghost use Rattle.tql_spec.specs.Reached.{ReachedAreInOrder, ReachedFit, ReachedAreSteady, ReachedReadBySpans};
ghost use Rattle.tql_spec.specs.HorizonLaws.{PrunedAnswersStay, OnlyMomentsAreBefore, ReachedHorizons, PrunesAreUnseen};
ghost use Rattle.tql_spec.specs.Grammar.{SpellsOnce};
ghost use Rattle.tql_spec.specs.ReaderLaws.{ReadersAreStable, ReadsAgree, ReadersReadTheHistory};
ghost use Rattle.tql_spec.specs.TypingLaws.{ValuesAreOfKind, BoundAreTyped, BagsAreTyped, StepsKeepTypes};
ghost use Rattle.tql_spec.specs.TypingLaws.{ReachedAreTyped, OwnPeriodsArePoints};
ghost use Rattle.tql_spec.specs.AtPoints.{CopyTestsAreRight, RunsKeepPoints, ReachedHoldAtPoints};

/// The parts of a period before, inside and after a portion hold exactly the points that their names say.
pub fn parts_of_a_period()
    ensures { (x portion : Period) → PartsAreSets x portion }
{}

/// A refused statement changes nothing.
pub fn refused_statements()
    ensures { RefusalsKeepState }
{}

/// The key test decides whether a key holds; with WITHOUT OVERLAPS, whether it holds at each point.
pub fn keys_at_each_point()
    ensures { KeyTestIsRight }
{}

/// For periods with start < end, each predicate is true exactly when it holds of their sets of points.
pub fn predicates_on_points()
    ensures days { FormulasAreSets Day }
    ensures moments { FormulasAreSets Moment }
    ensures day { PointFormulaIsSet Day }
    ensures moment { PointFormulaIsSet Moment }
{}

/// A condition over literals and columns alone has a truth value on every row.
pub fn safe_conditions()
    ensures { SafeConditionsAreJudged }
{}

/// The reference test decides whether a reference holds; with PERIOD, at each point of the child's period.
pub fn references_at_each_point()
    ensures { ReferenceTestIsRight }
{}

/// The placed statements of a script are its statements, and the text of each is at its place in the script.
pub fn statements_in_place()
    ensures { (script : List ℕ) → StatementsInPlace script }
{}

/// A text has at most one list of tokens.
pub fn one_token_list()
    ensures { HasOneTokenList }
{}

/// For copies with decreasing moments: AS OF reads the copy whose span holds the moment. A range reads the copies whose
/// spans it meets. A row ends at the first later copy without it.
pub fn questions_by_spans()
    ensures { ReadsBySpans }
{}

/// Where rows are steady, any copy that a range meets and that has a row determines its multiplicity and its end.
pub fn ranges_by_any_copy()
    ensures { SteadyRangesAgree }
{}

/// In every state that a run reaches, the moments of commits decrease, newest first, and lie below the clock. Each copy
/// and each of its rows fits the definitions.
pub fn commits_in_order()
    ensures in_order { ReachedAreInOrder }
    ensures fit { ReachedFit }
{}

/// In every state that a run reaches, a row has one multiplicity in all copies that have it. A row that was removed
/// does not come back.
pub fn steady_rows()
    ensures { ReachedAreSteady }
{}

/// In every state that a run reaches, queries read the copies by their spans.
pub fn questions_in_runs()
    ensures { ReachedReadBySpans }
{}

/// Pruning does not change the answer of a query that does not ask before the horizon. Only a literal that reads as a
/// moment can ask before it. In every reached state the horizon is a moment of the calendar. A run without the
/// statements that pruned, or were refused for the horizon, gives the other statements the same replies.
pub fn pruned_history()
    ensures tables { PrunedAnswersStay }
    ensures literals { OnlyMomentsAreBefore }
    ensures horizons { ReachedHorizons }
    ensures runs { PrunesAreUnseen }
{}

/// Each READ that is refused neither for the horizon nor for the reader replies as the reference model stopped at the
/// reader's opening would. Two runs that agree up to the opening read the same, where a token list spells at most one
/// statement. The copies that a reader pinned answer as the history up to its pin does.
pub fn pinned_readers()
    ensures stable { ReadersAreStable }
    ensures agree { SpellsOnce → ReadsAgree }
    ensures history { ReadersReadTheHistory }
{}

/// A run preserves keys and references in every copy, both by their tests and at every point.
pub fn constraints_in_runs()
    ensures tests { RunsKeepConstraints }
    ensures right { CopyTestsAreRight }
    ensures points { RunsKeepPoints }
    ensures reached { ReachedHoldAtPoints }
{}

/// An UPDATE or a DELETE does not depend on the order in which the rows are stored. It gives the same bag of rows, the
/// same count and the same fault.
pub fn changes_keep_no_order()
    ensures { ChangesKeepNoOrder }
{}

/// An INSERT does not depend on the order of the rows that it is given. It gives the same bag of rows, the same count
/// and the same fault.
pub fn inserts_keep_no_order()
    ensures { InsertsKeepNoOrder }
{}

/// Where nothing that an UPDATE or a DELETE evaluates is out of range, the rows after it are the untouched rows and the
/// new rows.
pub fn changes_by_parts()
    ensures { ChangesByParts }
{}

/// The rows that pass conjuncts, and the rows of a join, do not depend on the order in which the rows of either side
/// are stored. The two results are the same bag, or both are out of range.
pub fn joins_keep_no_order()
    ensures { JoinsKeepNoOrder }
{}

/// Removing repeated rows gives the same bag whatever the order in which the rows are stored. For any keys a bag has
/// exactly one list in order, since rows that tie are equal.
pub fn order_is_one()
    ensures distinct { DistinctKeepsNoOrder }
    ensures order { OrderIsOne }
{}

/// The output of a grouped query depends only on the bag of its rows, not on the order within its groups. The two
/// results are the same bag, or both are out of range.
pub fn groups_keep_no_order()
    ensures { GroupsKeepNoOrder }
{}

/// The answer of a query depends only on the bags of its references: the same bag of rows, or out of range for both.
pub fn answers_keep_no_order()
    ensures { AnswersKeepNoOrder }
{}

/// Each value is of its column's kind, or null. The value of a bound expression is of its kind. A statement without
/// faults gives each column values of its kind. Steps preserve this, so it holds in every state that a run reaches.
/// There queries find rows of these kinds too. The columns of a row's application period hold its ends, as dates or as
/// timestamps.
pub fn kinds_are_kept()
    ensures expressions { ValuesAreOfKind }
    ensures bound { BoundAreTyped }
    ensures bags { BagsAreTyped }
    ensures steps { StepsKeepTypes }
    ensures reached { ReachedAreTyped }
    ensures points { OwnPeriodsArePoints }
{}
