//! The changes of a table, seen at each point of the application time. Users who reason day by day need not consider
//! periods.
#![tactic(auto)]

ghost use Rattle.tql_points.specs.ChangeLaw.{SlicesAreThere, InsertionsReduce, ModificationsReduce, BesideStays};
ghost use Rattle.tql_points.specs.FaultLaw.{ModificationRefusals, InsertionRefusals};
ghost use Rattle.tql_points.specs.PointMachine.{SnapshotsReduce};
ghost use Rattle.tql_points.specs.RefusalLaw.{RefusalsReduce};
ghost use Rattle.tql_points.specs.PointRun.{StartsAreKept, ScopesAreKept, RunsAgreeAtPoints, RunsAgreeBehind};
ghost use Rattle.tql_points.specs.RunLaw.{RunsReduce, RunRefusalsReduce};
ghost use Rattle.tql_points.specs.ScopeLaw.{CreationsAreInScope, StatementsAreInScope};

/// At each point, a change of a table acts as the change given to that point. If the change of the table is not
/// refused, neither is that of the point. The rows that the change of the point leaves are the slice of the rows that
/// the change of the table leaves. Outside its portion, the change leaves the slice as it was.
pub fn changes_at_each_point()
    ensures there { SlicesAreThere }
    ensures insertions { InsertionsReduce }
    ensures modifications { ModificationsReduce }
    ensures beside { BesideStays }
{}

/// A change of a table is refused exactly if the change given to some point is refused, with the first of the refusals
/// of the points: a value out of range (E30), NULL (E32) or a CHECK (E34).
pub fn changes_are_refused_at_points()
    ensures modifications { ModificationRefusals }
    ensures insertions { InsertionRefusals }
{}

/// At each point, the model of the point accepts all statements that were not refused. Its answers, now and as of each
/// moment, are the slices of the answers.
pub fn snapshots_reduce()
    ensures { SnapshotsReduce }
{}

/// The same holds for whole runs of the pieces of a script, even if some answers are out of memory. Each point is given
/// the bound forms of the statements that were not refused.
/// If each INSERT of the run gives rising periods, a later change is refused with the first refusal of the points.
pub fn runs_reduce()
    ensures answers { RunsReduce }
    ensures refusals { RunRefusalsReduce }
{}

/// A change is refused exactly if the model of some point refuses it, with the first of the refusals of the points.
pub fn refusals_reduce()
    ensures { RefusalsReduce }
{}

/// Statements that are written in scope are bound in scope. A CREATE TABLE with an application period, keys WITHOUT
/// OVERLAPS, references with PERIOD, and CHECKs that name no period makes a table in scope. An INSERT of tuples whose
/// periods are rising literals is bound to a change in scope. So is an UPDATE or a DELETE that names a period only as
/// its portion.
pub fn written_in_scope()
    ensures creations { CreationsAreInScope }
    ensures statements { StatementsAreInScope }
{}

/// Every run over statements in scope agrees with the models of all points. The models may begin after the first tables
/// are made (`starts`), and tables may be created and dropped later.
/// If a statement is executed, each point executes it. A statement other than a query that is refused for its effect,
/// and not for its text, names, kinds, forms, literals or memory, has the first refusal of the points. After each
/// answer the slices, now, as of each moment and in what readers pinned, are the answers of the points. After earlier
/// runs a run agrees too (`behind`): with them it is one run.
pub fn runs_agree_at_points()
    ensures starts { StartsAreKept }
    ensures runs { RunsAgreeAtPoints }
    ensures behind { RunsAgreeBehind }
    ensures scopes { ScopesAreKept }
{}
