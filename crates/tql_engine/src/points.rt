//! Snapshot reducibility: for each point of time, an engine does what one without periods would do.
ghost use Rattle.tql_engine.specs.PointRuns.{StepsAgreeAtPoints};

/// Statements given to `Engine::step` in order agree with the reference models of all points of time. This requires
/// that they are in scope, as all statements before them on the engine. A statement that is done is done by the model
/// of each point. A change that binds without a fault, and is not refused for memory, is refused as the first of these
/// models refuses it. After each reply, the slice of every table at a point, now and as of each moment, is what the
/// model of that point answers.
pub fn steps_agree_at_points()
    ensures { StepsAgreeAtPoints }
{}
