//! The state of an engine, and the state of the reference model that it represents. It is proved that each step of the
//! model keeps the two in agreement. The crate has no code that runs.
#![tactic(auto)]

ghost use Rattle.tql_engine_state.specs.Steps.{StepsStaySound};

/// Shows that an engine stays sound. A sound engine represents a state of the reference model in which keys and
/// references hold, and values have the types of their columns. After each step of the model that it does, it is sound
/// again.
pub fn steps_stay_sound()
    ensures { StepsStaySound }
{}
