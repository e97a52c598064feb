//! TIMESTAMP literals that are read as points of time.
ghost use Rattle.std.specs.Prelude.{IfOk, IfSome};
ghost use Rattle.tql_spec.specs.Binding as binding;
ghost use Rattle.tql_spec.specs.FirstToken.{content};
ghost use Rattle.tql_value.specs.Points.{IsMoment};
ghost use Rattle.tql_bind_expr.specs.Gathered.{Gathers};

use crate::about::{About, Cause};
use crate::faults::Faults;
use crate::texts::unquoted;
use std::alloc::AllocError;
use tql_memory::Memory;
use tql_value::calendar::HIGH;
use tql_value::literal::read_timestamp;
use tql_value::refusal::Refusal;

/// Returns a moment. If the literal could not be read, adds a fault and returns the last moment of the calendar as a
/// placeholder.
#[tactic(auto, using(crate::proofs::Gathering::gathering))]
fn or_bad_moment(start: u32, moment: Option<i64>, faults: &mut Faults) -> i64
    requires { IfSome moment IsMoment }
    ensures bound { Gathers (binding.or_bad_moment moment) faults.old faults.new result }
    ensures within { IsMoment result }
{
    match moment {
        Some(moment) => moment,
        None => {
            faults.refuse_if(
                true,
                Refusal::ValueOutOfRange,
                About::at(Cause::NoPoint, start),
            );
            HIGH
        }
    }
}

/// Returns the moment of a TIMESTAMP literal, given by its quoted text, in microseconds since 1970-01-01. Adds a fault
/// if it cannot be read, at `start`: the byte offset of the table or period that the point is for. The only error is a
/// refused allocation.
pub fn moment(
    memory: Memory,
    start: u32,
    quoted: &str,
    faults: &mut Faults,
) -> Result<i64, AllocError>
    ensures bound { IfOk result (λ m. Gathers (binding.moment (content 39 quoted.now)) faults.old faults.new m) }
    ensures within { IfOk result IsMoment }
{
    let text = unquoted(memory, quoted)?;
    Ok(or_bad_moment(start, read_timestamp(&text), faults))
}
