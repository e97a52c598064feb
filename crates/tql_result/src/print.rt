//! The text of a reply, and which replies can be printed.
ghost use Rattle.std.specs.Prelude.{◌++◌, ◌↔◌, IsTrue, codes};
ghost use Rattle.tql_spec.specs.Text.{verb_text, count_text, line, reply_text, wording};
ghost use Rattle.tql_value.specs.Refusals.{refusal_of};
ghost use Rattle.tql_result.specs.Devices.{Pushes, held};
ghost use Rattle.tql_result.specs.Replies.{plain_verb, reply_of, IsPrintableReply};

use crate::device::DeviceFault;
use crate::number::push_decimal;
use crate::pieces::push_all;
use crate::reply::{Reply, Verb};
use crate::sink::Sink;
use crate::table::{is_printable_table, write_table};
use tql_value::refusal::Refusal;

/// Pushes a blank and the count, if there is a count.
fn push_count<S: Sink>(sink: &mut S, count: Option<u64>) -> Result<(), DeviceFault>
    ensures { Pushes (count_text count) result
        (held S.written S.kept sink.old) (held S.written S.kept sink.new) (S.failures sink.old) (S.failures sink.new) }
{
    match count {
        None => Ok(()),
        Some(n) => {
            push_all(sink, b" ")?;
            push_decimal(sink, n)
        }
    }
}

/// Pushes the reply line of a statement that was executed.
fn push_done<S: Sink>(sink: &mut S, verb: Verb, count: Option<u64>) -> Result<(), DeviceFault>
    ensures { Pushes (line (verb_text (plain_verb verb) ++ count_text count)) result
        (held S.written S.kept sink.old) (held S.written S.kept sink.new) (S.failures sink.old) (S.failures sink.new) }
{
    push_all(sink, verb.text().as_bytes())?;
    push_count(sink, count)?;
    push_all(sink, b"\n")
}

/// Pushes the line of a refusal.
fn push_refusal<S: Sink>(sink: &mut S, refusal: Refusal) -> Result<(), DeviceFault>
    ensures { Pushes (line (codes "REFUSED " ++ wording (refusal_of refusal))) result
        (held S.written S.kept sink.old) (held S.written S.kept sink.new) (S.failures sink.old) (S.failures sink.new) }
{
    push_all(sink, b"REFUSED ")?;
    push_all(sink, refusal.text().as_bytes())?;
    push_all(sink, b"\n")
}

/// Whether a reply can be printed, as `write_reply` requires: all its dates and timestamps are in the years 1 to 9999.
pub fn is_printable_reply(reply: &Reply) -> bool
    ensures { IsTrue result ↔ IsPrintableReply (reply_of reply.now) }
{
    match reply {
        Reply::Table(table) => is_printable_table(table),
        _ => true,
    }
}

/// Pushes a reply as printed: its words and its count, a table, or `REFUSED ` with the number and text of the refusal.
/// Each line ends with one line feed (a choice of this project). Allocates no memory. After an error a prefix of the
/// text has been pushed.
pub fn write_reply<S: Sink>(sink: &mut S, reply: &Reply) -> Result<(), DeviceFault>
    requires { IsPrintableReply (reply_of reply.now) }
    ensures { Pushes (reply_text (reply_of reply.now)) result
        (held S.written S.kept sink.old) (held S.written S.kept sink.new) (S.failures sink.old) (S.failures sink.new) }
{
    match reply {
        Reply::Done(verb, count) => push_done(sink, *verb, *count),
        Reply::Table(table) => write_table(sink, table),
        Reply::Refused(refusal) => push_refusal(sink, *refusal),
    }
}
