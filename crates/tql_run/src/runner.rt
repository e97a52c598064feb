//! The run of a whole script.
ghost use Rattle.std.specs.Prelude.{◌≡◌, ◌≤◌, ◌<◌, ◌+◌, List, [], length, IsTrue, IsFalse, IfOk, OnOk, ◌&&◌, not};
ghost use Rattle.tql_spec.specs.Answer as run;
ghost use Rattle.tql_spec.specs.Machine.{State};
ghost use Rattle.tql_result.specs.Replies.{answer_of};
ghost use Rattle.tql_splitter.specs.Stream.{to_do};
ghost use Rattle.tql_splitter.specs.Holding.{Holds};
ghost use Rattle.tql_run.specs.Runs.{Runs, source_change, sink_change, count_of, most_bytes};
ghost use Rattle.tql_run.specs.RunsIn.{RunsIn, manner, stops};
ghost use Rattle.tql_run.specs.Hearing.{Hears, note_of, hearing_change};
ghost use Rattle.tql_run.specs.Kept.{KeepsIn, KeepsOn};
ghost use Rattle.tql_run.specs.Reads.{Pulls, taken};
ghost use Rattle.tql_run.specs.Texts.{style_after, written_after};
ghost use Rattle.tql_run.specs.Writing.{AnswersNext, AnswersReady, Tallies, EndsRun, shown};

use crate::device::Source;
use crate::form::{Form, PlainForm};
use crate::listener::Listener;
use crate::piece::{answer_piece, detail_of, keep};
use crate::pushed::Pushed;
use crate::responder::Responder;
use crate::run_splitter::RunSplitter;
use std::alloc::AllocError;
use tql_detail::detail::Detail;
use tql_result::answer::Answer;
use tql_result::device::DeviceFault;
use tql_result::reply::Reply;
use tql_result::sink::Sink;
use tql_splitter::splitter::{LONGEST_PART, Splitter};

/// The maximum number of pulls in one run.
pub const MOST_PULLS: u64 = 281_474_976_710_655;

/// The number of statements that a run answered, and the number of them that were refused.
#[derive(Clone, Copy, PartialEq, Eq, Debug)]
pub struct Summary {
    pub statements: u64,
    pub refused: u64,
}

/// Why a run stopped.
#[derive(Clone, Copy, PartialEq, Eq, Debug)]
pub enum Fault {
    /// The run did not reach the end of the input: the source failed, or gave 2^48 - 1 bytes or more.
    Read,
    /// The sink failed.
    Write,
    /// The allocations at the start of the run were refused.
    Memory,
}

impl From<AllocError> for Fault {
    ghost use Rattle.std.specs.Prelude.{◌≡◌};
    ghost use Rattle.tql_run.specs.declared.runner.Fault.TheVariants.{Memory};

    ghost from_gives = { λ _ f. f ≡ Memory };

    fn from(_error: AllocError) -> Fault {
        Fault::Memory
    }
}

/// Returns the counts increased by one answer.
fn counted(summary: Summary, answer: &Answer) -> Summary
    requires room { summary.statements < most_bytes }
    requires fewer { summary.refused ≤ summary.statements }
    ensures { result ≡ count_of summary (answer_of answer.now) }
{
    let statements = summary.statements + 1;
    match answer {
        Answer::Replied(Reply::Refused(_)) => Summary {
            statements,
            refused: summary.refused + 1,
        },
        _ => Summary {
            statements,
            refused: summary.refused,
        },
    }
}

/// Whether the run stops because of a refusal: `bail` is set and a refusal was counted.
fn is_stopped(bail: bool, summary: &Summary) -> bool
    ensures { result ≡ stops bail summary.now }
{
    bail && summary.refused != 0
}

/// Takes the next statement, answers it, and gives its text to the sink, if a journal keeps it. Sets `detail` to the
/// detail of the answer, with its place relative to the statement. `since` is the line on which the open transaction
/// was opened, if known. Returns None if the bytes fed so far contain no further whole statement.
fn answer_whole<R: Responder, O: Sink>(
    responder: &mut R,
    splitter: &mut Splitter,
    sink: &mut O,
    since: Option<u64>,
    is_wanted: bool,
    detail: &mut Option<Detail>,
) -> Option<Answer>
    ensures answers { AnswersNext R.answering result splitter.old splitter.new
        (R.stands responder.old) (R.stands responder.new) }
    ensures kept { KeepsOn R.answering splitter.old splitter.new (R.stands responder.old) (R.stands responder.new)
        (O.kept sink.old) (O.kept sink.new) }
    ensures written { O.written sink.new ≡ O.written sink.old }
    ensures failures { O.failures sink.new ≡ O.failures sink.old }
{
    match splitter.next_statement() {
        Some(piece) => {
            let answer = answer_piece(responder, piece);
            keep(sink, piece, &answer);
            *detail = detail_of(responder, piece, &answer, since, is_wanted);
            Some(answer)
        }
        None => None,
    }
}

/// Takes the next statement, answers it, and gives its text to the sink, if a journal keeps it. The caller pushes the
/// answer afterwards, so no byte of a reply is pushed before its statement was given. Frees the previous detail first,
/// then sets `detail`, if it is wanted, with its place in the script. Returns None if the bytes fed so far contain no
/// further whole statement.
pub fn answer_next<R: Responder, O: Sink>(
    responder: &mut R,
    splitter: &mut RunSplitter,
    sink: &mut O,
    is_wanted: bool,
    detail: &mut Option<Detail>,
) -> Option<Answer>
    ensures answers { AnswersNext R.answering result splitter.old splitter.new
        (R.stands responder.old) (R.stands responder.new) }
    ensures kept { KeepsOn R.answering splitter.old splitter.new (R.stands responder.old) (R.stands responder.new)
        (O.kept sink.old) (O.kept sink.new) }
    ensures written { O.written sink.new ≡ O.written sink.old }
    ensures failures { O.failures sink.new ≡ O.failures sink.old }
{
    *detail = None;
    let since = splitter.since;
    let answer = answer_whole(
        responder,
        &mut splitter.splitter,
        sink,
        since,
        is_wanted,
        detail,
    );
    if let Some(told) = detail {
        told.stand_behind(splitter.line(), splitter.column());
    }
    if let Some(Answer::Replied(Reply::Done(verb, _))) = &answer {
        splitter.note(*verb);
    }
    answer
}

/// Reports the answer to the listener, after the answer was pushed.
fn report<L: Listener>(
    listener: &mut L,
    statement: u64,
    line: u64,
    answer: &Answer,
    detail: Option<&Detail>,
    pushed: &Pushed,
)
    ensures { Hears (L.heard listener.old) (note_of statement line (answer_of answer.now)) (L.heard listener.new) }
{
    if let Answer::Replied(Reply::Refused(refusal)) = answer {
        listener.refused(statement, line, *refusal, detail, pushed);
    } else {
        listener.answered(line, answer, pushed);
    }
}

/// Answers the statements that are whole, writes their answers in the form, and reports each one to the listener. If
/// `bail` is set, it stops after the first refusal.
fn answer_ready<R: Responder, O: Sink, L: Listener, F: Form>(
    responder: &mut R,
    splitter: &mut RunSplitter,
    sink: &mut O,
    listener: &mut L,
    form: &mut F,
    bail: bool,
    summary: &mut Summary,
) -> Result<(), DeviceFault>
    requires room { summary.old.statements + to_do splitter.old ≤ most_bytes }
    requires fewer { summary.old.refused ≤ summary.old.statements }
    requires going { IsTrue bail → summary.old.refused ≡ 0 }
    ensures answers { (before : List run.Answer)
        → AnswersReady (manner R.answering (style_after before F.texts F.reported) bail) result
        splitter.old splitter.new (R.stands responder.old) (R.stands responder.new)
        (written_after before (F.wrote form.old)) (written_after before (F.wrote form.new))
        summary.old summary.new O.flushes_fail (shown O.written O.failures L.heard sink.old listener.old)
        (shown O.written O.failures L.heard sink.new listener.new) }
    ensures tallies { Tallies splitter.old splitter.new summary.old summary.new }
    ensures ready { OnOk result (IsFalse (stops bail summary.new) → splitter.new.ready ≡ []) }
    ensures kept { KeepsOn R.answering splitter.old splitter.new (R.stands responder.old) (R.stands responder.new)
        (O.kept sink.old) (O.kept sink.new) }
{
    let is_wanted = listener.wants_details() || form.wants_details();
    let waits = listener.waits();
    let mut detail = None;
    while let Some(answer) = answer_next(responder, splitter, sink, is_wanted, &mut detail) {
        let statement = summary.statements + 1;
        let line = splitter.line();
        let pushed = Pushed::push(form, sink, statement, line, &answer, detail.as_ref(), waits);
        report(listener, statement, line, &answer, detail.as_ref(), &pushed);
        match pushed.outcome() {
            Ok(()) => *summary = counted(*summary, &answer),
            Err(fault) => return Err(fault),
        }
        if is_stopped(bail, summary) {
            return Ok(());
        }
    }
    Ok(())
}

/// Answers the whole statements as `answer_ready` does, then flushes the sink.
fn answer_flushed<R: Responder, O: Sink, L: Listener, F: Form>(
    responder: &mut R,
    splitter: &mut RunSplitter,
    sink: &mut O,
    listener: &mut L,
    form: &mut F,
    bail: bool,
    summary: &mut Summary,
) -> Result<(), DeviceFault>
    requires room { summary.old.statements + to_do splitter.old ≤ most_bytes }
    requires fewer { summary.old.refused ≤ summary.old.statements }
    requires going { IsTrue bail → summary.old.refused ≡ 0 }
    ensures answers { (before : List run.Answer)
        → AnswersReady (manner R.answering (style_after before F.texts F.reported) bail) result
        splitter.old splitter.new (R.stands responder.old) (R.stands responder.new)
        (written_after before (F.wrote form.old)) (written_after before (F.wrote form.new))
        summary.old summary.new O.flushes_fail (shown O.written O.failures L.heard sink.old listener.old)
        (shown O.written O.failures L.heard sink.new listener.new) }
    ensures tallies { Tallies splitter.old splitter.new summary.old summary.new }
    ensures ready { OnOk result (IsFalse (stops bail summary.new) → splitter.new.ready ≡ []) }
    ensures kept { KeepsOn R.answering splitter.old splitter.new (R.stands responder.old) (R.stands responder.new)
        (O.kept sink.old) (O.kept sink.new) }
    ensures flushed { OnOk result (IsTrue (O.flushed sink.new)) }
{
    match answer_ready(responder, splitter, sink, listener, form, bail, summary) {
        Ok(()) => match sink.flush() {
            Ok(()) => Ok(()),
            Err(fault) => Err(fault),
        },
        Err(fault) => Err(fault),
    }
}

/// Pulls the next bytes. A source may block, so all whole statements must have been answered and the sink flushed. No
/// other function of a run pulls.
fn pull_flushed<I: Source<O>, O: Sink>(
    source: &mut I,
    splitter: &RunSplitter,
    sink: &O,
    buffer: &mut [u8],
) -> Result<usize, DeviceFault>
    requires answered { splitter.now.ready ≡ [] }
    requires flushed { IsTrue (O.flushed sink.now) }
    ensures within { IfOk result (λ n. n ≤ length buffer.old) }
    ensures pulls { Pulls result (length buffer.old) (taken result buffer.new)
        (source_change I.left I.failures I.ended source.old source.new) }
{
    source.pull(sink, buffer)
}

/// Answers the rest of a script that was read to its end.
fn answer_rest<R: Responder, O: Sink, L: Listener, F: Form>(
    responder: &mut R,
    splitter: &mut RunSplitter,
    sink: &mut O,
    listener: &mut L,
    form: &mut F,
    bail: bool,
    summary: Summary,
) -> Result<Summary, Fault>
    requires room { summary.statements + to_do splitter.old ≤ most_bytes }
    requires fewer { summary.refused ≤ summary.statements }
    requires going { IsTrue bail → summary.refused ≡ 0 }
    ensures ends { (before : List run.Answer)
        → EndsRun (manner R.answering (style_after before F.texts F.reported) bail) result
        splitter.old (R.stands responder.old) (R.stands responder.new)
        (written_after before (F.wrote form.old)) (written_after before (F.wrote form.new))
        summary O.flushes_fail (O.flushed sink.new)
        (shown O.written O.failures L.heard sink.old listener.old)
        (shown O.written O.failures L.heard sink.new listener.new) }
    ensures grown { IfOk result
        (λ all. all.refused + summary.statements ≤ all.statements + summary.refused) }
    ensures kept { KeepsOn R.answering splitter.old splitter.new (R.stands responder.old) (R.stands responder.new)
        (O.kept sink.old) (O.kept sink.new) }
{
    let mut all = summary;
    splitter.finish();
    match answer_flushed(responder, splitter, sink, listener, form, bail, &mut all) {
        Ok(()) => Ok(all),
        Err(_) => Err(Fault::Write),
    }
}

/// Reads a script from the source and answers its statements as `run_in` does.
fn converse<R: Responder, I: Source<O>, O: Sink, L: Listener, F: Form>(
    responder: &mut R,
    source: &mut I,
    sink: &mut O,
    listener: &mut L,
    form: &mut F,
    bail: bool,
    buffer: &mut [u8],
) -> Result<Summary, Fault>
    requires room { 0 < length buffer.old }
    requires small { length buffer.old ≤ 65_536 }
    ensures runs { (before : List run.Answer) → F.wrote form.old before → (s : State) → R.stands responder.old s
        → RunsIn (manner R.answering (style_after before F.texts F.reported) bail) s (R.stands responder.new)
        (written_after before (F.wrote form.new))
        (source_change I.left I.failures I.ended source.old source.new)
        (sink_change O.written O.failures O.flushed O.flushes_fail sink.old sink.new)
        (hearing_change L.heard listener.old listener.new) result }
    ensures kept { (s : State) → R.stands responder.old s
        → KeepsIn R.answering s (R.stands responder.new) (O.kept sink.old) (O.kept sink.new) }
{
    let mut script = RunSplitter::new(responder.memory())?;
    let mut all = Summary {
        statements: 0,
        refused: 0,
    };
    for _pull in 0..MOST_PULLS {
        match answer_flushed(responder, &mut script, sink, listener, form, bail, &mut all) {
            Ok(()) => {}
            Err(_) => return Err(Fault::Write),
        }
        if is_stopped(bail, &all) {
            return Ok(all);
        }
        match pull_flushed(source, &script, sink, buffer) {
            Err(_) => return Err(Fault::Read),
            Ok(count) => {
                if count == 0 {
                    return answer_rest(responder, &mut script, sink, listener, form, bail, all);
                }
                script.feed(&buffer[..count]);
            }
        }
    }
    match answer_flushed(responder, &mut script, sink, listener, form, bail, &mut all) {
        Ok(()) if is_stopped(bail, &all) => Ok(all),
        Ok(()) => Err(Fault::Read),
        Err(_) => Err(Fault::Write),
    }
}

/// Answers the statements of a script in order, writes each answer in a form to the sink, and reports it to the
/// listener after the push. Each statement is answered as soon as it is whole: the source is pulled only when no whole
/// statement is left and the sink is flushed. The form may already have written answers, for example those of an
/// earlier script. Its texts then continue from those answers.
///
/// If `bail` is set, the first refusal stops the run successfully, with the refusal written and counted. No later
/// statement is answered, and nothing more is pulled. Otherwise a refused statement does not stop the run.
///
/// # Errors
///
/// `Read` if the source fails; statements that were whole before the failure have been answered and keep their effect.
/// `Write` if the sink fails; no statement runs after the one whose answer the sink did not take. `Memory` if the read
/// buffers cannot be allocated; no statement has run.
pub fn run_in<R: Responder, I: Source<O>, O: Sink, L: Listener, F: Form>(
    responder: &mut R,
    source: &mut I,
    sink: &mut O,
    listener: &mut L,
    form: &mut F,
    bail: bool,
) -> Result<Summary, Fault>
    ensures runs { (before : List run.Answer) → F.wrote form.old before → (s : State) → R.stands responder.old s
        → RunsIn (manner R.answering (style_after before F.texts F.reported) bail) s (R.stands responder.new)
        (written_after before (F.wrote form.new))
        (source_change I.left I.failures I.ended source.old source.new)
        (sink_change O.written O.failures O.flushed O.flushes_fail sink.old sink.new)
        (hearing_change L.heard listener.old listener.new) result }
    ensures kept { (s : State) → R.stands responder.old s
        → KeepsIn R.answering s (R.stands responder.new) (O.kept sink.old) (O.kept sink.new) }
{
    let mut buffer = vec![in responder.memory(); 0u8; LONGEST_PART]?;
    converse(responder, source, sink, listener, form, bail, &mut buffer)
}

/// Answers the statements of a script as `run_in` does, in the plain form. A refused statement does not stop the run.
pub fn run<R: Responder, I: Source<O>, O: Sink, L: Listener>(
    responder: &mut R,
    source: &mut I,
    sink: &mut O,
    listener: &mut L,
) -> Result<Summary, Fault>
    ensures runs { (s : State) → R.stands responder.old s → Runs R.answering s (R.stands responder.new)
        (source_change I.left I.failures I.ended source.old source.new)
        (sink_change O.written O.failures O.flushed O.flushes_fail sink.old sink.new)
        (hearing_change L.heard listener.old listener.new) result }
    ensures kept { (s : State) → R.stands responder.old s
        → KeepsIn R.answering s (R.stands responder.new) (O.kept sink.old) (O.kept sink.new) }
{
    run_in(responder, source, sink, listener, &mut PlainForm, false)
}
