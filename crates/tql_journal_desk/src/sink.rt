//! A sink that keeps statements in a journal, and holds replies back until these are durable.
ghost use Rattle.std.specs.Prelude.{◌≡◌, ◌≤◌, ◌<◌, [], length, take, true, IfOk, OnOk, OnErr, IsErr, IsFalse, IsTrue};
ghost use Rattle.std.specs.Prelude.{is_ok, is_err, vec_len};
ghost use Rattle.tql_result.specs.Devices.{Appends, Counts, HasFailed, is_failed_push, with_text};
ghost use Rattle.tql_journal.specs.Seals.{HoldsBytes};
ghost use Rattle.tql_journal_desk.specs.Answered.{AnsweredIsKept};
ghost use Rattle.tql_journal_desk.specs.Order.{Keeps, IfKnown, InOrder};
ghost use Rattle.tql_journal_desk.specs.Held.{held_of};
ghost use Rattle.tql_journal_desk.specs.Desks.{events_of, with_event, kept_of, pushed_by, push_event};

use crate::journal::Journal;
use crate::log::Log;
use crate::out::Out;
use crate::replies::Replies;
use std::alloc::AllocError;
use std::marker::Model;
use tql_memory::Memory;
use tql_result::device::DeviceFault;
use tql_result::sink::Sink;

/// Makes durable what was kept, and then sends the replies that are held.
fn pass_on<L: Log + Drop, O: Out + Drop>(
    journal: &mut Journal<L>,
    replies: &mut Replies<O>,
) -> Result<(), DeviceFault>
    ensures order { IfKnown (L.content journal.old.log) (O.sent replies.old.out) (λ c sent.
        InOrder c sent (HoldsBytes journal.old.seal) journal.old.lines.items
        (held_of replies.old.sent replies.old.bytes.items) journal.old.owes journal.old.failed)
        → IfKnown (L.content journal.new.log) (O.sent replies.new.out) (λ c sent.
        InOrder c sent (HoldsBytes journal.new.seal) journal.new.lines.items
        (held_of replies.new.sent replies.new.bytes.items) journal.new.owes journal.new.failed) }
    ensures events { events_of (L.content journal.new.log) ≡ events_of (L.content journal.old.log) }
    ensures failed { OnOk result (IsFalse journal.new.failed) }
    ensures owes { OnOk result (IsFalse journal.new.owes) }
    ensures held { OnOk result (replies.new.bytes.items ≡ []) }
{
    journal.settle()?;
    replies.send()
}

/// Makes room for a byte of a reply. It fails if the journal has failed.
fn make_room<L: Log + Drop, O: Out + Drop>(
    journal: &mut Journal<L>,
    replies: &mut Replies<O>,
) -> Result<(), DeviceFault>
    ensures order { IfKnown (L.content journal.old.log) (O.sent replies.old.out) (λ c sent.
        InOrder c sent (HoldsBytes journal.old.seal) journal.old.lines.items
        (held_of replies.old.sent replies.old.bytes.items) journal.old.owes journal.old.failed)
        → IfKnown (L.content journal.new.log) (O.sent replies.new.out) (λ c sent.
        InOrder c sent (HoldsBytes journal.new.seal) journal.new.lines.items
        (held_of replies.new.sent replies.new.bytes.items) journal.new.owes journal.new.failed) }
    ensures events { events_of (L.content journal.new.log) ≡ events_of (L.content journal.old.log) }
    ensures room { OnOk result (vec_len replies.new.bytes < 65_536) }
    ensures failed { IsTrue journal.old.failed → IsErr result }
{
    if journal.has_failed() {
        return Err(DeviceFault);
    }
    if replies.is_full() {
        return pass_on(journal, replies);
    }
    Ok(())
}

/// Counts a failure.
fn fail(failures: &mut u64) -> DeviceFault
    ensures { HasFailed failures.old failures.new }
{
    *failures = failures.saturating_add(1);
    DeviceFault
}

/// A sink that keeps statements in a journal. No byte of a reply leaves before what was kept before it is durable. The
/// sink holds at most 65,536 bytes of replies: when these are full, a push makes durable what was kept and sends them.
/// After a failed write or sync of the journal each push and flush fails.
#[derive(Drop)]
pub struct JournalSink<L: Log, O: Out> {
    journal: Journal<L>,
    replies: Replies<O>,
    failures: u64,
    flushed: bool,
}

impl<L: Log, O: Out> Model for JournalSink<L, O> {
    ghost use Rattle.tql_journal.specs.Seals.{HoldsBytes};
    ghost use Rattle.tql_journal_desk.specs.Order.{IfKnown};
    ghost use Rattle.tql_journal_desk.specs.Held.{held_of};
    ghost use Rattle.tql_journal_desk.specs.Desks.{Desk, IsInOrder};

    ghost Value = { Desk };

    ghost view = { λ s. record {
      content = L.content s.journal.log;
      sent = O.sent s.replies.out;
      failures = s.failures;
      flushed = s.flushed;
    } };

    ghost invariant = { λ s. IfKnown (L.content s.journal.log) (O.sent s.replies.out) (λ c sent.
        IsInOrder c sent (HoldsBytes s.journal.seal) s.journal.lines.items
        (held_of s.replies.sent s.replies.bytes.items) s.journal.owes s.journal.failed s.flushed) };
}

impl<L: Log + Drop, O: Out + Drop> JournalSink<L, O> {
    /// Returns a sink over a journal and the place where replies go. What was written there before has to be known as
    /// pushed. The only error is a failed allocation, of a buffer of 65,536 bytes.
    pub fn new(journal: Journal<L>, out: O, memory: Memory) -> Result<JournalSink<L, O>, AllocError>
        requires { IfKnown (L.content journal.log) (O.sent out) (λ c sent.
            InOrder c sent (HoldsBytes journal.seal) journal.lines.items [] journal.owes journal.failed) }
        ensures content { IfOk result (λ s. s.content ≡ L.content journal.log) }
        ensures sent { IfOk result (λ s. s.sent ≡ O.sent out) }
        ensures failures { IfOk result (λ s. s.failures ≡ 0) }
        ensures flushed { IfOk result (λ s. IsFalse s.flushed) }
    {
        let replies = Replies::new(out, memory)?;
        Ok(JournalSink {
            journal,
            replies,
            failures: 0,
            flushed: false,
        })
    }

    /// Whether a write or a sync of the journal failed. Nothing is kept from then on, and no reply leaves.
    pub fn has_failed(&self) -> bool {
        self.journal.has_failed()
    }

    /// Returns the journal. Replies that were not flushed are dropped.
    pub fn into_journal(self) -> Journal<L>
        ensures { L.content result.log ≡ self.content }
    {
        self.journal
    }
}

impl<L: Log + Drop, O: Out + Drop> Sink for JournalSink<L, O> {
    ghost written = { λ s. pushed_by s.content };

    ghost failures = { λ s. s.failures };

    ghost flushed = { λ s. s.flushed };

    ghost flushes_fail = { true };

    ghost kept = { λ s. kept_of s.content };

    fn keep(&mut self, text: &[u8])
        ensures kept { kept_of self.new.content ≡ with_text text.now (kept_of self.old.content) }
        ensures written { pushed_by self.new.content ≡ pushed_by self.old.content }
        ensures failures { self.new.failures ≡ self.old.failures }
        ensures events { events_of self.new.content ≡ with_event (Keeps text.now) (events_of self.old.content) }
    {
        self.flushed = false;
        self.journal.keep(text);
    }

    fn push(&mut self, bytes: &[u8]) -> Result<usize, DeviceFault>
        ensures within { IfOk result (λ n. n ≤ length bytes.now) }
        ensures taken { IfOk result
            (λ n. Appends (pushed_by self.old.content) (take n bytes.now) (pushed_by self.new.content)) }
        ensures kept { OnErr result (Appends (pushed_by self.old.content) [] (pushed_by self.new.content)) }
        ensures counted { Counts (is_failed_push result (length bytes.now)) self.old.failures self.new.failures }
        ensures unflushed { IsFalse self.new.flushed }
        ensures texts { kept_of self.new.content ≡ kept_of self.old.content }
        ensures events { events_of self.new.content ≡ push_event bytes.now result (events_of self.old.content) }
    {
        self.flushed = false;
        if make_room(&mut self.journal, &mut self.replies).is_err() {
            return Err(fail(&mut self.failures));
        }
        let count = self.replies.fitting(bytes.len());
        let taken = &bytes[..count];
        self.journal.note_pushed(taken);
        self.replies.hold(taken);
        Ok(count)
    }

    fn flush(&mut self) -> Result<(), DeviceFault>
        ensures kept { Appends (pushed_by self.old.content) [] (pushed_by self.new.content) }
        ensures counted { Counts (is_err result) self.old.failures self.new.failures }
        ensures passed_on { self.new.flushed ≡ is_ok result }
        ensures allowed { OnErr result (IsTrue true) }
        ensures texts { kept_of self.new.content ≡ kept_of self.old.content }
        ensures events { events_of self.new.content ≡ events_of self.old.content }
    {
        self.flushed = false;
        if pass_on(&mut self.journal, &mut self.replies).is_err() {
            return Err(fail(&mut self.failures));
        }
        if self.replies.flush().is_err() {
            return Err(fail(&mut self.failures));
        }
        self.flushed = true;
        Ok(())
    }

    fn faults(&self) -> u64 {
        self.failures
    }
}

/// What was answered is kept: of each reply of which a byte has left, the statements that were kept before it are
/// recovered after a crash.
pub fn answered_is_kept<L: Log, O: Out>(sink: &JournalSink<L, O>)
    ensures { AnsweredIsKept sink.now }
{
    let _failures = sink.failures;
}
