//! The answer to a piece of a script.
ghost use Rattle.std.specs.Prelude.{◌≡◌, IsTrue};
ghost use Rattle.tql_spec.specs.Machine.{State};
ghost use Rattle.tql_spec.specs.Script as script;
ghost use Rattle.tql_splitter.specs.Pieces.{StandsFor};
ghost use Rattle.tql_value.specs.Refusals.{refusal_of};
ghost use Rattle.tql_result.specs.Replies.{answer_of, IsPrintableAnswer};
ghost use Rattle.tql_run.specs.Kept.{is_kept_answer, is_text, kept_after};
ghost use Rattle.tql_run.specs.Pieces.{IsCutFault};
ghost use Rattle.tql_run.specs.Responding.{Answered};

use crate::responder::Responder;
use tql_detail::detail::Detail;
use tql_result::answer::Answer;
use tql_result::reply::{Reply, Verb};
use tql_result::sink::Sink;
use tql_splitter::piece::Piece;
use tql_value::refusal::Refusal;

/// Returns the fault of a text that is not too long and has no closing `;`.
fn cut_fault(text: &[u8]) -> Refusal
    ensures { IsCutFault text.now (refusal_of result) }
{
    match str::from_utf8(text) {
        Ok(_) => Refusal::UnfinishedStatement,
        Err(_) => Refusal::NotUtf8,
    }
}

/// Answers the next piece of a script: passes a finished text to the responder, and refuses any other piece.
pub fn answer_piece<R: Responder>(responder: &mut R, piece: Piece<'_>) -> Answer
    ensures answered { (s : State) (p : script.Piece) → R.stands responder.old s → StandsFor piece.entry p
        → Answered R.answering s p (answer_of result) (R.stands responder.new) }
    ensures printable { IsPrintableAnswer (answer_of result) }
    ensures kept { IsTrue (is_kept_answer (answer_of result)) → IsTrue (is_text piece.entry) }
{
    match piece {
        Piece::Text(text) => responder.answer(text),
        Piece::TooLong => Answer::Replied(Reply::Refused(Refusal::StatementTooLong)),
        Piece::NoMemory => Answer::Replied(Reply::Refused(Refusal::OutOfMemory)),
        Piece::Unfinished(text) => Answer::Replied(Reply::Refused(cut_fault(text))),
    }
}

/// Whether a journal keeps the statement with this answer: it was done, and neither opened nor closed a reader.
fn is_kept(answer: &Answer) -> bool
    ensures { result ≡ is_kept_answer (answer_of answer.now) }
{
    match answer {
        Answer::Replied(Reply::Done(Verb::OpenedReader | Verb::ClosedReader, _)) => false,
        Answer::Replied(Reply::Done(_, _)) => true,
        _ => false,
    }
}

/// Gives the text of a piece to the sink, if a journal keeps the statement with this answer.
pub fn keep<O: Sink>(sink: &mut O, piece: Piece<'_>, answer: &Answer)
    ensures kept { O.kept sink.new ≡ kept_after piece.entry (answer_of answer.now) (O.kept sink.old) }
    ensures written { O.written sink.new ≡ O.written sink.old }
    ensures failures { O.failures sink.new ≡ O.failures sink.old }
{
    if let Piece::Text(text) = piece {
        if is_kept(answer) {
            sink.keep(text);
        }
    }
}

/// Returns a detail with the line on which the open transaction was opened, if the line is known and the detail is
/// about that transaction. None if an allocation is refused.
fn with_line(mut detail: Detail, since: Option<u64>) -> Option<Detail> {
    if detail.in_transaction {
        if let Some(line) = since {
            detail.open_since(line).ok()?;
        }
    }
    Some(detail)
}

/// Returns the detail of the answer to a piece, if it is wanted and the answer refuses a text. `since` is the line on
/// which the open transaction was opened, if known. The allocations made here are not counted, so later statements have
/// the same memory budget with or without details.
pub fn detail_of<R: Responder>(
    responder: &R,
    piece: Piece<'_>,
    answer: &Answer,
    since: Option<u64>,
    is_wanted: bool,
) -> Option<Detail> {
    if !is_wanted {
        return None;
    }
    let text = match piece {
        Piece::Text(text) => text,
        Piece::Unfinished(text) => text,
        Piece::TooLong | Piece::NoMemory => return None,
    };
    let Answer::Replied(Reply::Refused(refusal)) = answer else {
        return None;
    };
    let memory = responder.memory();
    let left = memory.left();
    let detail = match responder.detail(text, *refusal) {
        Some(detail) => with_line(detail, since),
        None => None,
    };
    memory.uncount(left);
    detail
}
