//! Recognizing the statements that end a transaction, without allocating memory.
ghost use Rattle.std.specs.Prelude.{◌≡◌, ◌↔◌, Some, map, option_map};
ghost use Rattle.tql_spec.specs.Token.{upper};
ghost use Rattle.tql_spec.specs.Syntax.{CommitTree, RollbackTree};
ghost use Rattle.tql_spec.specs.Run.{HasSense, Says, finished};
ghost use Rattle.tql_syntax.specs.Endings.{EndsText, end_of_word, is_work};

use tql_lex::folding::is_folded;
use tql_lex::words::two_words;
use tql_splitter::splitter::LONGEST;

/// How a statement ends a transaction.
#[derive(Clone, Copy, PartialEq, Eq, Debug)]
pub enum TransactionEnd {
    Commit,
    Rollback,
}

/// Returns how a statement of this word ends a transaction, if it does.
fn end_of_word(word: &str) -> Option<TransactionEnd>
    ensures { result ≡ end_of_word (map upper word.now) }
{
    let bytes = word.as_bytes();
    if is_folded(bytes, "COMMIT".as_bytes()) {
        return Some(TransactionEnd::Commit);
    }
    if is_folded(bytes, "ROLLBACK".as_bytes()) {
        return Some(TransactionEnd::Rollback);
    }
    None
}

/// Whether there is no second word, or it is WORK.
fn is_work(second: Option<&str>) -> bool
    ensures { result ≡ is_work (option_map (λ w. w.now) second.entry) }
{
    match second {
        Some(word) => is_folded(word.as_bytes(), "WORK".as_bytes()),
        None => true,
    }
}

/// Returns how a text ends a transaction, if it does. The length of the text is already checked.
fn text_end(text: &str) -> Option<TransactionEnd>
    ensures { EndsText text.now result }
{
    let (first, second) = two_words(text)?;
    if !is_work(second) {
        return None;
    }
    end_of_word(first)
}

/// Returns how the text of a finished statement, without its `;`, ends a transaction: by COMMIT or ROLLBACK, with or
/// without WORK. Returns None for any other text. It agrees with `read_text` but allocates nothing, so a transaction
/// can end when memory is exhausted (ISO/IEC 9075-2:2011, 17.7 and 17.8).
pub fn transaction_end(text: &[u8]) -> Option<TransactionEnd>
    ensures commits { (result ≡ Some TransactionEnd.Commit)
        ↔ HasSense (finished text.now) (Says CommitTree) }
    ensures rolls_back { (result ≡ Some TransactionEnd.Rollback)
        ↔ HasSense (finished text.now) (Says RollbackTree) }
{
    if text.len() > LONGEST {
        return None;
    }
    match str::from_utf8(text) {
        Ok(text) => text_end(text),
        Err(_) => None,
    }
}
