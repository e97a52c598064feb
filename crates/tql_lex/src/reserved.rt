//! The reserved words, which are never names.
ghost use Rattle.std.specs.Prelude.{◌≡◌, ◌∷◌, ℕ, List, map};
ghost use Rattle.std.specs.List.{list_any};
ghost use Rattle.tql_spec.specs.Token as token;
ghost use Rattle.tql_spec.specs.Words.{same_text};

use crate::folding::{is_folded, upper};

/// The reserved words that begin with I.
static BEGINNING_WITH_I: [&str; 8] = [
    "IMMEDIATELY",
    "IN",
    "INNER",
    "INSERT",
    "INT",
    "INTEGER",
    "INTO",
    "IS",
];

/// Returns the reserved words (this project's choice) that begin with `letter`, in upper case.
fn beginning_with(letter: u8) -> &'static [&'static str]
    ensures { (rest : List ℕ) → list_any (λ w. same_text (letter ∷ rest) w.now) result.now
        ≡ token.is_reserved (letter ∷ rest) }
{
    match letter {
        b'A' => &["ALL", "AND", "AS"],
        b'B' => &["BETWEEN", "BIGINT", "BY"],
        b'C' => &[
            "CHECK",
            "CONSTRAINT",
            "CONTAINS",
            "COUNT",
            "CREATE",
            "CROSS",
        ],
        b'D' => &["DATE", "DELETE", "DISTINCT", "DROP"],
        b'E' => &["EQUALS"],
        b'F' => &["FOR", "FOREIGN", "FROM", "FULL"],
        b'G' => &["GROUP"],
        b'H' => &["HAVING"],
        b'I' => &BEGINNING_WITH_I,
        b'J' => &["JOIN"],
        b'L' => &["LEFT"],
        b'M' => &["MAX", "MIN"],
        b'N' => &["NOT", "NULL"],
        b'O' => &["ON", "OR", "ORDER", "OUTER", "OVERLAPS"],
        b'P' => &["PERIOD", "PORTION", "PRECEDES", "PRIMARY"],
        b'R' => &["REFERENCES", "RIGHT"],
        b'S' => &["SELECT", "SET", "SUCCEEDS", "SUM", "SYSTEM_TIME"],
        b'T' => &["TABLE", "TIMESTAMP", "TO"],
        b'U' => &["UNIQUE", "UPDATE"],
        b'V' => &["VALUES", "VARCHAR"],
        b'W' => &["WHERE", "WITH"],
        _ => &[],
    }
}

/// Whether a word, folded to upper case, is one of `words`.
fn is_any_of(word: &[u8], words: &[&str]) -> bool
    ensures { result ≡ list_any (λ w. same_text (map token.upper word.now) w.now) words.now }
{
    words.iter().any(|other| is_folded(word, other.as_bytes()))
}

/// Whether a word, folded to upper case, is reserved.
pub(crate) fn is_reserved(word: &[u8]) -> bool
    ensures { result ≡ token.is_reserved (map token.upper word.now) }
{
    match word {
        [first, ..] => is_any_of(word, beginning_with(upper(*first))),
        [] => false,
    }
}
