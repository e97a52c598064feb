//! Options and their values as one word each.
ghost use Rattle.std.specs.Prelude.{◌≡◌, ◌++◌, IfOk, map, string_bytes};
ghost use Rattle.std.specs.Str.{bytes_eq};
ghost use Rattle.tql_options.specs.Joining.{dashes, line_joined, pair_joined, takes_value, words_joined};

use std::alloc::{AllocError, Global};

/// Whether this word is an option whose value is the next word.
fn takes_value(word: &str) -> bool
    ensures { result ≡ takes_value word.now }
{
    matches!(
        word,
        "--command"
            | "--format"
            | "--journal"
            | "--memory"
            | "--verify"
            | "-c"
            | "-ic"
            | "-qc"
            | "-iqc"
            | "-qic"
    )
}

/// Whether the words that follow this one are no options.
fn ends_options(word: &str) -> bool
    ensures { result ≡ bytes_eq word.now dashes }
{
    word == "--"
}

/// Returns an option and its value as one word.
fn pair(alloc: Global, option: &str, value: &str) -> Result<String, AllocError>
    ensures { IfOk result (λ word. string_bytes word ≡ pair_joined option.now value.now) }
{
    let mut word = String::from_str(alloc, option)?;
    word.push_str("=")?;
    word.push_str(value)?;
    Ok(word)
}

/// Adds words as they are.
fn push_words(alloc: Global, joined: &mut Vec<String>, words: &[String]) -> Result<(), AllocError>
    ensures { IfOk result (λ _. map string_bytes joined.new.items
        ≡ map string_bytes joined.old.items ++ map string_bytes words.now) }
{
    for word in words {
        joined.push(String::from_str(alloc, word.as_str())?)?;
    }
    Ok(())
}

/// Adds words with each option and its value as one.
fn push_joined(alloc: Global, joined: &mut Vec<String>, words: &[String]) -> Result<(), AllocError>
    ensures { IfOk result (λ _. map string_bytes joined.new.items
        ≡ map string_bytes joined.old.items ++ words_joined (map string_bytes words.now)) }
{
    let mut left = words;
    while let [word, value, others @ ..] = left {
        if ends_options(word.as_str()) {
            break;
        }
        if takes_value(word.as_str()) {
            joined.push(pair(alloc, word.as_str(), value.as_str())?)?;
            left = others;
        } else {
            joined.push(String::from_str(alloc, word.as_str())?)?;
            left = &left[1..];
        }
    }
    push_words(alloc, joined, left)
}

/// Returns the words of a command line, of which the first is the program's name, with each option and its value as one
/// word, `--command=TEXT`. So a value may begin with `-`, as a script may that begins with a comment. The only error is
/// a refused allocation.
pub fn joined_words(alloc: Global, words: &[String]) -> Result<Vec<String>, AllocError>
    ensures { IfOk result (λ joined. map string_bytes joined.items ≡ line_joined (map string_bytes words.entry.now)) }
{
    let mut joined = Vec::new(alloc);
    if let [name, others @ ..] = words {
        joined.push(String::from_str(alloc, name.as_str())?)?;
        push_joined(alloc, &mut joined, others)?;
    }
    Ok(joined)
}
