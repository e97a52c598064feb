//! The values that commands take.
ghost use Rattle.std.specs.Prelude.{◌≡◌, ◌≤◌};
ghost use Rattle.tql_prompt.specs.Values.{switch_of, width_behind, width_told};

/// The width that is taken for a terminal about which nothing is known.
pub const USUAL_WIDTH: usize = 80;

/// The least width that may be set.
const LEAST_WIDTH: usize = 20;

/// The greatest width that may be set.
const GREATEST_WIDTH: usize = 10_000;

/// Returns what a switch is set to. None if the word is neither `on` nor `off`.
pub fn switch(word: &str) -> Option<bool>
    ensures { result ≡ switch_of word.now }
{
    match word {
        "on" => Some(true),
        "off" => Some(false),
        _ => None,
    }
}

/// Appends a digit to a number. None if the byte is not a digit, or if the number would be above 10,000.
fn with_digit(number: usize, byte: u8) -> Option<usize>
    requires { number ≤ 10_000 }
    ensures { result ≡ width_behind number byte }
{
    if !byte.is_ascii_digit() {
        return None;
    }
    let number = number * 10 + usize::from(byte - b'0');
    if number <= GREATEST_WIDTH {
        Some(number)
    } else {
        None
    }
}

/// Returns the width that a word tells: a number from 20 to 10,000. None for any other word.
pub fn width(word: &str) -> Option<usize>
    ensures { result ≡ width_told word.now }
{
    let bytes = word.as_bytes();
    let mut number = 0usize;
    for byte in bytes {
        number = with_digit(number, *byte)?;
    }
    if number < LEAST_WIDTH {
        None
    } else {
        Some(number)
    }
}
