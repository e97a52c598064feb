//! Sizes in bytes on the command line.
ghost use Rattle.std.specs.Prelude.{◌≡◌, ◌∷◌, []};
ghost use Rattle.tql_options.specs.Sizes.{bytes_told, kept_back, number_behind, number_in, unit_of};

/// The least limit of memory of which a part is kept back, in bytes.
const LEAST_DIVIDED: usize = 1 << 20;

/// Appends a digit to a number. None if the byte is not a digit, or if the number does not fit into 64 bits.
fn with_digit(number: usize, byte: u8) -> Option<usize>
    ensures { result ≡ number_behind number (byte ∷ []) }
{
    if !byte.is_ascii_digit() {
        return None;
    }
    number
        .checked_mul(10)?
        .checked_add(usize::from(byte - b'0'))
}

/// Returns the number that the digits spell. None if there is no digit, if a byte is not a digit, or if the number does
/// not fit into 64 bits.
fn number(digits: &[u8]) -> Option<usize>
    ensures { result ≡ number_in digits.now }
{
    if digits.is_empty() {
        return None;
    }
    let mut number = 0usize;
    for byte in digits {
        number = with_digit(number, *byte)?;
    }
    Some(number)
}

/// Returns the number of bytes in the unit K, M or G, in either case. None for another letter.
fn unit(letter: u8) -> Option<usize>
    ensures { result ≡ unit_of letter }
{
    match letter {
        b'K' | b'k' => Some(1 << 10),
        b'M' | b'm' => Some(1 << 20),
        b'G' | b'g' => Some(1 << 30),
        _ => None,
    }
}

/// Returns the number of bytes that a word gives: digits, or digits and one of the letters K, M and G, in either case.
/// None if the word has another form, or if the number does not fit into 64 bits.
pub fn bytes_of(word: &str) -> Option<usize>
    ensures { result ≡ bytes_told word.now }
{
    let bytes = word.as_bytes();
    let (letter, rest) = bytes.split_last()?;
    match unit(*letter) {
        Some(unit) => number(rest)?.checked_mul(unit),
        None => number(bytes),
    }
}

/// Returns how many bytes of a limit are kept back from statements that may keep memory when they have ended: a
/// quarter. None are kept back if the limit is below 1,048,576 bytes, or if there is none (`usize::MAX`).
pub fn kept_back(most: usize) -> usize
    ensures { result ≡ kept_back most }
{
    if most < LEAST_DIVIDED || most == usize::MAX {
        0
    } else {
        most / 4
    }
}
