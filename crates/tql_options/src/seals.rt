//! Lines of a journal on the command line.
ghost use Rattle.std.specs.Prelude.{◌≡◌};
ghost use Rattle.std.specs.List.{list_all};
ghost use Rattle.tql_options.specs.Seals.{is_hex_digit, is_seal};

/// Whether this byte is a hexadecimal digit, as journals have them.
fn is_hex_digit(byte: u8) -> bool
    ensures { result ≡ is_hex_digit byte }
{
    matches!(byte, b'0'..=b'9' | b'a'..=b'f')
}

/// Whether these bytes are hexadecimal digits.
fn are_hex_digits(bytes: &[u8]) -> bool
    ensures { result ≡ list_all is_hex_digit bytes.now }
{
    for byte in bytes {
        if !is_hex_digit(*byte) {
            return false;
        }
    }
    true
}

/// Whether this word is what a line of a journal has: 64 hexadecimal digits.
pub fn is_seal(word: &str) -> bool
    ensures { result ≡ is_seal word.now }
{
    word.len() == 64 && are_hex_digits(word.as_bytes())
}
