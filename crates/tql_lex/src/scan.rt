//! Scanning the bytes of a script.
ghost use Rattle.std.specs.Prelude.{◌≡◌, false};
ghost use Rattle.tql_spec.specs.Script as script;

/// Whether a byte is a space, a tab, a line feed or a carriage return.
pub fn is_blank(byte: u8) -> bool
    ensures { result ≡ script.is_blank byte }
{
    matches!(byte, b' ' | b'\t' | b'\n' | b'\r')
}

/// Whether a comment begins with these bytes.
fn begins_comment(first: u8, behind: &[u8]) -> bool
    ensures { result ≡ script.begins_comment first behind.now }
{
    first == b'-' && behind.first() == Some(&b'-')
}

/// Returns the bytes from the first one that is neither a blank nor in a comment.
pub(crate) fn without_lead(bytes: &[u8]) -> &[u8]
    ensures { result.now ≡ script.without_lead false bytes.now }
{
    let mut in_comment = false;
    let mut rest = bytes;
    while let [first, behind @ ..] = rest {
        if in_comment {
            in_comment = *first != b'\n';
        } else {
            in_comment = begins_comment(*first, behind);
            if !in_comment && !is_blank(*first) {
                return rest;
            }
        }
        rest = behind;
    }
    rest
}
