//! The scanner's state: outside, in a text, in a quoted name or in a comment.
ghost use Rattle.std.specs.Prelude.{◌≡◌, ◌≤◌, length};
ghost use Rattle.std.specs.List.{prefix_len};
ghost use Rattle.tql_spec.specs.Script as script;
ghost use Rattle.tql_splitter.specs.Cutting.{state_of, is_comment};
ghost use Rattle.tql_splitter.specs.Plain as spec;

/// Where a byte is, as determined by the bytes before it.
#[derive(Clone, Copy)]
pub enum ScanState {
    Outside,
    AfterDash,
    InText,
    InName,
    InComment,
}

/// Returns the state after a byte that is not a `-` and is outside texts, quoted names and comments.
fn opened_by(byte: u8) -> ScanState
    ensures { state_of result ≡ script.opened_by byte }
{
    match byte {
        b'\'' => ScanState::InText,
        b'"' => ScanState::InName,
        _ => ScanState::Outside,
    }
}

/// Returns the state after this byte.
pub fn state_after(place: ScanState, byte: u8) -> ScanState
    ensures { state_of result ≡ script.state_after (state_of place) byte }
{
    match (place, byte) {
        (ScanState::Outside, b'-') => ScanState::AfterDash,
        (ScanState::AfterDash, b'-') => ScanState::InComment,
        (ScanState::Outside | ScanState::AfterDash, _) => opened_by(byte),
        (ScanState::InText, b'\'') | (ScanState::InName, b'"') | (ScanState::InComment, b'\n') =>
            ScanState::Outside,
        (ScanState::InText | ScanState::InName | ScanState::InComment, _) => place,
    }
}

/// Whether a byte in this state is in a comment.
pub fn is_comment(place: ScanState) -> bool
    ensures { result ≡ is_comment (state_of place) }
{
    matches!(place, ScanState::InComment)
}

/// Whether a byte is plain: it is ASCII, opens and closes nothing, and ends neither a line nor a statement.
fn is_plain(byte: u8) -> bool
    ensures { result ≡ spec.is_plain byte }
{
    byte < 128 && !matches!(byte, b';' | b'\'' | b'"' | b'-' | b'\n')
}

/// Counts the plain bytes at the front.
pub fn plain_length(bytes: &[u8]) -> usize
    ensures value { result ≡ prefix_len spec.is_plain bytes.now }
    ensures within { result ≤ length bytes.now }
{
    bytes.iter().take_while(|byte| is_plain(**byte)).count()
}

/// Whether no plain byte changes this state.
pub fn is_steady(place: ScanState) -> bool
    ensures { result ≡ spec.is_steady (state_of place) }
{
    !matches!(place, ScanState::AfterDash)
}

/// Whether a `;` in this state ends a statement.
pub fn can_end(place: ScanState) -> bool
    ensures { result ≡ script.can_end (state_of place) }
{
    matches!(place, ScanState::Outside | ScanState::AfterDash)
}
