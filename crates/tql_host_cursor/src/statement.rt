//! The text of a single statement.
ghost use Rattle.std.specs.Prelude.{◌≡◌};
ghost use Rattle.tql_host_cursor.specs.Statements.{statement_text, without_last};

/// Returns a text without the `;` that it may end with.
fn without_last(text: &[u8]) -> &[u8]
    ensures { result.now ≡ without_last text.now }
{
    match text {
        [front @ .., b';'] => front,
        _ => text,
    }
}

/// Returns the text of a statement, without a `;` and blanks at its end.
pub fn statement_text(text: &[u8]) -> &[u8]
    ensures { result.now ≡ statement_text text.now }
{
    without_last(text.trim_ascii_end())
}
