//! Titles, comments that begin with `--!`, and the ends of statements in a script.
ghost use Rattle.std.specs.Prelude.{◌≡◌};
ghost use Rattle.tql_spec.specs.Script.{can_end};
ghost use Rattle.tql_prompt.specs.Prompting.{place_of, state_of};
ghost use Rattle.tql_prompt.specs.Titles.{ends_statement, first_end, shown_after, title_after};

use crate::typed::{Place, Typed};

/// Whether a comment is a title, as far as it is read.
#[derive(Clone, Copy, PartialEq, Eq, Debug)]
pub enum Title {
    /// It is none, or there is no comment.
    Absent,
    /// The next byte decides it: it directly follows the `--` of a comment outside a statement.
    Open,
    /// It is one, of which nothing was read yet.
    Empty,
    /// It is one.
    Begun,
}

/// Returns whether the present comment is a title after one more byte of the script, which was typed in a state.
pub fn title_after(title: Title, typed: Typed, byte: u8) -> Title
    ensures { result ≡ title_after title (state_of typed) byte }
{
    match (title, byte) {
        (Title::Open, b'!') => Title::Empty,
        (Title::Empty | Title::Begun, b'\n') => Title::Absent,
        (Title::Empty | Title::Begun, _) => Title::Begun,
        (Title::Absent | Title::Open, b'-') if typed.place == Place::AfterDash && !typed.is_begun =>
            Title::Open,
        _ => Title::Absent,
    }
}

/// Whether a byte of a title is shown: each after the `!` and one blank.
pub fn is_shown(title: Title, byte: u8) -> bool
    ensures { result ≡ shown_after title byte }
{
    match title {
        Title::Begun => true,
        Title::Empty => byte != b' ',
        _ => false,
    }
}

/// Whether a byte ends a statement at a place.
fn is_end(place: Place, byte: u8) -> bool
    ensures { result ≡ ends_statement (place_of place) byte }
{
    byte == b';' && matches!(place, Place::Outside | Place::AfterDash)
}

/// Returns the number of bytes up to the first `;` that ends a statement, that one included; all if there is none.
pub fn statement_end(typed: Typed, bytes: &[u8]) -> usize
    ensures { result ≡ first_end (place_of typed.place) bytes.now }
{
    let mut typed = typed;
    let mut count = 0;
    for byte in bytes {
        count += 1;
        if is_end(typed.place, *byte) {
            return count;
        }
        typed = typed.after(*byte);
    }
    count
}
