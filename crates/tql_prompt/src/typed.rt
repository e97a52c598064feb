//! The state of a script that is typed: the context of the next byte, and whether a statement has begun.
ghost use Rattle.std.specs.Prelude.{◌≡◌};
ghost use Rattle.std.specs.List.{fold};
ghost use Rattle.tql_spec.specs.Script as script;
ghost use Rattle.tql_prompt.specs.Prompting.{begun_by, is_idle, place_of, prompt_of, state_of, state_with};

/// The lexical context of the next byte of a script.
#[derive(Clone, Copy, PartialEq, Eq, Debug)]
pub enum Place {
    Outside,
    AfterDash,
    InText,
    InName,
    InComment,
}

/// Returns the place after a byte outside texts, names and comments that is not a `-`.
fn opened_by(byte: u8) -> Place
    ensures { place_of result ≡ script.opened_by byte }
{
    match byte {
        b'\'' => Place::InText,
        b'"' => Place::InName,
        _ => Place::Outside,
    }
}

/// Returns the place after a byte at a place.
fn place_after(place: Place, byte: u8) -> Place
    ensures { place_of result ≡ script.state_after (place_of place) byte }
{
    match (place, byte) {
        (Place::Outside, b'-') => Place::AfterDash,
        (Place::AfterDash, b'-') => Place::InComment,
        (Place::Outside | Place::AfterDash, _) => opened_by(byte),
        (Place::InText, b'\'') | (Place::InName, b'"') | (Place::InComment, b'\n') =>
            Place::Outside,
        (Place::InText | Place::InName | Place::InComment, _) => place,
    }
}

/// Whether a statement has begun after a byte at a place. A `-` alone may begin a comment, so it counts only once
/// another byte follows.
fn is_begun_by(place: Place, is_begun: bool, byte: u8) -> bool
    ensures { result ≡ begun_by (place_of place) is_begun byte }
{
    match (place, byte) {
        (Place::Outside | Place::AfterDash, b';') => false,
        (Place::Outside, b'-' | b' ' | b'\t' | b'\n' | b'\r')
        | (Place::AfterDash, b'-')
        | (Place::InComment, _) => is_begun,
        _ => true,
    }
}

/// The state of the script typed so far: the context of the next byte, and whether a statement has begun.
#[derive(Clone, Copy)]
pub struct Typed {
    pub place: Place,
    pub is_begun: bool,
}

/// The state before the first byte.
pub const NOTHING_TYPED: Typed = Typed {
    place: Place::Outside,
    is_begun: false,
};

impl Typed {
    /// Whether neither a statement nor a comment has begun.
    pub fn is_empty(self) -> bool
        ensures { result ≡ is_idle (state_of self) }
    {
        match self.place {
            Place::Outside => !self.is_begun,
            _ => false,
        }
    }

    /// Returns the state after one more byte.
    pub fn after(self, byte: u8) -> Typed
        ensures { state_of result ≡ state_with (state_of self) byte }
    {
        Typed {
            place: place_after(self.place, byte),
            is_begun: is_begun_by(self.place, self.is_begun, byte),
        }
    }

    /// Returns the state after more bytes.
    pub fn after_all(self, bytes: &[u8]) -> Typed
        ensures { state_of result ≡ fold state_with (state_of self) bytes.now }
    {
        let mut typed = self;
        for byte in bytes {
            typed = typed.after(*byte);
        }
        typed
    }

    /// Returns the prompt before more of the script: for a new statement, for more of one, or, in an open text or
    /// quoted name, one that begins with the quote that ends it.
    pub fn prompt(self) -> &'static str
        ensures { result.now ≡ prompt_of (state_of self) }
    {
        match self.place {
            Place::InText => "'...> ",
            Place::InName => "\"...> ",
            _ if self.is_begun => "...> ",
            _ => "tql> ",
        }
    }
}
