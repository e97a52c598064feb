//! The statements in a window on a file.
ghost use Rattle.std.specs.Prelude.{◌≡◌, ◌≤◌, ◌<◌, ◌+◌, ◌^◌, length};
ghost use Rattle.tql_journal.specs.Reading.{line_feeds};
ghost use Rattle.tql_journal.specs.Entries.{Adds, TakesAll};

use crate::found::Found;
use crate::front::{Entry, Front, next};
use crate::window::Window;

/// Returns the number of line feeds.
fn line_feeds(bytes: &[u8]) -> usize
    ensures value { result ≡ line_feeds bytes.now }
    ensures within { result ≤ length bytes.now }
{
    bytes.iter().filter(|byte| **byte == b'\n').count()
}

/// Adds a statement with its line to what was found.
fn add(found: &mut Found, entry: &Entry, text: &[u8], sought: &[u8])
    requires end { found.old.end + entry.now.count < 2 ^ 64 }
    requires statements { found.old.statements ≤ found.old.end }
    requires lines { found.old.lines ≤ found.old.end }
    requires count { length text.now + 2 ≤ entry.now.count }
    ensures { Adds sought.now text.now entry.now found.old found.new }
{
    found.end += entry.count as u64;
    found.statements += 1;
    found.lines += line_feeds(text) as u64 + 2;
    found.has_line = found.has_line || entry.digits.as_slice() == sought;
    found.last = Some(entry.digits);
}

/// Adds the statements at the front of the window. Returns whether more bytes may give more of them.
pub(crate) fn take_entries(found: &mut Found, window: &mut Window, sought: &[u8]) -> bool
    requires end { found.old.end + length window.old.bytes < 2 ^ 64 }
    requires statements { found.old.statements ≤ found.old.end }
    requires lines { found.old.lines ≤ found.old.end }
    ensures { TakesAll sought.now window.old window.new found.old found.new result }
{
    let mut front = next(&mut found.seal, window.view());
    while let Front::Entry(entry) = front {
        add(found, &entry, &window.view()[..entry.text], sought);
        window.skip(entry.count);
        front = next(&mut found.seal, window.view());
    }
    matches!(front, Front::Torn)
}
