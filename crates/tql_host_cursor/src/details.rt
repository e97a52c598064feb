//! Texts of a refusal's detail.
ghost use Rattle.std.specs.Prelude.{◌≡◌, Some, option_map, string_bytes, slice_get, map};
ghost use Rattle.tql_host_cursor.specs.Parts.{detail_in};

use tql_detail::detail::Detail;
use tql_host_cells::requests::Asked;
use tql_memory::Memory;

/// Returns the bytes of a text, if it is known.
fn known(text: &Option<String<Memory>>) -> Option<&[u8]>
    ensures { option_map (λ t. t.now) result ≡ option_map string_bytes text.now }
{
    match text {
        Some(text) => Some(text.as_bytes()),
        None => None,
    }
}

/// Returns the bytes of a name in a list.
pub(crate) fn name_at(names: &[String<Memory>], place: usize) -> Option<&[u8]>
    ensures { option_map (λ t. t.now) result ≡ slice_get (map string_bytes names.now) place }
{
    match names.get(place) {
        Some(name) => Some(name.as_bytes()),
        None => None,
    }
}

/// Returns a text of a detail: what is wrong, the hint, the constraint, or a column of it.
fn text_of(asked: Asked, place: usize, detail: &Detail) -> Option<&[u8]>
    ensures { option_map (λ t. t.now) result ≡ detail_in asked place (Some detail.now) }
{
    match asked {
        Asked::Words => Some(detail.words.as_bytes()),
        Asked::Hint => known(&detail.hint),
        Asked::Constraint => known(&detail.constraint),
        Asked::FaultColumn => name_at(detail.columns.as_slice(), place),
        _ => None,
    }
}

/// Returns a text of a detail, if there is a detail.
pub(crate) fn detail_text(asked: Asked, place: usize, detail: &Option<Detail>) -> Option<&[u8]>
    ensures { option_map (λ t. t.now) result ≡ detail_in asked place detail.now }
{
    match detail {
        Some(detail) => text_of(asked, place, detail),
        None => None,
    }
}
