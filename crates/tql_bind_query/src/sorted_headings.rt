//! Headings sorted once, so that each of many keys finds its heading by bisection.
ghost use Rattle.std.specs.Prelude.{◌≡◌, IfOk, map, string_bytes};
ghost use Rattle.std.specs.Cmp.Lexicographic.{slice_cmp};
ghost use Rattle.std.specs.List.{filter};
ghost use Rattle.std.specs.Ordering.{nat_cmp};
ghost use Rattle.tql_spec.specs.Binding as binding;
ghost use Rattle.tql_spec.specs.Creation.{or_first};
ghost use Rattle.tql_spec.specs.Words.{same_text};
ghost use Rattle.tql_bind_query.specs.Headed.{headed_from, headed_of, place_in, AreRising, AreSorted};

use std::alloc::AllocError;
use std::cmp::Ordering;
use tql_memory::Memory;

/// Up to this number of keys, headings are searched linearly.
const FEW: usize = 4;

/// A heading, and the index of its output column.
#[derive(Clone, Copy)]
pub struct Heading<'a> {
    pub name: &'a str,
    pub place: usize,
}

/// Compares two names by their bytes.
fn order(a: &str, b: &str) -> Ordering
    ensures { result ≡ slice_cmp nat_cmp a.now b.now }
{
    a.cmp(b)
}

/// Returns the headings with their indexes.
fn numbered<'a>(
    memory: Memory,
    headings: &'a [String<Memory>],
) -> Result<Vec<Heading<'a>, Memory>, AllocError>
    ensures { IfOk result (λ v. map headed_of v.items ≡ headed_from 0 (map string_bytes headings.now)) }
{
    let mut numbered = Vec::with_capacity(memory, headings.len())?;
    for (place, heading) in headings.iter().enumerate() {
        let name = heading.as_str();
        numbered.push(Heading { name, place })?;
    }
    Ok(numbered)
}

/// Returns the headings with their indexes, sorted by their bytes.
fn sorted<'a>(
    memory: Memory,
    headings: &'a [String<Memory>],
) -> Result<Vec<Heading<'a>, Memory>, AllocError>
    ensures { IfOk result (λ v. AreSorted (map string_bytes headings.now) v.items) }
{
    let mut sorted = numbered(memory, headings)?;
    sorted.sort_by(|a, b| order(a.name, b.name))?;
    Ok(sorted)
}

/// Returns the headings with their indexes, sorted by their bytes, or none if only a few keys look them up. The only
/// error is a refused allocation.
pub fn sorted_headings<'a>(
    memory: Memory,
    headings: &'a [String<Memory>],
    keys: usize,
) -> Result<Vec<Heading<'a>, Memory>, AllocError>
    ensures { IfOk result (λ v. AreSorted (map string_bytes headings.now) v.items) }
{
    if keys <= FEW {
        return Ok(Vec::new(memory));
    }
    sorted(memory, headings)
}

/// Returns the part of the sorted headings that is equal to a name.
pub fn with_name<'s, 'a>(sorted: &'s [Heading<'a>], name: &str) -> &'s [Heading<'a>]
    requires { AreRising sorted.now }
    ensures { result.now ≡ filter (λ h. same_text name.now h.name.now) sorted.now }
{
    let start = sorted.partition_point(|heading| order(heading.name, name).is_lt());
    let end = sorted.partition_point(|heading| order(heading.name, name).is_le());
    let (_, behind) = sorted.split_at(start);
    let (named, _) = behind.split_at(end - start);
    named
}

/// Returns the index if there is exactly one heading.
pub fn only_heading(named: &[Heading<'_>]) -> Option<usize>
    ensures { binding.only_place (map place_in named.now) ≡ or_first result }
{
    match named {
        [heading] => Some(heading.place),
        _ => None,
    }
}
