//! The keys of the tables that a statement references. They are sorted once for each table, so each of many references
//! finds its key by bisection.
ghost use Rattle.std.specs.Prelude.{◌≡◌, ◌++◌, ◌<◌, All, IfOk, OnOk, false, true, length, map};
ghost use Rattle.std.specs.Cmp.Lexicographic.{slice_cmp};
ghost use Rattle.std.specs.List.{flat_map, list_any};
ghost use Rattle.std.specs.Option.{ForSome};
ghost use Rattle.std.specs.Ordering.{nat_cmp};
ghost use Rattle.tql_spec.specs.Creation.{is_declared_key, same_numbers};
ghost use Rattle.tql_catalog.specs.Definitions.{key_of};
ghost use Rattle.tql_catalog.specs.Tables.{definitions_of};
ghost use Rattle.tql_bind_table.specs.KeyLists.{columns_in, listed_key};
ghost use Rattle.tql_bind_table.specs.KeyLists.{AreKeyLists, AreRising, AreTableKeys, IsIndexOf, IsParent};

use std::alloc::AllocError;
use std::cmp::Ordering;
use tql_catalog::catalog::Catalog;
use tql_catalog::constraint::Key;
use tql_catalog::table_def::TableDef;
use tql_memory::Memory;

/// The columns of a key, by number.
#[derive(Clone, Copy)]
pub struct KeyList<'a> {
    pub columns: &'a [usize],
}

/// A table that a statement references, by its position in the catalog. The columns of its keys are sorted: those of
/// the keys without WITHOUT OVERLAPS, and those of the keys with it.
pub struct ParentKeys<'a> {
    pub place: usize,
    pub definition: &'a TableDef,
    pub plain: Vec<KeyList<'a>, Memory>,
    pub by_period: Vec<KeyList<'a>, Memory>,
}

impl<'a> Drop for ParentKeys<'a> {
    fn drop(self) {
        let ParentKeys {
            place: _,
            definition: _,
            plain,
            by_period,
        } = self;
        drop(plain);
        drop(by_period);
    }
}

/// Returns the lexicographic order of two lists of columns.
fn order(a: &[usize], b: &[usize]) -> Ordering
    ensures { result ≡ slice_cmp nat_cmp a.now b.now }
{
    a.cmp(b)
}

/// Adds the columns of a key if it has WITHOUT OVERLAPS, or if it has not, as `by_period` says. The only error is a
/// refused allocation.
fn add_list<'a>(
    lists: &mut Vec<KeyList<'a>, Memory>,
    key: &'a Key,
    by_period: bool,
) -> Result<(), AllocError>
    ensures { OnOk result (map columns_in lists.new.items
        ≡ map columns_in lists.old.items ++ listed_key by_period (key_of key.now)) }
{
    if key.by_period == by_period {
        lists.push(KeyList {
            columns: &key.columns,
        })?;
    }
    Ok(())
}

/// Returns the columns of a table's keys with WITHOUT OVERLAPS, or of those without, in the order of declaration. The
/// only error is a refused allocation.
fn key_lists<'a>(
    memory: Memory,
    definition: &'a TableDef,
    by_period: bool,
) -> Result<Vec<KeyList<'a>, Memory>, AllocError>
    ensures { IfOk result (λ lists. map columns_in lists.items
        ≡ flat_map (listed_key by_period) definition.now.keys) }
{
    let mut lists = Vec::new(memory);
    for key in definition.keys() {
        add_list(&mut lists, key, by_period)?;
    }
    Ok(lists)
}

/// Returns the columns of a table's keys with WITHOUT OVERLAPS, or of those without, sorted. The only error is a
/// refused allocation.
fn sorted_lists<'a>(
    memory: Memory,
    definition: &'a TableDef,
    by_period: bool,
) -> Result<Vec<KeyList<'a>, Memory>, AllocError>
    ensures { IfOk result (λ lists. AreKeyLists definition.now by_period lists.items) }
{
    let mut lists = key_lists(memory, definition, by_period)?;
    lists.sort_by(|a, b| order(a.columns, b.columns))?;
    Ok(lists)
}

/// Whether one of these sorted lists has these columns, in this order.
fn is_listed(lists: &[KeyList<'_>], columns: &[usize]) -> bool
    requires { AreRising lists.now }
    ensures { result ≡ list_any (λ l. same_numbers l.columns.now columns.now) lists.now }
{
    lists
        .binary_search_by(|list| order(list.columns, columns))
        .is_ok()
}

/// Whether the table has a key of these columns, in this order, with WITHOUT OVERLAPS or without.
pub fn has_key(parent: &ParentKeys<'_>, by_period: bool, columns: &[usize]) -> bool
    requires { AreTableKeys parent.now }
    ensures { result ≡ is_declared_key parent.now.definition.now by_period columns.now }
{
    if by_period {
        is_listed(&parent.by_period, columns)
    } else {
        is_listed(&parent.plain, columns)
    }
}

/// Returns the table at a position in the catalog, with its keys sorted. The only error is a refused allocation.
fn parent_keys<'a>(
    memory: Memory,
    tables: &'a Catalog,
    place: usize,
) -> Result<ParentKeys<'a>, AllocError>
    requires { place < length tables.now }
    ensures is { IfOk result (λ parent. IsParent (definitions_of tables.now) parent) }
    ensures place { IfOk result (λ parent. parent.place ≡ place) }
{
    let definition = &tables.table(place).definition;
    let plain = sorted_lists(memory, definition, false)?;
    let by_period = sorted_lists(memory, definition, true)?;
    Ok(ParentKeys {
        place,
        definition,
        plain,
        by_period,
    })
}

/// Returns the index among these parents of the table at a position in the catalog. None if it is not there.
fn index_of(parents: &[ParentKeys<'_>], place: usize) -> Option<usize>
    ensures { ForSome result (IsIndexOf parents.now place) }
{
    for (index, parent) in parents.iter().enumerate() {
        if parent.place == place {
            return Some(index);
        }
    }
    None
}

/// Returns the index among these parents of the table at a position in the catalog. If it is not there, it is added.
/// The only error is a refused allocation.
pub fn parent_at<'a>(
    memory: Memory,
    tables: &'a Catalog,
    place: usize,
    parents: &mut Vec<ParentKeys<'a>, Memory>,
) -> Result<usize, AllocError>
    requires within { place < length tables.now }
    requires parents { All (IsParent (definitions_of tables.now)) parents.old.items }
    ensures parents { OnOk result (All (IsParent (definitions_of tables.now)) parents.new.items) }
    ensures index { IfOk result (IsIndexOf parents.new.items place) }
{
    if let Some(index) = index_of(parents, place) {
        return Ok(index);
    }
    let index = parents.len();
    parents.push(parent_keys(memory, tables, place)?)?;
    Ok(index)
}
