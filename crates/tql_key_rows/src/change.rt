//! A change to the rows of one table, as the key and reference tests read it.
ghost use Rattle.std.specs.Cow.{cow_slice_items};
ghost use Rattle.std.specs.Prelude.{◌≡◌, ℕ, IfOk};
ghost use Rattle.tql_spec.specs.Bag.{SameBag};
ghost use Rattle.tql_store.specs.StoreModel.{is_among};
ghost use Rattle.tql_key_rows.specs.Rising.{AreRising};

use std::alloc::AllocError;
use std::borrow::CowSlice;
use tql_memory::Memory;
use tql_row::row::Row;

/// A change to the rows of one table: the ids of the removed rows, rising, and the added rows. These start at `moment`,
/// in microseconds since 1970-01-01.
#[derive(Clone, Copy)]
pub struct Change<'a> {
    pub removed: &'a [usize],
    pub added: &'a [Row],
    pub moment: i64,
    /// The ids of the removed rows, in the order in which they were given.
    pub given: &'a [usize],
    ghost rising: { AreRising removed.now },
    ghost same: { SameBag given.now removed.now },
}

impl Change<'_> {
    ghost use Rattle.std.specs.Prelude.{◌≡◌};
    ghost use Rattle.tql_store.specs.StoreModel.{is_among};
    ghost use Rattle.tql_key_rows.specs.Rising.{are_distinct};

    /// Whether the row with this id is removed.
    pub fn removes(&self, id: usize) -> bool
        ensures { result ≡ is_among id self.now.removed.now }
    {
        self.removed.binary_search(&id).is_ok()
    }

    /// Whether no id was given twice.
    pub fn names_once(&self) -> bool
        ensures { result ≡ are_distinct self.now.given.now }
    {
        self.removed.is_sorted_by(|id, next| *id < *next)
    }
}

/// Returns the ids in rising order. If they rise already, as those of a scan do, they are not copied.
pub fn rising(memory: Memory, ids: &[usize]) -> Result<CowSlice<'_, usize, Memory>, AllocError>
    ensures rising { IfOk result (λ rising. AreRising (cow_slice_items rising)) }
    ensures same { IfOk result (λ rising. (id : ℕ) → is_among id (cow_slice_items rising) ≡ is_among id ids.now) }
    ensures bag { IfOk result (λ rising. SameBag ids.now (cow_slice_items rising)) }
{
    if ids.is_sorted() {
        return Ok(CowSlice::Borrowed(ids));
    }
    let mut rising = Vec::from_slice(memory, ids)?;
    rising.sort_unstable();
    Ok(CowSlice::Owned(rising))
}
