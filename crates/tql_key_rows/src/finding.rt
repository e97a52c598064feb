//! Lookup of the current rows of a table by their values in some columns.
ghost use Rattle.std.specs.Prelude.{◌≡◌, List, All, Some, map, option_map, IfOk, IsTrue};
ghost use Rattle.tql_spec.specs.Bag.{SameBag};
ghost use Rattle.tql_spec.specs.Definition.{Stamped};
ghost use Rattle.tql_spec.specs.Period.{where_rising};
ghost use Rattle.tql_spec.specs.Period.{Period as Points};
ghost use Rattle.tql_catalog.specs.Rows.{are_assignable, AreStoredAt};
ghost use Rattle.tql_period.specs.Points.{points_of};
ghost use Rattle.tql_store.specs.StoreModel.{has_table};
ghost use Rattle.tql_value.specs.Views.{datum_of_view};
ghost use Rattle.tql_key_rows.specs.Asked.{AreRowsOf, row_found, row_named, rows_in, rows_with};

use std::alloc::AllocError;
use tql_catalog::catalog::Table;
use tql_index::index::IntervalIndex;
use tql_memory::Memory;
use tql_period::period::Period;
use tql_store::store::Store;
use tql_value::value::View;
use tql_versions::version::Version;

/// Columns of a table by which its rows are looked up. None of them is generated.
pub struct SoughtColumns<'a> {
    pub table: &'a Table,
    pub columns: &'a [usize],
    /// The indexes of `columns` among the stored columns.
    stored: Vec<usize, Memory>,
    ghost right: { AreStoredAt table.now.definition columns.now stored.items },
}

impl Drop for SoughtColumns<'_> {
    fn drop(self) {
        let SoughtColumns {
            table: _,
            columns: _,
            stored,
        } = self;
        drop(stored);
    }
}

impl<'a> SoughtColumns<'a> {
    /// Prepares a lookup by these columns of a table.
    pub fn of(
        memory: Memory,
        table: &'a Table,
        columns: &'a [usize],
    ) -> Result<SoughtColumns<'a>, AllocError>
        requires { IsTrue (are_assignable table.now.definition columns.now) }
        ensures table { IfOk result (λ sought. sought.table.now ≡ table.now) }
        ensures columns { IfOk result (λ sought. sought.columns.now ≡ columns.now) }
    {
        let stored = table.definition.stored_numbers(memory, columns)?;
        Ok(SoughtColumns {
            table,
            columns,
            stored,
        })
    }

    /// Returns the current rows with these values in the columns. NULL equals no value.
    pub fn find<'s, I: IntervalIndex>(
        &self,
        store: &'s Store<I>,
        tuple: &[View<'_>],
    ) -> Result<Vec<Version<'s>, Memory>, AllocError>
        requires { IsTrue (has_table store.now self.now.table.now.id) }
        ensures rows { IfOk result (λ found. (rows : List Stamped) → AreRowsOf store.now self.now.table.now rows
            → SameBag (map row_found found.items) (rows_with self.now.table.now.definition self.now.columns.now
            (map datum_of_view tuple.now) rows)) }
        ensures ids { IfOk result (λ found. All (λ f. row_named store.now self.now.table.now.id f.id
            ≡ Some (row_found f)) found.items) }
    {
        store.with_key(self.table.id, &self.stored, tuple)
    }

    /// Returns the current rows with these values in the columns. If `by_period`, only those whose application period
    /// shares a point with `period`; None represents an empty period, which shares none.
    pub fn find_in<'s, I: IntervalIndex>(
        &self,
        memory: Memory,
        store: &'s Store<I>,
        tuple: &[View<'_>],
        by_period: bool,
        period: Option<Period>,
    ) -> Result<Vec<Version<'s>, Memory>, AllocError>
        requires { IsTrue (has_table store.now self.now.table.now.id) }
        ensures rows { IfOk result (λ found. (x : Points) (rows : List Stamped)
            → option_map points_of period ≡ where_rising x → AreRowsOf store.now self.now.table.now rows
            → SameBag (map row_found found.items) (rows_in self.now.table.now.definition self.now.columns.now
            (map datum_of_view tuple.now) by_period x rows)) }
        ensures ids { IfOk result (λ found. All (λ f. row_named store.now self.now.table.now.id f.id
            ≡ Some (row_found f)) found.items) }
    {
        if !by_period {
            return self.find(store, tuple);
        }
        let Some(ends) = self.table.definition.sought_period() else {
            return Ok(Vec::new(memory));
        };
        let Some(period) = period else {
            return Ok(Vec::new(memory));
        };
        store.with_key_in(self.table.id, &self.stored, tuple, ends, period)
    }
}
