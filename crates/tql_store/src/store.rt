//! The store: the versions of all tables, their changes, and the beginning and end of transactions.
ghost use Rattle.std.specs.Prelude.{◌≡◌, ◌↔◌, Bool, ℕ, ℤ, ◌||◌, ◌<◌, ◌++◌, ◌+◌, ◌<ℤ◌, ◌≤ℤ◌, nat_eq, if◌then◌else◌, []};
ghost use Rattle.std.specs.Prelude.{map, filter, length, All, IsNone, IsSome, IsTrue, is_some, Some, None, IfOk, OnOk};
ghost use Rattle.std.specs.Prelude.{◌&&◌, OnErr, IfErr, Err, IfSome, option_map};
ghost use Rattle.tql_spec.specs.Calendar.{first_moment, high};
ghost use Rattle.tql_spec.specs.Bag.{SameBag};
ghost use Rattle.tql_spec.specs.Definition.{Stamped, period_between};
ghost use Rattle.tql_spec.specs.Period.{holds, share_a_point};
ghost use Rattle.tql_period.specs.Points.{points_of};
ghost use Rattle.tql_store_index.specs.Basis.{is_looked_at, is_sought, sought_of};
ghost use Rattle.tql_store_index.specs.Tuple.{is_at};
ghost use Rattle.tql_versions.specs.Changes.{alive, closing, fresh, left_by, pruned, replaced, undone, Under};
ghost use Rattle.tql_store_rows.specs.TableModel.{AtRest, InTurn, AreRemovable as AreRemovableRows, IsJudged};
ghost use Rattle.tql_store_rows.specs.TableModel.{live as live_rows, versions as all_versions};
ghost use Rattle.tql_store.specs.StoreModel.{StoreModel, live, named, AreRemovable};
ghost use Rattle.tql_store.specs.StoreModel.{has_table as table_there};
ghost use Rattle.tql_store.specs.StoreModel.{is_versioned as table_versioned, table_count as tables_there};
ghost use Rattle.tql_store.specs.Orderly.{table_at, IsNoted, HasTurned};
ghost use Rattle.tql_store.specs.Pinned.{pinned};
ghost use Rattle.tql_store.specs.TableSlots.{slot_at, is_brief};
ghost use Rattle.tql_versions.specs.Readings.{version_shown as version_of, asked};
ghost use Rattle.tql_versions.specs.Views.{versions_of};
ghost use Rattle.tql_store.specs.Views.{AreRowsNow, CountsNow, Names, NamesOnce, IsFound, current_named};
ghost use Rattle.tql_store.specs.Represents.{Represents, BeginCopies, ChangeReplaces, CommitAppends, ReplacesVersions};
ghost use Rattle.tql_store.specs.Represents.{RollbackRestores, AddsTable, AddKeepsCopies, DropEmpties, Takes};
ghost use Rattle.tql_store.specs.Represents.{Answers, PrunesCopies};
ghost use Rattle.tql_store.specs.declared.tables.TableSlot.TheVariants.{Free};
ghost use Rattle.tql_value.specs.Views.{datum_of_view};
ghost use Rattle.tql_value.specs.declared.when.When.TheVariants.{Now};
ghost use Rattle.tql_value.specs.When.{is_now, when_of};
ghost use Rattle.tql_value.specs.declared.refusal.Refusal.TheVariants.{OutOfMemory};

use crate::pruning::prune_each;
use crate::tables::{TableSlot, clear_place, free_table, place_at, put_table, taken_count};
use crate::turns::{commit_each, note, put_rows, set_rows, undo_each};
use std::alloc::AllocError;
use std::marker::Model;
use tql_index::index::IntervalIndex;
use tql_memory::Memory;
use tql_period::period::Period;
use tql_pinned::asking::{question_at, versions_at};
use tql_row::row::Row;
use tql_store_index::basis::Sought;
use tql_store_rows::versions::Versions;
use tql_value::calendar::FIRST_MOMENT;
use tql_value::refusal::Refusal;
use tql_value::table::TableId;
use tql_value::value::View;
use tql_value::when::When;
use tql_versions::kept::Kept;
use tql_versions::version::Version;

/// A change of a table: the ids of the versions to remove, and the rows to add, without generated columns.
pub struct Delta {
    /// The table to change.
    pub table: TableId,
    /// The ids of the current versions to remove.
    pub removed: Vec<usize, Memory>,
    /// The rows to add.
    pub added: Vec<Row, Memory>,
    /// The row count that the statement reports.
    pub count: u64,
}

impl Delta {
    /// Makes the change in its table and records the table as touched. Fails if out of memory; then no version is
    /// changed.
    fn make<I: IntervalIndex>(
        self,
        rows: &mut [Versions<I>],
        touched: &mut Vec<usize, Memory>,
        moment: i64,
    ) -> Result<(), Refusal>
        requires within { self.table < length rows.old }
        requires turn { InTurn moment (table_at rows.old self.table) }
        requires removable { AreRemovableRows (table_at rows.old self.table) self.removed.items }
        ensures turned { HasTurned moment self.table rows.old rows.new }
        ensures noted { OnOk result (IsNoted self.table touched.old.items touched.new.items) }
        ensures versions { OnOk result (SameBag (live_rows (table_at rows.new self.table))
            (filter alive (closing moment self.removed.items (table_at rows.old self.table).current
            ++ (table_at rows.old self.table).closed)
            ++ map (fresh moment) self.added.items)) }
        ensures judged { OnOk result ((gone : Stamped → Bool)
            → IsJudged gone self.removed.items (table_at rows.old self.table)
            → SameBag (live_rows (table_at rows.new self.table))
            (replaced moment gone self.added.items
            (live_rows (table_at rows.old self.table)))) }
        ensures err { OnErr result (map all_versions rows.new ≡ map all_versions rows.old) }
        ensures err_rest { OnErr result ((last : _) → AtRest last (table_at rows.old self.table)
            → AtRest last (table_at rows.new self.table)) }
        ensures err_touched { OnErr result (touched.new.items ≡ touched.old.items) }
        ensures refusal { IfErr result (λ e. e ≡ OutOfMemory) }
    {
        let Delta {
            table,
            removed,
            added,
            count: _,
        } = self;
        let number = usize::from(table.number());
        touched.reserve(1)?;
        rows[number].apply(&removed, added, moment)?;
        note(touched, number);
        Ok(())
    }
}

impl Drop for Delta {
    fn drop(self) {
        let Delta {
            table: _,
            removed,
            added,
            count: _,
        } = self;
        drop(removed);
        drop(added);
    }
}

/// The versions of all tables. Each table has an index of its closed versions.
pub struct Store<I: IntervalIndex> {
    memory: Memory,
    places: Vec<TableSlot, Memory>,
    /// The versions of each table, by its number.
    rows: Vec<Versions<I>, Memory>,
    /// The numbers of the tables that the open transaction changed.
    touched: Vec<usize, Memory>,
    working: Option<i64>,
    last: Option<i64>,
    /// The moment before which no query may ask, in microseconds since 1970-01-01.
    horizon: i64,
}

impl<I: IntervalIndex> Drop for Store<I> {
    fn drop(self) {
        let Store {
            memory: _,
            places,
            rows,
            touched,
            working: _,
            last: _,
            horizon: _,
        } = self;
        drop(places);
        drop(rows);
        drop(touched);
    }
}

impl<I: IntervalIndex> Model for Store<I> {
    ghost use Rattle.std.specs.Prelude.{map};
    ghost use Rattle.tql_store_rows.specs.TableModel.{versions};
    ghost use Rattle.tql_store.specs.StoreModel.{StoreModel};

    ghost Value = { StoreModel };

    ghost view = { λ s. record {
      tables = s.places.items;
      versions = map versions s.rows.items;
      working = s.working;
      last = s.last;
      horizon = s.horizon;
    } };

    ghost use Rattle.tql_store.specs.Orderly.{IsOrderly};

    ghost invariant = { λ s. IsOrderly s.places.items s.rows.items s.touched.items s.working s.last };
}

impl<I: IntervalIndex> Store<I> {
    /// Creates a store without tables.
    pub fn new(memory: Memory) -> Store<I>
        ensures tables { result.tables ≡ [] }
        ensures working { result.working ≡ None }
        ensures last { result.last ≡ None }
        ensures horizon { result.horizon ≡ first_moment }
        ensures versions { (t : ℕ) → live result t ≡ [] }
        ensures copies { Represents result (λ t. []) (λ t. []) }
    {
        Store {
            memory,
            places: Vec::new(memory),
            rows: Vec::new(memory),
            touched: Vec::new(memory),
            working: None,
            last: None,
            horizon: FIRST_MOMENT,
        }
    }

    /// Returns the number of tables.
    pub fn table_count(&self) -> usize
        ensures { result ≡ tables_there self.now }
    {
        taken_count(&self.places)
    }

    /// Whether the table exists.
    pub fn has_table(&self, table: TableId) -> bool
        ensures { result ≡ table_there self.now table }
    {
        place_at(&self.places, table).is_taken()
    }

    /// Whether the table exists and is versioned.
    pub fn is_versioned(&self, table: TableId) -> bool
        ensures { result ≡ table_versioned self.now table }
    {
        place_at(&self.places, table).is_kept()
    }

    /// Whether a transaction is open.
    pub fn has_transaction(&self) -> bool
        ensures { result ≡ is_some self.now.working }
    {
        self.working.is_some()
    }

    /// Whether a moment, in microseconds since 1970-01-01, is later than the last commit.
    pub fn is_later(&self, moment: i64) -> bool
        ensures { IsTrue result ↔ Under self.now.last moment }
    {
        match self.last {
            Some(last) => last < moment,
            None => true,
        }
    }

    /// Returns the moment of the last commit, in microseconds since 1970-01-01; none before any. Allocates no memory.
    pub fn pin(&self) -> Option<i64>
        ensures { result ≡ self.now.last }
    {
        self.last
    }

    /// Returns the moment before which no query may ask, in microseconds since 1970-01-01. Initially it is 0001-01-01
    /// 00:00:00.
    pub fn horizon(&self) -> i64
        ensures { result ≡ self.now.horizon }
    {
        self.horizon
    }

    /// Adds a table under a free number below 1,000. The table is empty at every moment (this project's choice). Each
    /// list of columns gets an index by value, on closed versions too if the table is versioned. The period between two
    /// columns, if given, gets an index on current rows. Columns are numbered among the stored ones. Fails if out of
    /// memory; then nothing is changed.
    pub fn add_table(
        &mut self,
        versioned: bool,
        columns: Vec<Vec<usize, Memory>, Memory>,
        application: Option<(usize, usize)>,
    ) -> Result<TableId, Refusal>
        requires { tables_there self.old < 1000 }
        ensures ok { IfOk result (λ table. AddsTable versioned table self.old self.new) }
        ensures within { IfOk result (λ table. table < 1000) }
        ensures copies { OnOk result (AddKeepsCopies self.old self.new) }
        ensures err { OnErr result (self.new ≡ self.old) }
        ensures memory { IfErr result (λ e. e ≡ OutOfMemory) }
    {
        self.rows.reserve(1)?;
        let table = free_table(&self.places);
        let rows = Versions::with_indexes(self.memory, versioned, columns, application)?;
        put_table(&mut self.places, table, TableSlot::of_table(versioned))?;
        put_rows(&mut self.rows, usize::from(table.number()), rows);
        Ok(table)
    }

    /// Removes a table with all its versions, at every moment (this project's choice).
    pub fn drop_table(&mut self, table: TableId)
        requires closed { IsNone self.old.working }
        requires present { IsTrue (table_there self.old table) }
        ensures places { Takes table Free self.old.tables self.new.tables }
        ensures count { tables_there self.new + 1 ≡ tables_there self.old }
        ensures working { self.new.working ≡ self.old.working }
        ensures last { self.new.last ≡ self.old.last }
        ensures horizon { self.new.horizon ≡ self.old.horizon }
        ensures versions { (t : ℕ) → SameBag (live self.new t) (if nat_eq t table then [] else live self.old t) }
        ensures copies { DropEmpties table self.old self.new }
    {
        clear_place(&mut self.places, table);
        let rows = Versions::new(self.memory, false);
        set_rows(&mut self.rows, usize::from(table.number()), rows);
    }

    /// Returns the moment of the open transaction.
    fn moment(&self) -> i64
        requires { IsSome self.now.working }
        ensures { self.now.working ≡ Some result }
    {
        let Some(moment) = self.working else {
            unreachable!()
        };
        moment
    }

    /// Begins a transaction at the moment, in microseconds since 1970-01-01.
    pub fn begin(&mut self, moment: i64)
        requires closed { IsNone self.old.working }
        requires later { Under self.old.last moment }
        requires below { moment <ℤ high }
        ensures tables { self.new.tables ≡ self.old.tables }
        ensures working { self.new.working ≡ Some moment }
        ensures last { self.new.last ≡ self.old.last }
        ensures horizon { self.new.horizon ≡ self.old.horizon }
        ensures versions { (t : ℕ) → live self.new t ≡ live self.old t }
        ensures names { (t id : ℕ) → named self.new t id ≡ named self.old t id }
        ensures copies { BeginCopies self.old self.new }
    {
        self.working = Some(moment);
    }

    /// Makes a change in the open transaction. Fails if out of memory; then nothing is changed.
    pub fn apply(&mut self, delta: Delta) -> Result<(), Refusal>
        requires open_now { IsSome self.old.working }
        requires present { IsTrue (table_there self.old delta.table) }
        requires removable { AreRemovable self.old delta.table delta.removed.items }
        ensures ok { OnOk result (ReplacesVersions delta.table delta.removed.items
            delta.added.items self.old self.new) }
        ensures copies { OnOk result (ChangeReplaces delta.table delta.removed.items
            delta.added.items self.old self.new) }
        ensures err { OnErr result (self.new ≡ self.old) }
        ensures memory { IfErr result (λ e. e ≡ OutOfMemory) }
    {
        let moment = self.moment();
        delta.make(&mut self.rows, &mut self.touched, moment)?;
        Ok(())
    }

    /// Commits the open transaction. An unversioned table keeps only its last copy.
    pub fn commit(&mut self)
        requires { IsSome self.old.working }
        ensures tables { self.new.tables ≡ self.old.tables }
        ensures working { self.new.working ≡ None }
        ensures last { self.new.last ≡ self.old.working }
        ensures horizon { self.new.horizon ≡ self.old.horizon }
        ensures versions { (t : ℕ) (m : ℤ) → self.old.working ≡ Some m → SameBag (live self.new t)
            (if is_brief (slot_at self.old.tables t) then pruned m (live self.old t) else live self.old t) }
        ensures copies { CommitAppends self.old self.new }
    {
        let moment = self.moment();
        commit_each(&mut self.rows, &self.touched, moment);
        self.touched.clear();
        self.last = self.working;
        self.working = None;
    }

    /// Undoes the open transaction.
    pub fn rollback(&mut self)
        requires { IsSome self.old.working }
        ensures tables { self.new.tables ≡ self.old.tables }
        ensures working { self.new.working ≡ None }
        ensures last { self.new.last ≡ self.old.last }
        ensures horizon { self.new.horizon ≡ self.old.horizon }
        ensures versions { (t : ℕ) (m : ℤ) → self.old.working ≡ Some m
            → SameBag (live self.new t) (undone m (live self.old t)) }
        ensures copies { RollbackRestores self.old self.new }
    {
        let moment = self.moment();
        undo_each(&mut self.rows, &self.touched, moment);
        self.touched.clear();
        self.working = None;
    }

    /// Removes history (this project's addition): from each table with history, the closed versions that end at or
    /// before the horizon. The horizon, in microseconds since 1970-01-01, may be later than the last commit. Frees the
    /// removed rows, and allocates no memory. Looks at each closed version of all tables once; for each one that is
    /// removed, the time is a logarithm of their number.
    pub fn prune(&mut self, horizon: i64)
        requires closed { IsNone self.old.working }
        requires later { self.old.horizon ≤ℤ horizon }
        ensures tables { self.new.tables ≡ self.old.tables }
        ensures working { self.new.working ≡ self.old.working }
        ensures last { self.new.last ≡ self.old.last }
        ensures horizon { self.new.horizon ≡ horizon }
        ensures versions { (t : ℕ) → SameBag (live self.new t)
            (if is_brief (slot_at self.old.tables t) then live self.old t else left_by horizon (live self.old t)) }
        ensures copies { PrunesCopies horizon self.old self.new }
    {
        prune_each(&mut self.rows, horizon);
        self.horizon = horizon;
    }

    /// Returns the versions of a table selected by FOR SYSTEM_TIME (ISO/IEC 9075-2:2011, 7.6). For an unversioned table
    /// these are the current rows, each as a version that is not closed.
    pub fn found(&self, table: TableId, when: When) -> Result<Vec<Version<'_>, Memory>, AllocError>
        requires there { IsTrue (table_there self.now table) }
        requires versioned { IsTrue (is_now (when_of when) || table_versioned self.now table) }
        ensures versions { IfOk result
            (λ found. SameBag (map version_of found.items) (filter (asked when) (live self.now table))) }
        ensures ids { IfOk result (λ found. All (Names self.now table) found.items) }
        ensures once { IfOk result (λ found. NamesOnce self.now table (asked when) found.items) }
        ensures copies { IfOk result (λ found. Answers self.now table (when_of when) (map version_of found.items)) }
    {
        let found = self.rows[usize::from(table.number())].found(self.memory, when)?;
        Ok(found)
    }

    /// Returns the versions of a table stored as current; the id of each is its position. The open ones (`if_open`
    /// of `tql_versions`) are the current rows. Allocates no memory.
    pub fn current(&self, table: TableId) -> &[Kept]
        requires { IsTrue (table_there self.now table) }
        ensures { AreRowsNow self.now table (versions_of result.now) }
    {
        self.rows[usize::from(table.number())].current()
    }

    /// Returns the number of current rows of a table if no version has to be read for it: unless the open transaction
    /// has ended some. Allocates no memory.
    pub fn count(&self, table: TableId) -> Option<usize>
        requires { IsTrue (table_there self.now table) }
        ensures { IfSome result (CountsNow self.now table) }
    {
        self.rows[usize::from(table.number())].count()
    }

    /// Returns the versions of a table that `when` selects and whose rows match the lookup.
    fn search(
        &self,
        table: TableId,
        when: When,
        sought: Sought<'_>,
    ) -> Result<Vec<Version<'_>, Memory>, AllocError>
        requires there { IsTrue (table_there self.now table) }
        requires versioned { IsTrue (is_now (when_of when) || table_versioned self.now table) }
        ensures { IfOk result (λ found. IsFound self.now table when (is_sought (sought_of sought.entry)) found.items) }
    {
        let found = self.rows[usize::from(table.number())].search(self.memory, when, Some(sought))?;
        Ok(found)
    }

    /// Returns the versions of a table selected by FOR SYSTEM_TIME (ISO/IEC 9075-2:2011, 7.6); if a lookup is given,
    /// only those whose rows match it.
    pub fn look(
        &self,
        table: TableId,
        when: When,
        sought: Option<Sought<'_>>,
    ) -> Result<Vec<Version<'_>, Memory>, AllocError>
        requires there { IsTrue (table_there self.now table) }
        requires versioned { IsTrue (is_now (when_of when) || table_versioned self.now table) }
        ensures { IfOk result
            (λ found. IsFound self.now table when (is_looked_at (option_map sought_of sought.entry)) found.items) }
    {
        match sought {
            None => self.found(table, when),
            Some(sought) => self.search(table, when, sought),
        }
    }

    /// Returns what `look` returns for the store when the commit of the pin, in microseconds since 1970-01-01, was the
    /// last one; no pin: before any commit.
    pub(crate) fn look_at(
        &self,
        pin: Option<i64>,
        table: TableId,
        when: When,
        sought: Option<Sought<'_>>,
    ) -> Result<Vec<Version<'_>, Memory>, AllocError>
        requires { IsTrue (table_there (pinned pin self.now) table) }
        ensures { IfOk result (λ found. IsFound (pinned pin self.now) table when
            (is_looked_at (option_map sought_of sought.entry)) found.items) }
    {
        let memory = self.memory;
        let Some(pin) = pin else {
            return Ok(Vec::new(memory));
        };
        let found = self.look(table, question_at(pin, when), sought)?;
        versions_at(memory, pin, &found)
    }

    /// Returns the current rows of a table with these values in these columns, each as a version that is not closed;
    /// NULL equals nothing. If the table was added with these columns, reads other rows only on a hash collision.
    pub fn with_key(
        &self,
        table: TableId,
        columns: &[usize],
        tuple: &[View<'_>],
    ) -> Result<Vec<Version<'_>, Memory>, AllocError>
        requires { IsTrue (table_there self.now table) }
        ensures { IfOk result
            (λ found. IsFound self.now table Now (is_at columns.now (map datum_of_view tuple.now)) found.items) }
    {
        self.search(table, When::Now, Sought::With(columns, tuple))
    }

    /// Returns the current rows of a table with these values in these columns whose period, from the first of two
    /// columns to the second, shares a point with this one.
    pub fn with_key_in(
        &self,
        table: TableId,
        columns: &[usize],
        tuple: &[View<'_>],
        ends: (usize, usize),
        period: Period,
    ) -> Result<Vec<Version<'_>, Memory>, AllocError>
        requires { IsTrue (table_there self.now table) }
        ensures { IfOk result (λ found. IsFound self.now table Now
            (λ row. is_at columns.now (map datum_of_view tuple.now) row
            && share_a_point (period_between row ends.0 ends.1) (points_of period)) found.items) }
    {
        self.search(
            table,
            When::Now,
            Sought::WithIn(columns, tuple, ends.0, ends.1, period),
        )
    }

    /// Returns the versions of a table selected by FOR SYSTEM_TIME (ISO/IEC 9075-2:2011, 7.6) with these values in
    /// these columns; NULL equals nothing. If the table was added with these columns, reads only versions with these
    /// values, current or closed, and others only on a hash collision.
    pub fn found_with(
        &self,
        table: TableId,
        columns: &[usize],
        tuple: &[View<'_>],
        when: When,
    ) -> Result<Vec<Version<'_>, Memory>, AllocError>
        requires there { IsTrue (table_there self.now table) }
        requires versioned { IsTrue (is_now (when_of when) || table_versioned self.now table) }
        ensures { IfOk result
            (λ found. IsFound self.now table when (is_at columns.now (map datum_of_view tuple.now)) found.items) }
    {
        self.search(table, when, Sought::With(columns, tuple))
    }

    /// Returns the current rows of a table whose period, from the first column to the second, contains the point, in
    /// days or microseconds since 1970-01-01.
    pub fn holding(
        &self,
        table: TableId,
        columns: (usize, usize),
        point: i64,
    ) -> Result<Vec<Version<'_>, Memory>, AllocError>
        requires { IsTrue (table_there self.now table) }
        ensures { IfOk result
            (λ found. IsFound self.now table Now
            (λ row. holds (period_between row columns.0 columns.1) point) found.items) }
    {
        self.search(
            table,
            When::Now,
            Sought::Holding(columns.0, columns.1, point),
        )
    }

    /// Returns the current rows of a table whose period, from the first column to the second, shares a point with this
    /// one.
    pub fn sharing(
        &self,
        table: TableId,
        columns: (usize, usize),
        period: Period,
    ) -> Result<Vec<Version<'_>, Memory>, AllocError>
        requires { IsTrue (table_there self.now table) }
        ensures { IfOk result
            (λ found. IsFound self.now table Now
            (λ row. share_a_point (period_between row columns.0 columns.1) (points_of period)) found.items) }
    {
        self.search(
            table,
            When::Now,
            Sought::Sharing(columns.0, columns.1, period),
        )
    }

    /// Returns the current row of a table with this id, as a version that is not closed; none if there is none.
    /// Allocates no memory and reads no other row.
    pub fn row(&self, table: TableId, id: usize) -> Option<Version<'_>>
        requires { IsTrue (table_there self.now table) }
        ensures row { option_map version_of result ≡ current_named self.now table id }
        ensures id { IfSome result (λ v. v.id ≡ id) }
    {
        self.rows[usize::from(table.number())].row(id)
    }
}
