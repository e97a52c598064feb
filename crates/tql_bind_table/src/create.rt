//! New tables: the faults of a CREATE TABLE, and the definition that it gives.
ghost use Rattle.std.specs.Prelude.{◌≡◌, ◌||◌, ◌==◌, IsTrue, map, not, IfOk, string_bytes, length, nat_le, is_some};
ghost use Rattle.std.specs.Prelude.{if◌then◌else◌, nat_lt};
ghost use Rattle.tql_spec.specs.Binding.{bind};
ghost use Rattle.tql_spec.specs.Creation as spec;
ghost use Rattle.tql_spec.specs.Creation.{several};
ghost use Rattle.tql_spec.specs.Machine.{CreateTable};
ghost use Rattle.tql_spec.specs.Names.{refuse_for};
ghost use Rattle.tql_catalog.specs.Definitions as catalog;
ghost use Rattle.tql_catalog.specs.Tables.{definitions_of};
ghost use Rattle.tql_bind_expr.specs.Gathered.{Gathers};
ghost use Rattle.tql_syntax_tree.specs.Statements.{create_of};
ghost use Rattle.tql_bind_table.specs.Binds.{Binds};
ghost use Rattle.tql_bind_check.specs.Checking.{checks_in, elements_in};
ghost use Rattle.tql_bind_draft.specs.Drafts.{column_of, application_part, columns_in, applications_in, systems_in};
ghost use Rattle.tql_bind_draft.specs.Drafts.{implied_in, starts_in, stops_in, key_part, keys_in, written_of};
ghost use Rattle.tql_bind_draft.specs.Drafts.{names_of_periods, primary_count_in};
ghost use Rattle.tql_bind_draft.specs.PeriodNames.{AreNames};
ghost use Rattle.tql_bind_table.specs.NewTables.{whole_in, create_in, table_of};

use crate::checks::table_checks;
use crate::references::bound_references;
use std::alloc::AllocError;
use tql_bind_draft::columns::{
    are_all_generated, end_count, has_misfit, kind_of, limit_of, misfit, start_count,
};
use tql_bind_draft::draft::{Draft, NewApplication, NewColumn, NewKey, draft_of};
use tql_bind_draft::keys::{bound_keys, primary_count};
use tql_bind_draft::names::{is_implied, repeated_name};
use tql_bind_draft::periods::{
    application_periods, first_application, first_system, system_periods,
};
use tql_bind_expr::about::{About, Cause};
use tql_bind_expr::faults::Faults;
use tql_bind_expr::texts::{is_same_text, meant};
use tql_catalog::catalog::Catalog;
use tql_catalog::constraint::{Checks, Key, Reference};
use tql_catalog::definition::{Application, Column, System};
use tql_catalog::table_def::TableDef;
use tql_memory::Memory;
use tql_syntax_tree::statement::CreateTree;
use tql_value::refusal::Refusal;

/// The columns, periods, keys, references and checks of a new table, in the order of the statement. Columns are given
/// by number.
pub struct Parts {
    pub columns: Vec<Column, Memory>,
    pub applications: Vec<Application, Memory>,
    pub systems: Vec<System, Memory>,
    pub keys: Vec<Key, Memory>,
    pub references: Vec<Reference, Memory>,
    pub checks: Checks,
}

impl Drop for Parts {
    fn drop(self) {
        let Parts {
            columns,
            applications,
            systems,
            keys,
            references,
            checks,
        } = self;
        drop(columns);
        drop(applications);
        drop(systems);
        drop(keys);
        drop(references);
        drop(checks);
    }
}

impl Parts {
    ghost use Rattle.std.specs.Prelude.{◌≡◌, IfOk, IsTrue, string_bytes};
    ghost use Rattle.tql_catalog.specs.Defined.{are_constraints, is_definable};
    ghost use Rattle.tql_bind_table.specs.NewTables.{table_of};

    /// Returns the definition that has these parts. The only error is a refused allocation.
    fn definition(self, memory: Memory, name: String<Memory>) -> Result<TableDef, AllocError>
        requires definable { let t = table_of (string_bytes name) self in IsTrue
            (is_definable t.columns t.system t.application) }
        requires constrained { let t = table_of (string_bytes name) self in IsTrue
            (are_constraints t t.keys t.references t.checks) }
        ensures { IfOk result (λ d. d ≡ table_of (string_bytes name.entry) self) }
    {
        let Parts {
            columns,
            applications,
            systems,
            keys,
            references,
            checks,
        } = self;
        let system = first_system(&systems);
        let application = first_application(memory, &applications)?;
        let table = TableDef::new(memory, name, columns, system, application)?;
        Ok(table.with_constraints(keys, references, checks))
    }
}

/// Whether there are several application periods or several system periods.
fn has_several(draft: &Draft<'_>) -> bool
    ensures { result ≡ (several (applications_in draft.now) || several (systems_in draft.now)) }
{
    1 < draft.applications.len() || 1 < draft.systems.len()
}

/// Whether there is not exactly one system period with WITH SYSTEM VERSIONING, or there is one without it.
fn has_wrong_systems(draft: &Draft<'_>, is_versioned: bool) -> bool
    ensures { result ≡ not (length (systems_in draft.now) == (if is_versioned then 1 else 0)) }
{
    draft.systems.len() != usize::from(is_versioned)
}

/// Whether the number of ROW START columns, or of ROW END columns, differs from the number of system periods.
fn has_wrong_ends(draft: &Draft<'_>) -> bool
    ensures { result ≡ (not (length (starts_in (columns_in draft.now)) == length (systems_in draft.now))
        || not (length (stops_in (columns_in draft.now)) == length (systems_in draft.now))) }
{
    start_count(&draft.columns) != draft.systems.len()
        || end_count(&draft.columns) != draft.systems.len()
}

/// Whether there are several primary keys.
fn has_several_primaries(draft: &Draft<'_>) -> bool
    ensures { result ≡ nat_lt 1 (primary_count_in (keys_in draft.now)) }
{
    1 < primary_count(&draft.keys)
}

/// Returns the cause and place of the fault that there are several periods of one sort: the second of them.
fn second_period(draft: &Draft<'_>) -> About {
    if let Some(period) = draft.applications.get(1) {
        return About::at(Cause::SecondPeriod, period.name.start);
    }
    match draft.systems.get(1) {
        Some(period) => About::at(Cause::SecondPeriod, period.start.start),
        None => About::unknown(),
    }
}

/// Returns the cause and place of the fault that a versioned table has no system period, or the reverse.
fn wrong_systems(is_versioned: bool, start: u32) -> About {
    let cause = if is_versioned {
        Cause::NoSystemPeriod
    } else {
        Cause::NoVersioning
    };
    About::at(cause, start)
}

/// Returns the cause and place of the fault that there are too many or too few generated columns.
fn wrong_generated(draft: &Draft<'_>, start: u32) -> About {
    About::at(Cause::WrongGenerated, start).counts(
        start_count(&draft.columns),
        end_count(&draft.columns),
    )
}

/// Returns the cause and place of the fault that there are several primary keys: the second of them.
fn second_primary(keys: &[NewKey]) -> About {
    let mut is_seen = false;
    for key in keys {
        if key.is_primary && is_seen {
            return About::at(Cause::SecondPrimary, key.list.column_start(0));
        }
        is_seen = is_seen || key.is_primary;
    }
    About::unknown()
}

/// Returns the cause and place of the fault that a name is repeated.
fn about_name(repeated: Option<u32>) -> About {
    match repeated {
        Some(start) => About::at(Cause::Repeated, start),
        None => About::unknown(),
    }
}

/// Adds the faults of the table as a whole.
fn whole_faults(
    tables: &Catalog,
    name: &str,
    start: u32,
    draft: &Draft<'_>,
    is_versioned: bool,
    faults: &mut Faults,
)
    requires { AreNames draft.now.names (names_of_periods (applications_in draft.now)) }
    ensures { Gathers (refuse_for
        (whole_in (definitions_of tables.now) name.now (written_of draft.now) is_versioned))
        faults.old faults.new tt }
{
    faults.refuse_if(
        tables.place_of(name).is_some(),
        Refusal::TableUnknownOrAlreadyThere,
        About::at(Cause::TableThere, start),
    );
    let repeated = repeated_name(draft);
    faults.refuse_if(
        repeated.is_some(),
        Refusal::NameUnknownAmbiguousOrRepeated,
        about_name(repeated),
    );
    faults.refuse_if(
        has_misfit(&draft.columns),
        Refusal::TypesDoNotFit,
        misfit(&draft.columns),
    );
    faults.refuse_if(
        are_all_generated(&draft.columns),
        Refusal::FormNotAllowedHere,
        About::at(Cause::AllGenerated, start),
    );
    faults.refuse_if(
        has_several(draft),
        Refusal::FormNotAllowedHere,
        second_period(draft),
    );
    faults.refuse_if(
        has_wrong_systems(draft, is_versioned),
        Refusal::FormNotAllowedHere,
        wrong_systems(is_versioned, start),
    );
    faults.refuse_if(
        has_wrong_ends(draft),
        Refusal::FormNotAllowedHere,
        wrong_generated(draft, start),
    );
    faults.refuse_if(
        has_several_primaries(draft),
        Refusal::FormNotAllowedHere,
        second_primary(&draft.keys),
    );
    faults.refuse_if(
        1000 <= tables.len(),
        Refusal::TooManyTablesOrReaders,
        About::at(Cause::TooManyTables, start),
    );
}

/// Returns the column of the definition. It takes no null if it is NOT NULL, or is a column of an application period or
/// of a primary key.
fn definition_column(
    memory: Memory,
    column: &NewColumn<'_>,
    periods: &[NewApplication],
    keys: &[NewKey],
) -> Result<Column, AllocError>
    ensures { IfOk result
        (λ c. catalog.column_of c
        ≡ spec.column (implied_in (map application_part periods.now) (map key_part keys.now))
        (column_of column.now)) }
{
    Ok(Column {
        name: column.name.text.clone()?,
        kind: kind_of(column.type_name),
        limit: limit_of(column.type_name),
        is_required: column.is_required || is_implied(periods, keys, &column.name.text),
    })
}

/// Returns the columns of the definition.
fn definitions(
    memory: Memory,
    columns: &[NewColumn<'_>],
    periods: &[NewApplication],
    keys: &[NewKey],
) -> Result<Vec<Column, Memory>, AllocError>
    ensures { IfOk result
        (λ cs. map catalog.column_of cs.items
        ≡ map (spec.column (implied_in (map application_part periods.now) (map key_part keys.now)))
        (map column_of columns.now)) }
{
    let mut definitions = Vec::with_capacity(memory, columns.len())?;
    for column in columns {
        definitions.push(definition_column(memory, column, periods, keys)?)?;
    }
    Ok(definitions)
}

/// Binds the columns, periods, keys, references and checks of a new table. Adds every fault of its definition.
fn parts_of(
    memory: Memory,
    tables: &Catalog,
    name: &str,
    create: &CreateTree<'_>,
    draft: &Draft<'_>,
    faults: &mut Faults,
) -> Result<Parts, AllocError>
    requires { AreNames draft.now.names (names_of_periods (applications_in draft.now)) }
    ensures { IfOk result
        (λ p. Gathers (create_in (definitions_of tables.now) name.now (written_of draft.now)
        (checks_in (elements_in create.now)) create.now.is_versioned) faults.old faults.new (table_of name.now p)) }
{
    whole_faults(
        tables,
        name,
        create.table.start,
        draft,
        create.is_versioned,
        faults,
    );
    let applications = application_periods(memory, &draft.columns, &draft.applications, faults)?;
    let systems = system_periods(memory, &draft.columns, &draft.systems, faults)?;
    let keys = bound_keys(memory, draft, &applications, &draft.keys, faults)?;
    let references = bound_references(
        memory,
        tables,
        draft,
        &applications,
        &draft.references,
        faults,
    )?;
    let columns = definitions(memory, &draft.columns, &draft.applications, &draft.keys)?;
    let checks = table_checks(
        memory,
        name,
        create,
        draft,
        &columns,
        &applications,
        &systems,
        faults,
    )?;
    Ok(Parts {
        columns,
        applications,
        systems,
        keys,
        references,
        checks,
    })
}

/// Returns the definition that a CREATE TABLE gives. Refused for memory, or for the first of these faults:
///
/// - A table of that name exists, or the parent of a reference does not.
/// - A name occurs twice among the columns and application periods, or in the list of a key or a reference. A column or
///   a period is unknown.
/// - A length or a precision is not allowed. The columns of an application period are neither both DATE nor both
///   TIMESTAMP, or a column of the system period is not TIMESTAMP. The types of the two sides of a reference differ.
/// - A form is not allowed. No column can be assigned by a user. There are several application periods, system periods
///   or primary keys. A period names one column twice. An application period, a key or a reference names a generated
///   column. A key or a reference names a column of its own period. A reference names a period on one side only, or
///   columns that are no key of its parent. A CHECK contains an aggregate, a generated column or the system period.
///   There is a system period without WITH SYSTEM VERSIONING, or the reverse. The generated columns are not one ROW
///   START and one ROW END, named by the system period in that order.
/// - There are already 1,000 tables.
///
/// The condition of a CHECK also has its own faults.
pub fn new_table(
    memory: Memory,
    tables: &Catalog,
    create: &CreateTree<'_>,
) -> Result<TableDef, Refusal>
    ensures { Binds CreateTable (bind (definitions_of tables.now) (create_of create.now)) result }
{
    let name = meant(memory, create.table)?;
    let draft = draft_of(memory, create)?;
    let mut faults = Faults::none();
    let parts = parts_of(memory, tables, &name, create, &draft, &mut faults)?;
    match faults.least() {
        Some(fault) => Err(fault),
        None => Ok(parts.definition(memory, name)?),
    }
}

/// Replaces the cause that no table has a name by the cause that a table references itself, if the name is the new
/// table's own.
fn or_own_parent(about: About, name: &str, draft: &Draft<'_>) -> About {
    if about.cause == Cause::NoTable {
        for reference in &draft.references {
            if reference.parent.start == about.at && is_same_text(name, &reference.parent.text) {
                return About::at(Cause::OwnParent, about.at);
            }
        }
    }
    about
}

/// Returns the cause and place of the first fault of a CREATE TABLE. Without a fault, the cause is unknown. The only
/// error is a refused allocation.
pub fn about_table(
    memory: Memory,
    tables: &Catalog,
    create: &CreateTree<'_>,
) -> Result<About, AllocError> {
    let name = meant(memory, create.table)?;
    let draft = draft_of(memory, create)?;
    let mut faults = Faults::none();
    let _parts = parts_of(memory, tables, &name, create, &draft, &mut faults)?;
    Ok(or_own_parent(faults.about(), &name, &draft))
}
