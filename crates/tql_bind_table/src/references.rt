//! The references of a new table to keys of existing tables.
ghost use Rattle.std.specs.Prelude.{◌≡◌, ◌++◌, All, IfOk, OnOk, map, option_map};
ghost use Rattle.tql_spec.specs.Words.{listed};
ghost use Rattle.tql_catalog.specs.Definitions as catalog;
ghost use Rattle.tql_catalog.specs.Definitions.{application_of};
ghost use Rattle.tql_catalog.specs.Tables.{definitions_of};
ghost use Rattle.tql_bind_expr.specs.Gathered.{Gathers};
ghost use Rattle.tql_bind_draft.specs.Drafts.{applications_in, names_of_periods, reference_part, written_of};
ghost use Rattle.tql_bind_draft.specs.PeriodNames.{AreNames, names_of_bound};
ghost use Rattle.tql_bind_table.specs.KeyLists.{AreTableKeys, IsParent};
ghost use Rattle.tql_bind_table.specs.NewTables.{reference_to, reference_in, flat_each};

use crate::parent_keys::{ParentKeys, parent_at};
use crate::parents::{
    differing, is_wrong_reference, kinds_differ, parent_columns, periods_differ, points_of,
    seek_period, wrong_reference,
};
use std::alloc::AllocError;
use tql_bind_draft::draft::{Draft, NewReference};
use tql_bind_draft::lists::listed_columns;
use tql_bind_expr::about::{About, Cause};
use tql_bind_expr::faults::Faults;
use tql_catalog::catalog::Catalog;
use tql_catalog::constraint::Reference;
use tql_catalog::definition::Application;
use tql_memory::Memory;
use tql_value::refusal::Refusal;

/// Binds a reference to this table. Adds a fault if, on either side, a column or a period is unknown or a column is
/// repeated; if a column is generated or is one of the named period; if the kinds of the two sides differ; or if only
/// one side names a period, or the parent's columns are no key of that sort. The only error is a refused allocation.
fn bound_to(
    memory: Memory,
    draft: &Draft<'_>,
    applications: &[Application],
    reference: &NewReference,
    parent: &ParentKeys<'_>,
    faults: &mut Faults,
) -> Result<Reference, AllocError>
    requires names { AreNames draft.now.names (names_of_periods (applications_in draft.now)) }
    requires bound { AreNames draft.now.names (names_of_bound (map application_of applications.now)) }
    requires keys { AreTableKeys parent.now }
    ensures { IfOk result
        (λ r. Gathers (reference_to (written_of draft.now) (map application_of applications.now)
        (reference_part reference.now) parent.now.definition.now) faults.old faults.new (catalog.reference_of r)) }
{
    let definition = parent.definition;
    let columns = listed_columns(memory, draft, applications, &reference.child, faults)?;
    let numbers = parent_columns(memory, definition, &reference.named.columns, faults)?;
    seek_period(definition, &reference.named, faults);
    let have_other_kinds = kinds_differ(&draft.columns, &columns, definition, &numbers);
    faults.refuse_if(
        have_other_kinds,
        Refusal::TypesDoNotFit,
        differing(draft, reference, &columns, definition, &numbers),
    );
    let have_other_points = periods_differ(draft, applications, reference, definition);
    faults.refuse_if(
        have_other_points,
        Refusal::TypesDoNotFit,
        points_of(reference),
    );
    let is_wrong = is_wrong_reference(reference, parent, &numbers);
    faults.refuse_if(
        is_wrong,
        Refusal::FormNotAllowedHere,
        wrong_reference(reference, parent.place),
    );
    Ok(Reference {
        columns,
        by_period: reference.child.period.is_some(),
        parent: reference.parent.text.clone()?,
        parent_columns: numbers,
        name: reference.name.clone()?,
    })
}

/// Binds a reference. Adds a fault and returns none if its parent table is not found. The only error is a refused
/// allocation.
#[tactic(auto, using(tql_bind_expr::proofs::Gathering::gathering))]
fn bound_reference<'a>(
    memory: Memory,
    tables: &'a Catalog,
    draft: &Draft<'_>,
    applications: &[Application],
    reference: &NewReference,
    parents: &mut Vec<ParentKeys<'a>, Memory>,
    faults: &mut Faults,
) -> Result<Option<Reference>, AllocError>
    requires names { AreNames draft.now.names (names_of_periods (applications_in draft.now)) }
    requires bound { AreNames draft.now.names (names_of_bound (map application_of applications.now)) }
    requires parents { All (IsParent (definitions_of tables.now)) parents.old.items }
    ensures parents { OnOk result (All (IsParent (definitions_of tables.now)) parents.new.items) }
    ensures reference { IfOk result
        (λ r. Gathers (reference_in (definitions_of tables.now) (written_of draft.now)
        (map application_of applications.now) (reference_part reference.now))
        faults.old faults.new (listed (option_map catalog.reference_of r))) }
{
    match tables.place_of(&reference.parent.text) {
        Some(place) => {
            let index = parent_at(memory, tables, place, parents)?;
            let parent = &parents[index];
            let bound = bound_to(memory, draft, applications, reference, parent, faults)?;
            Ok(Some(bound))
        }
        None => {
            faults.refuse_if(
                true,
                Refusal::TableUnknownOrAlreadyThere,
                About::at(Cause::NoTable, reference.parent.start),
            );
            Ok(None)
        }
    }
}

/// Adds a reference, if there is one.
fn add_reference(
    references: &mut Vec<Reference, Memory>,
    reference: Option<Reference>,
) -> Result<(), AllocError>
    ensures { OnOk result (map catalog.reference_of references.new.items
        ≡ map catalog.reference_of references.old.items
        ++ listed (option_map catalog.reference_of reference)) }
{
    match reference {
        Some(reference) => references.push(reference)?,
        None => {}
    }
    Ok(())
}

/// Binds the references, in the order of the statement. Faults: those of each. The only error is a refused allocation.
pub fn bound_references(
    memory: Memory,
    tables: &Catalog,
    draft: &Draft<'_>,
    applications: &[Application],
    references: &[NewReference],
    faults: &mut Faults,
) -> Result<Vec<Reference, Memory>, AllocError>
    requires names { AreNames draft.now.names (names_of_periods (applications_in draft.now)) }
    requires bound { AreNames draft.now.names (names_of_bound (map application_of applications.now)) }
    ensures { IfOk result
        (λ rs. Gathers (flat_each (reference_in (definitions_of tables.now) (written_of draft.now)
        (map application_of applications.now)) (map reference_part references.now))
        faults.old faults.new (map catalog.reference_of rs.items)) }
{
    let mut parents: Vec<ParentKeys<'_>, Memory> = Vec::new(memory);
    let mut bound = Vec::with_capacity(memory, references.len())?;
    for reference in references {
        let found = bound_reference(
            memory,
            tables,
            draft,
            applications,
            reference,
            &mut parents,
            faults,
        )?;
        add_reference(&mut bound, found)?;
    }
    Ok(bound)
}
