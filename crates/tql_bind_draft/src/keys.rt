//! The keys of a new table.
ghost use Rattle.std.specs.Prelude.{◌≡◌, IfOk, map};
ghost use Rattle.std.specs.List.{list_any};
ghost use Rattle.tql_spec.specs.Names.{check_each};
ghost use Rattle.tql_catalog.specs.Definitions as catalog;
ghost use Rattle.tql_catalog.specs.Definitions.{application_of};
ghost use Rattle.tql_bind_expr.specs.Gathered.{Gathers};
ghost use Rattle.tql_bind_draft.specs.Drafts.{key_part, has_primary, primary_count_in, written_of, key_in};
ghost use Rattle.tql_bind_draft.specs.Drafts.{applications_in, names_of_periods};
ghost use Rattle.tql_bind_draft.specs.PeriodNames.{AreNames, names_of_bound};

use crate::draft::{Draft, NewKey};
use crate::lists::listed_columns;
use std::alloc::AllocError;
use tql_bind_expr::faults::Faults;
use tql_bind_expr::repeats::has_name;
use tql_catalog::constraint::Key;
use tql_catalog::definition::Application;
use tql_memory::Memory;

/// Whether a primary key lists the column of this name.
pub fn is_in_primary(keys: &[NewKey], name: &str) -> bool
    ensures { result ≡ list_any (has_primary name.now) (map key_part keys.now) }
{
    for key in keys {
        if key.is_primary && has_name(&key.list.columns, name) {
            return true;
        }
    }
    false
}

/// Returns the number of primary keys.
pub fn primary_count(keys: &[NewKey]) -> usize
    ensures { result ≡ primary_count_in (map key_part keys.now) }
{
    keys.iter().filter(|key| key.is_primary).count()
}

/// Binds a key. Faults: those of its columns. The only error is a refused allocation.
#[tactic(auto, using(tql_bind_expr::proofs::Gathering::gathering))]
fn bound_key(
    memory: Memory,
    draft: &Draft<'_>,
    applications: &[Application],
    key: &NewKey,
    faults: &mut Faults,
) -> Result<Key, AllocError>
    requires names { AreNames draft.now.names (names_of_periods (applications_in draft.now)) }
    requires bound { AreNames draft.now.names (names_of_bound (map application_of applications.now)) }
    ensures { IfOk result
        (λ k. Gathers (key_in (written_of draft.now) (map application_of applications.now) (key_part key.now))
        faults.old faults.new (catalog.key_of k)) }
{
    let columns = listed_columns(memory, draft, applications, &key.list, faults)?;
    Ok(Key {
        name: key.name.clone()?,
        columns,
        by_period: key.list.period.is_some(),
    })
}

/// Binds the keys, in the order of the statement. Faults: those of each. The only error is a refused allocation.
pub fn bound_keys(
    memory: Memory,
    draft: &Draft<'_>,
    applications: &[Application],
    keys: &[NewKey],
    faults: &mut Faults,
) -> Result<Vec<Key, Memory>, AllocError>
    requires names { AreNames draft.now.names (names_of_periods (applications_in draft.now)) }
    requires bound { AreNames draft.now.names (names_of_bound (map application_of applications.now)) }
    ensures { IfOk result
        (λ ks. Gathers (check_each (key_in (written_of draft.now) (map application_of applications.now))
        (map key_part keys.now)) faults.old faults.new (map catalog.key_of ks.items)) }
{
    let mut bound = Vec::with_capacity(memory, keys.len())?;
    for key in keys {
        bound.push(bound_key(memory, draft, applications, key, faults)?)?;
    }
    Ok(bound)
}
