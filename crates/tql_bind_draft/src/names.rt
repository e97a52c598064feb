//! The names of a new table: those of its columns and of its application periods.
ghost use Rattle.std.specs.Prelude.{◌≡◌, ◌++◌, is_some, map};
ghost use Rattle.std.specs.List.{flat_map};
ghost use Rattle.tql_spec.specs.Creation as spec;
ghost use Rattle.tql_spec.specs.Creation.{part_names};
ghost use Rattle.tql_bind_draft.specs.Drafts.{column_of, application_part, names_in, names_of_periods, implied_in};
ghost use Rattle.tql_bind_draft.specs.Drafts.{columns_in, applications_in, key_part};
ghost use Rattle.tql_bind_draft.specs.PeriodNames.{AreNames};

use crate::columns::has_column;
use crate::draft::{Draft, NewApplication, NewColumn, NewKey};
use crate::keys::is_in_primary;
use tql_bind_expr::texts::is_same_text;

/// Whether an application period of the new table has this name.
pub fn is_period(draft: &Draft<'_>, name: &str) -> bool
    requires { AreNames draft.now.names (names_of_periods (applications_in draft.now)) }
    ensures { result ≡ spec.has_name name.now (names_of_periods (applications_in draft.now)) }
{
    draft.names.place_of(name).is_some()
}

/// Returns the byte offset of the name of the application period at this position.
fn period_start(periods: &[NewApplication], place: usize) -> u32 {
    match periods.get(place) {
        Some(period) => period.name.start,
        None => 0,
    }
}

/// Returns the byte offset of the first name that two application periods have.
fn repeated_period(draft: &Draft<'_>) -> Option<u32>
    requires { AreNames draft.now.names (names_of_periods (applications_in draft.now)) }
    ensures { is_some result ≡ spec.repeats (names_of_periods (applications_in draft.now)) }
{
    match draft.names.repeated() {
        Some(place) => Some(period_start(&draft.applications, place)),
        None => None,
    }
}

/// Whether one of these columns or an application period of the new table has this name.
fn is_taken(columns: &[NewColumn<'_>], draft: &Draft<'_>, name: &str) -> bool
    requires { AreNames draft.now.names (names_of_periods (applications_in draft.now)) }
    ensures { result ≡ spec.has_name name.now
        (names_in (map column_of columns.now) ++ names_of_periods (applications_in draft.now)) }
{
    has_column(columns, name) || is_period(draft, name)
}

/// Returns the byte offset of the first name that occurs twice among the columns and application periods.
pub fn repeated_name(draft: &Draft<'_>) -> Option<u32>
    requires { AreNames draft.now.names (names_of_periods (applications_in draft.now)) }
    ensures { is_some result
        ≡ spec.repeats (names_in (columns_in draft.now) ++ names_of_periods (applications_in draft.now)) }
{
    let mut left = draft.columns.as_slice();
    while let [column, others @ ..] = left {
        if is_taken(others, draft, &column.name.text) {
            return Some(column.name.start);
        }
        left = others;
    }
    repeated_period(draft)
}

/// Whether the column of this name is a column of an application period.
fn is_of_period(periods: &[NewApplication], name: &str) -> bool
    ensures { result ≡ spec.has_name name.now (flat_map part_names (map application_part periods.now)) }
{
    for period in periods {
        if is_same_text(name, &period.start.text) || is_same_text(name, &period.end.text) {
            return true;
        }
    }
    false
}

/// Whether the column of this name is a column of an application period or of a primary key.
#[tactic(auto, using(crate::proofs::ListLaws::implied_by))]
pub fn is_implied(periods: &[NewApplication], keys: &[NewKey], name: &str) -> bool
    ensures { result ≡ spec.has_name name.now
        (implied_in (map application_part periods.now) (map key_part keys.now)) }
{
    is_of_period(periods, name) || is_in_primary(keys, name)
}
