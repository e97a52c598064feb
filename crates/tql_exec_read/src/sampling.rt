//! Whether a lookup matches so many of a table's current rows that reading all of them takes less time.
//!
//! A row that an index finds takes as long as several that are read in the order in which they are stored. So the
//! lookup is tried on a sample of the rows first, which takes less time than the lookup of a few rows. If no row of the
//! small sample matches, few rows do. No contract says which way is taken: both give the same rows.
use tql_store_index::basis::Sought;
use tql_versions::kept::{Kept, is_open};

/// The number of rows in the small sample.
const FEW: u64 = 8;

/// The number of rows in the whole sample, if the table has as many.
const MANY: u64 = 64;

/// The step from each position of a sample to the next, where 2^64 is the number of rows: this divided by the golden
/// ratio. So the positions do not follow a pattern in the order of the rows.
const STEP: u64 = 11_400_714_819_323_198_485;

/// The number of rows that are read in the time in which a query looks up one, about.
pub const ROWS_OF_A_QUERY: u64 = 6;

/// The same for a change.
pub const ROWS_OF_A_CHANGE: u64 = 4;

/// Whether the version with a number in the sample is a current row that the lookup matches.
fn is_match(sought: Sought<'_>, versions: &[Kept], number: u64) -> bool {
    let part = number.wrapping_mul(STEP) >> 32;
    let place = part.wrapping_mul(versions.len() as u64) >> 32;
    match versions.get(place as usize) {
        Some(version) => is_open(version) && sought.takes(&version.row),
        None => false,
    }
}

/// Returns how many of the rows with these numbers in the sample the lookup matches.
fn matches_among(sought: Sought<'_>, versions: &[Kept], from: u64, to: u64) -> u64 {
    let mut count: u64 = 0;
    for number in from..to {
        if is_match(sought, versions, number) {
            count = count.saturating_add(1);
        }
    }
    count
}

/// Whether reading all of these versions takes less time than a lookup, by a sample of them: if in the time in which
/// one is looked up this number of them is read.
pub fn are_many(sought: Sought<'_>, versions: &[Kept], rows: u64) -> bool {
    let few = matches_among(sought, versions, 0, FEW);
    if few == 0 {
        return false;
    }
    let many = MANY.min(versions.len() as u64);
    let others = matches_among(sought, versions, FEW, many);
    few.saturating_add(others).saturating_mul(rows) > many.max(FEW)
}

/// Whether a query reads all of these current versions: if there is no lookup, or it takes more time.
pub(crate) fn are_read(sought: Option<Sought<'_>>, versions: &[Kept]) -> bool {
    match sought {
        None => true,
        Some(sought) => are_many(sought, versions, ROWS_OF_A_QUERY),
    }
}
