//! The columns of keys.
use tql_catalog::table_def::TableDef;

/// Whether `stored` lists the numbers of these columns among the stored columns, in the same order.
fn are_stored(definition: &TableDef, columns: &[usize], stored: &[usize]) -> bool {
    if columns.len() != stored.len() {
        return false;
    }
    for (column, place) in columns.iter().zip(stored.iter()) {
        if definition.assignable().get(*place) != Some(column) {
            return false;
        }
    }
    true
}

/// Whether the stored columns with these numbers are the columns of a key of the table.
pub(crate) fn is_key(definition: &TableDef, stored: &[usize]) -> bool {
    definition
        .keys()
        .iter()
        .any(|key| are_stored(definition, &key.columns, stored))
}
