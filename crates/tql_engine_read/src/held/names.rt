//! Diagnostics of statements that are refused when their names are bound.

use crate::held::Held;
use crate::sense::read_statement;
use tql_bind::binder::about;
use tql_bind::limits::Limits;
use tql_bind_message::message::message;
use tql_detail::detail::Detail;
use tql_index::index::IntervalIndex;

impl<I: IntervalIndex> Held<'_, I> {
    /// Returns the detail of a fault of names, kinds, forms and literals, by binding the statement again.
    pub(super) fn name_detail(&self, text: &[u8]) -> Option<Detail> {
        let tree = read_statement(self.memory, text).ok()?;
        let limits = Limits {
            horizon: self.store.horizon(),
            readers: self.readers,
        };
        let about = about(self.memory, self.tables, &tree.statement, &limits).ok()?;
        message(self.memory, text, self.tables, about).ok()?
    }
}
