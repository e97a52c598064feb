//! A whole statement, which one call drops.
use crate::statement::Statement;

/// The tree of a statement. The owner drops it with one call, whatever the statement is.
pub struct Tree<'a> {
    pub statement: Statement<'a>,
}

impl<'a> Drop for Tree<'a> {
    fn drop(self) {
        let Tree { statement } = self;
        let _statement = statement;
    }
}
