//! The versions of a table that a query reads.

/// Which versions of a table a query reads, by moments in microseconds since 1970-01-01: FOR SYSTEM_TIME of ISO/IEC
/// 9075-2:2011, 7.6 `<table reference>`.
#[derive(Clone, Copy)]
pub enum When {
    /// The current rows.
    Now,
    /// The versions whose period contains the moment.
    AsOf(i64),
    /// The versions whose period shares a moment with the range, without its end.
    FromTo(i64, i64),
    /// The versions whose period shares a moment with the range, including its end.
    Between(i64, i64),
}
