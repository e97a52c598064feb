//! The stored columns of a scan. ROW START and ROW END are generated, so the columns after them have lower numbers in
//! storage.
ghost use Rattle.std.specs.Prelude.{◌≡◌, IsTrue, is_some};
ghost use Rattle.std.specs.Option.{ForSome};
ghost use Rattle.tql_expr.specs.Generated.{generated};
ghost use Rattle.tql_plan.specs.Keyed.{is_stored_in, IsStoredIn};

use crate::plan::Scan;

/// Whether a column is stored: not one of the generated columns. False if these are not two different columns below
/// `width`.
fn is_stored(system: Option<(usize, usize)>, width: usize, column: usize) -> bool
    ensures { result ≡ is_stored_in (generated system) width column }
{
    match system {
        Some((start, end)) => {
            start < width && end < width && start != end && column != start && column != end
        }
        None => true,
    }
}

/// Returns the number of a stored column among the stored columns, from 0: the generated columns before it are not
/// counted.
fn number_in(system: Option<(usize, usize)>, width: usize, column: usize) -> usize
    requires { IsTrue (is_stored_in (generated system) width column) }
    ensures { IsStoredIn (generated system) width column result }
{
    match system {
        Some((start, end)) => match (start < column, end < column) {
            (false, false) => column,
            (true, false) => column - 1,
            (false, true) => column - 1,
            (true, true) => column - 2,
        },
        None => column,
    }
}

impl Scan {
    /// Returns the number of a column among the stored columns, from 0. None for ROW START and ROW END. None for every
    /// column if these are not two different columns of the scan.
    pub fn stored_number(&self, column: usize) -> Option<usize>
        ensures stored { ForSome result (IsStoredIn (generated self.now.system) self.now.width column) }
        ensures there { is_some result ≡ is_stored_in (generated self.now.system) self.now.width column }
    {
        if is_stored(self.system, self.width, column) {
            Some(number_in(self.system, self.width, column))
        } else {
            None
        }
    }
}
