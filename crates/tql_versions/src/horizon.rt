//! Versions that a horizon keeps.
ghost use Rattle.std.specs.Prelude.{◌≡◌};
ghost use Rattle.tql_versions.specs.Changes.{stays as does_stay};
ghost use Rattle.tql_versions.specs.Views.{version_of};

use crate::kept::{Kept, is_open};

/// Whether a horizon keeps a version: one that ends after it, or that is not closed.
pub fn stays(version: &Kept, horizon: i64) -> bool
    ensures { result ≡ does_stay horizon (version_of version.now) }
{
    horizon < version.end || is_open(version)
}
