//! Equality of paths that may be absent.

ghost use Rattle.std.specs.Prelude.{◌≡◌};
ghost use Rattle.std.specs.Option.{option_eq};
ghost use Rattle.bgp_update.specs.PathEquality.{list_eq, segment_eq};

use crate::path::AsPath;

/// Whether both paths are absent, or both are present and equal.
pub(crate) fn are_paths_equal(one: &Option<AsPath>, other: &Option<AsPath>) -> bool
    ensures { result ≡ option_eq (list_eq segment_eq) one.now other.now }
{
    match (one, other) {
        (Some(one), Some(other)) => one.is_same(other),
        (None, None) => true,
        _ => false,
    }
}
