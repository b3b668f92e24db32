//! Where the trie is descended from a fork: for a prefix that is compared whole, or by its next bit alone.

ghost use Rattle.prefix_maps.specs.Directions.{IsDirection, IsSearchDirection};

use bgp_prefix::{Family, Prefix};

/// Where a prefix belongs in a fork.
pub(super) enum Direction {
    /// At the fork: it is the fork's prefix.
    Here,
    /// In the branch of the longer prefixes whose next bit is 0.
    Low,
    /// In the branch of the longer prefixes whose next bit is 1.
    High,
    /// Not in the fork: its prefix doesn't cover it.
    Outside,
}

/// Returns where a prefix belongs in the fork at the prefix `at`.
pub(super) fn direction_of<F: Family>(at: &Prefix<F>, prefix: &Prefix<F>) -> Direction
    ensures { IsDirection at.now prefix.now result }
{
    if at.len() >= prefix.len() {
        if at == prefix {
            Direction::Here
        } else {
            Direction::Outside
        }
    } else if !at.contains(prefix.addr()) {
        Direction::Outside
    } else if prefix.addr().bit_after(at.len()) {
        Direction::High
    } else {
        Direction::Low
    }
}

/// Returns where the search for a prefix continues from the fork at the prefix `at`. The bits that a branch's prefixes
/// share are not compared on the way down, since the search ends at a prefix that is compared whole.
pub(super) fn search_direction<F: Family>(at: &Prefix<F>, prefix: &Prefix<F>) -> Direction
    ensures { IsSearchDirection at.now prefix.now result }
{
    if at.len() < prefix.len() {
        if prefix.addr().bit_after(at.len()) {
            Direction::High
        } else {
            Direction::Low
        }
    } else if at == prefix {
        Direction::Here
    } else {
        Direction::Outside
    }
}
