/// Which report is asked for.
#[derive(Clone, Copy, Debug, PartialEq, Eq)]
pub enum Request<A = u32> {
    /// Every route of every peer's table.
    Tables,
    /// For each prefix, the number of peers whose table has it.
    Visibility,
    /// The prefixes with routes of two or more origin ASes.
    Origins,
    /// For each prefix and origin AS, the number of peers that have such a route.
    Seen,
    /// For each peer, what its units did to its table, from this second on, since 1970 UTC; with `None` all of it.
    Churn { since: Option<u64> },
    /// The peers, whether each is up, its numbers of routes and units, and when and where these begin.
    Peers,
    /// For each peer, the routes of the longest prefix that contains this address.
    Match(A),
    /// The records and units that are damaged.
    Faults,
    /// What happened to each key, from this second on, since 1970 UTC; with `None` all of it. Announcements of the
    /// route that was there are listed only with `same`.
    History { since: Option<u64>, same: bool },
}
