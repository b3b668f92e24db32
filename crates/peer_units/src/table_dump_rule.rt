//! What is done with TABLE_DUMP records.

/// What is done with TABLE_DUMP records (RFC 6396, 4.2): the RIB dumps of archives before some 2008, and those that
/// OpenBGPD makes by `dump table`.
#[derive(Clone, Copy, Debug, PartialEq, Eq)]
pub enum TableDumpRule {
    /// They are counted and not read.
    Aside,
    /// Each is an entry of its peer's RIB.
    Read,
}
