//! What a further RIB dump does to the tables.

/// What a RIB dump does to the routes that were replayed before it.
#[derive(Clone, Copy, Debug, PartialEq, Eq)]
pub enum RibRule {
    /// Its entries are announcements like others. For a dump and the updates behind it, or the parts of one dump.
    Add,
    /// It replaces what came before: the first RIB record behind an index table clears the tables of all peers. For
    /// dumps one behind the other, as GoBGP appends them to one file: a route that has gone isn't in the next one.
    Replace,
}
