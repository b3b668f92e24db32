//! What carries attributes, which decides how they are checked.

/// Where attributes appear.
#[derive(Clone, Copy, Debug, PartialEq, Eq)]
pub enum AttributeContext {
    /// A RIB entry (RFC 6396, 4.3.4).
    RibEntry,
    /// An UPDATE, with a path identifier before each prefix if `add_path` is set (RFC 7911, 3).
    Message { add_path: bool },
}
