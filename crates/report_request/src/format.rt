/// The form of the lines of a report.
#[derive(Clone, Copy, Debug, PartialEq, Eq)]
pub enum Format {
    /// Fields with `|` between them.
    Text,
    /// One JSON object a line (RFC 8259).
    Json,
}
