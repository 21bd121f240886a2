//! How statements are logged.

/// How a session's statements are logged, the variable binlog_format: by their texts, by the rows that they changed, or each by its
/// text where there is no reason for which that is unsafe, and else by its rows.
#[derive(Clone, Copy)]
pub enum Format {
    Statement,
    Mixed,
    Row,
}
