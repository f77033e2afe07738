//! In which form the rows of a trace are told.

/// A form of rows.
#[derive(Clone, Copy)]
pub enum Form {
    /// Lines of text.
    Text,
    /// Objects of JSON, one a line.
    Json,
}
