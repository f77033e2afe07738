//! What a plan is done over.

/// Files, and what is known of where it is done.
#[derive(Drop)]
pub struct Host<'a, F> {
    /// The files.
    pub files: &'a F,
    /// Linux's library of helpers may be joined by itself.
    pub wants_linux: bool,
    /// The path of that library, where one is known.
    pub linux: Option<&'a str>,
    /// The folder of its parts, where one is known.
    pub parts: Option<&'a str>,
    /// Standard error is a terminal.
    pub at_terminal: bool,
}
