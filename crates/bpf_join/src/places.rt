//! Where the parts of a joined object lie in its file.

/// Where each part begins, in bytes from the start of the file. Each ends where the next begins.
#[derive(Clone, Copy)]
pub struct Places {
    /// The second object's bytes.
    pub second: usize,
    /// The code.
    pub code: usize,
    /// The strings of names.
    pub strings: usize,
    /// The symbols.
    pub symbols: usize,
    /// The relocations of the code.
    pub relocations: usize,
    /// The records of maps.
    pub records: usize,
    /// The table of sections.
    pub end: usize,
}
