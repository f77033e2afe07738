//! The shapes of lines: words, and fields between them.

/// A field of a line, which is a member of its object.
#[derive(Clone, Copy)]
pub enum Field {
    /// A count: the name of the member, and the words behind it. Where there are none it is all
    /// that is left.
    Count(&'static [u8], &'static [u8]),
    /// A text, in the same way.
    Text(&'static [u8], &'static [u8]),
}

/// What may follow the fields of a line.
#[derive(Clone, Copy)]
pub enum Rest {
    /// Nothing.
    Nothing,
    /// What is told of a move, in pieces between semicolons.
    Moves,
    /// The same without parts: where the line stands in C.
    Places,
    /// Labels, with blanks between.
    Labels,
    /// Values of registers, with blanks between.
    Registers,
}

/// A shape of lines.
#[derive(Clone, Copy)]
pub struct Shape {
    /// The kind of its lines.
    pub kind: &'static [u8],
    /// The words that its lines begin with.
    pub begin: &'static [u8],
    /// Their fields.
    pub fields: &'static [Field],
    /// What may follow these.
    pub rest: Rest,
}
