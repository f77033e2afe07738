//! The words with which heads of sections begin that name files, or say how an object is linked.
ghost use Rattle.std.specs.Prelude.{◌≡◌};
ghost use Rattle.std.specs.Str.{bytes_eq};
ghost use Rattle.input_texts.specs.Words.{is_option, is_word, word_named, word_number};

/// The first word of a head.
#[derive(Clone, Copy)]
pub enum Word {
    /// The program of an object.
    Object,
    /// The bytes of a file, as the context.
    MemFile,
    /// A packet of a capture, as the context.
    Packet,
    /// Of an object its section of code.
    Section,
    /// Of an object the function at which the program begins.
    Entry,
    /// An object with functions that is joined to it.
    With,
    /// The helpers whose calls are answered.
    Stub,
    /// The kernel's struct by which its entry takes the packet.
    Struct,
    /// Relocations of fields are left undone.
    AsCompiled,
    /// None of these.
    Other,
}

impl Word {
    /// The word that a text is; case matters.
    pub fn named(name: &[u8]) -> Word
        ensures { result ≡ word_named name.now }
    {
        if is(name, "object") {
            Word::Object
        } else if is(name, "mem-file") {
            Word::MemFile
        } else if is(name, "packet") {
            Word::Packet
        } else if is(name, "section") {
            Word::Section
        } else if is(name, "entry") {
            Word::Entry
        } else if is(name, "with") {
            Word::With
        } else if is(name, "stub") {
            Word::Stub
        } else if is(name, "struct") {
            Word::Struct
        } else if is(name, "as-compiled") {
            Word::AsCompiled
        } else {
            Word::Other
        }
    }

    /// Its number.
    fn number(self) -> u8
        ensures { result ≡ word_number self }
    {
        match self {
            Word::Object => 0,
            Word::MemFile => 1,
            Word::Packet => 2,
            Word::Section => 3,
            Word::Entry => 4,
            Word::With => 5,
            Word::Stub => 6,
            Word::Struct => 7,
            Word::AsCompiled => 8,
            Word::Other => 9,
        }
    }

    /// Whether it is this one.
    pub fn is(self, other: Word) -> bool
        ensures { result ≡ is_word other self }
    {
        self.number() == other.number()
    }

    /// Whether it says how an object is linked.
    pub fn is_option(self) -> bool
        ensures { result ≡ is_option self }
    {
        match self {
            Word::Section
            | Word::Entry
            | Word::With
            | Word::Stub
            | Word::Struct
            | Word::AsCompiled => true,
            Word::Object | Word::MemFile | Word::Packet | Word::Other => false,
        }
    }
}

/// Whether a name is this text; case matters.
fn is(name: &[u8], text: &str) -> bool
    ensures value { result ≡ bytes_eq name.now text.now }
{
    name == text.as_bytes()
}
