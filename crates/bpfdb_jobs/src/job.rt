//! What `tool` is given to do.
use bpf_load::{SourceKind, Target};
use bpfdb_options::{Ask, Options};

/// What is asked, with the bytes of the files.
#[derive(Clone, Copy)]
pub struct Job<'a> {
    pub ask: Ask<'a>,
    /// FILE, as the command line names it.
    pub name: &'a str,
    /// FILE's bytes: the program's raw little-endian words, its listing, or an object that holds
    /// it.
    pub file: &'a [u8],
    /// PATH's bytes, the context: at most 65,536.
    pub context: &'a [u8],
    /// The bytes of the other file, where there is one: of the script that is obeyed before `origin`
    /// asks, without which the program runs; or of the second program or context of `diff`, or of its
    /// trace.
    pub other: Option<&'a [u8]>,
    /// What the other file is where it is a second program.
    pub other_kind: SourceKind,
    /// What FILE is, and which program runs.
    pub target: Target<'a>,
    /// Linux's library, where it was joined by itself; else nothing.
    pub library: &'a [u8],
    pub options: Options<'a>,
}
