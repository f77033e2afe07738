//! What a command line asks for.
ghost use Rattle.std.specs.Prelude.{◌≡◌};
ghost use Rattle.bpfdb_cli.specs.Plans.{status_of};

use arrayvec::ArrayVec;
use bpf_packet::Packet;
use bpfdb_options::{Ask, Options};
use clap::Error;
use clap::error::ErrorKind;

/// The most times that an option is given which may be given more than once.
pub const MOST_TEXTS: usize = 16;

/// What the entry of an object is said to take.
#[derive(Clone, Copy)]
pub enum EntryTakes {
    /// Nothing is said: the object's types may tell it.
    Unsaid,
    /// This struct of the kernel's.
    Struct(Packet),
    /// The context's address.
    Context,
}

/// What FILE is, and which program runs. What is said of an object says nothing of words and listings.
#[derive(Drop)]
pub struct TargetWords<'a> {
    /// FILE is said to be words. Where nothing is said, its name and its bytes show what it is.
    pub is_words: bool,
    /// FILE is said to be a listing, which is assembled first.
    pub is_listing: bool,
    /// FILE is said to be an object, which is linked first, or something is asked of its link.
    pub is_object: bool,
    /// The map table's text, as `8x2,4x256`; without one there are no maps.
    pub maps: Option<&'a str>,
    /// The name of the code section that is linked; without one it is the only one.
    pub section: Option<&'a str>,
    /// The name of the function of that section at which the program begins; without one it is the
    /// only one that is known outside the object, or else the section's first slot.
    pub entry: Option<&'a str>,
    /// The helpers whose calls are answered by a constant, as `5=0,14=-1`; without it none is.
    pub stubs: Option<&'a str>,
    /// An object with relocations of fields is refused; without that they are left undone, and fields
    /// stay where they were when it was compiled.
    pub strict_fields: bool,
    /// What the entry takes.
    pub takes: EntryTakes,
    /// The paths of the objects with functions that are joined to FILE, in their order.
    pub with: ArrayVec<&'a str, MOST_TEXTS>,
    /// The programs of an object that are called in turn, each as `NAME` or `NAME@OFFSET`; none where
    /// it is the one program of the entry.
    pub turns: ArrayVec<&'a str, MOST_TEXTS>,
    /// How many entries maps of the object have, each as `NAME=N`.
    pub counts: ArrayVec<&'a str, MOST_TEXTS>,
    /// Linux's helpers aren't joined to FILE by themselves.
    pub no_linux: bool,
    /// Of those that are, none may answer otherwise than Linux's.
    pub is_faithful: bool,
}

/// How what is printed is told.
#[derive(Clone, Copy)]
pub enum Form {
    /// As lines.
    Lines,
    /// As objects of JSON, one a line.
    Json,
    /// As a graph.
    Dot,
}

/// What a command line asks for.
#[derive(Drop)]
pub struct Plan<'a> {
    /// What is asked of FILE.
    pub ask: Ask<'a>,
    /// FILE, the path of the program, of the listing or of the object.
    pub file: &'a str,
    /// The path of the file whose bytes are the context; without one the context is empty.
    pub memory: Option<&'a str>,
    /// Which packet of that file, a capture, is the context, counted from 1; without one it is all of
    /// the file.
    pub packet: Option<u64>,
    /// The path of the other file: of the script that is obeyed before `origin` asks, or of the second
    /// program or context of `diff`, or of its trace.
    pub other: Option<&'a str>,
    /// Which packet of that one, a capture, is the second context of `diff`.
    pub other_packet: Option<u64>,
    /// The path of the file that takes what is linked; without one standard output does.
    pub output: Option<&'a str>,
    pub target: TargetWords<'a>,
    pub options: Options<'a>,
    pub form: Form,
}

/// Why a command line is no plan.
#[derive(Drop)]
pub enum PlanFault {
    /// It asks for help or the version, or isn't one of bpfdb's: the answer, in `clap`'s words.
    Usage(Error),
    /// Memory ran out.
    Memory,
}

impl PlanFault {
    /// The exit status: 0 where help or the version was asked for, else 2.
    pub fn status(&self) -> u8
        ensures { result ≡ status_of self.now }
    {
        match self {
            PlanFault::Memory => 2,
            PlanFault::Usage(error) => match error.kind() {
                ErrorKind::DisplayHelp => 0,
                ErrorKind::DisplayVersion => 0,
                _ => 2,
            },
        }
    }
}
