//! What files are opened: those of the system; or, where the command line has no word, a program that
//! is built in.
ghost use Rattle.std.specs.Prelude.{◌≡◌, Some, None};
ghost use Rattle.bpfdb.specs.Files.{first_program};
ghost use Rattle.bpfdb_limits.specs.Limits.{IsLimit};
ghost use Rattle.bpfdb_options.specs.declared.ask.Ask.TheVariants.{Debug};

use arrayvec::ArrayVec;
use bpfdb_cli::{EntryTakes, Form, Plan, TargetWords};
use bpfdb_files::{Opener, Retrying};
use bpfdb_options::{Ask, NO_OPTIONS};
use std::fs;
use std::fs::File;

/// The files of the system. Reads that it interrupts are made again.
#[derive(Clone, Copy)]
pub struct SystemFiles<'a> {
    pub rt: &'a HostRuntime,
}

impl<'a> Opener for SystemFiles<'a> {
    type File = Retrying<File>;

    ghost bytes_at = { λ files path. None };

    fn open(&self, path: &str) -> Option<Retrying<File>> {
        match fs::open(self.rt, path) {
            Ok(file) => Some(Retrying::new(file)),
            Err(_) => None,
        }
    }
}

/// What is debugged where the command line has no word: r0 = 42, and the end.
const FIRST_PROGRAM: &[u8] = &[
    0xb7, 0, 0, 0, 0x2a, 0, 0, 0, // mov r0, 42
    0x95, 0, 0, 0, 0, 0, 0, 0, // exit
];

/// The plan of that, with every option absent.
pub fn first_plan() -> Plan<'static>
    ensures ask { result.ask ≡ Debug }
    ensures limit { IsLimit result.options.limit }
{
    Plan {
        ask: Ask::Debug,
        file: "",
        memory: None,
        packet: None,
        other: None,
        other_packet: None,
        output: None,
        target: TargetWords {
            is_words: true,
            is_listing: false,
            is_object: false,
            maps: None,
            section: None,
            entry: None,
            stubs: None,
            strict_fields: false,
            takes: EntryTakes::Unsaid,
            with: ArrayVec::new(),
            turns: ArrayVec::new(),
            counts: ArrayVec::new(),
            no_linux: false,
            is_faithful: false,
        },
        options: NO_OPTIONS,
        form: Form::Lines,
    }
}

/// A file of that program under any path.
#[derive(Clone, Copy)]
pub struct BuiltIn;

impl Opener for BuiltIn {
    type File = &'static [u8];

    ghost bytes_at = { λ files path. Some first_program };

    fn open(&self, _path: &str) -> Option<&'static [u8]> {
        Some(FIRST_PROGRAM)
    }
}
