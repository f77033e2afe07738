//! Why a job is refused.
use crate::kind::KindFault;
use bpf_isa::{LoadFault, MapFault};
use bpf_link::LinkFault;
use bpf_machine::OpenFault;
use bpf_opening::OpeningFault;
use bpf_origin::WhatFault;
use bpf_ring::JournalFault;
use bpf_suite::{Refusal as ProgramRefusal, SectionFault};
use bpf_text::AsmFault;
use bpf_whynot::GoalFault;
use bpfdb_script::Refusal;
use input_texts::LineFault;

/// Why a job is refused, in the order in which it is looked at.
#[derive(Clone, Copy)]
pub enum JobRefusal<'a> {
    /// What FILE is, or the other file, doesn't go together with what is asked.
    Kind(KindFault),
    /// The map table's text.
    Maps(MapFault),
    /// The listing.
    Listing(AsmFault),
    /// The checker refused the program.
    Load(LoadFault),
    /// What is asked of the machine's opening is refused.
    Opening(OpeningFault),
    /// The machine can't be opened on it and the context.
    Open(OpenFault),
    /// The other run of `diff` can't be made, by its program or its context.
    OtherRun(ProgramRefusal),
    /// No program is made of the object of the other run; a name or names as in `Object`.
    OtherObject(LinkFault, &'a [u8]),
    /// Two programs that are compared have another map of this number each, by its name or its
    /// shape.
    OtherMap(usize),
    /// The trace of another machine has this fault, in this line.
    TraceLine(LineFault, usize),
    /// The journal can't be opened.
    Journal(JournalFault),
    /// A line of the script is refused.
    Script(Refusal),
    /// What is asked about isn't in the machine.
    What(WhatFault),
    /// What is asked about is no slot of the program.
    Goal(GoalFault),
    /// It is no place of the program: the text that names it.
    NoPlace(&'a str),
    /// No program is made of the object; the name of what is wrong, or those of what there is, as
    /// they stand in the object, or nothing.
    Object(LinkFault, &'a [u8]),
    /// An object with functions isn't joined, the one behind so many others; names as they stand in it.
    Functions(LinkFault, usize, &'a [u8]),
    /// A test file has this fault, in this line.
    Tests(SectionFault, usize),
    /// No test of the file has the name that is asked for.
    NoTest(&'a str),
    /// More than one test is asked for, where one can be shown.
    ManyTests,
}
