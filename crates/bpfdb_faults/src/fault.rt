//! Why a job is not done.
use crate::refusal::JobRefusal;

/// Why a job wasn't done, or not to its end. Each has a line on standard error.
#[derive(Clone, Copy)]
pub enum JobFault<'a> {
    /// A file can't be read: its name, as the command line has it.
    Unreadable(&'a str),
    /// A file can't be written: its name, as the command line has it.
    Unwritable(&'a str),
    /// The words of the command line are no text.
    NotText,
    /// What is asked for is refused: a letter for what, a number and a text for why.
    Refused(JobRefusal<'a>),
    /// A read of standard input failed.
    Input,
    /// A write to standard output failed.
    Output,
    /// Memory ran out where no number says so.
    Memory,
}
