//! What is told of a move that was taken back.
ghost use Rattle.std.specs.Prelude.{◌≡◌, Bool};
ghost use Rattle.bpf_entries.specs.declared.entry.Entry.{Entry};
ghost use Rattle.bpf_entries.specs.Texts.{kind, tag as tag_of};
ghost use Rattle.bpf_journal.specs.TakingBack.{taken_by};

use crate::fields::is_of_step;
use crate::replaced::replaces_bytes;
use bpf_machine::Entry;

/// A move that was taken back.
#[derive(Clone, Copy)]
pub struct Taken {
    /// Whether it was a step, and no edit.
    pub is_step: bool,
    /// Whether it was the first move of a command.
    pub mark: bool,
    /// Whether it had replaced bytes of memory.
    pub replaced_bytes: bool,
}

impl Taken {
    /// The move with this entry and mark.
    pub fn of(entry: &Entry, mark: bool) -> Taken
        ensures { result ≡ taken_by (entry.now, mark) }
    {
        Taken {
            is_step: is_of_step(entry),
            mark,
            replaced_bytes: replaces_bytes(entry),
        }
    }

    /// The move whose entry's text has this tag.
    #[inline(always)]
    pub fn of_tag(tag: u8) -> Taken
        ensures { (entry : Entry) (mark : Bool) → tag ≡ tag_of (kind entry) mark →
            result ≡ taken_by (entry, mark) }
    {
        let kind = tag % 128;
        Taken {
            is_step: kind <= 9,
            mark: tag >= 128,
            replaced_bytes: matches!(kind, 3 | 5 | 6 | 7 | 11),
        }
    }
}
