//! What a move touched: where what it replaced had stood, read off its entry where that lies.
ghost use Rattle.std.specs.Prelude.{◌≡◌, ◌<◌, Bool, List, IfSome, length, slice_index};
ghost use Rattle.bpf_entries.specs.declared.entry.Entry.{Entry as the_entry};
ghost use Rattle.bpf_entries.specs.Fields.{FitsFields};
ghost use Rattle.bpf_entries.specs.Keeping.{Kept};
ghost use Rattle.bpf_entries.specs.Past.{replaced};
ghost use Rattle.bpf_entries.specs.Texts.{text as text_of};
ghost use Rattle.bpf_ring.specs.Held.{RingHolds};
ghost use Rattle.bpf_ring.specs.Touched.{newest_touched, touched_by};

use crate::keeper::RingKeeper;
use bpf_entries::{Entry, frame_base, kind_of, replaced_in};

/// What a move touched: all that its entry keeps an old value of, without that.
#[derive(Clone, Copy)]
pub enum Touched {
    /// No register, byte or traced word.
    Nothing,
    /// The register of this number.
    Register {
        number: u8,
    },
    /// So many bytes from an address on.
    Bytes {
        address: u64,
        len: usize,
    },
    /// A register and bytes.
    Both {
        number: u8,
        address: u64,
        len: usize,
    },
    /// The bytes of the frame that a local call entered.
    Frame {
        address: u64,
        len: usize,
    },
    /// r0, and the word that it appended to the trace.
    Word,
}

impl Touched {
    /// What the move with an entry touched, by the depth of calls after it.
    pub fn of(entry: &Entry, depth: u32) -> Touched
        ensures { result ≡ touched_by depth entry.now }
    {
        match entry {
            Entry::Register { register, .. } | Entry::EditRegister { register, .. } => {
                Touched::Register {
                    number: register.number(),
                }
            }
            Entry::Call { old, .. } => Touched::Frame {
                address: frame_base(depth),
                len: old.len(),
            },
            Entry::Store { address, old, .. } | Entry::EditBytes { address, old } => {
                Touched::Bytes {
                    address: *address,
                    len: old.len(),
                }
            }
            Entry::Fetch {
                register,
                address,
                old,
                ..
            } => Touched::Both {
                number: register.number(),
                address: *address,
                len: old.len(),
            },
            Entry::Cell { address, old, .. } => Touched::Both {
                number: 0,
                address: *address,
                len: old.len(),
            },
            Entry::Trace { .. } => Touched::Word,
            _ => Touched::Nothing,
        }
    }

    /// The same, by the entry's text. Other bytes give some answer.
    #[inline(always)]
    pub fn in_text(text: &[u8], depth: u32) -> Touched
        ensures { (e : the_entry) (mark : Bool) → FitsFields e → text.now ≡ text_of e mark →
            result ≡ touched_by depth e }
    {
        if text.len() < 5 {
            return Touched::Nothing;
        }
        match kind_of(text) {
            1 => Touched::Register {
                number: number_at(text, 5),
            },
            3 => {
                let (address, len) = span_in(text, depth);
                Touched::Frame { address, len }
            }
            5 | 11 => {
                let (address, len) = span_in(text, depth);
                Touched::Bytes { address, len }
            }
            6 => {
                let (address, len) = span_in(text, depth);
                Touched::Both {
                    number: number_at(text, 5),
                    address,
                    len,
                }
            }
            7 => {
                let (address, len) = span_in(text, depth);
                Touched::Both {
                    number: 0,
                    address,
                    len,
                }
            }
            8 => Touched::Word,
            10 => Touched::Register {
                number: number_at(text, 3),
            },
            _ => Touched::Nothing,
        }
    }
}

impl RingKeeper {
    /// What the move of the newest entry touched, by the depth of calls after it; None where none is
    /// held. The entry is read where it lies.
    #[inline(always)]
    pub fn newest_touched(&self, depth: u32) -> Option<Touched>
        ensures { (ks : List Kept) → RingHolds self.now ks → result ≡ newest_touched depth ks }
    {
        match self.ring.newest_text() {
            Some(text) => Some(Touched::in_text(text, depth)),
            None => self.newest_touched_apart(depth),
        }
    }

    /// Does the same where the entry's bytes go around the block's end, or where none is held.
    #[inline(never)]
    fn newest_touched_apart(&self, depth: u32) -> Option<Touched>
        ensures { (ks : List Kept) → RingHolds self.now ks → result ≡ newest_touched depth ks }
    {
        match self.last() {
            Some((entry, _)) => Some(Touched::of(&entry, depth)),
            None => None,
        }
    }
}

/// The number at a place of an entry's text.
#[inline(always)]
fn number_at(text: &[u8], place: usize) -> u8
    ensures { place < length text.now → result ≡ slice_index text.now place }
{
    match text.get(place) {
        Some(number) => *number,
        None => 0,
    }
}

/// The address and the length of the bytes that an entry keeps, by its text and the depth of calls
/// after its move. Of one that keeps none, some numbers.
#[inline(always)]
fn span_in(text: &[u8], depth: u32) -> (u64, usize)
    ensures { (e : the_entry) (mark : Bool) → FitsFields e → text.now ≡ text_of e mark →
        IfSome (replaced depth e) (λ run. result ≡ (run.address, length run.bytes)) }
{
    match replaced_in(text, depth) {
        Some((address, old)) => (address, old.len()),
        None => (0, 0),
    }
}
