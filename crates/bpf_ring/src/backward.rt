//! Moves that are taken back together: their entries' texts go from the end of one ring to the end
//! of another, in one loop over both blocks.
ghost use Rattle.std.specs.Prelude.{◌≡◌, ◌≤◌, ◌<◌, ◌+◌, ◌-◌, ◌++◌, ◌∷◌, List, length, map, take, drop, true, false, ℕ, Bool};
ghost use Rattle.bpf_entries.specs.Keeping.{Kept};
ghost use Rattle.bpf_entries.specs.declared.entry.Entry.{Entry};
ghost use Rattle.bpf_entries.specs.Fields.{FitsFields};
ghost use Rattle.bpf_entries.specs.Texts.{kind, text as text_of};
ghost use Rattle.bpf_machine.specs.Moves.{HasComeBy, Leads, overwritten};
ghost use Rattle.bpf_steps.specs.Kept.{Misses};
ghost use Rattle.bpf_steps.specs.State.{State};
ghost use Rattle.bpf_machine.specs.declared.moves.Move.{Move};
ghost use Rattle.bpf_ring.specs.Moments.{beside};
ghost use Rattle.bpf_ring.specs.Ways.{EndsPlain, EndsWay, HandsBack, HandsSteps, HasLeft, HasText, HoldsWholeWay, IsPlain, IsWay, Made, kept_by};

use crate::block::copy;
use crate::keeper::{RingKeeper, text_len};
use crate::ring::number;
use crate::touched::Touched;
use bpf_entries::slot_in;
use bpf_machine::{Cpu, Guard};

/// What moves that are taken back together have left as it was.
#[derive(Clone, Copy)]
pub enum Stays {
    /// Maybe nothing.
    Nothing,
    /// The depth of calls.
    Depth,
    /// The bytes at the addresses of a guard.
    Bytes(Guard),
}

/// How many moves were taken back together.
#[derive(Clone, Copy)]
pub(crate) struct Handed {
    /// How many they were.
    pub(crate) taken: u64,
    /// How many bytes the texts of their entries have.
    pub(crate) len: usize,
}

impl RingKeeper {
    /// Takes the newest moves back, at most so many: as long as each is a step whose entry has no
    /// mark, lies in one piece and goes to another ring in one piece, where nothing is dropped for
    /// it. It stops in front of a move from a slot that `marks` has, by the slot's remainder, and
    /// in front of one that changed what `stays` names. Answers how many it took, maybe none. It
    /// takes no memory.
    #[inline(never)]
    pub fn hand_back_steps(
        &mut self,
        cpu: &mut Cpu,
        other: &mut RingKeeper,
        most: u64,
        marks: &[bool; 8192],
        stays: Stays,
    ) -> u64
        requires { HoldsWholeWay self.old.ring self.old.counts cpu.old }
        ensures { HandsSteps marks.now stays most (beside cpu.old self.old)
            (beside cpu.new self.new) other.old other.new result }
    {
        let text = self.ring.newest_run(self.ring.len());
        let handed = other.ring.take_run(cpu, text, most, marks, stays);
        self.ring.drop_newest(handed.len);
        let less = self.counts.entries.saturating_sub(handed.taken as usize);
        let more = other.counts.entries.wrapping_add(handed.taken as usize);
        self.counts = self.counts.with_entries(less);
        other.counts = other.counts.with_entries(more);
        other.invariant();
        handed.taken
    }
}

/// Takes moves back by the texts of their entries, the newest of which is at the end of `text`, and
/// copies each text into `room`, the newest to its front.
#[inline(always)]
pub(crate) fn hand_texts(
    cpu: &mut Cpu,
    text: &[u8],
    room: &mut [u8],
    most: u64,
    marks: &[bool; 8192],
    stays: Stays,
) -> Handed
    requires { EndsWay text.now cpu.old }
    ensures within { (result.taken ≤ most) × (result.len ≤ length text.now)
        × (result.len ≤ length room.old) }
    ensures len { length room.new ≡ length room.old }
    ensures handed { (ws : List Made) (ls : List Kept) (front behind : List ℕ) → IsWay ws cpu.old →
        HasText (front ++ text.now) (map kept_by ws) →
        HandsBack marks.now stays cpu.new
        (HasText (front ++ take (length text.now - result.len) text.now))
        (λ ms. HasText behind ls → HasText (behind ++ take result.len room.new) ms)
        result.taken ws ls cpu.old }
{
    let limit = text.len().min(room.len());
    let mut at = 0;
    for k in 0..most {
        let end = text.len() - at;
        let count = plain_len(&text[..end], limit - at, marks, stays);
        if count == 0 {
            return Handed { taken: k, len: at };
        }
        hand_text(cpu, &text[end - count..end], &mut room[at..at + count]);
        at += count;
    }
    Handed {
        taken: most,
        len: at,
    }
}

/// Takes a move back by the text of its entry, and copies the text. The arms are alike: each but the
/// last is built for a common entry, whose kind and length are known in it.
#[inline(always)]
fn hand_text(cpu: &mut Cpu, text: &[u8], into: &mut [u8])
    requires come { HasComeBy cpu.old text.now }
    requires len { length into.old ≡ length text.now }
    ensures back { (x : State) (m : Move) (mark : Bool) → Leads x m cpu.old →
        FitsFields (overwritten x m) → text.now ≡ text_of (overwritten x m) mark → cpu.new ≡ x }
    ensures copied { into.new ≡ text.now }
{
    let len = text_len(cpu, text);
    let tag = text[2];
    if tag == 1 && len == 16 {
        revert_and_copy(cpu, &text[..16], &mut into[..16]);
    } else if tag == 2 && len == 7 {
        revert_and_copy(cpu, &text[..7], &mut into[..7]);
    } else if tag == 5 && len == 24 {
        revert_and_copy(cpu, &text[..24], &mut into[..24]);
    } else {
        revert_and_copy(cpu, text, into);
    }
}

/// Takes a move back by the text of its entry, and copies the text.
#[inline(always)]
fn revert_and_copy(cpu: &mut Cpu, text: &[u8], into: &mut [u8])
    requires come { HasComeBy cpu.old text.now }
    requires len { length into.old ≡ length text.now }
    ensures back { (x : State) (m : Move) (mark : Bool) → Leads x m cpu.old →
        FitsFields (overwritten x m) → text.now ≡ text_of (overwritten x m) mark → cpu.new ≡ x }
    ensures copied { into.new ≡ text.now }
{
    cpu.revert_text(text);
    copy(into, text);
}

/// How many bytes the entry has that the end of a text is, where that is a plain one of at most so
/// many; else 0.
#[inline(always)]
fn plain_len(text: &[u8], most: usize, marks: &[bool; 8192], stays: Stays) -> usize
    requires { most ≤ length text.now }
    ensures within { result ≤ most }
    ensures some { 1 ≤ result → 5 ≤ result }
    ensures plain { 1 ≤ result → (front : List ℕ) (k : Kept) (ks : List Kept) →
        HasText (front ++ text.now) (k ∷ ks) → EndsPlain marks.now stays text.now result k }
{
    if most < 5 {
        return 0;
    }
    let len = text.len();
    let count = number(&text[len - 2..len]);
    if count < 5 || count > most {
        return 0;
    }
    if is_plain(&text[len - count..len], marks, stays) {
        count
    } else {
        0
    }
}

/// Whether the entry with this text may be taken back together with others.
#[inline(always)]
fn is_plain(text: &[u8], marks: &[bool; 8192], stays: Stays) -> bool
    requires { 5 ≤ length text.now }
    ensures { result ≡ true → (e : Entry) (mark : Bool) → FitsFields e → text.now ≡ text_of e mark →
        IsPlain marks.now stays (e, mark) }
{
    let tag = text[2];
    if tag > 8 || changes(stays, tag, text) {
        return false;
    }
    !marks[usize::from(slot_in(text) % 8192)]
}

/// Whether the move of an entry with this tag and text, of a step and without a mark, may have changed
/// what is named.
#[inline(always)]
fn changes(stays: Stays, tag: u8, text: &[u8]) -> bool
    requires { tag ≤ 8 }
    ensures { result ≡ false → (e : Entry) (mark : Bool) → tag ≡ kind e → FitsFields e →
        text.now ≡ text_of e mark → HasLeft stays e }
{
    match stays {
        Stays::Nothing => false,
        Stays::Depth => tag == 3 || tag == 4,
        Stays::Bytes(guard) => may_replace(guard, text),
    }
}

/// Whether the move of an entry with this text may have replaced a byte that a guard has.
#[inline(always)]
fn may_replace(guard: Guard, text: &[u8]) -> bool
    ensures { result ≡ false → (e : Entry) (mark : Bool) → FitsFields e → text.now ≡ text_of e mark →
        Misses guard e }
{
    match Touched::in_text(text, 0) {
        Touched::Nothing | Touched::Register { .. } | Touched::Word => false,
        Touched::Bytes { address, len } => len > 8 || !guard.passes(address),
        Touched::Both { .. } | Touched::Frame { .. } => guard.is_some(),
    }
}
