//! Stretches: the newest entries, none of which is marked or of an edit.
ghost use Rattle.std.specs.Prelude.{◌≡◌, ◌≤◌, ◌∷◌, ◌++◌, ℕ, List, length, drop, true};
ghost use Rattle.bpf_entries.specs.Fields.{FitsFields};
ghost use Rattle.bpf_entries.specs.Keeping.{Kept};
ghost use Rattle.bpf_entries.specs.Texts.{text as text_of};
ghost use Rattle.bpf_entries.specs.declared.entry.Entry.{Entry};
ghost use Rattle.std.specs.Prelude.{Bool};
ghost use Rattle.bpf_ring.specs.Held.{RingHolds};
ghost use Rattle.bpf_ring.specs.Stretches.{EndsStep, IsStretch, IsUnmarked};
ghost use Rattle.bpf_ring.specs.Ways.{HasText};

use crate::keeper::RingKeeper;
use crate::ring::number;

/// The most bytes of a stretch: for steps of so many bytes a piece has room as a rule.
const REACH: usize = 1_800;

/// Some of the newest entries, each of a step and without a mark.
#[derive(Clone, Copy)]
pub struct Stretch {
    /// How many they are.
    pub count: u64,
    /// How many bytes they have.
    pub len: usize,
}

impl RingKeeper {
    /// The newest entries that are of common steps, have no mark and lie in one piece: at most so
    /// many, and maybe none.
    pub fn newest_stretch(&self, most: u64) -> Stretch
        ensures within { result.count ≤ most }
        ensures stretch { (ks : List Kept) → RingHolds self.now ks → IsStretch result ks }
    {
        stretch_in(self.ring.newest_run(REACH), most)
    }

    /// Drops so many of a stretch of the newest entries.
    pub fn drop_of(&mut self, stretch: Stretch, count: u64)
        ensures size { self.new.ring.size ≡ self.old.ring.size }
        ensures held { (ks : List Kept) → RingHolds self.old ks →
            IsStretch stretch ks → RingHolds self.new (drop count ks) }
    {
        if count == stretch.count {
            self.drop_stretch(stretch);
        } else {
            self.drop_some(count);
        }
    }

    /// Drops a stretch of the newest entries.
    fn drop_stretch(&mut self, stretch: Stretch)
        ensures size { self.new.ring.size ≡ self.old.ring.size }
        ensures held { (ks : List Kept) → RingHolds self.old ks →
            IsStretch stretch ks → RingHolds self.new (drop stretch.count ks) }
    {
        let len = stretch.len.min(self.ring.len());
        self.ring.drop_newest(len);
        let entries = self.counts.entries.saturating_sub(stretch.count as usize);
        self.counts = self.counts.with_entries(entries);
    }

    /// Drops the newest entries, so many, or all where there are fewer.
    fn drop_some(&mut self, count: u64)
        ensures size { self.new.ring.size ≡ self.old.ring.size }
        ensures held { (ks : List Kept) → RingHolds self.old ks →
            RingHolds self.new (drop count ks) }
    {
        let stretch = self.newest_stretch(count);
        self.drop_stretch(stretch);
        for _ in stretch.count..count {
            self.drop_last();
        }
    }
}

/// The stretch that the end of a text is, of at most so many entries.
#[inline(always)]
fn stretch_in(text: &[u8], most: u64) -> Stretch
    ensures within { (result.count ≤ most) × (result.len ≤ length text.now) }
    ensures stretch { (front : List ℕ) (ks : List Kept) → HasText (front ++ text.now) ks →
        IsStretch result ks }
{
    let mut len = 0;
    for count in 0..most {
        let weight = step_len(&text[..text.len() - len]);
        if weight == 0 {
            return Stretch { count, len };
        }
        len += weight;
    }
    Stretch { count: most, len }
}

/// How many bytes the entry has that the end of a text is, where that is of a common step and has
/// no mark; else 0.
#[inline(always)]
fn step_len(text: &[u8]) -> usize
    ensures within { result ≤ length text.now }
    ensures step { 1 ≤ result → (front : List ℕ) (k : Kept) (ks : List Kept) →
        HasText (front ++ text.now) (k ∷ ks) → EndsStep text.now result k }
    ensures some { 1 ≤ result → 5 ≤ result }
{
    let len = text.len();
    if len < 5 {
        return 0;
    }
    let count = number(&text[len - 2..len]);
    if count < 5 || count > len {
        return 0;
    }
    if is_common(&text[len - count..len]) {
        count
    } else {
        0
    }
}

/// Whether the entry with this text is one of those that a run keeps together, without a mark: of a
/// step that replaced a register, nothing, or bytes.
#[inline(always)]
fn is_common(text: &[u8]) -> bool
    requires { 5 ≤ length text.now }
    ensures { result ≡ true → (e : Entry) (mark : Bool) → FitsFields e → text.now ≡ text_of e mark →
        IsUnmarked (e, mark) }
{
    let tag = text[2];
    tag >= 1 && tag <= 5
}
