//! How many entries a ring holds, and of which sorts.
ghost use Rattle.std.specs.Prelude.{◌≡◌, ◌≤◌, ◌<◌, ◌+◌, ◌-◌, ◌^◌, ◌∷◌, ◌++◌, [], List, length, count_by, nat_le, if◌then◌else◌, ◌%◌, true};
ghost use Rattle.bpf_entries.specs.declared.entry.Entry.{Entry};
ghost use Rattle.bpf_entries.specs.Keeping.{Kept};
ghost use Rattle.bpf_entries.specs.Past.{is_of_step};
ghost use Rattle.bpf_entries.specs.Texts.{kind, tag as tag_text};

/// The counts of entries, of marked ones, and of those that are of edits.
#[derive(Clone, Copy)]
pub(crate) struct Counts {
    pub(crate) entries: usize,
    marks: usize,
    edits: usize,
}

impl Counts {
    ghost use Rattle.bpf_ring.specs.Counted.{Counted};

    /// Those of no entries.
    pub(crate) fn none() -> Counts
        ensures { Counted result [] }
    {
        Counts {
            entries: 0,
            marks: 0,
            edits: 0,
        }
    }

    /// How many entries there are.
    pub(crate) fn entries(&self) -> usize
        ensures { (ks : List Kept) → Counted self.now ks → result ≡ length ks }
    {
        self.entries
    }

    /// How many are marked.
    pub(crate) fn marks(&self) -> usize
        ensures { (ks : List Kept) → Counted self.now ks → result ≡ count_by (λ k. k.1) ks }
    {
        self.marks
    }

    /// Whether no entry is marked, and none is of an edit.
    #[inline(always)]
    pub(crate) fn are_plain(&self) -> bool
        ensures { result ≡ true → (self.now.marks ≡ 0) × (self.now.edits ≡ 0) }
    {
        self.marks == 0 && self.edits == 0
    }

    /// How many are of steps.
    #[tactic(auto, using(crate::proofs::Counted::steps_left))]
    pub(crate) fn steps(&self) -> usize
        ensures { (ks : List Kept) → Counted self.now ks →
            result ≡ count_by (λ k. is_of_step k.0) ks }
    {
        self.entries.saturating_sub(self.edits)
    }

    /// Counts one more.
    #[inline(always)]
    pub(crate) fn add(&mut self, mark: bool, is_step: bool)
        ensures { (ks : List Kept) (e : Entry) → Counted self.old ks → length ks < 2 ^ 63 →
            is_step ≡ is_of_step e → Counted self.new ((e, mark) ∷ ks) }
    {
        self.entries = self.entries.wrapping_add(1);
        if mark {
            self.marks = self.marks.wrapping_add(1);
        }
        if !is_step {
            self.edits = self.edits.wrapping_add(1);
        }
    }

    /// Counts one more, which has this tag.
    pub(crate) fn add_by_tag(&mut self, tag: u8)
        ensures { (ks : List Kept) (k : Kept) → Counted self.old ks → length ks < 2 ^ 63 →
            tag ≡ tag_text (kind k.0) k.1 → Counted self.new (k ∷ ks) }
    {
        self.add(tag >= 128, tag % 128 <= 9);
    }

    /// Counts one less, the one with this tag.
    #[inline(always)]
    pub(crate) fn subtract(&mut self, tag: u8)
        ensures newest { (ks : List Kept) (k : Kept) → Counted self.old (k ∷ ks) →
            tag ≡ tag_text (kind k.0) k.1 → Counted self.new ks }
        ensures oldest { (ks : List Kept) (z : Kept) → Counted self.old (ks ++ z ∷ []) →
            tag ≡ tag_text (kind z.0) z.1 → Counted self.new ks }
    {
        self.entries = self.entries.saturating_sub(1);
        self.subtract_sorts(tag);
    }

    /// These counts of marks and of edits, with so many entries.
    #[inline(always)]
    pub(crate) fn with_entries(self, entries: usize) -> Counts
        ensures { result ≡ record self { entries = entries } }
    {
        Counts {
            entries,
            marks: self.marks,
            edits: self.edits,
        }
    }

    /// Counts one marked less where the tag is a marked one's, and one edit less where it is an
    /// edit's. Up to 9 it is neither's.
    #[inline(always)]
    fn subtract_sorts(&mut self, tag: u8)
        ensures entries { self.new.entries ≡ self.old.entries }
        ensures marks { self.new.marks
            ≡ (if nat_le 128 tag then self.old.marks - 1 else self.old.marks) }
        ensures edits { self.new.edits
            ≡ (if nat_le (tag % 128) 9 then self.old.edits else self.old.edits - 1) }
    {
        if tag > 9 {
            self.subtract_rare(tag);
        }
    }

    /// Counts an entry off whose tag is a marked one's or an edit's.
    #[inline(never)]
    fn subtract_rare(&mut self, tag: u8)
        ensures entries { self.new.entries ≡ self.old.entries }
        ensures marks { self.new.marks
            ≡ (if nat_le 128 tag then self.old.marks - 1 else self.old.marks) }
        ensures edits { self.new.edits
            ≡ (if nat_le (tag % 128) 9 then self.old.edits else self.old.edits - 1) }
    {
        if tag >= 128 {
            self.marks = self.marks.saturating_sub(1);
        }
        if tag % 128 > 9 {
            self.edits = self.edits.saturating_sub(1);
        }
    }
}

/// One less, and 0 for 0.
#[inline(always)]
pub(crate) fn one_less(count: usize) -> usize
    ensures { result ≡ count - 1 }
{
    count.saturating_sub(1)
}

/// A count that is at least 1 and at most another.
#[inline(always)]
pub(crate) fn within(count: usize, most: usize) -> usize
    requires { 1 ≤ most }
    ensures range { (1 ≤ result) × (result ≤ most) }
    ensures same { 1 ≤ count → count ≤ most → result ≡ count }
{
    if count < 1 {
        1
    } else if count > most {
        most
    } else {
        count
    }
}
