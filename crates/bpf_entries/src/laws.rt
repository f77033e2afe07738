//! The laws of a journal's text. They do nothing: each is proved, once for all.
ghost use Rattle.std.specs.Prelude.{◌≡◌, ◌∷◌, [], true};
ghost use Rattle.bpf_entries.specs.declared.entry.Entry.TheVariants as entry;
ghost use Rattle.bpf_entries.specs.Texts.{text};
ghost use Rattle.bpf_entries.specs.Rings.{OneEntry, WeighsItsText, OneList, EndsInWeight, EndsInText, BeginsWithOldest};

/// A text has the entry's weight in bytes, and is of one entry and one mark alone.
#[tactic(none)]
pub fn a_text_is_of_one_entry()
    ensures one { OneEntry }
    ensures weight { WeighsItsText }
{}

/// A journal's text is of one list of entries and marks alone.
#[tactic(none)]
pub fn a_ring_is_of_one_list()
    ensures { OneList }
{}

/// A journal's text is cut from the back, where the newest entry stands: its last two bytes say how
/// many bytes of it are that entry's. In front stands the oldest.
#[tactic(none)]
pub fn a_ring_is_cut_from_the_back()
    ensures weight { EndsInWeight }
    ensures text { EndsInText }
    ensures oldest { BeginsWithOldest }
{}

/// Three texts, byte for byte: the marked end, the first step of `mov r0, 42`, and a fetch of eight
/// bytes.
#[tactic(none)]
pub fn worked_texts()
    ensures end { text entry.End true ≡ 5 ∷ 0 ∷ 137 ∷ 5 ∷ 0 ∷ [] }
    ensures register { text (entry.Register 0 0 0) true
        ≡ 16 ∷ 0 ∷ 129 ∷ 0 ∷ 0 ∷ 0 ∷ 0 ∷ 0 ∷ 0 ∷ 0 ∷ 0 ∷ 0 ∷ 0 ∷ 0 ∷ 16 ∷ 0 ∷ [] }
    ensures fetch { text (entry.Fetch 0 1 4294967296 4294967296
        (1 ∷ 0 ∷ 0 ∷ 0 ∷ 0 ∷ 0 ∷ 0 ∷ 0 ∷ [])) true
        ≡ 33 ∷ 0 ∷ 134 ∷ 0 ∷ 0 ∷ 1 ∷ 0 ∷ 0 ∷ 0 ∷ 0 ∷ 1 ∷ 0 ∷ 0 ∷ 0 ∷ 0 ∷ 0 ∷ 0 ∷ 0 ∷ 1 ∷ 0 ∷ 0 ∷ 0 ∷ 8 ∷ 1 ∷ 0 ∷ 0 ∷ 0 ∷ 0 ∷ 0 ∷ 0 ∷ 0 ∷ 33 ∷ 0 ∷ [] }
{}
