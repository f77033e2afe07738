//! Items of a list keeper: each is the text of an entry, in memory of its own.
ghost use Rattle.std.specs.Prelude.{◌≡◌, IfOk};
ghost use Rattle.bpf_entries.specs.Fields.{FitsFields};
ghost use Rattle.bpf_entries.specs.Keeping.{kept_weight};
ghost use Rattle.bpf_entries.specs.Texts.{kind, tag as tag_of, text as text_of};
ghost use Rattle.bpf_journal.specs.Items.{mark_count};

use bpf_entries::is_marked;
use bpf_entries::weights::GREATEST;
use bpf_machine::Entry;
use std::alloc::{AllocError, Global};
use std::marker::Model;

/// An entry with its mark, as the bytes that a journal has of it.
#[derive(Drop)]
pub struct Item {
    text: Vec<u8>,
}

impl Model for Item {
    ghost use Rattle.bpf_entries.specs.Keeping.{Kept};
    ghost use Rattle.bpf_journal.specs.Items.{IsText, read_as};

    ghost Value = { Kept };

    ghost view = { λ item. read_as item.text.items };

    ghost invariant = { λ item. IsText item.text.items };
}

impl Item {
    /// An entry with its mark. It takes memory once, for the bytes.
    pub fn new(alloc: Global, entry: &Entry, mark: bool) -> Result<Item, AllocError>
        requires { FitsFields entry.now }
        ensures { IfOk result (λ item. item ≡ (entry.now, mark)) }
    {
        let mut room = [0u8; GREATEST];
        let weight = entry.write(&mut room, mark);
        match Vec::from_slice(alloc, &room[..weight]) {
            Ok(text) => Ok(Item { text }),
            Err(_) => Err(AllocError),
        }
    }

    /// How many bytes the entry has in a journal: 5 to 519.
    pub fn weight(&self) -> usize
        ensures { result ≡ kept_weight self.now }
    {
        self.text().len()
    }

    /// How many marks it has.
    pub fn marks(&self) -> usize
        ensures { result ≡ mark_count self.now }
    {
        if is_marked(self.text()) { 1 } else { 0 }
    }

    /// The entry and its mark.
    pub fn kept(&self) -> (Entry, bool)
        ensures { result ≡ self.now }
    {
        match Entry::read(self.text()) {
            Some(kept) => kept,
            None => unreachable!(),
        }
    }

    /// The entry's text.
    pub fn text(&self) -> &[u8]
        ensures fits { FitsFields self.now.0 }
        ensures text { result.now ≡ text_of self.now.0 self.now.1 }
    {
        &self.text
    }

    /// The entry's tag: its kind, and whether it is marked.
    pub fn tag(&self) -> u8
        ensures { result ≡ tag_of (kind self.now.0) self.now.1 }
    {
        self.text[2]
    }
}
