//! The keeper that keeps entries in a growing list.
ghost use Rattle.std.specs.Prelude.{◌≡◌, ◌<◌, ◌≤◌, ◌^◌, sum_by, OnOk, OnErr};
ghost use Rattle.bpf_entries.specs.Keeping.{kept_weight, keep};
ghost use Rattle.bpf_journal.specs.Keepers.{refusals_after};
ghost use Rattle.bpf_entries.specs.Keeping.{IsSize};
ghost use Rattle.bpf_journal.specs.Opening.{Opens};

use crate::entries::Entries;
use crate::item::Item;
use crate::keeper::Keeper;
use crate::taken::Taken;
use bpf_machine::{Cpu, Entry};
use bpf_ring::{JournalFault, Touched, is_size};
use std::alloc::{AllocError, Global};

/// Keeps the bytes of entries in a growing list. A push takes memory for those of its entry, and
/// now and then for the list, and moves no other entry; each entry that it drops was pushed once,
/// so that many pushes cost as much each whatever the journal's size is.
#[derive(Drop)]
pub struct ListKeeper {
    alloc: Global,
    entries: Entries,
    size: usize,
    refusals: u64,
    ghost is_size: { IsSize size },
    ghost counts: { refusals < 2 ^ 64 },
    ghost within: { sum_by kept_weight entries ≤ size },
}

impl ListKeeper {
    /// A keeper for a journal of this many bytes, 1,024 to 16,777,216, that holds nothing and has
    /// refused nothing. It takes no memory yet.
    pub fn open(alloc: Global, size: usize) -> Result<ListKeeper, JournalFault>
        ensures { Opens (⟦<ListKeeper as Keeper>⟧.holds) (⟦<ListKeeper as Keeper>⟧.refused)
            (⟦<ListKeeper as Keeper>⟧.room) size result }
    {
        if !is_size(size) {
            return Err(JournalFault::SizeOutOfRange);
        }
        Ok(ListKeeper {
            alloc,
            entries: Entries::new(alloc),
            size,
            refusals: 0,
        })
    }

    /// Keeps one more item, and drops the oldest that don't fit.
    fn keep(&mut self, item: Item) -> Result<(), AllocError>
        requires { kept_weight item < 2 ^ 32 }
        ensures ok { OnOk result (self.new.entries
            ≡ keep kept_weight self.old.size self.old.entries item) }
        ensures err { OnErr result (self.new.entries ≡ self.old.entries) }
        ensures counts { (self.new.refusals ≡ refusals_after result self.old.refusals)
            × (self.new.size ≡ self.old.size) }
    {
        match self.entries.push(item) {
            Ok(()) => {
                self.entries.trim(self.size);
                Ok(())
            }
            Err(_) => self.refuse(),
        }
    }

    /// Counts a refusal.
    fn refuse(&mut self) -> Result<(), AllocError>
        ensures refused { self.new.refusals ≡ refusals_after result self.old.refusals }
        ensures entries { self.new.entries ≡ self.old.entries }
        ensures size { self.new.size ≡ self.old.size }
        ensures err { OnOk result ⊥ }
    {
        self.refusals = self.refusals.saturating_add(1);
        Err(AllocError)
    }
}

impl Keeper for ListKeeper {
    ghost use Rattle.std.specs.Prelude.{length};
    ghost use Rattle.bpf_journal.specs.Places.{ends_apart};

    ghost holds = { λ k es. es ≡ k.entries };

    ghost room = { λ k. k.size };

    ghost refused = { λ k. k.refusals };

    ghost place = { λ k front. length front };

    ghost counted = { λ k. k.counts };

    ghost apart = { λ k n m a b held same count. ends_apart n m a b same count };

    fn invariant(&self) {
        let _size = self.size;
    }

    fn push(&mut self, entry: &Entry, mark: bool) -> Result<(), AllocError> {
        match Item::new(self.alloc, entry, mark) {
            Ok(item) => self.keep(item),
            Err(AllocError) => self.refuse(),
        }
    }

    fn refusals(&self) -> u64 {
        self.refusals
    }

    fn last(&self) -> Option<(Entry, bool)> {
        match self.entries.newest() {
            Some(item) => Some(item.kept()),
            None => None,
        }
    }

    fn newest_touched(&self, depth: u32) -> Option<Touched> {
        match self.entries.newest() {
            Some(item) => Some(Touched::in_text(item.text(), depth)),
            None => None,
        }
    }

    fn pop(&mut self) -> Option<(Entry, bool)> {
        match self.entries.pop() {
            Some(item) => Some(item.kept()),
            None => None,
        }
    }

    fn take_back(&mut self, cpu: &mut Cpu) -> Option<Taken> {
        match self.entries.pop() {
            Some(item) => {
                cpu.revert_text(item.text());
                Some(Taken::of_tag(item.tag()))
            }
            None => None,
        }
    }

    fn len(&self) -> usize {
        self.entries.len()
    }

    fn marked(&self) -> usize {
        self.entries.marked()
    }

    fn weight(&self) -> usize {
        self.entries.weight()
    }

    fn capacity(&self) -> usize {
        self.size
    }

    fn end(&self) -> usize {
        self.entries.len()
    }

    fn walk_back(&self, at: usize) -> Option<(Entry, bool, usize)> {
        if at == 0 {
            return None;
        }
        match self.entries.item(at - 1) {
            Some(item) => {
                let (entry, mark) = item.kept();
                Some((entry, mark, at - 1))
            }
            None => None,
        }
    }
}
