//! A list of entries with marks, and the sums over it that are asked for often.
ghost use Rattle.std.specs.Prelude.{◌≡◌, ◌≤◌, ◌<◌, ◌^◌, ◌++◌, [], ◌∷◌, ℕ, List, Option, option_map, length, sum_by, MatchOption, IfSome, OnOk, OnErr};
ghost use Rattle.bpf_entries.specs.Keeping.{Kept, kept_weight, fit};
ghost use Rattle.bpf_journal.specs.Histories.{newest};
ghost use Rattle.bpf_journal.specs.Items.{marks, LosesOldest};

use crate::item::Item;
use std::alloc::{AllocError, Global};
use std::collections::VecDeque;
use std::marker::Model;

/// Entries with their marks. The oldest lies at the front; contracts see the newest first.
#[derive(Drop)]
pub struct Entries {
    items: VecDeque<Item>,
    weight: usize,
    marked: usize,
}

impl Model for Entries {
    ghost use Rattle.std.specs.Prelude.{List};
    ghost use Rattle.bpf_entries.specs.Keeping.{Kept};
    ghost use Rattle.bpf_journal.specs.Items.{held, IsCounted};

    ghost Value = { List Kept };

    ghost view = { λ e. held e.items.items };

    ghost invariant = { λ e. IsCounted (held e.items.items) e.weight e.marked };
}

impl Entries {
    /// No entries.
    pub fn new(alloc: Global) -> Entries
        ensures { result ≡ [] }
    {
        Entries {
            items: VecDeque::new(alloc),
            weight: 0,
            marked: 0,
        }
    }

    /// How many there are.
    pub fn len(&self) -> usize
        ensures { result ≡ length self.now }
    {
        self.items.len()
    }

    /// The sum of their weights.
    pub fn weight(&self) -> usize
        ensures { result ≡ sum_by kept_weight self.now }
    {
        self.weight
    }

    /// How many are marked.
    pub fn marked(&self) -> usize
        ensures { result ≡ marks self.now }
    {
        self.marked
    }

    /// Adds the newest.
    pub fn push(&mut self, item: Item) -> Result<(), AllocError>
        requires few { sum_by kept_weight self.old < 2 ^ 32 }
        requires light { kept_weight item < 2 ^ 32 }
        ensures ok { OnOk result (self.new ≡ item ∷ self.old) }
        ensures err { OnErr result (self.new ≡ self.old) }
    {
        let weight = item.weight();
        let marks = item.marks();
        match self.items.push_back(item) {
            Ok(()) => {}
            Err(_) => return Err(AllocError),
        }
        self.weight += weight;
        self.marked += marks;
        Ok(())
    }

    /// Takes the newest off.
    pub fn pop(&mut self) -> Option<Item>
        ensures { MatchOption result ((self.old ≡ [])
            × (self.new ≡ [])) (λ item. self.old ≡ item ∷ self.new) }
    {
        match self.items.pop_back() {
            Some(item) => {
                self.weight -= item.weight();
                self.marked -= item.marks();
                Some(item)
            }
            None => None,
        }
    }

    /// Takes the oldest off.
    fn pop_oldest(&mut self) -> Option<Item>
        ensures { MatchOption result (self.old ≡ []) (λ item. self.old
            ≡ self.new ++ item ∷ []) }
    {
        match self.items.pop_front() {
            Some(item) => {
                self.weight -= item.weight();
                self.marked -= item.marks();
                Some(item)
            }
            None => None,
        }
    }

    /// Drops the oldest.
    fn drop_oldest(&mut self)
        requires { 0 < sum_by kept_weight self.old }
        ensures { LosesOldest self.old self.new }
    {
        match self.pop_oldest() {
            Some(_) => {}
            None => unreachable!(),
        }
    }

    /// Drops the fewest oldest so that the others weigh at most the room.
    pub fn trim(&mut self, room: usize)
        ensures fits { self.new ≡ fit kept_weight room self.old }
        ensures within { sum_by kept_weight self.new ≤ room }
    {
        while self.weight() > room {
            self.drop_oldest();
        }
    }

    /// The newest.
    pub fn newest(&self) -> Option<&Item>
        ensures { option_map (λ item. item.now) result ≡ newest self.now }
    {
        self.items.back()
    }

    /// The entry that has so many older ones.
    pub fn item(&self, older: usize) -> Option<&Item>
        ensures { (newer rest : List Kept) (k : Kept) → self.now ≡ newer ++ k ∷ rest →
            length rest ≡ older →
            MatchOption result ⊥ (λ item. item.now ≡ k) }
    {
        self.items.get(older)
    }
}
