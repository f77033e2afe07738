//! The entries in a ring of bytes.
ghost use Rattle.std.specs.Prelude.{◌≡◌, ◌≤◌, ◌<◌, ◌+◌, ◌-◌, ◌^◌, if◌then◌else◌, ◌∷◌, ◌++◌, [], List, length, sum_by, count_by, IfOk, IfErr, OnOk, IfSome, None, Some, slice_get, ℕ, true, false, drop};
ghost use Rattle.bpf_entries.specs.Before.{byte_before as byte_before_by, depth_before as depth_before_by};
ghost use Rattle.bpf_entries.specs.Fields.{FitsFields};
ghost use Rattle.bpf_entries.specs.Keeping.{Kept, kept_weight, fit, keep};
ghost use Rattle.bpf_entries.specs.Past.{is_of_step as of_step, replaced};
ghost use Rattle.bpf_entries.specs.Rings.{AllFit, ring as ring_of};
ghost use Rattle.bpf_entries.specs.Texts.{kind, text as text_of};
ghost use Rattle.bpf_entries.specs.Weights.{greatest_weight, weight as weight_of};
ghost use Rattle.bpf_entries.specs.Keeping.{IsSize};
ghost use Rattle.bpf_entries.specs.Status.{has_ended};
ghost use Rattle.bpf_machine.specs.Moves.{HasComeBy};
ghost use Rattle.bpf_steps.specs.Next.{change as change_of};
ghost use Rattle.bpf_ring.specs.Counted.{Counted};
ghost use Rattle.bpf_ring.specs.Heads.{head_of};
ghost use Rattle.bpf_ring.specs.Grown.{KeepsRun, MakesRoom, RecordsStep, TakesStep};
ghost use Rattle.bpf_ring.specs.Held.{HoldsWay, RingHolds};
ghost use Rattle.bpf_ring.specs.Opening.{RefusesSize};
ghost use Rattle.bpf_ring.specs.Moments.{beside};
ghost use Rattle.bpf_ring.specs.Pieces.{KeepsRest, TakesNext};
ghost use Rattle.bpf_ring.specs.Runs.{GoesOn};
ghost use Rattle.bpf_ring.specs.Taking.{HandsOver, TakesBack, TakesText};

use crate::counts::{Counts, within};
use crate::fault::JournalFault;
use crate::pieces::{BYTES, Run};
use crate::ring::{Ring, revert};
use crate::run::{StopTest, change_replaces_bytes};
use crate::size::is_size;
use bpf_entries::weights::GREATEST;
use bpf_entries::{Entry, is_marked, is_of_step};
use bpf_machine::laws::entries_fit;
use bpf_machine::{Change, Cpu, Ended};
use circular_buffer::HeapCircularBuffer;
use std::alloc::Global;

/// What is read of an entry before it is let go.
#[derive(Clone, Copy)]
pub struct Head {
    /// How many bytes it has.
    pub(crate) len: usize,
    /// Its kind, and whether it is marked.
    pub tag: u8,
}

/// The newest entries and marks that fit a ring of bytes. Its memory is taken once, when it is
/// opened: no other call takes any, so no push is ever refused.
#[derive(Drop)]
pub struct RingKeeper {
    pub(crate) ring: Ring,
    pub(crate) counts: Counts,
}

impl RingKeeper {
    /// An empty keeper for a journal of this many bytes, 1,024 to 16,777,216. It takes all the memory
    /// that it will ever need, so that no push is ever refused.
    pub fn open(alloc: Global, size: usize) -> Result<RingKeeper, JournalFault>
        ensures size { OnOk result (IsSize size) }
        ensures room { IfOk result (λ r. r.ring.size ≡ size) }
        ensures empty { IfOk result (λ r. RingHolds r []) }
        ensures err { IfErr result (RefusesSize size) }
    {
        if !is_size(size) {
            return Err(JournalFault::SizeOutOfRange);
        }
        match Ring::open(alloc, size) {
            Ok(ring) => Ok(RingKeeper {
                ring,
                counts: Counts::none(),
            }),
            Err(_) => Err(JournalFault::OutOfMemory),
        }
    }

    /// The ring of a circular buffer, of its capacity and with its bytes, which it holds entries
    /// by: those of whose text the bytes are. It takes no memory.
    pub fn from_ring(buffer: HeapCircularBuffer<u8>) -> RingKeeper
        requires { IsSize buffer.capacity }
        ensures size { result.ring.size ≡ buffer.capacity }
        ensures bytes { result.ring.bytes ≡ buffer.items }
        ensures held { (ks : List Kept) → AllFit ks → buffer.items ≡ ring_of ks →
            RingHolds result ks }
    {
        let ring = Ring::from_buffer(buffer);
        let counts = counted(&ring);
        RingKeeper { ring, counts }
    }

    /// Brings into a proof that the size is a journal's, and that the bytes are within it.
    #[inline(always)]
    pub fn invariant(&self)
        ensures sized { IsSize self.now.ring.size }
        ensures within { length self.now.ring.bytes ≤ self.now.ring.size }
    {
        let _size = self.ring.size();
        let _len = self.ring.len();
    }

    /// Gives the ring up as a circular buffer of the same size with the same bytes. It takes no
    /// memory.
    pub fn into_ring(self) -> HeapCircularBuffer<u8>
        ensures size { result.capacity ≡ self.ring.size }
        ensures sized { IsSize result.capacity }
        ensures bytes { result.items ≡ self.ring.bytes }
    {
        let RingKeeper { ring, counts: _ } = self;
        let _size = ring.size();
        ring.into_buffer()
    }

    /// The byte at an index, the oldest first.
    pub fn byte(&self, index: usize) -> Option<u8>
        ensures { result ≡ slice_get self.now.ring.bytes index }
    {
        self.ring.byte(index)
    }

    /// Lets all entries go. It takes no memory.
    pub fn clear(&mut self)
        ensures size { self.new.ring.size ≡ self.old.ring.size }
        ensures empty { RingHolds self.new [] }
    {
        self.ring.clear();
        self.counts = Counts::none();
    }

    /// How many entries it holds.
    pub fn len(&self) -> usize
        ensures { (ks : List Kept) → RingHolds self.now ks → result ≡ length ks }
    {
        self.counts.entries()
    }

    /// How many of them are marked.
    pub fn marked(&self) -> usize
        ensures { (ks : List Kept) → RingHolds self.now ks → result ≡ count_by (λ k. k.1) ks }
    {
        self.counts.marks()
    }

    /// How many of them are of steps, and not of edits.
    pub fn steps(&self) -> usize
        ensures { (ks : List Kept) → RingHolds self.now ks →
            result ≡ count_by (λ k. of_step k.0) ks }
    {
        self.counts.steps()
    }

    /// How many bytes they have.
    pub fn weight(&self) -> usize
        ensures { (ks : List Kept) → RingHolds self.now ks → result ≡ sum_by kept_weight ks }
    {
        self.ring.len()
    }

    /// How many bytes they may have.
    pub fn capacity(&self) -> usize
        ensures { result ≡ self.now.ring.size }
    {
        self.ring.size()
    }

    /// The newest entry and its mark, None where none is held. It stays.
    pub fn last(&self) -> Option<(Entry, bool)>
        ensures none { RingHolds self.now [] → result ≡ None }
        ensures some { (ks : List Kept) (k : Kept) → RingHolds self.now (k ∷ ks) → result ≡ Some k }
    {
        if self.ring.len() < 5 {
            return None;
        }
        let len = self.ring.len();
        let count = within(self.ring.newest_len(), len);
        if count > GREATEST {
            return None;
        }
        let mut text = [0u8; GREATEST];
        self.ring.copy_newest(count, &mut text);
        Entry::read(&text[..count])
    }

    /// What is read of the newest entry: how many bytes it has, and its tag. None where none is
    /// held.
    #[inline(always)]
    pub fn newest(&self) -> Option<Head>
        ensures none { RingHolds self.now [] → result ≡ None }
        ensures some { (ks : List Kept) (k : Kept) → RingHolds self.now (k ∷ ks) →
            result ≡ Some (head_of k) }
        ensures within { IfSome result (λ head. head.len ≤ length self.now.ring.bytes) }
    {
        match self.ring.newest_text() {
            Some(text) => Some(Head {
                len: text.len(),
                tag: text[2],
            }),
            None => self.newest_apart(),
        }
    }

    /// How many bytes the newest entry has, and its tag, where its bytes go around the block's end.
    /// None where none is held.
    #[inline(never)]
    fn newest_apart(&self) -> Option<Head>
        ensures none { RingHolds self.now [] → result ≡ None }
        ensures some { (ks : List Kept) (k : Kept) → RingHolds self.now (k ∷ ks) →
            result ≡ Some (head_of k) }
        ensures within { IfSome result (λ head. head.len ≤ length self.now.ring.bytes) }
    {
        let len = self.ring.len();
        if len < 5 {
            return None;
        }
        let count = within(self.ring.newest_len(), len);
        let tag = self.ring.tag_at(len - count);
        Some(Head { len: count, tag })
    }

    /// The place of the whole list: how many bytes it has.
    pub fn end(&self) -> usize
        ensures { (ks : List Kept) → RingHolds self.now ks → result ≡ sum_by kept_weight ks }
    {
        self.weight()
    }

    /// The newest entry of the front at a place, its mark, and the place of the front without it;
    /// None at the place of the front without entries, which is 0.
    pub fn walk_back(&self, place: usize) -> Option<(Entry, bool, usize)>
        ensures none { place ≡ 0 → result ≡ None }
        ensures some { (newer front : List Kept) (k : Kept) →
            RingHolds self.now (newer ++ k ∷ front) → place ≡ sum_by kept_weight (k ∷ front) →
            result ≡ Some (k.0, k.1, sum_by kept_weight front) }
    {
        if place < 5 || place > self.ring.len() {
            return None;
        }
        let count = within(self.ring.len_before(place), place);
        if count > GREATEST {
            return None;
        }
        let mut text = [0u8; GREATEST];
        self.ring.copy_part(place - count, count, &mut text);
        match Entry::read(&text[..count]) {
            Some((entry, mark)) => Some((entry, mark, place - count)),
            None => None,
        }
    }

    /// What the byte at an address and the depth of calls were before the move of the newest entry
    /// of the front at a place, where they are `after` and `depth` behind that move, and the place
    /// of the front without that entry; None at the place of the front without entries, which is 0.
    /// The entry is read where it lies.
    pub fn byte_before(
        &self,
        place: usize,
        depth: u32,
        address: u64,
        after: u8,
    ) -> Option<(u8, u32, usize)>
        requires { depth + 1 < 2 ^ 32 }
        ensures none { place ≡ 0 → result ≡ None }
        ensures some { (newer front : List Kept) (k : Kept) →
            RingHolds self.now (newer ++ k ∷ front) →
            place ≡ sum_by kept_weight (k ∷ front) →
            result ≡ Some (
              byte_before_by depth k.0 address after,
              depth_before_by depth k.0,
              sum_by
                  kept_weight front,
            ) }
    {
        if place < 5 || place > self.ring.len() {
            return None;
        }
        let count = within(self.ring.len_before(place), place);
        if count > GREATEST {
            return None;
        }
        let (old, deep) = self
            .ring
            .byte_before(place - count, count, depth, address, after);
        Some((old, deep, place - count))
    }

    /// Takes the newest entry off, None where none is held.
    pub fn pop(&mut self) -> Option<(Entry, bool)>
        ensures size { self.new.ring.size ≡ self.old.ring.size }
        ensures none { RingHolds self.old [] → (result ≡ None) × RingHolds self.new [] }
        ensures some { (ks : List Kept) (k : Kept) → RingHolds self.old (k ∷ ks) →
            (result ≡ Some k) × RingHolds self.new ks }
    {
        let newest = self.last();
        self.drop_last();
        newest
    }

    /// Takes back the move whose entry is the newest, which led to a machine's state: the entry is
    /// read where it lies, no other is made, and it is taken off. Answers its tag, None where none
    /// is held.
    #[inline(always)]
    pub fn take_back(&mut self, cpu: &mut Cpu) -> Option<u8>
        requires { HoldsWay self.old.ring self.old.counts cpu.old }
        ensures { TakesBack cpu.old cpu.new self.old self.new result }
    {
        match self.ring.newest_text() {
            Some(text) => {
                let count = text.len();
                let tag = revert(cpu, text);
                self.ring.drop_newest(count);
                self.counts.subtract(tag);
                Some(tag)
            }
            None => self.take_back_apart(cpu),
        }
    }

    /// Does the same where the entry's bytes go around the block's end, or where none is held.
    #[inline(never)]
    fn take_back_apart(&mut self, cpu: &mut Cpu) -> Option<u8>
        requires { HoldsWay self.old.ring self.old.counts cpu.old }
        ensures { TakesBack cpu.old cpu.new self.old self.new result }
    {
        let len = self.ring.len();
        if len < 5 {
            return None;
        }
        let weight = within(self.ring.newest_len(), len);
        let tag = self.ring.revert_newest(cpu, weight);
        self.ring.drop_newest(weight);
        self.counts.subtract(tag);
        Some(tag)
    }

    /// Takes back the move whose entry is the newest, which led to a machine's state, where it is
    /// of a step: the entry goes to another ring, with its mark, where the fewest oldest ones make
    /// room for it. Its bytes are read and copied where they lie, and no entry is made. Answers its
    /// tag; None where none is held, or one of an edit, and then nothing changes.
    #[inline(always)]
    pub fn hand_back(&mut self, cpu: &mut Cpu, other: &mut RingKeeper) -> Option<u8>
        requires { HoldsWay self.old.ring self.old.counts cpu.old }
        ensures { HandsOver cpu.old cpu.new self.old self.new other.old other.new result }
    {
        match self.ring.newest_text() {
            Some(text) => {
                let count = text.len();
                match other.take_text(cpu, text) {
                    Some(tag) => {
                        self.ring.drop_newest(count);
                        self.counts.subtract(tag);
                        Some(tag)
                    }
                    None => None,
                }
            }
            None => self.hand_back_apart(cpu, other),
        }
    }

    /// Does the same where the entry's bytes go around the block's end, or where none is held.
    #[inline(never)]
    fn hand_back_apart(&mut self, cpu: &mut Cpu, other: &mut RingKeeper) -> Option<u8>
        requires { HoldsWay self.old.ring self.old.counts cpu.old }
        ensures { HandsOver cpu.old cpu.new self.old self.new other.old other.new result }
    {
        let len = self.ring.len();
        if len < 5 {
            return None;
        }
        let count = within(self.ring.newest_len(), len);
        match other.take_newest_of(&self.ring, cpu, count) {
            Some(tag) => {
                self.ring.drop_newest(count);
                self.counts.subtract(tag);
                Some(tag)
            }
            None => None,
        }
    }

    /// Takes the move back whose entry is the newest so many bytes of a ring. They stay there: they
    /// are read where they lie, or from a copy where they go around the block's end.
    #[inline(always)]
    fn take_newest_of(&mut self, ring: &Ring, cpu: &mut Cpu, count: usize) -> Option<u8>
        requires held { count ≤ length ring.now.bytes }
        requires light { count ≤ greatest_weight }
        requires come { HasComeBy cpu.old (drop (length ring.now.bytes - count) ring.now.bytes) }
        ensures { TakesText (drop (length ring.now.bytes - count) ring.now.bytes)
            result cpu.old cpu.new self.old self.new }
    {
        match ring.newest_piece(count) {
            Some(text) => self.take_text(cpu, text),
            None => self.take_apart(ring, cpu, count),
        }
    }

    /// Takes that move back by way of a copy of the bytes.
    #[inline(never)]
    fn take_apart(&mut self, ring: &Ring, cpu: &mut Cpu, count: usize) -> Option<u8>
        requires held { count ≤ length ring.now.bytes }
        requires light { count ≤ greatest_weight }
        requires come { HasComeBy cpu.old (drop (length ring.now.bytes - count) ring.now.bytes) }
        ensures { TakesText (drop (length ring.now.bytes - count) ring.now.bytes)
            result cpu.old cpu.new self.old self.new }
    {
        let mut scratch = [0u8; GREATEST];
        ring.copy_newest(count, &mut scratch);
        self.take_text(cpu, &scratch[..count])
    }

    /// Takes the move back whose entry has this text.
    #[inline(always)]
    fn take_text(&mut self, cpu: &mut Cpu, text: &[u8]) -> Option<u8>
        requires { HasComeBy cpu.old text.now }
        ensures { TakesText text.now result cpu.old cpu.new self.old self.new }
    {
        let weight = text_len(cpu, text);
        if !is_of_step(text) {
            return None;
        }
        cpu.revert_text(text);
        self.invariant();
        self.make_room(weight);
        self.append(text, is_marked(text), true);
        Some(text[2])
    }

    /// Drops the newest entry, whole, where there is one.
    #[inline(always)]
    pub fn drop_last(&mut self)
        ensures size { self.new.ring.size ≡ self.old.ring.size }
        ensures none { RingHolds self.old [] → RingHolds self.new [] }
        ensures some { (ks : List Kept) (k : Kept) → RingHolds self.old (k ∷ ks) →
            RingHolds self.new ks }
    {
        match self.newest() {
            Some(head) => self.drop_newest(head),
            None => {}
        }
    }

    /// Drops the newest entry, whole, of which this was read.
    #[inline(always)]
    pub fn drop_newest(&mut self, head: Head)
        requires { head.len ≤ length self.old.ring.bytes }
        ensures size { self.new.ring.size ≡ self.old.ring.size }
        ensures held { (ks : List Kept) (k : Kept) → RingHolds self.old (k ∷ ks) →
            head ≡ head_of k → RingHolds self.new ks }
    {
        self.ring.drop_newest(head.len);
        self.counts.subtract(head.tag);
    }

    /// Drops the oldest entry, whole.
    #[inline(always)]
    fn drop_oldest(&mut self)
        requires { 5 ≤ length self.old.ring.bytes }
        ensures size { self.new.ring.size ≡ self.old.ring.size }
        ensures shrinks { length self.new.ring.bytes < length self.old.ring.bytes }
        ensures held { (ks : List Kept) (z : Kept) → RingHolds self.old (ks ++ z ∷ []) →
            RingHolds self.new ks }
    {
        let (len, tag) = self.ring.oldest();
        let count = within(len, self.ring.len());
        self.ring.drop_oldest(count);
        self.counts.subtract(tag);
    }

    /// Drops the fewest oldest entries that leave room for so many bytes.
    #[inline(always)]
    pub(crate) fn make_room(&mut self, room: usize)
        requires { room + 16 ≤ self.old.ring.size }
        ensures { MakesRoom self.old self.new room }
    {
        let most = self.ring.size() - room;
        while self.ring.len() > most {
            self.drop_oldest();
        }
    }

    /// Keeps one more entry, and drops the fewest oldest ones that make room for it. It takes no
    /// memory and is never refused.
    pub fn push(&mut self, entry: &Entry, mark: bool)
        requires { FitsFields entry.now }
        ensures size { self.new.ring.size ≡ self.old.ring.size }
        ensures held { (ks : List Kept) → RingHolds self.old ks → RingHolds self.new
            (keep kept_weight self.old.ring.size ks (entry.now, mark)) }
    {
        let weight = weight_in(entry);
        self.invariant();
        self.make_room(weight);
        let mut text = [0u8; GREATEST];
        entry.write(&mut text, mark);
        let is_step = is_of_step(&text);
        self.append(&text[..weight], mark, is_step);
    }

    /// Lets a machine do what `look` answered of it, and keeps the entry of that step. The fewest
    /// oldest ones that make room for it are dropped. It takes no memory and is never refused.
    pub fn record(&mut self, cpu: &mut Cpu, change: &Change, mark: bool)
        requires runs { has_ended cpu.old.status ≡ false }
        requires looked { change.now ≡ change_of cpu.old }
        ensures { RecordsStep cpu.old cpu.new self.old self.new mark }
    {
        cpu.invariant();
        self.invariant();
        entries_fit();
        let weight = cpu.entry_weight(change);
        self.make_room(weight);
        self.ring.record(cpu, change, weight, mark);
        self.counts.add(mark, true);
    }

    /// Takes steps and keeps each, the first one with a mark, until the machine has ended, a test
    /// holds of the last step, or `most` are taken, at least one. Answers how many. It takes no
    /// memory, and no step is refused.
    pub fn run<T: StopTest>(&mut self, cpu: &mut Cpu, most: u64, test: &T) -> u64
        requires runs { has_ended cpu.old.status ≡ false }
        requires some { 1 ≤ most }
        ensures { KeepsRun (T.test test.now) most cpu.old cpu.new self.old self.new result }
    {
        if self.step(cpu, true, test) {
            return 1;
        }
        let run = self.run_on(cpu, most, test);
        if run.is_ragged {
            self.trim();
        }
        run.taken
    }

    /// Goes on with a run that has taken its first step, until it is over: piece by piece, and
    /// between two of them a step that is none of the common ones.
    fn run_on<T: StopTest>(&mut self, cpu: &mut Cpu, most: u64, test: &T) -> Run
        requires goes { GoesOn cpu.old 1 }
        requires some { 1 ≤ most }
        ensures { KeepsRest (T.test test.now) most (beside cpu.old self.old)
            (beside cpu.new self.new) result }
    {
        let mut room = [0u8; BYTES];
        let mut taken = 1;
        let mut is_ragged = false;
        while taken < most {
            let run = Run { taken, is_ragged };
            let pieced = self.run_pieces(cpu, run, most, test, &mut room);
            is_ragged = pieced.run.is_ragged;
            if pieced.is_over {
                return pieced.run;
            }
            let stops = self.step_on(cpu, is_ragged, test);
            taken = pieced.run.taken + 1;
            if stops {
                return Run { taken, is_ragged };
            }
        }
        Run { taken, is_ragged }
    }

    /// Takes a step of a run and keeps it. Answers whether the run stops there.
    #[inline(never)]
    fn step<T: StopTest>(&mut self, cpu: &mut Cpu, mark: bool, test: &T) -> bool
        requires runs { has_ended cpu.old.status ≡ false }
        ensures { TakesStep (T.test test.now) cpu.old cpu.new self.old self.new mark result }
    {
        let change = match cpu.look() {
            Ok(change) => change,
            Err(Ended) => unreachable!(),
        };
        cpu.invariant();
        let replaced = change_replaces_bytes(&change);
        self.record(cpu, &change, mark);
        test.stops(cpu, replaced)
    }

    /// Takes a step of a run and keeps it without a mark, in a ring that is ragged or not. Answers
    /// whether the run stops there.
    fn step_on<T: StopTest>(&mut self, cpu: &mut Cpu, is_ragged: bool, test: &T) -> bool
        requires runs { has_ended cpu.old.status ≡ false }
        ensures { TakesNext (T.test test.now) is_ragged (beside cpu.old self.old)
            (beside cpu.new self.new) result }
    {
        if is_ragged {
            self.step_over(cpu, test)
        } else {
            self.step(cpu, false, test)
        }
    }

    /// Takes a step of a run and keeps it in a ragged ring. Answers whether the run stops there.
    fn step_over<T: StopTest>(&mut self, cpu: &mut Cpu, test: &T) -> bool
        requires runs { has_ended cpu.old.status ≡ false }
        ensures { TakesNext (T.test test.now) true (beside cpu.old self.old)
            (beside cpu.new self.new) result }
    {
        let change = cpu.look_on();
        cpu.invariant();
        self.invariant();
        entries_fit();
        let replaced = change_replaces_bytes(&change);
        let weight = cpu.entry_weight(&change);
        self.make_way(weight);
        self.ring.record(cpu, &change, weight, false);
        test.stops(cpu, replaced)
    }

    /// Appends an entry's text, for which there must be room.
    #[inline(always)]
    fn append(&mut self, text: &[u8], mark: bool, is_step: bool)
        requires { length self.old.ring.bytes + length text.now ≤ self.old.ring.size }
        ensures size { self.new.ring.size ≡ self.old.ring.size }
        ensures held { (ks : List Kept) (e : Entry) → RingHolds self.old ks →
            FitsFields e → text.now ≡ text_of e mark → is_step ≡ of_step e →
            RingHolds self.new ((e, mark) ∷ ks) }
    {
        let _size = self.ring.size();
        self.ring.push(text);
        self.counts.add(mark, is_step);
    }
}

/// The counts of the entries of whose text a ring's bytes are, from the oldest on.
fn counted(ring: &Ring) -> Counts
    ensures { (ks : List Kept) → AllFit ks → ring.now.bytes ≡ ring_of ks → Counted result ks }
{
    let _size = ring.size();
    let len = ring.len();
    let mut counts = Counts::none();
    let mut place = 0;
    while place < len {
        counts.add_by_tag(ring.tag_at(place));
        place += within(ring.len_at(place), len - place);
    }
    counts
}

/// How many bytes the text of an entry has that led to a machine's state.
#[inline(always)]
pub(crate) fn text_len(cpu: &Cpu, text: &[u8]) -> usize
    requires { HasComeBy cpu.now text.now }
    ensures value { result ≡ length text.now }
    ensures within { (5 ≤ result) × (result ≤ greatest_weight) }
{
    let _cpu = cpu;
    text.len()
}

/// How many bytes an entry has.
#[tactic(auto, using(bpf_entries::proofs::Texts::weight_low))]
fn weight_in(entry: &Entry) -> usize
    requires { FitsFields entry.now }
    ensures value { result ≡ weight_of entry.now }
    ensures within { result ≤ greatest_weight }
{
    entry.weight()
}
