//! A ring of bytes.
ghost use Rattle.std.specs.Prelude.{◌≡◌, ◌≤◌, ◌<◌, ◌+◌, ◌-◌, ◌^◌, ◌++◌, ◌∷◌, [], length, take, drop, slice_get, ℕ, Bool, List, IfOk, IfSome, map};
ghost use Rattle.byteorder.specs.Endian.{little_bytes};
ghost use Rattle.bpf_entries.specs.declared.entry.Entry.{Entry};
ghost use Rattle.bpf_entries.specs.Before.{byte_before as byte_before_by, depth_before as depth_before_by};
ghost use Rattle.bpf_entries.specs.Fields.{FitsFields};
ghost use Rattle.bpf_entries.specs.Texts.{kind, tag, text};
ghost use Rattle.bpf_entries.specs.Weights.{greatest_weight};
ghost use Rattle.bpf_machine.specs.Moves.{HasComeBy, Leads, overwritten};
ghost use Rattle.bpf_steps.specs.State.{State};
ghost use Rattle.bpf_machine.specs.declared.moves.Move.{Move};
ghost use Rattle.bpf_entries.specs.Keeping.{IsSize, Kept};
ghost use Rattle.bpf_ring.specs.Moments.{beside};
ghost use Rattle.bpf_ring.specs.Held.{IsHeld};
ghost use Rattle.bpf_ring.specs.Left.{Left};
ghost use Rattle.bpf_ring.specs.Recorded.{CanRecord, Records};
ghost use Rattle.bpf_ring.specs.Runs.{GoesOn};
ghost use Rattle.bpf_ring.specs.Taking.{Reverts};
ghost use Rattle.bpf_ring.specs.Ways.{EndsWay, HandsBack, HasText, IsWay, Made, kept_by};

use crate::backward::{Handed, Stays, hand_texts};
use crate::block::{fill, place, write_around, write_in_place};
use crate::counts::Counts;
use crate::keeper::text_len;
use crate::run::{Span, drop_in_place};
use bpf_entries::weights::GREATEST;
use bpf_entries::{byte_before, depth_before};
use bpf_machine::{Change, Cpu};
use byteorder::{ByteOrder, LittleEndian};
use circular_buffer::HeapCircularBuffer;
use std::alloc::{AllocError, Global};
use std::marker::Model;

/// A ring of bytes of a fixed size, 1,024 to 16,777,216. Its block is taken once, when it is
/// opened. No other call takes memory.
#[derive(Drop)]
pub struct Ring {
    /// The block, never turned. It is filled as the bytes get on in it: past their end, until it is
    /// full.
    buffer: HeapCircularBuffer<u8>,
    /// The place of the oldest byte in it.
    first: usize,
    /// How many bytes there are.
    len: usize,
}

impl Model for Ring {
    ghost use Rattle.std.specs.Prelude.{◌+◌, ◌<◌, ◌≤◌, length};
    ghost use Rattle.bpf_entries.specs.Keeping.{IsSize};
    ghost use Rattle.bpf_ring.specs.Blocks.{Content, around};

    ghost Value = { Content };

    ghost view = { λ r. record { size = r.buffer.capacity; bytes = around r.buffer.items r.first r.len } };

    ghost invariant = { λ r. record {
      held : length r.buffer.items ≤ r.buffer.capacity;
      within : r.first < length r.buffer.items;
      fits : r.len ≤ length r.buffer.items;
      filled : length r.buffer.items < r.buffer.capacity → r.first + r.len < length r.buffer.items;
      sized : IsSize r.buffer.capacity;
    } };
}

impl Ring {
    /// A ring of this size with no bytes.
    pub fn open(alloc: Global, size: usize) -> Result<Ring, AllocError>
        requires { IsSize size }
        ensures { IfOk result (λ ring. (ring.size ≡ size) × (ring.bytes ≡ [])) }
    {
        let buffer = HeapCircularBuffer::with_capacity(alloc, size)?;
        Ok(Ring::from_buffer(buffer))
    }

    /// Gives the ring up as a circular buffer of the same size with the same bytes. It takes no
    /// memory.
    pub fn into_buffer(self) -> HeapCircularBuffer<u8>
        ensures size { result.capacity ≡ self.size }
        ensures bytes { result.items ≡ self.bytes }
    {
        let Ring {
            mut buffer,
            first,
            len,
        } = self;
        buffer.make_contiguous().rotate_left(first);
        buffer.truncate_back(len);
        buffer
    }

    /// The ring of a circular buffer, of its capacity and with its bytes. It takes no memory.
    pub fn from_buffer(mut buffer: HeapCircularBuffer<u8>) -> Ring
        requires { IsSize buffer.capacity }
        ensures size { result.size ≡ buffer.capacity }
        ensures bytes { result.bytes ≡ buffer.items }
    {
        let len = buffer.len();
        fill(&mut buffer, len + 1);
        Ring {
            buffer,
            first: 0,
            len,
        }
    }

    /// How many bytes it may have.
    pub fn size(&self) -> usize
        ensures value { result ≡ self.now.size }
        ensures sized { IsSize result }
    {
        self.buffer.capacity()
    }

    /// How many bytes it has.
    pub fn len(&self) -> usize
        ensures value { result ≡ length self.now.bytes }
        ensures within { result ≤ self.now.size }
    {
        self.len
    }

    /// Lets all bytes go. It takes no memory.
    pub fn clear(&mut self)
        ensures size { self.new.size ≡ self.old.size }
        ensures bytes { self.new.bytes ≡ [] }
    {
        self.first = 0;
        self.len = 0;
    }

    /// Appends bytes, for which there must be room. It takes no memory.
    #[inline(always)]
    pub fn push(&mut self, bytes: &[u8])
        requires { length self.old.bytes + length bytes.now ≤ self.old.size }
        ensures size { self.new.size ≡ self.old.size }
        ensures bytes { self.new.bytes ≡ self.old.bytes ++ bytes.now }
    {
        let block = self.buffer.make_contiguous();
        if write_in_place(block, self.first, self.len, bytes) {
            self.len += bytes.len();
        } else {
            self.push_apart(bytes);
        }
    }

    /// Appends bytes where the block may have to be filled on, or they go around its end.
    #[inline(never)]
    fn push_apart(&mut self, bytes: &[u8])
        requires { length self.old.bytes + length bytes.now ≤ self.old.size }
        ensures size { self.new.size ≡ self.old.size }
        ensures bytes { self.new.bytes ≡ self.old.bytes ++ bytes.now }
    {
        fill(&mut self.buffer, self.first + self.len + bytes.len() + 1);
        let block = self.buffer.make_contiguous();
        write_around(block, self.first, self.len, bytes);
        self.len += bytes.len();
    }

    /// Drops oldest entries until at most so many bytes are left, as far as these are unmarked ones
    /// of steps in one piece of the block. `counts` are those of the entries that the ring holds.
    /// Answers how many entries are left.
    pub(crate) fn drop_to(&mut self, counts: Counts, most: usize) -> usize
        requires { 3 ≤ most }
        ensures size { self.new.size ≡ self.old.size }
        ensures left { (ks : List Kept) → IsHeld self.old counts ks →
            Left self.new (record counts { entries = result }) most ks }
    {
        let size = self.buffer.capacity();
        let span = Span {
            first: self.first,
            len: self.len,
            entries: counts.entries,
        };
        let block = self.buffer.make_contiguous();
        let left = drop_in_place(block, size, span, most);
        self.first = left.first;
        self.len = left.len;
        left.entries
    }

    /// Lets a machine do what `look` answered of it, and appends the entry of that, which has so many
    /// bytes and for which there must be room. It takes no memory.
    pub fn record(&mut self, cpu: &mut Cpu, change: &Change, weight: usize, mark: bool)
        requires can { CanRecord cpu.old change.now weight }
        requires room { length self.old.bytes + weight ≤ self.old.size }
        ensures { Records cpu.old cpu.new self.old self.new mark }
    {
        let mut scratch = [0u8; GREATEST];
        cpu.record(change, &mut scratch, mark);
        self.push(&scratch[..weight]);
    }

    /// Takes back the move whose entry's text the newest bytes are, so many, by way of a copy of
    /// them. They stay. Answers the entry's tag.
    pub fn revert_newest(&self, cpu: &mut Cpu, count: usize) -> u8
        requires held { count ≤ length self.now.bytes }
        requires light { count ≤ greatest_weight }
        requires come { HasComeBy cpu.old (drop (length self.now.bytes - count) self.now.bytes) }
        ensures { Reverts self.now.bytes count cpu.old cpu.new result }
    {
        let mut scratch = [0u8; GREATEST];
        self.copy_newest(count, &mut scratch);
        revert(cpu, &scratch[..count])
    }

    /// The newest bytes, so many, where they lie in one piece; None where they go around the
    /// block's end.
    #[inline(always)]
    pub fn newest_piece(&self, count: usize) -> Option<&[u8]>
        requires { count ≤ length self.now.bytes }
        ensures { IfSome result (λ piece. piece.now
            ≡ drop (length self.now.bytes - count) self.now.bytes) }
    {
        let start = place(self.buffer.len(), self.first, self.len() - count);
        let (block, _) = self.buffer.as_slices();
        if start + count <= block.len() {
            Some(&block[start..start + count])
        } else {
            None
        }
    }

    /// The text of the newest entry, as many bytes as the last two say, at least 5, where they lie in
    /// one piece; None where not, or where they are more than there are.
    #[inline(always)]
    pub fn newest_text(&self) -> Option<&[u8]>
        ensures least { IfSome result (λ text. 5 ≤ length text.now) }
        ensures within { IfSome result (λ text. length text.now ≤ length self.now.bytes) }
        ensures newest { IfSome result (λ text. text.now
            ≡ drop (length self.now.bytes - length text.now) self.now.bytes) }
        ensures len { IfSome result (λ text. (n : ℕ) (before : List ℕ) → n < 2 ^ 16 →
            self.now.bytes ≡ before ++ little_bytes 2 n → length text.now ≡ n) }
    {
        let end = place(self.buffer.len(), self.first, self.len());
        let (block, _) = self.buffer.as_slices();
        if end < 2 || end > block.len() {
            return None;
        }
        let last = end - 2;
        let count = number(&block[last..last + 2]);
        if count < 5 || count > end || count > self.len {
            return None;
        }
        let from = end - count;
        Some(&block[from..from + count])
    }

    /// The newest bytes that lie in one piece up to the newest one, at most so many.
    #[inline(always)]
    pub(crate) fn newest_run(&self, most: usize) -> &[u8]
        ensures within { length result.now ≤ length self.now.bytes }
        ensures newest { result.now
            ≡ drop (length self.now.bytes - length result.now) self.now.bytes }
    {
        let end = place(self.buffer.len(), self.first, self.len());
        match self.newest_piece(end.min(self.len()).min(most)) {
            Some(piece) => piece,
            None => &[],
        }
    }

    /// The bytes that lie in one piece up to an index.
    #[inline(always)]
    pub(crate) fn run_before(&self, to: usize) -> &[u8]
        requires { to ≤ length self.now.bytes }
        ensures within { length result.now ≤ to }
        ensures run { result.now ≡ drop (to - length result.now) (take to self.now.bytes) }
    {
        let end = place(self.buffer.len(), self.first, to);
        let count = end.min(to);
        match self.piece(to - count, count) {
            Some(piece) => piece,
            None => &[],
        }
    }

    /// Takes moves back by the texts of their entries, the newest of which is at the end of `text`,
    /// and appends each text, as far as it goes into the block in one piece.
    #[inline(always)]
    pub(crate) fn take_run(
        &mut self,
        cpu: &mut Cpu,
        text: &[u8],
        most: u64,
        marks: &[bool; 8192],
        stays: Stays,
    ) -> Handed
        requires { EndsWay text.now cpu.old }
        ensures size { self.new.size ≡ self.old.size }
        ensures within { (result.taken ≤ most) × (result.len ≤ length text.now) }
        ensures handed { (ws : List Made) (ls : List Kept) (front : List ℕ) → IsWay ws cpu.old →
            HasText (front ++ text.now) (map kept_by ws) →
            HandsBack marks.now stays cpu.new
            (HasText (front ++ take (length text.now - result.len) text.now))
            (λ ms. HasText self.old.bytes ls → HasText self.new.bytes ms)
            result.taken ws ls cpu.old }
    {
        let left = self.buffer.capacity() - self.len();
        let end = place(self.buffer.len(), self.first, self.len());
        let room = left.min(self.buffer.len() - 1 - end);
        let block = self.buffer.make_contiguous();
        let handed = hand_texts(cpu, text, &mut block[end..end + room], most, marks, stays);
        self.len += handed.len;
        handed
    }

    /// The bytes from an index on, so many, where they lie in one piece; None where they go around
    /// the block's end.
    #[inline(always)]
    fn piece(&self, from: usize, count: usize) -> Option<&[u8]>
        requires { from + count ≤ length self.now.bytes }
        ensures { IfSome result (λ piece. piece.now ≡ take count (drop from self.now.bytes)) }
    {
        let at = place(self.buffer.len(), self.first, from);
        let (block, _) = self.buffer.as_slices();
        if at + count <= block.len() {
            Some(&block[at..at + count])
        } else {
            None
        }
    }

    /// The byte at an address and the depth of calls before the move whose entry's text are so many
    /// bytes from an index on, where they are `after` and `depth` behind the move: the bytes are
    /// read where they lie, or from a copy where they go around the block's end.
    #[inline(always)]
    pub fn byte_before(
        &self,
        from: usize,
        count: usize,
        depth: u32,
        address: u64,
        after: u8,
    ) -> (u8, u32)
        requires held { from + count ≤ length self.now.bytes }
        requires light { count ≤ greatest_weight }
        requires shallow { depth + 1 < 2 ^ 32 }
        ensures { (e : Entry) (mark : Bool) → FitsFields e →
            take count (drop from self.now.bytes) ≡ text e mark →
            result ≡ (byte_before_by depth e address after, depth_before_by depth e) }
    {
        let start = place(self.buffer.len(), self.first, from);
        let (block, _) = self.buffer.as_slices();
        if start + count <= block.len() {
            told_in(&block[start..start + count], depth, address, after)
        } else {
            self.byte_before_apart(from, count, depth, address, after)
        }
    }

    /// The byte that an address had before the moves of a front of the ring, by way of a copy of
    /// the entry's bytes.
    #[inline(never)]
    fn byte_before_apart(
        &self,
        from: usize,
        count: usize,
        depth: u32,
        address: u64,
        after: u8,
    ) -> (u8, u32)
        requires held { from + count ≤ length self.now.bytes }
        requires light { count ≤ greatest_weight }
        requires shallow { depth + 1 < 2 ^ 32 }
        ensures { (e : Entry) (mark : Bool) → FitsFields e →
            take count (drop from self.now.bytes) ≡ text e mark →
            result ≡ (byte_before_by depth e address after, depth_before_by depth e) }
    {
        let mut scratch = [0u8; GREATEST];
        self.copy_part(from, count, &mut scratch);
        told_in(&scratch[..count], depth, address, after)
    }

    /// Drops the oldest bytes.
    #[inline(always)]
    pub fn drop_oldest(&mut self, n: usize)
        requires { n ≤ length self.old.bytes }
        ensures size { self.new.size ≡ self.old.size }
        ensures bytes { self.new.bytes ≡ drop n self.old.bytes }
    {
        self.first = place(self.buffer.len(), self.first, n);
        self.len -= n;
    }

    /// Drops the newest bytes.
    pub fn drop_newest(&mut self, n: usize)
        requires { n ≤ length self.old.bytes }
        ensures size { self.new.size ≡ self.old.size }
        ensures bytes { self.new.bytes ≡ take (length self.old.bytes - n) self.old.bytes }
    {
        self.len -= n;
    }

    /// The byte at an index, the oldest first.
    pub fn byte(&self, index: usize) -> Option<u8>
        ensures { result ≡ slice_get self.now.bytes index }
    {
        if index >= self.len {
            return None;
        }
        self.buffer
            .get(place(self.buffer.len(), self.first, index))
            .copied()
    }

    /// Copies bytes, from an index on, into the whole of a slice.
    pub fn copy(&self, from: usize, into: &mut [u8])
        requires { from + length into.old ≤ length self.now.bytes }
        ensures { into.new ≡ take (length into.old) (drop from self.now.bytes) }
    {
        let _len = self.len();
        for i in 0..into.len() {
            if let Some(byte) = self.byte(from + i) {
                into[i] = byte;
            }
        }
    }

    /// Copies the newest bytes, so many, into the beginning of a slice.
    pub fn copy_newest(&self, count: usize, into: &mut [u8])
        requires held { count ≤ length self.now.bytes }
        requires room { count ≤ length into.old }
        ensures { take count into.new ≡ drop (length self.now.bytes - count) self.now.bytes }
    {
        let from = self.len() - count;
        self.copy_part(from, count, into);
    }

    /// Copies so many bytes, from an index on, into the beginning of a slice.
    pub fn copy_part(&self, from: usize, count: usize, into: &mut [u8])
        requires held { from + count ≤ length self.now.bytes }
        requires room { count ≤ length into.old }
        ensures { take count into.new ≡ take count (drop from self.now.bytes) }
    {
        self.copy(from, &mut into[..count]);
    }

    /// How many bytes the oldest entry has, and its tag, by the first three bytes: they are read at
    /// once where they lie in one piece.
    #[inline(always)]
    pub fn oldest(&self) -> (usize, u8)
        ensures len { (n : ℕ) (rest : List ℕ) → n < 2 ^ 16 →
            self.now.bytes ≡ little_bytes 2 n ++ rest → result.0 ≡ n }
        ensures tag { (e : Entry) (mark : Bool) (rest : List ℕ) →
            self.now.bytes ≡ text e mark ++ rest → result.1 ≡ tag (kind e) mark }
    {
        let (block, _) = self.buffer.as_slices();
        if self.len >= 3 && self.first + 3 <= block.len() {
            head(&block[self.first..self.first + 3])
        } else {
            (self.oldest_len(), self.tag_at(0))
        }
    }

    /// How many bytes the oldest entry has, by the first two bytes.
    pub fn oldest_len(&self) -> usize
        ensures { (n : ℕ) (rest : List ℕ) → n < 2 ^ 16 → self.now.bytes ≡ little_bytes 2 n ++ rest →
            result ≡ n }
    {
        self.len_at(0)
    }

    /// How many bytes an entry has that begins at a place, by the two bytes there.
    pub fn len_at(&self, place: usize) -> usize
        ensures { (n : ℕ) (before rest : List ℕ) → n < 2 ^ 16 →
            self.now.bytes ≡ before ++ (little_bytes 2 n ++ rest) → place ≡ length before →
            result ≡ n }
    {
        if place >= self.len {
            return 0;
        }
        match (self.byte(place), self.byte(place + 1)) {
            (Some(low), Some(high)) => usize::from(low) + 256 * usize::from(high),
            _ => 0,
        }
    }

    /// The tag of the entry that begins at a place.
    pub fn tag_at(&self, place: usize) -> u8
        ensures { (e : Entry) (mark : Bool) (before rest : List ℕ) →
            self.now.bytes ≡ before ++ (text e mark ++ rest) → place ≡ length before →
            result ≡ tag (kind e) mark }
    {
        if place >= self.len {
            return 0;
        }
        self.byte(place + 2).unwrap_or(0)
    }

    /// How many bytes the newest entry has, by the last two bytes: they are read at once where they
    /// lie in one piece.
    #[inline(always)]
    pub fn newest_len(&self) -> usize
        requires { 2 ≤ length self.now.bytes }
        ensures { (n : ℕ) (before : List ℕ) → n < 2 ^ 16 →
            self.now.bytes ≡ before ++ little_bytes 2 n → result ≡ n }
    {
        match self.newest_piece(2) {
            Some(piece) => number(piece),
            None => self.len_before(self.len()),
        }
    }

    /// How many bytes an entry has that ends at a place, by the two bytes in front of the place:
    /// they are read at once where they lie in one piece.
    #[inline(always)]
    pub fn len_before(&self, place: usize) -> usize
        requires { (2 ≤ place) × (place ≤ length self.now.bytes) }
        ensures { (n : ℕ) (before rest : List ℕ) → n < 2 ^ 16 →
            self.now.bytes ≡ before ++ (little_bytes 2 n ++ rest) → place ≡ length before + 2 →
            result ≡ n }
    {
        match self.piece(place - 2, 2) {
            Some(piece) => number(piece),
            None => self.len_before_apart(place),
        }
    }

    /// The length that stands in the two bytes in front of a place, read a byte at a time.
    #[inline(never)]
    fn len_before_apart(&self, place: usize) -> usize
        requires { (2 ≤ place) × (place ≤ length self.now.bytes) }
        ensures { (n : ℕ) (before rest : List ℕ) → n < 2 ^ 16 →
            self.now.bytes ≡ before ++ (little_bytes 2 n ++ rest) → place ≡ length before + 2 →
            result ≡ n }
    {
        match (self.byte(place - 2), self.byte(place - 1)) {
            (Some(low), Some(high)) => usize::from(low) + 256 * usize::from(high),
            _ => 0,
        }
    }
}

/// Takes back the move whose entry has this text. Answers the entry's tag.
#[inline(always)]
pub(crate) fn revert(cpu: &mut Cpu, bytes: &[u8]) -> u8
    requires { HasComeBy cpu.old bytes.now }
    ensures back { (x : State) (m : Move) (mark : Bool) → Leads x m cpu.old →
        FitsFields (overwritten x m) → bytes.now ≡ text (overwritten x m) mark → cpu.new ≡ x }
    ensures tag { (e : Entry) (mark : Bool) (rest : List ℕ) → bytes.now ≡ text e mark ++ rest →
        result ≡ tag (kind e) mark }
{
    let _len = text_len(cpu, bytes);
    cpu.revert_text(bytes);
    bytes[2]
}

/// The length that an entry's last two bytes are.
#[inline(always)]
pub(crate) fn number(bytes: &[u8]) -> usize
    requires { length bytes.now ≡ 2 }
    ensures { (n : ℕ) → n < 2 ^ 16 → bytes.now ≡ little_bytes 2 n → result ≡ n }
{
    usize::from(LittleEndian::read_u16(bytes))
}

/// The length and the tag that an entry's first three bytes are.
#[inline(always)]
pub(crate) fn head(bytes: &[u8]) -> (usize, u8)
    requires { length bytes.now ≡ 3 }
    ensures len { (n : ℕ) (rest : List ℕ) → n < 2 ^ 16 → bytes.now ≡ little_bytes 2 n ++ rest →
        result.0 ≡ n }
    ensures tag { (low high third : ℕ) → bytes.now ≡ low ∷ high ∷ third ∷ [] → result.1 ≡ third }
{
    (usize::from(LittleEndian::read_u16(&bytes[..2])), bytes[2])
}

/// What the text of an entry tells of the byte at an address and of the depth before its move.
#[inline(always)]
fn told_in(bytes: &[u8], depth: u32, address: u64, after: u8) -> (u8, u32)
    requires { depth + 1 < 2 ^ 32 }
    ensures { (e : Entry) (mark : Bool) → FitsFields e → bytes.now ≡ text e mark →
        result ≡ (byte_before_by depth e address after, depth_before_by depth e) }
{
    (
        byte_before(bytes, depth, address, after),
        depth_before(bytes, depth),
    )
}
