//! Moves that left the byte at an address as it was: their entries are passed over where they lie.
ghost use Rattle.std.specs.Prelude.{◌≡◌, ◌≤◌, ◌<◌, ◌+◌, ◌^◌, ◌∷◌, ◌++◌, ℕ, Bool, List, IfSome, length, sum_by};
ghost use Rattle.bpf_entries.specs.Before.{byte_before as byte_before_by, depth_before as depth_before_by};
ghost use Rattle.bpf_entries.specs.Fields.{FitsFields};
ghost use Rattle.bpf_entries.specs.Keeping.{Kept, kept_weight};
ghost use Rattle.bpf_entries.specs.Texts.{text as text_of};
ghost use Rattle.bpf_entries.specs.declared.entry.Entry.{Entry};
ghost use Rattle.bpf_ring.specs.Held.{RingHolds};
ghost use Rattle.bpf_ring.specs.Quiet.{EndsQuiet, IsQuietTo, PassesOver};
ghost use Rattle.bpf_ring.specs.Ways.{HasText};

use crate::keeper::RingKeeper;
use crate::ring::number;
use bpf_entries::{byte_before, depth_before};

/// How far entries were passed over.
#[derive(Clone, Copy)]
pub struct PassedOver {
    /// How many they were.
    pub count: usize,
    /// The place of the front without them.
    pub place: usize,
    /// The depth of calls before their moves.
    pub depth: u32,
}

impl RingKeeper {
    /// How many of the newest entries of the front at a place are of moves that left the byte at an
    /// address as it was, which is `value` behind them, and lie in one piece, maybe none; the place
    /// of the front without them; and the depth of calls before them, by that behind them.
    #[inline(always)]
    pub fn pass_over(&self, place: usize, depth: u32, address: u64, value: u8) -> PassedOver
        ensures { (newer front : List Kept) → RingHolds self.now (newer ++ front) →
            place ≡ sum_by kept_weight front → PassesOver address value depth front result }
    {
        if place > self.ring.len() {
            return PassedOver {
                count: 0,
                place,
                depth,
            };
        }
        let run = self.ring.run_before(place);
        let passed = quiet_in(run, depth, address, value);
        PassedOver {
            count: passed.count,
            place: place - run.len() + passed.place,
            depth: passed.depth,
        }
    }
}

/// How many entries at the end of a text are of such moves, and how many bytes are in front of them.
#[inline(always)]
fn quiet_in(text: &[u8], depth: u32, address: u64, value: u8) -> PassedOver
    ensures within { result.place ≤ length text.now }
    ensures quiet { (front : List ℕ) (ks : List Kept) → HasText (front ++ text.now) ks →
        IsQuietTo address value depth front text.now ks result }
{
    let mut place = text.len();
    let mut deep = depth;
    for count in 0..text.len() {
        match quiet_end(&text[..place], deep, address, value) {
            Some((weight, before)) => {
                place -= weight;
                deep = before;
            }
            None => {
                return PassedOver {
                    count,
                    place,
                    depth: deep,
                };
            }
        }
    }
    PassedOver {
        count: text.len(),
        place,
        depth: deep,
    }
}

/// How many bytes the entry has that the end of a text is, and the depth of calls before its move,
/// where that left the byte as it was.
#[inline(always)]
fn quiet_end(text: &[u8], depth: u32, address: u64, value: u8) -> Option<(usize, u32)>
    ensures { IfSome result (λ end. EndsQuiet address value depth text.now end.0 end.1) }
{
    let len = text.len();
    if len < 5 {
        return None;
    }
    let count = number(&text[len - 2..len]);
    if count < 5 || count > len {
        return None;
    }
    match quiet_depth(&text[len - count..len], depth, address, value) {
        Some(before) => Some((count, before)),
        None => None,
    }
}

/// The depth of calls before the move of the entry with this text, by that behind it, where the move
/// left the byte at an address as it was, which is `value` behind it. A step that replaced a
/// register or nothing, with a mark or without, is told by its kind alone.
#[inline(always)]
fn quiet_depth(text: &[u8], depth: u32, address: u64, value: u8) -> Option<u32>
    requires { 5 ≤ length text.now }
    ensures { IfSome result (λ before. (e : Entry) (mark : Bool) → FitsFields e →
        text.now ≡ text_of e mark → (byte_before_by depth e address value ≡ value)
        × (before ≡ depth_before_by depth e)) }
{
    let kind = text[2] % 128;
    if kind == 1 || kind == 2 {
        return Some(depth);
    }
    if depth == u32::MAX || byte_before(text, depth, address, value) != value {
        return None;
    }
    Some(depth_before(text, depth))
}
