//! The bodies of packets, in a buffer of fixed size.
ghost use Rattle.std.specs.Prelude.{◌≡◌, ◌<◌, ◌≤◌, ◌++◌, ◌∷◌, [], List, MatchOption, false, IsSome, length, ℕ};
ghost use Rattle.byteorder.specs.Endian.{big_bytes, little_bytes};
ghost use Rattle.bpf_remote.specs.Numbers.{address_text, hex_text, word_text};
ghost use Rattle.bpf_remote.specs.Packets.{Holds, longest_body};

use crate::digits::two_digits;
use arrayvec::ArrayVec;
use byteorder::{BigEndian, ByteOrder, LittleEndian};
use std::marker::Model;

/// The longest body that is read or sent, in bytes.
pub const LONGEST_BODY: usize = 16384;

/// A body: its bytes, up to 16,384 of them, or that it has more.
#[derive(Drop)]
pub struct Body {
    bytes: ArrayVec<u8, LONGEST_BODY>,
    is_long: bool,
}

impl Model for Body {
    ghost use Rattle.bpf_remote.specs.Packets.{Buffer};

    ghost Value = { Buffer };

    ghost view = { λ b. record { bytes = b.bytes.items; is_long = b.is_long } };
}

impl Body {
    /// An empty body.
    pub fn new() -> Body
        ensures { Holds result [] }
    {
        Body {
            bytes: ArrayVec::new(),
            is_long: false,
        }
    }

    /// Empties it.
    pub(crate) fn clear(&mut self)
        ensures { Holds self.new [] }
    {
        self.bytes.clear();
        self.is_long = false;
    }

    /// Adds a byte, which is dropped where the body is too long.
    pub(crate) fn push(&mut self, byte: u8)
        ensures { (body : List ℕ) → Holds self.old body → Holds self.new (body ++ byte ∷ []) }
    {
        if self.bytes.try_push(byte).is_err() {
            self.is_long = true;
        }
    }

    /// Adds a text, which is dropped where the body is too long.
    pub(crate) fn append(&mut self, text: &[u8])
        ensures { (body : List ℕ) → Holds self.old body → Holds self.new (body ++ text.now) }
    {
        if self.bytes.try_extend_from_slice(text).is_err() {
            self.is_long = true;
        }
    }

    /// Adds bytes as two lower-case digits each.
    pub(crate) fn append_hex(&mut self, bytes: &[u8])
        ensures { (body : List ℕ) → Holds self.old body →
            Holds self.new (body ++ hex_text bytes.now) }
    {
        for byte in bytes {
            self.append(&two_digits(*byte));
        }
    }

    /// Adds the eight bytes of a number, the lowest first.
    #[tactic(auto, unfolding(crate::specs::Numbers::word_text))]
    pub(crate) fn append_word(&mut self, value: u64)
        ensures { (body : List ℕ) → Holds self.old body → Holds self.new (body ++ word_text value) }
    {
        self.append_hex(&word_bytes(value));
    }

    /// Adds the eight bytes of an address, the highest first.
    #[tactic(auto, unfolding(crate::specs::Numbers::address_text))]
    pub(crate) fn append_address(&mut self, address: u64)
        ensures { (body : List ℕ) → Holds self.old body →
            Holds self.new (body ++ address_text address) }
    {
        self.append_hex(&address_bytes(address));
    }

    /// Its bytes, None where there are more than 16,384.
    pub fn bytes(&self) -> Option<&[u8]>
        ensures short { IsSome result → self.now.is_long ≡ false }
        ensures value { (body : List ℕ) → Holds self.now body →
            MatchOption result (longest_body < length body)
            (λ bytes. (bytes.now ≡ body) × (length body ≤ longest_body)) }
    {
        if self.is_long {
            return None;
        }
        Some(self.bytes.as_slice())
    }
}

/// The eight bytes of an address, the highest first.
fn address_bytes(address: u64) -> [u8; 8]
    ensures { result ≡ big_bytes 8 address }
{
    let mut bytes = [0; 8];
    BigEndian::write_u64(&mut bytes, address);
    bytes
}

/// The eight bytes of a number, the lowest first.
pub(crate) fn word_bytes(value: u64) -> [u8; 8]
    ensures { result ≡ little_bytes 8 value }
{
    let mut bytes = [0; 8];
    LittleEndian::write_u64(&mut bytes, value);
    bytes
}
