//! Byte strings of 1 to 256 bytes.
ghost use Rattle.std.specs.Prelude.{◌≡◌, ◌≤◌, ◌↔◌, length, IsSome, IfSome};

use arrayvec::ArrayVec;
use std::marker::Model;

/// 1 to 256 bytes.
#[derive(Drop)]
pub struct ByteString {
    items: ArrayVec<u8, 256>,
}

impl Model for ByteString {
    ghost use Rattle.std.specs.Prelude.{ℕ, List, length, ◌≤◌};

    ghost Value = { List ℕ };

    ghost view = { λ s. s.items.items };

    ghost invariant = { λ s. (1 ≤ length s.items.items) × (length s.items.items ≤ 256) };
}

impl ByteString {
    /// The byte string with these bytes, None where they are none or more than 256.
    pub fn new(bytes: &[u8]) -> Option<ByteString>
        ensures found { IsSome result ↔ (1 ≤ length bytes.now) × (length bytes.now ≤ 256) }
        ensures value { IfSome result (λ s. s ≡ bytes.now) }
    {
        if bytes.is_empty() || bytes.len() > 256 {
            return None;
        }
        Some(ByteString::of(bytes))
    }

    /// The byte string with these bytes.
    pub fn of(bytes: &[u8]) -> ByteString
        requires { (1 ≤ length bytes.now) × (length bytes.now ≤ 256) }
        ensures { result ≡ bytes.now }
    {
        let mut items = ArrayVec::new();
        let _ = items.try_extend_from_slice(bytes);
        ByteString { items }
    }

    /// How many bytes it has, 1 to 256.
    pub fn len(&self) -> usize
        ensures value { result ≡ length self.now }
        ensures fits { (1 ≤ result) × (result ≤ 256) }
    {
        self.as_slice().len()
    }

    /// Its bytes.
    pub fn as_slice(&self) -> &[u8]
        ensures value { result.now ≡ self.now }
        ensures fits { (1 ≤ length result.now) × (length result.now ≤ 256) }
    {
        self.items.as_slice()
    }

    /// A copy.
    pub fn copied(&self) -> ByteString
        ensures { result ≡ self.now }
    {
        ByteString::of(self.as_slice())
    }
}
