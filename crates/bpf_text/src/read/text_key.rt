//! A key for hashes that is made of a whole listing.
ghost use Rattle.std.specs.Prelude.{◌≡◌};
ghost use Rattle.bpf_text.specs.Scaffolding.TextKey.{key_of};

use std::hash::{BuildHasher, DefaultHasher, Hasher};

/// Hashes by SipHash, which first takes in a hash of the whole listing. Whoever writes labels to
/// have one hash changes the listing by it, and so the hashes.
#[derive(Clone, Copy)]
pub struct TextKey {
    start: DefaultHasher,
}

impl TextKey {
    /// The key that a listing makes.
    pub fn of(text: &[u8]) -> TextKey
        ensures { result ≡ key_of text.now }
    {
        let mut whole = DefaultHasher::new();
        whole.write(text);
        let mut start = DefaultHasher::new();
        start.write_u64(whole.finish());
        TextKey { start }
    }
}

impl BuildHasher for TextKey {
    type Hasher = DefaultHasher;

    ghost build_hasher = { λ key. key.start };

    fn build_hasher(&self) -> DefaultHasher {
        self.start
    }
}
