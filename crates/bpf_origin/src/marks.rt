//! Marks: a bit each, by which is told at once of most places that none of them is wanted.
ghost use Rattle.std.specs.Prelude.{◌≡◌, ◌<◌, ℕ, All, true, false};
ghost use Rattle.bpf_origin.specs.Marks as spec;

use crate::place::Place;
use std::alloc::{AllocError, Global};
use std::marker::Model;

/// How many words of 64 marks there are.
const WORDS: usize = 18438;

/// The first mark of a traced word, behind those of bytes.
const FIRST_WORD: usize = 1_179_648;

/// The first mark of a register.
const FIRST_REGISTER: usize = 1_179_904;

/// Marks of places. Each byte that a machine can have, each traced word and each register has one
/// of its own.
#[derive(Drop)]
pub struct Marks {
    words: Vec<u64>,
}

impl Model for Marks {
    ghost use Rattle.std.specs.Prelude.{◌≡◌, ℕ, List, length};
    ghost use Rattle.bpf_origin.specs.Marks.{mark_words};

    ghost Value = { List ℕ };

    ghost view = { λ m. m.words.items };

    ghost invariant = { λ m. length m.words.items ≡ mark_words };
}

impl Marks {
    /// No place is marked.
    pub fn new(alloc: Global) -> Result<Marks, AllocError> {
        match Vec::from_elem(alloc, 0, WORDS) {
            Ok(words) => Ok(Marks { words }),
            Err(error) => Err(error),
        }
    }

    /// Whether the place of a mark is marked.
    pub fn has(&self, mark: usize) -> bool
        requires { mark < spec.most_marks }
        ensures { result ≡ spec.is_marked self.now mark }
    {
        (self.words[mark / 64] >> (mark % 64)) & 1 == 1
    }

    /// Marks the place of a mark; all others stay marked.
    pub fn set(&mut self, mark: usize)
        requires { mark < spec.most_marks }
        ensures set { spec.is_marked self.new mark ≡ true }
        ensures kept { (other : ℕ) → spec.is_marked self.old other ≡ true →
            spec.is_marked self.new other ≡ true }
    {
        self.words[mark / 64] |= 1 << (mark % 64);
    }

    /// The place of a mark isn't marked, nor are its neighbours.
    fn clear(&mut self, mark: usize)
        requires { mark < spec.most_marks }
        ensures cleared { spec.is_marked self.new mark ≡ false }
        ensures kept { (other : ℕ) → spec.is_marked self.old other ≡ false →
            spec.is_marked self.new other ≡ false }
    {
        self.words[mark / 64] = 0;
    }

    /// Marks places.
    pub fn mark(&mut self, places: &[Place])
        ensures { spec.AreMarked self.new places.now }
    {
        for place in places {
            self.set(mark_of(*place));
        }
    }

    /// None of these places is marked, nor are their neighbours.
    pub fn unmark(&mut self, places: &[Place])
        ensures { All (λ p. spec.is_marked self.new (spec.mark_of p) ≡ false) places.now }
    {
        for place in places {
            self.clear(mark_of(*place));
        }
    }
}

/// The mark of a place.
pub fn mark_of(place: Place) -> usize
    ensures value { result ≡ spec.mark_of place }
    ensures within { result < spec.most_marks }
{
    match place {
        Place::Byte { address } => byte_mark(address),
        Place::Word { index } => FIRST_WORD + index % 256,
        Place::Register { depth, number } => {
            FIRST_REGISTER + (16 * (depth % 8) + usize::from(number % 16))
        }
    }
}

/// The mark of the byte at an address. Each region has 65,536 marks: the context, all frames
/// together, and each map.
pub fn byte_mark(address: u64) -> usize
    ensures value { result ≡ spec.byte_mark address }
    ensures within { result < 1179648 }
{
    let region = match address / 0x1_0000_0000 {
        1 => 0,
        2 => 1,
        _ => 2 + address / 0x10_0000 % 16,
    };
    65536 * region as usize + (address % 65536) as usize
}
