//! The sections that the code of a program comes from.
ghost use Rattle.std.specs.Prelude.{◌≡◌, ◌≤◌, ◌+◌, ◌*◌, ◌/◌, length};
ghost use Rattle.bpf_isa.specs.Checker.{most_slots};
ghost use Rattle.bpf_link.specs.Parts.{AreParts, first_of, part_of, slots_in};

use crate::tables::{Bytes, Relocations};
use std::marker::Model;

/// A section of a program.
#[derive(Drop)]
pub struct Part<'a> {
    /// Its index, 0 of none.
    pub section: usize,
    pub slots: Bytes<'a>,
    pub relocations: Relocations<'a>,
}

impl<'a> Part<'a> {
    /// How many slots it has.
    pub fn len(&self) -> usize
        ensures { result ≡ slots_in self.now }
    {
        self.slots.bytes.len() / 8
    }
}

/// One of the parts of a program.
#[derive(Clone, Copy)]
pub enum Side {
    /// The section that is asked for.
    Code,
    /// `.text` behind it.
    Text,
}

/// The parts of a program, one behind the other. Contracts see both.
#[derive(Drop)]
pub struct Parts<'a> {
    /// The section that is asked for.
    pub code: Part<'a>,
    /// `.text`, without slots where it isn't called.
    pub text: Part<'a>,
}

impl<'a> Model for Parts<'a> {
    ghost use Rattle.bpf_link.specs.Parts.{AreParts, Sides};

    ghost Value = { Sides };

    ghost view = { λ p. record { code = p.code; text = p.text } };

    ghost invariant = { λ p. AreParts (record { code = p.code; text = p.text }) };
}

impl<'a> Parts<'a> {
    /// A part.
    pub fn part(&self, side: Side) -> &Part<'a>
        ensures value { result.now ≡ part_of self.now side }
        ensures whole { length result.now.slots ≡ 8 * slots_in result.now }
        ensures short { first_of self.now side + slots_in result.now ≤ most_slots }
    {
        match side {
            Side::Code => &self.code,
            Side::Text => &self.text,
        }
    }

    /// The slot of the program that the first one of a part is.
    pub fn first(&self, side: Side) -> usize
        ensures value { result ≡ first_of self.now side }
        ensures small { result ≤ most_slots }
    {
        match side {
            Side::Code => 0,
            Side::Text => self.code.len(),
        }
    }

    /// Brings what holds of all parts into a proof.
    pub fn invariant(&self)
        ensures { AreParts self.now }
    {
        let _code = &self.code;
    }

    /// How many slots they have.
    pub fn len(&self) -> usize
        ensures value { result ≡ slots_in self.now.code + slots_in self.now.text }
        ensures small { result ≤ most_slots }
    {
        self.code.len() + self.text.len()
    }
}
