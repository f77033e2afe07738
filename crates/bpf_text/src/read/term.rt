//! Operands of a listing, as they are written.
ghost use Rattle.std.specs.Prelude.{◌≡◌, ◌≤◌, length, List, ℕ, position};
ghost use Rattle.std.specs.List.{position_or_len};
ghost use Rattle.bpf_text.specs.Scaffolding.Terms.{is_sign, is_bracketed};
ghost use Rattle.bpf_text.specs.Scaffolding.Instructions.{register_in, unsigned_in, immediate_in, wide_in, source_in, memory_in, name_in, target_in};
ghost use Rattle.bpf_text.specs.Scaffolding.Terms.{term_of, memory, displacement, base_and_displacement, three, terms_of};
ghost use Rattle.bpf_text.specs.Scaffolding.Cuts.{first_operand, other_operands};

use crate::read::characters::is_name;
use crate::read::number::{Number, signed_number};
use bpf_isa::{Address, Reg, Source};
use counted_io::{Numeral, find, natural, sides, trim};
use std::marker::Model;

/// How an operand is written.
#[derive(Clone, Copy)]
pub enum OperandForm {
    /// A register: r0 to r10.
    Register,
    /// A number without a sign.
    Unsigned,
    /// A number, which may have a minus.
    Signed,
    /// A register or a number, which may have a minus.
    Source,
    /// A register in brackets, which a sign and a number may follow.
    Memory,
    /// The name of a label.
    Name,
}

/// How the operands of a mnemonic are written.
#[derive(Clone, Copy)]
pub enum OperandForms {
    Nothing,
    One(OperandForm),
    Two(OperandForm, OperandForm),
    Three(OperandForm, OperandForm, OperandForm),
}

/// A label's name. Contracts see its bytes.
#[derive(Drop)]
pub struct Name<'a> {
    pub bytes: &'a [u8],
}

impl<'a> Model for Name<'a> {
    ghost use Rattle.std.specs.Prelude.{ℕ, List};

    ghost Value = { List ℕ };

    ghost view = { λ n. n.bytes.now };
}

/// An operand as it is written. Its numbers may be of any size.
#[derive(Drop)]
pub enum Term<'a> {
    Register(Reg),
    Number(Number<'a>),
    Memory(Reg, Number<'a>),
    Name(Name<'a>),
    /// No operand stands there.
    Absent,
}

/// The operands of an instruction as they are written: at most three.
#[derive(Drop)]
pub struct Terms<'a> {
    pub first: Term<'a>,
    pub second: Term<'a>,
    pub third: Term<'a>,
}

impl<'a> Term<'a> {
    /// The register, if it is one.
    pub fn register(&self) -> Option<Reg>
        ensures { result ≡ register_in self.now }
    {
        match self {
            Term::Register(reg) => Some(*reg),
            _ => None,
        }
    }

    /// The number, if it is one below 2^32.
    pub fn unsigned(&self) -> Option<u32>
        ensures { result ≡ unsigned_in self.now }
    {
        match self {
            Term::Number(number) => number.unsigned(),
            _ => None,
        }
    }

    /// The signed number of 32 bits, if it is a number in the range of one.
    pub fn immediate(&self) -> Option<i32>
        ensures { result ≡ immediate_in self.now }
    {
        match self {
            Term::Number(number) => number.immediate(),
            _ => None,
        }
    }

    /// The number of 64 bits, if it is a number in the range of one.
    pub fn wide(&self) -> Option<u64>
        ensures { result ≡ wide_in self.now }
    {
        match self {
            Term::Number(number) => number.wide(),
            _ => None,
        }
    }

    /// The second operand of arithmetic or of a jump, if it can be one.
    pub fn source(&self) -> Option<Source>
        ensures { result ≡ source_in self.now }
    {
        match self {
            Term::Register(reg) => Some(Source::Register(*reg)),
            Term::Number(number) => Some(Source::Immediate(number.immediate()?)),
            _ => None,
        }
    }

    /// The memory at a register and an offset in bytes, if its offset is in its range.
    pub fn memory(&self) -> Option<Address>
        ensures { result ≡ memory_in self.now }
    {
        match self {
            Term::Memory(base, number) => {
                let offset = number.offset()?;
                Some(Address {
                    base: *base,
                    offset,
                })
            }
            _ => None,
        }
    }

    /// The name, if it is one.
    pub fn name(&self) -> Option<Name<'a>>
        ensures { result ≡ name_in self.now }
    {
        match self {
            Term::Name(name) => Some(Name { bytes: name.bytes }),
            _ => None,
        }
    }
}

impl<'a> Terms<'a> {
    fn new(first: Term<'a>, second: Term<'a>, third: Term<'a>) -> Terms<'a>
        ensures { result ≡ three first.entry second.entry third.entry }
    {
        Terms {
            first,
            second,
            third,
        }
    }

    /// The name of the target, if there is one.
    pub fn target(&self) -> Option<Name<'a>>
        ensures { result ≡ target_in self.now }
    {
        match self.third.name() {
            Some(name) => Some(name),
            None => self.first.name(),
        }
    }
}

/// Operands of these forms, if they are.
pub fn read_terms(forms: OperandForms, text: &[u8]) -> Option<Terms<'_>>
    ensures { result ≡ terms_of forms text.now }
{
    match forms {
        OperandForms::Nothing => {
            if text.is_empty() {
                Some(Terms::new(Term::Absent, Term::Absent, Term::Absent))
            } else {
                None
            }
        }
        OperandForms::One(a) => {
            let first = read_term(a, text)?;
            Some(Terms::new(first, Term::Absent, Term::Absent))
        }
        OperandForms::Two(a, b) => {
            let (first, second) = first_and_others(text);
            let first = read_term(a, first)?;
            let second = read_term(b, second)?;
            Some(Terms::new(first, second, Term::Absent))
        }
        OperandForms::Three(a, b, c) => {
            let (first, others) = first_and_others(text);
            let (second, third) = first_and_others(others);
            let first = read_term(a, first)?;
            let second = read_term(b, second)?;
            let third = read_term(c, third)?;
            Some(Terms::new(first, second, third))
        }
    }
}

/// The first operand, and those behind its comma.
fn first_and_others(text: &[u8]) -> (&[u8], &[u8])
    ensures first { result.0.now ≡ first_operand text.now }
    ensures others { result.1.now ≡ other_operands text.now }
{
    let (first, others) = sides(text, b',');
    (trim(first), trim(others))
}

/// An operand of this form, if it is one.
fn read_term(form: OperandForm, text: &[u8]) -> Option<Term<'_>>
    ensures { result ≡ term_of form text.now }
{
    match form {
        OperandForm::Register => Some(Term::Register(Reg::parse(text)?)),
        OperandForm::Unsigned => {
            let magnitude = natural(text)?;
            Some(Term::Number(Number {
                negative: false,
                magnitude,
            }))
        }
        OperandForm::Signed => Some(Term::Number(signed_number(text)?)),
        OperandForm::Source => match Reg::parse(text) {
            Some(reg) => Some(Term::Register(reg)),
            None => Some(Term::Number(signed_number(text)?)),
        },
        OperandForm::Memory => memory(text),
        OperandForm::Name => {
            if is_name(text) {
                Some(Term::Name(Name { bytes: text }))
            } else {
                None
            }
        }
    }
}

fn memory(text: &[u8]) -> Option<Term<'_>>
    ensures { result ≡ memory text.now }
{
    if is_bracketed(text) {
        base_and_displacement(&text[1..text.len() - 1])
    } else {
        None
    }
}

fn is_bracketed(text: &[u8]) -> bool
    ensures { result ≡ is_bracketed text.now }
{
    !text.is_empty() && text[0] == b'[' && find(text, b']') + 1 == text.len()
}

/// What stands in brackets: a register, and a sign and a number, if one follows.
fn base_and_displacement(text: &[u8]) -> Option<Term<'_>>
    ensures { result ≡ base_and_displacement text.now }
{
    let sign = find_sign(text);
    let base = Reg::parse(trim(&text[..sign]))?;
    Some(Term::Memory(base, displacement(text, sign)?))
}

/// The number behind the register in brackets, from its sign's place on: 0 if none stands there.
fn displacement(text: &[u8], sign: usize) -> Option<Number<'_>>
    requires value { sign ≡ position_or_len is_sign text.now }
    requires within { sign ≤ length text.now }
    ensures { result ≡ displacement text.now }
{
    if sign == text.len() {
        return Some(Number {
            negative: false,
            magnitude: Numeral::zero(),
        });
    }
    let magnitude = natural(trim(&text[sign + 1..]))?;
    Some(Number {
        negative: text[sign] == b'-',
        magnitude,
    })
}

fn is_sign(byte: u8) -> bool
    ensures { result ≡ is_sign byte }
{
    byte == b'+' || byte == b'-'
}

fn sign_position(text: &[u8]) -> Option<usize>
    ensures { result ≡ position is_sign text.now }
{
    text.iter().position(|byte| is_sign(*byte))
}

#[tactic(auto, using(counted_io::proofs::Places::unwrap_or_position))]
fn find_sign(text: &[u8]) -> usize
    ensures value { result ≡ position_or_len is_sign text.now }
    ensures within { result ≤ length text.now }
{
    sign_position(text).unwrap_or(text.len())
}
