//! The texts of a program's instructions, each made once.
ghost use Rattle.std.specs.Prelude.{◌≡◌, ◌<◌, ◌++◌, IfOk, length, slice_index_or, []};
ghost use Rattle.bpf_cover.specs.Texts.{slot_text, texts_of};

use bpf_isa::Program;
use bpfdb_script::put_at;
use counted_io::Counted;
use std::alloc::{AllocError, Global};
use std::marker::Model;

/// Where a text lies among all.
#[derive(Clone, Copy)]
struct Span {
    start: usize,
    end: usize,
}

/// The text of each instruction of a program, with its slot. Contracts see them slot by slot; the
/// second slot of a wide load has none.
#[derive(Drop)]
pub struct Texts {
    bytes: Vec<u8>,
    spans: Vec<Span>,
}

impl Model for Texts {
    ghost use Rattle.std.specs.Prelude.{ℕ, List, All, map};
    ghost use Rattle.bpf_cover.specs.Texts.{LiesIn, text_in};

    ghost Value = { List (List ℕ) };

    ghost view = { λ texts. map (text_in texts.bytes.items) texts.spans.items };

    ghost invariant = { λ texts. All (LiesIn texts.bytes.items) texts.spans.items };
}

impl Texts {
    /// Makes them, and takes all memory for them.
    pub fn of(alloc: Global, program: &Program) -> Result<Texts, AllocError>
        ensures { IfOk result (λ texts. texts ≡ texts_of program.now) }
    {
        let mut bytes = Vec::new(alloc);
        let mut spans = Vec::with_capacity(alloc, program.len())?;
        for slot in 0..program.len() {
            let start = bytes.len();
            bytes = with_text(bytes, program, slot)?;
            let span = Span {
                start,
                end: bytes.len(),
            };
            match spans.push(span) {
                Ok(()) => {}
                Err(_) => return Err(AllocError),
            }
        }
        Ok(Texts { bytes, spans })
    }

    /// The text at a slot.
    #[inline(always)]
    pub fn at(&self, slot: usize) -> &[u8]
        requires { slot < length self.now }
        ensures { result.now ≡ slice_index_or self.now slot [] }
    {
        let span = self.spans[slot];
        &self.bytes.as_slice()[span.start..span.end]
    }
}

/// Appends the text of the instruction that starts at a slot.
fn with_text(bytes: Vec<u8>, program: &Program, slot: usize) -> Result<Vec<u8>, AllocError>
    ensures { IfOk result (λ longer. longer.items ≡ bytes.items ++ slot_text program.now slot) }
{
    match program.insn_at(slot) {
        Some(_) => {
            let mut writer = Counted::new(bytes);
            match put_at(&mut writer, Ok(()), program, slot) {
                Ok(()) => Ok(writer.into_inner()),
                Err(_) => Err(AllocError),
            }
        }
        None => Ok(bytes),
    }
}
