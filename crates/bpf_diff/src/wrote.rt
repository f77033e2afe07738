//! What a step wrote, and whether another one wrote the same.
ghost use Rattle.std.specs.Prelude.{◌≡◌, ◌-◌, length};
ghost use lib.Pointwise.{pointwise};
ghost use Rattle.bpf_trace.specs.Taken.{parts_by};
ghost use Rattle.bpf_diff.specs.Alike.{bytes_at, same_part};
ghost use Rattle.bpf_diff.specs.Following.{part_of, parts_of};

use bpf_entries::{FRAME_LEN, frame_base};
use bpf_machine::{Change, Cpu};
use bpf_origin::{depth_for, register_at, word_at};

/// A part that a step wrote.
#[derive(Clone, Copy)]
pub enum Piece {
    /// A register of the function that the step led to.
    Register(u8),
    /// Bytes of memory.
    Bytes { address: u64, len: usize },
    /// A traced word, 0 the first.
    Word(usize),
}

/// All that a step wrote.
#[derive(Clone, Copy)]
pub enum Wrote {
    Nothing,
    One(Piece),
    Two(Piece, Piece),
}

/// What the step with this change wrote, which led to where a machine stands.
pub fn wrote_by(cpu: &Cpu, change: &Change) -> Wrote
    ensures { parts_of cpu.now result ≡ parts_by cpu.now change.now }
{
    cpu.invariant();
    match *change {
        Change::Set { register, .. } => Wrote::One(Piece::Register(register.number())),
        Change::Store { address, size, .. } => Wrote::One(Piece::Bytes {
            address,
            len: size.len(),
        }),
        Change::Fetch {
            address,
            size,
            register,
            ..
        } => {
            let bytes = Piece::Bytes {
                address,
                len: size.len(),
            };
            Wrote::Two(Piece::Register(register.number()), bytes)
        }
        Change::Call { .. } => Wrote::One(Piece::Bytes {
            address: frame_base(cpu.depth() as u32),
            len: FRAME_LEN,
        }),
        Change::Cell {
            address,
            length,
            ..
        } => {
            let bytes = Piece::Bytes {
                address,
                len: usize::from(length),
            };
            Wrote::Two(Piece::Register(0), bytes)
        }
        Change::Trace { .. } => {
            let word = Piece::Word(cpu.trace().len().saturating_sub(1));
            Wrote::Two(Piece::Register(0), word)
        }
        Change::Go { .. } | Change::Return | Change::Stop { .. } => Wrote::Nothing,
    }
}

/// Whether two steps wrote the same parts, with the same in them in the machines after them.
pub fn same_all(first: &Cpu, second: &Cpu, one: &Wrote, other: &Wrote) -> bool
    ensures { result ≡ pointwise (same_part first.now second.now) (parts_of first.now one.now)
        (parts_of second.now other.now) }
{
    match (*one, *other) {
        (Wrote::Nothing, Wrote::Nothing) => true,
        (Wrote::One(p), Wrote::One(q)) => same_piece(first, second, p, q),
        (Wrote::Two(p, r), Wrote::Two(q, s)) => {
            same_piece(first, second, p, q) && same_piece(first, second, r, s)
        }
        _ => false,
    }
}

/// Whether two parts are one, and hold the same.
fn same_piece(first: &Cpu, second: &Cpu, one: Piece, other: Piece) -> bool
    ensures { result ≡ same_part first.now second.now (part_of first.now one)
        (part_of second.now other) }
{
    match (one, other) {
        (Piece::Register(r), Piece::Register(s)) => same_register(first, second, r, s),
        (
            Piece::Bytes { address, len },
            Piece::Bytes {
                address: at,
                len: n,
            },
        ) => {
            (address == at && len == n) && bytes_of(first, address, len) == bytes_of(second, at, n)
        }
        (Piece::Word(i), Piece::Word(j)) => {
            i == j && word_at(first.trace(), i) == word_at(second.trace(), j)
        }
        _ => false,
    }
}

/// Whether two registers are one, and hold the same.
fn same_register(first: &Cpu, second: &Cpu, one: u8, other: u8) -> bool
    ensures { result ≡ same_part first.now second.now (part_of first.now (Piece.Register one))
        (part_of second.now (Piece.Register other)) }
{
    let depth = depth_for(first.depth(), one);
    let other_depth = depth_for(second.depth(), other);
    let same = depth == other_depth && one == other;
    same && register_at(first, depth, one) == register_at(second, other_depth, other)
}

/// The bytes of memory from an address on, none where some of them aren't present.
fn bytes_of<'a>(cpu: &'a Cpu, address: u64, len: usize) -> &'a [u8]
    ensures { result.now ≡ bytes_at cpu.now address len }
{
    if len == 0 {
        return &[];
    }
    match cpu.peek(address, len) {
        Some(run) => run,
        None => &[],
    }
}
