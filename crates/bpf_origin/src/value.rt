//! The values of registers and of traced words.
ghost use Rattle.std.specs.Prelude.{◌≡◌, ◌<◌, slice_index};
ghost use Rattle.bpf_origin.specs.Places.{depth_for, value};
ghost use Rattle.bpf_origin.specs.declared.place.Place.TheVariants as place;

use bpf_machine::Cpu;
use bpfdb_script::number_in;

/// The depth that a register counts as, of the function at a depth: r0 to r5 all functions share.
#[inline(always)]
pub fn depth_for(depth: usize, number: u8) -> usize
    ensures { result ≡ depth_for depth number }
{
    if number < 6 { 0 } else { depth }
}

/// A register of the function at a depth. A pushed frame keeps r6 to r9 of the one that called.
pub fn register_at(cpu: &Cpu, depth: usize, number: u8) -> u64
    ensures { result ≡ value cpu.now (place.Register depth number) }
{
    if number < 6 || cpu.depth() <= depth {
        return present_at(cpu, number);
    }
    match cpu.frame(cpu.depth() - 1 - depth) {
        Some(frame) => word_at(&frame.saved, usize::from(number - 6)),
        None => present_at(cpu, number),
    }
}

/// One of the present r0 to r9; 0 for another number.
fn present_at(cpu: &Cpu, number: u8) -> u64
    ensures { result ≡ slice_index cpu.now.registers number }
{
    cpu.invariant();
    if number < 10 {
        number_in(cpu, number)
    } else {
        0
    }
}

/// The word at an index, 0 past the end.
pub fn word_at(words: &[u64], index: usize) -> u64
    ensures { result ≡ slice_index words.now index }
{
    words.get(index).copied().unwrap_or(0)
}
