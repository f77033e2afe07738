//! What a step reads: the table of the definitions, row by row.
ghost use Rattle.std.specs.Prelude.{false, ◌≡◌, ◌≤◌, ◌<◌, ◌+◌, ◌++◌, ◌∷◌, [], length};
ghost use Rattle.std.specs.Option.{option_map_or};
ghost use Rattle.bpf_isa.specs.Helpers.{helper_of};
ghost use Rattle.bpf_isa.specs.Sizes.{size_len};
ghost use Rattle.bpf_machine.specs.declared.moves.Move.TheVariants as move_of;
ghost use Rattle.bpf_steps.specs.Access.{address as address_in};
ghost use Rattle.bpf_steps.specs.Atomics.{size_of};
ghost use Rattle.bpf_steps.specs.Next.{change as change_in};
ghost use Rattle.bpf_entries.specs.Status.{has_ended};
ghost use Rattle.bpf_steps.specs.State.{depth};
ghost use Rattle.bpf_origin.specs.Places.{depth_for};
ghost use Rattle.bpf_origin.specs.Reads as spec;

use crate::place::Part;
use crate::value::depth_for;
use arrayvec::ArrayVec;
use bpf_isa::{Address, AtomicOp, BinaryOp, Helper, Insn, LoadSize, Reg, Source, Width};
use bpf_machine::{Change, Cpu, Fault, Status};
use bpfdb_script::number_in;

/// As many parts as a step reads at most, an update with its addresses.
pub const MOST_PARTS: usize = 8;

/// Parts, in the table's order.
pub type Parts = ArrayVec<Part, MOST_PARTS>;

/// What the step from a machine's state reads and, on demand, the registers of its addresses.
pub fn followed(cpu: &Cpu, addresses: bool) -> Parts
    requires { has_ended cpu.now.status ≡ false }
    ensures { result.items ≡ spec.followed addresses cpu.now move_of.Step }
{
    let mut parts = Parts::new();
    add_followed(cpu, addresses, &mut parts);
    parts
}

/// Adds what the next step reads and, on demand, the registers of its addresses.
fn add_followed(cpu: &Cpu, addresses: bool, parts: &mut Parts)
    requires runs { has_ended cpu.now.status ≡ false }
    requires first { parts.old.items ≡ [] }
    ensures { parts.new.items ≡ spec.followed addresses cpu.now move_of.Step }
{
    match cpu.program().insn_at(usize::from(cpu.pc())) {
        Some(insn) => {
            add_reads(cpu, &insn, parts);
            if addresses {
                add_bases(cpu, insn, parts);
            }
        }
        None => {}
    }
}

/// What is asked about where nothing is named: at a fault of an access the registers of its address,
/// else r0.
pub fn asked(cpu: &Cpu) -> Parts
    ensures { result.items ≡ spec.asked cpu.now }
{
    let mut parts = Parts::new();
    add_asked(cpu, &mut parts);
    parts
}

/// Adds what is asked about where nothing is named.
fn add_asked(cpu: &Cpu, parts: &mut Parts)
    requires { parts.old.items ≡ [] }
    ensures { parts.new.items ≡ spec.asked cpu.now }
{
    match cpu.status() {
        Status::Faulted(Fault::Access { address: _ }) => add_bases_here(cpu, parts),
        _ => add_argument(cpu, 0, parts),
    }
}

/// Adds the registers that make the addresses of the instruction at pc.
fn add_bases_here(cpu: &Cpu, parts: &mut Parts)
    requires { parts.old.items ≡ [] }
    ensures { parts.new.items ≡ spec.bases cpu.now move_of.Step }
{
    match cpu.program().insn_at(usize::from(cpu.pc())) {
        Some(insn) => add_bases(cpu, insn, parts),
        None => {}
    }
}

/// Adds what an instruction reads.
fn add_reads(cpu: &Cpu, insn: &Insn, parts: &mut Parts)
    requires runs { has_ended cpu.now.status ≡ false }
    requires first { parts.old.items ≡ [] }
    ensures items { parts.new.items ≡ spec.reads_by cpu.now insn.now }
    ensures count { length parts.new.items ≤ 4 }
{
    match *insn {
        Insn::Binary {
            op,
            dst,
            source,
            ..
        } => {
            add_first(cpu, op, dst, parts);
            add_source(cpu, source, parts);
        }
        Insn::Negate { dst, .. } | Insn::SwapBytes { dst, .. } => add_register(cpu, dst, parts),
        Insn::SignExtend { src, .. } => add_register(cpu, src, parts),
        Insn::CallHelper { helper } => add_call(cpu, helper, parts),
        Insn::Load { size, from, .. } => {
            add_bytes(address_of(cpu, from), load_len(size), parts);
        }
        Insn::Store { source, .. } => add_source(cpu, source, parts),
        Insn::Atomic { op, width, to, src } => {
            add_compared(cpu, op, parts);
            add_register(cpu, src, parts);
            add_bytes(address_of(cpu, to), width_len(width), parts);
        }
        _ => {}
    }
}

/// Adds the registers that make an instruction's addresses.
fn add_bases(cpu: &Cpu, insn: Insn, parts: &mut Parts)
    requires { length parts.old.items ≤ 4 }
    ensures { parts.new.items ≡ parts.old.items ++ spec.bases_by cpu.now insn }
{
    match insn {
        Insn::CallHelper { helper } => add_pointers(cpu, helper, parts),
        Insn::Load { from, .. } => add_register(cpu, from.base, parts),
        Insn::Store { to, .. } | Insn::Atomic { to, .. } => add_register(cpu, to.base, parts),
        _ => {}
    }
}

/// Adds a register. r10 is no place.
fn add_register(cpu: &Cpu, register: Reg, parts: &mut Parts)
    requires { length parts.old.items < 8 }
    ensures items { parts.new.items ≡ parts.old.items ++ spec.of_register cpu.now register }
    ensures count { length parts.new.items ≤ length parts.old.items + 1 }
{
    if register.number() < 10 {
        parts.push(register_part(cpu.depth(), register));
    }
}

/// A register of the function at a depth.
pub fn register_part(depth: usize, register: Reg) -> Part
    ensures { result ≡ Part.Register (depth_for depth register) register }
{
    numbered_part(depth, register.number())
}

/// The register of this number of the function at a depth.
#[inline(always)]
pub(crate) fn numbered_part(depth: usize, number: u8) -> Part
    ensures { result ≡ Part.Register (depth_for depth number) number }
{
    Part::Register {
        depth: depth_for(depth, number),
        number,
    }
}

/// Adds bytes of memory.
fn add_bytes(address: u64, len: usize, parts: &mut Parts)
    requires { length parts.old.items < 8 }
    ensures items { parts.new.items ≡ parts.old.items ++ Part.Bytes address len ∷ [] }
    ensures count { length parts.new.items ≤ length parts.old.items + 1 }
{
    parts.push(Part::Bytes { address, len });
}

/// Adds a second operand.
fn add_source(cpu: &Cpu, source: Source, parts: &mut Parts)
    requires { length parts.old.items < 8 }
    ensures items { parts.new.items ≡ parts.old.items ++ spec.of_source cpu.now source }
    ensures count { length parts.new.items ≤ length parts.old.items + 1 }
{
    match source {
        Source::Immediate(_) => {}
        Source::Register(register) => add_register(cpu, register, parts),
    }
}

/// Adds the first operand of arithmetic, which a move doesn't read.
fn add_first(cpu: &Cpu, op: BinaryOp, dst: Reg, parts: &mut Parts)
    requires { length parts.old.items < 8 }
    ensures items { parts.new.items ≡ parts.old.items ++ spec.of_first cpu.now op dst }
    ensures count { length parts.new.items ≤ length parts.old.items + 1 }
{
    match op {
        BinaryOp::Mov => {}
        _ => add_register(cpu, dst, parts),
    }
}

/// Adds the number that a compare-exchange compares with.
fn add_compared(cpu: &Cpu, op: AtomicOp, parts: &mut Parts)
    requires { length parts.old.items < 8 }
    ensures items { parts.new.items ≡ parts.old.items ++ spec.of_compared cpu.now op }
    ensures count { length parts.new.items ≤ length parts.old.items + 1 }
{
    match op {
        AtomicOp::CompareExchange => add_argument(cpu, 0, parts),
        _ => {}
    }
}

/// Adds a register by its number, 0 to 4.
fn add_argument(cpu: &Cpu, number: u8, parts: &mut Parts)
    requires number { number ≤ 4 }
    requires room { length parts.old.items < 8 }
    ensures items { parts.new.items ≡ parts.old.items ++ spec.of_register cpu.now number }
    ensures count { length parts.new.items ≤ length parts.old.items + 1 }
{
    match Reg::new(number) {
        Some(register) => add_register(cpu, register, parts),
        None => unreachable!(),
    }
}

/// Adds what the call of a helper reads.
fn add_call(cpu: &Cpu, number: u32, parts: &mut Parts)
    requires runs { has_ended cpu.now.status ≡ false }
    requires first { parts.old.items ≡ [] }
    ensures items { parts.new.items ≡
        option_map_or (spec.of_helper cpu.now (change_in cpu.now)) (helper_of number) [] }
    ensures count { length parts.new.items ≤ 4 }
{
    match Helper::of(number) {
        Some(helper) => add_helper(cpu, helper, parts),
        None => {}
    }
}

/// Adds what a helper reads.
fn add_helper(cpu: &Cpu, helper: Helper, parts: &mut Parts)
    requires runs { has_ended cpu.now.status ≡ false }
    requires first { parts.old.items ≡ [] }
    ensures items { parts.new.items ≡ spec.of_helper cpu.now (change_in cpu.now) helper }
    ensures count { length parts.new.items ≤ 4 }
{
    add_argument(cpu, 1, parts);
    match helper {
        Helper::Lookup => add_bytes(number_in(cpu, 2), 4, parts),
        Helper::Update => {
            add_bytes(number_in(cpu, 2), 4, parts);
            add_argument(cpu, 4, parts);
            add_value(cpu, parts);
        }
        Helper::Trace => {}
    }
}

/// Adds the bytes of the value that an update writes, where it writes one.
fn add_value(cpu: &Cpu, parts: &mut Parts)
    requires runs { has_ended cpu.now.status ≡ false }
    requires room { length parts.old.items < 8 }
    ensures items { parts.new.items ≡ parts.old.items ++ spec.of_value cpu.now (change_in cpu.now) }
    ensures count { length parts.new.items ≤ length parts.old.items + 1 }
{
    match cpu.look() {
        Ok(Change::Cell { length, .. }) => {
            add_bytes(number_in(cpu, 3), usize::from(length), parts);
        }
        _ => {}
    }
}

/// Adds the registers that point to the key and the value of a helper's call.
fn add_pointers(cpu: &Cpu, number: u32, parts: &mut Parts)
    requires { length parts.old.items ≤ 4 }
    ensures { parts.new.items ≡ parts.old.items
        ++ option_map_or (spec.helper_bases cpu.now) (helper_of number) [] }
{
    match Helper::of(number) {
        Some(Helper::Lookup) => add_argument(cpu, 2, parts),
        Some(Helper::Update) => {
            add_argument(cpu, 2, parts);
            add_argument(cpu, 3, parts);
        }
        Some(Helper::Trace) | None => {}
    }
}

/// The address that an access begins at; addresses wrap.
pub fn address_of(cpu: &Cpu, at: Address) -> u64
    ensures { result ≡ address_in cpu.now at }
{
    cpu.reg(at.base)
        .wrapping_add(i64::from(at.offset).cast_unsigned())
}

/// How many bytes a load reads.
pub fn load_len(size: LoadSize) -> usize
    ensures { result ≡ spec.load_len size }
{
    match size {
        LoadSize::Plain(size) => size.len(),
        LoadSize::Signed(size) => size.len(),
    }
}

/// How many bytes an atomic operation replaces.
pub fn width_len(width: Width) -> usize
    ensures { result ≡ size_len (size_of width) }
{
    match width {
        Width::Bits32 => 4,
        Width::Bits64 => 8,
    }
}
