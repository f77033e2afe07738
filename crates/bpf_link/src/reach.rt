//! Which slots of a program's code may be come to from its entry.
ghost use Rattle.std.specs.Prelude.{◌≡◌, ◌≤◌, ◌+◌, ◌*◌, ℕ, IfOk, IfErr, length};
ghost use Rattle.bpf_link.specs.declared.fault.LinkFault.TheVariants.{Memory};
ghost use Rattle.bpf_link.specs.Reach.{IsReach, distance_at, goes_on, jumps, opcode_at, registers_at, target_of};
ghost use Rattle.bpf_link.specs.ReachSteps.{ComesTo, GoesFrom, IsWalk, LooksAt};

use crate::fault::LinkFault;
use crate::fields::{u16_at, u32_at};
use bpf_packet::extended;
use std::alloc::Global;

/// The slots that are known to be reached.
#[derive(Drop)]
pub struct Walk {
    /// One flag a slot.
    pub reach: Vec<bool>,
    /// Those that are marked, in the order in which they were found.
    pub queue: Vec<usize>,
}

/// Whether an instruction goes on to the slot after it.
fn goes_on(opcode: u8) -> bool
    ensures { result ≡ goes_on opcode }
{
    opcode != 0x95 && (opcode != 0x05 && opcode != 0x06)
}

/// Whether it jumps, or calls a function of the program.
fn jumps(opcode: u8, registers: u8) -> bool
    ensures { result ≡ jumps opcode registers }
{
    if opcode == 0x85 {
        return registers / 16 == 1;
    }
    (opcode % 8 == 5 || opcode % 8 == 6) && opcode != 0x95
}

/// How far the instruction of a slot jumps, from the slot after it.
fn distance_at(words: &[u8], slot: usize) -> u32
    requires { 8 * slot + 8 ≤ length words.now }
    ensures { result ≡ distance_at words.now slot }
{
    let opcode = words[8 * slot];
    if opcode == 0x85 || opcode == 0x06 {
        return u32_at(words, 8 * slot + 4);
    }
    extended(u16_at(words, 8 * slot + 2))
}

/// A walk that has come to a slot, unless it is behind the last one.
fn mark(walk: Walk, slot: usize) -> Result<Walk, LinkFault>
    ensures ok { IfOk result (ComesTo slot walk) }
    ensures err { IfErr result (λ fault. fault ≡ Memory) }
{
    let mut walk = walk;
    if slot >= walk.reach.len() || walk.reach[slot] {
        return Ok(walk);
    }
    walk.reach[slot] = true;
    match walk.queue.push(slot) {
        Ok(()) => Ok(walk),
        Err(_) => Err(LinkFault::Memory),
    }
}

/// A walk that has come to the slot after one, where its instruction goes on.
fn go_on(words: &[u8], slot: usize, walk: Walk) -> Result<Walk, LinkFault>
    requires { 8 * slot + 8 ≤ length words.now }
    ensures ok { IfOk result (GoesFrom words.now slot (slot + 1)
        (goes_on (opcode_at words.now slot)) walk) }
    ensures err { IfErr result (λ fault. fault ≡ Memory) }
{
    if !goes_on(words[8 * slot]) {
        return Ok(walk);
    }
    mark(walk, slot + 1)
}

/// A walk that has come to where the instruction of a slot jumps.
fn jump(words: &[u8], slot: usize, walk: Walk) -> Result<Walk, LinkFault>
    requires { 8 * slot + 8 ≤ length words.now }
    ensures ok { IfOk result (GoesFrom words.now slot (target_of words.now slot)
        (jumps (opcode_at words.now slot) (registers_at words.now slot)) walk) }
    ensures err { IfErr result (λ fault. fault ≡ Memory) }
{
    if !jumps(words[8 * slot], words[8 * slot + 1]) {
        return Ok(walk);
    }
    let to = (slot as u64 + 1 + u64::from(distance_at(words, slot))) % 4_294_967_296;
    mark(walk, to as usize)
}

/// A walk that has looked at a slot.
fn look(words: &[u8], slot: usize, walk: Walk) -> Result<Walk, LinkFault>
    requires { 8 * slot + 8 ≤ length words.now }
    ensures ok { IfOk result (LooksAt words.now slot walk) }
    ensures err { IfErr result (λ fault. fault ≡ Memory) }
{
    match go_on(words, slot, walk) {
        Ok(next) => jump(words, slot, next),
        Err(fault) => Err(fault),
    }
}

/// A walk over words that has come to no slot.
fn begun(alloc: Global, words: &[u8]) -> Result<Walk, LinkFault>
    ensures ok { IfOk result (λ walk. (entry : ℕ) → IsWalk words.now entry walk) }
    ensures err { IfErr result (λ fault. fault ≡ Memory) }
{
    match vec![in alloc; false; words.len() / 8] {
        Ok(reach) => Ok(Walk {
            reach,
            queue: Vec::new(alloc),
        }),
        Err(_) => Err(LinkFault::Memory),
    }
}

/// Which slots of words may be come to from an entry.
pub fn reached(alloc: Global, words: &[u8], entry: usize) -> Result<Vec<bool>, LinkFault>
    ensures ok { IfOk result (λ reach. IsReach words.now entry reach.items) }
    ensures err { IfErr result (λ fault. fault ≡ Memory) }
{
    let first = match begun(alloc, words) {
        Ok(walk) => walk,
        Err(fault) => return Err(fault),
    };
    let mut walk = match mark(first, entry) {
        Ok(walk) => walk,
        Err(fault) => return Err(fault),
    };
    for k in 0..words.len() / 8 {
        if k >= walk.queue.len() {
            return Ok(walk.reach);
        }
        let slot = walk.queue[k];
        match look(words, slot, walk) {
            Ok(next) => walk = next,
            Err(fault) => return Err(fault),
        }
    }
    Ok(walk.reach)
}
