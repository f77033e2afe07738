//! A timeline is a machine with a journal of its moves.
use bpf_journal::{RingKeeper, Timeline};
use bpf_machine::Cpu;
use std::alloc::Global;

/// A machine with an empty ring.
pub fn timeline(alloc: Global, cpu: Cpu) -> Option<Timeline<RingKeeper>> {
    match RingKeeper::open(alloc, 65_536) {
        Ok(ring) => Some(Timeline::start(cpu, ring)),
        Err(_) => None,
    }
}

/// Takes three steps, and takes them back. Answers how many moves were kept, and where the machine
/// stands behind all. (A step that can't be taken is a fault, and isn't kept.)
pub fn play(timeline: &mut Timeline<RingKeeper>) -> (usize, u16) {
    for _ in 0..3 {
        let _made = timeline.step(true);
    }
    let kept = timeline.len();
    for _ in 0..3 {
        let _taken = timeline.back();
    }
    (kept, timeline.cpu().pc())
}
