//! A session runs a script over any reader and any writer.
use bpf_journal::RingKeeper;
use bpf_machine::Cpu;
use bpf_session::{Counted, Session, run};
use std::alloc::Global;

/// A session of a machine, with a ring for what is kept and one for what is taken back.
pub fn session(alloc: Global, cpu: Cpu) -> Option<Session<RingKeeper>> {
    let Ok(ring) = RingKeeper::open(alloc, 65_536) else {
        return None;
    };
    let Ok(redo) = RingKeeper::open(alloc, 65_536) else {
        return None;
    };
    Some(Session::open(cpu, ring, redo, 1_000_000))
}

/// What is replied to a script.
pub fn replies(alloc: Global, session: &mut Session<RingKeeper>, script: &[u8]) -> Option<Vec<u8>> {
    let mut replies = Counted::new(Vec::new(alloc));
    run(session, &mut Counted::new(script), &mut replies).ok()?;
    Some(replies.into_inner())
}
