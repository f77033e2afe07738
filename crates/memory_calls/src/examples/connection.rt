//! A session is served to gdb over any reader and any writer.
use bpf_journal::RingKeeper;
use bpf_remote::{Layout, Target, Wanted, serve};
use bpf_session::{Counted, Session};
use std::alloc::Global;

/// What is answered to packets.
pub fn answers(
    alloc: Global,
    session: &mut Session<RingKeeper>,
    packets: &[u8],
) -> Option<Vec<u8>> {
    let mut wanted = Wanted::new(alloc).ok()?;
    let mut answers = Counted::new(Vec::new(alloc));
    let mut packets = Counted::new(packets);
    serve(
        alloc,
        Target {
            layout: Layout::X86,
            names: None,
            places: None,
        },
        session,
        &mut wanted,
        &mut packets,
        &mut answers,
    )
    .ok()?;
    Some(answers.into_inner())
}
