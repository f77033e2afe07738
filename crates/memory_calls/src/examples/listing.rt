//! A listing is assembled; its words are checked, and listed again.
use bpf_isa::{LoadFault, MapTable, check};
use bpf_text::{assemble, disassemble};
use std::alloc::Global;

/// The canonical form of a listing; none where memory runs out.
pub fn canonical(alloc: Global) -> Option<Vec<u8>> {
    let words = assemble(alloc, b"mov r0, 0x28\n add r0, 2 ; a comment\n exit\n").ok()?;
    let program = check(alloc, &words, &MapTable::empty()).ok()?;
    disassemble(alloc, &program).ok()
}

/// The fault of a word one of whose fields isn't zero, but has to be.
pub fn fault_of_a_word(alloc: Global) -> Option<LoadFault> {
    let words = [0x95, 0, 0, 0, 0, 0, 0, 1];
    check(alloc, &words, &MapTable::empty()).err()
}
