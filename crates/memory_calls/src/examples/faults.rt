//! Faults are printed, and passed on by `?`.
use bpf_isa::{LoadFault, MapTable, check};
use bpf_machine::{Cpu, OpenFault};
use bpf_text::{AsmFault, assemble};
use std::alloc::Global;
use thiserror::Error;

/// Why there is no machine for a listing.
#[derive(Debug, Drop, Error)]
pub enum MachineFault {
    #[error(transparent)]
    Listing(#[from] AsmFault),
    #[error(transparent)]
    Program(#[from] LoadFault),
    #[error(transparent)]
    Opening(#[from] OpenFault),
}

/// A machine for a listing and a context.
fn machine_for(alloc: Global, listing: &[u8], context: &[u8]) -> Result<Cpu, MachineFault> {
    let words = assemble(alloc, listing)?;
    let program = check(alloc, &words, &MapTable::empty())?;
    Ok(Cpu::open(alloc, program, context)?)
}

/// What is printed of the fault of a listing, with a context of so many bytes; none where it has no
/// fault, or memory runs out.
pub fn printed(alloc: Global, listing: &[u8], length: usize) -> Option<String> {
    let context = vec![in alloc; 0; length].ok()?;
    let fault = machine_for(alloc, listing, &context).err()?;
    fault.to_string(alloc).ok()
}
