//! The reading of files, over bytes.
use crate::programs::WORDS;
use crate::telling::{Lack, say};
use bpfdb_files::{FileKind, FirstFault, read_kind};
use counted_io::Counted;
use std::alloc::Global;
use std::io::Write;

/// `read_kind` of a program, a context or a source: the bytes.
pub fn read<W: Write>(alloc: Global, kind: FileKind, output: &mut Counted<W>) -> Result<(), Lack> {
    match read_kind(alloc, &mut Counted::new(WORDS), kind) {
        Ok(Some(bytes)) => say(output, &bytes),
        Ok(None) | Err(FirstFault::Unread) => Err(Lack::Failed),
        Err(FirstFault::Memory) => Err(Lack::Memory),
    }
}
