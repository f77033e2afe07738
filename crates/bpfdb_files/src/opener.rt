//! What opens files by their paths.
ghost use Rattle.std.specs.Prelude.{ℕ, List, Option, IfSome};
ghost use Rattle.bpfdb_files.specs.Reading.{Tells};

use std::io::Read;

/// What opens files by their paths, to be read.
pub trait Opener {
    /// What an opened file is read by.
    type File: Read + Drop;

    /// The bytes of the file of a path, where they are known.
    ghost bytes_at: { Self → List ℕ → Option (List ℕ) };

    /// Opens the file of a path; None where it can't be opened. It has all of the file's bytes yet to
    /// give.
    fn open(&self, path: &str) -> Option<Self::File>
        ensures { IfSome result (λ file. Tells (bytes_at self.now path.now) (Self.File.remaining file)) };
}
