//! Where the files lie that sections name.
ghost use Rattle.std.specs.Prelude.{◌≡◌, IfOk};
ghost use Rattle.suite_files.specs.Shelves.{is_allowed, path_of};

use input_texts::{is_absolute, is_below};
use std::alloc::{AllocError, Global};

/// Where names of files begin, and what is wanted of objects.
#[derive(Clone, Copy)]
pub struct Place<'a> {
    /// The folder of the tests, with the slash at its end; nothing where that is the present one.
    pub folder: &'a [u8],
    /// Files may lie anywhere, and not only there or below.
    pub anywhere: bool,
    /// Linux's library of helpers, where it may be joined to objects by itself.
    pub linux: Option<&'a [u8]>,
    /// Behind the words of an object's program stands a table of their places in its source.
    pub lines: bool,
}

/// Whether a file of this name may be read.
pub fn is_allowed(place: &Place<'_>, name: &[u8]) -> bool
    ensures { result ≡ is_allowed place.now name.now }
{
    place.anywhere || is_below(name)
}

/// The path of the file of a name.
pub fn path_of(alloc: Global, place: &Place<'_>, name: &[u8]) -> Result<Vec<u8>, AllocError>
    ensures { IfOk result (λ path. path.items ≡ path_of place.now name.now) }
{
    if is_absolute(name) {
        return Vec::from_slice(alloc, name);
    }
    let mut path = Vec::from_slice(alloc, place.folder)?;
    match path.extend_from_slice(name) {
        Ok(()) => Ok(path),
        Err(_) => Err(AllocError),
    }
}
