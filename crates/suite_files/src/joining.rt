//! Linux's library of helpers, which is joined to an object by itself.
ghost use Rattle.std.specs.Prelude.{◌≡◌, [], ◌∷◌, ◌++◌, IfOk, option_map};
ghost use Rattle.bpf_load.specs.Targets.{contents};
ghost use Rattle.suite_files.specs.Joining.{Completes, Suits, joined_if};

use crate::asked::Asked;
use crate::made::target_of;
use bpf_load::{lacks_functions, notes_of};
use std::alloc::{AllocError, Global};

/// Whether the library is joined to an object that is asked for, which these others are joined to.
///
/// Takes the time of linking it.
fn suits(alloc: Global, asked: &Asked<'_>, object: &[u8], with: &[Vec<u8>], library: &[u8]) -> bool
    ensures { Suits asked.now object.now (contents with.now) library.now result }
{
    let target = target_of(alloc, asked, object, with);
    if !lacks_functions(alloc, object, &target) {
        return false;
    }
    let notes = notes_of(alloc, object, &target, library);
    !notes.differs()
}

/// Objects with a library behind them.
fn with_library(
    alloc: Global,
    mut with: Vec<Vec<u8>>,
    library: &[u8],
) -> Result<Vec<Vec<u8>>, AllocError>
    ensures { IfOk result (λ all. contents all.items ≡ contents with.items ++ library.now ∷ []) }
{
    let copy = Vec::from_slice(alloc, library)?;
    match with.push(copy) {
        Ok(()) => Ok(with),
        Err(_) => Err(AllocError),
    }
}

/// Objects, and behind them a library, if it is wanted there.
fn joined_if(
    alloc: Global,
    is_wanted: bool,
    with: Vec<Vec<u8>>,
    library: &[u8],
) -> Result<Vec<Vec<u8>>, AllocError>
    ensures { IfOk result (λ all. contents all.items ≡ joined_if is_wanted (contents with.items) library.now) }
{
    if is_wanted {
        with_library(alloc, with, library)
    } else {
        Ok(with)
    }
}

/// The objects that are joined to one, and Linux's library behind them, where it is joined by itself.
pub fn completed(
    alloc: Global,
    linux: Option<&[u8]>,
    asked: &Asked<'_>,
    object: &[u8],
    with: Vec<Vec<u8>>,
) -> Result<Vec<Vec<u8>>, AllocError>
    ensures { IfOk result (λ all. Completes (option_map (λ library. library.now) linux.entry) asked.now
        object.now (contents with.items) (contents all.items)) }
{
    match linux {
        Some(library) => {
            let is_wanted = suits(alloc, asked, object, with.as_slice(), library);
            joined_if(alloc, is_wanted, with, library)
        }
        None => Ok(with),
    }
}
