//! What FILE is, where nobody says so.
ghost use Rattle.std.specs.Prelude.{◌≡◌, ◌==◌};
ghost use Rattle.std.specs.List.{list_any};
ghost use Rattle.bpf_load.specs.Kinds.{is_listing, is_object, kind_of};

use crate::target::SourceKind;

/// How an object begins.
const ELF_MAGIC: &[u8] = b"\x7fELF";

/// How the name of a listing ends.
const LISTING_END: &[u8] = b".s";

/// What FILE is, by its name and its bytes: an object where it begins as one; a listing where its name
/// ends with `.s` and no byte is zero; else a program's words.
///
/// Takes time in proportion to the length of FILE.
pub fn kind_of(name: &[u8], file: &[u8]) -> SourceKind
    ensures { result ≡ kind_of name.now file.now }
{
    if is_object(file) {
        SourceKind::Object
    } else if is_listing(name, file) {
        SourceKind::Listing
    } else {
        SourceKind::Words
    }
}

/// Whether a file begins as an object.
pub fn is_object(file: &[u8]) -> bool
    ensures { result ≡ is_object file.now }
{
    file.starts_with(ELF_MAGIC)
}

/// Whether a file is a listing.
fn is_listing(name: &[u8], file: &[u8]) -> bool
    ensures { result ≡ is_listing name.now file.now }
{
    name.ends_with(LISTING_END) && !has_zero(file)
}

/// Whether a byte of a file is zero.
fn has_zero(file: &[u8]) -> bool
    ensures { result ≡ list_any (λ b. b == 0) file.now }
{
    file.iter().any(|byte| *byte == 0)
}
