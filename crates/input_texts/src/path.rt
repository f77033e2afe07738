//! Where files of tests lie.
ghost use Rattle.std.specs.Prelude.{◌≡◌, ◌==◌, codes};
ghost use Rattle.std.specs.List.{list_all, slice_split};
ghost use Rattle.std.specs.Str.{bytes_eq};
ghost use Rattle.input_texts.specs.Paths.{folder_of, is_absolute, is_below, is_inner, is_part};

/// Whether a byte is none that ends a folder.
fn is_part(byte: u8) -> bool
    ensures { result ≡ is_part byte }
{
    byte != b'/'
}

/// The folder of a path, with the slash at its end: nothing where it has none.
pub fn folder_of(path: &[u8]) -> &[u8]
    ensures { result.now ≡ folder_of path.now }
{
    let mut end = path.len();
    while end > 0 && is_part(path[end - 1]) {
        end -= 1;
    }
    &path[..end]
}

/// Whether a path begins with a slash.
pub fn is_absolute(path: &[u8]) -> bool
    ensures { result ≡ is_absolute path.now }
{
    path.starts_with(b"/")
}

/// Whether a part of a path doesn't lead out of its folder.
fn is_inner(part: &[u8]) -> bool
    ensures { result ≡ is_inner part.now }
{
    !is_upward(part)
}

fn is_upward(part: &[u8]) -> bool
    ensures value { result ≡ bytes_eq part.now (codes "..") }
{
    part == b"..".as_slice()
}

/// Whether a path doesn't lead out of the folder in which it begins, as it is written.
pub fn is_below(path: &[u8]) -> bool
    ensures { result ≡ is_below path.now }
{
    !is_absolute(path) && are_inner(path)
}

fn are_inner(path: &[u8]) -> bool
    ensures { result ≡ list_all is_inner (slice_split (λ b. b == 47) path.now) }
{
    path.split(|byte| *byte == b'/').all(|part| is_inner(part))
}
