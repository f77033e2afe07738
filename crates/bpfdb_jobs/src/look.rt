//! What a file looks like, by how it begins.
ghost use Rattle.std.specs.Prelude.{◌≡◌, ◌==◌};
ghost use Rattle.std.specs.List.{list_all, list_any};
ghost use Rattle.bpfdb_jobs.specs.Looks.{beginning, is_plain, is_text};

/// How many bytes of a file show whether it is a text.
const BEGINNING_BYTES: usize = 4096;

/// Whether a file begins as a text: with printing ASCII, tabs and the ends of lines, a line feed among
/// that.
pub fn is_text(file: &[u8]) -> bool
    ensures { result ≡ is_text file.now }
{
    let start = beginning(file);
    are_plain(start) && has_line_feed(start)
}

/// The bytes that show whether a file is a text.
fn beginning(file: &[u8]) -> &[u8]
    ensures { result.now ≡ beginning file.now }
{
    if file.len() > BEGINNING_BYTES {
        &file[..BEGINNING_BYTES]
    } else {
        file
    }
}

fn are_plain(bytes: &[u8]) -> bool
    ensures { result ≡ list_all is_plain bytes.now }
{
    bytes.iter().all(|byte| is_plain(*byte))
}

fn has_line_feed(bytes: &[u8]) -> bool
    ensures { result ≡ list_any (λ b. b == 10) bytes.now }
{
    bytes.iter().any(|byte| *byte == b'\n')
}

/// Whether a byte is printing ASCII, a tab, or ends a line.
fn is_plain(byte: u8) -> bool
    ensures { result ≡ is_plain byte }
{
    if byte >= 32 {
        byte < 127
    } else {
        byte == b'\t' || byte == b'\n' || byte == b'\r'
    }
}
