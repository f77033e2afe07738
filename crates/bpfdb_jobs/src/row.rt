//! The rows of a listing's table: where an instruction stands.
ghost use Rattle.std.specs.Prelude.{◌≡◌};
ghost use Rattle.counted_io.specs.Lines.{lines};
ghost use Rattle.bpfdb_jobs.specs.Hints.{is_number, line_at, number_of};

use counted_io::{natural, sides};

/// The line of the instruction at a slot, by the table of its listing; None where none begins there.
pub fn line_at(table: &[u8], slot: u64) -> Option<u64>
    ensures { result ≡ line_at slot (lines table.now) }
{
    let mut rest = table;
    while !rest.is_empty() {
        let (row, others) = sides(rest, b'\n');
        let (word, more) = sides(row, b' ');
        if is_number(word, slot) {
            let (line, _) = sides(more, b' ');
            return number_of(line);
        }
        rest = others;
    }
    None
}

/// Whether a word is this number.
fn is_number(word: &[u8], number: u64) -> bool
    ensures { result ≡ is_number number word.now }
{
    match number_of(word) {
        Some(found) => found == number,
        None => false,
    }
}

/// The number that a word is, None where it is none.
fn number_of(word: &[u8]) -> Option<u64>
    ensures { result ≡ number_of word.now }
{
    natural(word)?.to_u64()
}
