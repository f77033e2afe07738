//! The two halves of a line.
ghost use Rattle.std.specs.Prelude.{◌≡◌};
ghost use Rattle.answer_forms.specs.Lines as spec;

use crate::cut_at;
use counted_io::sides;

/// What stands behind the first word of a line.
pub fn body(line: &[u8]) -> &[u8]
    ensures { result.now ≡ spec.body line.now }
{
    sides(line, b' ').1
}

/// The names of what a line says was read.
pub fn read_text(line: &[u8]) -> &[u8]
    ensures { result.now ≡ spec.read_text line.now }
{
    match cut_at(b"; from", body(line)) {
        Some((_, rest)) => sides(rest, b';').0,
        None => &[],
    }
}
