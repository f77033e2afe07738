//! The blanks of a line.
ghost use Rattle.std.specs.Prelude.{◌≡◌, ◌≤◌, length, not, position};
ghost use Rattle.std.specs.List.{position_or_len};
ghost use Rattle.counted_io.specs.Lines.{is_blank, trim_start};

/// Whether a byte is a space, a tab or a carriage return.
pub fn is_blank(byte: u8) -> bool
    ensures { result ≡ is_blank byte }
{
    matches!(byte, b' ' | b'\t' | b'\r')
}

/// Where a blank first stands, or the length.
#[tactic(auto, using(crate::proofs::Places::unwrap_or_position))]
pub fn find_blank(text: &[u8]) -> usize
    ensures value { result ≡ position_or_len is_blank text.now }
    ensures within { result ≤ length text.now }
{
    blank_position(text).unwrap_or(text.len())
}

fn blank_position(text: &[u8]) -> Option<usize>
    ensures { result ≡ position is_blank text.now }
{
    text.iter().position(|byte| is_blank(*byte))
}

/// The text without the blanks in front.
pub fn trim_start(text: &[u8]) -> &[u8]
    ensures { result.now ≡ trim_start text.now }
{
    &text[start_position(text).unwrap_or(text.len())..]
}

fn start_position(text: &[u8]) -> Option<usize>
    ensures { result ≡ position (λ b. not (is_blank b)) text.now }
{
    text.iter().position(|byte| !is_blank(*byte))
}
