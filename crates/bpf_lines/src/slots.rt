//! The last slots up to one of which something is said, by their marks.
ghost use Rattle.std.specs.Prelude.{◌≡◌, ◌<◌, ◌+◌, ℕ, IfSome, Option, length};
ghost use Rattle.bpf_lines.specs.Marks.{AreMarks};
ghost use Rattle.bpf_lines.specs.Slots.{is_since, last_said, said_of};

/// The last slot of which something is said, with one more slot looked at.
pub fn with_slot(marks: &[usize], last: Option<usize>, slot: usize) -> Option<usize>
    requires inside { slot < length marks.now }
    requires before { IfSome last (λ k. k < slot) }
    ensures value { (says : ℕ → Option ℕ) → AreMarks says marks.now
        → last ≡ last_said says slot → result ≡ last_said says (slot + 1) }
    ensures below { IfSome result (λ k. k < slot + 1) }
{
    if marks[slot] == 0 { last } else { Some(slot) }
}

/// What is said of a slot, if there is one.
pub fn said_of(marks: &[usize], slot: Option<usize>) -> Option<usize>
    requires { IfSome slot (λ k. k < length marks.now) }
    ensures { (says : ℕ → Option ℕ) → AreMarks says marks.now → result ≡ said_of says slot }
{
    match slot {
        None => None,
        Some(k) => {
            if marks[k] == 0 {
                None
            } else {
                Some(marks[k] - 1)
            }
        }
    }
}

/// Whether a slot, if there is one, isn't before another, if there is one.
pub fn is_since(slot: Option<usize>, start: Option<usize>) -> bool
    ensures { result ≡ is_since slot start }
{
    match (slot, start) {
        (None, _) => false,
        (Some(_), None) => true,
        (Some(slot), Some(start)) => start <= slot,
    }
}
