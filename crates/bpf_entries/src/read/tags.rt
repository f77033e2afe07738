//! What an entry's tag says.
ghost use Rattle.std.specs.Prelude.{◌≡◌, ◌≤◌, ◌++◌, ℕ, Bool, List, length};
ghost use Rattle.bpf_entries.specs.declared.entry.Entry.{Entry};
ghost use Rattle.bpf_entries.specs.Past.{is_of_step as of_step};
ghost use Rattle.bpf_entries.specs.Texts.{kind, text};

/// The kind of the first entry, 1 to 12. Up to 9 it is of a step, from 10 of an edit.
#[inline(always)]
#[tactic(auto, using(crate::proofs::Texts::kind_back))]
pub fn kind_of(bytes: &[u8]) -> u8
    requires { 3 ≤ length bytes.now }
    ensures { (e : Entry) (mark : Bool) (rest : List ℕ) → bytes.now ≡ text e mark ++ rest →
        result ≡ kind e }
{
    bytes[2] % 128
}

/// Whether the first entry is marked.
#[inline(always)]
#[tactic(auto, using(crate::proofs::Texts::mark_back))]
pub fn is_marked(bytes: &[u8]) -> bool
    requires { 3 ≤ length bytes.now }
    ensures { (e : Entry) (mark : Bool) (rest : List ℕ) → bytes.now ≡ text e mark ++ rest →
        result ≡ mark }
{
    bytes[2] >= 128
}

/// Whether the first entry is of a step, and not of an edit.
#[inline(always)]
#[tactic(auto, using(crate::proofs::Texts::kind_step))]
pub fn is_of_step(bytes: &[u8]) -> bool
    requires { 3 ≤ length bytes.now }
    ensures { (e : Entry) (mark : Bool) (rest : List ℕ) → bytes.now ≡ text e mark ++ rest →
        result ≡ of_step e }
{
    kind_of(bytes) <= 9
}
