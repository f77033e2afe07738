//! The tag of an entry: its kind, and whether it is marked.
ghost use Rattle.std.specs.Prelude.{◌≡◌, ◌<◌};
ghost use Rattle.bpf_entries.specs.Texts.{tag as tag_of};

/// The tag of a kind.
#[inline(always)]
pub(super) fn tag(kind: u8, mark: bool) -> u8
    requires { kind < 128 }
    ensures { result ≡ tag_of kind mark }
{
    if mark { kind + 128 } else { kind }
}
