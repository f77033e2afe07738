//! Whether a list of names has one.
ghost use Rattle.std.specs.Prelude.{◌≡◌};
ghost use Rattle.bpf_trace.specs.Prototypes as spec;

/// Whether a list, a name a line, has a name.
pub fn is_in(told: &[u8], name: &[u8]) -> bool
    ensures { result ≡ spec.is_in told.now name.now }
{
    told.split(|byte| *byte == b'\n').any(|word| word == name)
}
