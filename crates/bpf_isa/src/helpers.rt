//! The helpers that a program may call.
ghost use Rattle.std.specs.Prelude.{◌≡◌};
ghost use Rattle.bpf_isa.specs.Helpers.{helper_of};

/// A helper that a program may call: bpfdb's own choice.
#[derive(Clone, Copy)]
pub enum Helper {
    /// Gives the address of a map's value.
    Lookup,
    /// Stores a map's value.
    Update,
    /// Appends r1 to the trace list.
    Trace,
}

impl Helper {
    /// The helper that has a number, None if none has.
    pub fn of(number: u32) -> Option<Helper>
        ensures { result ≡ helper_of number }
    {
        match number {
            1 => Some(Helper::Lookup),
            2 => Some(Helper::Update),
            64 => Some(Helper::Trace),
            _ => None,
        }
    }
}
