//! Whether a machine runs, and how it ended.
ghost use Rattle.std.specs.Prelude.{◌≡◌};
ghost use Rattle.bpf_entries.specs.Status.{has_ended as has_ended_of, FitsStatus};

/// Whether a machine runs or how it ended.
#[derive(Clone, Copy)]
pub enum Status {
    /// It runs.
    Running,
    /// The program has returned.
    Exited,
    /// A step could not be taken.
    Faulted(Fault),
}

/// Why a step could not be taken.
#[derive(Clone, Copy)]
pub enum Fault {
    /// Some byte of an access was not accessible; the address is the first of the access.
    Access { address: u64 },
    /// A helper was given a number that is no map's token.
    Token { token: u64 },
    /// A local call where as many frames are pushed as there can be.
    Depth,
}

impl Status {
    /// Brings the range of its number into a proof.
    pub fn invariant(&self)
        ensures { FitsStatus self.now }
    {
        if let Status::Faulted(fault) = self {
            match fault {
                Fault::Access { address } => {
                    let _address = *address;
                }
                Fault::Token { token } => {
                    let _token = *token;
                }
                Fault::Depth => {}
            }
        }
    }

    /// Whether the machine has exited or faulted.
    pub fn has_ended(&self) -> bool
        ensures { result ≡ has_ended_of self.now }
    {
        match self {
            Status::Running => false,
            Status::Exited | Status::Faulted(_) => true,
        }
    }
}
