//! Openings.

/// How many registers an opening may give values: r0 to r9.
pub const REGISTERS: usize = 10;

/// What a machine is opened with besides its program and its context.
#[derive(Clone, Copy)]
pub struct Opening {
    /// The values of r0 to r9, of those that get one.
    pub registers: [Option<u64>; REGISTERS],
}

/// The opening where nothing is asked: each register has the value that the machine gives it.
pub const BARE: Opening = Opening {
    registers: [None; REGISTERS],
};
