//! Faults: why a program can't be run on a packet.
ghost use Rattle.std.specs.Prelude.{◌≡◌};

/// What is done with the context's address.
#[derive(Clone, Copy)]
pub enum UseFault {
    /// An access to what is no field, or to a part of one.
    NoField,
    /// An access by a register that has the address on some ways alone.
    Mixed,
    /// Arithmetic, but for adding a number.
    Arithmetic,
    /// It is stored elsewhere than in the frame, passed to a helper, or returned.
    Escapes,
}

/// A fault of a slot.
#[derive(Clone, Copy)]
pub struct SlotFault {
    pub slot: usize,
    pub fault: UseFault,
}

/// Why there are no words of a program on a packet.
#[derive(Clone, Copy)]
pub enum PacketFault {
    /// Memory ran out.
    Memory,
    /// No table was found that says what places hold.
    Unsettled,
    /// This is done with the context's address.
    Use(SlotFault),
}

impl UseFault {
    ghost use Rattle.bpf_packet.specs.Faults.{use_row};

    /// Its number, and its text.
    fn row(self) -> (u8, &'static str)
        ensures number { result.0 ≡ (use_row self).0 }
        ensures text { result.1.now ≡ (use_row self).1 }
    {
        match self {
            UseFault::NoField => (56, "access to no field of the packet's struct"),
            UseFault::Mixed => (
                57,
                "access to the packet's struct on some ways, to something else on others",
            ),
            UseFault::Arithmetic => (58, "arithmetic on the address of the packet's struct"),
            UseFault::Escapes => (
                59,
                "address of the packet's struct is stored, passed or returned",
            ),
        }
    }

    /// The number that is printed after E, 56 to 59.
    pub fn number(self) -> u8
        ensures { result ≡ (use_row self).0 }
    {
        self.row().0
    }

    /// The text that is printed after the number.
    pub fn text(self) -> &'static str
        ensures { result.now ≡ (use_row self).1 }
    {
        self.row().1
    }
}
