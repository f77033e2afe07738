//! Registers.
ghost use Rattle.std.specs.Prelude.{◌≡◌, ◌≤◌, ◌↔◌, IfSome, IsSome};
ghost use Rattle.bpf_isa.specs.Registers.{register_named};

use std::marker::Model;

/// One of the registers r0 to r10 (RFC 9669, section 2.1). r10 is the frame pointer and read-only.
#[derive(Clone, Copy)]
pub struct Reg {
    number: u8,
}

impl Model for Reg {
    ghost use Rattle.std.specs.Prelude.{ℕ, ◌≤◌};

    ghost Value = { ℕ };

    ghost view = { λ r. r.number };

    ghost invariant = { λ r. r.number ≤ 10 };

    ghost inverse = { λ n. record { number = n } };
}

impl Reg {
    /// The register of this number, None above 10.
    pub fn new(number: u8) -> Option<Reg>
        ensures found { IsSome result ↔ (number ≤ 10) }
        ensures value { IfSome result (λ r. r ≡ number) }
    {
        if number <= 10 {
            Some(Reg { number })
        } else {
            None
        }
    }

    /// The register that a text names, r0 to r10 without a zero in front; None where it names none.
    pub fn parse(text: &[u8]) -> Option<Reg>
        ensures { result ≡ register_named text.now }
    {
        match text {
            [b'r', digit @ b'0'..=b'9'] => Reg::new(*digit - b'0'),
            [b'r', b'1', b'0'] => Reg::new(10),
            _ => None,
        }
    }

    /// The register of a number that is known to be at most 10.
    pub(crate) fn of(number: u8) -> Reg
        requires { number ≤ 10 }
        ensures { result ≡ number }
    {
        Reg { number }
    }

    /// The register's number, 0 to 10.
    pub fn number(&self) -> u8
        ensures value { result ≡ self.now }
        ensures fits { result ≤ 10 }
    {
        self.number
    }
}
