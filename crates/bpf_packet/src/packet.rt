//! The two structs by which the kernel gives a program its packet.
ghost use Rattle.std.specs.Prelude.{◌≡◌, IfNone, IfSome};
ghost use Rattle.bpf_packet.specs.Names.{packet_name};

/// Which of the kernel's structs a program takes.
#[derive(Clone, Copy)]
pub enum Packet {
    /// `struct xdp_md`.
    Xdp,
    /// `struct __sk_buff`.
    Tc,
}

impl Packet {
    /// The struct of this name, `xdp` or `tc`.
    pub fn named(name: &str) -> Option<Packet>
        ensures found { IfSome result (λ packet. packet_name packet ≡ name.now) }
        ensures none { IfNone result ((packet : Packet) → packet_name packet ≡ name.now → ⊥) }
    {
        match name {
            "xdp" => Some(Packet::Xdp),
            "tc" => Some(Packet::Tc),
            _ => None,
        }
    }
}

/// An access to a field of bpfdb's struct.
#[derive(Clone, Copy)]
pub struct Access {
    pub opcode: u8,
    /// Where the field lies in the struct.
    pub offset: u16,
}
