//! What places hold: registers, and the eight bytes at each multiple of eight of the frame.
ghost use Rattle.std.specs.Prelude.{◌≡◌, ◌≤◌, ◌<◌, ◌+◌, ◌*◌, true, length};
ghost use Rattle.bpf_packet.specs.Holding.{covers, frame_place, held_in, is_frame, is_framed, is_free, is_shown, is_something, is_whole, most_pieces, most_places, moved, outside, shifted, state_of, summed};

/// What a place holds, on all ways that lead to a slot.
#[derive(Clone, Copy)]
pub enum Held {
    /// No way leads there.
    Nothing,
    /// Something else than the context's address.
    Other,
    /// An address of the frame, at this byte of its 512 or behind it.
    Frame(u16),
    /// The address of this byte of the context.
    Context(u8),
    /// Not the same on all ways.
    Either,
    /// On some way what a called function left, which a program for the kernel doesn't read.
    Left,
}

/// How many places there are: 11 registers, and 64 pieces of the frame.
#[tactic(auto, unfolding(crate::specs::Holding::most_places))]
pub fn most_places() -> usize
    ensures { result ≡ most_places }
{
    75
}

/// How many pieces of the frame.
#[tactic(auto, unfolding(crate::specs::Holding::most_pieces))]
pub fn most_pieces() -> usize
    ensures value { result ≡ most_pieces }
    ensures few { result ≤ 64 }
{
    64
}

/// Whether one holds at least what another one does.
pub fn covers(held: Held, given: Held) -> bool
    ensures { result ≡ covers held given }
{
    match held {
        Held::Nothing => !is_something(given),
        Held::Other => match given {
            Held::Nothing | Held::Other => true,
            Held::Frame(_) | Held::Context(_) | Held::Either | Held::Left => false,
        },
        Held::Frame(at) => match given {
            Held::Nothing | Held::Other => true,
            Held::Frame(other) => at <= other,
            Held::Context(_) | Held::Either | Held::Left => false,
        },
        Held::Context(at) => match given {
            Held::Nothing => true,
            Held::Context(other) => at == other,
            Held::Other | Held::Frame(_) | Held::Either | Held::Left => false,
        },
        Held::Either => match given {
            Held::Left => false,
            Held::Nothing | Held::Other | Held::Frame(_) | Held::Context(_) | Held::Either => true,
        },
        Held::Left => true,
    }
}

/// Whether it isn't the context's address.
pub fn is_free(held: Held) -> bool
    ensures { result ≡ is_free held }
{
    match held {
        Held::Nothing | Held::Other | Held::Frame(_) => true,
        Held::Context(_) | Held::Either | Held::Left => false,
    }
}

/// Whether it may be read, and is the context's address on some way.
pub fn is_shown(held: Held) -> bool
    ensures { result ≡ is_shown held }
{
    match held {
        Held::Context(_) | Held::Either => true,
        Held::Nothing | Held::Other | Held::Frame(_) | Held::Left => false,
    }
}

/// Whether a way leads there.
pub fn is_something(held: Held) -> bool
    ensures { result ≡ is_something held }
{
    match held {
        Held::Nothing => false,
        Held::Other | Held::Frame(_) | Held::Context(_) | Held::Either | Held::Left => true,
    }
}

/// Whether it is an address of the frame.
pub fn is_frame(held: Held) -> bool
    ensures { result ≡ is_frame held }
{
    match held {
        Held::Frame(_) => true,
        Held::Nothing | Held::Other | Held::Context(_) | Held::Either | Held::Left => false,
    }
}

/// What a place holds in a state.
pub fn held_in(state: &[Held], place: usize) -> Held
    ensures { result ≡ held_in state.now place }
{
    if place < state.len() {
        state[place]
    } else {
        Held::Nothing
    }
}

/// Whether an offset from r10 lies in the frame.
pub fn is_framed(offset: u16) -> bool
    ensures { result ≡ is_framed offset }
{
    offset >= 65024
}

/// The place of the frame at an offset.
pub fn frame_place(offset: u16) -> usize
    requires { is_framed offset ≡ true }
    ensures { result ≡ frame_place offset }
{
    11 + usize::from(offset - 65024) / 8
}

/// Whether an access to eight bytes there is one to a place.
pub fn is_whole(offset: u16) -> bool
    ensures { result ≡ is_whole offset }
{
    is_framed(offset) && offset % 8 == 0
}

/// An address of the frame where a number is added.
fn moved(at: u16, imm: u32) -> Held
    ensures { result ≡ moved at imm }
{
    let place = (u64::from(at) + u64::from(imm)) % 4_294_967_296;
    if 0 < at && place <= 512 {
        Held::Frame(place as u16)
    } else {
        Held::Frame(0)
    }
}

/// What one holds of two that are added, of which one may be an address of the frame.
pub fn summed(a: Held, b: Held) -> Held
    ensures { result ≡ summed a b }
{
    match a {
        Held::Frame(at) => Held::Frame(at),
        Held::Nothing | Held::Other | Held::Context(_) | Held::Either | Held::Left => match b {
            Held::Frame(at) => Held::Frame(at),
            Held::Nothing | Held::Other | Held::Context(_) | Held::Either | Held::Left =>
                Held::Other,
        },
    }
}

/// What a called function finds: an address of its caller's frame is none of its own.
pub fn outside(held: Held) -> Held
    ensures { result ≡ outside held }
{
    match held {
        Held::Frame(_) => Held::Other,
        Held::Nothing => Held::Nothing,
        Held::Other => Held::Other,
        Held::Context(at) => Held::Context(at),
        Held::Either => Held::Either,
        Held::Left => Held::Left,
    }
}

/// What is held where a number is added.
pub fn shifted(held: Held, imm: u32) -> Held
    ensures { result ≡ shifted held imm }
{
    match held {
        Held::Context(at) => {
            let place = (u64::from(at) + u64::from(imm)) % 4_294_967_296;
            if place < 256 {
                Held::Context(place as u8)
            } else {
                Held::Either
            }
        }
        Held::Frame(at) => moved(at, imm),
        Held::Nothing => Held::Nothing,
        Held::Other => Held::Other,
        Held::Either => Held::Either,
        Held::Left => Held::Left,
    }
}

/// The state of a slot in a table.
pub fn state_of(table: &[Held], p: usize) -> &[Held]
    requires { 75 * p + 75 ≤ length table.now }
    ensures value { result.now ≡ state_of table.now p }
    ensures size { length result.now ≡ 75 }
{
    &table[75 * p..75 * p + 75]
}
