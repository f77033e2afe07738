//! What an entry of each kind weighs in a journal, in bytes, without the old bytes of its run: its
//! length at both ends and its tag are 5 bytes, a slot 2, a number or an address 8, a register, a
//! status and a count of bytes 1.

use crate::frames::FRAME_LEN;

pub const REGISTER: usize = 5 + 2 + 1 + 8;

pub const JUMP: usize = 5 + 2;

pub const CALL: usize = 5 + 2;

pub const RETURN: usize = 5 + 2 + 4 * 8;

pub const STORE: usize = 5 + 2 + 8 + 1;

pub const FETCH: usize = 5 + 2 + 1 + 8 + 8 + 1;

pub const CELL: usize = 5 + 2 + 8 + 8;

pub const TRACE: usize = 5 + 2 + 8;

pub const END: usize = 5;

pub const EDIT_REGISTER: usize = 5 + 1 + 8;

pub const EDIT_BYTES: usize = 5 + 8;

pub const EDIT_PC: usize = 5 + 2 + 1 + 8;

/// The greatest weight of all, the old bytes too: that of a local call.
pub const GREATEST: usize = CALL + FRAME_LEN;
