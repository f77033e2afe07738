//! Where runs begin.
use bpf_opening::Opening;

/// How a machine was opened, besides its program.
#[derive(Clone, Copy)]
pub struct Start<'a> {
    pub context: &'a [u8],
    pub opening: &'a Opening,
}

/// Two runs that are compared: how the machine of each was opened, and the limit of steps of both.
#[derive(Clone, Copy)]
pub struct Runs<'a> {
    pub first: Start<'a>,
    pub second: Start<'a>,
    pub limit: u64,
}
