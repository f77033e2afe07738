//! How far a run of steps came.

/// What a run of steps came to.
#[derive(Clone, Copy)]
pub struct Run {
    /// How many steps were taken and kept.
    pub steps: u64,
    /// Whether the run was cut short: the keeper refused the next step, which was not taken.
    pub is_cut: bool,
}
