//! Why what is asked about is refused.
ghost use Rattle.std.specs.Prelude.{◌≡◌};
ghost use Rattle.bpf_whynot.specs.Asked.{goal_fault};

/// Why there is no answer about what is asked.
#[derive(Clone, Copy)]
pub enum AimFault {
    /// It is refused.
    Goal(GoalFault),
    /// There is no memory for what is found out about it.
    OutOfMemory,
}

/// Why what is asked about is refused.
#[derive(Clone, Copy)]
pub enum GoalFault {
    /// It is no slot, nor slots with commas between.
    NoSlot,
    /// No instruction starts at a slot.
    NoInstruction,
    /// It asks for a value, and that is no number.
    NoValue,
    /// No instruction makes the value.
    NoConstant,
}

impl GoalFault {
    /// Its number, and its text.
    fn row(&self) -> (u8, &'static str)
        ensures number { result.0 ≡ (goal_fault self.now).0 }
        ensures text { result.1.now ≡ (goal_fault self.now).1 }
    {
        match self {
            GoalFault::NoSlot => (3, "neither a slot nor slots with commas between"),
            GoalFault::NoInstruction => (4, "no instruction starts at the slot"),
            GoalFault::NoValue => (6, "neither a number nor an enumerator of one value"),
            GoalFault::NoConstant => (7, "no instruction makes the value"),
        }
    }

    /// The fault's number.
    pub fn number(&self) -> u8
        ensures { result ≡ (goal_fault self.now).0 }
    {
        self.row().0
    }

    /// The fault's text.
    pub fn text(&self) -> &'static str
        ensures { result.now ≡ (goal_fault self.now).1 }
    {
        self.row().1
    }
}
