//! Why what a file is doesn't go together with what is asked of it.
ghost use Rattle.std.specs.Prelude.{◌≡◌};
ghost use Rattle.bpfdb_faults.specs.Faults.{kind_fault};

/// Why what FILE is, or the other program of `diff`, doesn't go together with what is asked.
#[derive(Clone, Copy)]
pub enum KindFault {
    /// FILE is an object, and maps are named.
    Maps,
    /// One of two programs that are compared is an object, and the other isn't.
    Programs,
    /// A helper that the program calls answers otherwise than the kernel's, and none may.
    Unfaithful,
}

impl KindFault {
    /// Its number, and its text.
    fn row(&self) -> (u8, &'static str)
        ensures number { result.0 ≡ (kind_fault self.now).0 }
        ensures text { result.1.now ≡ (kind_fault self.now).1 }
    {
        match self {
            KindFault::Maps => (1, "an object has maps of its own: leave --maps out"),
            KindFault::Programs => (
                2,
                "one of FILE and OTHER is an object, and the other is none",
            ),
            KindFault::Unfaithful => (
                4,
                "what it calls answers otherwise than in Linux: leave --faithful out",
            ),
        }
    }

    /// The fault's number.
    pub fn number(&self) -> u8
        ensures { result ≡ (kind_fault self.now).0 }
    {
        self.row().0
    }

    /// The fault's text.
    pub fn text(&self) -> &'static str
        ensures { result.now ≡ (kind_fault self.now).1 }
    {
        self.row().1
    }
}
