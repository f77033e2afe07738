//! A terminal: what is said there first, and a prompt before each read of it.
ghost use Rattle.std.specs.Prelude.{◌≡◌};
ghost use Rattle.std.specs.Io.{ReadsAtMost};
ghost use Rattle.std.specs.Io.KnownBytes.{ReadConsumes};

use std::io;
use std::io::{Read, Write};

/// What is said first where FILE is debugged.
pub const GREETING: &str =
    "bpfdb reads commands from this terminal. 'bpfdb debug --help' lists them, 'quit' ends.\n";

/// What is said first where no FILE is named.
pub const FIRST_GREETING: &str =
    "bpfdb debugs a small program that is built in: mov r0, 42 and exit. For yours: 'bpfdb debug FILE'.
'bpfdb debug --help' lists the commands, 'quit' ends.\n";

/// The prompt.
const PROMPT: &str = "> ";

/// A reader over another one, and a writer to which a prompt goes before each read that asks for
/// bytes, and before the first of them a greeting. What of them can't be written is left out.
#[derive(Drop)]
pub struct Prompting<R, W> {
    inner: R,
    prompts: W,
    greeting: &'static str,
}

impl<R, W: Write> Prompting<R, W> {
    /// Wraps a reader, with a writer for its prompts, and what is said first.
    pub fn new(inner: R, prompts: W, greeting: &'static str) -> Prompting<R, W>
        ensures { result.inner ≡ inner }
    {
        Prompting {
            inner,
            prompts,
            greeting,
        }
    }

    /// Says a text.
    fn say(&mut self, text: &str)
        ensures { self.new.inner ≡ self.old.inner }
    {
        match self.prompts.write_all(text.as_bytes()) {
            Ok(()) => {}
            Err(_) => {}
        }
    }
}

impl<R: Read, W: Write> Read for Prompting<R, W> {
    ghost remaining = { λ p. R.remaining p.inner };

    fn read(&mut self, buf: &mut [u8]) -> io::Result<usize>
        ensures bound { ReadsAtMost result buf.new }
        ensures bytes { ReadConsumes (R.remaining self.old.inner) (R.remaining self.new.inner)
            result buf.new }
    {
        if !buf.is_empty() {
            self.say(self.greeting);
            self.greeting = "";
            self.say(PROMPT);
        }
        self.inner.read(buf)
    }
}
