//! What a command answers.

ghost use Rattle.std.specs.Prelude.{◌≡◌};
ghost use Rattle.tool_messages.specs.Status.{problem_status, problem_message};
ghost use Rattle.tool_messages.specs.declared.answer.Problem.TheVariants.{Memory};

use lc_base::ByteText;
use std::alloc::{AllocError, AllocFailed};

/// What a command writes, and the status that it ends with.
pub struct Answer {
    pub status: u8,
    /// What goes to standard output.
    pub output: ByteText,
    /// What goes to standard error.
    pub messages: ByteText,
}

impl Drop for Answer {
    fn drop(self) {
        let Answer {
            status: _,
            output: _,
            messages: _,
        } = self;
    }
}

/// Why a command has no answer, with the message.
#[derive(Drop)]
pub enum Problem {
    /// A file, a text or a format is refused.
    Refused(ByteText),
    /// A word of the command line is wrong.
    Usage(ByteText),
    /// Out of memory.
    Memory,
}

impl Problem {
    /// The status of the program: 1 for what is refused, 2 for wrong words and 3 for memory.
    pub fn status(&self) -> u8
        ensures { result ≡ problem_status self.now }
    {
        match self {
            Problem::Refused(_) => 1,
            Problem::Usage(_) => 2,
            Problem::Memory => 3,
        }
    }

    /// The message.
    pub fn message(&self) -> &[u8]
        ensures { result.now ≡ problem_message self.now }
    {
        match self {
            Problem::Refused(text) | Problem::Usage(text) => text.as_bytes(),
            Problem::Memory => b"locale_tool: out of memory\n",
        }
    }
}

impl From<AllocError> for Problem {
    ghost from_gives = { λ _ e. e ≡ Memory };

    fn from(_e: AllocError) -> Problem {
        Problem::Memory
    }
}

impl<T: Drop> From<AllocFailed<T>> for Problem {
    ghost from_gives = { λ _ e. e ≡ Memory };

    fn from(_e: AllocFailed<T>) -> Problem {
        Problem::Memory
    }
}
