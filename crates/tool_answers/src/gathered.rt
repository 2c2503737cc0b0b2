//! What files give that a command takes one after another.

use lc_base::ByteText;
use std::alloc::Global;
use tool_messages::{Answer, Problem};

/// What the files so far give.
#[derive(Drop)]
pub struct Gathered {
    /// 1 where a file is refused, or a command that counts.
    pub status: u8,
    pub output: Vec<u8>,
    pub messages: Vec<u8>,
}

impl Gathered {
    /// Of no file yet: status 0, and no text.
    pub fn new(alloc: Global) -> Gathered {
        Gathered {
            status: 0,
            output: Vec::new(alloc),
            messages: Vec::new(alloc),
        }
    }

    /// The answer, if no file ended the work.
    pub fn answer(self, worked: Result<(), Problem>) -> Result<Answer, Problem> {
        match worked {
            Ok(()) => Ok(Answer {
                status: self.status,
                output: ByteText::from_vec(self.output),
                messages: ByteText::from_vec(self.messages),
            }),
            Err(problem) => Err(problem),
        }
    }
}
