//! Pauses of a script's threads.

/// What each thread of a script does before each of its commands. It promises nothing.
pub trait Pause {
    /// Called before a command, with the thread's number from 0, and the round and the index of the
    /// command's line.
    fn before(&self, thread: u32, round: u32, command: u32);
}

/// No pause.
#[derive(Clone, Copy)]
pub struct NoPause;

impl Pause for NoPause {
    fn before(&self, _thread: u32, _round: u32, _command: u32) {}
}
