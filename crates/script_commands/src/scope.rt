//! Where the names in commands are looked for.

ghost use Rattle.std.specs.Prelude.{◌<◌, ◌≤◌, length};
ghost use Rattle.script_commands.specs.Limits.{THREAD_LIMIT};

use crate::known::Known;
use lc_base::{ByteText, List};

/// What the names in a command are looked for in: what is known of the bundle, and the names of its
/// threads.
#[derive(Clone, Copy)]
pub struct Scope<'a> {
    /// The blocks of the whole bundle; without them no name is looked for.
    pub known: Option<&'a Known>,
    /// The threads that are named so far.
    pub threads: &'a List<ByteText>,
    ghost some: { 0 < length threads.now },
    ghost few: { length threads.now ≤ THREAD_LIMIT },
}
