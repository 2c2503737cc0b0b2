//! A thread of the script.

ghost use Rattle.std.specs.Prelude.{◌≡◌, ◌∷◌, ◌+◌, ◌<◌, ◌^◌, [], OnOk};
ghost use Rattle.script_lines.specs.Seen.{caller};
ghost use Rattle.script_wishes.specs.Seen.{variable_seen};
ghost use Rattle.script_wishes.specs.Variables.{bound};

use crate::board::Side;
use crate::lines::Caller;
use lc_base::Handle;
use script_wishes::variables::{Variable, Variables};
use std::alloc::{AllocError, Global};

/// A thread of the script.
#[derive(Drop)]
pub struct Thread<S: Side> {
    /// What it keeps of its calls.
    pub side: S,
    /// What its variables stand for.
    pub variables: Variables,
    /// How many lines it has.
    pub lines: u32,
}

impl<S: Side> Thread<S> {
    /// A thread before its first command.
    pub fn new(alloc: Global, side: S) -> Thread<S>
        ensures { (result.side ≡ side) × (result.variables ≡ []) × (result.lines ≡ 0) }
    {
        Thread {
            side,
            variables: Variables::new(alloc),
            lines: 0,
        }
    }

    /// Its number, from 0.
    pub fn number(&self) -> u32
        ensures { result ≡ S.number_of self.now.side }
    {
        self.side.number()
    }

    /// Counts one more line in a round, and gives whose it is.
    pub fn next_caller(&mut self, round: u32) -> Caller
        requires { self.old.lines + 1 < 2 ^ 32 }
        ensures caller { caller result ≡ record { round = round; thread = S.number_of self.old.side; index = self.old.lines + 1 } }
        ensures counted { self.new ≡ record self.old { lines = self.old.lines + 1 } }
    {
        self.lines += 1;
        Caller {
            round,
            thread: self.side.number(),
            index: self.lines,
        }
    }

    /// Binds a variable to a handle.
    pub fn bind(
        &mut self,
        alloc: Global,
        variable: Variable<'_>,
        handle: Handle,
    ) -> Result<(), AllocError>
        ensures bound { OnOk result ((v : _) → bound self.new.variables v ≡ bound ((variable_seen variable.entry, handle) ∷ self.old.variables) v) }
        ensures others { OnOk result ((self.new.side ≡ self.old.side) × (self.new.lines ≡ self.old.lines)) }
    {
        self.variables.bind(alloc, variable, handle)
    }
}
