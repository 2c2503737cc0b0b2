//! The table of locale objects as a machine that threads take turns at.

use handle_table::{Op, Reply, Setting, Table};
use mask_compose::{Object, Part};
use turn_gate::Machine;

/// The table of locale objects. Each step is one op of a thread.
#[derive(Drop)]
pub struct Locales<P: Part> {
    /// The table.
    pub table: Table<P>,
}

/// What can be asked without a step.
#[derive(Clone, Copy)]
pub enum Ask {
    /// The global object.
    Global,
}

impl<P: Part> Machine for Locales<P> {
    ghost use Rattle.std.specs.Prelude.{◌≡◌, ◌<◌};
    ghost use Rattle.handle_table.specs.Answer.{IsLegal};
    ghost use Rattle.handle_table.specs.Table.{StandsFor};
    ghost use Rattle.thread_current.specs.Seen.{entries_of, version_after, newest_object, May};

    type Op = Op<P>;

    type Reply = Reply<P>;

    type Query = Ask;

    type Found = Object<P>;

    type Setting = Setting<P>;

    ghost setting = { λ m. m.table.setting };

    ghost room = { λ _. 2147483647 };

    ghost stands = { λ m H. StandsFor m.table (entries_of H) };

    ghost legal = { λ c H. IsLegal c (entries_of H) };

    ghost may = { May };

    ghost answer = { λ c _ H. newest_object c H };

    ghost version_of = { version_after };

    fn step(&mut self, who: u32, op: Op<P>) -> Reply<P> {
        self.table.step(who, op)
    }

    fn ask(&self, _query: &Ask) -> Object<P> {
        self.table.global().peek().share()
    }

    fn version(&self) -> u32 {
        self.table.global().version()
    }
}
