//! The table.

ghost use Rattle.std.specs.Prelude.{◌≡◌, ℕ, ◌+◌, ◌<◌, ◌≤◌, List, [], ◌∷◌, length, true, false, IfOk};

use crate::MAX_THREADS;
use crate::accept::answer;
use crate::kept::Kept;
use crate::op::{Op, Reply};
use crate::setting::Setting;
use global_locale::Global as GlobalLocale;
use lc_base::List;
use mask_compose::{Offer, Part};
use std::alloc::{AllocError, Global};
use std::marker::Model;

/// The objects, selections, holds and cells of some threads, the shelf of locale names, and the
/// global locale.
///
/// A step takes no memory, and no longer than the rows and threads ask for.
pub struct Table<P: Part> {
    setting: Setting<P>,
    kept: Kept<P>,
    steps: u32,
}

impl<P: Part> Drop for Table<P> {
    fn drop(self) {
        let Table {
            setting: _,
            kept: _,
            steps: _,
        } = self;
    }
}

impl<P: Part> Model for Table<P> {
    ghost use Rattle.handle_table.specs.Table.{TableData, IsTable};

    ghost Value = { TableData };

    ghost view = { λ t. record { setting = t.setting; kept = t.kept; count = t.steps } };

    ghost invariant = { λ t. IsTable t.setting t.kept t.steps };
}

impl<P: Part> Table<P> {
    ghost use Rattle.handle_table.specs.Entry.{History, is_accepted};
    ghost use Rattle.handle_table.specs.History.{sets, global, global_at};
    ghost use Rattle.handle_table.specs.Answer.{answer, entry, own_after, own};
    ghost use Rattle.handle_table.specs.Isolation.{has_thread, IsClosed, part_of};
    ghost use Rattle.handle_table.specs.Seen.{op_of, reply_of};
    ghost use Rattle.handle_table.specs.Table.{StandsFor, SaysTheSame, IsOpening, Fits, steps};

    /// A table without objects, for 1 to 16 threads of 1 to 64 rows with 1 to 2147483647
    /// generations each. The shelf has the offers of the locale names by number, and begins with the
    /// POSIX locale's, which offers all. All memory is taken here.
    pub fn new(
        alloc: Global,
        threads: u32,
        rows: u32,
        generations: u32,
        shelf: List<Offer<P>>,
    ) -> Result<Table<P>, AllocError>
        requires some_thread { 1 ≤ threads }
        requires threads { threads ≤ MAX_THREADS }
        requires some_row { 1 ≤ rows }
        requires rows { rows ≤ 64 }
        requires some_generation { 1 ≤ generations }
        requires generations { generations ≤ 2147483647 }
        requires shelf { IsOpening shelf }
        ensures setting { IfOk result (λ table. table.setting ≡
            record { threads = threads; rows = rows; generations = generations; opening = shelf }) }
        ensures stands { IfOk result (λ table. StandsFor table []) }
        ensures steps { IfOk result (λ table. steps table ≡ 0) }
    {
        let setting = Setting {
            threads,
            rows,
            generations,
            opening: shelf,
        };
        let kept = Kept::new(alloc, &setting)?;
        Ok(Table {
            setting,
            kept,
            steps: 0,
        })
    }

    /// Answers one op of the thread `who`. Takes no memory.
    ///
    /// A refused op stands in the history, and changes nothing else.
    pub fn step(&mut self, who: u32, op: Op<P>) -> Reply<P>
        requires who { who < self.old.setting.threads }
        requires op { Fits self.old.setting (op_of op) }
        requires steps { steps self.old < 2147483647 }
        ensures answers { (H : History) → StandsFor self.old H →
            reply_of result ≡ answer self.old.setting H who (op_of op) }
        ensures stands { (H : History) → StandsFor self.old H →
            StandsFor self.new (entry self.old.setting H who (op_of op) ∷ H) }

        // What a step leaves.
        ensures refused { (H : History) → StandsFor self.old H → is_accepted (reply_of result) ≡ false →
            SaysTheSame self.old.setting (entry self.old.setting H who (op_of op) ∷ H) H }
        ensures own_taken { (H : History) → StandsFor self.old H →
            own (entry self.old.setting H who (op_of op) ∷ H) who ≡ own_after (reply_of result) (own H who) }

        // Threads that share handles with themselves alone get what they would get without the others.
        ensures isolated { (H : History) (S : List ℕ) → StandsFor self.old H → has_thread S who ≡ true →
            IsClosed S (entry self.old.setting H who (op_of op) ∷ H) →
            reply_of result ≡ answer self.old.setting (part_of S H) who (op_of op) }

        ensures setting { self.new.setting ≡ self.old.setting }
        ensures steps { steps self.new ≡ steps self.old + 1 }
    {
        let reply = answer(&self.setting, &mut self.kept, who, op);
        self.steps += 1;
        reply
    }

    /// How many steps were made.
    pub fn steps(&self) -> u32
        ensures steps { result ≡ steps self.now }
        ensures history { (H : History) → StandsFor self.now H → result ≡ length H }
    {
        self.steps
    }

    /// The global locale as it is now.
    pub fn global(&self) -> &GlobalLocale<P>
        ensures version { (H : History) → StandsFor self.now H → result.now.version ≡ sets H }
        ensures object { (H : History) → StandsFor self.now H → result.now.object ≡ global self.now.setting H }
        ensures newest { (H : History) → StandsFor self.now H → result.now.object ≡ global_at self.now.setting H (sets H) }
    {
        self.kept.global()
    }
}
