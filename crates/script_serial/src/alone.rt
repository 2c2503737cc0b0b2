//! A thread at a table that its runner has alone.

ghost use Rattle.std.specs.Prelude.{◌≡◌, ◌+◌, ◌<◌, ◌≤◌, [], OnOk, None, if◌then◌else◌};
ghost use Rattle.script_lines.specs.Catalogs.{catalog_setting};
ghost use Rattle.lc_base.specs.declared.handle.Named.TheVariants as names;
ghost use Rattle.handle_table.specs.Entry.{is_accepted};
ghost use Rattle.handle_table.specs.History.{selection_after};
ghost use Rattle.handle_table.specs.Answer.{own_after};
ghost use Rattle.handle_table.specs.Seen.{op_of, reply_of};
ghost use Rattle.script_wishes.specs.Holds.{object_held, changed, hold_change};
ghost use Rattle.script_serial.specs.Effect.{selected_by, change_by};

use catalog_handles::{BookShare, CatalogOp, CatalogReply, Catalogs};
use category_store::Share;
use handle_table::{Op, Reply, Table};
use lc_base::{Handle, Named};
use mask_compose::Object;
use script_lines::board::{Board, Side};
use script_wishes::holds::{HoldChange, OpenHold, change_holds, held_as, hold_change, object_held};
use std::alloc::{AllocError, Global};
use std::marker::Model;

/// What a thread keeps of its calls beside a table that its runner has alone.
#[derive(Drop)]
pub struct AloneSide {
    number: u32,
    own: Option<Object<Share>>,
    selected: Named,
    /// Its open Holds, in the order made.
    holds: Vec<OpenHold>,
}

impl Model for AloneSide {
    ghost use Rattle.script_serial.specs.Alone.{AloneSideData};

    ghost Value = { AloneSideData };

    ghost view = { λ k. record { number = k.number; own = k.own; selected = k.selected; holds = k.holds.items } };
}

impl AloneSide {
    /// A thread before its first call.
    pub fn new(alloc: Global, number: u32) -> AloneSide
        ensures { result ≡ record { number = number; own = None; selected = names.Global; holds = [] } }
    {
        AloneSide {
            number,
            own: None,
            selected: Named::Global,
            holds: Vec::new(alloc),
        }
    }

    /// Its open Holds, in the order made.
    pub fn holds(&self) -> &[OpenHold]
        ensures { result.now ≡ self.now.holds }
    {
        self.holds.as_slice()
    }

    /// Follows the reply to an op of the thread that has this effect if it is accepted.
    #[inline(always)]
    #[tactic(auto, using(crate::proofs::Effects::same_either), unfolding(crate::specs::Effect::selected_by, crate::specs::Effect::change_by))]
    fn follow(&mut self, effect: Effect, reply: &Reply<Share>) -> Result<(), AllocError>
        ensures { OnOk result (self.new ≡ record self.old {
          own = own_after (reply_of reply.now) self.old.own;
          selected = (if is_accepted (reply_of reply.now) then selected_by effect self.old.selected else self.old.selected);
          holds = (if is_accepted (reply_of reply.now) then changed self.old.holds (object_held (reply_of reply.now)) (change_by effect) else self.old.holds);
        }) }
    {
        match effect {
            Effect::Neither => {
                self.take_up(reply);
                Ok(())
            }
            Effect::Changes(next, change) => self.follow_changes(next, change, reply),
        }
    }

    /// Follows the reply to an op of the thread: what it selects and how its Holds change if the op is
    /// accepted, and the object that it takes up.
    fn follow_changes(
        &mut self,
        next: Named,
        change: HoldChange,
        reply: &Reply<Share>,
    ) -> Result<(), AllocError>
        ensures { OnOk result (self.new ≡ record self.old {
          own = own_after (reply_of reply.now) self.old.own;
          selected = (if is_accepted (reply_of reply.now) then next else self.old.selected);
          holds = (if is_accepted (reply_of reply.now) then changed self.old.holds (object_held (reply_of reply.now)) change else self.old.holds);
        }) }
    {
        if let Reply::Refused(_) = reply {
            return Ok(());
        }
        self.take_up(reply);
        self.selected = next;
        change_holds(&mut self.holds, object_held(reply), change)
    }

    /// Takes up the object that an accepted uselocale hands over; at its end the thread has none.
    #[inline(always)]
    fn take_up(&mut self, reply: &Reply<Share>)
        ensures { self.new ≡ record self.old { own = own_after (reply_of reply.now) self.old.own } }
    {
        match reply {
            Reply::Was { now, .. } => self.own = now.as_ref().map(|object| object.share()),
            Reply::Ended => self.own = None,
            _ => {}
        }
    }
}

impl Side for AloneSide {
    ghost use Rattle.script_serial.specs.Alone.{Knows};

    ghost number_of = { λ k. k.number };

    ghost knows = { Knows };

    fn number(&self) -> u32 {
        self.number
    }

    fn own(&self) -> Option<&Object<Share>> {
        self.own.as_ref()
    }

    fn selected(&self) -> Named {
        self.selected
    }

    fn held_as(&self, named: Named) -> Option<&Object<Share>> {
        held_as(self.holds.as_slice(), named)
    }
}

/// A table and the catalogs of its threads, which their runner has alone.
pub struct Alone {
    table: Table<Share>,
    catalogs: Catalogs<BookShare>,
    /// How many ops the catalogs have answered.
    asked: u32,
}

impl Drop for Alone {
    fn drop(self) {
        let Alone {
            table: _,
            catalogs: _,
            asked: _,
        } = self;
    }
}

impl Model for Alone {
    ghost use Rattle.std.specs.Prelude.{◌≡◌};
    ghost use Rattle.script_lines.specs.Catalogs.{catalog_setting};
    ghost use Rattle.script_serial.specs.Alone.{AloneData};

    ghost Value = { AloneData };

    ghost view = { λ a. record { table = a.table; catalogs = a.catalogs; asked = a.asked } };

    ghost invariant = { λ a. a.catalogs.setting ≡ catalog_setting a.table.setting };
}

impl Alone {
    /// The table, and catalogs of the same threads that have answered nothing yet.
    pub fn new(table: Table<Share>, catalogs: Catalogs<BookShare>) -> Alone
        requires { catalogs.setting ≡ catalog_setting table.setting }
        ensures { result ≡ record { table = table; catalogs = catalogs; asked = 0 } }
    {
        Alone {
            table,
            catalogs,
            asked: 0,
        }
    }
}

impl Board for Alone {
    ghost use Rattle.std.specs.Prelude.{◌≡◌};
    ghost use Rattle.std.proofs.Common.{refl, arith};
    ghost use Rattle.handle_table.specs.Table.{Fits};
    ghost use Rattle.script_serial.specs.Session.{IsAt, IsReady, CatalogsAreAt};

    type Side = AloneSide;

    ghost setting_of = { λ a. a.table.setting };

    ghost at = { λ a k H. IsAt a.table k H };

    ghost later = { λ _ _ G H. G ≡ H };

    ghost catalogs_at = { λ a _ M. CatalogsAreAt a M };

    ghost catalogs_later = { λ _ _ G M. G ≡ M };

    ghost ready = { IsReady };

    ghost may = { Fits };

    ghost known = { λ b s H here. here.knows };

    ghost stays = { λ b s H here. refl };

    ghost fewer = { λ n b s ready. let few = ready.steps in record { number = ready.number; steps = omega arith } };

    #[inline(always)]
    fn call(
        &mut self,
        side: &mut AloneSide,
        op: Op<Share>,
    ) -> Result<(u64, Reply<Share>), AllocError> {
        let effect = effect_of(&op, side.selected);
        let place = u64::from(self.table.steps());
        let reply = self.table.step(side.number, op);
        side.follow(effect, &reply)?;
        Ok((place, reply))
    }

    fn global(&mut self, _side: &mut AloneSide) -> (u32, Object<Share>) {
        let global = self.table.global();
        (global.version(), global.peek().share())
    }

    fn catalog(
        &mut self,
        side: &mut AloneSide,
        op: CatalogOp<BookShare>,
    ) -> (u64, CatalogReply<BookShare>) {
        let place = u64::from(self.asked);
        self.asked += 1;
        (place, self.catalogs.step(side.number, op))
    }
}

/// What a thread has selected after an accepted op.
fn selection_after(op: &Op<Share>, before: Named) -> Named
    ensures { result ≡ selection_after (op_of op.now) before }
{
    match op {
        Op::Use { to } => *to,
        Op::End => Named::Global,
        _ => before,
    }
}

/// What an accepted op changes of what its thread has selected and holds.
#[derive(Clone, Copy)]
enum Effect {
    Neither,
    /// What it has selected then, and what becomes of its Holds.
    Changes(Named, HoldChange),
}

/// The effect of an op, if it is accepted, where the thread has this selected before.
#[inline(always)]
#[tactic(auto, unfolding(crate::specs::Effect::selected_by, crate::specs::Effect::change_by))]
fn effect_of(op: &Op<Share>, before: Named) -> Effect
    ensures selected { selected_by result before ≡ selection_after (op_of op.now) before }
    ensures holds { change_by result ≡ hold_change (op_of op.now) }
{
    match op {
        Op::Use { .. } | Op::Hold { .. } | Op::Release { .. } | Op::End => {
            Effect::Changes(selection_after(op, before), hold_change(op))
        }
        Op::New { .. }
        | Op::Dup { .. }
        | Op::Free { .. }
        | Op::SetGlobal { .. }
        | Op::Install { .. }
        | Op::Post { .. }
        | Op::Fetch { .. }
        | Op::Pins { .. } => Effect::Neither,
    }
}
