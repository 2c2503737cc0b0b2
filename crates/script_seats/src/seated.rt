//! A thread at a table and at catalogs that threads share.

ghost use Rattle.std.specs.Prelude.{◌≡◌, [], find, position, IfOk, OnOk, MatchOption};
ghost use Rattle.std.specs.Option.{option_copied};
ghost use Rattle.handle_table.specs.Entry as table;
ghost use Rattle.handle_table.specs.Seen.{op_of, reply_of};
ghost use Rattle.handle_table.specs.Table.{Fits};
ghost use Rattle.script_seats.specs.Seated.{HasCalls, MayCall, LeavesHolds, AnswersSeated, is_held, IsFirst, IsTaken, IsUnheld};

use catalog_handles::{BookShare, CatalogOp, CatalogReply, Reader, SharedCatalogs};
use category_store::Share;
use handle_table::{Op, Refusal, Reply};
use lc_base::{Handle, Named};
use mask_compose::Object;
use script_lines::board::{Board, Side};
use script_wishes::holds::is_named;
use std::alloc::{AllocError, Global};
use std::marker::{Brand, PhantomData};
use std::sync::Wait;
use thread_current::{Fault, Held, Mine, Shared};

/// What a thread keeps at a shared table and at shared catalogs.
#[derive(Drop)]
pub struct Seated {
    pub number: u32,
    pub mine: Mine<Share>,
    pub reader: Reader<BookShare>,
    /// Its open Holds, in the order made.
    pub holds: Vec<Held<Share>>,
}

impl Seated {
    /// A thread before its first call.
    pub fn new(alloc: Global, number: u32, mine: Mine<Share>, reader: Reader<BookShare>) -> Seated
        ensures { (result.number ≡ number) × (result.mine ≡ mine) × (result.holds.items ≡ []) × (result.reader ≡ reader) }
    {
        Seated {
            number,
            mine,
            reader,
            holds: Vec::new(alloc),
        }
    }

    /// The handle of the first of its open Holds.
    pub fn first_hold(&self) -> Option<Handle>
        ensures { MatchOption result (self.now.holds.items ≡ []) (λ h. IsFirst h self.now.holds.items) }
    {
        match self.holds.first() {
            Some(held) => Some(held.handle()),
            None => None,
        }
    }
}

// Where the open Hold of what is named stands.
fn hold_at(holds: &[Held<Share>], named: Named) -> Option<usize>
    ensures { result ≡ position (is_held named) holds.now }
{
    holds.iter().position(|held| is_named(named, held.handle()))
}

// The open Hold of what is named.
fn hold_of(holds: &[Held<Share>], named: Named) -> Option<&Held<Share>>
    ensures { option_copied result ≡ find (is_held named) holds.now }
{
    holds.iter().find(|held| is_named(named, held.handle()))
}

// Takes the open Hold of what is named out.
fn take_hold(holds: &mut Vec<Held<Share>>, named: Named) -> Option<Held<Share>>
    ensures { MatchOption result (IsUnheld named holds.old.items × (holds.new.items ≡ holds.old.items)) (λ h. IsTaken named holds.old.items holds.new.items h) }
{
    match hold_at(holds.as_slice(), named) {
        Some(place) => Some(holds.remove(place)),
        None => None,
    }
}

impl Side for Seated {
    ghost use Rattle.script_seats.specs.Seated.{KnowsSeated};

    ghost number_of = { λ s. s.number };

    ghost knows = { KnowsSeated };

    fn number(&self) -> u32 {
        self.number
    }

    fn own(&self) -> Option<&Object<Share>> {
        self.mine.own()
    }

    fn selected(&self) -> Named {
        self.mine.named()
    }

    fn held_as(&self, named: Named) -> Option<&Object<Share>> {
        match hold_of(self.holds.as_slice(), named) {
            Some(held) => Some(held.object()),
            None => None,
        }
    }
}

/// Which shared table it is, and which catalogs.
pub trait OneTable {
    ghost use Rattle.turn_gate.specs.Callers.{Gate};
    ghost use Rattle.handle_table.specs.Entry.{Setting};
    ghost use Rattle.catalog_handles.specs.declared.setting.CatalogSetting.{CatalogSetting};

    ghost gate: { Gate Setting };

    ghost desk: { Gate CatalogSetting };
}

impl OneTable for Brand {
    ghost use Rattle.script_seats.specs.Seated.{some_gate, some_catalogs};

    ghost gate = { some_gate };

    ghost desk = { some_catalogs };
}

/// A table and catalogs that threads share, with the runtime value by which their calls wait for their
/// turn.
#[derive(Drop)]
pub struct Beside<'a, R, G: OneTable> {
    rt: &'a R,
    shared: &'a Shared<Share>,
    catalogs: &'a SharedCatalogs<BookShare>,
    of: PhantomData<G>,
    ghost table_is: { shared.now ≡ G.gate },
    ghost catalogs_are: { catalogs.now ≡ G.desk },
}

impl<'a, R: Wait, G: OneTable> Board for Beside<'a, R, G> {
    ghost use Rattle.script_seats.specs.Seated.{IsSeatedAt, IsAskingAt, MayFollow, MayFollowAsked, CanCall, MayCall, gates};
    ghost use Rattle.script_seats.specs.SeatLaws.{seated_known, seated_stays, calls_fewer};

    type Side = Seated;

    ghost setting_of = { λ _. G.gate.terms.setting };

    ghost at = { λ _ s H. IsSeatedAt G.gate s H };

    ghost later = { MayFollow };

    ghost catalogs_at = { λ _ s M. IsAskingAt G.desk s M };

    ghost catalogs_later = { MayFollowAsked };

    ghost ready = { λ n _ s. CanCall n (gates G.gate G.desk) s };

    ghost may = { MayCall };

    fn call(
        &mut self,
        side: &mut Seated,
        op: Op<Share>,
    ) -> Result<(u64, Reply<Share>), AllocError> {
        self.answer(side, op)
    }

    fn global(&mut self, side: &mut Seated) -> (u32, Object<Share>) {
        self.shared.global_now(self.rt, &mut side.mine)
    }

    fn catalog(
        &mut self,
        side: &mut Seated,
        op: CatalogOp<BookShare>,
    ) -> (u64, CatalogReply<BookShare>) {
        let seen = self.shared.reach(self.rt, &mut side.mine, 0);
        let (place, stamp, reply) = self.catalogs.turn(self.rt, &mut side.reader, op, seen);
        self.shared.reach(self.rt, &mut side.mine, stamp);
        (place, reply)
    }

    ghost known = { λ _ s H. seated_known G.gate s H };

    ghost stays = { λ _ s H. seated_stays G.gate s H };

    ghost fewer = { λ n _ s. calls_fewer n (gates G.gate G.desk) s };
}

impl<'a, R: Wait, G: OneTable> Beside<'a, R, G> {
    /// The table and the catalogs, for a while.
    pub fn new(
        rt: &'a R,
        shared: &'a Shared<Share>,
        catalogs: &'a SharedCatalogs<BookShare>,
    ) -> Beside<'a, R, G>
        requires table { shared.now ≡ G.gate }
        requires catalogs { catalogs.now ≡ G.desk }
    {
        Beside {
            rt,
            shared,
            catalogs,
            of: PhantomData,
        }
    }

    // Answers a call that does not end its thread.
    fn answer(&self, side: &mut Seated, op: Op<Share>) -> Result<(u64, Reply<Share>), AllocError>
        requires calls { HasCalls 1 self.now.shared.now side.old }
        requires op { MayCall self.now.shared.now.terms.setting (op_of op) }
        ensures answers { IfOk result (λ r. AnswersSeated self.now.shared.now side.old side.new (op_of op) r.0 (reply_of r.1)) }
        ensures reader { OnOk result (side.new.reader ≡ side.old.reader) }
    {
        match op {
            Op::Hold { h } => self.hold(side, h),
            Op::Release { h } => Ok(self.release(side, h)),
            Op::New { .. }
            | Op::Dup { .. }
            | Op::Free { .. }
            | Op::Use { .. }
            | Op::SetGlobal { .. }
            | Op::Install { .. }
            | Op::Post { .. }
            | Op::Fetch { .. }
            | Op::Pins { .. } => Ok(self.asked(side, op)),
            Op::End => unreachable!(),
        }
    }

    // A call that neither begins nor gives up a Hold.
    fn asked(&self, side: &mut Seated, op: Op<Share>) -> (u64, Reply<Share>)
        requires calls { HasCalls 1 self.now.shared.now side.old }
        requires op { Fits self.now.shared.now.terms.setting (op_of op) × LeavesHolds (op_of op) }
        ensures answers { AnswersSeated self.now.shared.now side.old side.new (op_of op) result.0 (reply_of result.1) }
        ensures reader { side.new.reader ≡ side.old.reader }
    {
        self.shared.call(self.rt, &mut side.mine, op)
    }

    // Holds what is named.
    fn hold(&self, side: &mut Seated, h: Named) -> Result<(u64, Reply<Share>), AllocError>
        requires calls { HasCalls 1 self.now.shared.now side.old }
        ensures answers { IfOk result (λ r. AnswersSeated self.now.shared.now side.old side.new (table.Hold h) r.0 (reply_of r.1)) }
        ensures reader { OnOk result (side.new.reader ≡ side.old.reader) }
    {
        match self.shared.hold(self.rt, &mut side.mine, h) {
            Ok((place, held)) => {
                let object = held.object().share();
                side.holds.push(held)?;
                Ok((place, Reply::Held(object)))
            }
            Err(fault) => Ok(refused(fault)),
        }
    }

    // Gives up the open Hold of what is named, or makes the refused entry where there is none.
    fn release(&self, side: &mut Seated, h: Named) -> (u64, Reply<Share>)
        requires calls { HasCalls 1 self.now.shared.now side.old }
        ensures answers { AnswersSeated self.now.shared.now side.old side.new (table.Release h) result.0 (reply_of result.1) }
        ensures reader { side.new.reader ≡ side.old.reader }
    {
        match take_hold(&mut side.holds, h) {
            Some(held) => {
                let place = self.shared.release(self.rt, &mut side.mine, held);
                (place, Reply::Released)
            }
            None => {
                let (place, refusal) = self.shared.release_unheld(self.rt, &mut side.mine, h);
                (place, Reply::Refused(refusal))
            }
        }
    }
}

// The place and the reply of a refused call.
fn refused(fault: Fault) -> (u64, Reply<Share>)
    ensures { (result.0 ≡ fault.place) × (reply_of result.1 ≡ table.Refused fault.refusal) }
{
    (fault.place, Reply::Refused(fault.refusal))
}
