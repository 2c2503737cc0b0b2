//! The table of locale objects that threads share.
ghost use Rattle.std.specs.Prelude.{◌≡◌, ◌≢◌, ◌↔◌, ℕ, ◌*◌, ◌<◌, ◌≤◌, ◌++◌, ◌&&◌, ◌||◌, not, true, false, length, map, IfOk, OnOk, IfErr, IfSome, MatchOption, MatchResult};
ghost use Rattle.std.specs.List.{All, range_with_len};
ghost use Rattle.std.specs.Option.{IsNone, IsSomeAnd};
ghost use Rattle.lc_base.specs.declared.category.Category.{Category};
ghost use Rattle.mask_compose.specs.Parts.{Parts};
ghost use Rattle.mask_compose.specs.Offer.{AreOnShelf};
ghost use Rattle.turn_gate.specs.Callers.{IsSeatOf, IsSameCaller};
ghost use Rattle.turn_gate.specs.Ends.{SomeCaller};
ghost use Rattle.lc_base.specs.declared.handle.Handle.{Handle};
ghost use Rattle.lc_base.specs.declared.handle.Named.TheVariants as targets;
ghost use Rattle.handle_table.specs.declared.op.Refusal.TheVariants as refusals;
ghost use Rattle.handle_table.specs.Entry as data_of;
ghost use Rattle.handle_table.specs.Entry.{same_handle};
ghost use Rattle.handle_table.specs.Shelf.{lacking};
ghost use Rattle.handle_table.specs.History.{sets, global_at, selection, holding, free_row, posted};
ghost use Rattle.handle_table.specs.Answer.{target_object};
ghost use Rattle.handle_table.specs.Table.{IsOpening, Fits, StandsFor};
ghost use Rattle.handle_table.specs.Seen.{op_of, reply_of};
ghost use Rattle.thread_current.specs.Seen.{entries_of};
ghost use Rattle.thread_current.specs.Thread.{IsThreadOf, IsInOrder, IsPart, After, Leaves, takes_up, Answered, SawMore, Keeps, KeepsSelection, KeepsHolds, GoesOnFrom, before, selected, own_object, holds, first_thread, thread_of};
ghost use Rattle.thread_current.specs.Mine.{IsUnused};
ghost use Rattle.thread_current.specs.Causes.{refusal_in, IsOfChange, IsNeverMade, IsStale, IsThere, IsHeldAlready};

use crate::held::Held;
use crate::locales::{Ask, Locales};
use crate::mine::Mine;
use handle_table::{MAX_THREADS, Op, Refusal, Reply, Table};
use lc_base::{CELLS, Handle, List, Mask, Named};
use mask_compose::{Object, Offer, Part};
use std::alloc::{AllocError, Global};
use std::marker::Model;
use std::sync::Wait;
use turn_gate::{Seat, Turns};

/// A call that was refused: the place of its entry in the history, and why.
///
/// It changed nothing else, and the thread has what it had selected and its holds.
#[derive(Clone, Copy, Debug, PartialEq, Eq)]
pub struct Fault {
    /// The number of entries before it.
    pub place: u64,
    /// Why it was refused.
    pub refusal: Refusal,
}

/// A table of locale objects that threads share, each as its `Mine`.
///
/// Each call that gives a place or a `Fault` makes one entry of the one history that all threads
/// have. No call but `new` takes memory.
#[derive(Drop)]
pub struct Shared<P: Part> {
    turns: Turns<Locales<P>>,
}

impl<P: Part> Model for Shared<P> {
    ghost use Rattle.std.specs.Prelude.{◌≡◌};
    ghost use Rattle.turn_gate.specs.Callers.{Gate};
    ghost use Rattle.handle_table.specs.Entry.{Setting};

    ghost Value = { Gate Setting };

    ghost view = { λ s. s.turns };

    ghost invariant = { λ s. s.turns.terms.seats ≡ s.turns.terms.setting.threads };
}

// Adds a thread for each of the seats, in their order.
fn seat_all<P: Part>(
    seats: &mut Vec<Seat<Locales<P>>>,
    posix: &Object<P>,
    all: &mut Vec<Mine<P>>,
) -> Result<(), AllocError>
    requires { All (IsUnused posix.now) seats.old.items }
    ensures { OnOk result (all.new.items ≡ all.old.items ++ map (thread_of 0) seats.old.items) }
{
    if let Some(seat) = seats.pop() {
        seat_all(seats, posix, all)?;
        all.push(Mine::first(seat, posix.share()))?;
    }
    Ok(())
}

// The object once more, where there is one.
fn share_any<P: Part>(object: &Option<Object<P>>) -> Option<Object<P>>
    ensures { result ≡ object.now }
{
    match object {
        Some(object) => Some(object.share()),
        None => None,
    }
}

// The version that the reply to a change of the global locale gives, or why it was refused.
fn version_set<P: Part>(place: u64, reply: &Reply<P>) -> Result<(u64, u32), Fault>
    requires { IsOfChange (reply_of reply.now) }
    ensures { MatchResult result (λ r. (r.0 ≡ place) × ((object : Parts) × (reply_of reply.now ≡ data_of.Set r.1 object)))
        (λ f. (f.place ≡ place) × (reply_of reply.now ≡ data_of.Refused f.refusal)) }
{
    match reply {
        Reply::Set { version, .. } => Ok((place, *version)),
        Reply::Refused(refusal) => Err(Fault {
            place,
            refusal: *refusal,
        }),
        _ => unreachable!(),
    }
}

impl<P: Part> Shared<P> {
    /// A table without objects that threads share, and the threads, each with its own side. Thread i
    /// is number i, and may make at most `quota` entries.
    ///
    /// There are 1 to 16 threads of 1 to 64 rows with 1 to 2147483647 generations each. The shelf has
    /// the offers of the locale names by number, and begins with the POSIX locale's, which offers
    /// all. All memory is taken here.
    pub fn new<R: Wait>(
        rt: &R,
        alloc: Global,
        threads: u32,
        rows: u32,
        generations: u32,
        quota: u32,
        shelf: List<Offer<P>>,
    ) -> Result<(Shared<P>, List<Mine<P>>), AllocError>
        requires some_thread { 1 ≤ threads }
        requires threads { threads ≤ MAX_THREADS }
        requires some_row { 1 ≤ rows }
        requires rows { rows ≤ 64 }
        requires some_generation { 1 ≤ generations }
        requires generations { generations ≤ 2147483647 }
        requires quota { 1 ≤ quota }
        requires room { threads * quota ≤ 2147483647 }
        requires shelf { IsOpening shelf }
        ensures terms { IfOk result (λ s. s.0.terms ≡ record {
          setting = record { threads = threads; rows = rows; generations = generations; opening = shelf };
          seats = threads;
          quota = quota;
        }) }
        ensures threads { IfOk result (λ s. s.1 ≡ map (first_thread s.0) (range_with_len 0 threads)) }
    {
        let table = Table::new(alloc, threads, rows, generations, shelf)?;
        let posix = table.global().peek().share();
        let mut all = Vec::with_capacity(alloc, threads as usize)?;
        let (turns, seats) = Turns::new(rt, alloc, Locales { table }, threads, quota)?;
        let mut seats = seats.into_vec();
        seat_all(&mut seats, &posix, &mut all)?;
        Ok((Shared { turns }, List::of(all)))
    }

    /// Makes one entry by an op that does not end the thread, and gives its place and the reply.
    ///
    /// The thread goes by the reply: it has selected what an accepted `Op::Use` named, and read the
    /// global object that an accepted `Op::SetGlobal` made. A hold that an `Op::Hold` began is given up
    /// by an `Op::Release`. A thread ends by `end`, which takes it.
    pub fn call<R: Wait>(&self, rt: &R, mine: &mut Mine<P>, op: Op<P>) -> (u64, Reply<P>)
        requires thread { IsThreadOf self.now mine.old }
        requires quota { length mine.old.calls < self.now.terms.quota }
        requires fits { Fits self.now.terms.setting (op_of op) }
        requires goes_on { op_of op ≢ data_of.End }
        ensures made { Answered self.now mine.old mine.new (op_of op) result.0 (reply_of result.1) }
        ensures in_order { IsInOrder self.now.terms mine.new }
        ensures leaves { Leaves mine.old mine.new (op_of op) (reply_of result.1) }
    {
        match op {
            Op::Use { to } => self.take_up(rt, mine, to),
            Op::SetGlobal { mask, names } => self.change(rt, mine, mask, names),
            Op::New { .. }
            | Op::Dup { .. }
            | Op::Free { .. }
            | Op::Hold { .. }
            | Op::Release { .. }
            | Op::Install { .. }
            | Op::Post { .. }
            | Op::Fetch { .. }
            | Op::Pins { .. } => self.enter(rt, mine, op),
            Op::End => unreachable!(),
        }
    }

    // Makes one entry, which neither selects anything nor ends the thread.
    fn enter<R: Wait>(&self, rt: &R, mine: &mut Mine<P>, op: Op<P>) -> (u64, Reply<P>)
        requires thread { IsThreadOf self.now mine.old }
        requires quota { length mine.old.calls < self.now.terms.quota }
        requires fits { Fits self.now.terms.setting (op_of op) }
        requires plain { takes_up (op_of op) ≡ false }
        ensures answered { Answered self.now mine.old mine.new (op_of op) result.0 (reply_of result.1) }
        ensures in_order { IsInOrder self.now.terms mine.new }
        ensures before { (h : Handle) → holding (before mine.new) mine.old.number h ≡ holds mine.old h }
        ensures after { After mine.old mine.new (op_of op) (reply_of result.1) }
        ensures selection { KeepsSelection mine.old mine.new }
        ensures cached { mine.new.cached ≡ mine.old.cached }
    {
        self.turns.turn(rt, &mut mine.seat, op)
    }

    // Makes the entry of a selection, and takes up the object that it gives.
    fn take_up<R: Wait>(&self, rt: &R, mine: &mut Mine<P>, to: Named) -> (u64, Reply<P>)
        requires thread { IsThreadOf self.now mine.old }
        requires quota { length mine.old.calls < self.now.terms.quota }
        ensures answered { Answered self.now mine.old mine.new (data_of.Use to) result.0 (reply_of result.1) }
        ensures in_order { IsInOrder self.now.terms mine.new }
        ensures before { selection (before mine.new) mine.old.number ≡ selected mine.old }
        ensures leaves { Leaves mine.old mine.new (data_of.Use to) (reply_of result.1) }
    {
        let (place, reply) = self.turns.turn(rt, &mut mine.seat, Op::Use { to });
        if let Reply::Was { now, .. } = &reply {
            mine.named = to;
            mine.own = share_any(now);
        }
        (place, reply)
    }

    // Makes the entry of a change of the global locale, and keeps the object that it makes.
    fn change<R: Wait>(
        &self,
        rt: &R,
        mine: &mut Mine<P>,
        mask: Mask,
        names: [u32; 5],
    ) -> (u64, Reply<P>)
        requires thread { IsThreadOf self.now mine.old }
        requires quota { length mine.old.calls < self.now.terms.quota }
        requires names { AreOnShelf self.now.terms.setting.opening names }
        ensures answered { Answered self.now mine.old mine.new (data_of.SetGlobal mask names) result.0 (reply_of result.1) }
        ensures in_order { IsInOrder self.now.terms mine.new }
        ensures leaves { Leaves mine.old mine.new (data_of.SetGlobal mask names) (reply_of result.1) }
    {
        let (place, reply) = self.enter(rt, mine, Op::SetGlobal { mask, names });
        if let Reply::Set { version, object } = &reply {
            mine.read(*version, object.share());
        }
        (place, reply)
    }

    /// Makes an object, or changes the base: in the categories of the mask the parts of the named
    /// locales, in the others those of the base, or of the POSIX locale where there is none (XSH
    /// newlocale).
    pub fn newlocale<R: Wait>(
        &self,
        rt: &R,
        mine: &mut Mine<P>,
        mask: Mask,
        names: [u32; 5],
        base: Option<Named>,
    ) -> Result<(u64, Handle), Fault>
        requires thread { IsThreadOf self.now mine.old }
        requires quota { length mine.old.calls < self.now.terms.quota }
        requires names { AreOnShelf self.now.terms.setting.opening names }
        ensures made { IfOk result (λ r. Answered self.now mine.old mine.new (data_of.New mask names base) r.0 (data_of.Made r.1)) }
        ensures fault { IfErr result (λ f. Answered self.now mine.old mine.new (data_of.New mask names base) f.place (data_of.Refused f.refusal)) }
        ensures in_order { IsInOrder self.now.terms mine.new }
        ensures keeps { Keeps mine.old mine.new }
        ensures no_data { (k : Category) → (refusal_in result ≡ Some (refusals.NoData k)) ↔ (lacking self.now.terms.setting (before mine.new) mask names ≡ Some k) }
        ensures global_handle { (refusal_in result ≡ Some refusals.GlobalHandle) ↔ ((lacking self.now.terms.setting (before mine.new) mask names ≡ None) × (base ≡ Some targets.Global)) }
        ensures never_made { (refusal_in result ≡ Some refusals.NeverMade) ↔ ((lacking self.now.terms.setting (before mine.new) mask names ≡ None) × IsSomeAnd base (IsNeverMade (before mine.new))) }
        ensures stale { (refusal_in result ≡ Some refusals.Stale) ↔ ((lacking self.now.terms.setting (before mine.new) mask names ≡ None) × IsSomeAnd base (IsStale (before mine.new))) }
        ensures too_many { (refusal_in result ≡ Some refusals.TooMany) ↔ ((lacking self.now.terms.setting (before mine.new) mask names ≡ None) × (base ≡ None) × (free_row self.now.terms.setting (before mine.new) mine.old.number ≡ None)) }
    {
        let (place, reply) = self.enter(rt, mine, Op::New { mask, names, base });
        match reply {
            Reply::Made(handle) => Ok((place, handle)),
            Reply::Refused(refusal) => Err(Fault { place, refusal }),
            _ => unreachable!(),
        }
    }

    /// Makes a copy of an object, or of the global locale (XSH duplocale).
    pub fn duplocale<R: Wait>(
        &self,
        rt: &R,
        mine: &mut Mine<P>,
        from: Named,
    ) -> Result<(u64, Handle), Fault>
        requires thread { IsThreadOf self.now mine.old }
        requires quota { length mine.old.calls < self.now.terms.quota }
        ensures made { IfOk result (λ r. Answered self.now mine.old mine.new (data_of.Dup from) r.0 (data_of.Made r.1)) }
        ensures fault { IfErr result (λ f. Answered self.now mine.old mine.new (data_of.Dup from) f.place (data_of.Refused f.refusal)) }
        ensures in_order { IsInOrder self.now.terms mine.new }
        ensures keeps { Keeps mine.old mine.new }
        ensures never_made { (refusal_in result ≡ Some refusals.NeverMade) ↔ IsNeverMade (before mine.new) from }
        ensures stale { (refusal_in result ≡ Some refusals.Stale) ↔ IsStale (before mine.new) from }
        ensures too_many { (refusal_in result ≡ Some refusals.TooMany) ↔ (IsThere (before mine.new) from × (free_row self.now.terms.setting (before mine.new) mine.old.number ≡ None)) }
    {
        match self.enter(rt, mine, Op::Dup { from }) {
            (place, Reply::Made(handle)) => Ok((place, handle)),
            (place, Reply::Refused(refusal)) => Err(Fault { place, refusal }),
            _ => unreachable!(),
        }
    }

    /// Frees an object (XSH freelocale). Who has it selected or holds it goes on with it.
    pub fn freelocale<R: Wait>(&self, rt: &R, mine: &mut Mine<P>, h: Named) -> Result<u64, Fault>
        requires thread { IsThreadOf self.now mine.old }
        requires quota { length mine.old.calls < self.now.terms.quota }
        ensures made { IfOk result (λ r. Answered self.now mine.old mine.new (data_of.Free h) r (data_of.Freed)) }
        ensures fault { IfErr result (λ f. Answered self.now mine.old mine.new (data_of.Free h) f.place (data_of.Refused f.refusal)) }
        ensures in_order { IsInOrder self.now.terms mine.new }
        ensures keeps { Keeps mine.old mine.new }
        ensures global_handle { (refusal_in result ≡ Some refusals.GlobalHandle) ↔ (h ≡ targets.Global) }
        ensures never_made { (refusal_in result ≡ Some refusals.NeverMade) ↔ IsNeverMade (before mine.new) h }
        ensures stale { (refusal_in result ≡ Some refusals.Stale) ↔ IsStale (before mine.new) h }
    {
        match self.enter(rt, mine, Op::Free { h }) {
            (place, Reply::Freed) => Ok(place),
            (place, Reply::Refused(refusal)) => Err(Fault { place, refusal }),
            _ => unreachable!(),
        }
    }

    /// Selects an object or the global locale for the thread, and gives what was selected before (XSH
    /// uselocale).
    pub fn uselocale<R: Wait>(
        &self,
        rt: &R,
        mine: &mut Mine<P>,
        to: Named,
    ) -> Result<(u64, Named), Fault>
        requires thread { IsThreadOf self.now mine.old }
        requires quota { length mine.old.calls < self.now.terms.quota }
        ensures made { IfOk result (λ r. Answered self.now mine.old mine.new (data_of.Use to) r.0 (data_of.Was r.1 (target_object self.now.terms.setting (before mine.new) to))) }
        ensures fault { IfErr result (λ f. Answered self.now mine.old mine.new (data_of.Use to) f.place (data_of.Refused f.refusal)) }
        ensures in_order { IsInOrder self.now.terms mine.new }
        ensures former { IfOk result (λ r. r.1 ≡ selected mine.old) }
        ensures selected { IfOk result (λ r. selected mine.new ≡ to) }
        ensures own { IfOk result (λ r. own_object mine.new ≡ target_object self.now.terms.setting (before mine.new) to) }
        ensures keeps { IfErr result (λ f. KeepsSelection mine.old mine.new) }
        ensures holds { KeepsHolds mine.old mine.new }
        ensures cached { mine.new.cached ≡ mine.old.cached }
        ensures never_made { (refusal_in result ≡ Some refusals.NeverMade) ↔ IsNeverMade (before mine.new) to }
        ensures stale { (refusal_in result ≡ Some refusals.Stale) ↔ IsStale (before mine.new) to }
    {
        let (place, reply) = self.take_up(rt, mine, to);
        match reply {
            Reply::Was { former, .. } => Ok((place, former)),
            Reply::Refused(refusal) => Err(Fault { place, refusal }),
            _ => unreachable!(),
        }
    }

    /// Changes the global locale in the categories of the mask, and gives its new version (XSH
    /// setlocale).
    pub fn setlocale<R: Wait>(
        &self,
        rt: &R,
        mine: &mut Mine<P>,
        mask: Mask,
        names: [u32; 5],
    ) -> Result<(u64, u32), Fault>
        requires thread { IsThreadOf self.now mine.old }
        requires quota { length mine.old.calls < self.now.terms.quota }
        requires names { AreOnShelf self.now.terms.setting.opening names }
        ensures made { IfOk result (λ r. Answered self.now mine.old mine.new (data_of.SetGlobal mask names) r.0
            (data_of.Set r.1 (global_at self.now.terms.setting mine.new.seen r.1))) }
        ensures fault { IfErr result (λ f. Answered self.now mine.old mine.new (data_of.SetGlobal mask names) f.place (data_of.Refused f.refusal)) }
        ensures in_order { IsInOrder self.now.terms mine.new }
        ensures version { IfOk result (λ r. r.1 ≡ sets mine.new.seen) }
        ensures selection { KeepsSelection mine.old mine.new }
        ensures holds { KeepsHolds mine.old mine.new }
        ensures cached { MatchResult result (λ r. mine.new.cached ≡ r.1) (λ f. mine.new.cached ≡ mine.old.cached) }
        ensures no_data { (k : Category) → (refusal_in result ≡ Some (refusals.NoData k)) ↔ (lacking self.now.terms.setting (before mine.new) mask names ≡ Some k) }
    {
        let (place, reply) = self.change(rt, mine, mask, names);
        version_set(place, &reply)
    }

    /// Lets a locale name, which is not 0, stand for something else from now on, and gives the number
    /// of installs so far. Objects, and the global locale, stay as they are.
    pub fn install<R: Wait>(
        &self,
        rt: &R,
        mine: &mut Mine<P>,
        name: u32,
        offer: Offer<P>,
    ) -> (u64, u32)
        requires thread { IsThreadOf self.now mine.old }
        requires quota { length mine.old.calls < self.now.terms.quota }
        requires some_name { 1 ≤ name }
        requires name { name < length self.now.terms.setting.opening }
        ensures made { Answered self.now mine.old mine.new (data_of.Install name offer) result.0 (data_of.Installed result.1) }
        ensures in_order { IsInOrder self.now.terms mine.new }
        ensures keeps { Keeps mine.old mine.new }
    {
        match self.enter(rt, mine, Op::Install { name, offer }) {
            (place, Reply::Installed(count)) => (place, count),
            _ => unreachable!(),
        }
    }

    /// Holds on to an object, so that its row is not used again.
    pub fn hold<R: Wait>(
        &self,
        rt: &R,
        mine: &mut Mine<P>,
        h: Named,
    ) -> Result<(u64, Held<P>), Fault>
        requires thread { IsThreadOf self.now mine.old }
        requires quota { length mine.old.calls < self.now.terms.quota }
        ensures made { IfOk result (λ r. Answered self.now mine.old mine.new (data_of.Hold h) r.0 (data_of.Held r.1.object)) }
        ensures fault { IfErr result (λ f. Answered self.now mine.old mine.new (data_of.Hold h) f.place (data_of.Refused f.refusal)) }
        ensures in_order { IsInOrder self.now.terms mine.new }
        ensures handle { IfOk result (λ r. h ≡ targets.Of r.1.handle) }
        ensures selection { KeepsSelection mine.old mine.new }
        ensures holds { MatchResult result (λ r. (g : Handle) → holds mine.new g ≡ (same_handle r.1.handle g || holds mine.old g))
            (λ f. KeepsHolds mine.old mine.new) }
        ensures cached { mine.new.cached ≡ mine.old.cached }
        ensures global_handle { (refusal_in result ≡ Some refusals.GlobalHandle) ↔ (h ≡ targets.Global) }
        ensures never_made { (refusal_in result ≡ Some refusals.NeverMade) ↔ IsNeverMade (before mine.new) h }
        ensures stale { (refusal_in result ≡ Some refusals.Stale) ↔ IsStale (before mine.new) h }
        ensures already_held { (refusal_in result ≡ Some refusals.AlreadyHeld) ↔ IsHeldAlready (before mine.new) mine.old.number h }
    {
        match (h, self.enter(rt, mine, Op::Hold { h })) {
            (Named::Of(handle), (place, Reply::Held(object))) => Ok((
                place,
                Held { handle, object },
            )),
            (_, (place, Reply::Refused(refusal))) => Err(Fault { place, refusal }),
            _ => unreachable!(),
        }
    }

    /// Gives up a hold that the thread took.
    pub fn release<R: Wait>(&self, rt: &R, mine: &mut Mine<P>, held: Held<P>) -> u64
        requires thread { IsThreadOf self.now mine.old }
        requires quota { length mine.old.calls < self.now.terms.quota }
        requires held { holds mine.old held.handle ≡ true }
        ensures made { Answered self.now mine.old mine.new (data_of.Release (targets.Of held.handle)) result data_of.Released }
        ensures in_order { IsInOrder self.now.terms mine.new }
        ensures selection { KeepsSelection mine.old mine.new }
        ensures holds { (g : Handle) → holds mine.new g ≡ (not (same_handle held.handle g) && holds mine.old g) }
        ensures cached { mine.new.cached ≡ mine.old.cached }
    {
        let h = Named::Of(held.handle);
        let (place, _) = self.enter(rt, mine, Op::Release { h });
        place
    }

    /// Makes the refused entry of a release of what the thread does not hold.
    pub fn release_unheld<R: Wait>(&self, rt: &R, mine: &mut Mine<P>, h: Named) -> (u64, Refusal)
        requires thread { IsThreadOf self.now mine.old }
        requires quota { length mine.old.calls < self.now.terms.quota }
        requires unheld { (g : Handle) → h ≡ targets.Of g → holds mine.old g ≡ false }
        ensures fault { Answered self.now mine.old mine.new (data_of.Release h) result.0 (data_of.Refused result.1) }
        ensures in_order { IsInOrder self.now.terms mine.new }
        ensures keeps { Keeps mine.old mine.new }
        ensures global_handle { (result.1 ≡ refusals.GlobalHandle) ↔ (h ≡ targets.Global) }
        ensures not_held { (result.1 ≡ refusals.NotHeld) ↔ (h ≢ targets.Global) }
    {
        let (place, reply) = self.enter(rt, mine, Op::Release { h });
        match reply {
            Reply::Refused(refusal) => (place, refusal),
            _ => unreachable!(),
        }
    }

    /// Puts a handle into a cell of the thread, from 0 to 7.
    pub fn post<R: Wait>(
        &self,
        rt: &R,
        mine: &mut Mine<P>,
        cell: u32,
        h: Named,
    ) -> Result<u64, Fault>
        requires thread { IsThreadOf self.now mine.old }
        requires quota { length mine.old.calls < self.now.terms.quota }
        requires cell { cell < CELLS }
        ensures made { IfOk result (λ r. Answered self.now mine.old mine.new (data_of.Post cell h) r (data_of.Posted)) }
        ensures fault { IfErr result (λ f. Answered self.now mine.old mine.new (data_of.Post cell h) f.place (data_of.Refused f.refusal)) }
        ensures in_order { IsInOrder self.now.terms mine.new }
        ensures keeps { Keeps mine.old mine.new }
        ensures global_handle { (refusal_in result ≡ Some refusals.GlobalHandle) ↔ (h ≡ targets.Global) }
        ensures never_made { (refusal_in result ≡ Some refusals.NeverMade) ↔ IsNeverMade (before mine.new) h }
        ensures stale { (refusal_in result ≡ Some refusals.Stale) ↔ IsStale (before mine.new) h }
    {
        match self.enter(rt, mine, Op::Post { cell, h }) {
            (place, Reply::Posted) => Ok(place),
            (place, Reply::Refused(refusal)) => Err(Fault { place, refusal }),
            _ => unreachable!(),
        }
    }

    /// Gives the handle that stands in a thread's cell, from 0 to 7. It stays there.
    pub fn fetch<R: Wait>(
        &self,
        rt: &R,
        mine: &mut Mine<P>,
        owner: u32,
        cell: u32,
    ) -> Result<(u64, Handle), Fault>
        requires thread { IsThreadOf self.now mine.old }
        requires quota { length mine.old.calls < self.now.terms.quota }
        requires owner { owner < self.now.terms.setting.threads }
        requires cell { cell < CELLS }
        ensures made { IfOk result (λ r. Answered self.now mine.old mine.new (data_of.Fetch owner cell) r.0 (data_of.Got r.1)) }
        ensures fault { IfErr result (λ f. Answered self.now mine.old mine.new (data_of.Fetch owner cell) f.place (data_of.Refused f.refusal)) }
        ensures in_order { IsInOrder self.now.terms mine.new }
        ensures keeps { Keeps mine.old mine.new }
        ensures empty_cell { (refusal_in result ≡ Some refusals.EmptyCell) ↔ (posted (before mine.new) owner cell ≡ None) }
    {
        match self.enter(rt, mine, Op::Fetch { owner, cell }) {
            (place, Reply::Got(handle)) => Ok((place, handle)),
            (place, Reply::Refused(refusal)) => Err(Fault { place, refusal }),
            _ => unreachable!(),
        }
    }

    /// Counts who selects or holds an object, which may be freed.
    pub fn pins<R: Wait>(&self, rt: &R, mine: &mut Mine<P>, h: Named) -> Result<(u64, u32), Fault>
        requires thread { IsThreadOf self.now mine.old }
        requires quota { length mine.old.calls < self.now.terms.quota }
        ensures made { IfOk result (λ r. Answered self.now mine.old mine.new (data_of.Pins h) r.0 (data_of.Pinned r.1)) }
        ensures fault { IfErr result (λ f. Answered self.now mine.old mine.new (data_of.Pins h) f.place (data_of.Refused f.refusal)) }
        ensures in_order { IsInOrder self.now.terms mine.new }
        ensures keeps { Keeps mine.old mine.new }
        ensures global_handle { (refusal_in result ≡ Some refusals.GlobalHandle) ↔ (h ≡ targets.Global) }
        ensures never_made { (refusal_in result ≡ Some refusals.NeverMade) ↔ IsNeverMade (before mine.new) h }
    {
        match self.enter(rt, mine, Op::Pins { h }) {
            (place, Reply::Pins(count)) => Ok((place, count)),
            (place, Reply::Refused(refusal)) => Err(Fault { place, refusal }),
            _ => unreachable!(),
        }
    }

    /// Ends the thread, which holds nothing: it selects nothing any more, and its objects stay. Gives
    /// its seat for `close`.
    pub fn end<R: Wait>(&self, rt: &R, mine: Mine<P>) -> (u64, Seat<Locales<P>>)
        requires thread { IsThreadOf self.now mine }
        requires quota { length mine.calls < self.now.terms.quota }
        requires no_hold { (h : Handle) → holds mine h ≡ false }
        ensures made { Answered self.now mine (thread_of mine.cached result.1) data_of.End result.0 data_of.Ended }
        ensures in_order { IsInOrder self.now.terms (thread_of mine.cached result.1) }
        ensures seat { IsSeatOf self.now result.1 × (result.1.number ≡ mine.number) }
    {
        let mut seat = mine.into_seat();
        let (place, _) = self.turns.turn(rt, &mut seat, Op::End);
        (place, seat)
    }

    /// The table, once all seats are back. It stands for the one history of all calls.
    pub fn close(self, seats: List<Seat<Locales<P>>>) -> Table<P>
        requires seats { All (IsSeatOf self) seats }
        requires numbers { (n : ℕ) → n < self.terms.seats → SomeCaller n seats }
        ensures { (H : data_of.History) × StandsFor result H × (result.setting ≡ self.terms.setting) × All (IsPart H) seats }
    {
        let Locales { table } = self.turns.close(seats);
        table
    }

    /// Afterwards each of the two threads has seen what either had seen.
    pub fn meet(&self, a: &mut Mine<P>, b: &mut Mine<P>)
        requires a { IsThreadOf self.now a.old }
        requires b { IsThreadOf self.now b.old }
        ensures saw_a { SawMore a.old a.new × GoesOnFrom a.new.seen b.old.seen }
        ensures saw_b { SawMore b.old b.new × GoesOnFrom b.new.seen a.old.seen }
        ensures keeps_a { Keeps a.old a.new }
        ensures keeps_b { Keeps b.old b.new }
        ensures in_order_a { IsInOrder self.now.terms a.new }
        ensures in_order_b { IsInOrder self.now.terms b.new }
    {
        self.turns.meet(&mut a.seat, &mut b.seat);
    }

    /// Afterwards a thread and the seat that `end` gave of one that has ended have each seen what either had
    /// seen.
    pub fn meet_ended(&self, ended: &mut Seat<Locales<P>>, mine: &mut Mine<P>)
        requires ended { IsSeatOf self.now ended.old }
        requires thread { IsThreadOf self.now mine.old }
        ensures saw_ended { SawMore (thread_of 0 ended.old) (thread_of 0 ended.new) × GoesOnFrom (entries_of ended.new.seen) mine.old.seen }
        ensures saw { SawMore mine.old mine.new × GoesOnFrom mine.new.seen (entries_of ended.old.seen) }
        ensures keeps { Keeps mine.old mine.new }
        ensures in_order_ended { IsInOrder self.now.terms (thread_of 0 ended.new) }
        ensures in_order { IsInOrder self.now.terms mine.new }
    {
        self.turns.meet(ended, &mut mine.seat);
    }

    /// Looks until the history has so many entries, or more, and gives how many it has: the thread has then seen them. No
    /// turn is taken, and what is kept of the global locale stays.
    pub fn reach<R: Wait>(&self, rt: &R, mine: &mut Mine<P>, least: u64) -> u64
        requires { IsThreadOf self.now mine.old }
        ensures saw { SawMore mine.old mine.new }
        ensures keeps { Keeps mine.old mine.new }
        ensures in_order { IsInOrder self.now.terms mine.new }
        ensures count { result ≡ length mine.new.seen }
        ensures least { least ≤ result }
    {
        self.turns.reach(rt, &mut mine.seat, least)
    }

    /// The global object that the thread read last, with its version. `None` exactly where the version
    /// is another by now. It is one load of a word.
    pub fn cached(&self, mine: &mut Mine<P>) -> Option<(u32, Object<P>)>
        requires { IsThreadOf self.now mine.old }
        ensures saw { SawMore mine.old mine.new }
        ensures keeps { Keeps mine.old mine.new }
        ensures in_order { IsInOrder self.now.terms mine.new }
        ensures read { IfSome result (λ r. (r.0 ≡ sets mine.new.seen) × (r.1 ≡ global_at self.now.terms.setting mine.new.seen r.0)) }
        ensures none { IsNone result ↔ (sets mine.new.seen ≢ mine.old.cached) }
    {
        let version = self.turns.look(&mut mine.seat);
        if version == mine.version {
            Some((version, mine.object.share()))
        } else {
            None
        }
    }

    // The global object with its version, by a turn. The object that the thread read last stays.
    fn ask<R: Wait>(&self, rt: &R, mine: &mut Mine<P>) -> (u32, Object<P>)
        requires { IsThreadOf self.now mine.old }
        ensures saw { SawMore mine.old mine.new }
        ensures keeps { Keeps mine.old mine.new }
        ensures in_order { IsInOrder self.now.terms mine.new }
        ensures version { result.0 ≡ sets mine.new.seen }
        ensures object { result.1 ≡ global_at self.now.terms.setting mine.new.seen result.0 }
    {
        self.turns.peek(rt, &mut mine.seat, &Ask::Global)
    }

    /// The global object with its version, whatever the thread has selected.
    pub fn global_now<R: Wait>(&self, rt: &R, mine: &mut Mine<P>) -> (u32, Object<P>)
        requires { IsThreadOf self.now mine.old }
        ensures saw { SawMore mine.old mine.new }
        ensures selection { KeepsSelection mine.old mine.new }
        ensures holds { KeepsHolds mine.old mine.new }
        ensures in_order { IsInOrder self.now.terms mine.new }
        ensures version { result.0 ≡ sets mine.new.seen }
        ensures newer { sets mine.old.seen ≤ result.0 }
        ensures object { result.1 ≡ global_at self.now.terms.setting mine.new.seen result.0 }
        ensures cached { mine.new.cached ≡ result.0 }
    {
        if let Some(read) = self.cached(mine) {
            return read;
        }
        let (version, object) = self.ask(rt, mine);
        mine.read(version, object.share());
        (version, object)
    }

    /// The thread's current locale: its own object, or the global one with its version. Takes the
    /// turn only where the thread has the global locale selected, and its version is not the cached
    /// one.
    pub fn current<R: Wait>(&self, rt: &R, mine: &mut Mine<P>) -> (Option<u32>, Object<P>)
        requires { IsThreadOf self.now mine.old }
        ensures saw { SawMore mine.old mine.new }
        ensures selection { KeepsSelection mine.old mine.new }
        ensures holds { KeepsHolds mine.old mine.new }
        ensures in_order { IsInOrder self.now.terms mine.new }
        ensures own { IsNone result.0 → own_object mine.old ≡ Some result.1 }
        ensures no_version { IsNone result.0 ↔ (selected mine.old ≢ targets.Global) }
        ensures version { IfSome result.0 (λ v. v ≡ sets mine.new.seen) }
        ensures newer { IfSome result.0 (λ v. sets mine.old.seen ≤ v) }
        ensures object { IfSome result.0 (λ v. result.1 ≡ global_at self.now.terms.setting mine.new.seen v) }
        ensures cached { MatchOption result.0 (mine.new.cached ≡ mine.old.cached) (λ v. mine.new.cached ≡ v) }
    {
        if let Some(own) = &mine.own {
            return (None, own.share());
        }
        let (version, object) = self.global_now(rt, mine);
        (Some(version), object)
    }
}
