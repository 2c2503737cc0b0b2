//! Turns at a machine.
ghost use Rattle.std.specs.Prelude.{◌≡◌, ℕ, ◌+◌, ◌<◌, ◌∷◌, length};
ghost use Rattle.turn_gate.specs.History.{Extends, entry};
ghost use Rattle.std.specs.Prelude.{◌*◌, ◌≤◌, [], All, IfOk, map};
ghost use Rattle.std.specs.List.{range_with_len};
ghost use Rattle.turn_gate.specs.Callers.{IsSeatOf, IsSameCaller, InOrder, first_caller};
ghost use Rattle.turn_gate.specs.Ends.{IsPartOf, OneHistory, SomeCaller};

use crate::close::{gather_all, take_out};
use crate::machine::Machine;
use crate::open::{Room, lay, seat};
use crate::rule::Nothing;
use crate::seat::Seat;
use crate::steps::{clear_word, count_in, enter, look, reach, release, take, tell, version_in};
use lc_base::List;
use std::alloc::{AllocError, Global};
use std::marker::{Brand, Model};
use std::snapshot::Snapshot;
use std::sync::Wait;
use std::sync::atomic::AtomicU64;

/// A machine that threads take turns at.
#[derive(Drop)]
pub struct Turns<M: Machine> {
    table: Room<M>,
    sleepers: AtomicU64,
}

impl<M: Machine> Model for Turns<M> {
    ghost use Rattle.turn_gate.specs.Callers.{Gate};
    ghost use Rattle.turn_gate.specs.Ends.{IsOpen};
    ghost use Rattle.turn_gate.specs.Rule.{terms_of};

    ghost Value = { Gate M.Setting };

    ghost view = { λ t. record { table = t.table.shared.table_id; terms = terms_of M.setting t.table.shared.key } };

    ghost invariant = { λ t. IsOpen M.room M.setting t.table.shared.table_id t.table.shared.key };
}

impl<M: Machine> Turns<M> {
    /// Turns at this machine, and the seats that may take them, each for at most `quota` calls. Seat i is caller i.
    pub fn new<R: Wait>(
        rt: &R,
        alloc: Global,
        machine: M,
        seats: u32,
        quota: u32,
    ) -> Result<(Turns<M>, List<Seat<M>>), AllocError>
        requires some_seat { 1 ≤ seats }
        requires seats { seats ≤ 16 }
        requires quota { 1 ≤ quota }
        requires room { seats * quota ≤ M.room (M.setting machine) }
        requires machine { M.stands machine [] }
        ensures terms { IfOk result (λ t. t.0.terms ≡ record { setting = M.setting machine; seats = seats; quota = quota }) }
        ensures seats { IfOk result (λ t. t.1 ≡ map (first_caller t.0) (range_with_len 0 seats)) }
    {
        let mut all = Vec::with_capacity(alloc, seats as usize)?;
        let (table, mut first) = lay(alloc, machine, seats, quota)?;
        for number in 0..seats {
            all.push_reserved(seat(rt, &table.shared, &mut first, number));
        }
        let turns = Turns {
            table,
            sleepers: AtomicU64::new(0),
        };
        Ok((turns, List::of(all)))
    }

    /// The version of a history that is not shorter than the one that the seat has seen. It is one load of a word.
    pub fn look(&self, seat: &mut Seat<M>) -> u32
        requires { IsSeatOf self.now seat.old }
        ensures same { IsSameCaller seat.old seat.new × (seat.new.own ≡ seat.old.own) }
        ensures later { Extends seat.new.seen seat.old.seen }
        ensures version { result ≡ M.version_of seat.new.seen }
        ensures in_order { InOrder M.legal self.now.terms seat.new.number seat.new.seen seat.new.own }
    {
        let board = &self.table.shared;
        version_in(look(board, &mut seat.place))
    }

    /// Looks until the history has so many entries, or more, and gives how many it has. Each look is one load of a word:
    /// no turn is taken.
    pub fn reach<R: Wait>(&self, rt: &R, seat: &mut Seat<M>, least: u64) -> u64
        requires { IsSeatOf self.now seat.old }
        ensures same { IsSameCaller seat.old seat.new × (seat.new.own ≡ seat.old.own) }
        ensures later { Extends seat.new.seen seat.old.seen }
        ensures count { result ≡ length seat.new.seen }
        ensures least { least ≤ result }
        ensures in_order { InOrder M.legal self.now.terms seat.new.number seat.new.seen seat.new.own }
    {
        let board = &self.table.shared;
        count_in(reach(rt, board, &mut seat.place, least))
    }

    /// Makes one step of the machine as the caller that the seat is, and gives the place of the one new entry and its reply.
    /// The place is the number of entries before it.
    pub fn turn<R: Wait>(&self, rt: &R, seat: &mut Seat<M>, op: M::Op) -> (u64, M::Reply)
        requires seat { IsSeatOf self.now seat.old }
        requires may { M.may self.now.terms.setting seat.old.number op }
        requires quota { length seat.old.own < self.now.terms.quota }
        ensures same { IsSameCaller seat.old seat.new }
        ensures entry { (before : _) × Extends before seat.old.seen × (seat.new.seen ≡ entry seat.old.number op result.1 ∷ before) × (result.0 ≡ length before) }
        ensures own { seat.new.own ≡ entry seat.old.number op result.1 ∷ seat.old.own }
        ensures in_order { InOrder M.legal self.now.terms seat.new.number seat.new.seen seat.new.own }
    {
        let board = &self.table.shared;
        let word = take(rt, board, &self.sleepers, &mut seat.place);
        let mut machine = board.exchange(&mut seat.place, 0, None).unwrap();
        let asked = Snapshot::of(&op);
        let reply = machine.step(seat.number, op);
        let next = clear_word(count_in(word) + 1, machine.version());
        board.exchange(&mut seat.place, 0, Some(machine));
        enter::<M, Brand>(
            board,
            &self.sleepers,
            &mut seat.place,
            next,
            seat.number,
            &asked,
            &reply,
        );
        (count_in(word), reply)
    }

    /// Asks the machine without an entry. Gives the version and the answer after a history that is not shorter than the one
    /// that the seat has seen.
    pub fn peek<R: Wait>(&self, rt: &R, seat: &mut Seat<M>, query: &M::Query) -> (u32, M::Found)
        requires { IsSeatOf self.now seat.old }
        ensures same { IsSameCaller seat.old seat.new × (seat.new.own ≡ seat.old.own) }
        ensures later { Extends seat.new.seen seat.old.seen }
        ensures version { result.0 ≡ M.version_of seat.new.seen }
        ensures found { result.1 ≡ M.answer self.now.terms.setting query.now seat.new.seen }
        ensures in_order { InOrder M.legal self.now.terms seat.new.number seat.new.seen seat.new.own }
    {
        let board = &self.table.shared;
        let word = take(rt, board, &self.sleepers, &mut seat.place);
        let machine = board.exchange(&mut seat.place, 0, None).unwrap();
        let found = machine.ask(query);
        board.exchange(&mut seat.place, 0, Some(machine));
        release::<M, Nothing>(board, &self.sleepers, &mut seat.place, word);
        (version_in(word), found)
    }

    /// Afterwards each of the two has seen what either had seen.
    pub fn meet(&self, a: &mut Seat<M>, b: &mut Seat<M>)
        requires a { IsSeatOf self.now a.old }
        requires b { IsSeatOf self.now b.old }
        ensures same_a { IsSameCaller a.old a.new × (a.new.own ≡ a.old.own) }
        ensures same_b { IsSameCaller b.old b.new × (b.new.own ≡ b.old.own) }
        ensures seen_a { Extends a.new.seen a.old.seen × Extends a.new.seen b.old.seen }
        ensures seen_b { Extends b.new.seen b.old.seen × Extends b.new.seen a.old.seen }
        ensures in_order_a { InOrder M.legal self.now.terms a.new.number a.new.seen a.new.own }
        ensures in_order_b { InOrder M.legal self.now.terms b.new.number b.new.seen b.new.own }
    {
        let board = &self.table.shared;
        tell(board, &mut a.place, &mut b.place);
        tell(board, &mut b.place, &mut a.place);
    }

    /// The machine, once all seats are back. It stands for one history.
    pub fn close(self, seats: List<Seat<M>>) -> M
        requires seats { All (IsSeatOf self) seats }
        requires numbers { (n : ℕ) → n < self.terms.seats → SomeCaller n seats }
        ensures { (H : _) × OneHistory M.stands M.legal M.setting self.terms result H × All (IsPartOf H) seats }
    {
        let Turns { table, sleepers: _ } = self;
        let place = gather_all(&table.shared, seats);
        take_out(table, place)
    }
}
