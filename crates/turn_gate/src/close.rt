//! The last state: all seats joined into one, and the machine taken out of its slot.
ghost use Rattle.std.specs.Prelude.{◌≡◌, ◌+◌, ◌<◌, [], ◌∷◌, ◌++◌, false, Some, All, length};
ghost use Rattle.turn_gate.specs.Rule.{terms_of, HasNumber};
ghost use Rattle.turn_gate.specs.Callers.{IsSeatOf};
ghost use Rattle.turn_gate.specs.Ends.{Gathering, IsGathered, Closes};

use crate::machine::Machine;
use crate::open::Room;
use crate::rule::{Both, Look};
use crate::seat::Seat;
use crate::steps::{Board, Place};
use lc_base::List;

/// Takes another seat in: its number with its calls, and what it has seen.
fn gather<M: Machine>(board: &Board<M>, place: &mut Place<M>, seat: Seat<M>)
    requires board { board.now.table_id.words ≡ 2 }
    requires seat { IsSeatOf (record { table = board.now.table_id; terms = terms_of M.setting board.now.key }) seat }
    requires place { Gathering board.now.table_id (terms_of M.setting board.now.key) place.old }
    ensures place { Gathering board.now.table_id (terms_of M.setting board.now.key) place.new }
    ensures gathered { IsGathered place.new.me.0 seat }
    ensures kept { (c : _) → IsGathered place.old.me.0 c → IsGathered place.new.me.0 c }
{
    board.join_seat::<Both>(place, seat.into_place());
    board.load::<Look>(place, 0);
}

/// All seats as one, with all their numbers and calls.
pub(crate) fn gather_all<M: Machine>(board: &Board<M>, seats: List<Seat<M>>) -> Place<M>
    requires board { board.now.table_id.words ≡ 2 }
    requires some { 0 < length seats }
    requires seats { All (IsSeatOf (record { table = board.now.table_id; terms = terms_of M.setting board.now.key })) seats }
    ensures place { Gathering board.now.table_id (terms_of M.setting board.now.key) result }
    ensures gathered { All (IsGathered result.me.0) seats }
{
    let mut rest = seats.into_vec();
    let Some(first) = rest.pop() else {
        unreachable!()
    };
    let mut place = first.into_place();
    while let Some(seat) = rest.pop() {
        gather(board, &mut place, seat);
    }
    place
}

/// The machine, once no other seat is left.
pub(crate) fn take_out<M: Machine>(room: Room<M>, place: Place<M>) -> M
    requires sizes { (room.shared.table_id.words ≡ 2) × (room.shared.table_id.slots ≡ 1) }
    requires place { Gathering room.shared.table_id (terms_of M.setting room.shared.key) place }
    requires numbers { (n : _) → n < room.shared.key.seats → HasNumber n place.me.0.tickets }
    ensures { Closes M.stands M.legal M.setting (terms_of M.setting room.shared.key) place.me.0 result }
{
    let mut closed = room.close_with(place);
    let machine = closed.take(0).unwrap();
    closed.free();
    machine
}
