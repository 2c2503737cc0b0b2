//! The first state: the machine in its slot, and the seats with their numbers.
ghost use Rattle.std.specs.Prelude.{◌≡◌, ◌+◌, ◌*◌, ◌<◌, [], ◌∷◌, IfOk, Some};
ghost use Rattle.turn_gate.specs.Rule.{terms_of, newcomer};
ghost use Rattle.turn_gate.specs.Callers.{first_caller};

use crate::machine::Machine;
use crate::rule::{About, Law, Number, Off};
use crate::seat::Seat;
use crate::steps::{Board, Known, Place, clear_word};
use atomic_table::Table;
use std::alloc::{AllocError, Global};
use std::snapshot::Snapshot;
use std::sync::Wait;

pub(crate) type Room<M> = Table<Option<M>, Known<M>, About<M>, Law<M>, Global>;

/// The words and the slot with the machine, and a seat without a number.
pub(crate) fn lay<M: Machine>(
    alloc: Global,
    machine: M,
    seats: u32,
    quota: u32,
) -> Result<(Room<M>, Place<M>), AllocError>
    requires { M.stands machine [] }
    ensures key { IfOk result (λ r. terms_of M.setting r.0.shared.key ≡ record { setting = M.setting machine; seats = seats; quota = quota }) }
    ensures sizes { IfOk result (λ r. (r.0.shared.table_id.words ≡ 2) × (r.0.shared.table_id.slots ≡ 1)) }
    ensures seat { IfOk result (λ r. (r.1.table_id ≡ r.0.shared.table_id) × (r.1.me ≡ (newcomer (terms_of M.setting r.0.shared.key), []))) }
    ensures legal { M.legal (M.setting machine) [] }
    ensures room { M.room (M.setting machine) < 2147483648 }
{
    let about = About {
        machine: Snapshot::of(&machine),
        seats,
        quota,
    };
    let first = clear_word(0, machine.version());
    let mut slots = Vec::with_capacity(alloc, 1)?;
    slots.push_reserved(Some(machine));
    match Table::new(alloc, &[first, 0], slots, &about) {
        Ok(made) => Ok(made),
        Err(_) => Err(AllocError),
    }
}

/// A seat with this number.
pub(crate) fn seat<M: Machine, R: Wait>(
    rt: &R,
    board: &Board<M>,
    first: &mut Place<M>,
    number: u32,
) -> Seat<M>
    requires table { (first.old.table_id ≡ board.now.table_id) × (board.now.table_id.words ≡ 2) }
    requires first { first.old.me ≡ (newcomer (terms_of M.setting board.now.key), []) }
    requires number { number < board.now.key.seats }
    requires legal { M.legal (M.setting board.now.key.machine.value) [] }
    ensures first { (first.new.table_id ≡ first.old.table_id) × (first.new.me ≡ first.old.me) }
    ensures seat { result ≡ first_caller (record { table = board.now.table_id; terms = terms_of M.setting board.now.key }) number }
{
    let mut place = board.split_seat::<Off>(first);
    for _ in rt.forever() {
        let old = u64::from(number);
        if board.compare_exchange::<Number>(&mut place, 1, old, old + 1) == old {
            return Seat { place, number };
        }
    }
    unreachable!()
}
