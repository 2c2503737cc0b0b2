//! Seats: who calls.

ghost use Rattle.std.specs.Prelude.{◌≡◌};

use crate::machine::Machine;
use crate::steps::Place;
use std::marker::Model;

/// A caller at a machine: its number, the history that it has seen, and its own calls in it.
///
/// It can go to another thread. One that is dropped makes no more calls.
pub struct Seat<M: Machine> {
    pub(crate) place: Place<M>,
    pub(crate) number: u32,
}

impl<M: Machine> Drop for Seat<M> {
    fn drop(self) {
        let Seat {
            place: _,
            number: _,
        } = self;
    }
}

impl<M: Machine> Model for Seat<M> {
    ghost use Rattle.turn_gate.specs.Callers.{Caller, caller_of, Seated};

    ghost Value = { Caller M.Setting M.Op M.Reply };

    ghost view = { λ s. caller_of s.place.table_id s.number s.place.me.0 };

    ghost invariant = { λ s. Seated M.legal s.number s.place.me };
}

impl<M: Machine> Seat<M> {
    ghost use Rattle.turn_gate.specs.Callers.{caller_of, Seated};

    // The seat at the table of words, with all that it knows.
    pub(crate) fn into_place(self) -> Place<M>
        ensures caller { caller_of result.table_id self.number result.me.0 ≡ self }
        ensures seated { Seated M.legal self.number result.me }
    {
        let Seat { place, number: _ } = self;
        place
    }
}
