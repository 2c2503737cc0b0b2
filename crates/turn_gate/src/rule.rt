//! The rule of the turn, and what each step on the words tells the seat that makes it.

use crate::entry::{Entry, Terms, Ticket};
use crate::machine::Machine;
use atomic_table::{Join, Play, Split, TableRule};
use std::collections::LinkedList;
use std::marker::{Brand, PhantomData};
use std::snapshot::Snapshot;

/// What a seat knows. No value of it is made.
pub struct View<S, O, R> {
    pub terms: Option<Terms<S>>,
    pub tickets: LinkedList<Ticket<O, R>>,
    pub seen: LinkedList<Entry<O, R>>,
    pub told: LinkedList<Entry<O, R>>,
    pub turn: bool,
}

/// What the rule is told when the turns are made.
#[derive(Drop)]
pub struct About<M> {
    pub machine: Snapshot<M>,
    pub seats: u32,
    pub quota: u32,
}

pub struct Law<M> {
    machine: PhantomData<M>,
}

impl<M: Machine> TableRule<Option<M>, View<M::Setting, M::Op, M::Reply>, About<M>> for Law<M> {
    ghost use Rattle.turn_gate.specs.Rule.{terms_of, Ruled, newcomer};

    ghost holds = { λ about. Ruled M.stands M.legal M.setting M.version_of (terms_of M.setting about) };

    ghost first = { λ about. newcomer (terms_of M.setting about) };
}

/// What a release adds to the history, for the proof alone. A call at `Brand` picks it.
pub(crate) trait Made<O, R> {
    ghost use Rattle.turn_gate.specs.History.{History};

    ghost made: { History O R };
}

impl<O, R> Made<O, R> for Brand {
    ghost use Rattle.std.specs.Prelude.{[]};

    ghost made = { [] };
}

/// A release without an entry.
pub(crate) struct Nothing;

impl<O, R> Made<O, R> for Nothing {
    ghost use Rattle.std.specs.Prelude.{[]};

    ghost made = { [] };
}

/// A load of the first word.
pub(crate) struct Look;

impl<M: Machine> Play<Option<M>, View<M::Setting, M::Op, M::Reply>> for Look {
    ghost use Rattle.turn_gate.specs.Rule.{looked};

    ghost then = { looked M.legal M.version_of };
}

/// The exchange that sets the taken bit.
pub(crate) struct Take;

impl<M: Machine> Play<Option<M>, View<M::Setting, M::Op, M::Reply>> for Take {
    ghost use Rattle.turn_gate.specs.Rule.{took};

    ghost then = { took M.legal M.version_of M.stands M.setting };
}

/// The swap that clears the taken bit.
pub(crate) struct Release<W> {
    made: PhantomData<W>,
}

impl<M: Machine, W: Made<M::Op, M::Reply>> Play<Option<M>, View<M::Setting, M::Op, M::Reply>>
    for Release<W> {
    ghost use Rattle.turn_gate.specs.Rule.{released};

    ghost then = { released W.made };
}

/// The exchange on the second word that gives a number.
pub(crate) struct Number;

impl<S, T, O, R> Play<Option<S>, View<T, O, R>> for Number {
    ghost use Rattle.turn_gate.specs.Rule.{numbered};

    ghost then = { numbered };
}

/// A seat that has seen as much, without a number.
pub(crate) struct Off;

impl<S, O, R> Split<View<S, O, R>> for Off {
    ghost use Rattle.turn_gate.specs.Rule.{split_off};

    ghost left = { λ v. v };

    ghost right = { split_off };
}

/// A seat with another's numbers, which was told what the other has seen.
pub(crate) struct Both;

impl<S, O, R> Join<View<S, O, R>> for Both {
    ghost use Rattle.turn_gate.specs.Rule.{joined, spent};

    ghost both = { joined };

    ghost spent = { spent };
}
