//! Plain data of histories.

use std::collections::LinkedList;

/// One call: who made it, what was asked for and what was replied. No value of it is made.
pub struct Entry<O, R> {
    pub who: u32,
    pub op: O,
    pub reply: R,
}

/// What was agreed when the turns were made: the machine's setting, how many seats there are, and
/// how many calls each may make. No value of it is made.
pub struct Terms<S> {
    pub setting: S,
    pub seats: u32,
    pub quota: u32,
}

/// A number that was given to a seat, with the calls that were made with it. No value of it is
/// made.
pub struct Ticket<O, R> {
    pub number: u32,
    pub calls: LinkedList<Entry<O, R>>,
}
