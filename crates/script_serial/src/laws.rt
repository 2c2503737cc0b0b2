//! Laws of what scripts print. Each function takes nothing, and its contract is the law.

ghost use Rattle.script_serial.specs.Laws.{CatalogsIsolation, HeldWhereHolding, Isolation, OnlySerial};

/// Lines that a script prints one after another are those of `serial`.
pub fn only_serial()
    ensures only_serial { OnlySerial }
{}

/// After a legal history a thread has an open hold of a handle just where it holds the handle.
pub fn held_where_holding()
    ensures held_where_holding { HeldWhereHolding }
{}

/// In lines that a script may print, in whatever order its threads called, threads that share
/// handles with nobody read what they would read without the others.
pub fn isolation()
    ensures isolation { Isolation }
{}

/// Threads that share catalog handles with nobody are answered what they would be answered without
/// the others.
pub fn catalogs_isolation()
    ensures catalogs_isolation { CatalogsIsolation }
{}
