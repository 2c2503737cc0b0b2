//! The time of the system's clock.

use crate::fields::zoned_tm;
use crate::when::when_problem;
use jiff::Timestamp;
use jiff::tz::{SystemTimeZone, TimeZone, TimeZoneDatabase};
use std::alloc::{AllocError, Global};
use std::env::{self, VarError};
use std::rt::{Env, Files};
use std::time::Clock;
use time_cat::Tm;
use tool_messages::{Problem, push_word};

/// The word for the time of the clock.
pub const NOW: &[u8] = b"now";

/// The time of the clock in the system's zone, or in UTC where that is not known; where the variable `TZ`
/// names it, the messages say so.
pub fn now_tm<R: Files + Env + Clock + AllocGlobal + Clone + Drop>(
    rt: &R,
    messages: &mut Vec<u8>,
) -> Result<Tm, Problem> {
    match Timestamp::now(rt) {
        Ok(now) => zoned_now(rt, now, messages),
        Err(_) => Err(when_problem(rt.alloc(), NOW)),
    }
}

fn zoned_now<R: Files + Env + AllocGlobal + Clone + Drop>(
    rt: &R,
    now: Timestamp,
    messages: &mut Vec<u8>,
) -> Result<Tm, Problem> {
    match (TimeZoneDatabase::from_env(rt), SystemTimeZone::read(rt)) {
        (Ok(database), Ok(system)) => in_zone(rt, now, &database, &system, messages),
        (Err(_), _) | (_, Err(jiff::Error::OutOfMemory)) => Err(Problem::Memory),
        (Ok(_), Err(_)) => in_utc(rt, now, messages),
    }
}

fn in_zone<R: Env + AllocGlobal>(
    rt: &R,
    now: Timestamp,
    database: &TimeZoneDatabase,
    system: &SystemTimeZone,
    messages: &mut Vec<u8>,
) -> Result<Tm, Problem> {
    match system.time_zone(database) {
        Ok(zone) => zoned_tm(rt.alloc(), &now.to_zoned(zone), NOW),
        Err(_) => in_utc(rt, now, messages),
    }
}

/// The time in UTC in place of a zone that is not known, with a warning where `TZ` names that zone.
fn in_utc<R: Env + AllocGlobal>(
    rt: &R,
    now: Timestamp,
    messages: &mut Vec<u8>,
) -> Result<Tm, Problem> {
    match env::var(rt, "TZ") {
        Ok(zone) => push_warning(messages, zone.as_str().as_bytes())?,
        Err(VarError::NotUnicode) => push_warning(messages, b"TZ")?,
        Err(VarError::NotPresent) => {}
        Err(VarError::OutOfMemory) => return Err(Problem::Memory),
    }
    zoned_tm(rt.alloc(), &now.to_zoned(TimeZone::UTC), NOW)
}

/// Adds that a zone is not known.
fn push_warning(out: &mut Vec<u8>, zone: &[u8]) -> Result<(), AllocError> {
    out.extend_from_slice(b"locale_tool: warning: ")?;
    push_word(out, zone)?;
    out.extend_from_slice(
        b": the system knows no such time zone, which the variable TZ names; the time is in UTC\n",
    )
}
