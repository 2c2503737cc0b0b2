//! Times as they are written.

use crate::calendar::wrong_date;
use crate::clock::{NOW, now_tm};
use crate::fields::{civil_tm, zoned_tm};
use jiff::Zoned;
use jiff::civil::DateTime;
use jiff::tz::TimeZoneDatabase;
use lc_base::ByteText;
use std::alloc::{AllocError, Global};
use std::rt::{Env, Files};
use std::time::Clock;
use time_cat::Tm;
use tool_messages::{Problem, push_word};

/// What a time is.
const WANTED: &[u8] =
    b": a time is `now`, or as `2024-06-19`, `2024-06-19T17:30:00`, `2024-06-19T17:30:00-04:00` or `2024-06-19T17:30:00-04:00[America/New_York]`\n";

/// What is wrong with an offset beside a zone.
const OTHER_OFFSET: &[u8] = b": the offset is not that of the zone at that time\n";

/// What is wrong with a zone.
const NO_ZONE: &[u8] = b": the system knows no such time zone\n";

/// The fields of a time: of `now`, of a text as RFC 9557 has it, or of one without an offset. The messages
/// are told where the zone of `now` is not known.
pub fn tm_of<R: Files + Env + Clock + AllocGlobal + Clone + Drop>(
    rt: &R,
    when: &str,
    messages: &mut Vec<u8>,
) -> Result<Tm, Problem> {
    if when.as_bytes() == NOW {
        return now_tm(rt, messages);
    }
    let (written, suffixes) = parts_of(when.as_bytes());
    if begins_with_zone(suffixes) {
        return named_zone_tm(rt, when);
    }
    written_tm(rt.alloc(), when, written, suffixes)
}

/// A time up to its suffixes, and its suffixes, which stand in brackets.
fn parts_of(when: &[u8]) -> (&[u8], &[u8]) {
    match when.iter().position(|byte| *byte == b'[') {
        Some(at) => when.split_at(at),
        None => (when, &[]),
    }
}

/// Whether suffixes begin with a zone: any other one has a `=` between its key and its value.
fn begins_with_zone(suffixes: &[u8]) -> bool {
    for byte in suffixes {
        if *byte == b'=' {
            return false;
        }
        if *byte == b']' {
            return true;
        }
    }
    false
}

/// A time with a zone in brackets.
fn named_zone_tm<R: Files + Env + AllocGlobal + Clone + Drop>(
    rt: &R,
    when: &str,
) -> Result<Tm, Problem> {
    match TimeZoneDatabase::from_env(rt) {
        Ok(database) => zoned_text_tm(rt.alloc(), &database, when, when),
        Err(_) => zoned_text_tm(rt.alloc(), &TimeZoneDatabase::new(rt.alloc()), when, when),
    }
}

/// The fields of a text with a zone, which stands for a word of the command line.
fn zoned_text_tm(
    alloc: Global,
    database: &TimeZoneDatabase,
    text: &str,
    word: &str,
) -> Result<Tm, Problem> {
    match Zoned::parse(database, text) {
        Ok(time) => zoned_tm(alloc, &time, word.as_bytes()),
        Err(fault) => Err(zone_problem(alloc, word.as_bytes(), fault)),
    }
}

/// The problem of a word that is no time in a zone.
fn zone_problem(alloc: Global, word: &[u8], fault: jiff::Error) -> Problem {
    match fault {
        jiff::Error::OffsetConflict => word_problem(alloc, word, OTHER_OFFSET),
        jiff::Error::TimeZoneNotFound => word_problem(alloc, word, NO_ZONE),
        jiff::Error::OutOfMemory => Problem::Memory,
        _ => when_problem(alloc, word),
    }
}

/// A time without a zone in brackets, with an offset or without one.
fn written_tm(alloc: Global, when: &str, written: &[u8], suffixes: &[u8]) -> Result<Tm, Problem> {
    match offset_of(written) {
        Some(offset) => {
            let text = with_zone(alloc, written, offset, suffixes)?;
            offset_tm(alloc, when, text.as_slice())
        }
        None => match when.parse::<DateTime>() {
            Ok(time) => civil_tm(alloc, time, None, "", when.as_bytes()),
            Err(_) => Err(when_problem(alloc, when.as_bytes())),
        },
    }
}

/// A time of which the offset is the zone.
fn offset_tm(alloc: Global, when: &str, text: &[u8]) -> Result<Tm, Problem> {
    match str::from_utf8(text) {
        Ok(text) => zoned_text_tm(alloc, &TimeZoneDatabase::new(alloc), text, when),
        Err(_) => Err(when_problem(alloc, when.as_bytes())),
    }
}

/// A time with its offset as a zone in brackets, in front of its suffixes.
fn with_zone(
    alloc: Global,
    written: &[u8],
    offset: &[u8],
    suffixes: &[u8],
) -> Result<Vec<u8>, AllocError> {
    let mut text = Vec::new(alloc);
    text.extend_from_slice(written)?;
    text.push(b'[')?;
    text.extend_from_slice(offset)?;
    text.push(b']')?;
    text.extend_from_slice(suffixes)?;
    Ok(text)
}

/// The offset that a time ends with; `UTC` for a `Z`.
fn offset_of(when: &[u8]) -> Option<&[u8]> {
    match when {
        [.., b'Z' | b'z'] => Some(b"UTC"),
        _ => sign_on(when),
    }
}

/// The offset of a date and a clock: `+04`, `+0400`, `+04:00` or `+04:00:00`.
fn sign_on(when: &[u8]) -> Option<&[u8]> {
    if !has_clock(when) {
        return None;
    }
    let clock = last_part(when);
    tail_of(clock, 9)
        .or(tail_of(clock, 6))
        .or(tail_of(clock, 5))
        .or(tail_of(clock, 3))
}

/// What stands behind the last byte between a date and a clock.
fn last_part(when: &[u8]) -> &[u8] {
    let mut last = when;
    for part in when.split(|byte| is_separator(*byte)) {
        last = part;
    }
    last
}

fn has_clock(when: &[u8]) -> bool {
    for byte in when {
        if is_separator(*byte) {
            return true;
        }
    }
    false
}

/// The last bytes, so many of them, if a sign begins them.
fn tail_of(when: &[u8], size: usize) -> Option<&[u8]> {
    let at = when.len().checked_sub(size)?;
    let tail = &when[at..];
    match tail {
        [sign, ..] if is_sign(*sign) => Some(tail),
        _ => None,
    }
}

/// Whether a byte stands between a date and a clock.
fn is_separator(byte: u8) -> bool {
    byte == b'T' || byte == b't' || byte == b' '
}

fn is_sign(byte: u8) -> bool {
    byte == b'+' || byte == b'-'
}

/// The problem of a word that is no time, or has a date that no calendar has.
pub fn when_problem(alloc: Global, word: &[u8]) -> Problem {
    word_problem(alloc, word, wrong_date(word).unwrap_or(WANTED))
}

/// The problem of a word, with what is wrong.
fn word_problem(alloc: Global, word: &[u8], wrong: &[u8]) -> Problem {
    match word_message(alloc, word, wrong) {
        Ok(message) => Problem::Usage(message),
        Err(_) => Problem::Memory,
    }
}

fn word_message(alloc: Global, word: &[u8], wrong: &[u8]) -> Result<ByteText, AllocError> {
    let mut message = Vec::new(alloc);
    message.extend_from_slice(b"locale_tool: ")?;
    push_word(&mut message, word)?;
    message.extend_from_slice(wrong)?;
    Ok(ByteText::from_vec(message))
}
