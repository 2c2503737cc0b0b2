//! The fields of times.

use jiff::Zoned;
use jiff::civil::DateTime;
use lc_base::ByteText;
use reason_rules::rule_of;
use std::alloc::{AllocError, Global};
use time_cat::{Tm, TmField, TmRange};
use tool_messages::{Problem, push_word};

/// The fields of a time of a calendar and a clock, which a word gives. The days of the week and of the year
/// are computed.
pub fn civil_tm(
    alloc: Global,
    time: DateTime,
    offset: Option<i32>,
    zone: &str,
    word: &[u8],
) -> Result<Tm, Problem> {
    let zone = ByteText::of(alloc, zone.as_bytes())?;
    let tm = Tm::new(
        i32::from(time.year()),
        i32::from(time.month()),
        i32::from(time.day()),
        i32::from(time.hour()),
        i32::from(time.minute()),
        i32::from(time.second()),
        i32::from(time.weekday().to_sunday_zero_offset()),
        i32::from(time.day_of_year()) - 1,
        offset,
        zone,
    );
    match tm {
        Ok(tm) => Ok(tm),
        Err(range) => Err(range_problem(alloc, word, range)),
    }
}

/// The fields of a time in its zone, which a word gives.
pub fn zoned_tm(alloc: Global, time: &Zoned<'_>, word: &[u8]) -> Result<Tm, Problem> {
    let info = time.time_zone().to_offset_info(time.timestamp());
    let minutes = time.offset().seconds() / 60;
    civil_tm(
        alloc,
        time.datetime(),
        Some(minutes),
        info.abbreviation(),
        word,
    )
}

/// The problem of a word of which a field is out of its range.
fn range_problem(alloc: Global, word: &[u8], range: TmRange) -> Problem {
    match range_message(alloc, word, range.field) {
        Ok(message) => Problem::Usage(message),
        Err(_) => Problem::Memory,
    }
}

fn range_message(alloc: Global, word: &[u8], field: TmField) -> Result<ByteText, AllocError> {
    let reason: &[u8] = match field {
        TmField::Year => b": TmRange year: ",
        TmField::Offset => b": TmRange offset: ",
        _ => b": TmRange: ",
    };
    let mut message = Vec::new(alloc);
    message.extend_from_slice(b"locale_tool: ")?;
    push_word(&mut message, word)?;
    message.extend_from_slice(reason)?;
    message.extend_from_slice(rule_of("TmRange").as_bytes())?;
    message.extend_from_slice(b"\n")?;
    Ok(ByteText::from_vec(message))
}
