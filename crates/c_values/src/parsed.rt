//! The fields of a time that was read, as C has them.

ghost use Rattle.std.specs.Prelude.{◌≡◌};
ghost use Rattle.strptime_fields.specs.Scans.{answer_of};
ghost use Rattle.c_values.specs.Answers.{or_none, year_or_none, fields_of, scan_told};

use crate::answer::{LobjAnswer, OK, answered, refusal_told};
use strptime_fields::{Parsed, ScanFault};

/// The fields of a time that a text has; -1 where it does not tell one. C has `lobj_parsed` for it.
#[repr(C)]
#[derive(Clone, Copy)]
pub struct LobjParsed {
    pub year: i32,
    pub mon: i32,
    pub mday: i32,
    pub hour: i32,
    pub min: i32,
    pub sec: i32,
    pub wday: i32,
    pub yday: i32,
}

/// A field of a byte, or -1.
fn byte_or_none(field: Option<u8>) -> i32
    ensures { result ≡ or_none field }
{
    match field {
        Some(n) => i32::from(n),
        None => -1,
    }
}

/// A field of two bytes, or -1.
fn day_or_none(field: Option<u16>) -> i32
    ensures { result ≡ or_none field }
{
    match field {
        Some(n) => i32::from(n),
        None => -1,
    }
}

/// The year, or -1.
fn year_or_none(year: Option<i32>) -> i32
    ensures { result ≡ year_or_none year }
{
    match year {
        Some(year) => year,
        None => -1,
    }
}

/// The fields of a time that was read.
fn fields_of(parsed: Parsed) -> LobjParsed
    ensures { result ≡ fields_of parsed }
{
    LobjParsed {
        year: year_or_none(parsed.year),
        mon: byte_or_none(parsed.mon),
        mday: byte_or_none(parsed.mday),
        hour: byte_or_none(parsed.hour),
        min: byte_or_none(parsed.min),
        sec: byte_or_none(parsed.sec),
        wday: byte_or_none(parsed.wday),
        yday: day_or_none(parsed.yday),
    }
}

/// Writes the fields that a text has, where it has them.
pub fn put_fields(out: &mut LobjParsed, scanned: Result<(Parsed, usize), ScanFault>) -> LobjAnswer
    ensures { (result, out.new) ≡ scan_told out.old (answer_of scanned) }
{
    match scanned {
        Ok((parsed, rest)) => {
            *out = fields_of(parsed);
            answered(OK, rest)
        }
        Err(fault) => refusal_told(fault.refusal()),
    }
}
