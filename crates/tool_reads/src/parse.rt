//! The fields of a time that a text has.

ghost use Rattle.std.specs.Prelude.{◌≡◌, ◌++◌, IfOk, OnOk, option_map};
ghost use Rattle.tool_reads.specs.Answers.{Answers};
ghost use Rattle.tool_reads.specs.Printed.{fields_text, number_field, parsed_lines, year_number};

use crate::format_fault::problem_of;
use lc_base::{ByteText, push_number};
use std::alloc::{AllocError, Global};
use strptime_fields::{Parsed, strptime};
use time_cat::Time;
use tool_messages::Problem;

/// A line `NAME=VALUE` for each field that a text has, and one for the number of bytes that were read
/// (XSH strptime). Refused where the format is none, or the text does not meet it.
#[tactic(auto, using(crate::proofs::AnswerLemmas::told))]
pub fn parsed_lines(
    alloc: Global,
    time: &Time,
    format: &str,
    text: &str,
) -> Result<ByteText, Problem>
    ensures { Answers (λ lines. lines) result (parsed_lines time.now format.now text.now) }
{
    let (format, text) = (format.as_bytes(), text.as_bytes());
    match strptime(time, format, text) {
        Ok((fields, read)) => Ok(lines_of(alloc, &fields, read)?),
        Err(fault) => Err(problem_of(alloc, format, text, fault.refusal())),
    }
}

fn lines_of(alloc: Global, fields: &Parsed, read: usize) -> Result<ByteText, AllocError>
    ensures { IfOk result (λ lines. lines ≡ fields_text fields.now read) }
{
    let mut lines = Vec::new(alloc);
    push_field(&mut lines, b"year", year_number(fields.year))?;
    push_field(&mut lines, b"mon", wide(fields.mon))?;
    push_field(&mut lines, b"mday", wide(fields.mday))?;
    push_field(&mut lines, b"hour", wide(fields.hour))?;
    push_field(&mut lines, b"min", wide(fields.min))?;
    push_field(&mut lines, b"sec", wide(fields.sec))?;
    push_field(&mut lines, b"wday", wide(fields.wday))?;
    push_field(&mut lines, b"yday", wide_day(fields.yday))?;
    push_field(&mut lines, b"read", Some(read as u64))?;
    Ok(ByteText::from_vec(lines))
}

/// A year, which is not negative.
fn year_number(year: Option<i32>) -> Option<u64>
    ensures { result ≡ option_map year_number year }
{
    match year {
        Some(year) => Some(u64::try_from(year).unwrap_or(0)),
        None => None,
    }
}

fn wide(field: Option<u8>) -> Option<u64>
    ensures { result ≡ field }
{
    match field {
        Some(value) => Some(u64::from(value)),
        None => None,
    }
}

fn wide_day(day: Option<u16>) -> Option<u64>
    ensures { result ≡ day }
{
    match day {
        Some(day) => Some(u64::from(day)),
        None => None,
    }
}

#[tactic(auto, unfolding(crate::specs::Printed::field))]
fn push_field(lines: &mut Vec<u8>, name: &[u8], value: Option<u64>) -> Result<(), AllocError>
    ensures { OnOk result (lines.new.items ≡ lines.old.items ++ number_field name.now value) }
{
    match value {
        Some(value) => {
            lines.extend_from_slice(name)?;
            lines.extend_from_slice(b"=")?;
            push_number(lines, u128::from(value))?;
            lines.extend_from_slice(b"\n")
        }
        None => Ok(()),
    }
}
