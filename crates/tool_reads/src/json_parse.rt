//! The fields of a time that a text has.

ghost use Rattle.std.specs.Prelude.{◌≡◌, ◌++◌, IfOk, OnOk, option_map};
ghost use Rattle.tool_reads.specs.Answers.{Answers};
ghost use Rattle.tool_reads.specs.Printed.{year_number};
ghost use Rattle.tool_reads.specs.JsonReads.{clock_members, date_members, day_members, fields_json, number_if, parsed_json};

use crate::problem_of;
use json::Writer;
use lc_base::ByteText;
use std::alloc::{AllocError, Global};
use strptime_fields::{Parsed, strptime};
use time_cat::Time;
use tool_json::{json_line, new_writer, push_number_member};
use tool_messages::Problem;

/// An object with a member for each field that a text has, and one for the number of bytes that were read
/// (XSH strptime). Refused where the format is none, or the text does not meet it.
#[tactic(auto, using(crate::proofs::AnswerLemmas::told))]
pub fn parsed_json(
    alloc: Global,
    time: &Time,
    format: &str,
    text: &str,
) -> Result<ByteText, Problem>
    ensures { Answers (λ line. line) result (parsed_json time.now format.now text.now) }
{
    let (format, text) = (format.as_bytes(), text.as_bytes());
    match strptime(time, format, text) {
        Ok((fields, read)) => Ok(fields_json(alloc, &fields, read)?),
        Err(fault) => Err(problem_of(alloc, format, text, fault.refusal())),
    }
}

fn fields_json(alloc: Global, fields: &Parsed, read: usize) -> Result<ByteText, AllocError>
    ensures { IfOk result (λ line. line ≡ fields_json fields.now read) }
{
    let mut json = new_writer(alloc);
    json.begin_object()?;
    push_date(&mut json, fields)?;
    push_clock(&mut json, fields)?;
    push_days(&mut json, fields)?;
    push_number_member(&mut json, "read", read as u64)?;
    json.end_object()?;
    json_line(json)
}

#[tactic(auto, unfolding(crate::specs::JsonReads::date_members))]
fn push_date(json: &mut Writer, fields: &Parsed) -> Result<(), AllocError>
    ensures before { json.new.before ≡ json.old.before }
    ensures tokens { OnOk result (json.new.tokens ≡ json.old.tokens ++ date_members fields.now) }
{
    push_number_if(json, "year", year_number(fields.year))?;
    push_number_if(json, "mon", wide(fields.mon))?;
    push_number_if(json, "mday", wide(fields.mday))
}

#[tactic(auto, unfolding(crate::specs::JsonReads::clock_members))]
fn push_clock(json: &mut Writer, fields: &Parsed) -> Result<(), AllocError>
    ensures before { json.new.before ≡ json.old.before }
    ensures tokens { OnOk result (json.new.tokens ≡ json.old.tokens ++ clock_members fields.now) }
{
    push_number_if(json, "hour", wide(fields.hour))?;
    push_number_if(json, "min", wide(fields.min))?;
    push_number_if(json, "sec", wide(fields.sec))
}

#[tactic(auto, unfolding(crate::specs::JsonReads::day_members))]
fn push_days(json: &mut Writer, fields: &Parsed) -> Result<(), AllocError>
    ensures before { json.new.before ≡ json.old.before }
    ensures tokens { OnOk result (json.new.tokens ≡ json.old.tokens ++ day_members fields.now) }
{
    push_number_if(json, "wday", wide(fields.wday))?;
    push_number_if(json, "yday", wide_day(fields.yday))
}

/// A year, which is not negative.
fn year_number(year: Option<i32>) -> Option<u64>
    ensures { result ≡ option_map year_number year }
{
    match year {
        Some(year) => Some(u64::try_from(year).unwrap_or(0)),
        None => None,
    }
}

fn wide(field: Option<u8>) -> Option<u64>
    ensures { result ≡ field }
{
    match field {
        Some(value) => Some(u64::from(value)),
        None => None,
    }
}

fn wide_day(day: Option<u16>) -> Option<u64>
    ensures { result ≡ day }
{
    match day {
        Some(day) => Some(u64::from(day)),
        None => None,
    }
}

fn push_number_if(json: &mut Writer, name: &str, value: Option<u64>) -> Result<(), AllocError>
    ensures before { json.new.before ≡ json.old.before }
    ensures tokens { OnOk result (json.new.tokens ≡ json.old.tokens ++ number_if name.now value) }
{
    match value {
        Some(value) => push_number_member(json, name, value),
        None => Ok(()),
    }
}
