//! How far a text was read.

ghost use Rattle.std.specs.Prelude.{◌≡◌, option_map};
ghost use Rattle.strptime_fields.specs.Keeping.{keep, keep_year_day, keep_year};
ghost use Rattle.strptime_fields.specs.Reading.{sign, kept_as, kind_of, number as number_in, longest as longest_in, read};
ghost use Rattle.strptime_fields.specs.Scans.{read_onward};
ghost use Rattle.strptime_fields.specs.Seen.{seen};

use crate::item::{Digits, Item, Kind, Names};
use crate::last_read::LastRead;
use crate::names::longest;
use crate::number::{behind_white, number};
use time_cat::Time;

/// How far a text was read.
#[derive(Clone, Copy)]
pub enum Progress<'a> {
    /// Up to these bytes, with what was kept.
    On(&'a [u8], LastRead),
    /// Up to an item that these bytes do not meet.
    Missed(&'a [u8]),
}

/// What a byte reads.
fn sign(byte: u8, left: &[u8], last: LastRead) -> Option<(&[u8], LastRead)>
    ensures { option_map (λ r. (r.0.now, r.1)) result ≡ sign byte left.now last }
{
    match left {
        [first, rest @ ..] if *first == byte => Some((rest, last)),
        _ => None,
    }
}

/// What a number of a kind reads.
fn small_number(
    kind: Kind,
    digits: Digits,
    low: u8,
    high: u8,
    left: &[u8],
    last: LastRead,
) -> Option<(&[u8], LastRead)>
    ensures { option_map (λ r. (r.0.now, r.1)) result ≡ kept_as (keep kind) last (number_in digits low high left.now) }
{
    match number(digits, u16::from(low), u16::from(high), left) {
        None => None,
        Some((value, rest)) => Some((rest, last.with(kind, value as u8))),
    }
}

/// What a day of the year reads.
fn year_day(
    digits: Digits,
    low: u16,
    high: u16,
    left: &[u8],
    last: LastRead,
) -> Option<(&[u8], LastRead)>
    ensures { option_map (λ r. (r.0.now, r.1)) result ≡ kept_as keep_year_day last (number_in digits low high left.now) }
{
    match number(digits, low, high, left) {
        None => None,
        Some((day, rest)) => Some((rest, last.with_year_day(day))),
    }
}

/// What a year reads.
fn year(
    digits: Digits,
    low: u16,
    high: u16,
    left: &[u8],
    last: LastRead,
) -> Option<(&[u8], LastRead)>
    ensures { option_map (λ r. (r.0.now, r.1)) result ≡ kept_as keep_year last (number_in digits low high left.now) }
{
    match number(digits, low, high, left) {
        None => None,
        Some((year, rest)) => Some((rest, last.with_year(year))),
    }
}

/// The kind of names.
fn kind_of(names: Names) -> Kind
    ensures { result ≡ kind_of names }
{
    match names {
        Names::Weekdays => Kind::Weekday,
        Names::Months => Kind::Month,
        Names::HalfDays => Kind::HalfDay,
    }
}

/// What names read.
fn name<'a>(t: &Time, names: Names, left: &'a [u8], last: LastRead) -> Option<(&'a [u8], LastRead)>
    ensures { option_map (λ r. (r.0.now, r.1)) result ≡ kept_as (keep (kind_of names)) last (longest_in t.now names left.now) }
{
    match longest(t, names, left) {
        None => None,
        Some((value, rest)) => Some((rest, last.with(kind_of(names), value))),
    }
}

/// What an item reads.
fn read<'a>(t: &Time, item: Item, left: &'a [u8], last: LastRead) -> Option<(&'a [u8], LastRead)>
    ensures { option_map (λ r. (r.0.now, r.1)) result ≡ read t.now item left.now last }
{
    match item {
        Item::White => Some((behind_white(left), last)),
        Item::Sign(byte) => sign(byte, left, last),
        Item::Number(kind, digits, low, high) => small_number(kind, digits, low, high, left, last),
        Item::YearDay(digits, low, high) => year_day(digits, low, high, left, last),
        Item::Year(digits, low, high) => year(digits, low, high, left, last),
        Item::Name(names) => name(t, names, left, last),
        Item::Format(_) => Some((left, last)),
    }
}

/// How far a text was read with one item more.
pub fn read_item<'a>(t: &Time, item: Item, progress: Progress<'a>) -> Progress<'a>
    ensures { seen result ≡ read_onward t.now (seen progress.entry) item }
{
    match progress {
        Progress::Missed(left) => Progress::Missed(left),
        Progress::On(left, last) => match read(t, item, left, last) {
            None => Progress::Missed(left),
            Some((rest, last)) => Progress::On(rest, last),
        },
    }
}
